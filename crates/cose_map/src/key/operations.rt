//! The operations that a key is restricted to (RFC 9052 section 7.1).

use cose_head::Items;
use std::fmt;

/// The operations that a key lists. `Debug` prints how many there are.
#[derive(Clone, Copy)]
pub struct Ops<'a> {
    /// The elements of key_ops, integers and text strings.
    pub(crate) elements: Items<'a>,
}

impl Ops<'_> {
    ghost use Rattle.std.specs.Prelude.{◌≡◌};
    ghost use Rattle.std.specs.List.{list_any};
    ghost use Rattle.std.specs.Ordering.{int_eq};
    ghost use Rattle.cose_map.specs.Key.View.{operations_of};

    /// Whether the operation is among them, by its number.
    pub fn holds(&self, operation: i128) -> bool
        ensures { result ≡ list_any (int_eq operation) (operations_of self.now) }
    {
        for element in self.elements {
            if element.as_int() == Some(operation) {
                return true;
            }
        }
        false
    }
}

impl fmt::Debug for Ops<'_> {
    fn fmt<W: fmt::Write>(&self, f: &mut fmt::Formatter<W>) -> fmt::Result {
        let mut count = 0usize;
        for _element in self.elements {
            count = count.saturating_add(1);
        }
        write!(f, "{count} operations")
    }
}
