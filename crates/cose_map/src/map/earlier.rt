//! The pairs of a map before the current one, among which its label must not be (RFC 9052 section 3).

ghost use Rattle.std.specs.Prelude.{◌≡◌, ◌+◌, ◌<◌, ◌^◌, [], take, true, Some, option_map};
ghost use Rattle.cose_head.specs.ItemRef.{placed};
ghost use Rattle.cose_map.specs.Label.Order as order;
ghost use Rattle.cose_map.specs.Map.Pairs.{has_label};
ghost use Rattle.cose_map.specs.Map.Read.{label_after, pair_after};
ghost use Rattle.cose_map.specs.Map.View.{pairs_left, pair_value, seen_by};
ghost use Rattle.cose_map.specs.Label.View.{label_value};

use crate::label::Label;
use crate::map::form::Form;
use crate::map::pairs::Pairs;
use crate::map::read::refused;
use cose_head::{ItemRef, Reason, Refusal};

/// The first pairs of a map, and the greatest of their labels: a label that follows it in the order is new.
#[derive(Clone, Copy)]
pub(crate) struct Earlier<'a> {
    /// All pairs of the map.
    pub(crate) pairs: Pairs<'a>,
    /// How many of them are earlier ones.
    pub(crate) count: u128,
    /// The greatest of their labels.
    pub(crate) greatest: Option<Label<'a>>,
    /// No earlier label follows the greatest in the order.
    pub ghost greatest_of_them: { order.is_greatest (option_map label_value greatest)
        (take count (pairs_left pairs)) ≡ true },
}

/// Whether a label follows the greatest so far in the order.
pub(crate) fn passes(greatest: Option<Label<'_>>, name: &Label<'_>) -> bool
    ensures { result ≡ order.passes (option_map label_value greatest.entry) (label_value name.now) }
{
    match greatest {
        Some(greatest) => greatest.precedes(name),
        None => true,
    }
}

/// The greater of a label and the greatest so far.
fn greater<'a>(greatest: Option<Label<'a>>, name: Label<'a>) -> Option<Label<'a>>
    ensures { option_map label_value result
        ≡ order.greater (option_map label_value greatest.entry) (label_value name.entry) }
{
    if passes(greatest, &name) {
        return Some(name);
    }
    greatest
}

impl<'a> Earlier<'a> {
    ghost use Rattle.cose_map.specs.Map.Earlier.{earlier_pairs};

    /// Before the first pair there is none.
    pub(crate) fn none(pairs: Pairs<'a>) -> Earlier<'a>
        ensures pairs { pairs_left result.pairs ≡ pairs_left pairs.entry }
        ensures none { result.count ≡ 0 }
    {
        Earlier {
            pairs,
            count: 0,
            greatest: None,
        }
    }

    /// Adds the next pair, whose label this is.
    pub(crate) fn push(&mut self, name: Label<'a>)
        requires few { self.old.count + 1 < 2 ^ 128 }
        requires greatest { order.is_greatest
            (order.greater (option_map label_value self.old.greatest) (label_value name))
            (take (self.old.count + 1) (pairs_left self.old.pairs)) ≡ true }
        ensures pairs { pairs_left self.new.pairs ≡ pairs_left self.old.pairs }
        ensures count { self.new.count ≡ self.old.count + 1 }
    {
        self.greatest = greater(self.greatest, name);
        self.count += 1;
    }

    /// Adds the next pair, whose label this is: one that passes the greatest so far.
    pub(crate) fn push_greatest(&mut self, name: Label<'a>)
        requires few { self.old.count + 1 < 2 ^ 128 }
        requires greatest { order.is_greatest (option_map label_value (Some name))
            (take (self.old.count + 1) (pairs_left self.old.pairs)) ≡ true }
        ensures pairs { pairs_left self.new.pairs ≡ pairs_left self.old.pairs }
        ensures count { self.new.count ≡ self.old.count + 1 }
    {
        self.greatest = Some(name);
        self.count += 1;
    }
}
