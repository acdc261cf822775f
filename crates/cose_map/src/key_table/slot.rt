//! The places of a table of keys.

ghost use Rattle.std.specs.Prelude.{◌≡◌, ℤ, List};
ghost use Rattle.std.specs.List.{cons_option};
ghost use Rattle.cose_map.specs.Choice.{fitting as fitting_key};
ghost use Rattle.cose_map.specs.Choice.Place.{is_fitting as is_fitting_key};
ghost use Rattle.cose_map.specs.Choice.View.{question, with_rest};
ghost use Rattle.cose_map.specs.Key.Value.{KeyValue};
ghost use Rattle.cose_map.specs.Key.View.{key_value};
ghost use Rattle.cose_map.specs.KeyTable.{blank_key, slot_value};

use crate::choice::fitting::Fitting;
use crate::choice::query::Query;
use crate::key::Key;
use crate::key::material::Material;

/// A place of a table.
///
/// An empty place is a variant without fields, so that a table without keys is made by writing a number to each place, and is
/// never moved. In a contract an empty place holds a blank key, which no call returns.
#[derive(Clone, Copy)]
pub(crate) enum Slot<'a> {
    /// No key.
    Empty,
    /// A key.
    Taken(Key<'a>),
}

impl Default for Slot<'_> {
    fn default() -> Self {
        Slot::Empty
    }
}

/// The key that an empty place holds in a contract.
fn blank<'a>() -> Key<'a>
    ensures { key_value result ≡ blank_key }
{
    Key {
        kid: None,
        alg: None,
        ops: None,
        material: Material::Symmetric(&[0]),
    }
}

impl<'a> Slot<'a> {
    /// Meets `fitting` with the key of the place, as [`Fitting::meet`] does.
    pub(crate) fn meet(&self, fitting: &mut Fitting<'a>, query: &Query)
        ensures { (rest : List (KeyValue × ℤ)) → with_rest (question query.now) fitting.new rest
            ≡ with_rest (question query.now) fitting.old
            (cons_option (fitting_key (question query.now) (slot_value self.now)) rest) }
    {
        match self {
            Slot::Taken(key) => fitting.meet(key, query),
            Slot::Empty => fitting.meet(&blank(), query),
        }
    }

    /// Whether the key of the place fits.
    pub(crate) fn is_fitting(&self, query: &Query) -> bool
        ensures { result ≡ is_fitting_key (question query.now) (slot_value self.now) }
    {
        match self {
            Slot::Taken(key) => query.fitting(key).is_some(),
            Slot::Empty => query.fitting(&blank()).is_some(),
        }
    }
}
