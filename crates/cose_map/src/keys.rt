//! Keys of which one is found: what key sets and tables of keys have in common.

use crate::choice::query::Query;
use crate::key::Key;
use cose_head::{Alg, Reason};
use cose_mac::Running;

/// What keys are in a contract, the usable ones in their order, and how a MAC under one of them begins.
///
/// This is a trait of its own because one with a lifetime parameter can have no method with a body, and one with a ghost
/// member too can't bound a struct that has ghost fields.
pub trait KeyMeaning {
    ghost use Rattle.std.specs.Prelude.{List, [], IsTrue};
    ghost use Rattle.cose_head.specs.Algorithm.{is_mac_of};
    ghost use Rattle.cose_mac.specs.Running.{FedMac};
    ghost use Rattle.cose_map.specs.Key.Value.{KeyValue};

    ghost usable: { Self → List KeyValue };

    /// The MAC of the empty message under a secret, as [`Running::hmac`] makes it. A
    /// [`PreparedTable`](crate::PreparedTable) has part of it at hand for the secrets of its keys.
    ///
    /// The algorithm must be one for MACs: [`Alg::is_mac`] is true.
    fn begin_mac(&self, alg: Alg, secret: &[u8]) -> Running
        requires { IsTrue (is_mac_of alg) }
        ensures { FedMac result alg secret.now [] }
    {
        Running::hmac(alg, secret)
    }
}

/// Keys among which the one that fits a message is found: a [`KeySet`](crate::KeySet), a [`KeyTable`](crate::KeyTable), a
/// [`PreparedTable`](crate::PreparedTable), or a reference to such a table.
pub trait Keys<'k>: KeyMeaning {
    ghost use Rattle.std.specs.Prelude.{◌≡◌};
    ghost use Rattle.cose_map.specs.Choice.{chosen};
    ghost use Rattle.cose_map.specs.Choice.View.{question, found_value};

    /// The one key that fits the query of a message, and the number of the algorithm that it is used with. The reasons
    /// are those of [`KeySet::find`](crate::KeySet::find).
    fn find(&self, query: &Query) -> Result<(Key<'k>, i128), Reason>
        ensures { found_value result ≡ chosen (question query.now) (Self.usable self.now) };
}
