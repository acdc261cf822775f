//! The keys of a verifier that is fed: those of a set that are permitted, or those of a table.

ghost use Rattle.cose_c.specs.FedKeys.{keys_fed};

use crate::permitted::PermittedKeys;
use crate::table::keys::TableKeys;
use cose_mac::{Alg, Running};
use cose_map::{Key, KeyMeaning, Keys, Query, Reason};

/// Where the keys are.
#[derive(Clone, Copy)]
pub(crate) enum FedKeys<'k> {
    /// In a set, of which each is read again at each look.
    InSet(PermittedKeys<'k>),
    /// In a table, for which each was read once.
    InTable(&'k TableKeys),
}

impl KeyMeaning for FedKeys<'_> {
    ghost usable = { keys_fed };

    fn begin_mac(&self, alg: Alg, secret: &[u8]) -> Running {
        match self {
            FedKeys::InSet(keys) => keys.begin_mac(alg, secret),
            FedKeys::InTable(keys) => keys.begin_mac(alg, secret),
        }
    }
}

impl<'k> Keys<'k> for FedKeys<'k> {
    fn find(&self, query: &Query) -> Result<(Key<'k>, i128), Reason> {
        match self {
            FedKeys::InSet(keys) => keys.find(query),
            FedKeys::InTable(keys) => keys.find(query),
        }
    }
}
