//! The keys of a table: few are prepared for MACs, which makes short messages cheaper, and more are not.

use crate::permitted::Permission;
use cose_mac::{Alg, Running};
use cose_map::{Key, KeyMeaning, KeyTable, Keys, PreparedTable, Query, Reason, Refusal};

/// The most keys of a table.
const MANY: usize = 64;

/// The most keys of a table that prepares them. Such a table takes no more room than one of 64 keys that doesn't.
const FEW: usize = 8;

/// The keys of a table.
#[derive(Drop)]
pub enum TableKeys {
    /// At most 8, each of which is prepared for MACs.
    Few(PreparedTable<'static, FEW>),
    /// At most 64.
    Many(KeyTable<'static, MANY>),
}

impl TableKeys {
    ghost use Rattle.std.specs.Prelude.{◌≡◌, length};
    ghost use Rattle.cose_map.specs.KeySet.{keys_of};
    ghost use Rattle.cose_map.specs.KeyTable.{table_of};
    ghost use Rattle.cose_map.specs.Map.View.{seen_by};
    ghost use Rattle.cose_c.specs.Permitted.{permitted_in};
    ghost use Rattle.cose_c.specs.PermittedView.{permission_value};
    ghost use Rattle.cose_c.specs.Table.{keys_held, room_of};

    /// Reads the permitted keys of a set into this table, where the table is.
    pub(crate) fn fill(
        &mut self,
        keys: &'static [u8],
        permission: &Permission,
    ) -> Result<(), Refusal>
        ensures exact { seen_by (λ _. keys_held self.new) result
            ≡ table_of (room_of self.old)
            (permitted_in (permission_value permission.now) (keys_of keys.now)) }
    {
        match self {
            TableKeys::Few(table) => table.fill_permitted(keys, permission),
            TableKeys::Many(table) => table.fill_permitted(keys, permission),
        }
    }

    /// The number of its keys.
    pub(crate) fn count(&self) -> usize
        ensures { result ≡ length (keys_held self.now) }
    {
        match self {
            TableKeys::Few(table) => table.count(),
            TableKeys::Many(table) => table.count(),
        }
    }
}

impl KeyMeaning for &TableKeys {
    ghost use Rattle.cose_c.specs.Table.{keys_held};

    ghost usable = { λ keys. keys_held keys.now };

    fn begin_mac(&self, alg: Alg, secret: &[u8]) -> Running {
        match self {
            TableKeys::Few(table) => table.begin_mac(alg, secret),
            TableKeys::Many(_) => Running::hmac(alg, secret),
        }
    }
}

impl<'t> Keys<'t> for &'t TableKeys {
    fn find(&self, query: &Query) -> Result<(Key<'t>, i128), Reason> {
        match self {
            TableKeys::Few(table) => table.find(query),
            TableKeys::Many(table) => table.find(query),
        }
    }
}
