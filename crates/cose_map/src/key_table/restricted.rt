//! Tables of the keys of a set that may be used.

ghost use Rattle.std.specs.Prelude.{◌≡◌, ◌≤◌, length, IfErr};
ghost use Rattle.cose_map.specs.KeySet.{keys_of};
ghost use Rattle.cose_map.specs.KeyTable.{keys, table_of};
ghost use Rattle.cose_map.specs.Map.View.{seen_by};
ghost use Rattle.cose_map.specs.Restrictions.{allowed_in};
ghost use Rattle.cose_map.specs.Restrictions.View.{restrictions_value};

use crate::key_table::KeyTable;
use crate::restrictions::Restrictions;
use cose_head::Refusal;

impl<'a, const N: usize> KeyTable<'a, N> {
    /// Reads a key set as [`KeyTable::read`] does, without the keys that `restrictions` don't allow: none of them fits
    /// a message, makes the choice ambiguous, or takes one of the `N` places.
    pub fn read_restricted(
        bytes: &'a [u8],
        restrictions: &Restrictions<'_>,
    ) -> Result<KeyTable<'a, N>, Refusal>
        requires some { 1 ≤ N }
        requires limit { N ≤ 256 }
        ensures exact { seen_by keys result ≡ table_of N
            (allowed_in (restrictions_value restrictions.entry.now) (keys_of bytes.now)) }
        ensures within { IfErr result (λ refusal. refusal.place ≤ length bytes.now) }
    {
        let mut table = KeyTable::new();
        match table.fill_permitted(bytes, restrictions) {
            Ok(()) => Ok(table),
            Err(refusal) => Err(refusal),
        }
    }
}
