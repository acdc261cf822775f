//! Tables of the keys of a set that a rule permits.

ghost use Rattle.std.specs.Prelude.{◌≡◌, ◌≤◌, [], length, IfErr, OnErr};
ghost use Rattle.cose_map.specs.KeySet.{keys_of};
ghost use Rattle.cose_map.specs.KeyTable.{keys, table_of};
ghost use Rattle.cose_map.specs.Map.View.{seen_by};
ghost use Rattle.cose_map.specs.Restrictions.{permitted_in};

use crate::key_set::{KeySet, usable};
use crate::key_table::KeyTable;
use crate::key_table::slot::Slot;
use crate::restrictions::Permits;
use cose_head::{Reason, Refusal};

impl<'a, const N: usize> KeyTable<'a, N> {
    /// Reads a key set into this table as [`KeyTable::fill`] does, without the keys that the rule doesn't permit: none of them fits
    /// a message, makes the choice ambiguous, or takes one of the `N` places.
    #[tactic(auto, using(crate::proofs::lemmas::KeyTable::table_holds, crate::proofs::lemmas::KeyTable::table_is_full))]
    pub fn fill_permitted<P: Permits>(&mut self, bytes: &'a [u8], rule: &P) -> Result<(), Refusal>
        requires { 1 ≤ N }
        ensures exact { seen_by (λ _. keys self.new) result
            ≡ table_of N (permitted_in (P.permitted rule.now) (keys_of bytes.now)) }
        ensures none { OnErr result (keys self.new ≡ []) }
        ensures within { IfErr result (λ refusal. refusal.place ≤ length bytes.now) }
    {
        self.slots.clear();
        let set = KeySet::read(bytes)?;
        for item in set.items() {
            if let Some(key) = usable(&item) {
                if rule.permits(&key) {
                    if self.slots.is_full() {
                        self.slots.clear();
                        return Err(Refusal {
                            reason: Reason::BadKeySet,
                            place: 0,
                        });
                    }
                    self.slots.push(Slot::Taken(key));
                }
            }
        }
        // The proof cites what this ensures of the length.
        let _count = self.slots.len();
        Ok(())
    }
}
