//! Tables of keys that are prepared for MACs.

ghost use Rattle.std.specs.Prelude.{◌≡◌};

mod prepared_key;

use crate::choice::query::Query;
use crate::key::Key;
use crate::key_table::KeyTable;
use crate::key_table::slot::Slot;
use crate::keys::{KeyMeaning, Keys};
use crate::prepared_table::prepared_key::PreparedKey;
use crate::restrictions::Permits;
use arrayvec::ArrayVec;
use cose_head::{Alg, Reason, Refusal};
use cose_mac::Running;
use std::fmt;

/// A table of keys, each of whose secrets is prepared for MACs: what HMAC makes of the key alone is computed once, and not
/// for each message. Of a short message that is half of what is hashed.
///
/// A key is prepared for the algorithm that it names, and one that names none for HMAC 256/64 and 256/256. By another
/// algorithm its MACs are made from the secret, as under a [`KeyTable`].
///
/// It holds the `KeyTable`, and for each of its `N` places 480 bytes more: a secret by reference, and two hashers
/// that were fed a block each, which are as secret as the key: with them any MAC under it can be made. They stay in the
/// table's memory until something else is written there. Several users share a table by reference. `Debug` prints how many
/// keys there are, and nothing of them.
#[derive(Drop)]
pub struct PreparedTable<'a, const N: usize> {
    table: KeyTable<'a, N>,
    prepared: ArrayVec<PreparedKey<'a>, N>,
}

/// Adds what the keys of a table are prepared as, where there is room: there are as many places as keys.
fn prepare<'a, const N: usize>(
    table: &KeyTable<'a, N>,
    prepared: &mut ArrayVec<PreparedKey<'a>, N>,
) {
    for slot in table.slots() {
        if let Slot::Taken(key) = slot {
            if let Some(key) = PreparedKey::of(key) {
                let _ = prepared.try_push(key);
            }
        }
    }
}

impl<'a, const N: usize> PreparedTable<'a, N> {
    ghost use Rattle.std.specs.Prelude.{◌≤◌, [], length, IfErr, OnErr};
    ghost use Rattle.cose_map.specs.Choice.{chosen};
    ghost use Rattle.cose_map.specs.Choice.Place.{place_of};
    ghost use Rattle.cose_map.specs.Choice.View.{question, found_value};
    ghost use Rattle.cose_map.specs.KeySet.{keys_of};
    ghost use Rattle.cose_map.specs.KeyTable.{keys, table_of};
    ghost use Rattle.cose_map.specs.Map.View.{seen_by};
    ghost use Rattle.cose_map.specs.PreparedTable.{prepared_keys};
    ghost use Rattle.cose_map.specs.Restrictions.{permitted_in};

    /// The same keys, prepared.
    pub fn new(table: KeyTable<'a, N>) -> PreparedTable<'a, N>
        ensures { prepared_keys result ≡ keys table.entry }
    {
        let mut prepared = ArrayVec::new();
        prepare(&table, &mut prepared);
        PreparedTable { table, prepared }
    }

    /// A table without keys, in which [`PreparedTable::fill`] reads a key set. `N` is at most 256.
    pub fn empty() -> PreparedTable<'a, N>
        requires limit { N ≤ 256 }
        ensures { prepared_keys result ≡ [] }
    {
        PreparedTable {
            table: KeyTable::new(),
            prepared: ArrayVec::new(),
        }
    }

    /// Reads a key set into this table, in place of the keys that it has, as [`KeyTable::fill`] does, and prepares each: where the
    /// table is, so that no copy of it is on the stack.
    pub fn fill(&mut self, bytes: &'a [u8]) -> Result<(), Refusal>
        requires { 1 ≤ N }
        ensures exact { seen_by (λ _. prepared_keys self.new) result
            ≡ table_of N (keys_of bytes.now) }
        ensures none { OnErr result (prepared_keys self.new ≡ []) }
        ensures within { IfErr result (λ refusal. refusal.place ≤ length bytes.now) }
    {
        self.prepared.clear();
        self.table.fill(bytes)?;
        prepare(&self.table, &mut self.prepared);
        Ok(())
    }

    /// The same without the keys that a rule doesn't permit, as [`KeyTable::fill_permitted`] leaves them out.
    pub fn fill_permitted<P: Permits>(&mut self, bytes: &'a [u8], rule: &P) -> Result<(), Refusal>
        requires { 1 ≤ N }
        ensures exact { seen_by (λ _. prepared_keys self.new) result
            ≡ table_of N (permitted_in (P.permitted rule.now) (keys_of bytes.now)) }
        ensures none { OnErr result (prepared_keys self.new ≡ []) }
        ensures within { IfErr result (λ refusal. refusal.place ≤ length bytes.now) }
    {
        self.prepared.clear();
        self.table.fill_permitted(bytes, rule)?;
        prepare(&self.table, &mut self.prepared);
        Ok(())
    }

    /// The number of usable keys.
    pub fn count(&self) -> usize
        ensures { result ≡ length (prepared_keys self.now) }
    {
        self.table.count()
    }

    /// The one key that fits the query of a message, and the number of the algorithm that it is used with. The reasons
    /// are those of [`KeySet::find`](crate::KeySet::find).
    pub fn find(&self, query: &Query) -> Result<(Key<'a>, i128), Reason>
        ensures { found_value result ≡ chosen (question query.now) (prepared_keys self.now) }
    {
        self.table.find(query)
    }

    /// Where the key that [`PreparedTable::find`] finds stands: how many keys of the table are before it. `None` where none is
    /// found.
    pub fn place(&self, query: &Query) -> Option<usize>
        ensures { result ≡ place_of (question query.now) (prepared_keys self.now) }
    {
        self.table.place(query)
    }
}

impl<const N: usize> PreparedTable<'_, N> {
    ghost use Rattle.std.specs.Prelude.{[], IsTrue};
    ghost use Rattle.cose_head.specs.Algorithm.{is_mac_of};
    ghost use Rattle.cose_mac.specs.Running.{FedMac};

    /// The MAC of the empty message, as [`Running::hmac`] makes it: from what is prepared, where the secret is one of
    /// this table.
    ///
    /// The algorithm must be one for MACs: [`Alg::is_mac`] is true.
    pub fn begin_mac(&self, alg: Alg, secret: &[u8]) -> Running
        requires { IsTrue (is_mac_of alg) }
        ensures { FedMac result alg secret.now [] }
    {
        for key in self.prepared.as_slice() {
            if let Some(prepared) = key.prepared_for(alg, secret) {
                return prepared.begin(alg);
            }
        }
        Running::hmac(alg, secret)
    }
}

impl<const N: usize> KeyMeaning for PreparedTable<'_, N> {
    ghost use Rattle.cose_map.specs.PreparedTable.{prepared_keys};

    ghost usable = { prepared_keys };

    fn begin_mac(&self, alg: Alg, secret: &[u8]) -> Running {
        PreparedTable::begin_mac(self, alg, secret)
    }
}

impl<'a, const N: usize> Keys<'a> for PreparedTable<'a, N> {
    fn find(&self, query: &Query) -> Result<(Key<'a>, i128), Reason> {
        PreparedTable::find(self, query)
    }
}

impl<'t, 'a, const N: usize> KeyMeaning for &'t PreparedTable<'a, N> {
    ghost use Rattle.cose_map.specs.PreparedTable.{prepared_keys};

    ghost usable = { λ table. prepared_keys table.now };

    fn begin_mac(&self, alg: Alg, secret: &[u8]) -> Running {
        PreparedTable::begin_mac(*self, alg, secret)
    }
}

impl<'t, 'a, const N: usize> Keys<'a> for &'t PreparedTable<'a, N> {
    fn find(&self, query: &Query) -> Result<(Key<'a>, i128), Reason> {
        self.table.find(query)
    }
}

impl<const N: usize> fmt::Debug for PreparedTable<'_, N> {
    ghost use Rattle.std.specs.Prelude.{Some, length};
    ghost use Rattle.cose_map.specs.Key.Shown.{prepared_table_text};
    ghost use Rattle.cose_map.specs.PreparedTable.{prepared_keys};

    ghost debug_output = { λ table. Some (prepared_table_text (length (prepared_keys table))) };

    fn fmt<W: fmt::Write>(&self, f: &mut fmt::Formatter<W>) -> fmt::Result {
        let count = self.count();
        write!(f, "PreparedTable {{ keys: {count} }}")
    }
}
