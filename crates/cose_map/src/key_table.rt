//! Tables of keys: the usable keys of a key set (RFC 9052 section 7), each of which is read once.

ghost use Rattle.std.specs.Prelude.{◌≤◌};

mod permitted;
mod restricted;
pub mod slot;

use crate::choice::fitting::Fitting;
use crate::choice::query::Query;
use crate::key::Key;
use crate::key_set::{KeySet, usable};
use crate::key_table::slot::Slot;
use crate::keys::{KeyMeaning, Keys};
use arrayvec::ArrayVec;
use cose_head::{Reason, Refusal};
use std::fmt;

/// The usable keys of a key set, at most `N`, which is from 1 to 256. A table reads each key once, and a
/// [`KeySet`] reads all its keys again at each call.
///
/// It holds the keys themselves, so its size grows with `N`: several users share a large table by reference. `Debug`
/// prints how many keys there are, and nothing of them.
#[derive(Drop)]
pub struct KeyTable<'a, const N: usize> {
    slots: ArrayVec<Slot<'a>, N>,
    ghost limit: { N ≤ 256 },
}

impl<'a, const N: usize> KeyTable<'a, N> {
    ghost use Rattle.std.specs.Prelude.{◌≡◌, ◌≤◌, [], length, IfErr, OnErr};
    ghost use Rattle.cose_map.specs.Choice.{chosen};
    ghost use Rattle.cose_map.specs.Choice.Place.{first_fitting, place_of};
    ghost use Rattle.cose_map.specs.Choice.View.{question, found_value};
    ghost use Rattle.cose_map.specs.KeySet.{keys_of};
    ghost use Rattle.cose_map.specs.KeyTable.{keys, table_of};
    ghost use Rattle.cose_map.specs.Map.View.{seen_by};

    /// A table without keys, in which [`KeyTable::fill`] reads a key set. `N` is at most 256.
    pub fn new() -> KeyTable<'a, N>
        requires limit { N ≤ 256 }
        ensures { keys result ≡ [] }
    {
        KeyTable {
            slots: ArrayVec::new(),
        }
    }

    /// Reads a key set into this table, in place of the keys that it has: as [`KeyTable::read`] does, but where the table is,
    /// so that no copy of it is on the stack. A table whose key set is refused has no keys.
    #[tactic(auto, using(crate::proofs::lemmas::KeyTable::table_holds, crate::proofs::lemmas::KeyTable::table_is_full))]
    pub fn fill(&mut self, bytes: &'a [u8]) -> Result<(), Refusal>
        requires { 1 ≤ N }
        ensures exact { seen_by (λ _. keys self.new) result ≡ table_of N (keys_of bytes.now) }
        ensures none { OnErr result (keys self.new ≡ []) }
        ensures within { IfErr result (λ refusal. refusal.place ≤ length bytes.now) }
    {
        self.slots.clear();
        let set = KeySet::read(bytes)?;
        for item in set.items() {
            if let Some(key) = usable(&item) {
                if self.slots.is_full() {
                    self.slots.clear();
                    return Err(Refusal {
                        reason: Reason::BadKeySet,
                        place: 0,
                    });
                }
                self.slots.push(Slot::Taken(key));
            }
        }
        // The proof cites what this ensures of the length.
        let _count = self.slots.len();
        Ok(())
    }

    /// Reads a key set of at most 65,535 bytes and at most `N` usable keys, from 1 to 256 (RFC 9052 section 7).
    ///
    /// A key that is refused is skipped, and takes none of the `N` places. The refusal is that of [`KeySet::read`], and
    /// then [`Reason::BadKeySet`] at 0 where there are more than `N` usable keys.
    pub fn read(bytes: &'a [u8]) -> Result<KeyTable<'a, N>, Refusal>
        requires some { 1 ≤ N }
        requires limit { N ≤ 256 }
        ensures exact { seen_by keys result ≡ table_of N (keys_of bytes.now) }
        ensures within { IfErr result (λ refusal. refusal.place ≤ length bytes.now) }
    {
        let mut table = KeyTable::new();
        match table.fill(bytes) {
            Ok(()) => Ok(table),
            Err(refusal) => Err(refusal),
        }
    }

    /// The places that are taken.
    pub(crate) fn slots(&self) -> &[Slot<'a>]
        ensures { result.now ≡ self.now.slots.items }
    {
        self.slots.as_slice()
    }

    /// The number of usable keys.
    pub fn count(&self) -> usize
        ensures { result ≡ length (keys self.now) }
    {
        self.slots.len()
    }

    /// The one key that fits the query of a message, and the number of the algorithm that it is used with. The reasons
    /// are those of [`KeySet::find`].
    #[tactic(auto, unfolding(crate::specs::Choice::chosen))]
    pub fn find(&self, query: &Query) -> Result<(Key<'a>, i128), Reason>
        ensures { found_value result ≡ chosen (question query.now) (keys self.now) }
    {
        if !query.is_answerable() {
            return Err(Reason::UnknownAlg);
        }
        let mut fitting = Fitting::Nothing;
        for slot in self.slots.as_slice() {
            slot.meet(&mut fitting, query);
        }
        fitting.answer(query)
    }

    /// The number of the first key that fits.
    fn first_fitting(&self, query: &Query) -> Option<usize>
        ensures { result ≡ first_fitting (question query.now) 0 (keys self.now) }
    {
        let mut place = 0;
        for slot in self.slots.as_slice() {
            if slot.is_fitting(query) {
                return Some(place);
            }
            place += 1;
        }
        None
    }

    /// Where the key that [`KeyTable::find`] finds stands: how many keys of the table are before it. `None` where none is
    /// found.
    pub fn place(&self, query: &Query) -> Option<usize>
        ensures { result ≡ place_of (question query.now) (keys self.now) }
    {
        match self.find(query) {
            Ok(_) => self.first_fitting(query),
            Err(_) => None,
        }
    }
}

impl<const N: usize> KeyMeaning for KeyTable<'_, N> {
    ghost use Rattle.cose_map.specs.KeyTable.{keys};

    ghost usable = { keys };
}

impl<'a, const N: usize> Keys<'a> for KeyTable<'a, N> {
    fn find(&self, query: &Query) -> Result<(Key<'a>, i128), Reason> {
        KeyTable::find(self, query)
    }
}

impl<'t, 'a, const N: usize> KeyMeaning for &'t KeyTable<'a, N> {
    ghost use Rattle.cose_map.specs.KeyTable.{keys};

    ghost usable = { λ table. keys table.now };
}

impl<'t, 'a, const N: usize> Keys<'a> for &'t KeyTable<'a, N> {
    fn find(&self, query: &Query) -> Result<(Key<'a>, i128), Reason> {
        KeyTable::find(*self, query)
    }
}

impl<const N: usize> fmt::Debug for KeyTable<'_, N> {
    ghost use Rattle.std.specs.Prelude.{Some, length};
    ghost use Rattle.cose_map.specs.Key.Shown.{key_table_text};
    ghost use Rattle.cose_map.specs.KeyTable.{keys};

    ghost debug_output = { λ table. Some (key_table_text (length (keys table))) };

    fn fmt<W: fmt::Write>(&self, f: &mut fmt::Formatter<W>) -> fmt::Result {
        let count = self.count();
        write!(f, "KeyTable {{ keys: {count} }}")
    }
}
