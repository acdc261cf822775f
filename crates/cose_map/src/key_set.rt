//! Key sets (RFC 9052 section 7).

ghost use Rattle.std.specs.Prelude.{◌≡◌, option_map};
ghost use Rattle.cose_head.specs.ItemRef.{placed};
ghost use Rattle.cose_map.specs.KeySet.{usable as usable_key};
ghost use Rattle.cose_map.specs.Key.View.{key_value};

mod further;
mod items;
mod permitted;

use crate::choice::fitting::Fitting;
use crate::choice::query::Query;
use crate::key::{Key, NESTING};
use crate::key_set::items::KeyItems;
use crate::keys::{KeyMeaning, Keys};
use crate::map::read::refused;
use cose_head::{Hidden, ItemRef, Reason, Refusal};
use std::fmt;

/// The greatest number of bytes of a key set.
const MOST_BYTES: usize = 65_535;

/// A set of keys: one key, or an array of keys, of which only the usable ones count. `Debug` prints how many bytes it
/// has, and none of them.
#[derive(Clone, Copy)]
pub struct KeySet<'a> {
    set: ItemRef<'a>,
}

/// The key that an item is, if it is a usable one.
pub(crate) fn usable<'a>(item: &ItemRef<'a>) -> Option<Key<'a>>
    ensures { option_map key_value result ≡ usable_key (placed item.now) }
{
    Key::read(item.bytes, item.place).ok()
}

impl<'a> KeySet<'a> {
    ghost use Rattle.std.specs.Prelude.{◌≤◌, [], ◌∷◌, length, IfErr, IfOk};
    ghost use Rattle.cose_map.specs.Choice.{chosen};
    ghost use Rattle.cose_map.specs.Choice.Place.{first_fitting, place_of};
    ghost use Rattle.cose_map.specs.Choice.View.{question, found_value};
    ghost use Rattle.cose_map.specs.KeySet.{keys_of, items_in};
    ghost use Rattle.cose_map.specs.KeySet.Items.{key_items_left};
    ghost use Rattle.cose_map.specs.KeySet.Okp.{okp_keys, okp_keys_of};
    ghost use Rattle.cose_map.specs.KeySet.View.{keys};
    ghost use Rattle.cose_map.specs.Map.View.{seen_by};

    /// Reads a key set of at most 65,535 bytes: one map, or an array of one or more items.
    ///
    /// A key that is refused is skipped. The refusal is [`Reason::BadKeySet`] where there are too many bytes, then the
    /// first fault of the item, then [`Reason::Trailing`], then [`Reason::BadKeySet`] where the item is anything else.
    #[tactic(auto, unfolding(crate::specs::KeySet::keys_of))]
    pub fn read(bytes: &'a [u8]) -> Result<KeySet<'a>, Refusal>
        ensures exact { seen_by keys result ≡ keys_of bytes.now }
        // Its OKP keys, of which no other call knows, are those of the items.
        ensures okp { IfOk result (λ set. okp_keys set ≡ okp_keys_of bytes.now) }
        ensures within { IfErr result (λ refusal. refusal.place ≤ length bytes.now) }
    {
        if bytes.len() > MOST_BYTES {
            return Err(Refusal {
                reason: Reason::BadKeySet,
                place: 0,
            });
        }
        let set = ItemRef::read(bytes, 0, NESTING)?;
        let mut items = KeyItems::of(set);
        if items.next().is_none() {
            return Err(refused(Reason::BadKeySet, &set));
        }
        Ok(KeySet { set })
    }

    /// The set of the one key that an item is, such as the confirmation key of a token (RFC 8747 section 3.2). `None`
    /// where the item isn't a usable key.
    #[tactic(auto, using(crate::proofs::lemmas::KeySet::key_alone))]
    pub fn of_key(item: ItemRef<'a>) -> Option<KeySet<'a>>
        ensures { option_map keys result
            ≡ option_map (λ key. key ∷ []) (usable_key (placed item.entry)) }
    {
        usable(&item)?;
        Some(KeySet { set: item })
    }

    /// The items that should be keys.
    pub(crate) fn items(&self) -> KeyItems<'a>
        ensures { key_items_left result ≡ items_in (placed self.now.set) }
    {
        KeyItems::of(self.set)
    }

    /// The number of usable keys.
    pub fn count(&self) -> usize
        ensures { result ≡ length (keys self.now) }
    {
        let mut count = 0;
        for item in KeyItems::of(self.set) {
            if usable(&item).is_some() {
                count += 1;
            }
        }
        count
    }

    /// The one key that fits the query of a message, and the number of the algorithm that it is used with.
    ///
    /// The reason is [`Reason::UnknownAlg`] where the message names an algorithm that isn't for messages of its kind
    /// (the protected bucket's has precedence over the unprotected one's), whatever the keys are; then
    /// [`Reason::AmbiguousKey`] where more than one key fits. Where no key fits it is [`Reason::NoAlg`] if the message
    /// names no algorithm, [`Reason::AlgUnprotected`] if only its unprotected bucket names one, and [`Reason::NoKey`]
    /// if its protected bucket does.
    #[tactic(auto, unfolding(crate::specs::Choice::chosen))]
    pub fn find(&self, query: &Query) -> Result<(Key<'a>, i128), Reason>
        ensures { found_value result ≡ chosen (question query.now) (keys self.now) }
    {
        if !query.is_answerable() {
            return Err(Reason::UnknownAlg);
        }
        let mut fitting = Fitting::Nothing;
        for item in KeyItems::of(self.set) {
            fitting.meet_item(&item, query);
        }
        fitting.answer(query)
    }

    /// The number of the first usable key that fits.
    fn first_fitting(&self, query: &Query) -> Option<usize>
        ensures { result ≡ first_fitting (question query.now) 0 (keys self.now) }
    {
        let mut place = 0;
        for item in KeyItems::of(self.set) {
            if let Some(key) = usable(&item) {
                if query.fitting(&key).is_some() {
                    return Some(place);
                }
                place += 1;
            }
        }
        None
    }

    /// Where the key that [`KeySet::find`] finds stands: how many usable keys of the set are before it. `None` where none is
    /// found.
    pub fn place(&self, query: &Query) -> Option<usize>
        ensures { result ≡ place_of (question query.now) (keys self.now) }
    {
        match self.find(query) {
            Ok(_) => self.first_fitting(query),
            Err(_) => None,
        }
    }
}

impl KeyMeaning for KeySet<'_> {
    ghost use Rattle.cose_map.specs.KeySet.View.{keys};

    ghost usable = { keys };
}

impl<'a> Keys<'a> for KeySet<'a> {
    fn find(&self, query: &Query) -> Result<(Key<'a>, i128), Reason> {
        KeySet::find(self, query)
    }
}

impl fmt::Debug for KeySet<'_> {
    ghost use Rattle.std.specs.Prelude.{Some, length};
    ghost use Rattle.cose_map.specs.Key.Shown.{key_set_text};

    ghost debug_output = { λ keys. Some (key_set_text (length keys.set.bytes.now)) };

    fn fmt<W: fmt::Write>(&self, f: &mut fmt::Formatter<W>) -> fmt::Result {
        let set = Hidden(self.set.bytes);
        write!(f, "KeySet({set:?})")
    }
}
