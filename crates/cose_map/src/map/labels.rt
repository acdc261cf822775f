//! A set of labels in arrays of fixed size, in which one is found in a few comparisons.

ghost use Rattle.std.specs.Prelude.{◌≡◌, ◌+◌, ◌<◌, ◌^◌, false, true, not, ◌&&◌, ◌||◌, IfSome};
ghost use Rattle.cose_map.specs.Label.{LabelValue, same_label};
ghost use Rattle.cose_map.specs.Label.View.{label_value};
ghost use Rattle.cose_map.specs.Map.Labels as spec;

mod keys;
mod others;

use crate::label::Label;
use crate::map::labels::keys::Keys;
use crate::map::labels::others::Others;

/// The number that the bytes of a text are, the first one the highest, if it is small.
fn number_of(text: &[u8]) -> Option<u128>
    ensures value { result ≡ spec.number_after 0 text.now }
    ensures small { IfSome result (λ number. number < 2 ^ 112) }
{
    let mut number = 0;
    'bytes: for byte in text {
        if number >= 1 << 104 {
            return None;
        }
        number = number * 256 + u128::from(*byte);
    }
    Some(number)
}

/// The key of a text of at most 14 bytes.
fn text_key(text: &[u8]) -> Option<u128>
    ensures { result ≡ spec.text_key text.now }
{
    if text.len() > 14 {
        return None;
    }
    let number = number_of(text)?;
    Some((1 << 66) + number * 16 + text.len() as u128)
}

/// The key of an integer that an item can be.
fn integer_key(number: i128) -> Option<u128>
    ensures { result ≡ spec.integer_key number }
{
    if number >= 0 {
        if number as u128 >= 1 << 64 {
            return None;
        }
        return Some(number as u128);
    }
    if (-1 - number) as u128 >= 1 << 64 {
        return None;
    }
    Some((1 << 64) + (-1 - number) as u128)
}

/// A number that no other label has, if the label is an integer or a short text, as nearly all labels are.
fn key_of(label: &Label<'_>) -> Option<u128>
    ensures { result ≡ spec.key_of (label_value label.now) }
{
    match *label {
        Label::Int(number) => integer_key(number),
        Label::Text(text) => text_key(text.as_bytes()),
    }
}

/// A set of labels: at most 24 with a key and 6 without, 600 bytes in all.
#[derive(Drop)]
pub(crate) struct Labels<'a> {
    pub(crate) keys: Keys,
    pub(crate) others: Others<'a>,
}

impl<'a> Labels<'a> {
    ghost use Rattle.cose_map.specs.Map.Labels.View.{holds, has_room};

    /// The empty set.
    pub(crate) fn none() -> Labels<'a> {
        Labels {
            keys: Keys::none(),
            others: Others::none(),
        }
    }

    /// Removes all labels.
    pub(crate) fn clear(&mut self)
        ensures empty { (name : LabelValue) → holds self.new name ≡ false }
        ensures room { has_room self.new ≡ true }
    {
        self.keys.clear();
        self.others.clear();
    }

    /// Whether there is room for one more label.
    pub(crate) fn has_room(&self) -> bool
        ensures { result ≡ has_room self.now }
    {
        self.keys.has_room() && self.others.has_room()
    }

    /// Whether a label is in the set.
    pub(crate) fn has(&self, name: &Label<'_>) -> bool
        ensures { result ≡ holds self.now (label_value name.now) }
    {
        match key_of(name) {
            Some(key) => self.keys.has(key),
            None => self.others.has(name),
        }
    }

    /// Adds a label.
    pub(crate) fn add(&mut self, name: Label<'a>)
        requires room { has_room self.old ≡ true }
        ensures added { (other : LabelValue) → holds self.new other
            ≡ (same_label other (label_value name.entry) || holds self.old other) }
    {
        match key_of(&name) {
            Some(key) => self.keys.add(key),
            None => self.others.add(name),
        }
    }

    /// Removes a label, and returns whether it was in the set.
    pub(crate) fn remove(&mut self, name: &Label<'_>) -> bool
        ensures was { result ≡ holds self.old (label_value name.now) }
        ensures removed { (other : LabelValue) → holds self.new other
            ≡ (holds self.old other && not (same_label other (label_value name.now))) }
    {
        match key_of(name) {
            Some(key) => self.keys.remove(key),
            None => self.others.remove(name),
        }
    }
}
