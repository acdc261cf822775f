//! What standard error says of bytes that were to be a key or a key set, and are none, and of arguments that aren't hexadecimal.
//! None of it repeats an argument.

use crate::hints::{First, form_of, is_no_key};
use cose_head::Reason;
use cose_map::{Key, KeySet};

/// The greatest number of bytes of a key set, and of a key.
const MOST: usize = 65_535;

/// What is said of a set that is an array without items.
const NO_ITEM: &str = "has an array of no key, and a key set has one or more";

/// What is said of bytes that begin as a key or a set does, and are none.
const DAMAGED: &str =
    "has no such CBOR, or is cut; of a raw secret examples/cose_key (installed: cosecmd-key) --secret-file makes a key";

/// What is said of no byte.
const EMPTY: &str = "is empty";

/// What is said of more bytes than a key or a set may have.
const TOO_LONG: &str = "has more than 65,535 bytes";

/// What bytes that were to be a key set, or one key, are instead, where they are neither and nothing else is said of them. Of a
/// long set nothing is known.
pub fn fault_of_keys(first: &First, is_set: bool) -> Option<&'static str> {
    let known = first.known();
    if known.is_empty() {
        return Some(EMPTY);
    }
    if form_of(known).is_some() || is_no_key(known) {
        return None;
    }
    if first.length() > MOST {
        return Some(TOO_LONG);
    }
    if first.length() > known.len() {
        return None;
    }
    let refused = if is_set {
        KeySet::read(known).err()
    } else {
        Key::read(known, 0).err()
    };
    match refused?.reason {
        Reason::BadKeySet => Some(NO_ITEM),
        _ => Some(DAMAGED),
    }
}

/// The value of a hexadecimal digit.
fn digit(byte: u8) -> Option<u8> {
    match byte {
        b'0'..=b'9' => Some(byte - b'0'),
        b'a'..=b'f' => Some(byte - b'a' + 10),
        b'A'..=b'F' => Some(byte - b'A' + 10),
        _ => None,
    }
}

/// The first bytes that a text writes in hexadecimal, up to what isn't.
pub fn first_written(text: &str) -> First {
    let mut first = First::new();
    let mut high = None;
    for &byte in text.as_bytes() {
        let Some(low) = digit(byte) else {
            return first;
        };
        high = match high {
            None => Some(low),
            Some(high) => {
                first.note(&[(high & 15) << 4 | low]);
                None
            }
        };
    }
    first
}

/// Which character of a text is the first that is no hexadecimal digit, the first being 1.
pub fn wrong_digit(text: &str) -> Option<usize> {
    let mut number: usize = 0;
    for character in text.chars() {
        number = number.saturating_add(1);
        if !character.is_ascii_hexdigit() {
            return Some(number);
        }
    }
    None
}
