//! The setting of a group of messages: what they are verified under.

ghost use Rattle.std.specs.Prelude.{◌≡◌, ◌≤◌, length, vec_len};

use crate::fields::{Difference, array, boolean, bytes, optional_integer, text};
use cose_msg::{Context, KeySet, Label, Wanted};
use serde_json::Value;
use std::alloc::Global;

/// The greatest payload (RFC 9052 has no limit; that of the libraries is below 2^56 bytes).
const ANY_PAYLOAD: u64 = (1 << 56) - 1;

/// What the messages of a group are verified under.
#[derive(Drop)]
pub struct Setting<'v> {
    keys: Vec<u8>,
    aad: Vec<u8>,
    wanted: Wanted,
    cwt: bool,
    understood: Vec<Label<'v>>,
    payload_limit: u64,
    ghost external: { vec_len aad ≤ 65535 },
}

/// The kinds that a text names.
fn wanted_of(group: &Value) -> Wanted {
    match text(group, "wanted") {
        "mac0" => Wanted::Mac0,
        "sign1" => Wanted::Sign1,
        _ => Wanted::Tagged,
    }
}

/// The label that a value is: an integer or a text.
pub fn label_of(value: &Value) -> Option<Label<'_>> {
    match value.as_i64() {
        Some(number) => Some(Label::Int(i128::from(number))),
        None => match value.as_str() {
            Some(text) => Some(Label::Text(text)),
            None => None,
        },
    }
}

/// The label that a field is, where it is there.
pub fn label<'v>(object: &'v Value, name: &str) -> Option<Label<'v>> {
    object.get(name).and_then(label_of)
}

/// Whether the algorithm of a result has this number.
pub fn is_alg(row: &Value, number: i128) -> bool {
    label(row, "alg") == Some(Label::Int(number))
}

/// The labels of an array, as far as there is memory.
pub fn labels<'v>(alloc: Global, object: &'v Value, name: &str) -> Vec<Label<'v>> {
    let mut labels = Vec::new(alloc);
    for value in array(object, name) {
        if let Some(label) = label_of(value) {
            let _ = labels.push(label);
        }
    }
    labels
}

impl<'v> Setting<'v> {
    /// The setting of a group, whose external data has 65,535 bytes at most.
    pub fn read(alloc: Global, group: &'v Value) -> Self {
        let mut aad = bytes(alloc, group, "aad");
        aad.truncate(65_535);
        Setting {
            keys: bytes(alloc, group, "keys"),
            aad,
            wanted: wanted_of(group),
            cwt: boolean(group, "cwt") == Some(true),
            understood: labels(alloc, group, "understood"),
            payload_limit: optional_integer(group, "payloadLimit").unwrap_or(ANY_PAYLOAD),
        }
    }

    /// The bytes of the keys: none where the group has none.
    pub fn keys(&self) -> &[u8] {
        self.keys.as_slice()
    }

    /// The set of the keys.
    pub fn set(&self) -> Result<KeySet<'_>, Difference> {
        KeySet::read(self.keys.as_slice()).or(Err(Difference::Setting))
    }

    /// The context of a message under these keys.
    pub fn context<'s, S>(&'s self, keys: S) -> Context<'s, S>
        ensures { length result.aad.now ≤ 65535 }
    {
        Context {
            keys,
            aad: self.aad.as_slice(),
            wanted: self.wanted,
            cwt: self.cwt,
            understood: self.understood.as_slice(),
            payload_limit: self.payload_limit,
        }
    }
}
