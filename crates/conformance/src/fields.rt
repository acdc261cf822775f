//! The fields of groups and tests, by their types, and why a test differs.
//!
//! `ci/rows` sees that each field is there and has its type. A field that isn't there reads as nothing, so that its test
//! differs.

use serde_json::Value;
use std::alloc::Global;

/// Why a test isn't as it should be.
#[derive(Clone, Copy)]
pub enum Difference {
    /// Its setting can't be had here.
    Setting,
    /// The result is another one.
    Result(Way),
}

/// A way to run a test.
#[derive(Clone, Copy)]
pub enum Way {
    /// `verify`, or another call that takes all bytes from an intake.
    Verify,
    /// `feed`.
    Feed,
    /// A call over bytes that are all there, and over their prefixes.
    Slice,
    /// The caller authenticates the message.
    Elsewhere,
}

impl Difference {
    /// What is printed of a difference.
    pub fn name(self) -> &'static str {
        match self {
            Difference::Setting => "another setting",
            Difference::Result(Way::Verify) => "from an intake",
            Difference::Result(Way::Feed) => "fed in pieces",
            Difference::Result(Way::Slice) => "in memory",
            Difference::Result(Way::Elsewhere) => "authenticated elsewhere",
        }
    }
}

/// A way has the expected result.
pub fn holds(is_expected: bool, way: Way) -> Result<(), Difference> {
    if is_expected {
        return Ok(());
    }
    Err(Difference::Result(way))
}

/// A text.
pub fn text<'v>(object: &'v Value, name: &str) -> &'v str {
    object.get(name).and_then(Value::as_str).unwrap_or("")
}

/// Whether the verdict of a result has this name.
pub fn is_verdict(row: &Value, name: &str) -> bool {
    text(row, "verdict") == name
}

/// An integer from 0 to 2^53.
pub fn integer(object: &Value, name: &str) -> u64 {
    object.get(name).and_then(Value::as_u64).unwrap_or(u64::MAX)
}

/// An integer, where the field is there.
pub fn optional_integer(object: &Value, name: &str) -> Option<u64> {
    object.get(name).and_then(Value::as_u64)
}

/// An integer of any size, as a text of decimal digits.
pub fn number(object: &Value, name: &str) -> i128 {
    text(object, name).parse::<i128>().unwrap_or(i128::MIN)
}

/// The length of a payload, where it is below 2^64.
pub fn payload_length(object: &Value) -> Option<u64> {
    u64::try_from(number(object, "payloadLength")).ok()
}

/// The greatest header and the nesting that a group allows.
pub fn limits(group: &Value) -> (u64, u64) {
    (integer(group, "headerLimit"), integer(group, "nesting"))
}

/// A truth value.
pub fn boolean(object: &Value, name: &str) -> Option<bool> {
    object.get(name).and_then(Value::as_bool)
}

/// The items of an array.
pub fn array<'v>(object: &'v Value, name: &str) -> &'v [Value] {
    match object.get(name).and_then(Value::as_array) {
        Some(items) => items.as_slice(),
        None => &[],
    }
}

/// The value of a field; the object itself where it isn't there.
pub fn object<'v>(of: &'v Value, name: &str) -> &'v Value {
    of.get(name).unwrap_or(of)
}

/// The bytes that a text has in hexadecimal.
pub fn decoded(alloc: Global, digits: &str) -> Vec<u8> {
    match hex::decode(alloc, digits) {
        Ok(bytes) => bytes,
        Err(_) => Vec::new(alloc),
    }
}

/// Whether a value is a text that has these bytes in hexadecimal.
pub fn has_bytes(alloc: Global, value: Option<&Value>, bytes: &[u8]) -> bool {
    match hex::decode(alloc, value.and_then(Value::as_str).unwrap_or("?")) {
        Ok(decoded) => decoded.as_slice() == bytes,
        Err(_) => false,
    }
}

/// Bytes in hexadecimal.
pub fn bytes(alloc: Global, object: &Value, name: &str) -> Vec<u8> {
    decoded(alloc, text(object, name))
}

/// Bytes, where the field is there.
pub fn optional_bytes(alloc: Global, object: &Value, name: &str) -> Option<Vec<u8>> {
    match object.get(name) {
        Some(_) => Some(bytes(alloc, object, name)),
        None => None,
    }
}
