//! Keys.

use crate::fields::{
    Difference, Way, array, boolean, bytes, holds, integer, is_verdict, object, optional_bytes,
    text,
};
use crate::items::is_refused;
use crate::setting::label;
use cose_map::{Key, Material, Ops, Refusal, Y};
use serde_json::Value;
use std::alloc::Global;

/// Whether some bytes, where there are any, are those of a field.
pub fn are_bytes(alloc: Global, expected: &Value, name: &str, seen: Option<&[u8]>) -> bool {
    match (optional_bytes(alloc, expected, name), seen) {
        (Some(expected), Some(seen)) => expected.as_slice() == seen,
        (None, None) => true,
        _ => false,
    }
}

/// Whether an operation is among those of an array.
pub fn is_listed(operations: &[Value], number: u64) -> bool {
    for operation in operations {
        if operation.as_u64() == Some(number) {
            return true;
        }
    }
    false
}

/// Whether the operations, where a key lists any, are the expected ones of those from 1 to 10.
pub fn are_operations(ops: Option<Ops<'_>>, expected: &Value) -> bool {
    let Some(ops) = ops else {
        return expected.get("operations").is_none();
    };
    let operations = array(expected, "operations");
    for number in 1..11 {
        if ops.holds(i128::from(number)) != is_listed(operations, number) {
            return false;
        }
    }
    true
}

/// Whether y is the expected one.
fn is_y(alloc: Global, y: Y<'_>, expected: &Value) -> bool {
    match y {
        Y::Bytes(bytes) => are_bytes(alloc, expected, "y", Some(bytes)),
        Y::Sign(odd) => boolean(expected, "y") == Some(odd),
    }
}

/// Whether a point is the expected one.
fn is_point(alloc: Global, crv: u8, x: &[u8], y: Y<'_>, expected: &Value) -> bool {
    let is_curve = integer(expected, "curve") == u64::from(crv);
    let is_x = are_bytes(alloc, expected, "x", Some(x));
    is_curve && is_x && is_y(alloc, y, expected)
}

/// Whether key material is the expected one.
fn is_material(alloc: Global, material: Material<'_>, expected: &Value) -> bool {
    match (material, text(expected, "type")) {
        (Material::Symmetric(secret), "symmetric") => {
            are_bytes(alloc, expected, "secret", Some(secret))
        }
        (Material::Ec { crv, x, y }, "ec2") => is_point(alloc, crv, x, y, expected),
        _ => false,
    }
}

/// Whether a key is the expected one.
pub fn is_key(alloc: Global, key: &Key<'_>, expected: &Value) -> bool {
    if label(expected, "alg") != key.alg || !are_bytes(alloc, expected, "kid", key.kid) {
        return false;
    }
    are_operations(key.ops, expected) && is_material(alloc, key.material, expected)
}

/// Whether the expected key is read, or refused as expected.
fn is_read(alloc: Global, read: Result<Key<'_>, Refusal>, expected: &Value) -> bool {
    match read {
        Ok(key) => is_verdict(expected, "key") && is_key(alloc, &key, expected),
        Err(refusal) => is_refused(expected, refusal),
    }
}

/// Runs a key.
fn run_key(alloc: Global, key: &[u8], place: u64, expected: &Value) -> Result<(), Difference> {
    if place.checked_add(key.len() as u64).is_none() {
        return Err(Difference::Setting);
    }
    holds(is_read(alloc, Key::read(key, place), expected), Way::Slice)
}

/// Runs a test.
pub fn run_test(alloc: Global, group: &Value, test: &Value) -> Result<(), Difference> {
    let key = bytes(alloc, test, "key");
    run_key(
        alloc,
        key.as_slice(),
        integer(group, "place"),
        object(test, "result"),
    )
}
