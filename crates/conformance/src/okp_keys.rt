//! Keys of the type OKP, and their choice.

use crate::choices::{is_placed, is_reason, query_of};
use crate::fields::{Difference, Way, bytes, holds, integer, is_verdict, object, optional_bytes};
use crate::items::is_refused;
use crate::keys::{are_bytes, are_operations};
use crate::setting::{is_alg, label};
use cose_map::{KeySet, OkpKey, Query, Refusal};
use serde_json::Value;
use std::alloc::Global;

/// Whether a public key is the expected one.
fn is_public_key(alloc: Global, key: &OkpKey<'_>, expected: &Value) -> bool {
    let is_curve = key.curve.number() == i128::from(integer(expected, "curve"));
    is_curve && are_bytes(alloc, expected, "x", Some(key.x))
}

/// Whether the lengths of a key and of its signatures are the expected ones.
fn has_lengths(key: &OkpKey<'_>, expected: &Value) -> bool {
    key.curve.public_key_length() == key.x.len()
        && key.curve.signature_length() as u64 == integer(expected, "signature")
}

/// Whether a key is the expected one.
fn is_key(alloc: Global, key: &OkpKey<'_>, expected: &Value) -> bool {
    if label(expected, "alg") != key.alg || !are_bytes(alloc, expected, "kid", key.kid) {
        return false;
    }
    if !are_operations(key.ops, expected) || !has_lengths(key, expected) {
        return false;
    }
    is_public_key(alloc, key, expected)
}

/// Whether the expected key is read, or refused as expected.
fn is_read(alloc: Global, read: Result<OkpKey<'_>, Refusal>, expected: &Value) -> bool {
    match read {
        Ok(key) => is_verdict(expected, "key") && is_key(alloc, &key, expected),
        Err(refusal) => is_refused(expected, refusal),
    }
}

/// Runs a key.
fn run_key(alloc: Global, key: &[u8], place: u64, expected: &Value) -> Result<(), Difference> {
    if place.checked_add(key.len() as u64).is_none() {
        return Err(Difference::Setting);
    }
    holds(
        is_read(alloc, OkpKey::read(key, place), expected),
        Way::Slice,
    )
}

/// Runs a test of a key.
pub fn run_test(alloc: Global, group: &Value, test: &Value) -> Result<(), Difference> {
    let key = bytes(alloc, test, "key");
    run_key(
        alloc,
        key.as_slice(),
        integer(group, "place"),
        object(test, "result"),
    )
}

/// Whether the expected key is found, and the algorithm, or none for the expected reason.
fn is_found(alloc: Global, set: &KeySet<'_>, query: &Query<'_>, expected: &Value) -> bool {
    match set.find_further(query) {
        Ok((key, alg)) => {
            is_verdict(expected, "found")
                && is_alg(expected, alg.number())
                && is_public_key(alloc, &key, expected)
        }
        Err(reason) => is_reason(reason, expected),
    }
}

/// Runs a query in a key set.
fn run_query(
    alloc: Global,
    keys: &[u8],
    query: &Query<'_>,
    expected: &Value,
) -> Result<(), Difference> {
    let Ok(set) = KeySet::read(keys) else {
        return Err(Difference::Setting);
    };
    holds(is_found(alloc, &set, query, expected), Way::Slice)?;
    is_placed(set.place_further(query), expected)
}

/// Runs a test of a choice.
pub fn run_choice(alloc: Global, group: &Value, test: &Value) -> Result<(), Difference> {
    let keys = bytes(alloc, group, "keys");
    let kid = optional_bytes(alloc, test, "kid");
    let query = query_of(test, kid.as_ref().map(Vec::as_slice));
    run_query(alloc, keys.as_slice(), &query, object(test, "result"))
}
