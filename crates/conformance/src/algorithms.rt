//! The table of the algorithms.

use crate::expected::name_of;
use crate::fields::{
    Difference, Way, holds, integer, is_verdict, number, object, optional_integer, text,
};
use cose_head::{Alg, Hash, KeyType};
use serde_json::Value;

/// The name of a hash function.
fn name_of_hash(hash: Hash) -> &'static str {
    match hash {
        Hash::Sha256 => "sha256",
        Hash::Sha384 => "sha384",
        Hash::Sha512 => "sha512",
    }
}

/// The curve of the keys that are points.
fn curve_of(key_type: KeyType) -> Option<u64> {
    match key_type {
        KeyType::Symmetric => None,
        KeyType::Elliptic(curve) => Some(u64::from(curve)),
    }
}

/// Whether the kind of an algorithm is the expected one.
fn is_kind(row: &Value, alg: Alg) -> bool {
    let kind = text(row, "kind");
    kind == name_of(alg.kind()) && alg.is_mac() == (kind == "mac0")
}

/// Whether the hash function, the curve and the length of an algorithm are the expected ones.
fn has_parts(row: &Value, alg: Alg) -> bool {
    name_of_hash(alg.hash()) == text(row, "hash")
        && curve_of(alg.key_type()) == optional_integer(row, "curve")
        && alg.auth_length() as u64 == integer(row, "length")
}

/// Whether an algorithm is the expected one.
fn is_algorithm(row: &Value, alg: Alg) -> bool {
    is_verdict(row, "algorithm") && is_kind(row, alg) && has_parts(row, alg)
}

/// Runs a test.
pub fn run_test(test: &Value) -> Result<(), Difference> {
    let number = number(test, "number");
    let result = object(test, "result");
    let is_it = match Alg::from_number(number) {
        Some(alg) => alg.number() == number && is_algorithm(result, alg),
        None => is_verdict(result, "unknown"),
    };
    holds(is_it, Way::Slice)
}
