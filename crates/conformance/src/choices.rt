//! The choice of a key, in a key set, in a table of its keys and in a reference to one.

use crate::fields::{
    Difference, Way, array, bytes, holds, integer, is_verdict, object, optional_bytes,
    optional_integer, text,
};
use crate::keys::are_bytes;
use crate::setting::{is_alg, label};
use cose_map::{Key, KeySet, KeyTable, Keys, Kind, Material, Query, Reason, Restrictions};
use serde_json::Value;
use std::alloc::Global;

/// The kind that a text names.
pub fn kind_of(test: &Value) -> Kind {
    match text(test, "kind") {
        "sign1" => Kind::Sign1,
        _ => Kind::Mac0,
    }
}

/// The operation that verifies a message of a kind (RFC 9052 section 7.1).
fn operation_of(kind: Kind) -> i128 {
    match kind {
        Kind::Mac0 => 10,
        Kind::Sign1 => 2,
    }
}

/// Whether the key that is found is the expected one.
fn is_found(alloc: Global, key: &Key<'_>, expected: &Value) -> bool {
    match key.material {
        Material::Symmetric(secret) => are_bytes(alloc, expected, "secret", Some(secret)),
        Material::Ec { crv, x, .. } => {
            let is_curve = integer(expected, "curve") == u64::from(crv);
            is_curve && are_bytes(alloc, expected, "x", Some(x))
        }
    }
}

/// Whether none is found for the expected reason.
pub fn is_reason(reason: Reason, expected: &Value) -> bool {
    is_verdict(expected, "refused") && text(expected, "reason") == reason.name()
}

/// Whether the expected key is found, and the algorithm, or none for the expected reason.
fn is_answer(alloc: Global, found: Result<(Key<'_>, i128), Reason>, expected: &Value) -> bool {
    match found {
        Ok((key, algorithm)) => {
            is_verdict(expected, "found")
                && is_alg(expected, algorithm)
                && is_found(alloc, &key, expected)
        }
        Err(reason) => is_reason(reason, expected),
    }
}

/// Runs a query in these keys.
fn is_chosen<'k, K: Keys<'k>>(
    alloc: Global,
    keys: &K,
    query: &Query<'_>,
    expected: &Value,
) -> Result<(), Difference> {
    holds(is_answer(alloc, keys.find(query), expected), Way::Slice)
}

/// Whether the key that is found stands where it is expected, where that is said, and no place is given where none is found.
pub fn is_placed(place: Option<usize>, expected: &Value) -> Result<(), Difference> {
    let is_expected = match (place, optional_integer(expected, "index")) {
        (Some(place), Some(expected)) => place as u64 == expected,
        (place, _) => place.is_some() == (text(expected, "verdict") == "found"),
    };
    holds(is_expected, Way::Slice)
}

/// The numbers of an array, as far as there is memory, where the field is there.
fn optional_numbers(alloc: Global, group: &Value, name: &str) -> Option<Vec<i128>> {
    let _field = group.get(name)?;
    let mut numbers = Vec::new(alloc);
    for value in array(group, name) {
        if let Some(number) = value.as_i64() {
            let _ = numbers.push(i128::from(number));
        }
    }
    Some(numbers)
}

/// Whether the expected key is found in a table of the keys that a group allows.
fn is_chosen_of_allowed(
    alloc: Global,
    keys: &[u8],
    group: &Value,
    query: &Query<'_>,
    expected: &Value,
) -> Result<(), Difference> {
    let algorithms = optional_numbers(alloc, group, "algorithms");
    let restrictions = Restrictions {
        algorithms: algorithms.as_ref().map(Vec::as_slice),
        least_secret: optional_integer(group, "leastSecret").unwrap_or(0) as usize,
    };
    match KeyTable::<256>::read_restricted(keys, &restrictions) {
        Ok(table) => is_chosen(alloc, &table, query, expected),
        Err(_) => Err(Difference::Setting),
    }
}

/// What the message of a test asks of its key, with this identifier.
pub fn query_of<'q>(test: &'q Value, kid: Option<&'q [u8]>) -> Query<'q> {
    let kind = kind_of(test);
    Query {
        kind,
        operation: operation_of(kind),
        protected_alg: label(test, "protectedAlg"),
        unprotected_alg: label(test, "unprotectedAlg"),
        kid,
    }
}

/// Runs a query in a key set, in a table of its keys and in a reference to that.
fn run_each(
    alloc: Global,
    set: &KeySet<'_>,
    table: &KeyTable<'_, 256>,
    query: &Query<'_>,
    expected: &Value,
) -> Result<(), Difference> {
    is_chosen(alloc, set, query, expected)?;
    is_chosen(alloc, table, query, expected)?;
    is_chosen(alloc, &table, query, expected)?;
    is_placed(set.place(query), expected)?;
    is_placed(table.place(query), expected)
}

/// Runs a query in all keys of a set.
fn run_all(
    alloc: Global,
    keys: &[u8],
    query: &Query<'_>,
    expected: &Value,
) -> Result<(), Difference> {
    match (KeySet::read(keys), KeyTable::<256>::read(keys)) {
        (Ok(set), Ok(table)) => run_each(alloc, &set, &table, query, expected),
        _ => Err(Difference::Setting),
    }
}

/// Runs a query in the keys that a group allows, and in all where it says nothing of them.
fn run_query(
    alloc: Global,
    keys: &[u8],
    group: &Value,
    query: &Query<'_>,
    expected: &Value,
) -> Result<(), Difference> {
    is_chosen_of_allowed(alloc, keys, group, query, expected)?;
    if group.get("algorithms").is_some() || group.get("leastSecret").is_some() {
        return Ok(());
    }
    run_all(alloc, keys, query, expected)
}

/// Runs a test.
pub fn run_test(alloc: Global, group: &Value, test: &Value) -> Result<(), Difference> {
    let keys = bytes(alloc, group, "keys");
    let kid = optional_bytes(alloc, test, "kid");
    let query = query_of(test, kid.as_ref().map(Vec::as_slice));
    run_query(
        alloc,
        keys.as_slice(),
        group,
        &query,
        object(test, "result"),
    )
}
