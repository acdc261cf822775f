//! Key sets, and tables of their keys.

ghost use Rattle.std.specs.Prelude.{◌≤◌};

use crate::fields::{Difference, Way, bytes, holds, integer, is_verdict, object, optional_integer};
use crate::items::is_refused;
use cose_map::{KeySet, KeyTable, Refusal};
use serde_json::Value;
use std::alloc::Global;

/// How many keys of a set are usable.
fn counted(set: &[u8]) -> Result<usize, Refusal> {
    Ok(KeySet::read(set)?.count())
}

/// How many keys of a set a table of `N` holds.
fn counted_in<const N: usize>(set: &[u8]) -> Result<usize, Refusal>
    requires some { 1 ≤ N }
    requires limit { N ≤ 256 }
{
    let table = KeyTable::<N>::read(set)?;
    Ok(table.count())
}

/// How many keys of a set are usable, or of those held by a table of this room.
fn count_of(set: &[u8], table: Option<u64>) -> Option<Result<usize, Refusal>> {
    match table {
        None => Some(counted(set)),
        Some(1) => Some(counted_in::<1>(set)),
        Some(2) => Some(counted_in::<2>(set)),
        Some(16) => Some(counted_in::<16>(set)),
        Some(256) => Some(counted_in::<256>(set)),
        Some(_) => None,
    }
}

/// Whether this is the expected result.
fn is_expected(count: Result<usize, Refusal>, expected: &Value) -> bool {
    match count {
        Ok(count) => { is_verdict(expected, "set") && count as u64 == integer(expected, "usable") }
        Err(refusal) => is_refused(expected, refusal),
    }
}

/// Runs a test.
pub fn run_test(alloc: Global, group: &Value, test: &Value) -> Result<(), Difference> {
    let set = bytes(alloc, test, "set");
    match count_of(set.as_slice(), optional_integer(group, "table")) {
        Some(count) => holds(is_expected(count, object(test, "result")), Way::Slice),
        None => Err(Difference::Setting),
    }
}
