//! The table of the signature algorithms that are left to the caller.

use crate::fields::{Difference, Way, array, holds, is_verdict, number, object};
use crate::keys::is_listed;
use cose_head::{FurtherAlg, OkpCurve};
use serde_json::Value;

/// Whether an algorithm takes keys on the expected curves, and on no other.
fn are_curves(row: &Value, alg: FurtherAlg) -> bool {
    let curves = array(row, "curves");
    alg.takes(OkpCurve::Ed25519) == is_listed(curves, 6)
        && alg.takes(OkpCurve::Ed448) == is_listed(curves, 7)
}

/// Whether an algorithm is the expected one, of this number.
fn is_algorithm(row: &Value, number: i128, alg: FurtherAlg) -> bool {
    is_verdict(row, "algorithm") && alg.number() == number && are_curves(row, alg)
}

/// Runs a test.
pub fn run_test(test: &Value) -> Result<(), Difference> {
    let number = number(test, "alg");
    let result = object(test, "result");
    let is_it = match FurtherAlg::from_number(number) {
        Some(alg) => is_algorithm(result, number, alg),
        None => is_verdict(result, "unknown"),
    };
    holds(is_it, Way::Slice)
}
