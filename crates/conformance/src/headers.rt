//! Both header buckets of a message.

ghost use Rattle.std.specs.Prelude.{◌≤◌, ◌+◌, ◌<◌, ◌^◌, length};

use crate::fields::{Difference, Way, bytes, holds, integer, is_verdict, object};
use crate::items::is_refused;
use crate::setting::labels;
use cose_map::{Bucket, Label, Refusal, check_pair};
use serde_json::Value;
use std::alloc::Global;

/// A bucket from a place on, without a fault.
fn bucket_at<'b>(bucket: &'b [u8], place: u64) -> Result<Bucket<'b>, Difference> {
    if place.checked_add(bucket.len() as u64).is_none() {
        return Err(Difference::Setting);
    }
    Bucket::read(bucket, place, 8).or(Err(Difference::Setting))
}

/// Whether this is the expected result.
fn is_expected(checked: Result<(), Refusal>, row: &Value) -> bool {
    match checked {
        Ok(()) => is_verdict(row, "accepted"),
        Err(refusal) => is_refused(row, refusal),
    }
}

/// Runs both buckets of a test.
fn run_pair(
    test: &Value,
    protected: &[u8],
    unprotected: &[u8],
    understood: &[Label<'_>],
) -> Result<(), Difference> {
    let protected = bucket_at(protected, integer(test, "protectedPlace"))?;
    let unprotected = bucket_at(unprotected, integer(test, "unprotectedPlace"))?;
    let checked = check_pair(&protected, &unprotected, understood, integer(test, "after"));
    holds(is_expected(checked, object(test, "result")), Way::Slice)
}

/// Runs a test.
pub fn run_test(alloc: Global, group: &Value, test: &Value) -> Result<(), Difference> {
    let protected = bytes(alloc, test, "protected");
    let unprotected = bytes(alloc, test, "unprotected");
    let understood = labels(alloc, group, "understood");
    run_pair(
        test,
        protected.as_slice(),
        unprotected.as_slice(),
        understood.as_slice(),
    )
}
