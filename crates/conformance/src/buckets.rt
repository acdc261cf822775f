//! Header buckets, each alone.

ghost use Rattle.std.specs.Prelude.{◌≤◌, ◌+◌, ◌<◌, ◌^◌, length};

use crate::fields::{Difference, Way, array, bytes, has_bytes, holds, integer, is_verdict, object};
use crate::items::{is_refused, nesting_of};
use crate::keys::are_bytes;
use crate::setting::label_of;
use cose_map::{Bucket, ItemRef, Items, Label, Refusal, header};
use serde_json::Value;
use std::alloc::Global;

/// Whether a pair has this label, its place and this value.
fn is_pair(
    alloc: Global,
    expected: &Value,
    label: &Label<'_>,
    item: &ItemRef<'_>,
    value: &ItemRef<'_>,
) -> bool {
    expected.get(0).and_then(label_of) == Some(*label)
        && expected.get(1).and_then(Value::as_u64) == Some(item.place)
        && has_bytes(alloc, expected.get(2), value.bytes)
}

/// Whether a bucket finds this value of a label.
fn is_found(bucket: &Bucket<'_>, label: &Label<'_>, value: &ItemRef<'_>) -> bool {
    match bucket.get(label) {
        Some(found) => found.place == value.place && bucket.has(label),
        None => false,
    }
}

/// Whether a bucket has these pairs, and finds the value of each label.
fn has_pairs(alloc: Global, expected: &[Value], bucket: &Bucket<'_>) -> bool {
    let mut pairs = bucket.pairs();
    for pair in expected {
        let Some((label, item, value)) = pairs.next() else {
            return false;
        };
        if !is_found(bucket, &label, &value) || !is_pair(alloc, pair, &label, &item, &value) {
            return false;
        }
    }
    pairs.next().is_none() && bucket.is_empty() == expected.is_empty()
}

/// Whether these are the labels that crit lists.
fn are_labels(expected: &[Value], elements: Items<'_>) -> bool {
    let mut elements = elements;
    for label in expected {
        match elements.next() {
            Some(element) if Label::of(&element) == label_of(label) => {}
            _ => return false,
        }
    }
    elements.next().is_none()
}

/// Whether crit is the expected one.
fn is_crit(row: &Value, bucket: &Bucket<'_>) -> bool {
    match bucket.crit() {
        Some(elements) => { row.get("crit").is_some() && are_labels(array(row, "crit"), elements) }
        None => row.get("crit").is_none(),
    }
}

/// Whether the algorithm of a bucket is the expected one.
fn is_alg(row: &Value, bucket: &Bucket<'_>) -> bool {
    let alg = row.get("alg");
    bucket.alg() == alg.and_then(label_of) && bucket.has(&header::ALG) == alg.is_some()
}

/// Whether a bucket is the expected one.
fn is_bucket(alloc: Global, row: &Value, bucket: &Bucket<'_>) -> bool {
    is_verdict(row, "bucket")
        && are_bytes(alloc, row, "kid", bucket.kid())
        && is_alg(row, bucket)
        && is_crit(row, bucket)
        && has_pairs(alloc, array(row, "pairs"), bucket)
}

/// Whether reading gives the expected bucket, or the fault where it has one, and that is expected.
fn is_read(
    alloc: Global,
    row: &Value,
    read: Result<Bucket<'_>, Refusal>,
    fault: Option<Refusal>,
) -> bool {
    match read {
        Ok(bucket) => fault.is_none() && is_bucket(alloc, row, &bucket),
        Err(refusal) => fault == Some(refusal) && is_refused(row, refusal),
    }
}

/// Whether reading again what has no fault gives the expected bucket.
fn is_again(
    alloc: Global,
    row: &Value,
    again: Result<Bucket<'_>, Refusal>,
    fault: Option<Refusal>,
) -> bool {
    match again {
        Ok(bucket) if fault.is_none() => is_bucket(alloc, row, &bucket),
        _ => fault.is_some(),
    }
}

/// Runs a bucket, which stands at the place of the group.
fn run_bucket(alloc: Global, group: &Value, row: &Value, bucket: &[u8]) -> Result<(), Difference> {
    let place = integer(group, "place");
    let nesting = nesting_of(group);
    if place.checked_add(bucket.len() as u64).is_none() {
        return Err(Difference::Setting);
    }
    let fault = Bucket::fault(bucket, place, nesting);
    let is_read = is_read(alloc, row, Bucket::read(bucket, place, nesting), fault);
    let is_again = is_again(alloc, row, Bucket::again(bucket, place, nesting), fault);
    holds(is_read && is_again, Way::Slice)
}

/// Runs a test.
pub fn run_test(alloc: Global, group: &Value, test: &Value) -> Result<(), Difference> {
    let bucket = bytes(alloc, test, "bucket");
    run_bucket(alloc, group, object(test, "result"), bucket.as_slice())
}
