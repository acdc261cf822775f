//! Bytes that are one item, and what it is.

ghost use Rattle.std.specs.Prelude.{◌≤◌, ◌+◌, ◌<◌, ◌^◌, length};

use crate::fields::{
    Difference, Way, array, boolean, bytes, has_bytes, holds, integer, is_verdict, number, object,
    text,
};
use crate::items::{Walk, is_refused, nesting_of};
use cose_head::{ItemRef, Items, Reason, Refusal, Span, read_item};
use serde_json::Value;
use std::alloc::Global;

/// How many of the getters say that an item is theirs: one, and none of a simple value that isn't a truth value.
fn kinds(item: &ItemRef<'_>) -> usize {
    let are = [
        item.as_int().is_some(),
        item.as_bytes().is_some(),
        item.is_text(),
        item.is_array(),
        item.is_map(),
        item.as_tag().is_some(),
        item.is_float(),
        item.as_bool().is_some(),
    ];
    let mut count: usize = 0;
    for is in are {
        count = count.saturating_add(usize::from(is));
    }
    count
}

/// Whether an item in an array or a map has the place and the bytes of a pair.
fn is_placed(alloc: Global, pair: &Value, item: &ItemRef<'_>) -> bool {
    pair.get(0).and_then(Value::as_u64) == Some(item.place)
        && has_bytes(alloc, pair.get(1), item.bytes)
}

/// Whether these are the items in an item.
fn are_children(alloc: Global, expected: &[Value], item: &ItemRef<'_>) -> bool {
    let mut items = Items::of(item);
    for pair in expected {
        match items.next() {
            Some(child) if is_placed(alloc, pair, &child) => {}
            _ => return false,
        }
    }
    items.next().is_none()
}

/// Whether an item is a tag of this number that encloses this.
fn is_tag(alloc: Global, row: &Value, item: &ItemRef<'_>) -> bool {
    match item.as_tag() {
        Some((tag, enclosed)) => {
            i128::from(tag) == number(row, "number")
                && enclosed.place == integer(row, "place")
                && enclosed.bytes == bytes(alloc, row, "enclosed").as_slice()
        }
        None => false,
    }
}

/// Whether an item is a simple value of this number, and no truth value.
fn is_simple(row: &Value, item: &ItemRef<'_>) -> bool {
    let head = item.head();
    head.major == 7 && head.arg == integer(row, "value") && kinds(item) == 0
}

/// Whether an item is a text string, of this text where it is UTF-8.
fn is_text(row: &Value, item: &ItemRef<'_>) -> bool {
    item.is_text() && item.as_text() == row.get("value").and_then(Value::as_str)
}

/// Whether an item is a byte string of these bytes.
fn is_bytes(alloc: Global, row: &Value, item: &ItemRef<'_>) -> bool {
    item.as_bytes() == Some(bytes(alloc, row, "value").as_slice())
}

/// Whether an item is a truth value, and this one.
fn is_boolean(row: &Value, item: &ItemRef<'_>) -> bool {
    item.as_bool().is_some() && item.as_bool() == boolean(row, "value")
}

/// Whether an item is an array or a map of these items.
fn is_container(alloc: Global, row: &Value, item: &ItemRef<'_>) -> bool {
    let is_kind = if is_verdict(row, "array") {
        item.is_array()
    } else {
        item.is_map()
    };
    is_kind && are_children(alloc, array(row, "children"), item)
}

/// Whether an item that isn't a simple value is what is expected.
fn is_typed(alloc: Global, row: &Value, item: &ItemRef<'_>) -> bool {
    match text(row, "verdict") {
        "integer" => item.as_int() == Some(number(row, "value")),
        "bytes" => is_bytes(alloc, row, item),
        "text" => is_text(row, item),
        "array" | "map" => is_container(alloc, row, item),
        "tag" => is_tag(alloc, row, item),
        "float" => item.is_float(),
        "boolean" => is_boolean(row, item),
        _ => false,
    }
}

/// Whether an item is what is expected.
fn is_value(alloc: Global, row: &Value, item: &ItemRef<'_>) -> bool {
    if is_verdict(row, "simple") {
        return is_simple(row, item);
    }
    is_typed(alloc, row, item) && kinds(item) == 1
}

/// Why bytes from a place on aren't one item, where the item that they begin with is read so.
fn refusal_of(read: Result<Span, Refusal>, place: u64, length: usize) -> Option<Refusal> {
    match read {
        Ok(span) if span.length < length => Some(Refusal {
            reason: Reason::Trailing,
            place: place.saturating_add(span.length as u64),
        }),
        Ok(_) => None,
        Err(refusal) => Some(Refusal {
            reason: refusal.reason,
            place: place.saturating_add(refusal.place),
        }),
    }
}

/// Runs bytes as one item, which stands at the place of the group.
fn run_item(alloc: Global, group: &Value, row: &Value, item: &[u8]) -> Result<(), Difference> {
    let place = integer(group, "place");
    let nesting = nesting_of(group);
    if place.checked_add(item.len() as u64).is_none() {
        return Err(Difference::Setting);
    }
    let refusal = refusal_of(read_item(item, item.len(), nesting), place, item.len());
    let is_it = match ItemRef::read(item, place, nesting) {
        Ok(one) => refusal.is_none() && is_value(alloc, row, &one),
        Err(refused) => refusal == Some(refused) && is_refused(row, refused),
    };
    holds(is_it, Way::Slice)
}

/// Walks bytes as an item.
fn run_walk(item: &[u8], nesting: usize) -> Result<(), Difference>
    requires { nesting ≤ 32 }
{
    let walk = Walk {
        item,
        room: item.len(),
        read: read_item(item, item.len(), nesting),
        going: None,
    };
    walk.run(nesting)
}

/// Runs a test.
pub fn run_test(alloc: Global, group: &Value, test: &Value) -> Result<(), Difference> {
    let item = bytes(alloc, test, "item");
    match run_item(alloc, group, object(test, "result"), item.as_slice()) {
        Ok(()) => run_walk(item.as_slice(), nesting_of(group)),
        Err(difference) => Err(difference),
    }
}
