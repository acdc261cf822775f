//! The length of an item, found head by head (RFC 8949 section 3).

ghost use Rattle.std.specs.Prelude.{◌≡◌, ℕ, ◌≤◌, length, take, if◌then◌else◌};
ghost use Rattle.cose_head.specs.Item.{Item, Spells};
ghost use Rattle.cose_head.specs.Reading.{child_count, is_string as head_of_string, is_parent as head_of_parent};

use crate::head::{Head, HeadStep, parse_head};
use crate::item::{is_parent, is_string, short_item};

/// How many bytes of a string follow the head.
fn string_length(head: Head) -> u64
    ensures { result ≡ (if head_of_string head then head.arg else 0) }
{
    if is_string(head) { head.arg } else { 0 }
}

/// How many items follow the head as its children.
fn children_after(head: Head) -> u128
    ensures { result ≡ (if head_of_parent head then child_count head else 0) }
{
    if is_parent(head) {
        head.child_count()
    } else {
        0
    }
}

/// How many bytes the item has that `bytes` begin with, where they begin with one: head after head, with the number of
/// items that are still to come. So what it takes of the stack doesn't grow with the nesting.
pub(crate) fn item_length(bytes: &[u8]) -> usize
    ensures there { result ≤ length bytes.now }
    ensures exact { (content : Item) (n : ℕ) → n ≤ length bytes.now
        → Spells (take n bytes.now) content → result ≡ n }
{
    let mut used = 0;
    let mut left = 1usize;
    'heads: while left > 0 {
        let (_, rest) = bytes.split_at(used);
        let short = short_item(rest, rest.len());
        if short > 0 {
            used += short;
            left -= 1;
            continue;
        }
        match parse_head(rest) {
            HeadStep::Got(head, width) => {
                let own = width as u128 + u128::from(string_length(head));
                let items = (left - 1) as u128 + children_after(head);
                if own + items > rest.len() as u128 {
                    return used;
                }
                used += own as usize;
                left = items as usize;
            }
            HeadStep::More(_) | HeadStep::Fault(_) => return used,
        }
    }
    used
}
