//! The children of arrays and maps (RFC 8949 section 3.1).

ghost use Rattle.std.specs.Prelude.{◌≡◌, ℕ, ◌+◌, ◌<◌, ◌^◌, [], length, true, Some, None, if◌then◌else◌, option_map};
ghost use Rattle.cose_head.specs.Placed.{has_children, items_from};
ghost use Rattle.cose_head.specs.Reading.{child_count};
ghost use Rattle.cose_head.specs.Whole.{is_one_item};

use crate::head::{Head, HeadStep, parse_head};
use crate::hidden::Hidden;
use crate::item_length::item_length;
use crate::item_ref::ItemRef;
use std::fmt;

/// The direct children of an array or a map, in their order. Those of a map are label, value, label, value.
///
/// The iterator reads them from the bytes one at a time, each of a nesting of at most 32.
///
/// `Debug` prints how many bytes and children are left, and none of the bytes: they may be a key's.
#[derive(Clone, Copy)]
pub struct Items<'a> {
    rest: &'a [u8],
    place: u64,
    // A map of n pairs has 2n children.
    left: u128,
    /// The place after the last byte fits in u64.
    pub ghost in_range: { place + length rest.now < 2 ^ 64 },
    /// The bytes begin with that many items, each of a nesting of at most 32.
    pub ghost all: { length (items_from left (record { bytes = rest.now; place = place })) ≡ left },
}

/// The number of children that the head of an array or a map announces.
fn announced(head: Head) -> Option<u128>
    ensures { result ≡ (if has_children head then Some (child_count head) else None) }
{
    match head.major {
        4 | 5 => Some(head.child_count()),
        _ => None,
    }
}

impl<'a> Items<'a> {
    ghost use Rattle.cose_head.specs.ItemRef.{placed};
    ghost use Rattle.cose_head.specs.Items.{items_left};
    ghost use Rattle.cose_head.specs.Placed.{children_if_any, children_of};

    /// The children of the one item that these bytes are, whose first byte is at place `at`. `None` where it is neither
    /// an array nor a map.
    ///
    /// [`ItemRef::read`] checks that bytes are one item, and [`Items::of`] gives the children of what it reads.
    #[tactic(auto, unfolding(crate::specs::Placed::head_of_item, crate::specs::Placed::children_of), using(crate::proofs::lemmas::Head::Heads::got_width, crate::proofs::lemmas::Placed::Whole::one_item_is_no_half, crate::proofs::lemmas::Placed::Whole::one_item_is_no_fault))]
    pub fn new(bytes: &'a [u8], at: u64) -> Option<Items<'a>>
        requires one_item { is_one_item bytes.now ≡ true }
        requires in_range { at + length bytes.now < 2 ^ 64 }
        ensures { option_map items_left result
            ≡ children_if_any (record { bytes = bytes.now; place = at }) }
    {
        match parse_head(bytes) {
            HeadStep::Got(head, used) => {
                let left = announced(head)?;
                let (_, rest) = bytes.split_at(used);
                let place = at + used as u64;
                Some(Items { rest, place, left })
            }
            HeadStep::More(_) | HeadStep::Fault(_) => unreachable!(),
        }
    }

    /// No children.
    #[tactic(auto, unfolding(crate::specs::Placed::items_from))]
    pub fn none() -> Items<'a>
        ensures { items_left result ≡ [] }
    {
        Items {
            rest: &[],
            place: 0,
            left: 0,
        }
    }

    /// The children of an item, none where it is neither an array nor a map.
    #[tactic(auto, unfolding(crate::specs::Placed::items_from), using(crate::proofs::lemmas::Placed::Placed::its_children, crate::proofs::lemmas::Placed::Placed::no_children))]
    pub fn of(item: &ItemRef<'a>) -> Items<'a>
        ensures { items_left result ≡ children_of (placed item.now) }
    {
        match Items::new(item.bytes, item.place) {
            Some(items) => items,
            None => Items::none(),
        }
    }
}

impl<'a> Iterator for Items<'a> {
    ghost use Rattle.std.specs.Iterator.{YieldsFirstBy, item_count};
    ghost use Rattle.cose_head.specs.ItemRef.{placed};
    ghost use Rattle.cose_head.specs.Items.{items_left};

    type Item = ItemRef<'a>;

    ghost next_gives = { YieldsFirstBy placed items_left };

    ghost remaining = { item_count items_left };

    #[tactic(auto, unfolding(crate::specs::Placed::items_from))]
    fn next(&mut self) -> Option<ItemRef<'a>> {
        if self.left == 0 {
            return None;
        }
        let (bytes, rest) = self.rest.split_at(item_length(self.rest));
        let place = self.place;
        self.left -= 1;
        self.place += bytes.len() as u64;
        self.rest = rest;
        Some(ItemRef { bytes, place })
    }
}

impl fmt::Debug for Items<'_> {
    ghost use Rattle.cose_head.specs.Hidden.{items_text};

    ghost debug_output = { λ items.
        Some (items_text (length items.rest.now) items.place items.left) };

    fn fmt<W: fmt::Write>(&self, f: &mut fmt::Formatter<W>) -> fmt::Result {
        let Items { rest, place, left } = *self;
        let rest = Hidden(rest);
        write!(
            f,
            "Items {{ rest: {rest:?}, place: {place}, left: {left} }}"
        )
    }
}
