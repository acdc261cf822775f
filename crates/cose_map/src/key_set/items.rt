//! The items of a key set (RFC 9052 section 7).

use cose_head::{ItemRef, Items};

/// The items that should be keys and that the iterator hasn't given yet.
#[derive(Clone, Copy)]
pub(crate) enum KeyItems<'a> {
    /// No item.
    None,
    /// A single key.
    One(ItemRef<'a>),
    /// The elements of an array.
    Several(Items<'a>),
}

impl<'a> KeyItems<'a> {
    ghost use Rattle.std.specs.Prelude.{◌≡◌, ◌<◌, ◌^◌, length};
    ghost use Rattle.cose_head.specs.ItemRef.{placed};
    ghost use Rattle.cose_map.specs.KeySet.{items_in};
    ghost use Rattle.cose_map.specs.KeySet.Items.{key_items_left};

    /// The items of a set.
    #[tactic(auto, using(crate::proofs::lemmas::KeySet::Items::array_items, crate::proofs::lemmas::KeySet::Items::map_items, crate::proofs::lemmas::KeySet::Items::no_items, crate::proofs::lemmas::KeySet::Items::few_children))]
    pub(crate) fn of(set: ItemRef<'a>) -> KeyItems<'a>
        ensures exact { key_items_left result ≡ items_in (placed set.entry) }
        ensures few { length (key_items_left result) < 2 ^ 64 }
    {
        let head = set.head();
        match head.major {
            4 => KeyItems::Several(Items::of(&set)),
            5 => KeyItems::One(set),
            _ => KeyItems::None,
        }
    }
}

impl<'a> Iterator for KeyItems<'a> {
    ghost use Rattle.std.specs.Iterator.{YieldsFirstBy, item_count};
    ghost use Rattle.cose_head.specs.ItemRef.{placed};
    ghost use Rattle.cose_map.specs.KeySet.Items.{key_items_left};

    type Item = ItemRef<'a>;

    ghost next_gives = { YieldsFirstBy placed key_items_left };

    ghost remaining = { item_count key_items_left };

    fn next(&mut self) -> Option<ItemRef<'a>> {
        match *self {
            KeyItems::None => None,
            KeyItems::One(item) => {
                *self = KeyItems::None;
                Some(item)
            }
            KeyItems::Several(mut items) => {
                let item = items.next();
                *self = KeyItems::Several(items);
                item
            }
        }
    }
}
