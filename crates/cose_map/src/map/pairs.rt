//! The pairs of a map (RFC 9052 section 3).

use crate::label::Label;
use cose_head::{ItemRef, Items};

/// The pairs of a map, in their order: the label, its item, and the value.
#[derive(Clone, Copy, Debug)]
pub struct Pairs<'a> {
    pub(crate) items: Items<'a>,
}

impl<'a> Iterator for Pairs<'a> {
    ghost use Rattle.std.specs.Iterator.{YieldsFirstBy, item_count};
    ghost use Rattle.cose_map.specs.Map.View.{pair_value, pairs_left};

    type Item = (Label<'a>, ItemRef<'a>, ItemRef<'a>);

    ghost next_gives = { YieldsFirstBy pair_value pairs_left };

    ghost remaining = { item_count pairs_left };

    #[inline(always)]
    #[tactic(auto, unfolding(crate::specs::Map::Pairs::pairs_of))]
    fn next(&mut self) -> Option<(Label<'a>, ItemRef<'a>, ItemRef<'a>)> {
        let mut items = self.items;
        let label = items.next()?;
        let value = items.next()?;
        let name = Label::of(&label)?;
        self.items = items;
        Some((name, label, value))
    }
}

impl<'a> Pairs<'a> {
    ghost use Rattle.std.specs.Prelude.{◌≡◌, option_map};
    ghost use Rattle.cose_head.specs.ItemRef.{placed};
    ghost use Rattle.cose_map.specs.Map.Pairs.{pair_of, value_of, has_label};
    ghost use Rattle.cose_map.specs.Map.View.{pair_value, pairs_left};
    ghost use Rattle.cose_map.specs.Label.View.{label_value};

    /// The pair of a label: the label, its item, and the value.
    pub fn pair(&self, label: &Label<'_>) -> Option<(Label<'a>, ItemRef<'a>, ItemRef<'a>)>
        ensures { option_map pair_value result
            ≡ pair_of (label_value label.now) (pairs_left self.now) }
    {
        'pairs: for (name, item, value) in *self {
            if label.is_same(&name) {
                return Some((name, item, value));
            }
        }
        None
    }

    /// The value of a label.
    pub fn get(&self, label: &Label<'_>) -> Option<ItemRef<'a>>
        ensures { option_map placed result
            ≡ value_of (label_value label.now) (pairs_left self.now) }
    {
        let (_name, _item, value) = self.pair(label)?;
        Some(value)
    }

    /// Whether a label is among the pairs.
    pub(crate) fn has(&self, label: &Label<'_>) -> bool
        ensures { result ≡ has_label (label_value label.now) (pairs_left self.now) }
    {
        self.get(label).is_some()
    }
}
