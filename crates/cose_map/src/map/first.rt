//! The first value of a label, found pair by pair.

ghost use Rattle.std.specs.Prelude.{◌≡◌, List, ◌∷◌, option_map};
ghost use Rattle.std.specs.Option.{option_or};
ghost use Rattle.cose_head.specs.ItemRef.{placed};
ghost use Rattle.cose_head.specs.Placed.{Placed};
ghost use Rattle.cose_map.specs.Label.{same_label};
ghost use Rattle.cose_map.specs.Label.View.{label_value};
ghost use Rattle.cose_map.specs.Map.Pairs.{Pair, value_of};

use crate::label::Label;
use cose_head::ItemRef;

/// Whether a pair has the label. Nearly all labels of headers and claims are integers, which are compared at once.
fn is_named(label: &Label<'_>, name: &Label<'_>) -> bool
    ensures { result ≡ same_label (label_value label.now) (label_value name.now) }
{
    match (label, name) {
        (Label::Int(number), Label::Int(other)) => number == other,
        _ => label.is_same(name),
    }
}

/// The first value of a label: that of the pairs so far, or else this pair's, if it has the label. `name` and `value` are
/// the pair's. Asked of each pair of [`Pairs`](crate::Pairs) in turn, from `None` on, for as many labels as are wanted,
/// it finds their values in one pass.
///
/// ```rust
/// let mut kid = None;
/// for (name, _item, value) in pairs {
///     kid = first_value(kid, &header::KID, &name, value);
/// }
/// ```
#[inline(always)]
#[tactic(auto, using(crate::proofs::lemmas::Map::First::value_found, crate::proofs::lemmas::Map::First::value_passed))]
pub(crate) fn first_value<'a>(
    so_far: Option<ItemRef<'a>>,
    label: &Label<'_>,
    name: &Label<'_>,
    value: ItemRef<'a>,
) -> Option<ItemRef<'a>>
    // With the first value among any pairs that follow, it is that of this pair and of these.
    ensures first { (item : Placed) (others : List Pair)
        → option_or (option_map placed result) (value_of (label_value label.now) others)
        ≡ option_or (option_map placed so_far.entry) (value_of (label_value label.now)
        (record { name = label_value name.now; label = item; value = placed value.entry } ∷
        others)) }
{
    if is_named(label, name) && so_far.is_none() {
        return Some(value);
    }
    so_far
}
