//! Labels that are read ahead, several at a time.

ghost use Rattle.std.specs.Prelude.{◌≡◌, ◌&&◌, [], not, take, true};
ghost use Rattle.cose_head.specs.Items.{items_left};
ghost use Rattle.cose_map.specs.Label.{LabelValue};
ghost use Rattle.cose_map.specs.Map.Earlier.{earlier_pairs};
ghost use Rattle.cose_map.specs.Map.Labels.{is_among};
ghost use Rattle.cose_map.specs.Map.Labels.View.{holds};
ghost use Rattle.cose_map.specs.Map.Names.{element_names};
ghost use Rattle.cose_map.specs.Map.Pairs.{has_label};
ghost use Rattle.cose_map.specs.Map.View.{pairs_left};

use crate::label::Label;
use crate::map::earlier::Earlier;
use crate::map::labels::Labels;
use crate::map::pairs::Pairs;
use cose_head::Items;

/// How many pairs are read ahead at most.
const MOST: u128 = 118;

/// Makes the set that of the labels of the first pairs, as many as there is room for, and returns how many pairs these
/// are.
pub(crate) fn read_ahead<'a>(labels: &mut Labels<'a>, pairs: Pairs<'a>) -> u128
    ensures some { result ≡ 0 → pairs_left pairs.entry ≡ [] }
    ensures held { (name : LabelValue) → holds labels.new name
        ≡ has_label name (take result (pairs_left pairs.entry)) }
{
    labels.clear();
    let mut count = 0;
    'pairs: for (name, _item, _value) in pairs {
        if count == MOST || !labels.has_room() {
            return count;
        }
        labels.add(name);
        count += 1;
    }
    count
}

/// Makes the set that of the labels among the first items, as many as there is room for, and returns how many labels
/// these are.
pub(crate) fn read_elements<'a>(labels: &mut Labels<'a>, elements: Items<'a>) -> u128
    ensures some { result ≡ 0 → element_names (items_left elements.entry) ≡ [] }
    ensures held { (name : LabelValue) → holds labels.new name
        ≡ is_among name (take result (element_names (items_left elements.entry))) }
{
    labels.clear();
    let mut count = 0;
    'elements: for element in elements {
        if let Some(name) = Label::of(&element) {
            if count == MOST || !labels.has_room() {
                return count;
            }
            labels.add(name);
            count += 1;
        }
    }
    count
}

/// Removes the labels of the first pairs, so many.
fn remove_first(labels: &mut Labels<'_>, pairs: Pairs<'_>, count: u128)
    ensures { (name : LabelValue) → holds labels.new name
        ≡ (holds labels.old name && not (has_label name (take count (pairs_left pairs.entry)))) }
{
    let mut left = count;
    'pairs: for (name, _item, _value) in pairs {
        if left == 0 {
            return;
        }
        labels.remove(&name);
        left -= 1;
    }
}

/// Makes the set that of the labels ahead that no earlier pair has, and returns for how many pairs ahead.
pub(crate) fn settle<'a>(absent: &mut Labels<'a>, ahead: Pairs<'a>, earlier: &Earlier<'_>) -> u128
    ensures some { result ≡ 0 → pairs_left ahead.entry ≡ [] }
    ensures settled { (name : LabelValue)
        → has_label name (take result (pairs_left ahead.entry)) ≡ true
        → holds absent.new name ≡ not (has_label name (earlier_pairs earlier.now)) }
{
    let count = read_ahead(absent, ahead);
    remove_first(absent, earlier.pairs, earlier.count);
    count
}
