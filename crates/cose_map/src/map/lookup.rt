//! The search for labels among the pairs of a map, where labels and pairs come in any order.

ghost use Rattle.std.specs.Prelude.{◌≡◌, ◌&&◌, List, [], ◌∷◌, drop, map, not};
ghost use Rattle.cose_head.specs.ItemRef.{placed};
ghost use Rattle.cose_head.specs.Items.{items_left};
ghost use Rattle.cose_map.specs.Label.{LabelValue};
ghost use Rattle.cose_map.specs.Label.View.{label_value};
ghost use Rattle.cose_map.specs.Map.Labels.View.{holds};
ghost use Rattle.cose_map.specs.Map.Names.{names_of, element_names};
ghost use Rattle.cose_map.specs.Map.Pairs.{has_label};
ghost use Rattle.cose_map.specs.Map.View.{pairs_left};

use crate::label::Label;
use crate::map::ahead::{read_ahead, read_elements};
use crate::map::labels::Labels;
use crate::map::pairs::Pairs;
use cose_head::Items;

/// The pairs of a map, and a set of labels.
///
/// Of the next labels, as many as are settled, those in the set are in no pair.
#[derive(Drop)]
pub(crate) struct Lookup<'a, 'b> {
    /// The pairs.
    pub(crate) pairs: Pairs<'a>,
    /// Of how many of the next labels.
    pub(crate) settled: u128,
    /// The labels that no pair has.
    pub(crate) absent: Labels<'b>,
}

/// Removes the labels of pairs.
fn remove_all(labels: &mut Labels<'_>, pairs: Pairs<'_>)
    ensures { (name : LabelValue) → holds labels.new name
        ≡ (holds labels.old name && not (has_label name (pairs_left pairs.entry))) }
{
    'pairs: for (name, _item, _value) in pairs {
        labels.remove(&name);
    }
}

impl<'a, 'b> Lookup<'a, 'b> {
    ghost use Rattle.std.specs.Prelude.{◌<◌};
    ghost use Rattle.cose_map.specs.Map.Lookup.{IsSettled};

    /// The search before any label.
    pub(crate) fn new(pairs: Pairs<'a>) -> Lookup<'a, 'b>
        ensures settled { (names : List LabelValue) → IsSettled names result }
        ensures pairs { pairs_left result.pairs ≡ pairs_left pairs.entry }
    {
        Lookup {
            pairs,
            settled: 0,
            absent: Labels::none(),
        }
    }

    /// Whether the pairs have the next label, which is settled.
    fn take(&mut self, name: &Label<'_>) -> bool
        requires some { 0 < self.old.settled }
        ensures answer { (names : List LabelValue)
            → IsSettled (label_value name.now ∷ names) self.old
            → result ≡ has_label (label_value name.now) (pairs_left self.old.pairs) }
        ensures settled { (names : List LabelValue)
            → IsSettled (label_value name.now ∷ names) self.old
            → IsSettled names self.new }
        ensures pairs { pairs_left self.new.pairs ≡ pairs_left self.old.pairs }
    {
        self.settled -= 1;
        !self.absent.has(name)
    }

    /// Whether the pairs have the next label, the first of those of the pairs ahead.
    pub(crate) fn has_pair(&mut self, name: &Label<'_>, ahead: Pairs<'b>) -> bool
        requires here { names_of (pairs_left ahead)
            ≡ label_value name.now ∷ names_of (drop 1 (pairs_left ahead)) }
        requires settled { IsSettled (names_of (pairs_left ahead)) self.old }
        ensures answer { result ≡ has_label (label_value name.now) (pairs_left self.old.pairs) }
        ensures settled { IsSettled (names_of (drop 1 (pairs_left ahead.entry))) self.new }
        ensures pairs { pairs_left self.new.pairs ≡ pairs_left self.old.pairs }
    {
        if self.settled > 0 {
            return self.take(name);
        }
        self.settled = read_ahead(&mut self.absent, ahead);
        remove_all(&mut self.absent, self.pairs);
        self.take(name)
    }

    /// Whether the pairs have the next label, the first of those of the elements ahead.
    pub(crate) fn has_element(&mut self, name: &Label<'_>, ahead: Items<'b>) -> bool
        requires here { element_names (items_left ahead)
            ≡ label_value name.now ∷ element_names (drop 1 (items_left ahead)) }
        requires settled { IsSettled (element_names (items_left ahead)) self.old }
        ensures answer { result ≡ has_label (label_value name.now) (pairs_left self.old.pairs) }
        ensures settled { IsSettled (element_names (drop 1 (items_left ahead.entry))) self.new }
        ensures pairs { pairs_left self.new.pairs ≡ pairs_left self.old.pairs }
    {
        if self.settled > 0 {
            return self.take(name);
        }
        self.settled = read_elements(&mut self.absent, ahead);
        remove_all(&mut self.absent, self.pairs);
        self.take(name)
    }
}
