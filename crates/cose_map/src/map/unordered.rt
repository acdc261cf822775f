//! The pairs of a map before the current one, where the labels come in any order.

use crate::label::Label;
use crate::map::ahead::settle;
use crate::map::earlier::{Earlier, passes};
use crate::map::labels::Labels;
use crate::map::pairs::Pairs;

/// The first pairs of a map, and a set of labels.
///
/// Of the labels of the next pairs, as many as are settled, those in the set are new.
#[derive(Drop)]
pub(crate) struct Unordered<'a> {
    /// The first pairs.
    pub(crate) earlier: Earlier<'a>,
    /// For how many of the next pairs.
    pub(crate) settled: u128,
    /// The labels that no earlier pair has.
    pub(crate) absent: Labels<'a>,
}

impl<'a> Unordered<'a> {
    ghost use Rattle.std.specs.Prelude.{◌≡◌, ◌+◌, ◌<◌, ◌^◌, drop, not, true};
    ghost use Rattle.cose_map.specs.Label.View.{label_value};
    ghost use Rattle.cose_map.specs.Map.Earlier.{earlier_pairs};
    ghost use Rattle.cose_map.specs.Map.Pairs.{has_label};
    ghost use Rattle.cose_map.specs.Map.Search.{is_first};
    ghost use Rattle.cose_map.specs.Map.Unordered.{IsSettled};
    ghost use Rattle.cose_map.specs.Map.View.{pairs_left};

    /// Before the first pair there is none.
    pub(crate) fn none(pairs: Pairs<'a>) -> Unordered<'a>
        ensures pairs { pairs_left result.earlier.pairs ≡ pairs_left pairs.entry }
        ensures none { result.earlier.count ≡ 0 }
        ensures settled { IsSettled result }
    {
        Unordered {
            earlier: Earlier::none(pairs),
            settled: 0,
            absent: Labels::none(),
        }
    }

    /// Adds the next pair, whose label is settled. Returns whether the label is new.
    fn push_settled(&mut self, name: Label<'a>, ahead: Pairs<'a>) -> bool
        requires some { 0 < self.old.settled }
        requires settled { IsSettled self.old }
        requires few { self.old.earlier.count + 1 < 2 ^ 128 }
        requires ahead { drop self.old.earlier.count (pairs_left self.old.earlier.pairs)
            ≡ pairs_left ahead }
        requires here { is_first (label_value name) (pairs_left ahead) ≡ true }
        ensures new { result
            ≡ not (has_label (label_value name.entry) (earlier_pairs self.old.earlier)) }
        ensures settled { IsSettled self.new }
        ensures pairs { pairs_left self.new.earlier.pairs ≡ pairs_left self.old.earlier.pairs }
        ensures count { self.new.earlier.count ≡ self.old.earlier.count + 1 }
    {
        let is_new = self.absent.remove(&name);
        self.settled -= 1;
        self.earlier.push(name);
        is_new
    }

    /// Adds the next pair, the first of those ahead. Returns whether its label is new.
    pub(crate) fn push(&mut self, name: Label<'a>, ahead: Pairs<'a>) -> bool
        requires settled { IsSettled self.old }
        requires few { self.old.earlier.count + 1 < 2 ^ 128 }
        requires ahead { drop self.old.earlier.count (pairs_left self.old.earlier.pairs)
            ≡ pairs_left ahead }
        requires here { is_first (label_value name) (pairs_left ahead) ≡ true }
        ensures new { result
            ≡ not (has_label (label_value name.entry) (earlier_pairs self.old.earlier)) }
        ensures settled { IsSettled self.new }
        ensures pairs { pairs_left self.new.earlier.pairs ≡ pairs_left self.old.earlier.pairs }
        ensures count { self.new.earlier.count ≡ self.old.earlier.count + 1 }
    {
        if self.settled > 0 {
            return self.push_settled(name, ahead);
        }
        if passes(self.earlier.greatest, &name) {
            self.earlier.push(name);
            return true;
        }
        self.settled = settle(&mut self.absent, ahead, &self.earlier);
        self.push_settled(name, ahead)
    }
}
