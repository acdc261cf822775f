//! The search for labels among the pairs of a map, one label after another.

ghost use Rattle.std.specs.Prelude.{◌≡◌, ◌||◌, None, not, true, option_map};
ghost use Rattle.cose_map.specs.Label.Order as order;
ghost use Rattle.cose_map.specs.Map.Pairs.{has_label};
ghost use Rattle.cose_map.specs.Map.View.{pairs_left};
ghost use Rattle.cose_map.specs.Map.Search as spec;
ghost use Rattle.cose_map.specs.Label.View.{label_value};

use crate::label::Label;
use crate::map::earlier::passes;
use crate::map::pairs::Pairs;

/// A search among the pairs of a map. Labels in increasing order are found in one pass over pairs in increasing order,
/// which is the order of deterministic encoding (RFC 8949 section 4.2.1).
#[derive(Clone, Copy)]
pub(crate) struct Search<'a, 'b> {
    /// All pairs of the map.
    pub(crate) pairs: Pairs<'a>,
    /// Whether their labels are in increasing order.
    pub(crate) is_rising: bool,
    /// The last label that was searched in its order.
    last: Option<Label<'b>>,
    /// The pairs that have any label that follows it in the order.
    ahead: Pairs<'a>,
    /// These are in increasing order, if all are.
    pub ghost rising: { (not is_rising || spec.rise_after None (pairs_left ahead)) ≡ true },
    /// No other pair has a label that follows it in the order.
    pub ghost others_passed: { spec.IsAhead (option_map label_value last) (pairs_left ahead)
        (pairs_left pairs) },
}

/// Whether the labels of pairs are in increasing order.
pub(crate) fn is_rising(pairs: Pairs<'_>) -> bool
    ensures { result ≡ spec.rise_after None (pairs_left pairs.entry) }
{
    let mut before = None;
    'pairs: for (name, _item, _value) in pairs {
        if !passes(before, &name) {
            return false;
        }
        before = Some(name);
    }
    true
}

/// The pairs from the first one whose label is the name or follows it in the order.
fn from<'a>(name: &Label<'_>, pairs: Pairs<'a>) -> Pairs<'a>
    ensures { pairs_left result ≡ spec.from (label_value name.now) (pairs_left pairs.entry) }
{
    let mut rest = pairs;
    'pairs: for (label, _item, _value) in pairs {
        if name.is_same(&label) || name.precedes(&label) {
            return rest;
        }
        rest.next();
    }
    rest
}

/// Whether the first pair has the label.
fn is_first(name: &Label<'_>, pairs: Pairs<'_>) -> bool
    ensures { result ≡ spec.is_first (label_value name.now) (pairs_left pairs.entry) }
{
    let mut pairs = pairs;
    match pairs.next() {
        Some((label, _item, _value)) => name.is_same(&label),
        None => false,
    }
}

impl<'a, 'b> Search<'a, 'b> {
    /// The search before any label.
    pub(crate) fn new(pairs: Pairs<'a>) -> Search<'a, 'b>
        ensures { pairs_left result.pairs ≡ pairs_left pairs.entry }
    {
        Search {
            pairs,
            is_rising: is_rising(pairs),
            last: None,
            ahead: pairs,
        }
    }

    /// The search after a label that follows the last one in the order.
    fn onward(self, name: Label<'b>) -> Search<'a, 'b>
        requires { order.passes (option_map label_value self.last) (label_value name) ≡ true }
        ensures pairs { pairs_left result.pairs ≡ pairs_left self.entry.pairs }
        ensures ahead { pairs_left result.ahead
            ≡ spec.from (label_value name.entry) (pairs_left self.entry.ahead) }
    {
        Search {
            pairs: self.pairs,
            is_rising: self.is_rising,
            last: Some(name),
            ahead: from(&name, self.ahead),
        }
    }

    /// Whether a label is among the pairs. One that is out of order is searched among all of them.
    #[tactic(auto, using(crate::proofs::lemmas::Map::Search::found_first))]
    pub(crate) fn has(&mut self, name: Label<'b>) -> bool
        ensures answer { result ≡ has_label (label_value name.entry) (pairs_left self.old.pairs) }
        ensures pairs { pairs_left self.new.pairs ≡ pairs_left self.old.pairs }
    {
        if !self.is_rising || !passes(self.last, &name) {
            return self.pairs.has(&name);
        }
        *self = self.onward(name);
        is_first(&name, self.ahead)
    }
}
