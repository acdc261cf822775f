//! The faults of the two buckets of a message together (RFC 9052 sections 3 and 3.1).

ghost use Rattle.std.specs.Prelude.{◌≡◌, ℕ, List, ◌∷◌, Option, None, map, fold, flat_map, drop};
ghost use Rattle.cose_head.specs.ItemRef.{placed};
ghost use Rattle.cose_head.specs.Items.{items_left};
ghost use Rattle.cose_map.specs.Bucket.View.{bucket_pairs};
ghost use Rattle.cose_map.specs.Bucket.Both as spec;
ghost use Rattle.cose_map.specs.Label.View.{label_value};
ghost use Rattle.cose_map.specs.Map.Lookup.{IsSettled};
ghost use Rattle.cose_map.specs.Map.Names.{names_of, element_names};
ghost use Rattle.cose_map.specs.Map.View.{pairs_left, refusal_in};

use crate::bucket::{Bucket, header};
use crate::label::Label;
use crate::map::earlier::passes;
use crate::map::lookup::Lookup;
use crate::map::pairs::Pairs;
use crate::map::search::{Search, is_rising};
use cose_head::{ItemRef, Items, Reason, Refusal};

/// Whether a fault has precedence over another: by its place, and at the same place by its number.
fn goes_before(fault: Refusal, other: Refusal) -> bool
    ensures { result ≡ spec.goes_before fault other }
{
    fault.place < other.place
        || (fault.place == other.place && fault.reason.number() < other.reason.number())
}

/// The lesser of a fault and the least so far.
fn lesser(least: Option<Refusal>, fault: Refusal) -> Option<Refusal>
    ensures { result ≡ spec.lesser least fault }
{
    match least {
        Some(least) => {
            if goes_before(fault, least) {
                return Some(fault);
            }
            Some(least)
        }
        None => Some(fault),
    }
}

/// The least fault so far, with one more where `is_wrong`.
fn with_fault(least: Option<Refusal>, is_wrong: bool, reason: Reason, place: u64) -> Option<Refusal>
    ensures { result ≡ fold spec.lesser least (spec.fault_if is_wrong reason place) }
{
    if is_wrong {
        return lesser(least, Refusal { reason, place });
    }
    least
}

/// Whether every implementation knows the label: those of [`header`], from alg to Partial IV, are the numbers 1 to 6.
fn is_common(label: &Label<'_>) -> bool
    ensures { result ≡ spec.is_common (label_value label.now) }
{
    matches!(label, Label::Int(1..=6))
}

/// Whether the label is known, or one of those that the caller understands.
fn is_understood(label: &Label<'_>, understood: &[Label<'_>]) -> bool
    ensures { result ≡ spec.is_understood (map label_value understood.now) (label_value label.now) }
{
    if is_common(label) {
        return true;
    }
    'understood: for known in understood {
        if label.is_same(known) {
            return true;
        }
    }
    false
}

/// The least fault so far, with those of an element of crit.
#[tactic(auto, using(crate::proofs::lemmas::Bucket::Both::fold_more))]
fn with_element<'b>(
    least: Option<Refusal>,
    element: &ItemRef<'b>,
    protected: &mut Search<'_, 'b>,
    understood: &[Label<'_>],
) -> Option<Refusal>
    ensures least { result ≡ fold spec.lesser least
        (spec.element_faults (pairs_left protected.old.pairs) (map label_value understood.now)
        (placed element.now)) }
    ensures same { pairs_left protected.new.pairs ≡ pairs_left protected.old.pairs }
{
    let Some(label) = Label::of(element) else {
        return least;
    };
    let is_absent = !protected.has(label);
    let is_unknown = !is_understood(&label, understood);
    let least = with_fault(least, is_absent, Reason::CritAbsent, element.place);
    with_fault(least, is_unknown, Reason::CritUnknown, element.place)
}

/// The least fault so far, with those of an element of crit, the first of those ahead. The elements come in any order.
#[tactic(auto, using(crate::proofs::lemmas::Bucket::Both::fold_more))]
fn with_next_element<'b>(
    least: Option<Refusal>,
    element: &ItemRef<'b>,
    ahead: Items<'b>,
    protected: &mut Lookup<'_, 'b>,
    understood: &[Label<'_>],
) -> Option<Refusal>
    requires here { items_left ahead ≡ placed element.now ∷ drop 1 (items_left ahead) }
    requires settled { IsSettled (element_names (items_left ahead)) protected.old }
    ensures least { result ≡ fold spec.lesser least
        (spec.element_faults (pairs_left protected.old.pairs) (map label_value understood.now)
        (placed element.now)) }
    ensures settled { IsSettled (element_names (drop 1 (items_left ahead.entry))) protected.new }
    ensures same { pairs_left protected.new.pairs ≡ pairs_left protected.old.pairs }
{
    let Some(label) = Label::of(element) else {
        return least;
    };
    let is_absent = !protected.has_element(&label, ahead);
    let is_unknown = !is_understood(&label, understood);
    let least = with_fault(least, is_absent, Reason::CritAbsent, element.place);
    with_fault(least, is_unknown, Reason::CritUnknown, element.place)
}

/// The least fault of the elements of the protected crit, which come in any order. Not inlined, so that the set's memory
/// on the stack is that of this call alone.
#[inline(never)]
#[tactic(auto, using(crate::proofs::lemmas::Bucket::Both::fold_more))]
fn least_of_elements_in_any_order(
    elements: Items<'_>,
    protected: &Bucket<'_>,
    understood: &[Label<'_>],
) -> Option<Refusal>
    ensures { result ≡ spec.least
        (flat_map
        (spec.element_faults (bucket_pairs protected.now) (map label_value understood.now))
        (items_left elements.entry)) }
{
    let mut lookup = Lookup::new(protected.pairs());
    let mut ahead = elements;
    let mut least = None;
    'elements: for element in elements {
        least = with_next_element(least, &element, ahead, &mut lookup, understood);
        ahead.next();
    }
    least
}

/// Whether items are labels in increasing order.
fn are_rising(elements: Items<'_>) -> bool {
    let mut before = None;
    'elements: for element in elements {
        match Label::of(&element) {
            Some(name) if passes(before, &name) => before = Some(name),
            _ => return false,
        }
    }
    true
}

/// The least fault of the elements of the protected crit.
#[tactic(auto, using(crate::proofs::lemmas::Bucket::Both::fold_more))]
fn least_of_elements(
    elements: Items<'_>,
    protected: &Bucket<'_>,
    understood: &[Label<'_>],
) -> Option<Refusal>
    ensures { result ≡ spec.least
        (flat_map
        (spec.element_faults (bucket_pairs protected.now) (map label_value understood.now))
        (items_left elements.entry)) }
{
    let mut search = Search::new(protected.pairs());
    if !search.is_rising || !are_rising(elements) {
        return least_of_elements_in_any_order(elements, protected, understood);
    }
    let mut least = None;
    'elements: for element in elements {
        least = with_element(least, &element, &mut search, understood);
    }
    least
}

/// The least fault of the protected crit.
fn least_of_crit(protected: &Bucket<'_>, understood: &[Label<'_>]) -> Option<Refusal>
    ensures { result ≡ spec.least
        (spec.crit_faults (bucket_pairs protected.now) (map label_value understood.now)) }
{
    match protected.crit() {
        Some(elements) => least_of_elements(elements, protected, understood),
        None => None,
    }
}

/// The least fault so far, with those of a pair of the unprotected bucket.
#[tactic(auto, using(crate::proofs::lemmas::Bucket::Both::fold_more))]
fn with_pair<'b>(
    least: Option<Refusal>,
    name: Label<'b>,
    item: &ItemRef<'_>,
    protected: &mut Search<'_, 'b>,
) -> Option<Refusal>
    ensures least { result ≡ fold spec.lesser least
        (spec.label_faults (pairs_left protected.old.pairs) (label_value name.entry)
        item.now.place) }
    ensures same { pairs_left protected.new.pairs ≡ pairs_left protected.old.pairs }
{
    let is_repeated = protected.has(name);
    let is_crit = name.is_same(&header::CRIT);
    let least = with_fault(least, is_repeated, Reason::BothBuckets, item.place);
    with_fault(least, is_crit, Reason::CritUnprotected, item.place)
}

/// The least fault so far, with those of a pair of the unprotected bucket, the first of those ahead. The pairs come in
/// any order.
#[tactic(auto, using(crate::proofs::lemmas::Bucket::Both::fold_more))]
fn with_next_pair<'b>(
    least: Option<Refusal>,
    name: Label<'b>,
    item: &ItemRef<'_>,
    ahead: Pairs<'b>,
    protected: &mut Lookup<'_, 'b>,
) -> Option<Refusal>
    requires here { names_of (pairs_left ahead)
        ≡ label_value name ∷ names_of (drop 1 (pairs_left ahead)) }
    requires settled { IsSettled (names_of (pairs_left ahead)) protected.old }
    ensures least { result ≡ fold spec.lesser least
        (spec.label_faults (pairs_left protected.old.pairs) (label_value name.entry)
        item.now.place) }
    ensures settled { IsSettled (names_of (drop 1 (pairs_left ahead.entry))) protected.new }
    ensures same { pairs_left protected.new.pairs ≡ pairs_left protected.old.pairs }
{
    let is_repeated = protected.has_pair(&name, ahead);
    let is_crit = name.is_same(&header::CRIT);
    let least = with_fault(least, is_repeated, Reason::BothBuckets, item.place);
    with_fault(least, is_crit, Reason::CritUnprotected, item.place)
}

/// The least fault so far, with those of the unprotected bucket, whose labels come in any order. Not inlined, so that the
/// set's memory on the stack is that of this call alone.
#[inline(never)]
#[tactic(auto, using(crate::proofs::lemmas::Bucket::Both::fold_more))]
fn with_unprotected_in_any_order(
    so_far: Option<Refusal>,
    protected: &Bucket<'_>,
    unprotected: &Bucket<'_>,
) -> Option<Refusal>
    ensures { result ≡ fold spec.lesser so_far
        (flat_map (spec.unprotected_faults (bucket_pairs protected.now))
        (bucket_pairs unprotected.now)) }
{
    let mut lookup = Lookup::new(protected.pairs());
    let mut ahead = unprotected.pairs();
    let mut least = so_far;
    'pairs: for (name, item, _value) in unprotected.pairs() {
        least = with_next_pair(least, name, &item, ahead, &mut lookup);
        ahead.next();
    }
    least
}

/// The least fault so far, with those of the unprotected bucket.
#[tactic(auto, using(crate::proofs::lemmas::Bucket::Both::fold_more))]
fn with_unprotected(
    so_far: Option<Refusal>,
    protected: &Bucket<'_>,
    unprotected: &Bucket<'_>,
) -> Option<Refusal>
    ensures { result ≡ fold spec.lesser so_far
        (flat_map (spec.unprotected_faults (bucket_pairs protected.now))
        (bucket_pairs unprotected.now)) }
{
    // Without a pair in it nothing is searched, and the protected pairs needn't be gone through.
    if unprotected.is_empty() {
        return so_far;
    }
    let mut search = Search::new(protected.pairs());
    if !search.is_rising || !is_rising(unprotected.pairs()) {
        return with_unprotected_in_any_order(so_far, protected, unprotected);
    }
    let mut least = so_far;
    'pairs: for (name, item, _value) in unprotected.pairs() {
        least = with_pair(least, name, &item, &mut search);
    }
    least
}

/// Whether IV and Partial IV are both present, in whichever buckets.
fn has_both_ivs(protected: &Bucket<'_>, unprotected: &Bucket<'_>) -> bool
    ensures { result ≡ spec.both_ivs (bucket_pairs protected.now) (bucket_pairs unprotected.now) }
{
    (protected.has_iv() || unprotected.has_iv())
        && (protected.has_partial_iv() || unprotected.has_partial_iv())
}

/// Checks the two buckets of a message together (RFC 9052 sections 3 and 3.1).
///
/// Of all faults the one with the least place is the refusal, and of those at the same place the one with the smaller
/// number: [`Reason::CritAbsent`] and [`Reason::CritUnknown`] at an element of the protected crit,
/// [`Reason::BothBuckets`] and [`Reason::CritUnprotected`] at a label of the unprotected bucket, and
/// [`Reason::BothIvs`] at `after`, the place after both. The labels 1 to 6 are understood, and also those that the
/// caller passes in `understood`.
#[tactic(auto, unfolding(crate::specs::Bucket::Both::pair_faults), using(crate::proofs::lemmas::Bucket::Both::fold_more))]
pub fn check_pair(
    protected: &Bucket<'_>,
    unprotected: &Bucket<'_>,
    understood: &[Label<'_>],
    after: u64,
) -> Result<(), Refusal>
    ensures { refusal_in result
        ≡ spec.pair_fault (bucket_pairs protected.now) (bucket_pairs unprotected.now)
        (map label_value understood.now) after }
{
    let has_ivs = has_both_ivs(protected, unprotected);
    let least = least_of_crit(protected, understood);
    let least = with_unprotected(least, protected, unprotected);
    match with_fault(least, has_ivs, Reason::BothIvs, after) {
        Some(refusal) => Err(refusal),
        None => Ok(()),
    }
}
