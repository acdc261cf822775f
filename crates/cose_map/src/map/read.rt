//! A map of labels and values, read with a table that says which form each label's value has
//! (RFC 9052 sections 3 and 7, RFC 8392 section 3).

ghost use Rattle.std.specs.Prelude.{◌≡◌, ℕ, ◌+◌, ◌<◌, ◌≤◌, ◌^◌, not, true, [], ◌∷◌, length, MatchOption, IfErr, IfOk, IfSome, Ok, Err};
ghost use Rattle.cose_head.specs.ItemRef.{placed};
ghost use Rattle.cose_head.specs.Items.{items_left};
ghost use Rattle.cose_map.specs.Label.{label_of};
ghost use Rattle.cose_map.specs.Map.Read.{name_at, new_pair, check_pairs, check_map, read_map};
ghost use Rattle.cose_map.specs.Map.View.{pair_value, pairs_left, seen_by};
ghost use Rattle.cose_map.specs.Label.View.{label_value};

use crate::label::Label;
use crate::laws::refusals_stand_inside;
use crate::map::earlier::{Earlier, passes};
use crate::map::form::Form;
use crate::map::pairs::Pairs;
use crate::map::unordered::Unordered;
use cose_head::{ItemRef, Items, Reason, Refusal};

/// The refusal of an item, at its place.
pub fn refused(reason: Reason, item: &ItemRef<'_>) -> Refusal
    ensures { result ≡ record { reason = reason; place = item.now.place } }
{
    Refusal {
        reason,
        place: item.place,
    }
}

/// The next two items.
#[inline(always)]
fn next_two<'a>(items: &mut Items<'a>) -> Option<(ItemRef<'a>, ItemRef<'a>)>
    ensures { MatchOption result (length (items_left items.old) < 2) (λ found. items_left items.old
        ≡ placed found.0 ∷ placed found.1 ∷ items_left items.new) }
{
    let first = items.next()?;
    let second = items.next()?;
    Some((first, second))
}

/// The label that an item of a pair is.
#[inline(always)]
fn label_at<'a>(item: &ItemRef<'a>) -> Result<Label<'a>, Refusal>
    ensures { seen_by label_value result ≡ name_at (placed item.now) (label_of (placed item.now)) }
{
    match Label::of(item) {
        Some(name) => Ok(name),
        None => Err(refused(Reason::BadLabel, item)),
    }
}

/// The label of a pair, if it is new and the value has its form.
#[inline(always)]
fn check_new<'a, F: Form>(
    form: &F,
    name: Label<'a>,
    is_new: bool,
    label: &ItemRef<'a>,
    value: &ItemRef<'a>,
) -> Result<Label<'a>, Refusal>
    ensures { seen_by (λ name. pair_value (name, label.now, value.now)) result
        ≡ new_pair (F.table form.now) (not is_new) (placed label.now) (label_value name.entry)
        (placed value.now) }
{
    if !is_new {
        return Err(refused(Reason::DuplicateLabel, label));
    }
    match form.fault(&name, value) {
        Some(reason) => Err(refused(reason, value)),
        None => Ok(name),
    }
}

/// The pairs of a map from its children, each with a new label and a value of its form. The labels come in any order. Not
/// inlined, so that the set's memory on the stack is that of this call alone.
#[inline(never)]
fn check_in_any_order<'a, F: Form>(form: &F, items: Items<'a>) -> Result<Pairs<'a>, Refusal>
    ensures { seen_by pairs_left result
        ≡ check_pairs (F.table form.now) [] (items_left items.entry) }
{
    let mut unordered = Unordered::none(Pairs { items });
    let mut here = items;
    let mut rest = items;
    'pairs: while let Some((label, value)) = next_two(&mut rest) {
        let name = label_at(&label)?;
        let is_new = unordered.push(name, Pairs { items: here });
        let _checked = check_new(form, name, is_new, &label, &value)?;
        here = rest;
    }
    Ok(Pairs { items })
}

/// The pairs of a map from its children, each with a new label and a value of its form, where the labels are in increasing
/// order: each is compared with the one before alone. `None` at the first label that isn't. Not inlined, so that what it takes
/// of the stack is free again while labels in any order are read.
#[inline(never)]
fn check_rising<'a, F: Form>(form: &F, items: Items<'a>) -> Result<Option<Pairs<'a>>, Refusal>
    ensures refused { IfErr result (λ refusal.
        Err refusal ≡ check_pairs (F.table form.now) [] (items_left items.entry)) }
    ensures found { IfOk result (λ found. IfSome found (λ pairs.
        Ok (pairs_left pairs) ≡ check_pairs (F.table form.now) [] (items_left items.entry))) }
{
    let mut earlier = Earlier::none(Pairs { items });
    let mut rest = items;
    'pairs: while let Some((label, value)) = next_two(&mut rest) {
        let name = label_at(&label)?;
        if !passes(earlier.greatest, &name) {
            return Ok(None);
        }
        let checked = check_new(form, name, true, &label, &value)?;
        earlier.push_greatest(checked);
    }
    Ok(Some(earlier.pairs))
}

/// The pairs of a map from its children, each with a new label and a value of its form. Labels in increasing order are
/// compared with the one before alone.
fn check_items<'a, F: Form>(form: &F, items: Items<'a>) -> Result<Pairs<'a>, Refusal>
    ensures { seen_by pairs_left result
        ≡ check_pairs (F.table form.now) [] (items_left items.entry) }
{
    match check_rising(form, items)? {
        Some(pairs) => Ok(pairs),
        None => check_in_any_order(form, items),
    }
}

/// The pairs of a map from its item: labels, none twice, and values of their forms.
///
/// The first fault of the pairs in their order is the refusal: [`Reason::NotMap`], [`Reason::BadLabel`],
/// [`Reason::DuplicateLabel`] or the form's, each label before its value.
#[tactic(auto, using(crate::proofs::lemmas::Laws::Inside::seen_inside))]
pub fn check_map<'a, F: Form>(form: &F, item: &ItemRef<'a>) -> Result<Pairs<'a>, Refusal>
    ensures exact { seen_by pairs_left result ≡ check_map (F.table form.now) (placed item.now) }
    ensures within { IfErr result (λ refusal. refusal.place
        ≤ item.now.place + length item.now.bytes.now) }
{
    // The law that the proof of `within` cites.
    refusals_stand_inside();
    if !item.is_map() {
        return Err(refused(Reason::NotMap, item));
    }
    check_items(form, Items::of(item))
}

/// Reads bytes that are exactly one map, of a nesting of at most `depth`.
///
/// The refusal is the first fault of the item, then [`Reason::Trailing`], then those of [`check_map`].
pub fn read_map<'a, F: Form>(
    form: &F,
    bytes: &'a [u8],
    at: u64,
    depth: usize,
) -> Result<Pairs<'a>, Refusal>
    requires shallow { depth ≤ 32 }
    requires in_range { at + length bytes.now < 2 ^ 64 }
    ensures exact { seen_by pairs_left result
        ≡ read_map (F.table form.now) depth (record { bytes = bytes.now; place = at }) }
    ensures within { IfErr result (λ refusal. refusal.place ≤ at + length bytes.now) }
{
    let item = ItemRef::read(bytes, at, depth)?;
    check_map(form, &item)
}
