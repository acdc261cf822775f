//! The forms of the values of claims (RFC 8392 section 3.1, RFC 8747 section 3.1).

ghost use Rattle.std.specs.Prelude.{◌≡◌, Option};
ghost use Rattle.cose_head.specs.ItemRef.{placed};
ghost use Rattle.cose_head.specs.Items.{items_left};
ghost use Rattle.cose_cwt.specs.Claims.Form as spec;

use crate::claims::labels;
use cose_map::{Form, ItemRef, Items, Label, Reason};

/// The tag of a date in seconds since 1970 (RFC 8949 section 3.4.2), which dates in claims must not have.
const EPOCH: u64 = 1;

/// Whether an item is a text string that is UTF-8.
fn is_text(item: &ItemRef<'_>) -> bool
    ensures { result ≡ spec.is_text (placed item.now) }
{
    item.as_text().is_some()
}

/// Whether items are one or more text strings.
fn are_texts(items: Items<'_>) -> bool
    ensures { result ≡ spec.are_texts (items_left items.entry) }
{
    let mut any = false;
    'elements: for element in items {
        if !is_text(&element) {
            return false;
        }
        any = true;
    }
    any
}

/// Whether an item is a text string, or an array of one or more text strings.
fn is_audience(item: &ItemRef<'_>) -> bool
    ensures { result ≡ spec.is_audience (placed item.now) }
{
    is_text(item) || (item.is_array() && are_texts(Items::of(item)))
}

/// Whether an item is a tagged date.
fn is_tagged_date(item: &ItemRef<'_>) -> bool
    ensures { result ≡ spec.is_tagged_date (placed item.now) }
{
    match item.as_tag() {
        Some((number, _)) => number == EPOCH,
        None => false,
    }
}

/// The fault of a date, if it has one.
fn date_fault(item: &ItemRef<'_>) -> Option<Reason>
    ensures { result ≡ spec.date_fault (placed item.now) }
{
    if item.as_int().is_some() {
        return None;
    }
    if item.is_float() {
        return Some(Reason::FloatDate);
    }
    if is_tagged_date(item) {
        return Some(Reason::TaggedDate);
    }
    Some(Reason::BadValue)
}

/// The fault of a value that doesn't have its form.
fn fault_unless(is_right: bool) -> Option<Reason>
    ensures { result ≡ spec.fault_unless is_right }
{
    if is_right {
        return None;
    }
    Some(Reason::BadValue)
}

/// The forms of the claims that are known here.
pub(crate) struct ClaimsForm;

impl Form for ClaimsForm {
    ghost table = { λ form. spec.claims_table };

    #[inline(always)]
    #[tactic(auto, unfolding(crate::specs::Claims::Form::claims_table))]
    fn fault(&self, label: &Label<'_>, value: &ItemRef<'_>) -> Option<Reason> {
        match *label {
            labels::ISS | labels::SUB => fault_unless(is_text(value)),
            labels::AUD => fault_unless(is_audience(value)),
            labels::EXP | labels::NBF | labels::IAT => date_fault(value),
            labels::CTI => fault_unless(value.as_bytes().is_some()),
            labels::CNF => fault_unless(value.is_map()),
            _ => None,
        }
    }
}
