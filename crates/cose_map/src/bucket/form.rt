//! The forms of the values of header parameters (RFC 9052 section 3.1).

ghost use Rattle.std.specs.Prelude.{◌≡◌, Option};
ghost use Rattle.cose_head.specs.ItemRef.{placed};
ghost use Rattle.cose_head.specs.Items.{items_left};
ghost use Rattle.cose_map.specs.Bucket.Form as spec;

use crate::bucket::header;
use crate::label::Label;
use crate::map::form::{Form, is_bytes, is_label};
use cose_head::{ItemRef, Items, Reason};

/// Whether there is a number that isn't negative.
fn is_unsigned(number: Option<i128>) -> bool
    ensures { result ≡ spec.is_unsigned number }
{
    number.is_some_and(|number| number >= 0)
}

/// Whether an item is an unsigned integer or a text string.
fn is_content_type(item: &ItemRef<'_>) -> bool
    ensures { result ≡ spec.is_content_type (placed item.now) }
{
    is_unsigned(item.as_int()) || item.as_text().is_some()
}

/// Whether items are one or more labels.
fn are_labels(items: Items<'_>) -> bool
    ensures { result ≡ spec.are_labels (items_left items.entry) }
{
    let mut any = false;
    'elements: for element in items {
        if !is_label(&element) {
            return false;
        }
        any = true;
    }
    any
}

/// Whether an item is an array of one or more labels.
fn is_crit(item: &ItemRef<'_>) -> bool
    ensures { result ≡ spec.is_crit (placed item.now) }
{
    item.is_array() && are_labels(Items::of(item))
}

/// The forms of the header parameters that every implementation knows.
pub(crate) struct HeaderForm;

impl Form for HeaderForm {
    ghost table = { λ form. spec.bucket_table };

    #[tactic(auto, unfolding(crate::specs::Bucket::Form::bucket_table))]
    fn fault(&self, label: &Label<'_>, value: &ItemRef<'_>) -> Option<Reason> {
        let is_right = match *label {
            header::ALG => is_label(value),
            header::CRIT => is_crit(value),
            header::CONTENT_TYPE => is_content_type(value),
            header::KID | header::IV | header::PARTIAL_IV => is_bytes(value),
            _ => true,
        };
        if is_right {
            return None;
        }
        Some(Reason::BadValue)
    }
}
