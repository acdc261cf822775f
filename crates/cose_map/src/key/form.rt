//! The forms of the members that every key may have (RFC 9052 section 7.1).

ghost use Rattle.std.specs.Prelude.{◌≡◌};
ghost use Rattle.cose_head.specs.ItemRef.{placed};
ghost use Rattle.cose_head.specs.Items.{items_left};
ghost use Rattle.cose_map.specs.Key.Form.{is_number_or_text as is_number_or_text_value, is_key_ops as is_key_ops_value, are_operations as are_operation_values, key_table};

use crate::key::labels;
use crate::label::Label;
use crate::map::form::{Form, is_bytes, is_label};
use cose_head::{ItemRef, Items, Reason};

/// The form of the members of keys.
pub(crate) struct KeyForm;

/// Whether the item is an integer or a text string.
fn is_number_or_text(item: &ItemRef) -> bool
    ensures { result ≡ is_number_or_text_value (placed item.now) }
{
    item.as_int().is_some() || item.is_text()
}

/// Whether items are one or more integers or text strings.
fn are_operations(items: Items) -> bool
    ensures { result ≡ are_operation_values (items_left items.entry) }
{
    let mut any = false;
    'elements: for element in items {
        if !is_number_or_text(&element) {
            return false;
        }
        any = true;
    }
    any
}

/// Whether an item is an array of one or more integers or text strings.
fn is_key_ops(item: &ItemRef) -> bool
    ensures { result ≡ is_key_ops_value (placed item.now) }
{
    item.is_array() && are_operations(Items::of(item))
}

impl Form for KeyForm {
    ghost table = { λ form. key_table };

    #[tactic(auto, unfolding(crate::specs::Key::Form::key_table))]
    fn fault(&self, label: &Label<'_>, value: &ItemRef<'_>) -> Option<Reason> {
        let is_right = match *label {
            labels::KTY => is_number_or_text(value),
            labels::KID | labels::BASE_IV => is_bytes(value),
            labels::ALG => is_label(value),
            labels::KEY_OPS => is_key_ops(value),
            _ => true,
        };
        if is_right {
            return None;
        }
        Some(Reason::BadValue)
    }
}
