//! The forms of values in a map: which form the value of each label has.

ghost use Rattle.std.specs.Prelude.{◌≡◌, Option};
ghost use Rattle.cose_head.specs.ItemRef.{placed};
ghost use Rattle.cose_map.specs.Label.View.{label_value};
ghost use Rattle.cose_map.specs.Map.Form as form;

use crate::label::Label;
use cose_head::{ItemRef, Reason};

/// Which form the value of each label has.
pub trait Form {
    ghost table: { Self → form.Table };

    /// The fault of a label's value, if it has one.
    fn fault(&self, label: &Label<'_>, value: &ItemRef<'_>) -> Option<Reason>
        ensures { result ≡ table self.now (label_value label.now) (placed value.now) };
}

/// Whether an item is a label.
pub(crate) fn is_label(item: &ItemRef<'_>) -> bool
    ensures { result ≡ form.is_label (placed item.now) }
{
    Label::of(item).is_some()
}

/// Whether an item is a byte string.
pub(crate) fn is_bytes(item: &ItemRef<'_>) -> bool
    ensures { result ≡ form.is_bytes (placed item.now) }
{
    item.as_bytes().is_some()
}
