//! The places of a set of labels.

use crate::label::Label;

/// A place of a set. One that is empty holds 0, which no call returns.
#[derive(Clone, Copy)]
pub(crate) struct Other<'a> {
    /// The label.
    pub(crate) label: Label<'a>,
}

impl Default for Other<'_> {
    fn default() -> Self {
        Other {
            label: Label::Int(0),
        }
    }
}
