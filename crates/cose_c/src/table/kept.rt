//! What a table keeps of the terms that it is read under.

ghost use Rattle.std.specs.Prelude.{◌≤◌, length};

use cose_msg::{Label, Wanted};

/// What the terms of a table state of its messages, but the keys.
#[derive(Clone, Copy)]
pub struct TableTerms {
    pub(crate) wanted: Wanted,
    pub(crate) aad: &'static [u8],
    pub(crate) payload_limit: u64,
    pub(crate) labels: [Label<'static>; 16],
    /// How many of the labels are understood.
    pub(crate) understood: usize,
    ghost external: { length aad.now ≤ 65535 },
    ghost few: { understood ≤ 16 },
}
