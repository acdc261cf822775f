//! A reason with its place.

ghost use Rattle.std.specs.Prelude.{Some};

use crate::reason::Reason;
use std::error::Error;
use std::fmt;

/// Why bytes are refused, and where: the answer to a fault, which is what is wrong in them.
///
/// `Display` writes the reason's name and the place, for example `BadAuth at 10`.
#[derive(Clone, Copy, Debug, PartialEq, Eq)]
pub struct Refusal {
    /// The reason.
    pub reason: Reason,
    /// The place, a number of bytes. For `read_item` it is relative to the first byte. A call that takes the place of
    /// its first byte adds it. For [`Reason::Truncated`] it is after the last byte.
    pub place: u64,
}

impl fmt::Display for Refusal {
    ghost use Rattle.cose_head.specs.Refusal.{refusal_text};

    ghost output = { λ refusal. Some (refusal_text refusal) };

    fn fmt<W: fmt::Write>(&self, f: &mut fmt::Formatter<W>) -> fmt::Result {
        let Refusal { reason, place } = *self;
        write!(f, "{reason} at {place}")
    }
}

impl Error for Refusal {}
