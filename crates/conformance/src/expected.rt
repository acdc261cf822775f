//! The expected result of a message.

use crate::fields::{integer, text};
use crate::setting::label;
use cose_msg::{Kind, Label, Refusal, Verdict};
use serde_json::Value;

/// A refusal, by the name of its reason.
#[derive(Clone, Copy)]
pub struct Refused<'v> {
    reason: &'v str,
    place: u64,
}

impl<'v> Refused<'v> {
    /// The refusal of a result.
    pub fn read(row: &'v Value) -> Self {
        Refused {
            reason: text(row, "reason"),
            place: integer(row, "place"),
        }
    }

    /// Whether a refusal is this one.
    pub fn is(&self, refusal: Refusal) -> bool {
        self.reason == refusal.reason.name() && self.place == refusal.place
    }
}

/// The expected verdict on a message.
#[derive(Clone, Copy)]
pub enum Expected<'v> {
    /// The message is authentic.
    Authentic {
        /// The name of its kind.
        kind: &'v str,
        /// The number of its algorithm.
        alg: Option<Label<'v>>,
    },
    /// The message is refused.
    Refused(Refused<'v>),
}

/// The name of a kind.
pub fn name_of(kind: Kind) -> &'static str {
    match kind {
        Kind::Mac0 => "mac0",
        Kind::Sign1 => "sign1",
    }
}

impl<'v> Expected<'v> {
    /// The verdict of a result.
    pub fn read(row: &'v Value) -> Self {
        if text(row, "verdict") != "authentic" {
            return Expected::Refused(Refused::read(row));
        }
        Expected::Authentic {
            kind: text(row, "kind"),
            alg: label(row, "alg"),
        }
    }

    /// Whether the message is authentic.
    pub fn is_authentic(&self) -> bool {
        matches!(self, Expected::Authentic { .. })
    }

    /// Whether a verdict is this one, of a message with so many bytes and such a payload.
    pub fn is(&self, verdict: Verdict, payload_length: u64, bytes: u64) -> bool {
        match (self, verdict) {
            (
                Expected::Authentic {
                    kind: name,
                    alg: number,
                },
                Verdict::Authentic {
                    kind,
                    alg,
                    payload,
                    taken,
                },
            ) => {
                *name == name_of(kind)
                    && *number == Some(Label::Int(alg.number()))
                    && payload == payload_length
                    && taken == bytes
            }
            (Expected::Refused(expected), Verdict::Refused(refusal)) => expected.is(refusal),
            _ => false,
        }
    }
}
