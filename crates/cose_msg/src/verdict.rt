//! The results of a message.

use cose_head::{Kind, Refusal};
use cose_mac::Alg;

/// The verdict on a message.
#[derive(Clone, Copy, Debug, PartialEq, Eq)]
pub enum Verdict {
    /// The message is authentic under the chosen key.
    Authentic {
        /// The kind of the message.
        kind: Kind,
        /// The algorithm that authenticates it.
        alg: Alg,
        /// The number of bytes of the payload.
        payload: u64,
        /// The number of bytes of the message.
        taken: u64,
    },
    /// The message is refused. The place is relative to the message's first byte.
    Refused(Refusal),
}

/// The result for a message that is only inspected: nothing is authenticated.
#[derive(Clone, Copy, Debug, PartialEq, Eq)]
pub enum Inspected {
    /// The message is well formed, and this is its shape.
    Shape {
        /// The kind of the message.
        kind: Kind,
        /// The number of bytes of the payload.
        payload: u64,
        /// The number of bytes of the authentication tag or signature.
        auth: u64,
        /// The number of bytes of the message.
        taken: u64,
    },
    /// The message is refused. The place is relative to the message's first byte.
    Refused(Refusal),
}

/// Why a verifier stopped before it had a verdict.
#[derive(Clone, Copy, Debug, PartialEq, Eq)]
pub enum Stop {
    /// The intake failed.
    Intake,
    /// The sink failed.
    Sink,
    /// The verifier had stopped before. `reset` ends that.
    Again,
}
