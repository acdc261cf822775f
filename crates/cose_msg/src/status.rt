//! The status of a message that is fed to a verifier.

ghost use Rattle.std.specs.Prelude.{◌≡◌, ◌≤◌, length};

use cose_head::Refusal;

/// The status of a message after the bytes so far.
#[derive(Clone, Copy, Debug, PartialEq, Eq)]
pub enum Status {
    /// Further bytes are wanted.
    More,
    /// The message has nil for its payload, and bytes of the detached payload are wanted
    /// ([`Verifier::feed_payload`](crate::Verifier::feed_payload)). No byte of the message is used before they are there.
    PayloadNext,
    /// The message is refused. The place is relative to the message's first byte.
    Refused(Refusal),
    /// All bytes of the message are there. A COSE_Mac0 is authentic then; the signature of a COSE_Sign1 is still to be
    /// decided on, or was decided on. For a message that is only inspected it says no more than that.
    Complete,
    /// The verifier had stopped, since an intake or a sink had failed.
    Stopped,
}

/// The result of feeding a piece.
#[derive(Clone, Copy, Debug, PartialEq, Eq)]
pub struct Fed {
    /// How many bytes of the piece were used, from its first one on.
    pub used: usize,
    /// Where the payload's bytes begin in the piece.
    pub payload_from: usize,
    /// Where they end ([`Fed::payload_of`]). Both are 0 where the piece has none.
    pub payload_to: usize,
    /// The status of the message.
    pub status: Status,
}

impl Fed {
    ghost use Rattle.cose_msg.specs.Feed.{payload_in};

    /// The payload's bytes of the piece that was fed, from `payload_from` to `payload_to`: none where the piece has none.
    pub fn payload_of<'p>(&self, piece: &'p [u8]) -> &'p [u8]
        requires ordered { self.now.payload_from ≤ self.now.payload_to }
        requires among { self.now.payload_to ≤ length piece.now }
        ensures { result.now ≡ payload_in self.now piece.now }
    {
        &piece[self.payload_from..self.payload_to]
    }
}
