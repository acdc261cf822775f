//! The state of a reading: the phase that the next byte is in, by counts and places alone.

ghost use Rattle.std.specs.Prelude.{◌<◌, ◌≤◌, ◌+◌, ◌^◌};

use crate::status::Status;
use crate::verdict::Verdict;
use cose_head::Kind;
use cose_mac::Alg;

/// A head after the CWT tag.
#[derive(Clone, Copy)]
pub(crate) struct TagHead {
    /// Its place.
    pub(crate) at: u64,
    ghost early: { at ≤ 9 },
}

/// The head of the message's array.
#[derive(Clone, Copy)]
pub(crate) struct ArrayHead {
    /// The kind of the message.
    pub(crate) kind: Kind,
    /// Its place.
    pub(crate) at: u64,
    ghost early: { at ≤ 18 },
}

/// The head of the protected bucket's byte string.
#[derive(Clone, Copy)]
pub(crate) struct ProtectedHead {
    /// The kind of the message.
    pub(crate) kind: Kind,
    /// Its place.
    pub(crate) at: u64,
    ghost early: { at ≤ 27 },
}

/// The content of the protected bucket.
#[derive(Clone, Copy)]
pub(crate) struct Protected {
    /// The kind of the message.
    pub(crate) kind: Kind,
    /// The place of its first byte.
    pub(crate) at: u64,
    /// The number of its bytes.
    pub(crate) length: u64,
    /// How many of them are to come.
    pub(crate) left: u64,
    ghost some_left: { 0 < left },
    ghost within: { left ≤ length },
    ghost limit: { length ≤ 65535 },
    ghost early: { at ≤ 36 },
}

/// The unprotected bucket.
#[derive(Clone, Copy)]
pub(crate) struct Unprotected {
    /// The kind of the message.
    pub(crate) kind: Kind,
    /// The place of the protected bucket's content.
    pub(crate) protected_at: u64,
    /// The place of its first byte.
    pub(crate) at: u64,
    /// How many bytes are to come for certain: those of its open string that are left, or one.
    pub(crate) wanted: u64,
    ghost some_wanted: { 0 < wanted },
    ghost protected_early: { protected_at ≤ 36 },
    ghost early: { at < 2 ^ 17 },
}

/// The head of the payload.
#[derive(Clone, Copy)]
pub(crate) struct PayloadHead {
    /// The kind of the message.
    pub(crate) kind: Kind,
    /// Whether the protected bucket has no pair.
    pub(crate) is_bare: bool,
    /// Its place.
    pub(crate) at: u64,
    ghost early: { at < 2 ^ 18 },
}

/// The payload.
#[derive(Clone, Copy)]
pub(crate) struct Payload {
    /// The kind of the message.
    pub(crate) kind: Kind,
    /// The place of its first byte.
    pub(crate) at: u64,
    /// The number of its bytes.
    pub(crate) length: u64,
    /// How many of them are to come.
    pub(crate) left: u64,
    ghost some_left: { 0 < left },
    ghost within: { left ≤ length },
    ghost limit: { length < 2 ^ 56 },
    ghost early: { at < 2 ^ 19 },
}

/// A detached payload, of which bytes are to come (RFC 9052 sections 4.2 and 6.2).
#[derive(Clone, Copy)]
pub(crate) struct Detached {
    /// The kind of the message.
    pub(crate) kind: Kind,
    /// The place of the nil in the message, where it is refused if they don't come.
    pub(crate) at: u64,
    /// The place after the nil.
    pub(crate) after: u64,
    /// The number of the payload's bytes.
    pub(crate) length: u64,
    /// How many of them are to come.
    pub(crate) left: u64,
    ghost some_left: { 0 < left },
    ghost within: { left ≤ length },
    ghost limit: { length < 2 ^ 56 },
    ghost early: { after < 2 ^ 19 },
}

/// The head of the authentication tag or signature.
#[derive(Clone, Copy)]
pub(crate) struct AuthHead {
    /// The kind of the message.
    pub(crate) kind: Kind,
    /// Its place.
    pub(crate) at: u64,
    /// The number of the payload's bytes.
    pub(crate) payload: u64,
    ghost early: { at < 2 ^ 57 },
}

/// The authentication tag or signature.
#[derive(Clone, Copy)]
pub(crate) struct Auth {
    /// The kind of the message.
    pub(crate) kind: Kind,
    /// The place of its head, where it is refused.
    pub(crate) head_at: u64,
    /// The place of its first byte.
    pub(crate) at: u64,
    /// The number of its bytes.
    pub(crate) length: u64,
    /// How many of them are to come.
    pub(crate) left: u64,
    /// The number of the payload's bytes.
    pub(crate) payload: u64,
    ghost some_left: { 0 < left },
    ghost within: { left ≤ length },
    ghost limit: { length ≤ 65535 },
    ghost early: { at < 2 ^ 58 },
}

/// A message all bytes of which are there.
#[derive(Clone, Copy)]
pub(crate) struct Whole {
    /// The kind of the message.
    pub(crate) kind: Kind,
    /// The place of the head of its tag or signature, where it is refused.
    pub(crate) head_at: u64,
    /// The number of the payload's bytes.
    pub(crate) payload: u64,
    /// The number of bytes of the tag or signature.
    pub(crate) auth: u64,
    /// The number of the message's bytes.
    pub(crate) taken: u64,
}

/// A message with a signature, all bytes of which are there.
#[derive(Clone, Copy)]
pub(crate) struct Signed {
    /// The kind of the message.
    pub(crate) kind: Kind,
    /// The algorithm that the key is used with.
    pub(crate) alg: Alg,
    /// The place of the signature's head, where it is refused.
    pub(crate) head_at: u64,
    /// The number of the payload's bytes.
    pub(crate) payload: u64,
    /// The number of the message's bytes.
    pub(crate) taken: u64,
}

/// A message all of whose bytes are there, and whose signature was decided on.
#[derive(Clone, Copy)]
pub(crate) struct Decided {
    /// The verdict.
    pub(crate) verdict: Verdict,
    /// The place of the head of the tag or signature.
    pub(crate) head_at: u64,
}

/// A message that is only inspected, all bytes of which are there.
#[derive(Clone, Copy)]
pub(crate) struct Shape {
    /// The kind of the message.
    pub(crate) kind: Kind,
    /// The number of the payload's bytes.
    pub(crate) payload: u64,
    /// The number of bytes of the tag or signature.
    pub(crate) auth: u64,
    /// The number of the message's bytes.
    pub(crate) taken: u64,
}

/// What is known of the structure that is authenticated, once the payload's head was read.
#[derive(Clone, Copy)]
pub(crate) struct Frame {
    /// The kind of the message.
    pub(crate) kind: Kind,
    /// The number of the payload's bytes.
    pub(crate) payload: u64,
}

/// The phase that the next byte is in.
#[derive(Clone, Copy)]
pub(crate) enum Phase {
    /// The first head: a tag, or that of the array.
    FirstHead,
    /// The head of the tag after the CWT tag.
    TagHead(TagHead),
    /// The head of the array after a COSE tag.
    ArrayHead(ArrayHead),
    /// The head of the protected bucket.
    ProtectedHead(ProtectedHead),
    /// The content of the protected bucket.
    Protected(Protected),
    /// The unprotected bucket.
    Unprotected(Unprotected),
    /// The head of the payload.
    PayloadHead(PayloadHead),
    /// The payload.
    Payload(Payload),
    /// A detached payload, which is awaited.
    Detached(Detached),
    /// The head of the authentication tag or signature.
    AuthHead(AuthHead),
    /// The authentication tag or signature.
    Auth(Auth),
    /// All bytes are there, and the signature is to be decided on.
    Signed(Signed),
    /// All bytes are there, and the signature was decided on.
    Decided(Decided),
    /// The verdict is settled, and no signature was to be decided on.
    Settled(Verdict),
    /// All bytes of a message that is only inspected are there.
    Shaped(Shape),
}

impl Phase {
    ghost use Rattle.std.specs.Prelude.{◌≡◌, false};
    ghost use Rattle.cose_msg.specs.Phase.{auth_place_of, ends_at, frame_of, is_settled, payload_want_of, want_of};
    ghost use Rattle.cose_msg.specs.Status.{status_of_phase};

    /// Whether no further byte of the message is wanted, or none before bytes of a detached payload.
    pub(crate) fn is_settled(&self) -> bool
        ensures { result ≡ is_settled self.now }
    {
        matches!(
            self,
            Phase::Detached(_)
                | Phase::Signed(_)
                | Phase::Decided(_)
                | Phase::Settled(_)
                | Phase::Shaped(_)
        )
    }

    /// What is known of the structure, after the payload's head and before the verdict.
    pub(crate) fn frame(&self) -> Option<Frame>
        ensures { result ≡ frame_of self.now }
    {
        let (kind, payload) = match *self {
            Phase::Payload(payload) => (payload.kind, payload.length),
            Phase::Detached(detached) => (detached.kind, detached.length),
            Phase::AuthHead(auth_head) => (auth_head.kind, auth_head.payload),
            Phase::Auth(auth) => (auth.kind, auth.payload),
            Phase::Signed(signed) => (signed.kind, signed.payload),
            _ => return None,
        };
        Some(Frame { kind, payload })
    }

    /// The place of the head of the tag or signature, where all bytes are there and it is left to the caller.
    pub(crate) fn auth_place(&self) -> Option<u64>
        ensures { result ≡ auth_place_of self.now }
    {
        match *self {
            Phase::Signed(signed) => Some(signed.head_at),
            Phase::Decided(decided) => Some(decided.head_at),
            _ => None,
        }
    }

    /// How many bytes are to come for certain: those of a string that are left, one of a head, and none once the message is
    /// settled.
    pub(crate) fn wanted(&self) -> u64
        ensures value { result ≡ want_of self.now }
        ensures some { is_settled self.now ≡ false → 0 < result }
    {
        match *self {
            Phase::Protected(protected) => protected.left,
            Phase::Unprotected(unprotected) => unprotected.wanted,
            Phase::Payload(payload) => payload.left,
            Phase::Auth(auth) => auth.left,
            _ if self.is_settled() => 0,
            _ => 1,
        }
    }

    /// How many bytes of a detached payload are wanted.
    pub(crate) fn payload_wanted(&self) -> u64
        ensures { result ≡ payload_want_of self.now }
    {
        match *self {
            Phase::Detached(detached) => detached.left,
            _ => 0,
        }
    }

    /// The place where a message is Truncated that ends after `taken` bytes: there, or at its nil where bytes of a detached
    /// payload are missing.
    pub(crate) fn ends_at(&self, taken: u64) -> u64
        ensures { result ≡ ends_at self.now taken }
    {
        match *self {
            Phase::Detached(detached) => detached.at,
            _ => taken,
        }
    }

    /// The status of the message. Deciding on a signature, either way, leaves it complete.
    pub(crate) fn status(&self) -> Status
        ensures { result ≡ status_of_phase self.now }
    {
        match *self {
            Phase::Detached(_) => Status::PayloadNext,
            Phase::Signed(_) | Phase::Decided(_) | Phase::Shaped(_) => Status::Complete,
            Phase::Settled(Verdict::Authentic { .. }) => Status::Complete,
            Phase::Settled(Verdict::Refused(refusal)) => Status::Refused(refusal),
            _ => Status::More,
        }
    }
}
