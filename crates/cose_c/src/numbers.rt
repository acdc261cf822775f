//! The numbers that a caller gets: a status, and the verdict on a message.

ghost use Rattle.std.specs.Prelude.{◌≡◌};
ghost use Rattle.cose_head.specs.Algorithm.{algorithm_number};
ghost use Rattle.cose_c.specs.Numbers.{accepted_as, kind_number, no_message, plain_status, refused_status};

use cose_head::{Alg, Kind, Refusal};

/// Further bytes of the message are wanted.
pub(crate) const MORE: u8 = 0;

/// The message is authentic, or the token is admitted.
pub(crate) const AUTHENTIC: u8 = 1;

/// The message is authentic only if its signature is good, which the caller verifies.
pub(crate) const SIGNED: u8 = 2;

/// The message is refused.
pub(crate) const REFUSED: u8 = 3;

/// The key set is refused.
pub(crate) const KEYS_REFUSED: u8 = 4;

/// The externally supplied data has more than 65,535 bytes.
pub(crate) const AAD_TOO_LONG: u8 = 5;

/// Bytes of the detached payload are wanted.
pub(crate) const PAYLOAD_NEXT: u8 = 6;

/// All bytes of the message are there.
pub(crate) const COMPLETE: u8 = 7;

/// The message is authentic, and its claims are refused.
pub(crate) const CLAIMS_REFUSED: u8 = 8;

/// The policy's audience isn't UTF-8.
pub(crate) const BAD_AUDIENCE: u8 = 9;

/// The block has no keys: it wasn't opened, or its keys were refused.
pub(crate) const CLOSED: u8 = 10;

/// The verifier has stopped. (Nothing stops it here: no intake and no sink fails.)
pub(crate) const STOPPED: u8 = 11;

/// A number among the arguments is none that the function knows.
pub(crate) const BAD_ARGUMENT: u8 = 12;

/// The message is authentic and its claims are admitted, and a requirement isn't met.
pub(crate) const UNMET: u8 = 13;

/// The version of the library: its major number times 65,536, its minor one times 256, and its patch.
const VERSION: u32 = 512;

/// A status. Of a refusal it has the number of its reason and its place, and of any other status zeros.
#[repr(C)]
#[derive(Clone, Copy)]
pub struct CoseStatus {
    /// The number of the status.
    pub status: u8,
    /// The number of the reason.
    pub reason: u8,
    /// The place.
    pub place: u64,
}

/// The verdict on a message.
#[repr(C)]
#[derive(Clone, Copy)]
pub struct CoseVerdict {
    /// The number of the status.
    pub status: u8,
    /// The number of a refusal's reason.
    pub reason: u8,
    /// The number of the message's tag: 17 of a COSE_Mac0, 18 of a COSE_Sign1 (RFC 9052 section 2).
    pub kind: u8,
    /// The number of its algorithm (RFC 9053 sections 2.1 and 3.1).
    pub alg: i32,
    /// The place of a refusal.
    pub place: u64,
    /// Where the payload begins in the message, where it is in it and the message is in memory.
    pub payload_at: u64,
    /// How many bytes the payload has.
    pub payload_length: u64,
    /// How many bytes the message has.
    pub taken: u64,
}

/// The number of an algorithm.
fn number_of_alg(alg: Alg) -> i32
    ensures { result ≡ algorithm_number alg }
{
    alg.number() as i32
}

/// The number of the tag of a kind of messages.
pub(crate) fn number_of_kind(kind: Kind) -> u8
    ensures { result ≡ kind_number kind }
{
    match kind {
        Kind::Mac0 => 17,
        Kind::Sign1 => 18,
    }
}

/// A status that isn't a refusal.
pub(crate) fn plain_status(status: u8) -> CoseStatus
    ensures { result ≡ plain_status status }
{
    CoseStatus {
        status,
        reason: 0,
        place: 0,
    }
}

/// A refusal.
pub(crate) fn refused_status(status: u8, refusal: Refusal) -> CoseStatus
    ensures { result ≡ refused_status status refusal }
{
    CoseStatus {
        status,
        reason: refusal.reason.number(),
        place: refusal.place,
    }
}

/// A verdict that is a status alone.
pub(crate) fn no_message(status: CoseStatus) -> CoseVerdict
    ensures { result ≡ no_message status }
{
    CoseVerdict {
        status: status.status,
        reason: status.reason,
        kind: 0,
        alg: 0,
        place: status.place,
        payload_at: 0,
        payload_length: 0,
        taken: 0,
    }
}

/// The verdict on a message of this kind that nothing refuses, with this status.
pub(crate) fn accepted(status: u8, kind: Kind, alg: Alg, payload: u64, taken: u64) -> CoseVerdict
    ensures { result ≡ accepted_as status 0 kind alg payload taken }
{
    CoseVerdict {
        status,
        reason: 0,
        kind: number_of_kind(kind),
        alg: number_of_alg(alg),
        place: 0,
        payload_at: 0,
        payload_length: payload,
        taken,
    }
}

/// The version of the library, as `COSE_VERSION` of the header that was made for it.
#[unsafe(no_mangle)]
pub extern "C" fn cose_version() -> u32
    ensures { result ≡ 512 }
{
    VERSION
}
