//! The shape of a message in memory. Nothing is authenticated.

ghost use Rattle.std.specs.Prelude.{◌≡◌, true, false, [], length};
ghost use Rattle.cose_map.specs.KeySet.{keys_of};
ghost use Rattle.cose_msg.specs.Kept.{HasTaken, is_inspecting};
ghost use Rattle.cose_msg.specs.Run.{inspection};
ghost use Rattle.cose_msg.specs.Task.{to_inspect};
ghost use Rattle.cose_msg.specs.Verifier.{is_detached, setting_in};
ghost use Rattle.cose_c.specs.Numbers.{one_message};
ghost use Rattle.cose_c.specs.Shape.{no_keys, no_shape, shape_given, shape_numbers, shape_read};
ghost use Rattle.cose_c.specs.Terms.{setting_given};

use crate::numbers::{COMPLETE, CoseStatus, REFUSED, number_of_kind, refused_status};
use crate::terms::{HEADER, NESTING, context};
use cose_msg::{Inspected, Keys, Nothing, Reason, Refusal, SliceIntake, Verifier, inspect};

/// A key set without a usable key, which is enough for a message that is only inspected: the empty map.
pub(crate) const NO_KEYS: &[u8] = &[0xa0];

/// The shape of a message (RFC 9052 sections 4.2 and 6.2).
#[repr(C)]
#[derive(Clone, Copy)]
pub struct CoseShape {
    /// The number of the status.
    pub status: u8,
    /// The number of a refusal's reason.
    pub reason: u8,
    /// The number of the message's tag: 17 of a COSE_Mac0, 18 of a COSE_Sign1.
    pub kind: u8,
    /// The place of a refusal.
    pub place: u64,
    /// How many bytes the payload has.
    pub payload_length: u64,
    /// How many bytes the tag or signature has.
    pub auth_length: u64,
    /// How many bytes the message has.
    pub taken: u64,
}

/// No shape.
fn no_shape(status: CoseStatus) -> CoseShape
    ensures { result ≡ no_shape status }
{
    CoseShape {
        status: status.status,
        reason: status.reason,
        kind: 0,
        place: status.place,
        payload_length: 0,
        auth_length: 0,
        taken: 0,
    }
}

/// The numbers of the shape of so many bytes.
fn numbers_of(inspected: Inspected, count: u64) -> CoseShape
    ensures { result ≡ shape_numbers (one_message count (inspection inspected)) }
{
    match inspected {
        Inspected::Refused(refusal) => no_shape(refused_status(REFUSED, refusal)),
        Inspected::Shape { taken, .. } if taken < count => {
            let refusal = Refusal {
                reason: Reason::Trailing,
                place: taken,
            };
            no_shape(refused_status(REFUSED, refusal))
        }
        Inspected::Shape {
            kind,
            payload,
            auth,
            taken,
        } => CoseShape {
            status: COMPLETE,
            reason: 0,
            kind: number_of_kind(kind),
            place: 0,
            payload_length: payload,
            auth_length: auth,
            taken,
        },
    }
}

/// The shape of a message, by a verifier that has taken none of it.
fn shape_of<'k, const H: usize, const D: usize, K: Keys<'k>>(
    verifier: &mut Verifier<'k, H, D, K>,
    message: &[u8],
) -> CoseShape
    requires inspects { is_inspecting verifier.old ≡ true }
    requires attached { is_detached verifier.old ≡ false }
    requires fresh { HasTaken (to_inspect (setting_in verifier.old)) [] [] verifier.old }
    ensures { result ≡ shape_read H D (setting_in verifier.old) message.now }
{
    let mut intake = SliceIntake::new(message, 256);
    match inspect::<256, H, D, _, _, _>(verifier, &mut intake, &mut Nothing) {
        Ok(inspected) => numbers_of(inspected, message.len() as u64),
        // The intake and the sink never fail, and the verifier hasn't stopped.
        Err(_) => unreachable!(),
    }
}

/// The shape of a message in memory: the bytes are the message, and nothing follows it. Nothing of it is authenticated.
#[unsafe(no_mangle)]
pub extern "C" fn cose_edge_shape(wanted: u8, message: &[u8], shape: &mut CoseShape)
    ensures { shape.new
        ≡ shape_given 1024 8 (setting_given (keys_of no_keys) [] wanted) message.now }
{
    *shape = match context(NO_KEYS, b"", wanted) {
        Ok(context) => {
            let mut verifier = Verifier::<HEADER, NESTING>::inspecting(context);
            shape_of(&mut verifier, message)
        }
        Err(status) => no_shape(status),
    };
}
