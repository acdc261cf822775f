//! A message in memory, by one call.

ghost use Rattle.std.specs.Prelude.{◌≡◌, true, false, [], length};
ghost use Rattle.cose_map.specs.KeySet.{keys_of};
ghost use Rattle.cose_msg.specs.Answer.{decided};
ghost use Rattle.cose_msg.specs.Kept.{HasTaken, is_inspecting};
ghost use Rattle.cose_msg.specs.Message.{given};
ghost use Rattle.cose_msg.specs.Shown.{sign_input_of};
ghost use Rattle.cose_msg.specs.Task.{to_verify};
ghost use Rattle.cose_msg.specs.Verifier.{is_detached, setting_in};
ghost use Rattle.cose_c.specs.Input.{GivesAll, has_point};
ghost use Rattle.cose_c.specs.Message.{Covers, beside, input_read, input_given, is_accepted, is_past_limits, payload_read, payload_given, verdict_given, verdict_read};
ghost use Rattle.cose_c.specs.Numbers.{one_message, unless_signed, verdict_numbers};
ghost use Rattle.cose_c.specs.Terms.{setting_given};

use crate::deciding::Always;
use crate::input::{CoseSignInput, give_input};
use crate::numbers::{
    AUTHENTIC, CoseVerdict, REFUSED, SIGNED, accepted, no_message, refused_status,
};
use crate::terms::{HEADER, LARGE_HEADER, LARGE_NESTING, NESTING, context};
use cose_map::laws::chosen_key_fits;
use cose_msg::laws::{
    authentication_decides, deciding_goes_last, payload_stays, settled_stays,
    signatures_are_of_sign1, spelled_is_read,
};
use cose_msg::{
    Keys, Kind, Nothing, Reason, Refusal, SliceIntake, Verdict, Verifier, verify, verify_detached,
};

/// The most bytes of a message or of a detached payload that are copied at once.
const CHUNK: usize = 128;

/// The status of a message of this kind that nothing refuses, whose signature, if it has one, is left to the caller.
fn status_of(kind: Kind) -> u8
    ensures { result ≡ unless_signed kind }
{
    match kind {
        Kind::Mac0 => AUTHENTIC,
        Kind::Sign1 => SIGNED,
    }
}

/// The numbers of the verdict on so many bytes, whose payload begins at this place.
fn numbers_of(verdict: Verdict, count: u64, at: u64) -> CoseVerdict
    ensures { result ≡ verdict_numbers unless_signed at (one_message count (decided verdict)) }
{
    match verdict {
        Verdict::Refused(refusal) => no_message(refused_status(REFUSED, refusal)),
        Verdict::Authentic { taken, .. } if taken < count => {
            let refusal = Refusal {
                reason: Reason::Trailing,
                place: taken,
            };
            no_message(refused_status(REFUSED, refusal))
        }
        Verdict::Authentic {
            kind,
            alg,
            payload,
            taken,
        } => {
            let mut verdict = accepted(status_of(kind), kind, alg, payload, taken);
            verdict.payload_at = at;
            verdict
        }
    }
}

/// Takes all bytes of a message, by a verifier that has taken none, and returns the verdict on them. What a signature is verified with
/// stays in the verifier.
pub(crate) fn take_whole<'k, const H: usize, const D: usize, K: Keys<'k>>(
    verifier: &mut Verifier<'k, H, D, K>,
    message: &[u8],
) -> CoseVerdict
    requires verifies { is_inspecting verifier.old ≡ false }
    requires attached { is_detached verifier.old ≡ false }
    requires fresh { HasTaken (to_verify (setting_in verifier.old)) [] [] verifier.old }
    ensures verdict { result
        ≡ verdict_read H D (setting_in verifier.old) result.payload_at message.now }
    ensures payload { is_accepted result ≡ true → Covers message.now
        (payload_read H D (setting_in verifier.old) message.now)
        result.payload_at result.payload_length }
    ensures input { sign_input_of verifier.new
        ≡ input_read H D (setting_in verifier.old) message.now }
    ensures signed { result.status ≡ 2
        → has_point (input_read H D (setting_in verifier.old) message.now) ≡ true }
{
    // Laws that the proof cites.
    settled_stays();
    deciding_goes_last();
    spelled_is_read();
    authentication_decides();
    signatures_are_of_sign1();
    chosen_key_fits();
    let fed = verifier.feed(message);
    let (_fed, rest) = message.split_at(fed.used);
    let mut rest = SliceIntake::new(rest, 1);
    match verify::<1, H, D, _, _, _, _>(verifier, &mut rest, &mut Nothing, &Always) {
        Ok(verdict) => numbers_of(verdict, message.len() as u64, fed.payload_from as u64),
        // The intake and the sink never fail, and the verifier hasn't stopped.
        Err(_) => unreachable!(),
    }
}

/// The verdict on all bytes of a message, by a verifier that has taken none; and what the signature is verified with, if it has one.
pub(crate) fn read_whole<'k, const H: usize, const D: usize, K: Keys<'k>>(
    verifier: &mut Verifier<'k, H, D, K>,
    message: &[u8],
    input: &mut CoseSignInput,
) -> CoseVerdict
    requires verifies { is_inspecting verifier.old ≡ false }
    requires attached { is_detached verifier.old ≡ false }
    requires fresh { HasTaken (to_verify (setting_in verifier.old)) [] [] verifier.old }
    ensures verdict { result
        ≡ verdict_read H D (setting_in verifier.old) result.payload_at message.now }
    ensures payload { is_accepted result ≡ true → Covers message.now
        (payload_read H D (setting_in verifier.old) message.now)
        result.payload_at result.payload_length }
    ensures input { result.status ≡ 2
        → GivesAll (input_read H D (setting_in verifier.old) message.now) input.new }
{
    let verdict = take_whole(verifier, message);
    give_input(verifier, input);
    verdict
}

/// Verifies a message in memory (RFC 9052 sections 4.4 and 6.3): the bytes are the message, and nothing follows it.
///
/// Where the status is [`SIGNED`] the message is a COSE_Sign1 that is authentic only if its signature is good, and `input` is what that
/// is verified with. With any other status `input` says nothing.
#[unsafe(no_mangle)]
pub extern "C" fn cose_edge_verify(
    keys: &[u8],
    aad: &[u8],
    wanted: u8,
    message: &[u8],
    verdict: &mut CoseVerdict,
    input: &mut CoseSignInput,
)
    ensures verdict { verdict.new
        ≡ verdict_given 1024 8 (setting_given (keys_of keys.now) aad.now wanted)
        verdict.new.payload_at message.now }
    ensures payload { is_accepted verdict.new ≡ true → Covers message.now
        (payload_given 1024 8 (setting_given (keys_of keys.now) aad.now wanted) message.now)
        verdict.new.payload_at verdict.new.payload_length }
    ensures input { verdict.new.status ≡ 2 → GivesAll
        (input_given 1024 8 (setting_given (keys_of keys.now) aad.now wanted) message.now)
        input.new }
{
    *verdict = match context(keys, aad, wanted) {
        Ok(context) => {
            let mut verifier = Verifier::<HEADER, NESTING>::new(context);
            read_whole(&mut verifier, message, input)
        }
        Err(status) => no_message(status),
    };
}

/// Whether a message is refused for a limit on its headers: that of their room, or of their nesting.
fn is_past_limits(verdict: &CoseVerdict) -> bool
    ensures { result ≡ is_past_limits verdict.now }
{
    let too_deep = verdict.reason == Reason::TooDeep.number();
    verdict.status == REFUSED && (too_deep || verdict.reason == Reason::PastRoom.number())
}

/// [`cose_edge_verify`] for headers of 65,535 bytes that nest 16 deep, by a verifier that has room for them.
#[inline(never)]
fn verify_large(
    keys: &[u8],
    aad: &[u8],
    wanted: u8,
    message: &[u8],
    verdict: &mut CoseVerdict,
    input: &mut CoseSignInput,
)
    ensures verdict { verdict.new
        ≡ verdict_given 65535 16 (setting_given (keys_of keys.now) aad.now wanted)
        verdict.new.payload_at message.now }
    ensures payload { is_accepted verdict.new ≡ true → Covers message.now
        (payload_given 65535 16 (setting_given (keys_of keys.now) aad.now wanted) message.now)
        verdict.new.payload_at verdict.new.payload_length }
    ensures input { verdict.new.status ≡ 2 → GivesAll
        (input_given 65535 16 (setting_given (keys_of keys.now) aad.now wanted) message.now)
        input.new }
{
    *verdict = match context(keys, aad, wanted) {
        Ok(context) => {
            let mut verifier = Verifier::<LARGE_HEADER, LARGE_NESTING>::new(context);
            read_whole(&mut verifier, message, input)
        }
        Err(status) => no_message(status),
    };
}

/// [`cose_edge_verify`] for headers of 65,535 bytes that nest 16 deep. A message is verified within the smaller limits first, for which
/// no room of the larger ones has to be made, and again where one of them refuses it.
#[unsafe(no_mangle)]
pub extern "C" fn cose_edge_large_verify(
    keys: &[u8],
    aad: &[u8],
    wanted: u8,
    message: &[u8],
    verdict: &mut CoseVerdict,
    input: &mut CoseSignInput,
)
    ensures verdict { verdict.new
        ≡ verdict_given 65535 16 (setting_given (keys_of keys.now) aad.now wanted)
        verdict.new.payload_at message.now }
    ensures payload { is_accepted verdict.new ≡ true → Covers message.now
        (payload_given 65535 16 (setting_given (keys_of keys.now) aad.now wanted) message.now)
        verdict.new.payload_at verdict.new.payload_length }
    ensures input { verdict.new.status ≡ 2 → GivesAll
        (input_given 65535 16 (setting_given (keys_of keys.now) aad.now wanted) message.now)
        input.new }
{
    // The law of messages that the proof cites.
    deciding_goes_last();
    cose_edge_verify(keys, aad, wanted, message, verdict, input);
    if is_past_limits(verdict) {
        verify_large(keys, aad, wanted, message, verdict, input);
    }
}

/// The verdict on all bytes of a message whose payload is detached, by a verifier that has taken none of both.
pub(crate) fn read_detached<'k, const H: usize, const D: usize, K: Keys<'k>>(
    verifier: &mut Verifier<'k, H, D, K>,
    message: &[u8],
    payload: &[u8],
    input: &mut CoseSignInput,
) -> CoseVerdict
    requires detached { is_detached verifier.old ≡ true }
    requires fresh { HasTaken (to_verify (setting_in verifier.old)) [] [] verifier.old }
    ensures verdict { result
        ≡ verdict_read H D (given payload.now (setting_in verifier.old)) 0 message.now }
    ensures input { result.status ≡ 2 → GivesAll
        (input_read H D (given payload.now (setting_in verifier.old)) message.now) input.new }
{
    // Laws that the proof cites.
    settled_stays();
    payload_stays();
    deciding_goes_last();
    spelled_is_read();
    authentication_decides();
    signatures_are_of_sign1();
    chosen_key_fits();
    let mut bytes = SliceIntake::new(message, CHUNK);
    let mut beside = SliceIntake::new(payload, CHUNK);
    match verify_detached::<CHUNK, H, D, _, _, _, _, _>(
        verifier,
        &mut bytes,
        &mut beside,
        &mut Nothing,
        &Always,
    ) {
        Ok(verdict) => {
            give_input(verifier, input);
            numbers_of(verdict, message.len() as u64, 0)
        }
        // The intakes and the sink never fail, and the verifier hasn't stopped.
        Err(_) => unreachable!(),
    }
}

/// The same for a message whose payload is detached (RFC 9052 sections 4.2 and 6.2), and is in memory too.
#[unsafe(no_mangle)]
pub extern "C" fn cose_edge_verify_detached(
    keys: &[u8],
    aad: &[u8],
    wanted: u8,
    message: &[u8],
    payload: &[u8],
    verdict: &mut CoseVerdict,
    input: &mut CoseSignInput,
)
    ensures verdict { verdict.new ≡ verdict_given 1024 8
        (beside payload.now (setting_given (keys_of keys.now) aad.now wanted)) 0 message.now }
    ensures input { verdict.new.status ≡ 2 → GivesAll
        (input_given 1024 8
        (beside payload.now (setting_given (keys_of keys.now) aad.now wanted)) message.now)
        input.new }
{
    *verdict = match context(keys, aad, wanted) {
        Ok(context) => {
            let mut verifier = Verifier::<HEADER, NESTING>::detached(context, payload.len() as u64);
            read_detached(&mut verifier, message, payload, input)
        }
        Err(status) => no_message(status),
    };
}

/// [`cose_edge_verify_detached`] for headers of 65,535 bytes that nest 16 deep, by a verifier that has room for them.
#[inline(never)]
fn verify_large_detached(
    keys: &[u8],
    aad: &[u8],
    wanted: u8,
    message: &[u8],
    payload: &[u8],
    verdict: &mut CoseVerdict,
    input: &mut CoseSignInput,
)
    ensures verdict { verdict.new ≡ verdict_given 65535 16
        (beside payload.now (setting_given (keys_of keys.now) aad.now wanted)) 0 message.now }
    ensures input { verdict.new.status ≡ 2 → GivesAll
        (input_given 65535 16
        (beside payload.now (setting_given (keys_of keys.now) aad.now wanted)) message.now)
        input.new }
{
    *verdict = match context(keys, aad, wanted) {
        Ok(context) => {
            let mut verifier = Verifier::<LARGE_HEADER, LARGE_NESTING>::detached(
                context,
                payload.len() as u64,
            );
            read_detached(&mut verifier, message, payload, input)
        }
        Err(status) => no_message(status),
    };
}

/// [`cose_edge_verify_detached`] for headers of 65,535 bytes that nest 16 deep, within the smaller limits first too.
#[unsafe(no_mangle)]
pub extern "C" fn cose_edge_large_verify_detached(
    keys: &[u8],
    aad: &[u8],
    wanted: u8,
    message: &[u8],
    payload: &[u8],
    verdict: &mut CoseVerdict,
    input: &mut CoseSignInput,
)
    ensures verdict { verdict.new ≡ verdict_given 65535 16
        (beside payload.now (setting_given (keys_of keys.now) aad.now wanted)) 0 message.now }
    ensures input { verdict.new.status ≡ 2 → GivesAll
        (input_given 65535 16
        (beside payload.now (setting_given (keys_of keys.now) aad.now wanted)) message.now)
        input.new }
{
    // The law of messages that the proof cites.
    deciding_goes_last();
    cose_edge_verify_detached(keys, aad, wanted, message, payload, verdict, input);
    if is_past_limits(verdict) {
        verify_large_detached(keys, aad, wanted, message, payload, verdict, input);
    }
}
