//! Messages in memory, one after another under one verifier.

ghost use Rattle.std.specs.Prelude.{◌≡◌, IfOk, false, is_err};
ghost use Rattle.cose_msg.specs.Answer.{decided};
ghost use Rattle.cose_msg.specs.Kept.{is_inspecting};
ghost use Rattle.cose_msg.specs.Message.{message as reading, verdict_of};
ghost use Rattle.cose_msg.specs.Status.{status_of_answer};
ghost use Rattle.cose_msg.specs.Task.{rules_of, to_verify};
ghost use Rattle.cose_msg.specs.Verifier.{is_detached, setting_in};

use crate::tests::messages::samples::{MAC0, mac0_and_more, under_jefe};
use crate::tests::{equal, messages};
use cose_msg::{
    Alg, EcVerifier, Intake, Kind, Never, Nothing, Reason, Refusal, SliceIntake, Status, Stop,
    Verdict, Verified, Verifier, verify, verify_slice,
};
use std::process::Abort;

/// A refusal for this reason, at this place.
fn refused(reason: Reason, place: u64) -> Verified<'static> {
    Verified::Refused(Refusal { reason, place })
}

/// An authentic COSE_Mac0 of this payload.
fn authentic(payload: &[u8]) -> Verified<'_> {
    Verified::Authentic {
        kind: Kind::Mac0,
        alg: Alg::Hmac256,
        payload,
    }
}

#[test]
fn serves_one_message_after_another(rt: HostRuntime) {
    let mut verifier = under_jefe::<64, 4>().expect(&rt, "a verifier");
    let further = mac0_and_more();
    equal(
        &rt,
        verify_slice(&mut verifier, &further, &Never),
        refused(Reason::Trailing, 44),
    );
    equal(
        &rt,
        verify_slice(&mut verifier, MAC0, &Never),
        authentic(b"hi"),
    );
    equal(
        &rt,
        verify_slice(&mut verifier, &MAC0[..9], &Never),
        refused(Reason::Truncated, 9),
    );
    equal(
        &rt,
        verify_slice(&mut verifier, MAC0, &Never),
        authentic(b"hi"),
    );
}

/// What `verify` answers after `verify_slice`: by their contracts alone, the verdict of the bytes in memory, with nothing
/// taken.
fn verdict_again<I: Intake, E: EcVerifier>(
    verifier: &mut Verifier<64, 4>,
    message: &[u8],
    intake: &mut I,
    ec: &E,
) -> Result<Verdict, Stop>
    requires verifies { is_inspecting verifier.old ≡ false }
    requires attached { is_detached verifier.old ≡ false }
    ensures verdict { IfOk result (λ verdict. verdict_of 64 4 (setting_in verifier.old)
        (E.decides ec.now) message.now ≡ decided verdict) }
    ensures answers { is_err result ≡ false }
    ensures none_taken { intake.new ≡ intake.old }
    ensures verifies { is_inspecting verifier.new ≡ false }
    ensures attached { is_detached verifier.new ≡ false }
{
    verify_slice(verifier, message, ec);
    verify::<1, 64, 4, _, _, _, _>(verifier, intake, &mut Nothing, ec)
}

/// The status after `verify_slice`, which is that of the bytes.
fn status_after(verifier: &mut Verifier<64, 4>, message: &[u8]) -> Status
    requires verifies { is_inspecting verifier.old ≡ false }
    requires attached { is_detached verifier.old ≡ false }
    ensures { result
        ≡ status_of_answer
        (reading (rules_of 64 4 (to_verify (setting_in verifier.old))) message.now).answer }
{
    verify_slice(verifier, message, &Never);
    verifier.status()
}

/// After these bytes the verdict is answered again, with no byte taken from an intake, and the status is this one.
fn keeps(rt: &impl Abort, message: &[u8], verdict: Verdict, status: Status) {
    let mut verifier = under_jefe::<64, 4>().expect(rt, "a verifier");
    let mut intake = SliceIntake::new(MAC0, 1);
    let again = verdict_again(&mut verifier, message, &mut intake, &Never);
    let left = intake.take(&mut [0; 1]);
    let after = status_after(&mut verifier, message);
    equal(rt, (again, left, after), (Ok(verdict), Ok(1), status));
}

#[test]
fn keeps_the_verdict(rt: HostRuntime) {
    let truncated = Refusal {
        reason: Reason::Truncated,
        place: 9,
    };
    keeps(
        &rt,
        &MAC0[..9],
        Verdict::Refused(truncated),
        Status::Refused(truncated),
    );
    // A byte after the message isn't taken: the verdict on the message is kept.
    keeps(
        &rt,
        &mac0_and_more(),
        messages::authentic(44),
        Status::Complete,
    );
}
