//! What a verifier gives in addition to its answer, and messages that are only inspected.

ghost use Rattle.std.specs.Prelude.{◌≡◌, false, true};
ghost use Rattle.cose_msg.specs.Kept.{is_inspecting};
ghost use Rattle.cose_msg.specs.Verifier.{is_detached};

use crate::tests::equal;
use crate::tests::messages::refused;
use crate::tests::messages::samples::{CURVE_KEY, MAC0, SIGN1, context_of, under_jefe};
use cose_msg::{
    Inspected, Kind, Label, Never, Nothing, Reason, SliceIntake, Stop, Verdict, Verifier, inspect,
    verify,
};

/// What `inspect` answers for the bytes of this intake.
fn inspected(verifier: &mut Verifier<32, 4>, intake: &mut SliceIntake) -> Result<Inspected, Stop>
    requires inspects { is_inspecting verifier.old ≡ true }
    requires attached { is_detached verifier.old ≡ false }
    ensures inspects { is_inspecting verifier.new ≡ true }
    ensures attached { is_detached verifier.new ≡ false }
{
    inspect::<64, 32, 4, _, SliceIntake, Nothing>(verifier, intake, &mut Nothing)
}

/// What `verify` answers for these bytes.
fn verified(verifier: &mut Verifier<32, 4>, bytes: &[u8]) -> Result<Verdict, Stop>
    requires verifies { is_inspecting verifier.old ≡ false }
    requires attached { is_detached verifier.old ≡ false }
{
    let mut intake = SliceIntake::new(bytes, 64);
    verify::<64, 32, 4, _, SliceIntake, Nothing, Never>(verifier, &mut intake, &mut Nothing, &Never)
}

#[test]
fn inspects_a_shape(rt: HostRuntime) {
    let context = context_of(b"\xa0", 4_096).expect(&rt, "a context");
    let mut verifier: Verifier<32, 4> = Verifier::inspecting(context);
    let mut intake = SliceIntake::new(MAC0, 7);
    let shape = inspected(&mut verifier, &mut intake);
    let wanted = Inspected::Shape {
        kind: Kind::Mac0,
        payload: 2,
        auth: 32,
        taken: 44,
    };
    let state = (verifier.is_inspecting(), verifier.sign_input().is_none());
    let kept = (verifier.held(), verifier.open_items());
    let again = inspected(&mut verifier, &mut intake);
    equal(
        &rt,
        (shape, state, kept, again),
        (Ok(wanted), (true, true), (256 + 3 + 1, 0), Ok(wanted)),
    );
    verifier.reset();
    equal(&rt, verifier.held(), 256);
}

#[test]
fn shows_the_buckets_after_a_refusal(rt: HostRuntime) {
    let mut verifier = under_jefe::<32, 4>().expect(&rt, "a verifier");
    let mut changed = *MAC0;
    changed[43] ^= 1;
    let verdict = verified(&mut verifier, &changed);
    let shown = verifier.unprotected().is_some();
    let wanted = refused(Reason::BadAuth, 10);
    equal(&rt, (verdict, shown), (Ok(wanted), true));
    let protected = verifier.protected().expect(&rt, "a protected bucket");
    let alg = protected.alg();
    equal(
        &rt,
        (alg, verifier.held()),
        (Some(Label::Int(5)), 256 + 3 + 1 + 32),
    );
}

#[test]
fn counts_open_items(rt: HostRuntime) {
    let mut verifier = under_jefe::<32, 4>().expect(&rt, "a verifier");
    let verdict = verified(&mut verifier, b"\xd1\x84\x43\xa1\x01\x05\xa1\x0a\x81\x81");
    let truncated = refused(Reason::Truncated, 10);
    let open = verifier.open_items();
    verifier.reset();
    equal(
        &rt,
        (verdict, open, verifier.open_items()),
        (Ok(truncated), 3, 0),
    );
}

#[test]
fn hands_out_what_a_signature_is_verified_with(rt: HostRuntime) {
    let context = context_of(CURVE_KEY, 4_096).expect(&rt, "a context");
    let mut verifier: Verifier<32, 4> = Verifier::new(context);
    let verdict = verified(&mut verifier, SIGN1);
    equal(&rt, verdict, Ok(refused(Reason::BadAuth, 8)));
    let asked = verifier.sign_input();
    let (_, digest, signature) = asked.expect(&rt, "what the signature is verified with");
    equal(&rt, (digest.len(), signature), (32, &SIGN1[10..]));
}
