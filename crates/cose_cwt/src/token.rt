//! A token, from its bytes to its claims (RFC 8392 section 7.2).

ghost use Rattle.std.specs.Prelude.{◌≡◌, ◌↔◌, ◌≤◌, true, false, [], Result, Err, IsErr};
ghost use Rattle.cose_head.specs.declared.refusal.Refusal.{Refusal};
ghost use Rattle.cose_map.specs.Map.View.{seen_by};
ghost use Rattle.cose_msg.specs.declared.verdict.Stop.{Stop};
ghost use Rattle.cose_msg.specs.Change.{intake_change};
ghost use Rattle.cose_msg.specs.Kept.{SamePurpose, bytes_taken, is_inspecting, is_stopped};
ghost use Rattle.cose_msg.specs.Run.{FailsIf};
ghost use Rattle.cose_msg.specs.Verifier.{is_detached, setting_in};
ghost use Rattle.cose_cwt.specs.declared.token.CwtStop.{CwtStop};
ghost use Rattle.cose_cwt.specs.Admission.{admitted_claims as admitted_claims_of};
ghost use Rattle.cose_cwt.specs.Admission.View.{policy_value};
ghost use Rattle.cose_cwt.specs.Claims.View.{claims_value};
ghost use Rattle.cose_cwt.specs.Token.{AnswersAgain, IsRun, IsToken, UnlessStopped, WhateverBytes, WhateverSetting, claims_seen, is_for_intake, is_for_store, stop_in, token_of};

use crate::claims::Claims;
use crate::laws::claims_refusals_stand_inside;
use crate::policy::Policy;
use cose_map::{Keys, Refusal};
use cose_msg::laws::settled_stays;
use cose_msg::{EcVerifier, Intake, Lender, Stop, Store, Verdict, Verifier, verify};

/// Why [`verify_cwt`] returns no claims.
#[derive(Clone, Copy, Debug, PartialEq, Eq)]
pub enum CwtStop {
    /// The verifier stopped before a verdict.
    Stopped(Stop),
    /// The message is refused. The place is relative to its first byte.
    Message(Refusal),
    /// The message is authentic, and its claims are refused. The place is relative to the payload's first byte.
    Claims(Refusal),
}

/// The claims of a payload, if they are admitted.
pub(crate) fn admitted_claims<'a>(
    payload: &'a [u8],
    depth: usize,
    policy: &Policy<'_>,
) -> Result<Claims<'a>, Refusal>
    requires { depth ≤ 32 }
    ensures { seen_by claims_value result ≡ admitted_claims_of depth (policy_value policy.entry.now)
        payload.entry.now }
{
    let claims = Claims::read(payload, depth)?;
    claims.admit(policy)?;
    Ok(claims)
}

/// The result for a token, by the verdict on the message and its payload, which a store lends. Where there are no claims the
/// store is cleared, so that nothing of a refused payload is left in it.
///
/// (The claims are read into the result's own place: they are of some 400 bytes.)
fn claims_or_cleared<'a>(
    verdict: Result<Verdict, Stop>,
    payload: &'a [u8],
    lender: Lender<'_>,
    depth: usize,
    policy: &Policy<'_>,
) -> Result<Claims<'a>, CwtStop>
    requires { depth ≤ 32 }
    ensures claims { claims_seen result
        ≡ token_of depth (policy_value policy.entry.now) verdict payload.entry.now }
    ensures cleared { IsErr result → lender.exit.0.now ≡ true }
{
    let why = match verdict {
        Ok(Verdict::Authentic { .. }) => match Claims::read(payload, depth) {
            Ok(claims) => match claims.admit(policy) {
                Ok(()) => return Ok(claims),
                Err(refusal) => CwtStop::Claims(refusal),
            },
            Err(refusal) => CwtStop::Claims(refusal),
        },
        Ok(Verdict::Refused(refusal)) => CwtStop::Message(refusal),
        Err(stop) => CwtStop::Stopped(stop),
    };
    lender.clear();
    Err(why)
}

/// Verifies one token, and returns its claims where the message is authentic and the claims are admitted.
///
/// The call resets the store, and the payload goes into it. The claims borrow the store, and are read only after the
/// message is known to be authentic, so no claim of another message is ever returned. After a refusal or a stop the
/// store holds nothing.
///
/// The verifier isn't one that [`Verifier::inspecting`] or [`Verifier::detached`] made, and must have taken nothing yet.
/// Its context must allow the CWT tag, and no payload that the store can't hold. After a verdict or a stop the verifier
/// answers as after [`verify`], until `reset`.
pub fn verify_cwt<
    'a,
    'k,
    const C: usize,
    const H: usize,
    const D: usize,
    const L: usize,
    K: Keys<'k>,
    I: Intake,
    E: EcVerifier,
>(
    verifier: &mut Verifier<'k, H, D, K>,
    intake: &mut I,
    store: &'a mut Store<L>,
    ec: &E,
    policy: &Policy<'_>,
) -> Result<Claims<'a>, CwtStop>
    requires some { 1 ≤ C }
    requires limit { C ≤ 65536 }
    requires nesting { D ≤ 32 }
    requires some_store { 16 ≤ L }
    requires store_limit { L ≤ 65535 }
    requires verifies { is_inspecting verifier.old ≡ false }
    requires attached { is_detached verifier.old ≡ false }
    requires none_taken { bytes_taken verifier.old ≡ 0 }
    requires cwt { (setting_in verifier.old).cwt ≡ true }
    requires payload_limit { (setting_in verifier.old).payload_limit ≤ L }
    // The bytes that were taken, what the verifier's getters give of them, the verdict that is kept, the payload among
    // them, and the result for the token by that verdict and that payload.
    ensures run { WhateverSetting verifier.old (λ setting.
        IsRun setting (E.decides ec.now) (policy_value policy.entry.now)
        (intake_change I.to_come I.ended intake.old intake.new) verifier.new (claims_seen result)) }
    // Where the intake's bytes are known to the contract, the result is that of all of them.
    ensures token { WhateverBytes verifier.old (I.to_come intake.old) (λ setting bytes.
        UnlessStopped (claims_seen result)
        (IsToken H D setting (E.decides ec.now) (policy_value policy.entry.now) bytes
        (claims_seen result))) }
    // A verdict or stop that was kept is answered again, and the call doesn't stop for the intake.
    ensures again { AnswersAgain verifier.old verifier.new intake.old intake.new
        (stop_in (claims_seen result)) (λ answer.
        claims_seen result ≡ token_of D (policy_value policy.entry.now) answer []) }
    ensures stopped { (claims_seen result ≡ Err (CwtStop.Stopped Stop.Again))
        ↔ (is_stopped verifier.old ≡ true) }
    ensures purpose { SamePurpose verifier.old verifier.new }

    // The place of a refusal of the claims is within the store's length, for any verifier. In a run it is in the
    // payload, or at its end.
    ensures within { (refusal : Refusal) → claims_seen result ≡ Err (CwtStop.Claims refusal)
        → refusal.place ≤ L }

    // The intake has failed exactly where it had failed before, or where this call stops for it. The call never stops
    // for the store.
    ensures intake_failure { FailsIf I.has_failed intake.old intake.new
        (is_for_intake (stop_in (claims_seen result))) }
    ensures store_suffices { is_for_store (stop_in (claims_seen result)) ≡ false }
{
    // Laws that the proof cites: a verdict is the same when bytes follow, and the places of refusals of claims.
    settled_stays();
    claims_refusals_stand_inside();
    // The proof cites what this ensures of a verifier that has taken nothing.
    let _none = verifier.taken();
    store.clear();
    let verdict = verify::<C, H, D, K, I, Store<L>, E>(verifier, intake, store, ec);
    let (payload, lender) = store.lend();
    claims_or_cleared(verdict, payload, lender, D, policy)
}
