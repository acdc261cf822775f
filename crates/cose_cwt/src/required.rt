//! A token of which something is required, from its bytes to its claims, the kind of its message and the algorithm.

ghost use Rattle.std.specs.Prelude.{◌≡◌, ◌↔◌, ◌≤◌, true, false, [], Result, Err, IsErr};
ghost use Rattle.cose_head.specs.declared.refusal.Refusal.{Refusal};
ghost use Rattle.cose_msg.specs.declared.verdict.Stop.{Stop};
ghost use Rattle.cose_msg.specs.Change.{intake_change};
ghost use Rattle.cose_msg.specs.Kept.{SamePurpose, bytes_taken, is_inspecting, is_stopped};
ghost use Rattle.cose_msg.specs.Run.{FailsIf};
ghost use Rattle.cose_msg.specs.Verifier.{is_detached, setting_in};
ghost use Rattle.cose_cwt.specs.Admission.{admitted_claims as admitted_claims_of};
ghost use Rattle.cose_cwt.specs.Admission.View.{policy_value};
ghost use Rattle.cose_cwt.specs.Requirements.View.{requirements_value};
ghost use Rattle.cose_cwt.specs.Required.{IsRequiredRun, IsRequiredToken, RequiredUnlessStopped, if_admitted, required_of, required_stop_in, token_seen};
ghost use Rattle.cose_cwt.specs.declared.required.TokenStop.{TokenStop};
ghost use Rattle.cose_cwt.specs.declared.token.CwtStop.{CwtStop};
ghost use Rattle.cose_cwt.specs.Token.{AnswersAgain, WhateverBytes, WhateverSetting, is_for_intake, is_for_store, of_claims};

use crate::claims::Claims;
use crate::laws::claims_refusals_stand_inside;
use crate::policy::Policy;
use crate::requirements::{Requirements, Unmet};
use crate::token::{CwtStop, admitted_claims};
use cose_map::Keys;
use cose_msg::laws::settled_stays;
use cose_msg::{Alg, EcVerifier, Intake, Kind, Lender, Stop, Store, Verdict, Verifier, verify};

/// A token that is admitted, and meets what the caller requires of it.
#[derive(Clone, Copy, Debug)]
pub struct Token<'a> {
    /// The claims.
    pub claims: Claims<'a>,
    /// The kind of the message.
    pub kind: Kind,
    /// The algorithm that authenticates the message.
    pub alg: Alg,
}

/// Why [`verify_token`] returns no token.
#[derive(Clone, Copy, Debug, PartialEq, Eq)]
pub enum TokenStop {
    /// No claims are admitted, as [`verify_cwt`](crate::verify_cwt) says it.
    Cwt(CwtStop),
    /// The message is authentic and its claims are admitted, and a requirement isn't met.
    Unmet(Unmet),
}

/// The token of an authentic payload, if it is admitted and meets the requirements.
fn authentic_token<'a>(
    kind: Kind,
    alg: Alg,
    payload: &'a [u8],
    depth: usize,
    policy: &Policy<'_>,
    requirements: &Requirements<'_>,
) -> Result<Token<'a>, TokenStop>
    requires { depth ≤ 32 }
    ensures { token_seen result ≡ if_admitted (requirements_value requirements.entry.now) kind alg
        (of_claims (admitted_claims_of depth (policy_value policy.entry.now) payload.entry.now)) }
{
    match admitted_claims(payload, depth, policy) {
        Ok(claims) => match claims.meets(requirements) {
            Ok(()) => Ok(Token { claims, kind, alg }),
            Err(unmet) => Err(TokenStop::Unmet(unmet)),
        },
        Err(refusal) => Err(TokenStop::Cwt(CwtStop::Claims(refusal))),
    }
}

/// The result for a token, by the verdict on the message and its payload.
pub(crate) fn token_after<'a>(
    verdict: Result<Verdict, Stop>,
    payload: &'a [u8],
    depth: usize,
    policy: &Policy<'_>,
    requirements: &Requirements<'_>,
) -> Result<Token<'a>, TokenStop>
    requires { depth ≤ 32 }
    ensures { token_seen result ≡ required_of depth (policy_value policy.entry.now)
        (requirements_value requirements.entry.now) verdict payload.entry.now }
{
    match verdict {
        Ok(Verdict::Authentic { kind, alg, .. }) => {
            authentic_token(kind, alg, payload, depth, policy, requirements)
        }
        Ok(Verdict::Refused(refusal)) => Err(TokenStop::Cwt(CwtStop::Message(refusal))),
        Err(stop) => Err(TokenStop::Cwt(CwtStop::Stopped(stop))),
    }
}

/// The same of a payload that a store lends. Where there is no token the store is cleared, so that nothing of a refused
/// payload is left in it.
fn token_or_cleared<'a>(
    verdict: Result<Verdict, Stop>,
    payload: &'a [u8],
    lender: Lender<'_>,
    depth: usize,
    policy: &Policy<'_>,
    requirements: &Requirements<'_>,
) -> Result<Token<'a>, TokenStop>
    requires { depth ≤ 32 }
    ensures token { token_seen result ≡ required_of depth (policy_value policy.entry.now)
        (requirements_value requirements.entry.now) verdict payload.entry.now }
    ensures cleared { IsErr result → lender.exit.0.now ≡ true }
{
    let token = token_after(verdict, payload, depth, policy, requirements);
    if token.is_err() {
        lender.clear();
    }
    token
}

/// Verifies one token as [`verify_cwt`](crate::verify_cwt) does, and returns it where its claims meet the requirements
/// too, with the kind of its message and the algorithm. After a refusal or a stop the store holds nothing.
pub fn verify_token<
    'a,
    'k,
    const C: usize,
    const H: usize,
    const D: usize,
    const L: usize,
    K: Keys<'k>,
    I: Intake,
    E: EcVerifier,
>(
    verifier: &mut Verifier<'k, H, D, K>,
    intake: &mut I,
    store: &'a mut Store<L>,
    ec: &E,
    policy: &Policy<'_>,
    requirements: &Requirements<'_>,
) -> Result<Token<'a>, TokenStop>
    requires some { 1 ≤ C }
    requires limit { C ≤ 65536 }
    requires nesting { D ≤ 32 }
    requires some_store { 16 ≤ L }
    requires store_limit { L ≤ 65535 }
    requires verifies { is_inspecting verifier.old ≡ false }
    requires attached { is_detached verifier.old ≡ false }
    requires none_taken { bytes_taken verifier.old ≡ 0 }
    requires cwt { (setting_in verifier.old).cwt ≡ true }
    requires payload_limit { (setting_in verifier.old).payload_limit ≤ L }
    // What `verify_cwt` does and says of it, and the token by the same verdict and payload.
    ensures run { WhateverSetting verifier.old (λ setting.
        IsRequiredRun setting (E.decides ec.now) (policy_value policy.entry.now)
        (requirements_value requirements.entry.now)
        (intake_change I.to_come I.ended intake.old intake.new) verifier.new (token_seen result)) }
    // Where the intake's bytes are known to the contract, the result is that of all of them.
    ensures token { WhateverBytes verifier.old (I.to_come intake.old) (λ setting bytes.
        RequiredUnlessStopped (token_seen result)
        (IsRequiredToken H D setting (E.decides ec.now) (policy_value policy.entry.now)
        (requirements_value requirements.entry.now) bytes (token_seen result))) }
    // A verdict or stop that was kept is answered again, and the call doesn't stop for the intake.
    ensures again { AnswersAgain verifier.old verifier.new intake.old intake.new
        (required_stop_in (token_seen result)) (λ answer.
        token_seen result ≡ required_of D (policy_value policy.entry.now)
        (requirements_value requirements.entry.now) answer []) }
    ensures stopped { (token_seen result ≡ Err (TokenStop.Cwt (CwtStop.Stopped Stop.Again)))
        ↔ (is_stopped verifier.old ≡ true) }
    ensures purpose { SamePurpose verifier.old verifier.new }

    // The place of a refusal of the claims is within the store's length, for any verifier. In a run it is in the
    // payload, or at its end.
    ensures within { (refusal : Refusal)
        → token_seen result ≡ Err (TokenStop.Cwt (CwtStop.Claims refusal)) → refusal.place ≤ L }

    // The intake has failed exactly where it had failed before, or where this call stops for it. The call never stops
    // for the store.
    ensures intake_failure { FailsIf I.has_failed intake.old intake.new
        (is_for_intake (required_stop_in (token_seen result))) }
    ensures store_suffices { is_for_store (required_stop_in (token_seen result)) ≡ false }
{
    // Laws that the proof cites: a verdict is the same when bytes follow, and the places of refusals of claims.
    settled_stays();
    claims_refusals_stand_inside();
    // The proof cites what this ensures of a verifier that has taken nothing.
    let _none = verifier.taken();
    store.clear();
    let verdict = verify::<C, H, D, K, I, Store<L>, E>(verifier, intake, store, ec);
    let (payload, lender) = store.lend();
    token_or_cleared(verdict, payload, lender, D, policy, requirements)
}
