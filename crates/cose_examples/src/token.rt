//! A token.

ghost use Rattle.std.specs.Prelude.{◌≡◌, ◌≤◌, true, IfOk, length};
ghost use Rattle.std.specs.Io.KnownBytes.{IsAtEnd};
ghost use Rattle.cose_map.specs.KeySet.View.{keys as usable};
ghost use Rattle.cose_msg.specs.Verifier.{setting_of};
ghost use Rattle.cose_cwt.specs.Admission.View.{policy_value};
ghost use Rattle.cose_cwt.specs.Claims.View.{claims_value};
ghost use Rattle.cose_examples.specs.Token.{IsAdmitted, policy_at, token_setting};

use cose_cwt::{Audience, Claims, CwtStop, Policy, verify_cwt};
use cose_msg::{
    Context, Intake, KeySet, Never, Reason, Refusal, SliceIntake, Store, Verifier, Wanted,
};

/// What tokens are verified under: the CWT tag may come first, and the payload fits into a store of 4,096 bytes.
fn token_context(keys: KeySet) -> Context
    ensures external { length result.aad.now ≤ 65535 }
    ensures setting { setting_of usable result ≡ token_setting (usable keys.entry) }
{
    Context {
        keys,
        aad: b"",
        wanted: Wanted::Tagged,
        cwt: true,
        understood: &[],
        payload_limit: 4_096,
    }
}

/// Whether no byte follows.
fn is_at_end<'i>(intake: &mut SliceIntake<'i>) -> bool
    ensures { result ≡ true
        → IsAtEnd (⟦<SliceIntake<'i> as Intake>⟧.to_come intake.old) }
{
    match intake.take(&mut [0]) {
        Ok(count) => count == 0,
        Err(_) => false,
    }
}

/// The conditions of admission: at this time, give or take a minute, and for the light.
fn policy_at(now: i64) -> Policy<'static>
    ensures { policy_value result ≡ policy_at now }
{
    Policy {
        now,
        leeway: 60,
        audience: Audience::Mine(&["coap://light.example.com"]),
    }
}

/// The claims of a token that is admitted at this time, give or take a minute, and is for the light. No byte follows it.
pub fn claims_of<'p>(
    keys: KeySet,
    token: &[u8],
    now: i64,
    store: &'p mut Store<4_096>,
) -> Result<Claims<'p>, CwtStop>
    ensures admitted { IfOk result (λ claims.
        IsAdmitted (usable keys.entry) (policy_at now) token.now (claims_value claims)) }
{
    let mut verifier = Verifier::new(token_context(keys));
    let mut intake = SliceIntake::new(token, 512);
    let claims = verify_cwt::<512, 1_024, 8, 4_096, _, _, _>(
        &mut verifier,
        &mut intake,
        store,
        &Never,
        &policy_at(now),
    )?;
    if !is_at_end(&mut intake) {
        return Err(CwtStop::Message(Refusal {
            reason: Reason::Trailing,
            place: verifier.taken(),
        }));
    }
    Ok(claims)
}
