//! A token that is authenticated elsewhere: by a caller that has the hash or the key.

ghost use Rattle.std.specs.Prelude.{◌≡◌, ◌≤◌, true, Ok, Some};
ghost use Rattle.cose_msg.specs.declared.verdict.Verdict.{Verdict};
ghost use Rattle.cose_msg.specs.Elsewhere.{stated_answer, stated_mac};
ghost use Rattle.cose_msg.specs.Kept.{WhateverAsked, bytes_taken, kept_answer};
ghost use Rattle.cose_msg.specs.Status.{is_complete, status_in};
ghost use Rattle.cose_msg.specs.Verifier.{is_elsewhere, task_of};
ghost use Rattle.cose_cwt.specs.Admission.View.{policy_value};
ghost use Rattle.cose_cwt.specs.Elsewhere.{IsTokenBy};
ghost use Rattle.cose_cwt.specs.Requirements.View.{requirements_value};
ghost use Rattle.cose_cwt.specs.Required.{required_of, token_seen};

use crate::policy::Policy;
use crate::required::{Token, TokenStop, token_after};
use crate::requirements::Requirements;
use cose_map::Keys;
use cose_msg::Verifier;

/// The token of a COSE_Mac0 that was fed whole to a verifier of [`Verifier::elsewhere`], where the MAC that the caller computed of the
/// structure is the message's tag, and the claims of the payload are admitted and meet the requirements
/// ([`Verifier::verdict_of_mac`], [`verify_token`](crate::verify_token)).
///
/// `payload` are the bytes that `feed` said are the payload's, which the caller has gathered: the claims borrow them.
pub fn token_of_mac<'a, 'k, const H: usize, const D: usize, K: Keys<'k>>(
    verifier: &mut Verifier<'k, H, D, K>,
    mac: &[u8],
    payload: &'a [u8],
    policy: &Policy<'_>,
    requirements: &Requirements<'_>,
) -> Result<Token<'a>, TokenStop>
    requires nesting { D ≤ 32 }
    requires complete { is_complete (status_in verifier.old) ≡ true }
    requires elsewhere { is_elsewhere verifier.old ≡ true }
    // By the verdict on the bytes so far, and this payload.
    ensures token { WhateverAsked verifier.old (λ setting taken _.
        IsTokenBy H D setting (stated_mac mac.now) (policy_value policy.entry.now)
        (requirements_value requirements.entry.now) taken payload.entry.now (token_seen result)) }
    // A verdict that was kept counts, whatever is stated later.
    ensures again { (verdict : Verdict) → kept_answer verifier.old ≡ Some (Ok verdict) →
        (token_seen result ≡ required_of D (policy_value policy.entry.now)
        (requirements_value requirements.entry.now) (Ok verdict) payload.entry.now)
        × (verifier.new ≡ verifier.old) }
    ensures counts { bytes_taken verifier.new ≡ bytes_taken verifier.old }
    ensures purpose { task_of verifier.new ≡ task_of verifier.old }
{
    let verdict = verifier.verdict_of_mac(mac);
    token_after(Ok(verdict), payload, D, policy, requirements)
}

/// The same of a COSE_Sign1, where the caller's verifier says whether the signature of the structure holds
/// ([`Verifier::verdict_of_answer`]).
pub fn token_of_answer<'a, 'k, const H: usize, const D: usize, K: Keys<'k>>(
    verifier: &mut Verifier<'k, H, D, K>,
    holds: bool,
    payload: &'a [u8],
    policy: &Policy<'_>,
    requirements: &Requirements<'_>,
) -> Result<Token<'a>, TokenStop>
    requires nesting { D ≤ 32 }
    requires complete { is_complete (status_in verifier.old) ≡ true }
    requires elsewhere { is_elsewhere verifier.old ≡ true }
    ensures token { WhateverAsked verifier.old (λ setting taken _.
        IsTokenBy H D setting (stated_answer holds) (policy_value policy.entry.now)
        (requirements_value requirements.entry.now) taken payload.entry.now (token_seen result)) }
    ensures again { (verdict : Verdict) → kept_answer verifier.old ≡ Some (Ok verdict) →
        (token_seen result ≡ required_of D (policy_value policy.entry.now)
        (requirements_value requirements.entry.now) (Ok verdict) payload.entry.now)
        × (verifier.new ≡ verifier.old) }
    ensures counts { bytes_taken verifier.new ≡ bytes_taken verifier.old }
    ensures purpose { task_of verifier.new ≡ task_of verifier.old }
{
    let verdict = verifier.verdict_of_answer(holds);
    token_after(Ok(verdict), payload, D, policy, requirements)
}
