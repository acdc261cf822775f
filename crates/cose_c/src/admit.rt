//! A token in memory, by one call, under what a caller states and requires in one struct each, and the claims of a payload.

ghost use Rattle.std.specs.Prelude.{◌≡◌, ◌≢◌, ◌≤◌, ℕ, Ok, drop, take};
ghost use Rattle.cose_cwt.specs.Claims.{claims_of};
ghost use Rattle.cose_cwt.specs.Claims.View.{claims_value};
ghost use Rattle.cose_cwt.specs.Requirements.{met};
ghost use Rattle.cose_c.specs.Claims.{Gives, GivesAlone, status_in};
ghost use Rattle.cose_c.specs.CoseClaims.{no_claims};
ghost use Rattle.cose_c.specs.Required.{GivesAfter, GivesRequired, claims_meeting, claims_required, required_stated, required_value, unless_unmet};
ghost use Rattle.cose_c.specs.Stated.{setting_stated};

use crate::authenticate::verdict_under;
use crate::claims::{admitted, bytes_before, bytes_from, claims_for_c, placed_claims, status_of};
use crate::cose_claims::{CoseClaims, no_claims};
use crate::numbers::{AUTHENTIC, CLAIMS_REFUSED, CoseVerdict, refused_status};
use crate::required::{CoseRequirements, Required, required_by, unmet_status};
use crate::stated::CoseTerms;
use crate::terms::{HEADER, LARGE_HEADER, LARGE_NESTING, NESTING};
use cose_cwt::Claims;

/// The claims of a payload, which are admitted, where they meet what is required.
fn claims_met(claims: &Claims<'_>, payload: &[u8], required: &Required<'_>) -> CoseClaims
    ensures gives { (depth : ℕ) → depth ≤ 32
        → claims_of depth (record { bytes = payload.now; place = 0 }) ≡ Ok (claims_value claims.now)
        → Gives payload.now (unless_unmet (claims_value claims.now)
        (met (required_value required.entry.now) (claims_value claims.now))) result }
    ensures alone { GivesAlone payload.now (unless_unmet (claims_value claims.now)
        (met (required_value required.entry.now) (claims_value claims.now))) result }
{
    match required.met_by(claims) {
        Ok(()) => placed_claims(claims_for_c(claims, payload), 0, payload.len() as u64),
        Err(unmet) => no_claims(unmet_status(unmet)),
    }
}

/// The claims of a payload, where they are admitted and meet what is required.
fn claims_meeting(payload: &[u8], depth: usize, required: &Required<'_>) -> CoseClaims
    requires { depth ≤ 32 }
    ensures gives { Gives payload.now
        (claims_meeting depth (required_value required.entry.now) payload.now) result }
    ensures alone { GivesAlone payload.now
        (claims_meeting depth (required_value required.entry.now) payload.now) result }
{
    match admitted(payload, depth, &required.policy()) {
        Ok(claims) => claims_met(&claims, payload, required),
        Err(refusal) => no_claims(refused_status(CLAIMS_REFUSED, refusal)),
    }
}

/// The claims of a payload, where what is required of them is known.
fn claims_required(payload: &[u8], depth: usize, requirements: &CoseRequirements<'_>) -> CoseClaims
    requires { depth ≤ 32 }
    ensures gives { Gives payload.now
        (claims_required depth (required_stated requirements.entry.now) payload.now) result }
    ensures alone { GivesAlone payload.now
        (claims_required depth (required_stated requirements.entry.now) payload.now) result }
{
    match required_by(requirements) {
        Ok(required) => claims_meeting(payload, depth, &required),
        Err(status) => no_claims(status),
    }
}

/// The claims of a token whose verdict is known, where it is known what is required of them.
#[tactic(auto, using(crate::proofs::ClaimsForC::gives_at_any_place))]
fn claims_by(
    verdict: CoseVerdict,
    token: &[u8],
    depth: usize,
    required: &Required<'_>,
) -> CoseClaims
    requires { depth ≤ 32 }
    ensures other { verdict.status ≢ 1 → result ≡ no_claims (status_in verdict) }
    ensures admitted { verdict.status ≡ 1
        → Gives (take verdict.payload_length (drop verdict.payload_at token.now))
        (claims_meeting depth (required_value required.entry.now)
        (take verdict.payload_length (drop verdict.payload_at token.now)))
        result }
    ensures place { verdict.status ≡ 1 → result.payload_at ≡ verdict.payload_at }
    ensures count { verdict.status ≡ 1 → result.payload_length ≡ verdict.payload_length }
{
    if verdict.status != AUTHENTIC {
        return no_claims(status_of(verdict));
    }
    let payload = bytes_before(
        bytes_from(token, verdict.payload_at),
        verdict.payload_length,
    );
    let claims = claims_meeting(payload, depth, required);
    placed_claims(claims, verdict.payload_at, verdict.payload_length)
}

/// Puts the claims of a token whose verdict is known into their place. It is never inlined: neither they nor what is required of them is on
/// the stack while the message is read.
#[inline(never)]
pub(crate) fn claims_after(
    verdict: CoseVerdict,
    token: &[u8],
    depth: usize,
    requirements: &CoseRequirements<'_>,
    into: &mut CoseClaims,
)
    requires { depth ≤ 32 }
    ensures { GivesAfter depth verdict (required_stated requirements.entry.now) token.now into.new }
{
    *into = match required_by(requirements) {
        Ok(required) => claims_by(verdict, token, depth, &required),
        Err(status) => no_claims(status),
    };
}

/// Puts the claims of a token under terms, by a verifier of either size, into their place.
fn claims_under<const H: usize, const D: usize>(
    terms: &CoseTerms<'_>,
    requirements: &CoseRequirements<'_>,
    token: &[u8],
    into: &mut CoseClaims,
)
    requires some_room { 16 ≤ H }
    requires limit { H ≤ 65535 }
    requires nesting { D ≤ 32 }
    ensures { GivesRequired H D (setting_stated terms.entry.now)
        (required_stated requirements.entry.now) token.now into.new }
{
    let verdict = verdict_under::<H, D>(terms, token);
    claims_after(verdict, token, D, requirements, into);
}

/// Verifies a token in memory under terms, and reads its claims where they meet requirements (RFC 8392 section 7.2): the bytes are the
/// token, and nothing follows it.
///
/// Where the token is a COSE_Sign1 the status is [`SIGNED`](crate::numbers::SIGNED), and no claims are returned: verify it with
/// [`cose_edge_authenticate`](crate::authenticate::cose_edge_authenticate), and pass its payload to [`cose_edge_admit_claims`].
#[unsafe(no_mangle)]
pub extern "C" fn cose_edge_admit(
    terms: &CoseTerms<'_>,
    requirements: &CoseRequirements<'_>,
    token: &[u8],
    claims: &mut CoseClaims,
)
    ensures { GivesRequired 1024 8 (setting_stated terms.entry.now)
        (required_stated requirements.entry.now) token.now claims.new }
{
    claims_under::<HEADER, NESTING>(terms, requirements, token, claims);
}

/// The same for headers of 65,535 bytes, where headers and claims nest 16 deep.
#[unsafe(no_mangle)]
pub extern "C" fn cose_edge_large_admit(
    terms: &CoseTerms<'_>,
    requirements: &CoseRequirements<'_>,
    token: &[u8],
    claims: &mut CoseClaims,
)
    ensures { GivesRequired 65535 16 (setting_stated terms.entry.now)
        (required_stated requirements.entry.now) token.now claims.new }
{
    claims_under::<LARGE_HEADER, LARGE_NESTING>(terms, requirements, token, claims);
}

/// Reads the claims of a payload that is known to be authentic, such as that of a COSE_Sign1 whose signature is good, where they meet
/// requirements.
#[unsafe(no_mangle)]
pub extern "C" fn cose_edge_admit_claims(
    requirements: &CoseRequirements<'_>,
    payload: &[u8],
    claims: &mut CoseClaims,
)
    ensures claims { Gives payload.now
        (claims_required 8 (required_stated requirements.entry.now) payload.now) claims.new }
    ensures payload { GivesAlone payload.now
        (claims_required 8 (required_stated requirements.entry.now) payload.now) claims.new }
{
    *claims = claims_required(payload, NESTING, requirements);
}

/// The same for claims that nest 16 deep.
#[unsafe(no_mangle)]
pub extern "C" fn cose_edge_large_admit_claims(
    requirements: &CoseRequirements<'_>,
    payload: &[u8],
    claims: &mut CoseClaims,
)
    ensures claims { Gives payload.now
        (claims_required 16 (required_stated requirements.entry.now) payload.now) claims.new }
    ensures payload { GivesAlone payload.now
        (claims_required 16 (required_stated requirements.entry.now) payload.now) claims.new }
{
    *claims = claims_required(payload, LARGE_NESTING, requirements);
}
