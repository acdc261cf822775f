//! What a caller requires of tokens, in one struct.

ghost use Rattle.std.specs.Prelude.{◌≡◌, [], ◌∷◌, filter};
ghost use Rattle.cose_cwt.specs.Admission.View.{policy_value};
ghost use Rattle.cose_cwt.specs.Claims.View.{claims_value};
ghost use Rattle.cose_cwt.specs.Requirements.{absent_of, first_of, met};
ghost use Rattle.cose_cwt.specs.Requirements.View.{requirements_value};
ghost use Rattle.cose_c.specs.Required as spec;

use crate::claims::utf8;
use crate::numbers::{BAD_ARGUMENT, CoseStatus, UNMET, plain_status};
use crate::stated::has_flag;
use cose_cwt::{Audience, Claim, Claims, Policy, Requirement, Requirements, Unmet};
use std::slice;

/// The number of bytes of the struct of requirements.
const REQUIREMENTS_SIZE: u32 = 88;

/// All claims that may have to be present.
const ALL_CLAIMS: u8 = 127;

/// A token that never expires is permitted.
const WITHOUT_EXP: u8 = 1;

/// What a caller requires of tokens.
#[repr(C)]
#[derive(Clone, Copy)]
pub struct CoseRequirements<'r> {
    /// The number of bytes of this struct.
    pub size: u32,
    /// The number of seconds by which the clocks of issuer and caller may differ.
    pub leeway: u32,
    /// The current time, in seconds since 1970, which isn't 0.
    pub now: i64,
    /// The longest lifetime in seconds, 0 where it is not stated.
    pub lifetime: u64,
    /// The greatest age in seconds, 0 where it is not stated.
    pub age: u64,
    /// The issuer, in UTF-8, of no bytes where it is not stated.
    pub iss: &'r [u8],
    /// The subject, in UTF-8, of no bytes where it is not stated.
    pub sub: &'r [u8],
    /// An audience that has to be named, in UTF-8, of no bytes where it is not stated.
    pub aud: &'r [u8],
    /// The claims that have to be present: 1 iss, 2 sub, 4 aud, 8 exp, 16 nbf, 32 iat, 64 cti.
    pub present: u8,
    /// What is permitted: 1 a token without exp.
    pub permitted: u8,
}

/// What a caller requires of tokens, once it is known to be good.
#[derive(Clone, Copy)]
pub(crate) struct Required<'r> {
    /// All of it but the claims that have to be present.
    rest: Requirements<'r>,
    /// Those claims, by their flags.
    present: u8,
    /// What is permitted.
    permitted: u8,
}

/// A text string that is stated, if it is.
fn text_stated(bytes: &[u8]) -> Result<Option<&str>, CoseStatus>
    ensures { spec.text_seen result ≡ spec.text_stated bytes.now }
{
    if bytes.is_empty() {
        return Ok(None);
    }
    match utf8(bytes) {
        Some(text) => Ok(Some(text)),
        None => Err(plain_status(BAD_ARGUMENT)),
    }
}

/// A number that is stated, if it is.
fn number_stated(number: u64) -> Option<u64>
    ensures { result ≡ spec.number_stated number }
{
    if number == 0 {
        return None;
    }
    Some(number)
}

/// Whether the struct is of another version, or a number in it is none that is known.
fn is_unknown(requirements: &CoseRequirements<'_>) -> bool
    ensures { result ≡ spec.is_unknown requirements.entry.now }
{
    requirements.size != REQUIREMENTS_SIZE
        || requirements.now == 0
        || requirements.present > ALL_CLAIMS
        || requirements.permitted > WITHOUT_EXP
}

/// What is required, or why no token is admitted with these requirements.
#[inline(never)]
pub(crate) fn required_by<'r>(
    requirements: &CoseRequirements<'r>,
) -> Result<Required<'r>, CoseStatus>
    ensures { spec.required_seen result ≡ spec.required_stated requirements.entry.now }
{
    if is_unknown(requirements) {
        return Err(plain_status(BAD_ARGUMENT));
    }
    let iss = text_stated(requirements.iss)?;
    let sub = text_stated(requirements.sub)?;
    let aud = text_stated(requirements.aud)?;
    let age = number_stated(requirements.age);
    Ok(Required {
        rest: Requirements {
            now: requirements.now,
            leeway: requirements.leeway,
            present: &[],
            iss,
            sub,
            aud,
            lifetime: number_stated(requirements.lifetime),
            age,
            issued: age.is_some(),
        },
        present: requirements.present,
        permitted: requirements.permitted,
    })
}

/// The flag of a claim.
fn flag_of(claim: Claim) -> u8
    ensures { result ≡ spec.flag_of claim }
{
    match claim {
        Claim::Iss => 1,
        Claim::Sub => 2,
        Claim::Aud => 4,
        Claim::Exp => 8,
        Claim::Nbf => 16,
        Claim::Iat => 32,
        Claim::Cti => 64,
    }
}

/// The requirement that a claim is present, and no other.
fn presence(claim: &Claim) -> Requirements<'_>
    ensures { requirements_value result ≡ spec.presence claim.entry.now }
{
    Requirements {
        now: 0,
        leeway: 0,
        present: slice::from_ref(claim),
        iss: None,
        sub: None,
        aud: None,
        lifetime: None,
        age: None,
        issued: false,
    }
}

impl Required<'_> {
    /// The conditions under which claims are admitted: any audience, since one that is stated has to be named.
    pub(crate) fn policy(&self) -> Policy<'static>
        ensures { policy_value result ≡ spec.policy_of (spec.required_value self.entry.now) }
    {
        Policy {
            now: self.rest.now,
            leeway: self.rest.leeway,
            audience: Audience::LeftToCaller,
        }
    }

    /// Whether a claim has to be present: exp, unless a token without it is permitted.
    fn is_required(&self, claim: Claim) -> bool
        ensures { result ≡ spec.is_required self.entry.now.present self.entry.now.permitted claim }
    {
        if claim == Claim::Exp && self.permitted != WITHOUT_EXP {
            return true;
        }
        has_flag(self.present, flag_of(claim))
    }

    /// The answer for a claim, which may have to be present.
    fn one_met(&self, claim: &Claim, claims: &Claims<'_>) -> Result<(), Unmet>
        ensures { result ≡ first_of (absent_of
            (filter (spec.is_required self.entry.now.present self.entry.now.permitted)
            (claim.now ∷ [])) (claims_value claims.now)) }
    {
        if self.is_required(*claim) {
            return claims.meets(&presence(claim));
        }
        Ok(())
    }

    /// The answer for the claims that have to be present.
    fn present_met(&self, claims: &Claims<'_>) -> Result<(), Unmet>
        ensures { result ≡ first_of (absent_of
            (spec.present_of self.entry.now.present self.entry.now.permitted)
            (claims_value claims.now)) }
    {
        'claims: for claim in Claim::ALL {
            self.one_met(claim, claims)?;
        }
        Ok(())
    }

    /// Whether claims meet what is required, as [`Claims::meets`] says it.
    pub(crate) fn met_by(&self, claims: &Claims<'_>) -> Result<(), Unmet>
        ensures { result ≡ met (spec.required_value self.entry.now) (claims_value claims.now) }
    {
        self.present_met(claims)?;
        let mut rest = self.rest;
        rest.present = &[];
        claims.meets(&rest)
    }
}

/// The number of a requirement. That of a claim that has to be present is the claim's label (RFC 8392 section 4).
fn number_of(requirement: Requirement) -> u8
    ensures { result ≡ spec.unmet_number requirement }
{
    match requirement {
        Requirement::Present(Claim::Iss) => 1,
        Requirement::Present(Claim::Sub) => 2,
        Requirement::Present(Claim::Aud) => 3,
        Requirement::Present(Claim::Exp) => 4,
        Requirement::Present(Claim::Nbf) => 5,
        Requirement::Present(Claim::Iat) => 6,
        Requirement::Present(Claim::Cti) => 7,
        Requirement::Issuer => 8,
        Requirement::Subject => 9,
        Requirement::Audience => 10,
        Requirement::Lifetime => 11,
        Requirement::Age => 12,
        Requirement::Issued => 13,
    }
}

/// The status for a requirement that isn't met.
pub(crate) fn unmet_status(unmet: Unmet) -> CoseStatus
    ensures { result ≡ spec.unmet_status unmet }
{
    CoseStatus {
        status: UNMET,
        reason: number_of(unmet.requirement),
        place: unmet.place,
    }
}
