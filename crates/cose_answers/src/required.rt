//! What is required of the claims of a token, beyond their admission.

ghost use Rattle.std.specs.Prelude.{◌≡◌};
ghost use Rattle.cose_cwt.specs.Requirements.View.{requirements_value};
ghost use Rattle.cose_answers.specs.Requirements as spec;

use cose_cwt::{Claim, Requirements};

/// What a token has to meet.
#[derive(Drop)]
pub struct Required<'w> {
    /// The claims that have to be present.
    pub present: Vec<Claim>,
    /// The issuer, where one is stated.
    pub iss: Option<&'w str>,
    /// The subject, where one is stated.
    pub sub: Option<&'w str>,
    /// The audience that has to be named, where one has.
    pub aud: Option<&'w str>,
    /// The longest lifetime in seconds, where one is stated.
    pub lifetime: Option<u64>,
    /// The greatest age in seconds, where one is stated.
    pub age: Option<u64>,
}

/// What is required at this time, with this leeway.
pub fn requirements_of<'j>(required: &'j Required<'j>, now: i64, leeway: u32) -> Requirements<'j>
    ensures { requirements_value result ≡ spec.requirements_for now leeway required.entry.now }
{
    Requirements {
        now,
        leeway,
        present: required.present.as_slice(),
        iss: required.iss,
        sub: required.sub,
        aud: required.aud,
        lifetime: required.lifetime,
        age: required.age,
        issued: required.age.is_some(),
    }
}
