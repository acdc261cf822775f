//! What a caller requires of claims beyond their admission (RFC 8392 section 3.1).

ghost use Rattle.std.specs.Prelude.{◌≡◌, Some, option_map};
ghost use Rattle.cose_head.specs.ItemRef.{placed};
ghost use Rattle.cose_map.specs.Label.View.{label_value};
ghost use Rattle.cose_map.specs.Map.Pairs.{value_of};
ghost use Rattle.cose_cwt.specs.Claims.Labels as names;
ghost use Rattle.cose_cwt.specs.Claims.Audience.{text_value};
ghost use Rattle.cose_cwt.specs.Claims.View.{claims_value};
ghost use Rattle.cose_cwt.specs.Requirements as spec;
ghost use Rattle.cose_cwt.specs.Requirements.View.{requirements_value};

use crate::claims::{Claims, labels};
use cose_map::{ItemRef, Label};

/// A registered claim (RFC 8392 section 3.1).
#[derive(Clone, Copy, Debug, PartialEq, Eq)]
pub enum Claim {
    /// The issuer of the token.
    Iss,
    /// The subject of the token.
    Sub,
    /// The audience of the token.
    Aud,
    /// The expiration time.
    Exp,
    /// The time from which on the token is valid.
    Nbf,
    /// The time at which the token was issued.
    Iat,
    /// The identifier of the token.
    Cti,
}

/// A requirement of [`Requirements`].
#[derive(Clone, Copy, Debug, PartialEq, Eq)]
pub enum Requirement {
    /// The claim is present.
    Present(Claim),
    /// The issuer is the one that is stated.
    Issuer,
    /// The subject is the one that is stated.
    Subject,
    /// The audience that is stated is among those of the token.
    Audience,
    /// The token has an expiration time, and lasts no longer than is stated.
    Lifetime,
    /// The token has a time at which it was issued, and is no older than is stated.
    Age,
    /// The token wasn't issued in the future.
    Issued,
}

/// A requirement that claims don't meet.
#[derive(Clone, Copy, Debug, PartialEq, Eq)]
pub struct Unmet {
    /// The requirement.
    pub requirement: Requirement,
    /// The place of the claim's value in the payload. Where the claim is absent it is 0, the place of the map's head.
    pub place: u64,
}

/// What claims have to be, beyond what a [`Policy`](crate::Policy) admits. By default nothing is required.
#[derive(Clone, Copy, Debug, Default)]
pub struct Requirements<'r> {
    /// The current time, in seconds since 1970, as in [`Policy`](crate::Policy).
    pub now: i64,
    /// The number of seconds by which the clocks of issuer and caller may differ.
    pub leeway: u32,
    /// The claims that have to be present.
    pub present: &'r [Claim],
    /// The issuer. A token without iss doesn't meet it.
    pub iss: Option<&'r str>,
    /// The subject. A token without sub doesn't meet it.
    pub sub: Option<&'r str>,
    /// An audience that has to be named. A token without aud doesn't meet it.
    pub aud: Option<&'r str>,
    /// The longest lifetime in seconds: exp is at most as much after iat, where the token has iat, and after now plus
    /// the leeway. A token without exp doesn't meet it.
    pub lifetime: Option<u64>,
    /// The greatest age in seconds: iat is at most as much before now minus the leeway. A token without iat doesn't
    /// meet it.
    pub age: Option<u64>,
    /// Whether iat, where the token has it, must not be after now plus the leeway.
    pub issued: bool,
}

impl Claim {
    /// The registered claims, in the order of their labels.
    pub const ALL: &'static [Claim] = &[
        Claim::Iss,
        Claim::Sub,
        Claim::Aud,
        Claim::Exp,
        Claim::Nbf,
        Claim::Iat,
        Claim::Cti,
    ];

    /// The claim of this name, if it is one of these (RFC 8392 section 3.1).
    pub fn from_name(name: &str) -> Option<Claim>
        ensures { result ≡ spec.claim_named name.now }
    {
        Claim::ALL
            .iter()
            .find(|claim| claim.name() == name)
            .copied()
    }

    /// The name of the claim, in lower case, as `iss` (RFC 8392 section 3.1).
    #[tactic(auto, using(crate::proofs::ClaimNames::named))]
    pub fn name(self) -> &'static str
        ensures value { result.now ≡ spec.name_of self }
        ensures found { spec.claim_named result.now ≡ Some self }
    {
        match self {
            Claim::Iss => "iss",
            Claim::Sub => "sub",
            Claim::Aud => "aud",
            Claim::Exp => "exp",
            Claim::Nbf => "nbf",
            Claim::Iat => "iat",
            Claim::Cti => "cti",
        }
    }

    /// The label of the claim.
    fn label(self) -> Label<'static>
        ensures { label_value result ≡ spec.label_of self }
    {
        match self {
            Claim::Iss => labels::ISS,
            Claim::Sub => labels::SUB,
            Claim::Aud => labels::AUD,
            Claim::Exp => labels::EXP,
            Claim::Nbf => labels::NBF,
            Claim::Iat => labels::IAT,
            Claim::Cti => labels::CTI,
        }
    }
}

/// The answer for a requirement that is met or isn't.
fn unless_met(requirement: Requirement, is_met: bool, place: u64) -> Result<(), Unmet>
    ensures { result ≡ spec.first_of (spec.unless_met requirement is_met place) }
{
    if is_met {
        return Ok(());
    }
    Err(Unmet { requirement, place })
}

/// The answer for a required text string of the issuer or the subject.
fn text_met(
    requirement: Requirement,
    stated: Option<&str>,
    value: Option<ItemRef<'_>>,
) -> Result<(), Unmet>
    ensures { result ≡ spec.first_of (spec.text_unmet requirement
        (option_map text_value stated.entry) (option_map placed value.entry)) }
{
    let Some(stated) = stated else {
        return Ok(());
    };
    let Some(value) = value else {
        return unless_met(requirement, false, 0);
    };
    match value.as_text() {
        Some(text) => unless_met(requirement, text == stated, value.place),
        None => unless_met(requirement, false, value.place),
    }
}

impl Requirements<'_> {
    /// So many seconds after the current time, on a clock that is ahead by the leeway.
    fn latest(&self, seconds: u64) -> i128
        ensures { result ≡ spec.latest (requirements_value self.entry.now) seconds }
    {
        i128::from(self.now) + i128::from(self.leeway) + i128::from(seconds)
    }

    /// So many seconds before the current time, on a clock that is behind by the leeway.
    fn earliest(&self, seconds: u64) -> i128
        ensures { result ≡ spec.earliest (requirements_value self.entry.now) seconds }
    {
        i128::from(self.now) - i128::from(self.leeway) - i128::from(seconds)
    }

    /// Whether a token lasts no longer than so many seconds from now on, and from the time at which it was issued.
    fn ends_within(&self, issued: Option<i128>, seconds: u64, exp: i128) -> bool
        ensures { result ≡ spec.ends_within (requirements_value self.entry.now) issued seconds exp }
    {
        exp <= self.latest(seconds) && lasts(seconds, issued, exp)
    }

    /// The answer for the lifetime of a token.
    fn lifetime_met(&self, issued: Option<i128>, exp: Option<ItemRef<'_>>) -> Result<(), Unmet>
        ensures { result ≡ spec.first_of (spec.lifetime_unmet (requirements_value self.entry.now)
            issued (option_map placed exp.entry)) }
    {
        let Some(seconds) = self.lifetime else {
            return Ok(());
        };
        let Some(value) = exp else {
            return unless_met(Requirement::Lifetime, false, 0);
        };
        let is_met = match value.as_int() {
            Some(exp) => self.ends_within(issued, seconds, exp),
            None => false,
        };
        unless_met(Requirement::Lifetime, is_met, value.place)
    }

    /// The answer for the age of a token.
    fn age_met(&self, iat: Option<ItemRef<'_>>) -> Result<(), Unmet>
        ensures { result ≡ spec.first_of (spec.age_unmet (requirements_value self.entry.now)
            (option_map placed iat.entry)) }
    {
        let Some(seconds) = self.age else {
            return Ok(());
        };
        let Some(value) = iat else {
            return unless_met(Requirement::Age, false, 0);
        };
        let is_met = match value.as_int() {
            Some(iat) => self.earliest(seconds) <= iat,
            None => false,
        };
        unless_met(Requirement::Age, is_met, value.place)
    }

    /// The answer for the time at which a token was issued.
    fn issued_met(&self, iat: Option<ItemRef<'_>>) -> Result<(), Unmet>
        ensures { result ≡ spec.first_of (spec.issued_unmet (requirements_value self.entry.now)
            (option_map placed iat.entry)) }
    {
        if !self.issued {
            return Ok(());
        }
        let Some(value) = iat else {
            return Ok(());
        };
        let is_met = match value.as_int() {
            Some(iat) => iat <= self.latest(0),
            None => false,
        };
        unless_met(Requirement::Issued, is_met, value.place)
    }
}

/// Whether a token that ends at `exp` lasts no longer than so many seconds from the time at which it was issued.
fn lasts(seconds: u64, issued: Option<i128>, exp: i128) -> bool
    ensures { result ≡ spec.lasts seconds issued exp }
{
    let Some(issued) = issued else {
        return true;
    };
    match issued.checked_add(i128::from(seconds)) {
        Some(last) => exp <= last,
        None => true,
    }
}

impl Claims<'_> {
    /// The answer for the claims that have to be present.
    fn present_met(&self, present: &[Claim]) -> Result<(), Unmet>
        ensures { result ≡ spec.first_of (spec.absent_of present.now (claims_value self.now)) }
    {
        'present: for claim in present {
            if self.value(&claim.label()).is_none() {
                return unless_met(Requirement::Present(*claim), false, 0);
            }
        }
        Ok(())
    }

    /// The answer for an audience that has to be named.
    fn audience_met(&self, stated: Option<&str>) -> Result<(), Unmet>
        ensures { result ≡ spec.first_of (spec.audience_unmet (option_map text_value stated.entry)
            (value_of names.aud (claims_value self.now).pairs)) }
    {
        let Some(stated) = stated else {
            return Ok(());
        };
        match self.value(&labels::AUD) {
            Some(value) => unless_met(Requirement::Audience, self.aud_has(stated), value.place),
            None => unless_met(Requirement::Audience, false, 0),
        }
    }

    /// Checks whether the claims meet requirements. Where several aren't met, the first is returned, in this order.
    ///
    /// Each claim of [`Requirements::present`], in the order of the list; then the issuer, the subject and the audience;
    /// then the lifetime, the age, and that the token wasn't issued in the future. The sums don't overflow.
    pub fn meets(&self, requirements: &Requirements<'_>) -> Result<(), Unmet>
        ensures { result ≡ spec.met (requirements_value requirements.entry.now)
            (claims_value self.now) }
    {
        self.present_met(requirements.present)?;
        text_met(
            Requirement::Issuer,
            requirements.iss,
            self.value(&labels::ISS),
        )?;
        text_met(
            Requirement::Subject,
            requirements.sub,
            self.value(&labels::SUB),
        )?;
        self.audience_met(requirements.aud)?;
        requirements.lifetime_met(self.iat(), self.value(&labels::EXP))?;
        requirements.age_met(self.value(&labels::IAT))?;
        requirements.issued_met(self.value(&labels::IAT))
    }
}
