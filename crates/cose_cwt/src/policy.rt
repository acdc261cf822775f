//! The admission of claims under a policy (RFC 8392 sections 3.1.3 to 3.1.5).

ghost use Rattle.std.specs.Prelude.{◌≡◌, List, Option, Some, map, option_map};
ghost use Rattle.std.specs.List.{list_any};
ghost use Rattle.cose_map.specs.Map.View.{seen_by};
ghost use Rattle.cose_cwt.specs.Admission as spec;
ghost use Rattle.cose_cwt.specs.Admission.View.{audience_value, policy_value};
ghost use Rattle.cose_cwt.specs.Claims.Audience.{text_value, texts_left};
ghost use Rattle.cose_cwt.specs.Claims.View.{claims_value};

use crate::claims::Claims;
use crate::claims::audience::Auds;
use cose_map::{Reason, Refusal, refused};

/// The audience that a token must have.
#[derive(Clone, Copy, Debug)]
pub enum Audience<'p> {
    /// Where the token names an audience, one of its text strings must be one of these.
    Mine(&'p [&'p str]),
    /// Any audience: the caller checks it.
    LeftToCaller,
}

/// The conditions under which claims are admitted.
#[derive(Clone, Copy, Debug)]
pub struct Policy<'p> {
    /// The current time, in seconds since 1970. The caller chooses its source: nothing here reads a clock.
    pub now: i64,
    /// The number of seconds by which the clocks of issuer and caller may differ.
    pub leeway: u32,
    /// The audience that the token must have.
    pub audience: Audience<'p>,
}

/// Whether a text string is one of the policy's.
fn is_mine(text: &str, mine: &[&str]) -> bool
    ensures { result ≡ spec.is_one_of (map text_value mine.now) text.now }
{
    'mine: for name in mine {
        if text == *name {
            return true;
        }
    }
    false
}

/// Whether one of the text strings is one of the policy's.
fn names_one(texts: Auds<'_>, mine: &[&str]) -> bool
    ensures { result ≡ spec.names_one (map text_value mine.now) (texts_left texts.entry) }
{
    'texts: for text in texts {
        if is_mine(text, mine) {
            return true;
        }
    }
    false
}

impl Policy<'_> {
    /// Whether the current time is `exp` plus the leeway, or later.
    fn has_expired(&self, exp: i128) -> bool
        ensures { result ≡ spec.has_expired (policy_value self.entry.now) exp }
    {
        i128::from(self.now) - i128::from(self.leeway) >= exp
    }

    /// Whether the current time plus the leeway is before `nbf`.
    fn is_early(&self, nbf: i128) -> bool
        ensures { result ≡ spec.is_early (policy_value self.entry.now) nbf }
    {
        i128::from(self.now) + i128::from(self.leeway) < nbf
    }

    /// Whether the policy has a list of text strings, and none of those of the audience is in it.
    fn is_for_others(&self, texts: Auds<'_>) -> bool
        ensures { result ≡ spec.is_for_others (policy_value self.entry.now)
            (texts_left texts.entry) }
    {
        match self.audience {
            Audience::Mine(mine) => !names_one(texts, mine),
            Audience::LeftToCaller => false,
        }
    }
}

impl Claims<'_> {
    /// Refuses a token that has expired.
    fn not_expired(&self, policy: &Policy<'_>) -> Result<(), Refusal>
        ensures { result ≡ spec.not_expired (policy_value policy.entry.now)
            (claims_value self.now) }
    {
        let Some(value) = self.known.exp else {
            return Ok(());
        };
        match value.as_int() {
            Some(exp) if policy.has_expired(exp) => Err(refused(Reason::Expired, &value)),
            _ => Ok(()),
        }
    }

    /// Refuses a token that isn't valid yet.
    fn not_early(&self, policy: &Policy<'_>) -> Result<(), Refusal>
        ensures { result ≡ spec.not_early (policy_value policy.entry.now) (claims_value self.now) }
    {
        let Some(value) = self.known.nbf else {
            return Ok(());
        };
        match value.as_int() {
            Some(nbf) if policy.is_early(nbf) => Err(refused(Reason::NotYet, &value)),
            _ => Ok(()),
        }
    }

    /// Refuses a token that is for others.
    fn not_for_others(&self, policy: &Policy<'_>) -> Result<(), Refusal>
        ensures { result ≡ spec.not_for_others (policy_value policy.entry.now)
            (claims_value self.now) }
    {
        match self.known.aud {
            Some(value) if policy.is_for_others(Auds::of(&value)) => {
                Err(refused(Reason::WrongAudience, &value))
            }
            _ => Ok(()),
        }
    }

    /// Checks whether a policy admits the claims. A rule for a claim that is absent isn't checked.
    ///
    /// The refusal is [`Reason::Expired`] where exp plus the leeway isn't after now; then [`Reason::NotYet`] where nbf
    /// is after now plus the leeway; then [`Reason::WrongAudience`] where the policy's audience is [`Audience::Mine`],
    /// and the token names an audience and has none of its text strings. The place of each is the claim's value. The
    /// sums don't overflow.
    #[tactic(auto, unfolding(crate::specs::Admission::admitted))]
    pub fn admit(&self, policy: &Policy<'_>) -> Result<(), Refusal>
        ensures { result ≡ spec.admitted (policy_value policy.entry.now) (claims_value self.now) }
    {
        self.not_expired(policy)?;
        self.not_early(policy)?;
        self.not_for_others(policy)
    }
}
