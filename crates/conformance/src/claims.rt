//! The payloads of tokens: their claims, read, and admitted where there is a policy.

ghost use Rattle.std.specs.Prelude.{◌≤◌};

use crate::fields::{Difference, Way, array, bytes, holds, integer, is_verdict, number, object};
use crate::items::is_refused;
use crate::keys::{are_bytes, is_key};
use cose_cwt::{Audience, Claims, Key, Policy, Refusal};
use serde_json::Value;
use std::alloc::Global;

/// The policy of a group.
#[derive(Drop)]
pub struct Rules<'v> {
    now: i64,
    leeway: u32,
    /// The audiences that are asked for, where any are.
    audience: Option<Vec<&'v str>>,
}

/// The texts of an array, as far as there is memory, where the field is there.
fn optional_texts<'v>(alloc: Global, group: &'v Value, name: &str) -> Option<Vec<&'v str>> {
    let _field = group.get(name)?;
    let mut texts = Vec::new(alloc);
    for value in array(group, name) {
        if let Some(text) = value.as_str() {
            let _ = texts.push(text);
        }
    }
    Some(texts)
}

/// The time of a group, in seconds.
pub fn now(group: &Value) -> i64 {
    i64::try_from(number(group, "now")).unwrap_or(0)
}

/// The leeway of a group, in seconds.
pub fn leeway(group: &Value) -> u32 {
    u32::try_from(integer(group, "leeway")).unwrap_or(0)
}

impl<'v> Rules<'v> {
    /// The policy of a group.
    pub fn read(alloc: Global, group: &'v Value) -> Self {
        Rules {
            now: now(group),
            leeway: leeway(group),
            audience: optional_texts(alloc, group, "audience"),
        }
    }

    /// The policy for the library.
    pub fn policy(&self) -> Policy<'_> {
        let audience = match &self.audience {
            Some(texts) => Audience::Mine(texts.as_slice()),
            None => Audience::LeftToCaller,
        };
        Policy {
            now: self.now,
            leeway: self.leeway,
            audience,
        }
    }
}

/// Whether a date is that of a field, and absent where it is.
fn is_date(seen: Option<i128>, said: &Value, name: &str) -> bool {
    match (seen, said.get(name)) {
        (Some(seen), Some(_)) => seen == number(said, name),
        (None, None) => true,
        _ => false,
    }
}

/// Whether a text is one of an array.
fn is_among(text: &str, values: &[Value]) -> bool {
    for value in values {
        if value.as_str() == Some(text) {
            return true;
        }
    }
    false
}

/// Whether the texts of the audience are these, in their order, and it is asked for each with the right answer.
fn has_texts(claims: &Claims<'_>, texts: &[Value]) -> bool {
    let mut rest = texts;
    for text in claims.auds() {
        match rest {
            [first, others @ ..] if first.as_str() == Some(text) && claims.aud_has(text) => {
                rest = others;
            }
            _ => return false,
        }
    }
    rest.is_empty()
}

/// Whether the audience is that of an object, and is asked for its texts, and for the subject, with the right answer.
fn is_audience(claims: &Claims<'_>, said: &Value) -> bool {
    let texts = array(said, "aud");
    let subject = claims.sub().unwrap_or("");
    has_texts(claims, texts) && claims.aud_has(subject) == is_among(subject, texts)
}

/// Whether the key of a confirmation is that of an object, and absent where it is.
fn is_confirmed(alloc: Global, seen: Option<Key<'_>>, said: &Value) -> bool {
    match (seen, said.get("key")) {
        (Some(key), Some(said)) => is_key(alloc, &key, said),
        (None, None) => true,
        _ => false,
    }
}

/// Whether the confirmation is that of an object. Its key is a set of one key too.
fn is_confirmation(alloc: Global, claims: &Claims<'_>, said: &Value) -> bool {
    let keys = claims.cnf_set().map_or(0, |set| set.count());
    match (claims.cnf(), said.get("cnf")) {
        (Some(cnf), Some(said)) => {
            let has_kid = are_bytes(alloc, said, "kid", cnf.kid);
            let has_set = (keys == 1) == cnf.key.is_some();
            has_kid && has_set && is_confirmed(alloc, cnf.key, said)
        }
        (None, None) => keys == 0,
        _ => false,
    }
}

/// Whether the issuer, the subject and the audience are those of an object.
fn has_parties(claims: &Claims<'_>, said: &Value) -> bool {
    claims.iss() == said.get("iss").and_then(Value::as_str)
        && claims.sub() == said.get("sub").and_then(Value::as_str)
        && is_audience(claims, said)
}

/// Whether the dates are those of an object.
fn has_dates(claims: &Claims<'_>, said: &Value) -> bool {
    is_date(claims.exp(), said, "exp")
        && is_date(claims.nbf(), said, "nbf")
        && is_date(claims.iat(), said, "iat")
}

/// Whether claims are those of an object.
pub fn are_claims(alloc: Global, claims: &Claims<'_>, said: &Value) -> bool {
    let has_cti = are_bytes(alloc, said, "cti", claims.cti());
    has_cti
        && has_parties(claims, said)
        && has_dates(claims, said)
        && is_confirmation(alloc, claims, said)
}

/// The policy of a group, where it has one.
fn optional_rules<'v>(alloc: Global, group: &'v Value) -> Option<Rules<'v>> {
    match group.get("now") {
        Some(_) => Some(Rules::read(alloc, group)),
        None => None,
    }
}

/// The claims of a payload, admitted where there is a policy.
fn read<'p>(
    payload: &'p [u8],
    nesting: usize,
    rules: Option<&Rules<'_>>,
) -> Result<Claims<'p>, Refusal>
    requires { nesting ≤ 32 }
{
    let claims = Claims::read(payload, nesting)?;
    if let Some(rules) = rules {
        claims.admit(&rules.policy())?;
    }
    Ok(claims)
}

/// Whether these are the expected claims, or the expected refusal.
fn is_expected(alloc: Global, claims: Result<Claims<'_>, Refusal>, expected: &Value) -> bool {
    match claims {
        Ok(claims) => {
            is_verdict(expected, "claims") && are_claims(alloc, &claims, object(expected, "claims"))
        }
        Err(refusal) => is_refused(expected, refusal),
    }
}

/// Runs a test.
pub fn run_test(alloc: Global, group: &Value, test: &Value) -> Result<(), Difference> {
    let nesting = integer(group, "nesting");
    if nesting > 32 {
        return Err(Difference::Setting);
    }
    let payload = bytes(alloc, test, "payload");
    let rules = optional_rules(alloc, group);
    let claims = read(payload.as_slice(), nesting as usize, rules.as_ref());
    holds(
        is_expected(alloc, claims, object(test, "result")),
        Way::Slice,
    )
}
