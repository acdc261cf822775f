//! What is required of the claims of a payload.

ghost use Rattle.std.specs.Prelude.{◌≤◌};

use crate::claims::{leeway, now};
use crate::fields::{
    Difference, Way, array, boolean, bytes, holds, integer, is_verdict, number, object, text,
};
use cose_cwt::{Claim, Claims, Requirement, Requirements, Unmet};
use serde_json::Value;
use std::alloc::Global;

/// The claims of an array, by their names, as far as there is memory.
fn claims_of(alloc: Global, group: &Value) -> Vec<Claim> {
    let mut claims = Vec::new(alloc);
    for name in array(group, "present") {
        if let Some(claim) = name.as_str().and_then(Claim::from_name) {
            let _ = claims.push(claim);
        }
    }
    claims
}

/// A text, where the field is there.
fn optional_text<'v>(group: &'v Value, name: &str) -> Option<&'v str> {
    group.get(name).and_then(Value::as_str)
}

/// A number of seconds, where the field is there.
fn seconds(group: &Value, name: &str) -> Option<u64> {
    let _field = group.get(name)?;
    u64::try_from(number(group, name)).ok()
}

/// The requirements of a group.
fn requirements<'v>(group: &'v Value, present: &'v [Claim]) -> Requirements<'v> {
    Requirements {
        now: now(group),
        leeway: leeway(group),
        present,
        iss: optional_text(group, "iss"),
        sub: optional_text(group, "sub"),
        aud: optional_text(group, "aud"),
        lifetime: seconds(group, "lifetime"),
        age: seconds(group, "age"),
        issued: boolean(group, "issued").unwrap_or(false),
    }
}

/// The requirement that the claim of a result is there.
fn presence(expected: &Value) -> Option<Requirement> {
    Claim::from_name(text(expected, "claim")).map(Requirement::Present)
}

/// The requirement of a result.
fn requirement(expected: &Value) -> Option<Requirement> {
    match text(expected, "requirement") {
        "Present" => presence(expected),
        "Issuer" => Some(Requirement::Issuer),
        "Subject" => Some(Requirement::Subject),
        "Audience" => Some(Requirement::Audience),
        "Lifetime" => Some(Requirement::Lifetime),
        "Age" => Some(Requirement::Age),
        "Issued" => Some(Requirement::Issued),
        _ => None,
    }
}

/// Whether this is the expected result.
fn is_expected(seen: Result<(), Unmet>, expected: &Value) -> bool {
    match seen {
        Ok(()) => is_verdict(expected, "met"),
        Err(unmet) => {
            is_verdict(expected, "unmet")
                && requirement(expected) == Some(unmet.requirement)
                && integer(expected, "place") == unmet.place
        }
    }
}

/// Runs a payload under the requirements of a group, with the claims that have to be there.
fn run_payload(
    group: &Value,
    payload: &[u8],
    present: &[Claim],
    expected: &Value,
) -> Result<(), Difference> {
    let nesting = integer(group, "nesting");
    if nesting > 32 {
        return Err(Difference::Setting);
    }
    let Ok(claims) = Claims::read(payload, nesting as usize) else {
        return Err(Difference::Setting);
    };
    let seen = claims.meets(&requirements(group, present));
    holds(is_expected(seen, expected), Way::Slice)
}

/// Runs a test.
pub fn run_test(alloc: Global, group: &Value, test: &Value) -> Result<(), Difference> {
    let payload = bytes(alloc, test, "payload");
    let present = claims_of(alloc, group);
    run_payload(
        group,
        payload.as_slice(),
        present.as_slice(),
        object(test, "result"),
    )
}
