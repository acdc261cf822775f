//! A token of which something is required.

use crate::tests::{JEFE, TOKEN, at, context, equal};
use cose_cwt::{Claim, Requirement, Requirements, Token, TokenStop, Unmet, verify_token};
use cose_msg::{Alg, KeySet, Kind, Never, Sink, SliceIntake, Store, Verifier};
use std::process::Abort;
use std::test::Fail;

/// What is required of the token: it is erikw's, ends, and lasts no longer than 120,000 seconds.
const REQUIREMENTS: Requirements<'static> = Requirements {
    now: 1_443_944_944,
    leeway: 0,
    present: &[Claim::Exp, Claim::Cti],
    iss: Some("coap://as.example.com"),
    sub: Some("erikw"),
    aud: Some("coap://light.example.com"),
    lifetime: Some(120_000),
    age: Some(0),
    issued: true,
};

/// The kind, the algorithm and the subject of the token under these requirements.
fn seen(token: Token<'_>) -> (Kind, Alg, bool) {
    (token.kind, token.alg, token.claims.sub() == Some("erikw"))
}

#[test]
fn gives_the_kind_and_the_algorithm(rt: HostRuntime) -> Result<(), Fail> {
    let mut verifier: Verifier<64, 4> = Verifier::new(context(KeySet::read(JEFE)?));
    let mut intake = SliceIntake::new(TOKEN, 64);
    let mut store: Store<4096> = Store::new();
    let token = verify_token::<64, 64, 4, 4096, _, SliceIntake, Never>(
        &mut verifier,
        &mut intake,
        &mut store,
        &Never,
        &at(1_443_944_944, 0),
        &REQUIREMENTS,
    );
    equal(&rt, token.map(seen), Ok((Kind::Mac0, Alg::Hmac256, true)));
    Ok(())
}

/// What is left in a store that was full, after a token that doesn't meet requirements.
fn leaves(rt: &impl Abort, keys: KeySet<'_>, requirements: &Requirements<'_>, unmet: Unmet) {
    let mut verifier: Verifier<64, 4> = Verifier::new(context(keys));
    let mut intake = SliceIntake::new(TOKEN, 64);
    let mut store: Store<4096> = Store::new();
    let _ = store.put(&[0; 4096]);
    let token = verify_token::<64, 64, 4, 4096, _, SliceIntake, Never>(
        &mut verifier,
        &mut intake,
        &mut store,
        &Never,
        &at(1_443_944_944, 0),
        requirements,
    );
    equal(rt, token.err(), Some(TokenStop::Unmet(unmet)));
    equal(rt, store.bytes(), b"".as_slice());
}

#[test]
fn holds_no_payload_that_meets_no_requirements(rt: HostRuntime) -> Result<(), Fail> {
    let shorter = Requirements {
        lifetime: Some(119_999),
        ..REQUIREMENTS
    };
    let unmet = Unmet {
        requirement: Requirement::Lifetime,
        place: 59,
    };
    leaves(&rt, KeySet::read(JEFE)?, &shorter, unmet);
    Ok(())
}
