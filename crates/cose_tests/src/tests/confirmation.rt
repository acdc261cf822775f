//! A message under the key that a token confirms.

use crate::tests::{CONFIRMING, JEFE, at, context, equal};
use cose_cwt::verify_cwt;
use cose_msg::{
    Alg, EcVerifier, Key, KeySet, Kind, Never, Nothing, SliceIntake, Store, Verdict, Verifier,
    verify,
};
use std::process::Abort;
use std::test::Fail;

/// Accepts every signature.
struct Always;

impl EcVerifier for Always {
    ghost use Rattle.std.specs.Prelude.{true};

    ghost decides = { λ _ _ _ _. true };

    fn holds(&self, _key: &Key<'_>, _digest: &[u8], _signature: &[u8]) -> bool {
        true
    }
}

/// Verifies a message with a signature under the keys, with a verifier that accepts it.
fn verifies_signed(rt: &impl Abort, keys: KeySet<'_>) {
    let mut signed = [0u8; 74];
    signed[..10].copy_from_slice(b"\xd2\x84\x43\xa1\x01\x26\xa0\x40\x58\x40");
    let mut verifier: Verifier<64, 4> = Verifier::new(context(keys));
    let mut intake = SliceIntake::new(&signed, 64);
    let verdict = verify::<64, 64, 4, _, SliceIntake, Nothing, Always>(
        &mut verifier,
        &mut intake,
        &mut Nothing,
        &Always,
    );
    let authentic = Verdict::Authentic {
        kind: Kind::Sign1,
        alg: Alg::Es256,
        payload: 0,
        taken: 74,
    };
    equal(rt, verdict, Ok(authentic));
}

#[test]
fn verifies_under_the_confirmed_key(rt: HostRuntime) -> Result<(), Fail> {
    let keys = KeySet::read(JEFE)?;
    let mut verifier: Verifier<64, 4> = Verifier::new(context(keys));
    let mut intake = SliceIntake::new(CONFIRMING, 64);
    let mut store: Store<4096> = Store::new();
    let token = verify_cwt::<64, 64, 4, 4096, _, SliceIntake, Never>(
        &mut verifier,
        &mut intake,
        &mut store,
        &Never,
        &at(0, 0),
    );
    match token {
        Ok(claims) => match claims.cnf_set() {
            Some(confirmed) => verifies_signed(&rt, confirmed),
            None => panic!(rt; "no key is confirmed"),
        },
        Err(stop) => panic!(rt; "{stop:?}"),
    }
    Ok(())
}
