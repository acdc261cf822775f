//! The examples of the crates' documentation.

use crate::tests::{JEFE, TOKEN, equal};
use cose_cwt::{
    Audience, Context, CwtStop, KeySet, Never, Policy, SliceIntake, Store, Verifier, Wanted,
    verify_cwt,
};
use cose_head::{ItemRef, Items, Kind, Reason, Refusal, Step, Walker};
use cose_mac::{Alg, Running, structure_front};
use cose_map::{Bucket, KeyTable, Material, Query, check_pair};
use std::process::Abort;
use std::test::Fail;

/// That of cose_head.
#[test]
fn reads_an_item(rt: HostRuntime) {
    let map = ItemRef::read(b"\xa1\x01\x05", 3, 8).expect(&rt, "one item");
    let mut children = Items::of(&map);
    let label = children.next().expect(&rt, "a label");
    let value = children.next().expect(&rt, "a value");
    let label = (label.as_int(), label.place);
    let value = (value.as_int(), value.place);
    equal(&rt, (label, value), ((Some(1), 4), (Some(5), 5)));

    let trailing = Refusal {
        reason: Reason::Trailing,
        place: 6,
    };
    let refused = ItemRef::read(b"\xa1\x01\x05\x00", 3, 8).err();
    equal(&rt, refused, Some(trailing));

    let mut walker: Walker<8> = Walker::new(3);
    let steps = [walker.put(0xa1), walker.put(0x01), walker.put(0x05)];
    equal(&rt, steps, [Step::Going, Step::Going, Step::Done]);
}

/// That of cose_map.
#[test]
fn finds_the_key_of_a_message(rt: HostRuntime) -> Result<(), Fail> {
    let protected = Bucket::read(b"\xa1\x01\x05", 3, 4)?;
    let unprotected = Bucket::read(b"\xa1\x04\x411", 6, 4)?;
    check_pair(&protected, &unprotected, &[], 10)?;
    let keys = KeySet::read(b"\xa3\x01\x04\x02\x411\x20\x44Jefe")?;
    let query = Query {
        kind: Kind::Mac0,
        operation: 10,
        protected_alg: protected.alg(),
        unprotected_alg: unprotected.alg(),
        kid: unprotected.kid(),
    };
    let (key, algorithm) = keys.find(&query)?;
    equal(&rt, algorithm, 5);
    match key.material {
        Material::Symmetric(secret) => equal(&rt, secret, b"Jefe".as_slice()),
        Material::Ec { .. } => panic!(rt; "a point makes no MAC"),
    }
    let table = KeyTable::<16>::read(b"\xa3\x01\x04\x02\x411\x20\x44Jefe")?;
    let (_key, algorithm) = table.find(&query)?;
    equal(&rt, (table.count(), algorithm), (1, 5));
    Ok(())
}

/// That of cose_mac.
#[test]
fn computes_the_mac_of_a_structure_in_pieces(rt: HostRuntime) {
    let protected = b"\xa1\x01\x04";
    let mut running = Running::hmac(Alg::Hmac64, b"Jefe");
    structure_front(Kind::Mac0, protected, b"", 11, &mut running);
    running.update(b"hello ");
    running.update(b"world");
    let mac = running.finish_mac();
    equal(
        &rt,
        mac.as_slice(),
        b"\x7a\x06\x73\x54\x1f\xac\xc3\xd1".as_slice(),
    );
}

/// Verifies a token under these keys.
fn verifies_a_token(rt: &impl Abort, keys: KeySet<'_>, token: &[u8]) {
    let mut verifier = Verifier::<1024, 8>::new(Context {
        keys,
        aad: b"",
        wanted: Wanted::Tagged,
        cwt: true,
        understood: &[],
        payload_limit: 4096,
    });
    let mut store = Store::<4096>::new();
    let mut intake = SliceIntake::new(token, 64);
    let policy = Policy {
        now: 1_444_064_943,
        leeway: 60,
        audience: Audience::Mine(&["coap://light.example.com"]),
    };
    match verify_cwt::<512, 1024, 8, 4096, _, _, _>(
        &mut verifier,
        &mut intake,
        &mut store,
        &Never,
        &policy,
    ) {
        Ok(claims) => equal(rt, claims.sub(), Some("erikw")),
        Err(CwtStop::Stopped(_)) => panic!(rt; "the intake failed"),
        Err(CwtStop::Message(refusal)) => panic!(rt; "the message: {refusal}"),
        Err(CwtStop::Claims(refusal)) => panic!(rt; "the claims: {refusal}"),
    }
}

/// That of cose_cwt.
#[test]
fn gives_the_claims_of_a_token(rt: HostRuntime) -> Result<(), Fail> {
    verifies_a_token(&rt, KeySet::read(JEFE)?, TOKEN);
    Ok(())
}
