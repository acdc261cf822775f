//! What `Debug` prints of items, keys and claims: how many bytes there are, and none of them.

use crate::tests::{JEFE, equal};
use cose_cwt::Claims;
use cose_head::{ItemRef, Items};
use cose_map::{Key, KeySet, KeyTable};
use std::alloc::Global;
use std::fmt::Debug;
use std::process::Abort;

/// `Debug` prints this text of the value.
fn shows<T: Debug + Drop>(rt: &(impl Abort + Alloc<A = Global>), value: T, text: &str) {
    let shown = format!(in rt.alloc(); "{value:?}").expect(rt, "memory");
    equal(rt, shown.as_str(), text);
}

#[test]
fn shows_no_bytes_of_items(rt: HostRuntime) {
    // A key {1: 2, -4: h'64'}: of an item, of what is left of its children after the first, and of a value, the bytes are hidden.
    let key = ItemRef::read(b"\xa2\x01\x02\x23\x41\x64", 7, 2).expect(&rt, "one item");
    let mut children = Items::of(&key);
    shows(&rt, key, "ItemRef { bytes: 6 bytes, place: 7 }");
    let label = "Some(ItemRef { bytes: 1 bytes, place: 8 })";
    shows(&rt, children.next(), label);
    let rest = "Items { rest: 4 bytes, place: 9, left: 3 }";
    shows(&rt, children, rest);
}

#[test]
fn shows_no_bytes_of_keys(rt: HostRuntime) {
    let secret = b"\xa4\x01\x04\x02\x411\x04\x82\x0a\x61\xff\x20\x44Jefe";
    shows(
        &rt,
        Key::read(secret, 0),
        "Ok(Key { kid: Some([49]), alg: None, ops: Some(2 operations), material: Symmetric(4 bytes) })",
    );
    let point = b"\xa4\x01\x02\x20\x01\x21\x58\x20\
        01234567890123456789012345678901\x22\x58\x20\
        01234567890123456789012345678901";
    shows(
        &rt,
        Key::read(point, 0),
        "Ok(Key { kid: None, alg: None, ops: None, material: Ec { crv: 1, x: 32 bytes, y: Bytes(32 bytes) } })",
    );
    shows(&rt, KeySet::read(JEFE), "Ok(KeySet(9 bytes))");
    let table = KeyTable::<2>::read(JEFE);
    shows(&rt, table, "Ok(KeyTable { keys: 1 })");
}

#[test]
fn shows_no_bytes_of_claims(rt: HostRuntime) {
    // The key of cnf has the private key d (label -4), which no getter gives.
    let bytes = b"\xa1\x08\xa1\x01\xa5\x01\x02\x20\x01\x21\x58\x20\
        01234567890123456789012345678901\x22\xf5\x23\x58\x20\
        dddddddddddddddddddddddddddddddd";
    shows(
        &rt,
        Claims::read(bytes, 4),
        "Ok(Claims { pairs: Pairs { items: Items { rest: 80 bytes, place: 1, left: 2 } }, \
         confirmation: Some(CnfItems { key: Some(ItemRef { bytes: 77 bytes, place: 4 }), kid: None }), \
         known: Known { iss: None, sub: None, aud: None, exp: None, nbf: None, iat: None, cti: None, \
         cnf: Some(ItemRef { bytes: 79 bytes, place: 2 }) } })",
    );
}
