//! The bytes of the authenticated structures before the payload.

use crate::choices::kind_of;
use crate::fields::{Difference, Way, bytes, holds, object, payload_length};
use cose_mac::{Alg, Kind, Running, structure_front};
use serde_json::Value;
use std::alloc::Global;

/// Whether the digest of what is fed of a structure is that of the expected bytes.
fn is_digest(kind: Kind, protected: &[u8], aad: &[u8], payload_length: u64, front: &[u8]) -> bool {
    let mut digest = Running::digest(Alg::Es256);
    structure_front(kind, protected, aad, payload_length, &mut digest);
    let mut expected = Running::digest(Alg::Es256);
    expected.update(front);
    digest.finish_digest().as_slice() == expected.finish_digest().as_slice()
}

/// Whether the MAC of what is fed of a structure is that of the expected bytes.
fn is_mac(kind: Kind, protected: &[u8], aad: &[u8], payload_length: u64, front: &[u8]) -> bool {
    let mut mac = Running::hmac(Alg::Hmac256, b"Jefe");
    structure_front(kind, protected, aad, payload_length, &mut mac);
    let mut expected = Running::hmac(Alg::Hmac256, b"Jefe");
    expected.update(front);
    mac.finish_mac().as_slice() == expected.finish_mac().as_slice()
}

/// Whether what is fed of a structure are the expected bytes, by their digest and their MAC.
fn is_front(kind: Kind, protected: &[u8], aad: &[u8], payload_length: u64, front: &[u8]) -> bool {
    is_digest(kind, protected, aad, payload_length, front)
        && is_mac(kind, protected, aad, payload_length, front)
}

/// Runs a test.
pub fn run_test(alloc: Global, test: &Value) -> Result<(), Difference> {
    let Some(length) = payload_length(test) else {
        return Err(Difference::Setting);
    };
    let protected = bytes(alloc, test, "protected");
    let aad = bytes(alloc, test, "aad");
    let front = bytes(alloc, object(test, "result"), "front");
    let is_expected = is_front(
        kind_of(test),
        protected.as_slice(),
        aad.as_slice(),
        length,
        front.as_slice(),
    );
    holds(is_expected, Way::Feed)
}
