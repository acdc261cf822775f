//! From header buckets to a MAC, by the layers below the messages.

use cose_mac::{Alg, Running, same_bytes, structure_front};
use cose_map::{Bucket, KeySet, Keys, Kind, Material, Query, Reason, Refusal, check_pair};

/// The MAC of a COSE_Mac0 before its first byte, under the one key of the set that fits what the headers ask for.
fn begin(keys: &KeySet, protected: &Bucket, unprotected: &Bucket) -> Result<Running, Reason> {
    let query = Query {
        kind: Kind::Mac0,
        // to verify a MAC (RFC 9052 section 7.1)
        operation: 10,
        protected_alg: protected.alg(),
        unprotected_alg: unprotected.alg(),
        kid: protected.kid().or(unprotected.kid()),
    };
    let (key, number) = keys.find(&query)?;
    match (key.material, Alg::from_number(number)) {
        (Material::Symmetric(secret), Some(alg)) if alg.is_mac() => {
            Ok(Running::hmac(alg, secret))
        }
        _ => Err(Reason::NoKey),
    }
}

/// Whether this is the authentication tag of the payload, whose `length` bytes come in pieces.
fn holds(mut mac: Running, protected: &[u8], length: u64, pieces: &[&[u8]], tag: &[u8]) -> bool {
    structure_front(Kind::Mac0, protected, b"", length, &mut mac);
    let mut count = 0u64;
    for piece in pieces {
        mac.update(piece);
        count = count.saturating_add(piece.len() as u64);
    }
    count == length && mac.is_mac() && same_bytes(&mac.finish_mac(), tag)
}

/// Whether this is the authentication tag of `hi`, under the protected header `{1: 5}` and no unprotected one.
pub fn is_authentic(key_set: &[u8], tag: &[u8]) -> Result<bool, Refusal> {
    let keys = KeySet::read(key_set)?;
    let content = [0xa1, 0x01, 0x05];
    let protected = Bucket::read(&content, 3, 8)?;
    let unprotected = Bucket::read(&[0xa0], 6, 8)?;
    check_pair(&protected, &unprotected, &[], 7)?;
    match begin(&keys, &protected, &unprotected) {
        Ok(mac) => Ok(holds(mac, &content, 2, &[b"h", b"i"], tag)),
        Err(reason) => Err(Refusal { reason, place: 7 }),
    }
}
