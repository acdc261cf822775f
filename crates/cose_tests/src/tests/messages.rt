//! Messages over all libraries, whose answers come from the standards' equations, not from these libraries.

mod bounds;
mod detached;
mod detached_pieces;
mod elsewhere;
mod inspecting;
mod intake;
mod limits;
mod making;
mod pieces;
pub(crate) mod samples;
mod slice;
mod stops;
mod store;
mod streams;

ghost use Rattle.std.specs.Prelude.{◌≡◌, ◌≤◌, false, length};
ghost use Rattle.cose_msg.specs.Kept.{is_inspecting};
ghost use Rattle.cose_msg.specs.Verifier.{is_detached};

use crate::tests::JEFE;
use cose_msg::{Alg, Context, KeySet, Keys, Kind, Reason, Refusal, Verdict, Verifier, Wanted};
use sha2::{Digest, Sha256};
use std::alloc::Global;
use std::process::Abort;

/// The secret of the key `Jefe`.
const KEY: &[u8] = b"Jefe";

/// The bytes before the payload's head.
const FRONT: &[u8] = &[0xd1, 0x84, 0x43, 0xa1, 0x01, 0x05, 0xa0];

/// The payload `hi`, and the head of an authentication tag of 32 bytes.
const PAYLOAD: &[u8] = &[0x42, 0x68, 0x69, 0x58, 0x20];

/// The MAC_structure of that message (RFC 9052 section 6.3).
const STRUCTURE: &[u8] = &[
    0x84, 0x64, 0x4d, 0x41, 0x43, 0x30, 0x43, 0xa1, 0x01, 0x05, 0x40, 0x42, 0x68, 0x69,
];

/// The beginning of a COSE_Sign1 of an empty payload, up to the signature.
pub(crate) const SIGNED: &[u8] = b"\xd2\x84\x43\xa1\x01\x26\xa0\x40\x58\x40";

/// The key of a point of P-256 with both coordinates (RFC 9053 section 7.1.1), which is also the key set of that key alone.
pub(crate) const POINT_SET: &[u8] = &[
    0xa4, 0x01, 0x02, 0x20, 0x01, 0x21, 0x58, 0x20, 0x11, 0x11, 0x11, 0x11, 0x11, 0x11, 0x11, 0x11,
    0x11, 0x11, 0x11, 0x11, 0x11, 0x11, 0x11, 0x11, 0x11, 0x11, 0x11, 0x11, 0x11, 0x11, 0x11, 0x11,
    0x11, 0x11, 0x11, 0x11, 0x11, 0x11, 0x11, 0x11, 0x22, 0x58, 0x20, 0x22, 0x22, 0x22, 0x22, 0x22,
    0x22, 0x22, 0x22, 0x22, 0x22, 0x22, 0x22, 0x22, 0x22, 0x22, 0x22, 0x22, 0x22, 0x22, 0x22, 0x22,
    0x22, 0x22, 0x22, 0x22, 0x22, 0x22, 0x22, 0x22, 0x22, 0x22, 0x22,
];

/// The hash of a key's block, each byte of it changed by a pad (RFC 2104 section 2), for a key of at most 64 bytes.
fn padded(key: &[u8], pad: u8) -> Sha256 {
    let mut block = [pad; 64];
    for i in 0..64 {
        block[i] ^= key.get(i).copied().unwrap_or(0);
    }
    let mut hash = Sha256::new();
    hash.update(block.as_slice());
    hash
}

/// The MAC of what went into the inner hash.
fn sealed(key: &[u8], inner: Sha256) -> [u8; 32] {
    let mut outer = padded(key, 0x5c);
    outer.update(inner.finalize().as_slice());
    outer.finalize()
}

/// HMAC with SHA-256 (RFC 2104), for a key of at most 64 bytes.
fn hmac(key: &[u8], text: &[u8]) -> [u8; 32] {
    let mut inner = padded(key, 0x36);
    inner.update(text);
    sealed(key, inner)
}

/// The key set of `Jefe` alone.
fn key_set(rt: &impl Abort) -> KeySet<'static> {
    KeySet::read(JEFE).expect(rt, "a key set")
}

/// The context of these keys: nothing is known in addition to the CWT tag.
fn context<'k, S: Keys<'k>>(keys: S) -> Context<'k, S>
    ensures { length result.aad.now ≤ 65535 }
{
    Context {
        keys,
        aad: b"",
        wanted: Wanted::Tagged,
        cwt: true,
        understood: &[],
        payload_limit: (1 << 56) - 1,
    }
}

/// A verifier under these keys.
fn verifier(keys: KeySet, wanted: Wanted) -> Verifier<1024, 4>
    ensures verifies { is_inspecting result ≡ false }
    ensures attached { is_detached result ≡ false }
{
    Verifier::new(Context {
        wanted,
        ..context(keys)
    })
}

/// Several pieces, one after another.
fn joined(rt: &(impl Abort + Alloc<A = Global>), pieces: &[&[u8]]) -> Vec<u8> {
    let mut bytes = Vec::new(rt.alloc());
    for piece in pieces {
        bytes.extend_from_slice(piece).expect(rt, "memory");
    }
    bytes
}

/// The message of 44 bytes.
fn message(rt: &(impl Abort + Alloc<A = Global>)) -> Vec<u8> {
    let tag = hmac(KEY, STRUCTURE);
    joined(rt, &[FRONT, PAYLOAD, &tag])
}

/// The digest that the signature of the COSE_Sign1 of an empty payload is of (RFC 9052 section 4.4).
fn signed_digest() -> [u8; 32] {
    Sha256::digest(b"\x84\x6aSignature1\x43\xa1\x01\x26\x40\x40".as_slice())
}

/// The verdict on a COSE_Mac0 of the payload `hi` by HMAC 256/256, which took this many bytes.
pub(crate) const fn authentic(taken: u64) -> Verdict {
    Verdict::Authentic {
        kind: Kind::Mac0,
        alg: Alg::Hmac256,
        payload: 2,
        taken,
    }
}

/// The verdict on a message that is refused.
pub(crate) const fn refused(reason: Reason, place: u64) -> Verdict {
    Verdict::Refused(Refusal { reason, place })
}

/// The verdict on the COSE_Sign1 of an empty payload, where its signature holds and where it doesn't.
const fn decision(holds: bool) -> Verdict {
    if holds {
        return Verdict::Authentic {
            kind: Kind::Sign1,
            alg: Alg::Es256,
            payload: 0,
            taken: 74,
        };
    }
    refused(Reason::BadAuth, 8)
}
