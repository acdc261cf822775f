//! Messages, keys, contexts and verifiers that several modules of tests use.

ghost use Rattle.std.specs.Prelude.{◌≡◌, ◌≤◌, IfSome, false, true, length};
ghost use Rattle.cose_msg.specs.Kept.{is_inspecting};
ghost use Rattle.cose_msg.specs.Verifier.{is_detached};

use crate::tests::JEFE;
use cose_msg::{Context, KeySet, Verifier, Wanted};

/// A key on P-256 (RFC 9053 section 7.1.1), whose coordinates are zeros.
pub(crate) const CURVE_KEY: &[u8] = &[
    0xa4, 0x01, 0x02, 0x20, 0x01, 0x21, 0x58, 0x20, 0, 0, 0, 0, 0, 0, 0, 0, 0, 0, 0, 0, 0, 0, 0, 0,
    0, 0, 0, 0, 0, 0, 0, 0, 0, 0, 0, 0, 0, 0, 0, 0, 0x22, 0x58, 0x20, 0, 0, 0, 0, 0, 0, 0, 0, 0, 0,
    0, 0, 0, 0, 0, 0, 0, 0, 0, 0, 0, 0, 0, 0, 0, 0, 0, 0, 0, 0, 0, 0,
];

/// A COSE_Mac0 of the payload `hi` under HMAC 256/256 and the key `Jefe`.
pub(crate) const MAC0: &[u8; 44] = &[
    0xd1, 0x84, 0x43, 0xa1, 0x01, 0x05, 0xa0, 0x42, 0x68, 0x69, 0x58, 0x20, 0x7d, 0x81, 0xe9, 0x64,
    0xaa, 0xee, 0x5f, 0xbd, 0x8a, 0xdf, 0xb3, 0xf5, 0x33, 0x65, 0x7a, 0x9e, 0xf9, 0xf7, 0x82, 0xf0,
    0x4b, 0x91, 0x87, 0x7b, 0x60, 0x04, 0x27, 0x2a, 0x03, 0x52, 0xf9, 0x60,
];

/// A COSE_Sign1 of an empty payload, whose signature of 64 bytes is zeros.
pub(crate) const SIGN1: &[u8] = &[
    0xd2, 0x84, 0x43, 0xa1, 0x01, 0x26, 0xa0, 0x40, 0x58, 0x40, 0, 0, 0, 0, 0, 0, 0, 0, 0, 0, 0, 0,
    0, 0, 0, 0, 0, 0, 0, 0, 0, 0, 0, 0, 0, 0, 0, 0, 0, 0, 0, 0, 0, 0, 0, 0, 0, 0, 0, 0, 0, 0, 0, 0,
    0, 0, 0, 0, 0, 0, 0, 0, 0, 0, 0, 0, 0, 0, 0, 0, 0, 0, 0, 0,
];

/// The COSE_Mac0, and a byte after it.
pub(crate) fn mac0_and_more() -> [u8; 45] {
    let mut bytes = [0xff; 45];
    bytes[..44].copy_from_slice(MAC0);
    bytes
}

/// The COSE_Mac0 with the key identifier `abcde` in the unprotected header, which the tag doesn't cover.
pub(crate) fn mac0_with_kid() -> [u8; 51] {
    let mut bytes = [0; 51];
    let (front, rest) = MAC0.split_at(6);
    bytes[..6].copy_from_slice(front);
    bytes[6..14].copy_from_slice(b"\xa1\x04\x45abcde");
    bytes[14..].copy_from_slice(&rest[1..]);
    bytes
}

/// The COSE_Mac0 with nil in place of its payload, which is detached. The tag is the same.
pub(crate) fn nil_mac0() -> [u8; 42] {
    let mut bytes = [0xf6; 42];
    let (front, rest) = MAC0.split_at(7);
    bytes[..7].copy_from_slice(front);
    bytes[8..].copy_from_slice(&rest[3..]);
    bytes
}

/// The context of these keys, for a payload of at most this many bytes.
pub(crate) fn context_of(keys: &'static [u8], payload_limit: u64) -> Option<Context<'static>>
    ensures { IfSome result (λ context. length context.aad.now ≤ 65535) }
{
    let keys = KeySet::read(keys).ok()?;
    Some(Context {
        keys,
        aad: b"",
        wanted: Wanted::Tagged,
        cwt: false,
        understood: &[],
        payload_limit,
    })
}

/// A verifier of messages under the key `Jefe`, whose payloads have two bytes at most.
pub(crate) fn under_jefe<const H: usize, const D: usize>() -> Option<Verifier<'static, H, D>>
    requires some_room { 16 ≤ H }
    requires limit { H ≤ 65535 }
    requires nesting { D ≤ 32 }
    ensures { IfSome result (λ verifier. (is_inspecting verifier ≡ false)
        × (is_detached verifier ≡ false)) }
{
    Some(Verifier::new(context_of(JEFE, 2)?))
}

/// A verifier under the key `Jefe` of a detached payload of so many bytes, of which the context allows this many.
pub(crate) fn detached_under_jefe(
    stated: u64,
    payload_limit: u64,
) -> Option<Verifier<'static, 16, 1>>
    ensures { IfSome result (λ verifier. is_detached verifier ≡ true) }
{
    Some(Verifier::detached(context_of(JEFE, payload_limit)?, stated))
}
