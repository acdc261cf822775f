//! A device that gets a message from a serial line.

ghost use Rattle.std.specs.Prelude.{◌≡◌, ◌&&◌, false, if◌then◌else◌};
ghost use Rattle.std.specs.Str.{bytes_eq};
ghost use Rattle.cose_msg.specs.Kept.{is_inspecting};

use crate::tests::callers::MESSAGE;
use crate::tests::messages::samples::context_of;
use crate::tests::messages::{POINT_SET, SIGNED, authentic, refused};
use crate::tests::{JEFE, equal};
use cose_examples::line::{Port, listen};
use cose_mac::Alg;
use cose_map::{Kind, Reason};
use cose_msg::{EcVerifier, Key, Never, Store, Verdict, Verifier};
use std::process::Abort;

/// A line on which 1, 2 and so on to 7 bytes come between two interrupts, and then 1 again.
#[derive(Drop)]
struct Line<'a> {
    bytes: &'a [u8],
    last: usize,
    /// How many bytes were given back.
    back: usize,
}

impl Port for Line<'_> {
    fn interrupt(&mut self, buffer: &mut [u8; 7]) -> usize {
        self.last = self.last % 7 + 1;
        let count = self.last.min(self.bytes.len());
        let (piece, rest) = self.bytes.split_at(count);
        buffer[..count].copy_from_slice(piece);
        self.bytes = rest;
        count
    }

    fn give_back(&mut self, bytes: &[u8]) {
        self.back = bytes.len();
    }
}

/// What a verifier makes of a message on the line, and the payload that the handler gets.
fn hears_once<E: EcVerifier>(
    rt: &impl Abort,
    verifier: &mut Verifier<256, 4>,
    bytes: &[u8],
    ec: &E,
    verdict: Verdict,
    payload: &[u8],
)
    requires { is_inspecting verifier.old ≡ false }
{
    let mut line = Line {
        bytes,
        last: 0,
        back: 0,
    };
    let mut handler = Store::<16>::new();
    let heard = listen(verifier, &mut line, &mut handler, ec);
    equal(rt, (heard, handler.bytes()), (Ok(verdict), payload));
}

/// The same of a device with this key, twice: nothing is left of a message before.
fn hears<E: EcVerifier>(
    rt: &impl Abort,
    keys: &'static [u8],
    bytes: &[u8],
    ec: &E,
    verdict: Verdict,
    payload: &[u8],
) {
    let context = context_of(keys, 4_096).expect(rt, "a context");
    let mut verifier = Verifier::new(context);
    hears_once(rt, &mut verifier, bytes, ec, verdict, payload);
    if verifier.is_inspecting() {
        panic!(rt; "it inspects");
    }
    hears_once(rt, &mut verifier, bytes, ec, verdict, payload);
}

#[test]
fn gives_back_what_follows_a_message(rt: HostRuntime) {
    let mut bytes = [0; 48];
    bytes[..44].copy_from_slice(MESSAGE);
    let context = context_of(JEFE, 4_096).expect(&rt, "a context");
    let mut verifier = Verifier::new(context);
    let mut line = Line {
        bytes: &bytes,
        last: 0,
        back: 0,
    };
    let mut handler = Store::<16>::new();
    let heard = listen(&mut verifier, &mut line, &mut handler, &Never);
    let left = (line.back, line.bytes.len());
    equal(&rt, (heard, left), (Ok(authentic(44)), (4, 0)));
}

#[test]
fn listens_to_a_line(rt: HostRuntime) {
    hears(&rt, JEFE, MESSAGE, &Never, authentic(44), b"hi");
    let truncated = refused(Reason::Truncated, 9);
    hears(&rt, JEFE, &MESSAGE[..9], &Never, truncated, b"h");
}

/// The digest that its signature is of (RFC 9052 section 4.4), by Python's hashlib.
const DIGEST: &[u8; 32] = &[
    0x7c, 0x8b, 0x69, 0x60, 0x77, 0xa3, 0xc7, 0x8e, 0xc6, 0xa3, 0x03, 0x6e, 0x56, 0xd7, 0x6e, 0x38,
    0x16, 0xa8, 0x83, 0x31, 0xc4, 0xe4, 0x36, 0x3b, 0x5a, 0x9d, 0x01, 0xa2, 0x64, 0xa6, 0x28, 0x99,
];

/// Accepts this signature of this digest alone.
#[derive(Clone, Copy)]
struct Knows<'a> {
    digest: &'a [u8],
    signature: &'a [u8],
}

impl EcVerifier for Knows<'_> {
    ghost decides = { λ knows _ digest signature. bytes_eq digest knows.digest.now && bytes_eq signature knows.signature.now };

    fn holds(&self, _key: &Key<'_>, digest: &[u8], signature: &[u8]) -> bool {
        digest == self.digest && signature == self.signature
    }
}

#[test]
fn decides_on_a_signature_from_a_line(rt: HostRuntime) {
    let signature = [7; 64];
    let mut bytes = [7; 74];
    bytes[..10].copy_from_slice(SIGNED);
    let knows = Knows {
        digest: DIGEST,
        signature: &signature,
    };
    let signed = Verdict::Authentic {
        kind: Kind::Sign1,
        alg: Alg::Es256,
        payload: 0,
        taken: 74,
    };
    hears(&rt, POINT_SET, &bytes, &knows, signed, b"");
    let bad_auth = refused(Reason::BadAuth, 8);
    hears(&rt, POINT_SET, &bytes, &Never, bad_auth, b"");
}
