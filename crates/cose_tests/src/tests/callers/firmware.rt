//! A firmware image beside its message.

ghost use Rattle.std.specs.Prelude.{◌≡◌, false, true};
ghost use Rattle.cose_msg.specs.Kept.{is_inspecting};
ghost use Rattle.cose_msg.specs.Verifier.{is_detached};

use crate::tests::callers::MESSAGE;
use crate::tests::messages::refused;
use crate::tests::messages::samples::context_of;
use crate::tests::{JEFE, equal};
use cose_examples::firmware::{install, update};
use cose_mac::Alg;
use cose_map::{Kind, Reason};
use cose_msg::{KeySet, Never, SliceIntake, Store, Verdict, Verifier};
use std::process::Abort;

/// The COSE_Mac0 of the image of 600 bytes, which isn't in it, and a byte after it.
const DETACHED: &[u8] = &[
    0xd1, 0x84, 0x43, 0xa1, 0x01, 0x05, 0xa0, 0xf6, 0x58, 0x20, 0x09, 0x1d, 0x6c, 0x49, 0xf4, 0xe0,
    0xb9, 0x97, 0x97, 0xd2, 0x88, 0x9a, 0xd9, 0xf8, 0xa9, 0x37, 0x83, 0x00, 0xf4, 0xdc, 0x38, 0xc2,
    0x18, 0x43, 0x7e, 0x94, 0xfe, 0x3d, 0x70, 0xef, 0x69, 0x15, 0x00,
];

/// The verdict on the image.
const INSTALLED: Verdict = Verdict::Authentic {
    kind: Kind::Mac0,
    alg: Alg::Hmac256,
    payload: 600,
    taken: 42,
};

/// The image: 0 to 250, again and again.
fn image() -> [u8; 600] {
    let mut bytes = [0; 600];
    for i in 0..600 {
        bytes[i] = (i % 251) as u8;
    }
    bytes
}

/// An update with this message and this image gets this verdict, and so many bytes of the image come into the slot.
fn updates_once(
    rt: &impl Abort,
    verifier: &mut Verifier<256, 4>,
    message: &[u8],
    image: &[u8],
    verdict: Verdict,
    count: usize,
)
    requires verifies { is_inspecting verifier.old ≡ false }
    requires detached { is_detached verifier.old ≡ true }
{
    let mut intake = SliceIntake::new(image, 100);
    let mut slot = Store::<600>::new();
    let updated = update(verifier, message, &mut intake, &mut slot, &Never);
    let written = image.get(..count);
    equal(rt, (updated, Some(slot.bytes())), (Ok(verdict), written));
}

/// The same, twice: the verdict on a message before says nothing of another image.
fn updates(rt: &impl Abort, message: &[u8], image: &[u8], verdict: Verdict, count: usize) {
    let context = context_of(JEFE, 4_096).expect(rt, "a context");
    let mut verifier = Verifier::detached(context, 600);
    updates_once(rt, &mut verifier, message, image, verdict, count);
    if verifier.is_inspecting() || !verifier.is_detached() {
        panic!(rt; "it is made for another purpose");
    }
    updates_once(rt, &mut verifier, message, image, verdict, count);
}

#[test]
fn updates_an_image(rt: HostRuntime) {
    let image = image();
    updates(&rt, &DETACHED[..42], &image, INSTALLED, 600);
    let truncated = refused(Reason::Truncated, 7);
    let shorter = image.get(..599).unwrap_or(&[]);
    updates(&rt, &DETACHED[..42], shorter, truncated, 599);
    let trailing = refused(Reason::Trailing, 42);
    updates(&rt, DETACHED, &image, trailing, 600);
}

#[test]
fn updates_nothing_by_a_message_that_has_its_payload(rt: HostRuntime) {
    let image = image();
    updates(&rt, MESSAGE, &image, refused(Reason::Attached, 7), 0);
    updates(&rt, b"", &image, refused(Reason::Truncated, 0), 0);
}

#[test]
fn installs_an_image(rt: HostRuntime) {
    let image = image();
    let keys = KeySet::read(JEFE).expect(&rt, "a key set");
    let mut intake = SliceIntake::new(&image, 100);
    let mut slot = Store::<600>::new();
    let installed = install(keys, 600, &DETACHED[..42], &mut intake, &mut slot, &Never);
    equal(
        &rt,
        (installed, slot.bytes()),
        (Ok(INSTALLED), image.as_slice()),
    );
}
