//! A message from any intake.

ghost use Rattle.std.specs.Prelude.{◌≡◌, false};
ghost use Rattle.cose_msg.specs.Kept.{is_inspecting};
ghost use Rattle.cose_msg.specs.Verifier.{is_detached};

use crate::tests::callers::{CHANGED, LONGER, MESSAGE};
use crate::tests::messages::samples::context_of;
use crate::tests::{JEFE, equal, refusal};
use cose_examples::intake::{Problem, payload_length, payload_of};
use cose_map::Reason;
use cose_msg::{ReadIntake, SliceIntake, Stop, Store, Verifier};
use std::io::{Error, ErrorKind, Read};
use std::process::Abort;

#[test]
fn gives_what_is_authentic(rt: HostRuntime) {
    let bad_set = Problem::Keys(refusal(Reason::BadKeySet, 0));
    let trailing = Problem::Message(refusal(Reason::Trailing, 44));
    let bad_auth = Problem::Message(refusal(Reason::BadAuth, 10));
    equal(
        &rt,
        [
            payload_length(JEFE, MESSAGE),
            payload_length(&[0x80], MESSAGE),
            payload_length(JEFE, LONGER),
            payload_length(JEFE, CHANGED),
        ],
        [Ok(2), Err(bad_set), Err(trailing), Err(bad_auth)],
    );
}

/// Gives these bytes, and then fails.
#[derive(Drop)]
struct Broken<'a> {
    bytes: &'a [u8],
}

impl Read for Broken<'_> {
    fn read(&mut self, buffer: &mut [u8]) -> Result<usize, Error> {
        if self.bytes.is_empty() {
            return Err(Error::from(ErrorKind::Other));
        }
        let count = buffer.len().min(self.bytes.len());
        let (piece, rest) = self.bytes.split_at(count);
        buffer[..count].copy_from_slice(piece);
        self.bytes = rest;
        Ok(count)
    }
}

/// A reader that fails after twenty bytes stops it.
fn stops(rt: &impl Abort, verifier: &mut Verifier<1_024, 8>)
    requires verifies { is_inspecting verifier.old ≡ false }
    requires attached { is_detached verifier.old ≡ false }
    ensures verifies { is_inspecting verifier.new ≡ false }
    ensures attached { is_detached verifier.new ≡ false }
{
    let mut broken = Broken {
        bytes: &MESSAGE[..20],
    };
    let mut store = Store::new();
    let payload = payload_of(verifier, &mut ReadIntake::new(&mut broken), &mut store);
    equal(rt, payload, Err(Problem::Stopped(Stop::Intake)));
}

#[test]
fn begins_again_after_a_stop(rt: HostRuntime) {
    let context = context_of(JEFE, 4_096).expect(&rt, "a context");
    let mut verifier = Verifier::new(context);
    stops(&rt, &mut verifier);
    stops(&rt, &mut verifier);
    let mut store = Store::new();
    let mut intake = SliceIntake::new(MESSAGE, 512);
    let payload = payload_of(&mut verifier, &mut intake, &mut store);
    equal(&rt, payload, Ok(b"hi".as_slice()));
    // Neither the verdict nor the payload before is given again where no message comes.
    let mut nothing = SliceIntake::new(b"", 512);
    let truncated = Problem::Message(refusal(Reason::Truncated, 0));
    let payload = payload_of(&mut verifier, &mut nothing, &mut store);
    equal(&rt, payload, Err(truncated));
}
