//! Runs at the limits of the chunk, the stores and the nesting: no call takes or puts more than a chunk.

ghost use Rattle.std.specs.Prelude.{◌≤◌};

use crate::tests::equal;
use crate::tests::messages::authentic;
use crate::tests::messages::samples::{MAC0, mac0_with_kid, under_jefe};
use crate::tests::messages::streams::{WatchedIntake, WatchedSink};
use cose_msg::{Never, Nothing, verify};
use std::process::Abort;

/// The message is authentic at these limits, and what is taken and put at a time is within a chunk.
fn verifies_at<const C: usize, const H: usize, const D: usize>(rt: &impl Abort)
    requires some { 1 ≤ C }
    requires chunk { C ≤ 65536 }
    requires some_room { 16 ≤ H }
    requires limit { H ≤ 65535 }
    requires nesting { D ≤ 32 }
{
    let mut verifier = under_jefe::<H, D>().expect(rt, "a verifier");
    let mut intake = WatchedIntake::new(MAC0);
    let mut sink = WatchedSink::<2>::new();
    let verdict = verify::<C, H, D, _, WatchedIntake, WatchedSink<2>, Never>(
        &mut verifier,
        &mut intake,
        &mut sink,
        &Never,
    );
    // It asks for what is left of a string, as far as a chunk holds it.
    let most = (C.min(32), C.min(2));
    equal(
        rt,
        (verdict, sink.bytes(), sink.sum, (intake.most, sink.most)),
        (Ok(authentic(44)), b"hi".as_slice(), 2, most),
    );
}

#[test]
fn verifies_at_the_limits(rt: HostRuntime) {
    verifies_at::<1, 16, 1>(&rt);
    verifies_at::<7, 16, 32>(&rt);
    verifies_at::<64, 65_535, 1>(&rt);
    verifies_at::<65_536, 65_535, 32>(&rt);
}

#[test]
fn takes_a_string_of_the_unprotected_header_at_once(rt: HostRuntime) {
    let mut verifier = under_jefe::<16, 1>().expect(&rt, "a verifier");
    let message = mac0_with_kid();
    let mut intake = WatchedIntake::new(&message);
    let verdict = verify::<64, 16, 1, _, WatchedIntake, Nothing, Never>(
        &mut verifier,
        &mut intake,
        &mut Nothing,
        &Never,
    );
    // The heads have nine bytes, and four strings have the others.
    equal(&rt, (verdict, intake.takes), (Ok(authentic(51)), 9 + 4));
}
