//! How many bytes `verify` asks of an intake, and puts into a sink, at once.

ghost use Rattle.std.specs.Prelude.{◌≤◌};

use crate::tests::is;
use crate::tests::messages::streams::{WatchedIntake, WatchedSink};
use crate::tests::messages::{authentic, key_set, message, verifier};
use cose_msg::{KeySet, Never, Status, Wanted, verify};
use std::process::Abort;

/// A verifier that is fed the message as it was asked for wants as many bytes at each call, or `most` where it wants more, and
/// completes the message.
fn wants_what_was_asked(rt: &impl Abort, keys: KeySet, bytes: &[u8], asked: &[usize], most: usize) {
    let mut fed = verifier(keys, Wanted::Tagged);
    let mut rest = bytes;
    for count in asked {
        is(rt, &most, *count as u64, fed.want().min(most as u64));
        let (piece, after) = rest.split_at((*count).min(rest.len()));
        fed.feed(piece);
        rest = after;
    }
    is(rt, &most, fed.status(), Status::Complete);
}

/// In chunks of `C` bytes, each call asks for as many bytes as a verifier wants that was fed the bytes before, and for
/// at most `C`. The sink gets no longer pieces.
fn asks_within<const C: usize>(rt: &impl Abort, keys: KeySet, bytes: &[u8])
    requires some { 1 ≤ C }
    requires limit { C ≤ 65536 }
{
    let mut intake = WatchedIntake::new(bytes);
    let mut sink = WatchedSink::<2>::new();
    let mut asking = verifier(keys, Wanted::Tagged);
    let verdict = verify::<C, 1024, 4, _, _, _, _>(&mut asking, &mut intake, &mut sink, &Never);
    is(rt, &C, (verdict, sink.most), (Ok(authentic(44)), C.min(2)));
    wants_what_was_asked(rt, keys, bytes, intake.asked(), C);
}

#[test]
fn asks_for_no_more_than_is_wanted(rt: HostRuntime) {
    let bytes = message(&rt);
    let keys = key_set(&rt);
    asks_within::<1>(&rt, keys, bytes.as_slice());
    asks_within::<3>(&rt, keys, bytes.as_slice());
    asks_within::<16>(&rt, keys, bytes.as_slice());
    asks_within::<4_096>(&rt, keys, bytes.as_slice());
}
