//! The intake of a reader, alone: one read in each call, failures, the end.

use crate::tests::is;
use crate::tests::messages::streams::FailingReader;
use cose_msg::{Intake, IntakeFault, ReadIntake};
use std::process::Abort;

/// The next call takes this piece.
fn takes(rt: &impl Abort, intake: &mut ReadIntake<&mut FailingReader>, piece: &[u8]) {
    let count = piece.len();
    let mut into = [0; 8];
    let taken = intake.take(&mut into);
    let seen = (taken, into.get(..count));
    is(rt, &piece, seen, (Ok(count), Some(piece)));
}

#[test]
fn reads_once_in_a_call(rt: HostRuntime) {
    const PIECES: &[&[u8]] = &[b"abc", b"def", b"gh", b"", b"", b""];
    for calls in 0..7 {
        let mut reader = FailingReader::new(b"abcdefgh", 0);
        let mut intake = ReadIntake::new(&mut reader);
        for &piece in PIECES.get(..calls).unwrap_or(&[]) {
            takes(&rt, &mut intake, piece);
        }
        is(&rt, &calls, reader.reads, calls);
    }
}

/// The next call gives this answer.
fn answers(
    rt: &impl Abort,
    intake: &mut ReadIntake<FailingReader>,
    answer: Result<usize, IntakeFault>,
) {
    let taken = intake.take(&mut [0; 8]);
    is(rt, &"taken", taken, answer);
}

#[test]
fn goes_on_after_a_failure(rt: HostRuntime) {
    let mut intake = ReadIntake::new(FailingReader::new(b"abcdef", 2));
    answers(&rt, &mut intake, Ok(3));
    answers(&rt, &mut intake, Err(IntakeFault));
    answers(&rt, &mut intake, Ok(3));
    answers(&rt, &mut intake, Ok(0));
}
