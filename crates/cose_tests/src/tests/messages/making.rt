//! What is asked and put while a message is made, and what stops `make_mac0`.

ghost use Rattle.std.specs.Prelude.{◌≤◌, None};

use crate::tests::messages::samples::MAC0;
use crate::tests::messages::streams::{FailingReader, WatchedIntake, WatchedSink};
use crate::tests::{JEFE, equal};
use arrayvec::ArrayVec;
use cose_msg::{
    Alg, Intake, Key, MakeFault, ReadIntake, Sink, SinkFault, SliceIntake, Store, make_mac0,
};
use std::process::Abort;

/// The message of 200 letters `h` by HMAC 256/64.
fn long_message() -> [u8; 218] {
    let mut message = [0x68; 218];
    message[..9].copy_from_slice(b"\xd1\x84\x43\xa1\x01\x04\xa0\x58\xc8");
    message[209..].copy_from_slice(b"\x48\x2e\xde\x18\x25\x85\xdc\xe7\x92");
    message
}

/// Makes it in chunks of `C` bytes: no call takes more of the payload, and no piece is longer than a chunk or the tag, which is
/// the longest of what isn't payload. The message is put whole.
fn takes_chunks<const C: usize>(rt: &impl Abort)
    requires some { 1 ≤ C }
    requires limit { C ≤ 65536 }
{
    let key = Key::read(JEFE, 0).expect(rt, "a key");
    let payload = [0x68; 200];
    let mut intake = WatchedIntake::new(&payload);
    let mut sink = WatchedSink::<218>::new();
    let answer = make_mac0::<C, WatchedIntake, WatchedSink<218>>(
        Alg::Hmac64,
        &key,
        None,
        b"",
        &mut intake,
        200,
        &mut sink,
    );
    // Nine bytes before the payload's content, and the tag with its head after it.
    equal(
        rt,
        (answer, intake.most, sink.sum, sink.bytes()),
        (Ok(9 + 200 + 9), C.min(200), 218, long_message().as_slice()),
    );
    assert!(rt; sink.most <= C.min(200).max(8));
}

#[test]
fn takes_and_puts_no_more_than_a_chunk(rt: HostRuntime) {
    takes_chunks::<1>(&rt);
    takes_chunks::<7>(&rt);
    takes_chunks::<64>(&rt);
    takes_chunks::<65_536>(&rt);
}

#[test]
fn says_that_the_intake_failed(rt: HostRuntime) {
    let key = Key::read(JEFE, 0).expect(&rt, "a key");
    let mut intake = ReadIntake::new(FailingReader::new(b"h", 2));
    let mut sink: Store<80> = Store::new();
    let answer = make_mac0::<64, ReadIntake<FailingReader>, Store<80>>(
        Alg::Hmac256,
        &key,
        None,
        b"",
        &mut intake,
        2,
        &mut sink,
    );
    equal(
        &rt,
        (answer, sink.bytes()),
        (Err(MakeFault::Intake), &MAC0[..9]),
    );
}

/// Keeps this many bytes, also a prefix of a piece, and fails at the next.
#[derive(Drop)]
struct FrontSink {
    held: ArrayVec<u8, 64>,
    limit: usize,
    failed: bool,
}

impl Sink for FrontSink {
    ghost contents = { λ _. None };

    ghost has_failed = { λ sink. sink.failed };

    ghost sure = { λ _. 0 };

    fn put(&mut self, piece: &[u8]) -> Result<(), SinkFault> {
        let count = self.limit.saturating_sub(self.held.len()).min(piece.len());
        let _ = self.held.try_extend_from_slice(&piece[..count]);
        if count < piece.len() {
            self.failed = true;
            return Err(SinkFault);
        }
        Ok(())
    }
}

#[test]
fn leaves_a_front_where_the_sink_fails(rt: HostRuntime) {
    let key = Key::read(JEFE, 0).expect(&rt, "a key");
    for limit in 0..44 {
        let mut sink = FrontSink {
            held: ArrayVec::new(),
            limit,
            failed: false,
        };
        let mut intake = SliceIntake::new(b"hi", 1);
        let answer = make_mac0::<64, SliceIntake, FrontSink>(
            Alg::Hmac256,
            &key,
            None,
            b"",
            &mut intake,
            2,
            &mut sink,
        );
        equal(
            &rt,
            (answer, sink.held.as_slice()),
            (Err(MakeFault::Sink), &MAC0[..limit]),
        );
    }
}
