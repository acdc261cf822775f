//! Tests of a message and its detached payload over two intakes.

ghost use Rattle.std.specs.Prelude.{◌≡◌, ◌<◌, true};
ghost use Rattle.cose_msg.specs.Verifier.{is_detached};

use crate::tests::messages::samples::{detached_under_jefe, nil_mac0};
use crate::tests::messages::streams::{FailingReader, WatchedIntake, WatchedSink};
use crate::tests::messages::{authentic, refused};
use crate::tests::{equal, is};
use cose_msg::{
    Fed, Intake, Never, Nothing, ReadIntake, Reason, SliceIntake, Status, Stop, Store, Verdict,
    Verifier, verify_detached,
};
use std::process::Abort;

/// Verifies a message and a payload that come in pieces of at most this many bytes.
fn verdict_of<const L: usize>(
    verifier: &mut Verifier<'static, 16, 1>,
    message: &[u8],
    payload: &[u8],
    cut: usize,
    store: &mut Store<L>,
) -> Result<Verdict, Stop>
    requires cut { 0 < cut }
    requires detached { is_detached verifier.old ≡ true }
    ensures { is_detached verifier.new ≡ true }
{
    let mut message = SliceIntake::new(message, cut);
    let mut payload = SliceIntake::new(payload, cut);
    verify_detached::<64, 16, 1, _, _, _, _, _>(verifier, &mut message, &mut payload, store, &Never)
}

#[test]
fn is_truncated_where_either_intake_ends(rt: HostRuntime) {
    let message = nil_mac0();
    for count in 0..42usize {
        for came in 0..3usize {
            let mut verifier = detached_under_jefe(2, 2).expect(&rt, "a verifier");
            let mut store = Store::<2>::new();
            let end = verdict_of(
                &mut verifier,
                &message[..count],
                &b"hi"[..came],
                64,
                &mut store,
            );
            let place = if came < 2 { count.min(7) } else { count };
            let kept = verdict_of(&mut verifier, &message, b"hi", 64, &mut store);
            let truncated = Ok(refused(Reason::Truncated, place as u64));
            equal(&rt, (end, kept), (truncated, truncated));
        }
    }
}

/// One of the two readers fails at this read of a byte: then it stops, and stops again, until the verifier is reset. Returns
/// how many bytes of the message and of the payload were taken.
fn stops_at(rt: &impl Abort, message_fails_at: usize, payload_fails_at: usize) -> (u64, usize) {
    let bytes = nil_mac0();
    let mut verifier = detached_under_jefe(2, 2).expect(rt, "a verifier");
    let mut message = ReadIntake::new(FailingReader::new(&bytes, message_fails_at));
    let mut payload = ReadIntake::new(FailingReader::new(b"hi", payload_fails_at));
    let mut store = Store::<2>::new();
    let stop = verify_detached::<1, 16, 1, _, _, _, _, _>(
        &mut verifier,
        &mut message,
        &mut payload,
        &mut store,
        &Never,
    );
    let again = verify_detached::<1, 16, 1, _, _, _, _, _>(
        &mut verifier,
        &mut message,
        &mut payload,
        &mut store,
        &Never,
    );
    let stopped = (verifier.feed(&bytes).status, verifier.payload_wanted());
    let took = (verifier.taken(), store.bytes().len());
    verifier.reset();
    let mut all = Store::<2>::new();
    let verdict = verdict_of(&mut verifier, &bytes, b"hi", 64, &mut all);
    equal(
        rt,
        ([stop, again, verdict], stopped),
        (
            [Err(Stop::Intake), Err(Stop::Again), Ok(authentic(42))],
            (Status::Stopped, 0),
        ),
    );
    took
}

#[test]
fn stops_at_each_failing_take_of_either_intake(rt: HostRuntime) {
    for count in 0..42usize {
        let came = if count < 8 { 0 } else { 2 };
        equal(&rt, stops_at(&rt, count + 1, 0), (count as u64, came));
    }
    for count in 0..2usize {
        equal(&rt, stops_at(&rt, 0, count + 1), (8, count));
    }
}

#[test]
fn stops_where_the_sink_fails(rt: HostRuntime) {
    let mut verifier = detached_under_jefe(2, 2).expect(&rt, "a verifier");
    let mut store = Store::<1>::new();
    let stop = verdict_of(&mut verifier, &nil_mac0(), b"hi", 1, &mut store);
    equal(
        &rt,
        (stop, store.bytes(), verifier.taken()),
        (Err(Stop::Sink), b"h".as_slice(), 8),
    );
}

#[test]
fn takes_and_puts_no_more_than_a_chunk(rt: HostRuntime) {
    let bytes = nil_mac0();
    let mut verifier = detached_under_jefe(2, 2).expect(&rt, "a verifier");
    let mut message = WatchedIntake::new(&bytes);
    let mut payload = WatchedIntake::new(b"hi, and more");
    let mut sink = WatchedSink::<2>::new();
    let verdict = verify_detached::<7, 16, 1, _, _, _, _, _>(
        &mut verifier,
        &mut message,
        &mut payload,
        &mut sink,
        &Never,
    );
    // It asks for what is left of the payload, once, and not for a byte after it.
    let asked = (payload.most, payload.takes);
    let moved = (message.most, sink.most, sink.sum);
    let left = payload.take(&mut [0; 10]);
    equal(
        &rt,
        (verdict, asked, moved, left),
        (Ok(authentic(42)), (2, 1), (7, 2, 2), Ok(10)),
    );
}

/// Verifies a message and its payload over intakes that are watched. Returns the verdict, and how many times each intake was
/// asked, the message's first.
fn asked(
    verifier: &mut Verifier<'static, 16, 1>,
    message: &[u8],
    payload: &[u8],
) -> (Result<Verdict, Stop>, usize, usize)
    requires detached { is_detached verifier.old ≡ true }
    ensures { is_detached verifier.new ≡ true }
{
    let mut message = WatchedIntake::new(message);
    let mut payload = WatchedIntake::new(payload);
    let verdict = verify_detached::<64, 16, 1, _, _, _, _, _>(
        verifier,
        &mut message,
        &mut payload,
        &mut Nothing,
        &Never,
    );
    (verdict, message.takes, payload.takes)
}

#[test]
fn asks_no_intake_again_once_all_is_there(rt: HostRuntime) {
    let bytes = nil_mac0();
    let mut verifier = detached_under_jefe(2, 2).expect(&rt, "a verifier");
    let short_message = asked(&mut verifier, &bytes[..7], b"hi");
    verifier.reset();
    let short_payload = asked(&mut verifier, &bytes, b"h");
    let truncated = Ok(refused(Reason::Truncated, 7));
    // Five heads and a string, and the end, once. Of the payload nothing before the nil.
    // Of the message nothing after the nil.
    equal(
        &rt,
        (short_message, short_payload),
        ((truncated, 6, 0), (truncated, 6, 2)),
    );
}

#[test]
fn goes_on_with_what_was_fed(rt: HostRuntime) {
    let bytes = nil_mac0();
    let mut verifier = detached_under_jefe(2, 2).expect(&rt, "a verifier");
    let at_nil = Fed {
        used: 8,
        payload_from: 0,
        payload_to: 0,
        status: Status::PayloadNext,
    };
    let fed = verifier.feed(&bytes);
    let mut taken = 0usize;
    if verifier.payload_wanted() > 0 {
        taken = verifier.feed_payload(b"h");
    }
    let mut store = Store::<2>::new();
    let verdict = verdict_of(&mut verifier, &bytes[8..], b"i", 64, &mut store);
    equal(
        &rt,
        (fed, taken, verdict, store.bytes(), verifier.status()),
        (
            at_nil,
            1,
            Ok(authentic(42)),
            b"i".as_slice(),
            Status::Complete,
        ),
    );
}
