//! What each call answers while a message is fed: the bytes that are used, the payload's part, and the status.

use crate::tests::messages::samples::{
    CURVE_KEY, MAC0, SIGN1, context_of, mac0_and_more, under_jefe,
};
use crate::tests::messages::streams::{FailingReader, Says};
use crate::tests::messages::{authentic, decision};
use crate::tests::{JEFE, equal};
use cose_msg::{
    Fed, Never, Nothing, ReadIntake, SliceIntake, Status, Stop, Store, Verifier, verify,
};
use std::process::Abort;

/// A piece that was used whole, and holds no byte of the payload.
const fn more(used: usize) -> Fed {
    Fed {
        used,
        payload_from: 0,
        payload_to: 0,
        status: Status::More,
    }
}

/// A piece of which this many bytes were used, none of them of the payload, and the message is complete.
const fn complete(used: usize) -> Fed {
    Fed {
        used,
        payload_from: 0,
        payload_to: 0,
        status: Status::Complete,
    }
}

#[test]
fn takes_pieces_as_they_come(rt: HostRuntime) {
    let mut verifier = under_jefe::<16, 1>().expect(&rt, "a verifier");
    let message = mac0_and_more();
    let rows: [(&[u8], Fed); 4] = [
        (&message[..4], more(4)),
        (
            &message[4..11],
            Fed {
                used: 7,
                payload_from: 4,
                payload_to: 6,
                status: Status::More,
            },
        ),
        (&message[11..], complete(33)),
        (&message[44..], complete(0)),
    ];
    for (piece, wanted) in rows {
        let fed = verifier.feed(piece);
        equal(&rt, fed, wanted);
    }
    let taken = (verifier.taken(), verifier.is_complete());
    equal(&rt, (taken, verifier.end()), ((44, true), Status::Complete));
}

/// The verifier answers this for the piece, and then wants so many bytes.
fn feeds(rt: &impl Abort, verifier: &mut Verifier<16, 1>, piece: &[u8], fed: Fed, want: u64) {
    equal(rt, (verifier.feed(piece), verifier.want()), (fed, want));
}

#[test]
fn goes_on_by_verify(rt: HostRuntime) {
    let mut verifier = under_jefe::<16, 1>().expect(&rt, "a verifier");
    let message = mac0_and_more();
    let (front, rest) = message.split_at(9);
    let status = verifier.feed(front).status;
    let mut intake = SliceIntake::new(rest, 64);
    let mut store = Store::<2>::new();
    let verdict = verify::<64, 16, 1, _, SliceIntake, Store<2>, Never>(
        &mut verifier,
        &mut intake,
        &mut store,
        &Never,
    );
    equal(
        &rt,
        (status, verdict, store.bytes(), verifier.status()),
        (
            Status::More,
            Ok(authentic(44)),
            b"i".as_slice(),
            Status::Complete,
        ),
    );
}

#[test]
fn stays_stopped(rt: HostRuntime) {
    let mut verifier = under_jefe::<16, 1>().expect(&rt, "a verifier");
    let mut failing = ReadIntake::new(FailingReader::new(MAC0, 3));
    let stop = verify::<64, 16, 1, _, ReadIntake<FailingReader>, Nothing, Never>(
        &mut verifier,
        &mut failing,
        &mut Nothing,
        &Never,
    );
    let fed = verifier.feed(MAC0);
    equal(
        &rt,
        (stop, fed.used, fed.status, verifier.want(), verifier.end()),
        (Err(Stop::Intake), 0, Status::Stopped, 0, Status::Stopped),
    );
    verifier.reset();
    let whole = Fed {
        payload_from: 8,
        payload_to: 10,
        ..complete(44)
    };
    feeds(&rt, &mut verifier, &mac0_and_more(), whole, 0);
}

#[test]
fn decides_on_a_signature_once(rt: HostRuntime) {
    for holds in [true, false] {
        let context = context_of(CURVE_KEY, 64).expect(&rt, "a context");
        let mut verifier: Verifier<16, 1> = Verifier::new(context);
        let fed = verifier.feed(SIGN1);
        equal(&rt, fed, complete(74));
        if !verifier.is_complete() {
            return;
        }
        let verdict = verifier.verdict(&Says { holds });
        let end = verifier.end();
        equal(&rt, (verdict, end), (decision(holds), Status::Complete));
        if !verifier.is_complete() {
            return;
        }
        // Whichever `EcVerifier` is passed now, the verdict is kept.
        let verdict = verifier.verdict(&Says { holds: !holds });
        let fed = verifier.feed(SIGN1);
        equal(&rt, (verdict, fed), (decision(holds), complete(0)));
    }
}

#[test]
fn takes_a_piece_of_any_length(rt: HostRuntime) {
    let context = context_of(JEFE, 100_000).expect(&rt, "a context");
    let mut verifier: Verifier<16, 1> = Verifier::new(context);
    let front = b"\xd1\x84\x43\xa1\x01\x05\xa0\x5a\x00\x01\x86\xa0";
    feeds(&rt, &mut verifier, front, more(12), 100_000);
    let payload = [0u8; 100_000];
    let fed = verifier.feed(&payload);
    let whole = Fed {
        used: 100_000,
        payload_from: 0,
        payload_to: 100_000,
        status: Status::More,
    };
    equal(&rt, (fed, verifier.held()), (whole, 256 + 3 + 1));
    feeds(&rt, &mut verifier, b"\x58\x20", more(2), 32);
}
