//! A store: its capacity, a piece that doesn't fit, what happens after a failure, its bytes lent and dropped, and a message
//! whose payload it has no room for.

use crate::tests::messages::samples::{MAC0, under_jefe};
use crate::tests::{equal, is};
use cose_msg::{Never, Sink, SinkFault, SliceIntake, Stop, Store, verify};

#[test]
fn holds_what_fits(rt: HostRuntime) {
    let mut store: Store<4> = Store::new();
    const ROWS: &[(&[u8], Result<(), SinkFault>, &[u8])] = &[
        (b"a", Ok(()), b"a"),
        (b"bcd", Ok(()), b"abcd"),
        (b"e", Err(SinkFault), b"abcd"),
        (b"efghi", Err(SinkFault), b"abcd"),
        (b"e", Err(SinkFault), b"abcd"),
    ];
    for &(piece, answer, held) in ROWS {
        let put = store.put(piece);
        is(&rt, &piece, (put, store.bytes()), (answer, held));
    }
}

#[test]
fn takes_nothing_after_a_failure(rt: HostRuntime) {
    let mut store: Store<4> = Store::new();
    equal(&rt, store.bytes(), b"".as_slice());
    const ROWS: &[(&[u8], Result<(), SinkFault>)] = &[
        (b"abc", Ok(())),
        // one byte too many, and nothing of it is kept
        (b"de", Err(SinkFault)),
        // these would fit
        (b"d", Err(SinkFault)),
        (b"e", Err(SinkFault)),
    ];
    for &(piece, answer) in ROWS {
        let put = store.put(piece);
        is(
            &rt,
            &piece,
            (put, store.bytes()),
            (answer, b"abc".as_slice()),
        );
    }
}

#[test]
fn keeps_what_it_lends_unless_its_lender_is_cleared(rt: HostRuntime) {
    let mut store: Store<4> = Store::new();
    let put = store.put(b"abc");
    equal(&rt, put, Ok(()));
    let (lent, _) = store.lend();
    equal(&rt, lent, b"abc".as_slice());
    equal(&rt, store.bytes(), b"abc".as_slice());
    let (_, lender) = store.lend();
    lender.clear();
    // Another loan brings nothing back.
    let (lent, _) = store.lend();
    equal(&rt, lent, b"".as_slice());
    equal(&rt, store.bytes(), b"".as_slice());
    // there is room for four bytes again
    let put = store.put(b"defg");
    equal(&rt, (put, store.bytes()), (Ok(()), b"defg".as_slice()));
}

#[test]
fn stops_a_message_where_it_is_full(rt: HostRuntime) {
    let mut verifier = under_jefe::<16, 1>().expect(&rt, "a verifier");
    let mut store = Store::<1>::new();
    let mut intake = SliceIntake::new(MAC0, 1);
    let answer = verify::<16, 16, 1, _, SliceIntake, Store<1>, Never>(
        &mut verifier,
        &mut intake,
        &mut store,
        &Never,
    );
    equal(
        &rt,
        (answer, store.bytes()),
        (Err(Stop::Sink), b"h".as_slice()),
    );
}
