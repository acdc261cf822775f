//! Messages whose payload is detached: the message is fed, and the payload on its own.

use crate::tests::messages::samples::{detached_under_jefe, nil_mac0};
use crate::tests::{equal, is};
use cose_msg::{Fed, Status};

#[test]
fn awaits_the_payload_at_the_nil(rt: HostRuntime) {
    let message = nil_mac0();
    let mut verifier = detached_under_jefe(2, 2).expect(&rt, "a verifier");
    let at_nil = Fed {
        used: 8,
        payload_from: 0,
        payload_to: 0,
        status: Status::PayloadNext,
    };
    let before = (verifier.is_detached(), verifier.payload_wanted());
    let first = verifier.feed(&message);
    let wanted = (verifier.payload_wanted(), verifier.want());
    let again = verifier.feed(&message[8..]);
    equal(
        &rt,
        (before, first, wanted, again),
        ((true, 0), at_nil, (2, 0), Fed { used: 0, ..at_nil }),
    );
}

#[test]
fn takes_as_many_bytes_as_are_stated(rt: HostRuntime) {
    let message = nil_mac0();
    let mut verifier = detached_under_jefe(2, 2).expect(&rt, "a verifier");
    verifier.feed(&message);
    let pieces: [(&[u8], usize, u64); 3] = [(b"", 0, 2), (b"h", 1, 1), (b"i!", 1, 0)];
    for (piece, used, left) in pieces {
        if verifier.payload_wanted() > 0 {
            equal(&rt, verifier.feed_payload(piece), used);
        }
        equal(&rt, verifier.payload_wanted(), left);
    }
    let before = (verifier.status(), verifier.want());
    let fed = verifier.feed(&message[8..]);
    equal(
        &rt,
        (before, fed.used, fed.payload_to, fed.status),
        ((Status::More, 1), 34, 0, Status::Complete),
    );
}
