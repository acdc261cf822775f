//! Messages that the caller authenticates: what it is asked, and the verdict by what it states.

use crate::tests::messages::samples::{CURVE_KEY, MAC0, SIGN1, context_of, nil_mac0};
use crate::tests::messages::{STRUCTURE, authentic, refused};
use crate::tests::{equal, is};
use cose_map::Material;
use cose_msg::{Alg, FrontPieces, Kind, Reason, Status, Verdict, Verifier};
use std::process::Abort;

/// The key set of a device that keeps its key: the number of a slot is in the place of the secret.
const SLOT: &[u8] = b"\xa2\x01\x04\x20\x41\x07";

/// The bytes of the COSE_Mac0 of the tests.
const MESSAGE: &[u8] = MAC0;

/// A verifier of a message that is authenticated elsewhere, under these keys.
fn asking(keys: &'static [u8]) -> Option<Verifier<'static, 32, 4>> {
    Some(Verifier::elsewhere(context_of(keys, 2)?))
}

/// What a caller states.
#[derive(Clone, Copy, Debug)]
enum Says<'s> {
    Mac(&'s [u8]),
    Answer(bool),
}

/// The verdict by what the caller states, where the message is complete.
fn stated(verifier: &mut Verifier<32, 4>, says: Says<'_>) -> Option<Verdict> {
    if !verifier.is_complete() || !verifier.is_elsewhere() {
        return None;
    }
    match says {
        Says::Mac(mac) => Some(verifier.verdict_of_mac(mac)),
        Says::Answer(holds) => Some(verifier.verdict_of_answer(holds)),
    }
}

/// The verdict on a message under these keys by what the caller states.
fn verdict(keys: &'static [u8], message: &[u8], says: Says<'_>) -> Option<Verdict> {
    let mut verifier = asking(keys)?;
    verifier.feed(message);
    stated(&mut verifier, says)
}

/// The verdict on the COSE_Sign1 of the tests, where its signature holds.
const SIGNED: Verdict = Verdict::Authentic {
    kind: Kind::Sign1,
    alg: Alg::Es256,
    payload: 0,
    taken: 74,
};

#[test]
fn compares_the_mac_that_is_stated(rt: HostRuntime) {
    let mut other = *MAC0;
    other[43] ^= 1;
    let bad = refused(Reason::BadAuth, 10);
    let rows: [(&[u8], Verdict); 6] = [
        (&MESSAGE[12..], authentic(44)),
        (&MESSAGE[12..43], bad),
        (&MESSAGE[11..], bad),
        (b"", bad),
        (&other[12..], bad),
        (&STRUCTURE[..12], bad),
    ];
    for (mac, wanted) in rows {
        is(&rt, &mac, verdict(SLOT, MAC0, Says::Mac(mac)), Some(wanted));
    }
    equal(
        &rt,
        verdict(SLOT, &other, Says::Mac(&MESSAGE[12..])),
        Some(bad),
    );
}

#[test]
fn answers_by_what_is_stated_of_a_signature(rt: HostRuntime) {
    let bad = refused(Reason::BadAuth, 8);
    let rows = [
        (Says::Answer(true), SIGNED),
        (Says::Answer(false), bad),
        (Says::Mac(&SIGN1[10..]), bad),
        (Says::Mac(b""), bad),
    ];
    for (says, wanted) in rows {
        is(&rt, &says, verdict(CURVE_KEY, SIGN1, says), Some(wanted));
    }
    let of_a_mac = verdict(SLOT, MAC0, Says::Answer(true));
    equal(&rt, of_a_mac, Some(refused(Reason::BadAuth, 10)));
}

#[test]
fn states_nothing_before_the_end(rt: HostRuntime) {
    for end in 0..44 {
        let early = verdict(SLOT, &MESSAGE[..end], Says::Mac(&MESSAGE[12..]));
        is(&rt, &end, early, None);
    }
}

#[test]
fn keeps_the_first_verdict(rt: HostRuntime) {
    let mut verifier = asking(SLOT).expect(&rt, "a verifier");
    verifier.feed(MAC0);
    let bad = Some(refused(Reason::BadAuth, 10));
    equal(&rt, stated(&mut verifier, Says::Mac(b"")), bad);
    equal(&rt, stated(&mut verifier, Says::Mac(&MESSAGE[12..])), bad);
    verifier.reset();
    verifier.feed(MAC0);
    let anew = stated(&mut verifier, Says::Mac(&MESSAGE[12..]));
    equal(&rt, anew, Some(authentic(44)));
}

/// The pieces are the first bytes of the structure, all but the payload's two, and the key is the one in the slot.
fn asks(rt: &impl Abort, verifier: &Verifier<32, 4>) {
    let pieces = verifier.front_pieces().expect(rt, "the pieces");
    let mut rest = STRUCTURE;
    for index in 0..FrontPieces::COUNT {
        let piece = pieces.piece(index);
        rest = rest.strip_prefix(piece).expect(rt, "the next piece");
    }
    equal(rt, rest, b"hi");
    let (key, alg) = verifier.asked_key().expect(rt, "the key");
    match key.material {
        Material::Symmetric(slot) => equal(rt, (slot, alg), (b"\x07".as_slice(), Alg::Hmac256)),
        Material::Ec { .. } => panic!(rt; "a point makes no MAC"),
    }
}

#[test]
fn asks_once_the_payload_is_next(rt: HostRuntime) {
    let mut verifier = asking(SLOT).expect(&rt, "a verifier");
    for end in 0..8 {
        let is_asked = verifier.front_pieces().is_some() || verifier.asked_key().is_some();
        is(&rt, &end, is_asked, false);
        verifier.feed(&MESSAGE[end..=end]);
    }
    asks(&rt, &verifier);
    verifier.feed(&MESSAGE[8..]);
    asks(&rt, &verifier);
    equal(&rt, verifier.asked_signature().is_none(), true);
    let _verdict = stated(&mut verifier, Says::Mac(b""));
    equal(&rt, verifier.front_pieces().is_none(), true);
}

#[test]
fn hands_out_the_signature(rt: HostRuntime) {
    let mut verifier = asking(CURVE_KEY).expect(&rt, "a verifier");
    verifier.feed(&SIGN1[..73]);
    equal(&rt, verifier.asked_signature().is_none(), true);
    verifier.feed(&SIGN1[73..]);
    equal(&rt, verifier.asked_signature(), Some(&SIGN1[10..]));
}

#[test]
fn asks_at_the_nil_of_a_detached_payload(rt: HostRuntime) {
    let context = context_of(SLOT, 2).expect(&rt, "a context");
    let mut verifier: Verifier<32, 4> = Verifier::elsewhere_detached(context, 2);
    let message = nil_mac0();
    let fed = verifier.feed(&message);
    equal(&rt, (fed.used, fed.status), (8, Status::PayloadNext));
    asks(&rt, &verifier);
    if verifier.payload_wanted() > 0 {
        verifier.feed_payload(b"hi");
    }
    verifier.feed(&message[8..]);
    let verdict = stated(&mut verifier, Says::Mac(&MESSAGE[12..]));
    equal(&rt, verdict, Some(authentic(42)));
}
