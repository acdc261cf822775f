//! An intake or a sink that fails in the course of a message.

ghost use Rattle.std.specs.Prelude.{◌≡◌, ◌≤◌, false};
ghost use Rattle.cose_msg.specs.Kept.{WhateverVerified, is_inspecting};
ghost use Rattle.cose_msg.specs.Verifier.{is_detached, setting_in};

use crate::tests::is;
use crate::tests::messages::streams::{Asked, FailingIntake, FailingSink};
use crate::tests::messages::{
    KEY, POINT_SET, SIGNED, authentic, context, decision, hmac, joined, key_set, message,
    signed_digest, verifier,
};
use cose_msg::{
    EcVerifier, Fed, Intake, KeySet, Never, Sink, SliceIntake, Status, Stop, Store, Verdict,
    Verifier, Wanted, verify,
};
use std::alloc::Global;
use std::process::Abort;

/// The protected header of 16 bytes, and the unprotected header of 16 bytes.
const PROTECTED: &[u8] = b"\xa2\x01\x05\x0a\x4b12345678901";

const UNPROTECTED: &[u8] = b"\xa1\x0b\x4d1234567890123";

/// What `verify` answers where it takes a byte at a time. The verifier is for the same purpose then, part by part.
fn answer<const H: usize, I: Intake, S: Sink, E: EcVerifier>(
    verifier: &mut Verifier<H, 4>,
    intake: &mut I,
    sink: &mut S,
    ec: &E,
) -> Result<Verdict, Stop>
    requires verifies { is_inspecting verifier.old ≡ false }
    requires attached { is_detached verifier.old ≡ false }
    ensures verifies { is_inspecting verifier.new ≡ false }
    ensures attached { is_detached verifier.new ≡ false }
    ensures context { WhateverVerified verifier.old (λ _ _ _.
        setting_in verifier.new ≡ setting_in verifier.old) }
{
    verify::<1, H, 4, _, _, _, _>(verifier, intake, sink, ec)
}

/// A message that is authentic, and what it is verified with.
#[derive(Drop)]
struct Case<'a, E> {
    keys: KeySet<'a>,
    ec: E,
    bytes: &'a [u8],
    verdict: Verdict,
    payload: &'a [u8],
    /// The place of the payload's first byte.
    payload_at: u64,
}

/// What a verifier gives of its message and of itself.
fn said<const H: usize>(verifier: &Verifier<H, 4>) -> (Status, [u64; 4], [bool; 5]) {
    (
        verifier.status(),
        [
            verifier.taken(),
            verifier.want(),
            verifier.held() as u64,
            verifier.open_items() as u64,
        ],
        [
            verifier.is_complete(),
            verifier.is_inspecting(),
            verifier.protected().is_some(),
            verifier.unprotected().is_some(),
            verifier.sign_input().is_some(),
        ],
    )
}

/// A verifier that has stopped after this many bytes uses no byte, wants none, and ends as stopped.
fn stays_stopped<const H: usize>(
    rt: &impl Abort,
    verifier: &mut Verifier<H, 4>,
    bytes: &[u8],
    taken: u64,
)
    requires verifies { is_inspecting verifier.old ≡ false }
    requires attached { is_detached verifier.old ≡ false }
    ensures verifies { is_inspecting verifier.new ≡ false }
    ensures attached { is_detached verifier.new ≡ false }
{
    let nothing = Fed {
        used: 0,
        payload_from: 0,
        payload_to: 0,
        status: Status::Stopped,
    };
    let fed = verifier.feed(bytes);
    let ended = verifier.end();
    let seen = (fed, ended, verifier.taken(), verifier.want());
    is(rt, &taken, seen, (nothing, Status::Stopped, taken, 0));
}

impl<E: EcVerifier> Case<'_, E> {
    /// After `reset` a verifier gives what a new one gives, and the message is authentic.
    fn authenticates_anew<const H: usize>(&self, rt: &impl Abort, verifier: &mut Verifier<H, 4>)
        requires some_room { 16 ≤ H }
        requires limit { H ≤ 65535 }
        requires verifies { is_inspecting verifier.old ≡ false }
        requires attached { is_detached verifier.old ≡ false }
    {
        verifier.reset();
        let new = Verifier::<H, 4>::new(context(self.keys));
        let (reset, fresh) = (said(verifier), said(&new));
        let mut intake = SliceIntake::new(self.bytes, 64);
        let mut store = Store::<128>::new();
        let verdict = answer(verifier, &mut intake, &mut store, &self.ec);
        let seen = (reset, verdict, store.bytes());
        is(rt, &"anew", seen, (fresh, Ok(self.verdict), self.payload));
    }

    /// The message, a byte at each call, and an intake that fails at the call of this number.
    fn stops_at_take<const H: usize>(&self, rt: &impl Abort, fails_at: usize)
        requires some_room { 16 ≤ H }
        requires limit { H ≤ 65535 }
    {
        let mut verifier = Verifier::<H, 4>::new(context(self.keys));
        let mut intake = FailingIntake::new(self.bytes, fails_at);
        let mut store = Store::<128>::new();
        let stop = answer(&mut verifier, &mut intake, &mut store, &self.ec);
        let again = answer(&mut verifier, &mut intake, &mut store, &self.ec);
        let seen = (stop, again, intake.takes());
        let stops = (Err(Stop::Intake), Err(Stop::Again), fails_at);
        is(rt, &fails_at, seen, stops);
        let taken = (fails_at as u64).saturating_sub(1);
        stays_stopped(rt, &mut verifier, self.bytes, taken);
        self.authenticates_anew(rt, &mut verifier);
    }

    /// The message, a byte at each call, and a sink that fails at the call of this number.
    fn stops_at_put<const H: usize>(&self, rt: &impl Abort, fails_at: usize)
        requires some_room { 16 ≤ H }
        requires limit { H ≤ 65535 }
    {
        let mut verifier = Verifier::<H, 4>::new(context(self.keys));
        let mut intake = SliceIntake::new(self.bytes, 64);
        let mut sink = FailingSink::<128>::new(fails_at);
        let stop = answer(&mut verifier, &mut intake, &mut sink, &self.ec);
        let again = answer(&mut verifier, &mut intake, &mut sink, &self.ec);
        let held = self
            .payload
            .get(..fails_at.saturating_sub(1))
            .unwrap_or(&[]);
        let seen = (stop, again, sink.puts(), sink.bytes());
        let stops = (Err(Stop::Sink), Err(Stop::Again), fails_at, held);
        is(rt, &fails_at, seen, stops);
        let taken = self.payload_at.saturating_add(fails_at as u64);
        stays_stopped(rt, &mut verifier, self.bytes, taken);
        self.authenticates_anew(rt, &mut verifier);
    }

    /// The intake fails at each of its calls in turn, and so does the sink. Without a failure there are no further calls.
    fn stops_at_each<const H: usize>(&self, rt: &impl Abort)
        requires some_room { 16 ≤ H }
        requires limit { H ≤ 65535 }
    {
        for fails_at in 1..=self.bytes.len() {
            self.stops_at_take::<H>(rt, fails_at);
        }
        for fails_at in 1..=self.payload.len() {
            self.stops_at_put::<H>(rt, fails_at);
        }
        let mut verifier = Verifier::<H, 4>::new(context(self.keys));
        let mut intake = FailingIntake::new(self.bytes, self.bytes.len().saturating_add(1));
        let mut sink = FailingSink::<128>::new(self.payload.len().saturating_add(1));
        let verdict = answer(&mut verifier, &mut intake, &mut sink, &self.ec);
        let seen = (verdict, intake.takes(), sink.puts());
        let wanted = (Ok(self.verdict), self.bytes.len(), self.payload.len());
        is(rt, &"without a failure", seen, wanted);
    }
}

#[test]
fn stops_a_mac0(rt: HostRuntime) {
    let bytes = message(&rt);
    let case = Case {
        keys: key_set(&rt),
        ec: Never,
        bytes: bytes.as_slice(),
        verdict: authentic(44),
        payload: b"hi",
        payload_at: 8,
    };
    case.stops_at_each::<1024>(&rt);
}

#[test]
fn stops_a_sign1(rt: HostRuntime) {
    let signature = [0x5a; 64];
    let digest = signed_digest();
    let bytes = joined(&rt, &[SIGNED, &signature]);
    let case = Case {
        keys: KeySet::read(POINT_SET).expect(&rt, "a key set"),
        ec: Asked {
            digest: &digest,
            signature: &signature,
            says: true,
        },
        bytes: bytes.as_slice(),
        verdict: decision(true),
        payload: b"",
        payload_at: 8,
    };
    case.stops_at_each::<1024>(&rt);
}

/// The message of the payload `hi` with those headers.
fn full_headers(rt: &(impl Abort + Alloc<A = Global>)) -> Vec<u8> {
    let structure = joined(rt, &[b"\x84\x64MAC0\x50", PROTECTED, b"\x40\x42hi"]);
    let tag = hmac(KEY, structure.as_slice());
    joined(
        rt,
        &[
            b"\xd1\x84\x50",
            PROTECTED,
            UNPROTECTED,
            b"\x42hi\x58\x20",
            &tag,
        ],
    )
}

#[test]
fn stops_a_message_whose_headers_fill_their_room(rt: HostRuntime) {
    let bytes = full_headers(&rt);
    let case = Case {
        keys: key_set(&rt),
        ec: Never,
        bytes: bytes.as_slice(),
        verdict: authentic(72),
        payload: b"hi",
        payload_at: 36,
    };
    case.stops_at_each::<16>(&rt);
}

/// How many items are open where the intake fails at the call of this number, each call before having given a byte.
#[test]
fn tells_what_is_open_where_the_intake_fails(rt: HostRuntime) {
    let keys = key_set(&rt);
    let bytes = b"\xd1\x84\x43\xa1\x01\x05\xa2\x0a\x81\x81\x42hi\x0b\xc1\x00\x42";
    const ROWS: &[(usize, usize)] = &[
        // Before the unprotected bucket.
        (1, 0),
        (7, 0),
        // The map, the arrays in it, and a string in these.
        (8, 1),
        (9, 1),
        (10, 2),
        (11, 3),
        (12, 3),
        // The arrays have ended with the string; then a tag.
        (14, 1),
        (15, 1),
        (16, 2),
        // The bucket has ended; then the payload's head.
        (17, 0),
        (18, 0),
    ];
    for &(fails_at, open_items) in ROWS {
        let mut verifier = verifier(keys, Wanted::Tagged);
        let mut intake = FailingIntake::new(bytes, fails_at);
        let stop = answer(&mut verifier, &mut intake, &mut Store::<16>::new(), &Never);
        let open = verifier.open_items();
        verifier.reset();
        is(
            &rt,
            &fails_at,
            (stop, open, verifier.open_items()),
            (Err(Stop::Intake), open_items, 0),
        );
    }
}
