//! Intakes that fail, verdicts that are kept, and a store that failed before.

use crate::tests::{JEFE, TOKEN, at, context, equal, refusal};
use cose_cwt::{CwtStop, verify_cwt};
use cose_map::Reason;
use cose_msg::{KeySet, Never, ReadIntake, Sink, SliceIntake, Stop, Store, Verifier};
use std::io;
use std::io::{Error, ErrorKind, Read};
use std::process::Abort;
use std::test::Fail;

/// Gives one byte of the token in each read, and fails at one of them.
#[derive(Drop)]
struct FailingReader {
    reads: usize,
    fails_at: usize,
}

impl Read for FailingReader {
    fn read(&mut self, into: &mut [u8]) -> io::Result<usize> {
        self.reads = self.reads.saturating_add(1);
        if self.reads == self.fails_at {
            return Err(Error::from(ErrorKind::Other));
        }
        match (TOKEN.get(self.reads.saturating_sub(1)), into) {
            (Some(byte), [slot, ..]) => {
                *slot = *byte;
                Ok(1)
            }
            _ => Ok(0),
        }
    }
}

/// Verifies the token from a reader that fails at one of its reads: the call stops, and the store holds nothing.
fn stops_at(rt: &impl Abort, keys: KeySet<'_>, fails_at: usize) {
    let mut verifier: Verifier<64, 4> = Verifier::new(context(keys));
    let mut intake = ReadIntake::new(FailingReader { reads: 0, fails_at });
    let mut store: Store<4096> = Store::new();
    let token = verify_cwt::<64, 64, 4, 4096, _, ReadIntake<FailingReader>, Never>(
        &mut verifier,
        &mut intake,
        &mut store,
        &Never,
        &at(1_444_064_943, 0),
    );
    equal(rt, token.err(), Some(CwtStop::Stopped(Stop::Intake)));
    equal(rt, store.bytes(), b"".as_slice());
}

#[test]
fn stops_where_the_intake_fails(rt: HostRuntime) -> Result<(), Fail> {
    let keys = KeySet::read(JEFE)?;
    for fails_at in 1..=123 {
        stops_at(&rt, keys, fails_at);
    }
    Ok(())
}

#[test]
fn forgets_what_the_store_held(rt: HostRuntime) -> Result<(), Fail> {
    let keys = KeySet::read(JEFE)?;
    let mut store: Store<4096> = Store::new();
    let _ = store.put(&[0; 4097]);
    let mut verifier: Verifier<64, 4> = Verifier::new(context(keys));
    let mut intake = SliceIntake::new(TOKEN, 64);
    let token = verify_cwt::<64, 64, 4, 4096, _, SliceIntake, Never>(
        &mut verifier,
        &mut intake,
        &mut store,
        &Never,
        &at(1_444_064_943, 0),
    );
    match token {
        Ok(claims) => equal(&rt, claims.sub(), Some("erikw")),
        Err(stop) => panic!(rt; "{stop:?}"),
    }
    Ok(())
}

#[test]
fn answers_a_kept_refusal_again(rt: HostRuntime) -> Result<(), Fail> {
    let keys = KeySet::read(JEFE)?;
    let mut verifier: Verifier<64, 4> = Verifier::new(context(keys));
    let mut nothing = SliceIntake::new(b"", 1);
    let mut store: Store<4096> = Store::new();
    let token = verify_cwt::<64, 64, 4, 4096, _, SliceIntake, Never>(
        &mut verifier,
        &mut nothing,
        &mut store,
        &Never,
        &at(1_444_064_943, 0),
    );
    let truncated = Some(CwtStop::Message(refusal(Reason::Truncated, 0)));
    equal(&rt, token.err(), truncated);
    let context = verifier.context();
    if verifier.taken() == 0 && context.cwt && context.payload_limit <= 4096 {
        let mut intake = SliceIntake::new(TOKEN, 64);
        let token = verify_cwt::<64, 64, 4, 4096, _, SliceIntake, Never>(
            &mut verifier,
            &mut intake,
            &mut store,
            &Never,
            &at(1_444_064_943, 0),
        );
        equal(&rt, token.err(), truncated);
    } else {
        panic!(rt; "the verifier may not be asked again");
    }
    Ok(())
}

/// What is left in a store that is full of other bytes, after these bytes stop or are refused so.
fn leaves(rt: &impl Abort, keys: KeySet<'_>, bytes: &[u8], now: i64, stop: CwtStop) {
    let mut verifier: Verifier<64, 4> = Verifier::new(context(keys));
    let mut intake = SliceIntake::new(bytes, 64);
    let mut store: Store<4096> = Store::new();
    let _ = store.put(&[0; 4096]);
    let token = verify_cwt::<64, 64, 4, 4096, _, SliceIntake, Never>(
        &mut verifier,
        &mut intake,
        &mut store,
        &Never,
        &at(now, 0),
    );
    equal(rt, token.err(), Some(stop));
    equal(rt, store.bytes(), b"".as_slice());
}

#[test]
fn holds_no_refused_payload(rt: HostRuntime) -> Result<(), Fail> {
    let keys = KeySet::read(JEFE)?;
    let (front, tag) = TOKEN.split_at(91);
    equal(&rt, tag.len(), 32);
    let mut changed = [0; 123];
    changed[..91].copy_from_slice(front);
    let bad_auth = CwtStop::Message(refusal(Reason::BadAuth, 89));
    leaves(&rt, keys, &changed, 1_444_064_943, bad_auth);
    let truncated = CwtStop::Message(refusal(Reason::Truncated, 91));
    leaves(&rt, keys, front, 1_444_064_943, truncated);
    let expired = CwtStop::Claims(refusal(Reason::Expired, 59));
    leaves(&rt, keys, TOKEN, 1_444_064_944, expired);
    Ok(())
}

/// The payload has come whole when the reader fails, at the tag.
#[test]
fn holds_nothing_after_a_failure(rt: HostRuntime) -> Result<(), Fail> {
    stops_at(&rt, KeySet::read(JEFE)?, 100);
    Ok(())
}
