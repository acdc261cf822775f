//! Messages that are only parsed, through each way to inspect them.

ghost use Rattle.std.specs.Prelude.{◌≡◌, ◌≤◌, ◌<◌, false, true};
ghost use Rattle.cose_msg.specs.Kept.{is_inspecting};
ghost use Rattle.cose_msg.specs.Verifier.{is_detached};

use crate::expected::{Refused, name_of};
use crate::fields::{
    Difference, Way, array, bytes, has_bytes, holds, integer, limits, object, text,
};
use crate::messages::CUTS;
use crate::setting::{Setting, label_of};
use cose_msg::{Bucket, Inspected, KeySet, Label, Nothing, SliceIntake, Status, Verifier, inspect};
use serde_json::Value;
use std::alloc::Global;

/// The empty key set: no key is looked at.
const NO_KEYS: &[u8] = &[0xa0];

/// What is expected of a message.
#[derive(Clone, Copy)]
enum Expected<'v> {
    /// It has this shape.
    Shape {
        /// The name of its kind.
        kind: &'v str,
        /// The number of bytes of the payload.
        payload: u64,
        /// The number of bytes of the tag or signature.
        auth: u64,
        /// The pairs of the protected bucket.
        protected: &'v [Value],
        /// The pairs of the unprotected bucket.
        unprotected: &'v [Value],
    },
    /// It is refused.
    Refused(Refused<'v>),
}

/// Whether a label and the bytes of its value are this pair.
fn is_pair(alloc: Global, pair: &Value, label: Label<'_>, value: &[u8]) -> bool {
    pair.get(0usize).and_then(label_of) == Some(label) && has_bytes(alloc, pair.get(1usize), value)
}

/// Whether a bucket is there and has these pairs, in their order.
fn has_pairs(alloc: Global, expected: &[Value], bucket: Option<Bucket<'_>>) -> bool {
    let Some(bucket) = bucket else {
        return false;
    };
    let mut pairs = bucket.pairs();
    for pair in expected {
        match pairs.next() {
            Some((label, _, value)) if is_pair(alloc, pair, label, value.bytes) => {}
            _ => return false,
        }
    }
    pairs.next().is_none()
}

impl<'v> Expected<'v> {
    /// What is expected by a result.
    fn read(row: &'v Value) -> Self {
        if text(row, "verdict") != "shape" {
            return Expected::Refused(Refused::read(row));
        }
        Expected::Shape {
            kind: text(row, "kind"),
            payload: integer(row, "payload"),
            auth: integer(row, "auth"),
            protected: array(row, "protected"),
            unprotected: array(row, "unprotected"),
        }
    }

    /// Whether this is the expected result of a message that has so many bytes.
    fn is(&self, inspected: Inspected, bytes: u64) -> bool {
        match (self, inspected) {
            (
                Expected::Shape {
                    kind: name,
                    payload: payload_bytes,
                    auth: auth_bytes,
                    ..
                },
                Inspected::Shape {
                    kind,
                    payload,
                    auth,
                    taken,
                },
            ) => {
                *name == name_of(kind)
                    && *payload_bytes == payload
                    && *auth_bytes == auth
                    && taken == bytes
            }
            (Expected::Refused(expected), Inspected::Refused(refusal)) => expected.is(refusal),
            _ => false,
        }
    }

    /// Whether this is the expected status at the end of a message whose payload has so many bytes.
    fn is_status(&self, status: Status, bytes: u64) -> bool {
        match (self, status) {
            (Expected::Shape { payload, .. }, Status::Complete) => *payload == bytes,
            (Expected::Refused(expected), Status::Refused(refusal)) => expected.is(refusal),
            _ => false,
        }
    }
}

/// A message with what is expected of it.
#[derive(Drop)]
struct Case<'v> {
    message: Vec<u8>,
    expected: Expected<'v>,
    /// How many bytes of the message decide it.
    taken: u64,
}

impl<'v> Case<'v> {
    /// The message of a test.
    fn read(alloc: Global, test: &'v Value) -> Self {
        let result = object(test, "result");
        Case {
            message: bytes(alloc, test, "message"),
            expected: Expected::read(result),
            taken: integer(result, "taken"),
        }
    }
}

/// Whether a verifier has taken the expected number of bytes, and gives the expected pairs.
fn shows<const H: usize, const D: usize>(
    alloc: Global,
    verifier: &Verifier<'_, H, D>,
    case: &Case<'_>,
) -> bool {
    let has_buckets = match case.expected {
        Expected::Shape {
            protected,
            unprotected,
            ..
        } => {
            has_pairs(alloc, protected, verifier.protected())
                && has_pairs(alloc, unprotected, verifier.unprotected())
        }
        Expected::Refused(_) => true,
    };
    has_buckets && verifier.taken() == case.taken
}

/// Whether `inspect` gives what is expected where the message comes in pieces of at most `cut` bytes.
fn is_inspected<const H: usize, const D: usize>(
    alloc: Global,
    verifier: &mut Verifier<'_, H, D>,
    case: &Case<'_>,
    cut: usize,
) -> bool
    requires inspects { is_inspecting verifier.old ≡ true }
    requires attached { is_detached verifier.old ≡ false }
    requires some { 0 < cut }
{
    let mut intake = SliceIntake::new(case.message.as_slice(), cut);
    match inspect::<4_096, H, D, _, _, _>(verifier, &mut intake, &mut Nothing) {
        Ok(inspected) => { case.expected.is(inspected, case.taken) && shows(alloc, verifier, case) }
        Err(_) => false,
    }
}

/// Whether feeding gives what is expected where the message comes in pieces of at most `cut` bytes.
fn is_fed<const H: usize, const D: usize>(
    alloc: Global,
    verifier: &mut Verifier<'_, H, D>,
    case: &Case<'_>,
    cut: usize,
) -> bool
    requires some { 0 < cut }
{
    let mut payload = 0u64;
    'pieces: for piece in case.message.as_slice().chunks(cut) {
        let count = verifier.feed(piece).payload_of(piece).len() as u64;
        payload = payload.saturating_add(count);
    }
    case.expected.is_status(verifier.end(), payload) && shows(alloc, verifier, case)
}

/// A verifier that inspects.
fn inspecting<'k, const H: usize, const D: usize>(
    setting: &'k Setting<'_>,
    keys: KeySet<'k>,
) -> Verifier<'k, H, D>
    requires some_room { 16 ≤ H }
    requires limit { H ≤ 65535 }
    requires nesting { D ≤ 32 }
    ensures inspects { is_inspecting result ≡ true }
    ensures attached { is_detached result ≡ false }
{
    Verifier::inspecting(setting.context(keys))
}

/// Inspects a message in pieces of at most `cut` bytes.
fn run_inspect<'k, const H: usize, const D: usize>(
    alloc: Global,
    setting: &'k Setting<'_>,
    keys: KeySet<'k>,
    case: &Case<'_>,
    cut: usize,
) -> Result<(), Difference>
    requires some_room { 16 ≤ H }
    requires limit { H ≤ 65535 }
    requires nesting { D ≤ 32 }
    requires some { 0 < cut }
{
    let mut verifier = inspecting::<H, D>(setting, keys);
    holds(is_inspected(alloc, &mut verifier, case, cut), Way::Verify)
}

/// Feeds a message in pieces of at most `cut` bytes.
fn run_feed<'k, const H: usize, const D: usize>(
    alloc: Global,
    setting: &'k Setting<'_>,
    keys: KeySet<'k>,
    case: &Case<'_>,
    cut: usize,
) -> Result<(), Difference>
    requires some_room { 16 ≤ H }
    requires limit { H ≤ 65535 }
    requires nesting { D ≤ 32 }
    requires some { 0 < cut }
{
    let mut verifier = inspecting::<H, D>(setting, keys);
    holds(is_fed(alloc, &mut verifier, case, cut), Way::Feed)
}

/// Runs a message at a header limit and a nesting.
fn run_at<const H: usize, const D: usize>(
    alloc: Global,
    setting: &Setting<'_>,
    case: &Case<'_>,
) -> Result<(), Difference>
    requires some_room { 16 ≤ H }
    requires limit { H ≤ 65535 }
    requires nesting { D ≤ 32 }
{
    let Ok(keys) = KeySet::read(NO_KEYS) else {
        return Err(Difference::Setting);
    };
    'cuts: for cut in CUTS {
        run_inspect::<H, D>(alloc, setting, keys, case, cut)?;
        run_feed::<H, D>(alloc, setting, keys, case, cut)?;
    }
    Ok(())
}

/// Runs a message at the limits of its group.
fn run_limits(
    alloc: Global,
    setting: &Setting<'_>,
    group: &Value,
    case: &Case<'_>,
) -> Result<(), Difference> {
    match limits(group) {
        (16, 1) => run_at::<16, 1>(alloc, setting, case),
        (64, 4) => run_at::<64, 4>(alloc, setting, case),
        (1_024, 8) => run_at::<1_024, 8>(alloc, setting, case),
        _ => Err(Difference::Setting),
    }
}

/// Runs a test.
pub fn run_test(alloc: Global, group: &Value, test: &Value) -> Result<(), Difference> {
    let setting = Setting::read(alloc, group);
    let case = Case::read(alloc, test);
    run_limits(alloc, &setting, group, &case)
}
