//! Messages whose payload is detached, through each way to verify them.

ghost use Rattle.std.specs.Prelude.{◌≡◌, ◌≤◌, ◌<◌, false, true};
ghost use Rattle.cose_msg.specs.Kept.{is_inspecting};
ghost use Rattle.cose_msg.specs.Verifier.{is_detached};

use crate::elsewhere;
use crate::expected::Expected;
use crate::fields::{Difference, Way, bytes, holds, integer, limits, object, payload_length};
use crate::messages::{CUTS, decided};
use crate::setting::Setting;
use crate::streams::{Comparison, Signature};
use cose_msg::{
    KeySet, KeyTable, Keys, Reason, Refusal, SliceIntake, Verdict, Verifier, verify_detached,
};
use serde_json::Value;
use std::alloc::Global;

/// A message and its payload, with what is expected of both.
#[derive(Drop)]
struct Case<'v> {
    message: Vec<u8>,
    payload: Vec<u8>,
    /// The stated length of the payload.
    length: u64,
    expected: Expected<'v>,
    /// How many bytes of the message decide it.
    taken: u64,
    /// How many bytes of the payload are taken.
    payload_taken: u64,
    signature: Signature,
}

impl<'v> Case<'v> {
    /// The message and the payload of a test.
    fn read(alloc: Global, length: u64, test: &'v Value) -> Self {
        let result = object(test, "result");
        Case {
            message: bytes(alloc, test, "message"),
            payload: bytes(alloc, test, "payload"),
            length,
            expected: Expected::read(result),
            taken: integer(result, "taken"),
            payload_taken: integer(result, "payloadTaken"),
            signature: Signature::read(alloc, test),
        }
    }

    /// The bytes of the payload that are taken.
    fn came(&self) -> &[u8] {
        self.payload
            .as_slice()
            .get(..self.payload_taken as usize)
            .unwrap_or(&[])
    }

    /// Whether this is the expected verdict, after so many bytes of the message and these of the payload.
    fn is(&self, verdict: Verdict, taken: u64, came: &Comparison<'_>) -> bool {
        let is_verdict = self.expected.is(verdict, self.length, taken);
        is_verdict && taken == self.taken && came.is_whole()
    }
}

/// The verdict of `verify_detached` where the message and its payload come in pieces of at most `cut` bytes.
fn verified<'k, const H: usize, const D: usize, K: Keys<'k>>(
    verifier: &mut Verifier<'k, H, D, K>,
    message: &[u8],
    case: &Case<'_>,
    cut: usize,
    came: &mut Comparison<'_>,
) -> Option<Verdict>
    requires detached { is_detached verifier.old ≡ true }
    requires some { 0 < cut }
{
    let mut message = SliceIntake::new(message, cut);
    let mut payload = SliceIntake::new(case.payload.as_slice(), cut);
    verify_detached::<4_096, H, D, _, _, _, _, _>(
        verifier,
        &mut message,
        &mut payload,
        came,
        &case.signature,
    ).ok()
}

/// Whether `verify_detached` gives what is expected.
fn is_verified<'k, const H: usize, const D: usize, K: Keys<'k>>(
    verifier: &mut Verifier<'k, H, D, K>,
    case: &Case<'_>,
    cut: usize,
) -> bool
    requires detached { is_detached verifier.old ≡ true }
    requires some { 0 < cut }
{
    let mut came = Comparison::new(case.came());
    match verified(verifier, case.message.as_slice(), case, cut, &mut came) {
        Some(verdict) => case.is(verdict, verifier.taken(), &came),
        None => false,
    }
}

/// Feeds a message in pieces of at most `cut` bytes. Returns how many of its bytes were used.
fn feed<'k, const H: usize, const D: usize, K: Keys<'k>>(
    verifier: &mut Verifier<'k, H, D, K>,
    message: &[u8],
    cut: usize,
) -> usize
    requires verifies { is_inspecting verifier.old ≡ false }
    requires some { 0 < cut }
    ensures { is_inspecting verifier.new ≡ false }
{
    let mut used = 0usize;
    'pieces: for piece in message.chunks(cut) {
        used = used.saturating_add(verifier.feed(piece).used);
    }
    used
}

/// Feeds a payload in pieces of at most `cut` bytes, as far as it is wanted.
fn feed_payload<'k, const H: usize, const D: usize, K: Keys<'k>>(
    verifier: &mut Verifier<'k, H, D, K>,
    payload: &[u8],
    cut: usize,
    came: &mut Comparison<'_>,
)
    requires verifies { is_inspecting verifier.old ≡ false }
    requires some { 0 < cut }
    ensures { is_inspecting verifier.new ≡ false }
{
    'pieces: for piece in payload.chunks(cut) {
        if verifier.payload_wanted() > 0 {
            let used = verifier.feed_payload(piece);
            came.compare(piece.get(..used).unwrap_or(&[]));
        }
    }
}

/// Whether feeding gives what is expected where the message and its payload come in pieces of at most `cut` bytes.
fn is_fed<'k, const H: usize, const D: usize, K: Keys<'k>>(
    verifier: &mut Verifier<'k, H, D, K>,
    case: &Case<'_>,
    cut: usize,
) -> bool
    requires verifies { is_inspecting verifier.old ≡ false }
    requires some { 0 < cut }
{
    let mut came = Comparison::new(case.came());
    let used = feed(verifier, case.message.as_slice(), cut);
    feed_payload(verifier, case.payload.as_slice(), cut, &mut came);
    feed(
        verifier,
        case.message.as_slice().get(used..).unwrap_or(&[]),
        cut,
    );
    match decided(verifier, &case.signature) {
        Some(verdict) => case.is(verdict, verifier.taken(), &came),
        None => false,
    }
}

/// Whether a caller that authenticates the message itself gets what is expected, where the message and its payload come in pieces
/// of at most `cut` bytes.
fn is_stated<'k, const H: usize, const D: usize, K: Keys<'k>>(
    verifier: &mut Verifier<'k, H, D, K>,
    case: &Case<'_>,
    cut: usize,
) -> bool
    requires some { 0 < cut }
{
    let mut came = Comparison::new(case.came());
    let hash = elsewhere::feed_detached(
        verifier,
        case.message.as_slice(),
        case.payload.as_slice(),
        cut,
        &mut came,
    );
    match elsewhere::stated(verifier, hash, &case.signature) {
        Some(verdict) => case.is(verdict, verifier.taken(), &came),
        None => false,
    }
}

/// Whether a refusal has this reason and place.
fn is_refusal(refusal: Refusal, reason: Reason, place: usize) -> bool {
    refusal.reason == reason && refusal.place == place as u64
}

/// Whether a prefix of the message is Truncated at its end, with the whole payload next to it.
fn is_truncated<'k, const H: usize, const D: usize, K: Keys<'k>>(
    verifier: &mut Verifier<'k, H, D, K>,
    case: &Case<'_>,
    end: usize,
) -> bool
    requires { is_detached verifier.old ≡ true }
{
    let prefix = case.message.as_slice().get(..end).unwrap_or(&[]);
    let mut came = Comparison::new(case.came());
    match verified(verifier, prefix, case, 64, &mut came) {
        Some(Verdict::Refused(refusal)) => is_refusal(refusal, Reason::Truncated, end),
        _ => false,
    }
}

/// A verifier under these keys.
fn under<'k, const H: usize, const D: usize, K: Keys<'k>>(
    setting: &'k Setting<'_>,
    keys: K,
    length: u64,
) -> Verifier<'k, H, D, K>
    requires some_room { 16 ≤ H }
    requires limit { H ≤ 65535 }
    requires nesting { D ≤ 32 }
    ensures verifies { is_inspecting result ≡ false }
    ensures detached { is_detached result ≡ true }
{
    Verifier::detached(setting.context(keys), length)
}

/// Runs a message through `verify_detached` under a key set, in pieces of at most `cut` bytes.
fn run_verify<'k, const H: usize, const D: usize>(
    setting: &'k Setting<'_>,
    set: KeySet<'k>,
    case: &Case<'_>,
    cut: usize,
) -> Result<(), Difference>
    requires some_room { 16 ≤ H }
    requires limit { H ≤ 65535 }
    requires nesting { D ≤ 32 }
    requires some { 0 < cut }
{
    let mut verifier = under::<H, D, KeySet<'k>>(setting, set, case.length);
    holds(is_verified(&mut verifier, case, cut), Way::Verify)
}

/// Feeds a message and its payload under a key set, in pieces of at most `cut` bytes.
fn run_feed<'k, const H: usize, const D: usize>(
    setting: &'k Setting<'_>,
    set: KeySet<'k>,
    case: &Case<'_>,
    cut: usize,
) -> Result<(), Difference>
    requires some_room { 16 ≤ H }
    requires limit { H ≤ 65535 }
    requires nesting { D ≤ 32 }
    requires some { 0 < cut }
{
    let mut verifier = under::<H, D, KeySet<'k>>(setting, set, case.length);
    holds(is_fed(&mut verifier, case, cut), Way::Feed)
}

/// Runs a message that the caller authenticates under a key set, in pieces of at most `cut` bytes.
fn run_elsewhere<'k, const H: usize, const D: usize>(
    setting: &'k Setting<'_>,
    set: KeySet<'k>,
    case: &Case<'_>,
    cut: usize,
) -> Result<(), Difference>
    requires some_room { 16 ≤ H }
    requires limit { H ≤ 65535 }
    requires nesting { D ≤ 32 }
    requires some { 0 < cut }
{
    let mut asking = Verifier::<H, D>::elsewhere_detached(setting.context(set), case.length);
    holds(is_stated(&mut asking, case, cut), Way::Elsewhere)
}

/// Runs a prefix of a message under a key set.
fn run_prefix<'k, const H: usize, const D: usize>(
    setting: &'k Setting<'_>,
    set: KeySet<'k>,
    case: &Case<'_>,
    end: usize,
) -> Result<(), Difference>
    requires some_room { 16 ≤ H }
    requires limit { H ≤ 65535 }
    requires nesting { D ≤ 32 }
{
    let mut verifier = under::<H, D, KeySet<'k>>(setting, set, case.length);
    holds(is_truncated(&mut verifier, case, end), Way::Slice)
}

/// Runs a message through each way that takes pieces of at most `cut` bytes under a key set.
fn run_cut<'k, const H: usize, const D: usize>(
    setting: &'k Setting<'_>,
    set: KeySet<'k>,
    case: &Case<'_>,
    cut: usize,
) -> Result<(), Difference>
    requires some_room { 16 ≤ H }
    requires limit { H ≤ 65535 }
    requires nesting { D ≤ 32 }
    requires some { 0 < cut }
{
    run_verify::<H, D>(setting, set, case, cut)?;
    run_feed::<H, D>(setting, set, case, cut)?;
    run_elsewhere::<H, D>(setting, set, case, cut)
}

/// Runs a message through each way under a key set.
fn run_under_set<'k, const H: usize, const D: usize>(
    setting: &'k Setting<'_>,
    set: KeySet<'k>,
    case: &Case<'_>,
) -> Result<(), Difference>
    requires some_room { 16 ≤ H }
    requires limit { H ≤ 65535 }
    requires nesting { D ≤ 32 }
{
    'cuts: for cut in CUTS {
        run_cut::<H, D>(setting, set, case, cut)?;
    }
    if !case.expected.is_authentic() {
        return Ok(());
    }
    'prefixes: for end in 0..case.message.len().min(case.taken as usize) {
        run_prefix::<H, D>(setting, set, case, end)?;
    }
    Ok(())
}

/// Runs a message at a header limit and a nesting, under a key set and a reference to a table of keys.
fn run_at<'k, const H: usize, const D: usize>(
    setting: &'k Setting<'_>,
    case: &Case<'_>,
) -> Result<(), Difference>
    requires some_room { 16 ≤ H }
    requires limit { H ≤ 65535 }
    requires nesting { D ≤ 32 }
{
    let Ok(table) = KeyTable::<16>::read(setting.keys()) else {
        return Err(Difference::Setting);
    };
    run_under_set::<H, D>(setting, setting.set()?, case)?;
    let mut shared = Verifier::<H, D, &KeyTable<'_, 16>>::detached(
        setting.context(&table),
        case.length,
    );
    holds(is_verified(&mut shared, case, 64), Way::Verify)
}

/// Runs a message at the limits of its group.
fn run_limits(setting: &Setting<'_>, group: &Value, case: &Case<'_>) -> Result<(), Difference> {
    if case.payload_taken as usize > case.payload.len() {
        return Err(Difference::Setting);
    }
    match limits(group) {
        (16, 1) => run_at::<16, 1>(setting, case),
        (1_024, 4) => run_at::<1_024, 4>(setting, case),
        (1_024, 8) => run_at::<1_024, 8>(setting, case),
        _ => Err(Difference::Setting),
    }
}

/// Runs a test.
pub fn run_test(alloc: Global, group: &Value, test: &Value) -> Result<(), Difference> {
    let Some(length) = payload_length(group) else {
        return Err(Difference::Setting);
    };
    let setting = Setting::read(alloc, group);
    let case = Case::read(alloc, length, test);
    run_limits(&setting, group, &case)
}
