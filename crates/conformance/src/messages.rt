//! Messages that have their payload, through each way to verify them.

ghost use Rattle.std.specs.Prelude.{◌≡◌, ◌≤◌, ◌<◌, false};
ghost use Rattle.cose_msg.specs.Kept.{is_inspecting};
ghost use Rattle.cose_msg.specs.Verifier.{is_detached};

use crate::elsewhere::{self, LIES, Lie};
use crate::expected::Expected;
use crate::fields::{Difference, Way, bytes, holds, integer, limits, object};
use crate::setting::Setting;
use crate::streams::{Comparison, Signature};
use cose_msg::{
    KeySet, KeyTable, Keys, PreparedTable, Reason, Refusal, SliceIntake, Status, Verdict, Verified,
    Verifier, verify, verify_slice,
};
use serde_json::Value;
use std::alloc::Global;

/// How long the pieces are in which a message comes. No message of the rows is longer than the last.
pub const CUTS: [usize; 5] = [1, 2, 7, 64, 65_536];

/// A message with what is expected of it.
#[derive(Drop)]
struct Case<'v> {
    message: Vec<u8>,
    expected: Expected<'v>,
    /// The payload, where the message is authentic.
    payload: Vec<u8>,
    /// How many bytes of the message decide it.
    taken: u64,
    signature: Signature,
}

/// The payload of a result, where the message is authentic.
fn payload_of(alloc: Global, row: &Value, expected: &Expected<'_>) -> Vec<u8> {
    if expected.is_authentic() {
        return bytes(alloc, row, "payload");
    }
    Vec::new(alloc)
}

impl<'v> Case<'v> {
    /// The message of a test.
    fn read(alloc: Global, test: &'v Value) -> Self {
        let result = object(test, "result");
        let expected = Expected::read(result);
        Case {
            message: bytes(alloc, test, "message"),
            expected,
            payload: payload_of(alloc, result, &expected),
            taken: integer(result, "taken"),
            signature: Signature::read(alloc, test),
        }
    }

    /// How many prefixes of the message are known to be Truncated: those of an authentic one that are shorter.
    fn prefixes(&self) -> usize {
        if self.expected.is_authentic() {
            return self.taken.min(self.message.len() as u64) as usize;
        }
        0
    }

    /// Whether this is the expected verdict, after so many bytes and with such a payload.
    fn is(&self, verdict: Verdict, taken: u64, payload: &Comparison<'_>) -> bool {
        let is_verdict = self.expected.is(verdict, self.payload.len() as u64, taken);
        is_verdict && taken == self.taken && (payload.is_whole() || !self.expected.is_authentic())
    }

    /// Whether this is the expected result of bytes that are all there: a byte after an authentic message is refused.
    fn is_verified(&self, verified: Verified<'_>) -> bool {
        match verified {
            Verified::Authentic { kind, alg, payload } => {
                let verdict = Verdict::Authentic {
                    kind,
                    alg,
                    payload: payload.len() as u64,
                    taken: self.message.len() as u64,
                };
                payload == self.payload.as_slice()
                    && self.expected.is(verdict, payload.len() as u64, self.taken)
            }
            Verified::Refused(
                Refusal {
                    reason: Reason::Trailing,
                    place,
                },
            ) if self.expected.is_authentic() => place == self.taken,
            Verified::Refused(refusal) => match self.expected {
                Expected::Refused(expected) => expected.is(refusal),
                Expected::Authentic { .. } => false,
            },
        }
    }
}

/// Whether `verify` gives what is expected where the message comes in pieces of at most `cut` bytes.
fn is_verified<'k, const H: usize, const D: usize, K: Keys<'k>>(
    verifier: &mut Verifier<'k, H, D, K>,
    case: &Case<'_>,
    cut: usize,
) -> bool
    requires verifies { is_inspecting verifier.old ≡ false }
    requires attached { is_detached verifier.old ≡ false }
    requires some { 0 < cut }
{
    let mut intake = SliceIntake::new(case.message.as_slice(), cut);
    let mut payload = Comparison::new(case.payload.as_slice());
    match verify::<4_096, H, D, _, _, _, _>(verifier, &mut intake, &mut payload, &case.signature) {
        Ok(verdict) => case.is(verdict, verifier.taken(), &payload),
        Err(_) => false,
    }
}

/// Feeds a message in pieces of at most `cut` bytes.
fn feed<'k, const H: usize, const D: usize, K: Keys<'k>>(
    verifier: &mut Verifier<'k, H, D, K>,
    message: &[u8],
    cut: usize,
    payload: &mut Comparison<'_>,
)
    requires verifies { is_inspecting verifier.old ≡ false }
    requires some { 0 < cut }
    ensures { is_inspecting verifier.new ≡ false }
{
    'pieces: for piece in message.chunks(cut) {
        let fed = verifier.feed(piece);
        payload.compare(fed.payload_of(piece));
    }
}

/// The verdict on a message that was fed and has no further byte.
pub fn decided<'k, const H: usize, const D: usize, K: Keys<'k>>(
    verifier: &mut Verifier<'k, H, D, K>,
    signature: &Signature,
) -> Option<Verdict>
    requires verifies { is_inspecting verifier.old ≡ false }
{
    match verifier.end() {
        Status::Complete => Some(verifier.verdict(signature)),
        Status::Refused(refusal) => Some(Verdict::Refused(refusal)),
        _ => None,
    }
}

/// Whether feeding gives what is expected where the message comes in pieces of at most `cut` bytes.
fn is_fed<'k, const H: usize, const D: usize, K: Keys<'k>>(
    verifier: &mut Verifier<'k, H, D, K>,
    case: &Case<'_>,
    cut: usize,
) -> bool
    requires verifies { is_inspecting verifier.old ≡ false }
    requires some { 0 < cut }
{
    let mut payload = Comparison::new(case.payload.as_slice());
    feed(verifier, case.message.as_slice(), cut, &mut payload);
    match decided(verifier, &case.signature) {
        Some(verdict) => case.is(verdict, verifier.taken(), &payload),
        None => false,
    }
}

/// Whether a caller that authenticates the message itself gets what is expected, where it comes in pieces of at most `cut` bytes.
fn is_stated<'k, const H: usize, const D: usize, K: Keys<'k>>(
    verifier: &mut Verifier<'k, H, D, K>,
    case: &Case<'_>,
    cut: usize,
) -> bool
    requires some { 0 < cut }
{
    let mut payload = Comparison::new(case.payload.as_slice());
    let hash = elsewhere::feed(verifier, case.message.as_slice(), cut, &mut payload);
    match elsewhere::stated(verifier, hash, &case.signature) {
        Some(verdict) => case.is(verdict, verifier.taken(), &payload),
        None => false,
    }
}

/// Whether a caller that states something else of the message never has it authentic.
fn is_found_out<'k, const H: usize, const D: usize, K: Keys<'k>>(
    verifier: &mut Verifier<'k, H, D, K>,
    case: &Case<'_>,
    lie: Lie,
) -> bool {
    let mut payload = Comparison::new(case.payload.as_slice());
    let hash = elsewhere::feed(verifier, case.message.as_slice(), 64, &mut payload);
    elsewhere::is_found_out(verifier, hash, lie)
}

/// Whether `verify_slice` gives what is expected, and of each shorter prefix of an authentic message that it is Truncated
/// at its end.
fn is_read<'k, const H: usize, const D: usize, K: Keys<'k>>(
    verifier: &mut Verifier<'k, H, D, K>,
    case: &Case<'_>,
) -> bool
    requires verifies { is_inspecting verifier.old ≡ false }
    requires attached { is_detached verifier.old ≡ false }
{
    'prefixes: for end in 0..case.prefixes() {
        let truncated = Verified::Refused(Refusal {
            reason: Reason::Truncated,
            place: end as u64,
        });
        let prefix = case.message.as_slice().get(..end).unwrap_or(&[]);
        if verify_slice(verifier, prefix, &case.signature) != truncated {
            return false;
        }
    }
    case.is_verified(verify_slice(verifier, case.message.as_slice(), &case.signature))
}

/// A verifier under these keys.
fn under<'k, const H: usize, const D: usize, K: Keys<'k>>(
    setting: &'k Setting<'_>,
    keys: K,
) -> Verifier<'k, H, D, K>
    requires some_room { 16 ≤ H }
    requires limit { H ≤ 65535 }
    requires nesting { D ≤ 32 }
    ensures verifies { is_inspecting result ≡ false }
    ensures attached { is_detached result ≡ false }
{
    Verifier::new(setting.context(keys))
}

/// Runs a message through `verify` under a key set, in pieces of at most `cut` bytes.
fn run_verify<'k, const H: usize, const D: usize>(
    setting: &'k Setting<'_>,
    set: KeySet<'k>,
    case: &Case<'_>,
    cut: usize,
) -> Result<(), Difference>
    requires some_room { 16 ≤ H }
    requires limit { H ≤ 65535 }
    requires nesting { D ≤ 32 }
    requires some { 0 < cut }
{
    let mut verifier = under::<H, D, KeySet<'k>>(setting, set);
    holds(is_verified(&mut verifier, case, cut), Way::Verify)
}

/// Feeds a message under a key set, in pieces of at most `cut` bytes.
fn run_feed<'k, const H: usize, const D: usize>(
    setting: &'k Setting<'_>,
    set: KeySet<'k>,
    case: &Case<'_>,
    cut: usize,
) -> Result<(), Difference>
    requires some_room { 16 ≤ H }
    requires limit { H ≤ 65535 }
    requires nesting { D ≤ 32 }
    requires some { 0 < cut }
{
    let mut verifier = under::<H, D, KeySet<'k>>(setting, set);
    holds(is_fed(&mut verifier, case, cut), Way::Feed)
}

/// Runs a message that the caller authenticates under a key set, in pieces of at most `cut` bytes.
fn run_elsewhere<'k, const H: usize, const D: usize>(
    setting: &'k Setting<'_>,
    set: KeySet<'k>,
    case: &Case<'_>,
    cut: usize,
) -> Result<(), Difference>
    requires some_room { 16 ≤ H }
    requires limit { H ≤ 65535 }
    requires nesting { D ≤ 32 }
    requires some { 0 < cut }
{
    let mut asking = Verifier::<H, D>::elsewhere(setting.context(set));
    holds(is_stated(&mut asking, case, cut), Way::Elsewhere)
}

/// Runs a message of which the caller states something else under a key set.
fn run_lie<'k, const H: usize, const D: usize>(
    setting: &'k Setting<'_>,
    set: KeySet<'k>,
    case: &Case<'_>,
    lie: Lie,
) -> Result<(), Difference>
    requires some_room { 16 ≤ H }
    requires limit { H ≤ 65535 }
    requires nesting { D ≤ 32 }
{
    let mut asking = Verifier::<H, D>::elsewhere(setting.context(set));
    holds(is_found_out(&mut asking, case, lie), Way::Elsewhere)
}

/// Runs a message of which the caller states each lie under a key set.
fn run_lies<'k, const H: usize, const D: usize>(
    setting: &'k Setting<'_>,
    set: KeySet<'k>,
    case: &Case<'_>,
) -> Result<(), Difference>
    requires some_room { 16 ≤ H }
    requires limit { H ≤ 65535 }
    requires nesting { D ≤ 32 }
{
    'lies: for lie in LIES {
        run_lie::<H, D>(setting, set, case, lie)?;
    }
    Ok(())
}

/// Runs a message whose bytes are all there, and its prefixes, under a key set.
fn run_read<'k, const H: usize, const D: usize>(
    setting: &'k Setting<'_>,
    set: KeySet<'k>,
    case: &Case<'_>,
) -> Result<(), Difference>
    requires some_room { 16 ≤ H }
    requires limit { H ≤ 65535 }
    requires nesting { D ≤ 32 }
{
    let mut verifier = under::<H, D, KeySet<'k>>(setting, set);
    holds(is_read(&mut verifier, case), Way::Slice)
}

/// Runs a message through each way that takes pieces of at most `cut` bytes under a key set.
fn run_cut<'k, const H: usize, const D: usize>(
    setting: &'k Setting<'_>,
    set: KeySet<'k>,
    case: &Case<'_>,
    cut: usize,
) -> Result<(), Difference>
    requires some_room { 16 ≤ H }
    requires limit { H ≤ 65535 }
    requires nesting { D ≤ 32 }
    requires some { 0 < cut }
{
    run_verify::<H, D>(setting, set, case, cut)?;
    run_feed::<H, D>(setting, set, case, cut)?;
    run_elsewhere::<H, D>(setting, set, case, cut)
}

/// Runs a message through each way under a key set.
fn run_under_set<'k, const H: usize, const D: usize>(
    setting: &'k Setting<'_>,
    set: KeySet<'k>,
    case: &Case<'_>,
) -> Result<(), Difference>
    requires some_room { 16 ≤ H }
    requires limit { H ≤ 65535 }
    requires nesting { D ≤ 32 }
{
    'cuts: for cut in CUTS {
        run_cut::<H, D>(setting, set, case, cut)?;
    }
    run_lies::<H, D>(setting, set, case)?;
    run_read::<H, D>(setting, set, case)
}

/// Runs a message under a table of keys: by a reference to it, and by itself.
fn run_under_table<'k, const H: usize, const D: usize>(
    setting: &'k Setting<'_>,
    case: &Case<'_>,
) -> Result<(), Difference>
    requires some_room { 16 ≤ H }
    requires limit { H ≤ 65535 }
    requires nesting { D ≤ 32 }
{
    let Ok(table) = KeyTable::<16>::read(setting.keys()) else {
        return Err(Difference::Setting);
    };
    let mut shared = Verifier::<H, D, &KeyTable<'_, 16>>::new(setting.context(&table));
    holds(is_fed(&mut shared, case, 64), Way::Feed)?;
    let mut owner = Verifier::<H, D, KeyTable<'_, 16>>::new(setting.context(table));
    holds(is_verified(&mut owner, case, 64), Way::Verify)
}

/// Runs a message under a table of prepared keys: by a reference to it, and by itself.
fn run_prepared<'k, const H: usize, const D: usize>(
    setting: &'k Setting<'_>,
    case: &Case<'_>,
) -> Result<(), Difference>
    requires some_room { 16 ≤ H }
    requires limit { H ≤ 65535 }
    requires nesting { D ≤ 32 }
{
    let Ok(table) = KeyTable::<16>::read(setting.keys()) else {
        return Err(Difference::Setting);
    };
    let prepared = PreparedTable::new(table);
    let mut shared = Verifier::<H, D, &PreparedTable<'_, 16>>::new(setting.context(&prepared));
    holds(is_fed(&mut shared, case, 64), Way::Feed)?;
    let mut owner = Verifier::<H, D, PreparedTable<'_, 16>>::new(setting.context(prepared));
    holds(is_verified(&mut owner, case, 64), Way::Verify)
}

/// Runs a message at a header limit and a nesting, under a key set, a reference to a table of keys, a table of keys and a table
/// of prepared ones.
fn run_at<'k, const H: usize, const D: usize>(
    setting: &'k Setting<'_>,
    case: &Case<'_>,
) -> Result<(), Difference>
    requires some_room { 16 ≤ H }
    requires limit { H ≤ 65535 }
    requires nesting { D ≤ 32 }
{
    let set = setting.set()?;
    run_prepared::<H, D>(setting, case)?;
    run_under_set::<H, D>(setting, set, case)?;
    run_under_table::<H, D>(setting, case)
}

/// Runs a message at the limits of its group.
fn run_limits(setting: &Setting<'_>, group: &Value, case: &Case<'_>) -> Result<(), Difference> {
    match limits(group) {
        (16, 1) => run_at::<16, 1>(setting, case),
        (64, 4) => run_at::<64, 4>(setting, case),
        (1_024, 4) => run_at::<1_024, 4>(setting, case),
        (1_024, 8) => run_at::<1_024, 8>(setting, case),
        (65_535, 32) => run_at::<65_535, 32>(setting, case),
        _ => Err(Difference::Setting),
    }
}

/// Runs a test.
pub fn run_test(alloc: Global, group: &Value, test: &Value) -> Result<(), Difference> {
    let setting = Setting::read(alloc, group);
    let case = Case::read(alloc, test);
    run_limits(&setting, group, &case)
}
