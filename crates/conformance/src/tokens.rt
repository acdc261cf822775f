//! Tokens: messages whose payloads are claims, admitted under a policy.

ghost use Rattle.std.specs.Prelude.{◌≤◌, ◌<◌};

use crate::claims::{Rules, are_claims};
use crate::elsewhere::{self, Finding};
use crate::expected::Refused;
use crate::fields::{Difference, Way, bytes, holds, integer, is_verdict, limits, object};
use crate::messages::CUTS;
use crate::setting::Setting;
use crate::streams::Signature;
use cose_cwt::{
    Claims, CwtStop, KeySet, Policy, Reason, Refusal, Requirements, SliceIntake, Stop, Store,
    TokenStop, Verifier, token_of_answer, token_of_mac, verify_cwt,
};
use cose_mac::Running;
use cose_msg::Status;
use serde_json::Value;
use std::alloc::Global;

/// What the tokens of a test are verified and admitted under.
#[derive(Clone, Copy)]
struct Case<'c, 'v> {
    setting: &'c Setting<'v>,
    set: KeySet<'c>,
    signature: &'c Signature,
    policy: Policy<'c>,
}

/// A test and its group.
#[derive(Drop)]
struct Read<'v> {
    setting: Setting<'v>,
    rules: Rules<'v>,
    signature: Signature,
    token: Vec<u8>,
}

impl<'v> Read<'v> {
    /// A test of a group.
    fn read(alloc: Global, group: &'v Value, test: &Value) -> Self {
        Read {
            setting: Setting::read(alloc, group),
            rules: Rules::read(alloc, group),
            signature: Signature::read(alloc, test),
            token: bytes(alloc, test, "token"),
        }
    }

    /// What the token is verified and admitted under.
    fn case(&self) -> Result<Case<'_, 'v>, Difference> {
        Ok(Case {
            setting: &self.setting,
            set: self.setting.set()?,
            signature: &self.signature,
            policy: self.rules.policy(),
        })
    }
}

/// The claims of a token that comes in pieces of at most `cut` bytes, and how many bytes are taken.
fn verified<'s, const H: usize, const D: usize>(
    case: &Case<'_, '_>,
    token: &[u8],
    cut: usize,
    store: &'s mut Store<4_096>,
) -> Result<(Claims<'s>, u64), CwtStop>
    requires some_room { 16 ≤ H }
    requires limit { H ≤ 65535 }
    requires nesting { D ≤ 32 }
    requires some { 0 < cut }
{
    let mut verifier = Verifier::<H, D>::new(case.setting.context(case.set));
    let context = verifier.context();
    if verifier.taken() > 0 || !context.cwt || context.payload_limit > 4_096 {
        return Err(CwtStop::Stopped(Stop::Again));
    }
    let mut intake = SliceIntake::new(token, cut);
    let claims = verify_cwt::<4_096, H, D, 4_096, _, _, _>(
        &mut verifier,
        &mut intake,
        store,
        case.signature,
        &case.policy,
    )?;
    Ok((claims, verifier.taken()))
}

/// The claims of a token that is complete by what its caller finds, and how many bytes are taken.
fn found<'s, 'k, const H: usize, const D: usize>(
    verifier: &mut Verifier<'k, H, D>,
    finding: Finding,
    payload: &'s [u8],
    policy: &Policy<'_>,
) -> Option<Result<(Claims<'s>, u64), CwtStop>>
    requires nesting { D ≤ 32 }
{
    if !verifier.is_complete() || !verifier.is_elsewhere() {
        return None;
    }
    let nothing = Requirements::default();
    let token = match finding {
        Finding::Mac(mac) => token_of_mac(verifier, mac.as_slice(), payload, policy, &nothing),
        Finding::Answer(holds) => token_of_answer(verifier, holds, payload, policy, &nothing),
    };
    match token {
        Ok(token) => Some(Ok((token.claims, verifier.taken()))),
        Err(TokenStop::Cwt(stop)) => Some(Err(stop)),
        Err(TokenStop::Unmet(_)) => None,
    }
}

/// The claims of a token that was fed and has no further byte, and how many bytes are taken.
fn ended<'s, 'k, const H: usize, const D: usize>(
    case: &Case<'_, '_>,
    verifier: &mut Verifier<'k, H, D>,
    hash: Option<Running>,
    payload: &'s [u8],
) -> Option<Result<(Claims<'s>, u64), CwtStop>>
    requires nesting { D ≤ 32 }
{
    if let Status::Refused(refusal) = verifier.end() {
        return Some(Err(CwtStop::Message(refusal)));
    }
    let finding = elsewhere::found(verifier, hash?, case.signature);
    found(verifier, finding, payload, &case.policy)
}

/// The same as `verified` where a caller authenticates the message itself, and `None` where it can't.
fn stated<'s, const H: usize, const D: usize>(
    case: &Case<'_, '_>,
    token: &[u8],
    cut: usize,
    store: &'s mut Store<4_096>,
) -> Option<Result<(Claims<'s>, u64), CwtStop>>
    requires some_room { 16 ≤ H }
    requires limit { H ≤ 65535 }
    requires nesting { D ≤ 32 }
    requires some { 0 < cut }
{
    let mut verifier = Verifier::<H, D>::elsewhere(case.setting.context(case.set));
    store.clear();
    let hash = elsewhere::feed(&mut verifier, token, cut, store);
    ended(case, &mut verifier, hash, store.bytes())
}

/// Whether this is the expected result of a token.
fn is_expected(alloc: Global, seen: Result<(Claims<'_>, u64), CwtStop>, expected: &Value) -> bool {
    match seen {
        Ok((claims, taken)) => {
            is_verdict(expected, "admitted")
                && taken == integer(expected, "taken")
                && are_claims(alloc, &claims, object(expected, "claims"))
        }
        Err(CwtStop::Message(refusal)) => {
            is_verdict(expected, "refused message") && Refused::read(expected).is(refusal)
        }
        Err(CwtStop::Claims(refusal)) => {
            is_verdict(expected, "refused claims") && Refused::read(expected).is(refusal)
        }
        _ => false,
    }
}

/// Whether the first bytes of a longer token are refused as Truncated at their end.
fn is_truncated<const H: usize, const D: usize>(case: &Case<'_, '_>, prefix: &[u8]) -> bool
    requires some_room { 16 ≤ H }
    requires limit { H ≤ 65535 }
    requires nesting { D ≤ 32 }
{
    let mut store = Store::new();
    let truncated = Refusal {
        reason: Reason::Truncated,
        place: prefix.len() as u64,
    };
    verified::<H, D>(case, prefix, 64, &mut store).err() == Some(CwtStop::Message(truncated))
}

/// Runs a token through `verify_cwt`, in pieces of at most `cut` bytes.
fn run_verify<const H: usize, const D: usize>(
    alloc: Global,
    case: &Case<'_, '_>,
    token: &[u8],
    cut: usize,
    expected: &Value,
) -> Result<(), Difference>
    requires some_room { 16 ≤ H }
    requires limit { H ≤ 65535 }
    requires nesting { D ≤ 32 }
    requires some { 0 < cut }
{
    let mut store = Store::new();
    let seen = verified::<H, D>(case, token, cut, &mut store);
    holds(is_expected(alloc, seen, expected), Way::Verify)
}

/// Runs a token that the caller authenticates, in pieces of at most `cut` bytes.
fn run_elsewhere<const H: usize, const D: usize>(
    alloc: Global,
    case: &Case<'_, '_>,
    token: &[u8],
    cut: usize,
    expected: &Value,
) -> Result<(), Difference>
    requires some_room { 16 ≤ H }
    requires limit { H ≤ 65535 }
    requires nesting { D ≤ 32 }
    requires some { 0 < cut }
{
    let mut store = Store::new();
    match stated::<H, D>(case, token, cut, &mut store) {
        Some(seen) => holds(is_expected(alloc, seen, expected), Way::Elsewhere),
        None => Err(Difference::Result(Way::Elsewhere)),
    }
}

/// Runs each prefix of a token that is shorter than this.
fn run_prefixes<const H: usize, const D: usize>(
    case: &Case<'_, '_>,
    token: &[u8],
    length: usize,
) -> Result<(), Difference>
    requires some_room { 16 ≤ H }
    requires limit { H ≤ 65535 }
    requires nesting { D ≤ 32 }
{
    'prefixes: for end in 0..length {
        let prefix = token.get(..end).unwrap_or(&[]);
        holds(is_truncated::<H, D>(case, prefix), Way::Slice)?;
    }
    Ok(())
}

/// Runs a token at a header limit and a nesting, and each prefix that is shorter than an admitted one.
fn run_at<const H: usize, const D: usize>(
    alloc: Global,
    case: &Case<'_, '_>,
    token: &[u8],
    expected: &Value,
) -> Result<(), Difference>
    requires some_room { 16 ≤ H }
    requires limit { H ≤ 65535 }
    requires nesting { D ≤ 32 }
{
    'cuts: for cut in CUTS {
        run_verify::<H, D>(alloc, case, token, cut, expected)?;
        run_elsewhere::<H, D>(alloc, case, token, cut, expected)?;
    }
    if is_verdict(expected, "admitted") {
        return run_prefixes::<H, D>(case, token, integer(expected, "taken") as usize);
    }
    Ok(())
}

/// Runs a token at the limits of its group.
fn run_limits(
    alloc: Global,
    read: &Read<'_>,
    group: &Value,
    expected: &Value,
) -> Result<(), Difference> {
    let case = read.case()?;
    let token = read.token.as_slice();
    match limits(group) {
        (64, 4) => run_at::<64, 4>(alloc, &case, token, expected),
        (1_024, 8) => run_at::<1_024, 8>(alloc, &case, token, expected),
        _ => Err(Difference::Setting),
    }
}

/// Runs a test.
pub fn run_test(alloc: Global, group: &Value, test: &Value) -> Result<(), Difference> {
    let read = Read::read(alloc, group, test);
    run_limits(alloc, &read, group, object(test, "result"))
}
