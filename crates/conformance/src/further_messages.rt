//! Messages whose signature the caller verifies.

ghost use Rattle.std.specs.Prelude.{◌≤◌};

use crate::expected::Refused;
use crate::fields::{
    Difference, Way, boolean, bytes, holds, integer, is_verdict, limits, object, optional_bytes,
};
use crate::setting::{Setting, is_alg};
use crate::streams::Comparison;
use cose_msg::{
    Context, FrontPieces, FurtherAlg, FurtherAsk, FurtherVerified, FurtherVerifier, OkpKey, Reason,
    Refusal, ask_further, ask_further_detached, verify_further, verify_further_detached,
};
use serde_json::Value;
use std::alloc::Global;

/// Says the same of every signature.
#[derive(Clone, Copy)]
struct Says(bool);

impl FurtherVerifier for Says {
    ghost decides = { λ says _ _ _ _. says.0 };

    fn holds(
        &self,
        _key: &OkpKey<'_>,
        _alg: FurtherAlg,
        _front: &FrontPieces<'_>,
        _payload: &[u8],
        _signature: &[u8],
    ) -> bool {
        self.0
    }
}

/// A message with what is expected of it.
#[derive(Drop)]
struct Case<'v> {
    message: Vec<u8>,
    /// The payload, where it is detached.
    detached: Option<Vec<u8>>,
    /// The public key, the structure and the signature of which the caller's verifier is asked.
    x: Vec<u8>,
    structure: Vec<u8>,
    signature: Vec<u8>,
    /// Whether the signature is good, where it is asked.
    answer: Option<bool>,
    expected: &'v Value,
    /// The payload of an authentic message.
    payload: Vec<u8>,
}

impl<'v> Case<'v> {
    /// The message of a test.
    fn read(alloc: Global, test: &'v Value) -> Self {
        let expected = object(test, "result");
        Case {
            message: bytes(alloc, test, "message"),
            detached: optional_bytes(alloc, test, "payload"),
            x: bytes(alloc, test, "x"),
            structure: bytes(alloc, test, "structure"),
            signature: bytes(alloc, test, "signature"),
            answer: boolean(test, "holds"),
            expected,
            payload: bytes(alloc, expected, "payload"),
        }
    }

    /// The payload, where it is detached.
    fn detached(&self) -> Option<&[u8]> {
        self.detached.as_ref().map(Vec::as_slice)
    }

    /// Whether the message is authentic.
    fn is_authentic(&self) -> bool {
        is_verdict(self.expected, "authentic")
    }

    /// Whether this is the expected result.
    fn is(&self, verified: FurtherVerified<'_>) -> bool {
        match verified {
            FurtherVerified::Authentic { alg, payload } => {
                self.is_authentic()
                    && is_alg(self.expected, alg.number())
                    && payload == self.payload.as_slice()
            }
            FurtherVerified::Refused(refusal) => {
                !self.is_authentic() && Refused::read(self.expected).is(refusal)
            }
        }
    }

    /// Whether the key of an authentic message stands where it is expected.
    fn is_place(&self, place: u64) -> bool {
        !self.is_authentic() || place == integer(self.expected, "index")
    }

    /// Whether what is asked is what is expected: the key and its place, the structure and the signature.
    fn asks(&self, ask: &FurtherAsk<'_>) -> bool {
        let mut structure = Comparison::new(self.structure.as_slice());
        for index in 0..FrontPieces::COUNT {
            structure.compare(ask.front.piece(index));
        }
        structure.compare(ask.payload);
        let is_key = ask.key.x == self.x.as_slice() && self.is_place(ask.place as u64);
        is_key && structure.is_whole() && ask.signature == self.signature.as_slice()
    }

    /// Whether asking, and then what the row says of the signature, gives what is expected.
    fn is_asked(&self, asked: Result<FurtherAsk<'_>, Refusal>) -> bool {
        match (asked, self.answer) {
            (Ok(ask), Some(answer)) => self.asks(&ask) && self.is(ask.answer(answer)),
            (Err(refusal), None) => self.is(FurtherVerified::Refused(refusal)),
            _ => false,
        }
    }
}

/// What these bytes are, where the verifier says this of every signature.
fn verified<'c, const H: usize, const D: usize>(
    context: &Context<'c>,
    detached: Option<&'c [u8]>,
    message: &'c [u8],
    answer: bool,
) -> FurtherVerified<'c>
    requires nesting { D ≤ 32 }
{
    match detached {
        Some(payload) => {
            verify_further_detached::<H, D, Says>(context, payload, message, &Says(answer))
        }
        None => verify_further::<H, D, Says>(context, message, &Says(answer)),
    }
}

/// Whether each shorter prefix of an authentic message is Truncated at its end.
fn has_truncated_prefixes<'c, const H: usize, const D: usize>(
    context: &Context<'c>,
    case: &'c Case<'_>,
) -> bool
    requires nesting { D ≤ 32 }
{
    'prefixes: for end in 0..case.message.len() {
        let truncated = FurtherVerified::Refused(Refusal {
            reason: Reason::Truncated,
            place: end as u64,
        });
        let prefix = case.message.as_slice().get(..end).unwrap_or(&[]);
        if verified::<H, D>(context, case.detached(), prefix, true) != truncated {
            return false;
        }
    }
    true
}

/// Whether a caller that is asked about the signature gets what is expected.
fn is_elsewhere<'c, const H: usize, const D: usize>(
    context: &Context<'c>,
    case: &'c Case<'_>,
) -> bool
    requires nesting { D ≤ 32 }
{
    let message = case.message.as_slice();
    let asked = match case.detached() {
        Some(payload) => ask_further_detached::<H, D>(context, payload, message),
        None => ask_further::<H, D>(context, message),
    };
    case.is_asked(asked)
}

/// Whether a verifier that says what the row says gives what is expected.
fn is_verified<'c, const H: usize, const D: usize>(
    context: &Context<'c>,
    case: &'c Case<'_>,
) -> bool
    requires nesting { D ≤ 32 }
{
    let answer = case.answer != Some(false);
    case.is(verified::<H, D>(context, case.detached(), case.message.as_slice(), answer))
}

/// Runs a message at a header limit and a nesting.
fn run_at<'c, const H: usize, const D: usize>(
    context: &Context<'c>,
    case: &'c Case<'_>,
) -> Result<(), Difference>
    requires nesting { D ≤ 32 }
{
    holds(is_elsewhere::<H, D>(context, case), Way::Elsewhere)?;
    holds(is_verified::<H, D>(context, case), Way::Slice)?;
    if case.is_authentic() {
        return holds(has_truncated_prefixes::<H, D>(context, case), Way::Slice);
    }
    Ok(())
}

/// Runs a message at the limits of its group.
fn run_limits<'c>(
    setting: &'c Setting<'_>,
    group: &Value,
    case: &'c Case<'_>,
) -> Result<(), Difference> {
    let context = setting.context(setting.set()?);
    match limits(group) {
        (16, 1) => run_at::<16, 1>(&context, case),
        (1_024, 4) => run_at::<1_024, 4>(&context, case),
        _ => Err(Difference::Setting),
    }
}

/// Runs a test.
pub fn run_test(alloc: Global, group: &Value, test: &Value) -> Result<(), Difference> {
    let setting = Setting::read(alloc, group);
    let case = Case::read(alloc, test);
    run_limits(&setting, group, &case)
}
