//! COSE_Sign1 messages that are made.

ghost use Rattle.std.specs.Prelude.{◌<◌};

use crate::fields::{
    Difference, Way, bytes, holds, integer, object, optional_bytes, payload_length, text,
};
use crate::macs::algorithm;
use crate::streams::Comparison;
use cose_msg::{Alg, Sign1Maker, SignFault, Sink};
use serde_json::Value;
use std::alloc::Global;

/// What a message is made of, and what is expected.
#[derive(Drop)]
struct Case<'v> {
    alg: Alg,
    kid: Option<Vec<u8>>,
    aad: Vec<u8>,
    payload: Vec<u8>,
    /// The stated length of the payload.
    length: u64,
    signature: Vec<u8>,
    /// The digest to sign, where the message is made.
    digest: Vec<u8>,
    /// The message, or what was written of it before the fault.
    message: Vec<u8>,
    /// The name of the fault, where there is one.
    fault: Option<&'v str>,
    /// The bytes of the payload that are not taken.
    left: u64,
}

impl<'v> Case<'v> {
    /// What a test says, of a message by this algorithm with a payload of this length.
    fn read(alloc: Global, alg: Alg, length: u64, test: &'v Value) -> Self {
        let result = object(test, "result");
        Case {
            alg,
            kid: optional_bytes(alloc, test, "kid"),
            aad: bytes(alloc, test, "aad"),
            payload: bytes(alloc, test, "payload"),
            length,
            signature: bytes(alloc, test, "signature"),
            digest: bytes(alloc, result, "digest"),
            message: bytes(alloc, result, "message"),
            fault: fault_of(result),
            left: integer(result, "left"),
        }
    }

    /// The identifier of the key.
    fn kid(&self) -> Option<&[u8]> {
        self.kid.as_ref().map(Vec::as_slice)
    }

    /// Whether this is how making the message ends: with the digest to sign or not, or with a fault.
    fn is(&self, made: Result<bool, SignFault>) -> bool {
        match (made, self.fault) {
            (Ok(is_digest), None) => is_digest,
            (Err(fault), Some(name)) => name == name_of(fault),
            _ => false,
        }
    }
}

/// The name of a fault.
fn name_of(fault: SignFault) -> &'static str {
    match fault {
        SignFault::ShortPayload => "ShortPayload",
        SignFault::WrongAlgorithm => "WrongAlgorithm",
        SignFault::WrongSignature => "WrongSignature",
        SignFault::Sink => "Sink",
        SignFault::TooLong => "TooLong",
    }
}

/// Passes the payload on in pieces of at most `cut` bytes, and returns how many bytes were taken.
fn pass(maker: &mut Sign1Maker, payload: &[u8], cut: usize, message: &mut Comparison<'_>) -> u64
    requires { 0 < cut }
{
    let mut taken = 0u64;
    for piece in payload.chunks(cut) {
        let count = maker.update(piece);
        message.compare(piece.get(..count).unwrap_or(piece));
        taken = taken.saturating_add(count as u64);
    }
    taken
}

/// How a message ends whose payload was passed on.
fn ended(
    maker: Sign1Maker,
    case: &Case<'_>,
    message: &mut Comparison<'_>,
) -> Result<bool, SignFault> {
    let unsigned = match maker.finish() {
        Ok(unsigned) => unsigned,
        Err(fault) => return Err(fault),
    };
    match unsigned.end(case.signature.as_slice(), message) {
        Ok(_) => Ok(unsigned.digest() == case.digest.as_slice()),
        Err(fault) => Err(fault),
    }
}

/// How a message ends that is made in these pieces: the number of bytes that aren't taken, and the fault, where there is one.
fn made(case: &Case<'_>, cut: usize, message: &mut Comparison<'_>) -> (u64, Result<bool, SignFault>)
    requires { 0 < cut }
{
    let payload = case.payload.as_slice();
    let all = payload.len() as u64;
    let aad = case.aad.as_slice();
    match Sign1Maker::begin(case.alg, case.kid(), aad, case.length, message) {
        Ok(mut maker) => {
            let left = all.saturating_sub(pass(&mut maker, payload, cut, message));
            (left, ended(maker, case, message))
        }
        Err(fault) => (all, Err(fault)),
    }
}

/// Whether the result is the expected one where the payload comes in pieces of at most `cut` bytes.
fn is_made(case: &Case<'_>, cut: usize) -> bool
    requires { 0 < cut }
{
    let mut message = Comparison::new(case.message.as_slice());
    let (left, made) = made(case, cut, &mut message);
    case.is(made) && message.is_whole() && left == case.left
}

/// The name of the fault that is expected, where one is.
fn fault_of(row: &Value) -> Option<&str> {
    match text(row, "verdict") {
        "message" => None,
        _ => Some(text(row, "fault")),
    }
}

/// Runs a test.
pub fn run_test(alloc: Global, test: &Value) -> Result<(), Difference> {
    let (Some(alg), Some(length)) = (algorithm(test), payload_length(test)) else {
        return Err(Difference::Setting);
    };
    let case = Case::read(alloc, alg, length, test);
    let holds_in_all = is_made(&case, 1) && is_made(&case, 7) && is_made(&case, 64);
    holds(holds_in_all, Way::Feed)
}
