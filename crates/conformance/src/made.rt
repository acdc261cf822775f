//! COSE_Mac0 messages that are made.

ghost use Rattle.std.specs.Prelude.{◌≤◌};

use crate::fields::{
    Difference, Way, bytes, holds, integer, object, optional_bytes, payload_length, text,
};
use crate::macs::algorithm;
use crate::streams::Comparison;
use cose_msg::{Alg, Intake, Key, MakeFault, SliceIntake, make_mac0};
use serde_json::Value;
use std::alloc::Global;

/// What a message is made of, but for the key, and what is expected.
#[derive(Drop)]
struct Case<'v> {
    alg: Alg,
    kid: Option<Vec<u8>>,
    aad: Vec<u8>,
    payload: Vec<u8>,
    /// The stated length of the payload.
    length: u64,
    /// The name of the fault, where there is one.
    fault: Option<&'v str>,
    /// The message, or what was written of it before the fault.
    message: Vec<u8>,
    /// How many bytes of the payload are not taken.
    left: u64,
}

impl<'v> Case<'v> {
    /// What a test says, of a message by this algorithm with a payload of this length.
    fn read(alloc: Global, alg: Alg, length: u64, test: &'v Value) -> Self {
        let result = object(test, "result");
        Case {
            alg,
            kid: optional_bytes(alloc, test, "kid"),
            aad: bytes(alloc, test, "aad"),
            payload: bytes(alloc, test, "payload"),
            length,
            fault: fault_of(result),
            message: bytes(alloc, result, "message"),
            left: integer(result, "left"),
        }
    }

    /// The bytes of the payload that are not taken.
    fn left(&self) -> &[u8] {
        let taken = (self.payload.len() as u64).saturating_sub(self.left);
        self.payload.as_slice().get(taken as usize..).unwrap_or(&[])
    }

    /// Whether this is how making the message ends.
    fn is(&self, made: Result<u64, MakeFault>) -> bool {
        match (made, self.fault) {
            (Ok(count), None) => count == self.message.len() as u64,
            (Err(fault), Some(name)) => name == name_of(fault),
            _ => false,
        }
    }
}

/// The name of a fault.
fn name_of(fault: MakeFault) -> &'static str {
    match fault {
        MakeFault::ShortPayload => "ShortPayload",
        MakeFault::WrongKey => "WrongKey",
        MakeFault::Intake => "Intake",
        MakeFault::Sink => "Sink",
        MakeFault::TooLong => "TooLong",
    }
}

/// Whether these bytes are left in an intake.
fn are_left(intake: &mut SliceIntake<'_>, left: &[u8]) -> bool {
    let mut rest = Comparison::new(left);
    let mut piece = [0; 64];
    for _i in 0..=left.len() {
        match intake.take(&mut piece) {
            Ok(0) => return rest.is_whole(),
            Ok(count) => rest.compare(&piece[..count]),
            Err(_) => return false,
        }
    }
    false
}

/// Whether `make_mac0` gives what is expected where the payload comes in chunks of at most `C` bytes.
fn is_made<const C: usize>(key: &Key<'_>, case: &Case<'_>) -> bool
    requires some { 1 ≤ C }
    requires limit { C ≤ 65536 }
{
    let mut intake = SliceIntake::new(case.payload.as_slice(), C);
    let mut message = Comparison::new(case.message.as_slice());
    let made = make_mac0::<C, _, _>(
        case.alg,
        key,
        case.kid.as_ref().map(Vec::as_slice),
        case.aad.as_slice(),
        &mut intake,
        case.length,
        &mut message,
    );
    case.is(made) && message.is_whole() && are_left(&mut intake, case.left())
}

/// The name of the fault that is expected, where one is.
fn fault_of(row: &Value) -> Option<&str> {
    match text(row, "verdict") {
        "message" => None,
        _ => Some(text(row, "fault")),
    }
}

/// Runs a test under a key.
fn run_key(key: &[u8], case: &Case<'_>) -> Result<(), Difference> {
    let Ok(key) = Key::read(key, 0) else {
        return Err(Difference::Setting);
    };
    holds(
        is_made::<1>(&key, case) && is_made::<64>(&key, case),
        Way::Verify,
    )
}

/// Runs a test.
pub fn run_test(alloc: Global, group: &Value, test: &Value) -> Result<(), Difference> {
    let (Some(alg), Some(length)) = (algorithm(test), payload_length(test)) else {
        return Err(Difference::Setting);
    };
    let key = bytes(alloc, group, "key");
    let case = Case::read(alloc, alg, length, test);
    run_key(key.as_slice(), &case)
}
