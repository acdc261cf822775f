//! The message that the command `make` makes, which is written as it is made.

ghost use Rattle.std.specs.Prelude.{◌≡◌, ◌≤◌, ◌⊎◌, ℕ, List, Some, IfOk, length as length_of, option_map};
ghost use Rattle.cose_map.specs.Key.{key_of};
ghost use Rattle.cose_map.specs.Key.View.{contents};
ghost use Rattle.cose_answers.specs.Requests.{made_for};
ghost use Rattle.cose_answers.specs.Faults.{WritesLine, fault_in, fault_of_making, making_fault};
ghost use Rattle.cose_answers.specs.MakeStops.{LeavesPrefix, StopsMaking};
ghost use Rattle.cose_answers.specs.Printed.{EndsWith, Prints, made_under};

use crate::answers::checks::slice_of;
use crate::fault::Fault;
use crate::input::Input;
use crate::output::print_fault;
use crate::reply::Status;
use crate::request::Make;
use crate::write_sink::WriteSink;
use cose_msg::{Alg, Key, MakeFault, make_mac0};
use std::alloc::Global;
use std::io::{Read, Write};

/// The most bytes of a payload that are taken at once.
const CHUNK: usize = 4_096;

/// Makes a message of the first `length` bytes of the input, and writes it. What follows them is left unread.
///
/// A fault is found before anything is read or written, and its line is still to be printed. Where the input or the
/// output fails later, or the input is too short, the run ends with a fault, and no line follows what was written. Not inlined:
/// nothing else is to take the stack for its chunk.
#[inline(never)]
fn make_message<R: Read, W: Write>(
    alg: Alg,
    key: &[u8],
    kid: Option<&[u8]>,
    aad: &[u8],
    length: u64,
    input: &mut R,
    output: &mut W,
) -> Result<Status, Fault>
    ensures makes { (bytes : List ℕ) → R.remaining input.old ≡ Some bytes →
        IfOk result
        (Prints (made_under (key_of (record { bytes = key.now; place = 0 })) alg length
        (option_map contents kid.entry) aad.now bytes) (W.contents output.old)
        (W.contents output.new)) }
    ensures fault { fault_in result ≡
        fault_of_making (key_of (record { bytes = key.now; place = 0 })) alg
        (option_map contents kid.entry) aad.now length }
    // Where it stops later, it has written a prefix of the message, and no line after it.
    ensures stops { (bytes : List ℕ) → R.remaining input.old ≡ Some bytes →
        IfOk result (λ status. status ≡ Status.Fault →
        LeavesPrefix (made_under (key_of (record { bytes = key.now; place = 0 })) alg length
        (option_map contents kid.entry) aad.now) bytes (W.contents output.old)
        (W.contents output.new)) }
    // Before it nothing is read or written.
    ensures unread { (fault : Fault) → fault_in result ≡ Some fault → input.new ≡ input.old }
    ensures unwritten { (fault : Fault) → fault_in result ≡ Some fault
        → W.contents output.new ≡ W.contents output.old }
{
    let key = match Key::read(key, 0) {
        Ok(key) => key,
        Err(refusal) => return Err(Fault::Key(refusal)),
    };
    let mut intake = Input::new(input);
    let mut sink = WriteSink::new(output);
    let made = make_mac0::<CHUNK, _, _>(alg, &key, kid, aad, &mut intake, length, &mut sink);
    // The output holds in the end what the sink's writer holds, and of the input is left what is left of the intake's
    // reader. The proof reads it from these uses, which have no run-time effect.
    let writer = sink.into_writer();
    let _ = &*writer;
    let reader = intake.into_reader();
    let _ = &*reader;
    match made {
        Ok(_) => Ok(Status::Done),
        Err(MakeFault::WrongKey) => Err(Fault::WrongKey),
        Err(MakeFault::TooLong) => Err(Fault::TooLong),
        Err(MakeFault::ShortPayload | MakeFault::Intake | MakeFault::Sink) => Ok(Status::Fault),
    }
}

/// Makes a message of the payload on the input, and writes it, or the line of the fault of the request.
pub fn answer_make<R: Read, W: Write>(
    alloc: Global,
    words: &Make,
    input: &mut R,
    output: &mut W,
) -> u8
    ensures status { result ≤ 2 }
    ensures printed { (bytes : List ℕ) → R.remaining input.old ≡ Some bytes →
        EndsWith (made_for words.now bytes) (W.contents output.old) (W.contents output.new) result }
    // With status 2 it prints a fault's line alone, or a prefix of the message, which no line follows.
    ensures stops { (bytes : List ℕ) → R.remaining input.old ≡ Some bytes → result ≡ 2 →
        StopsMaking (made_for words.now) bytes (W.contents output.old) (W.contents output.new) }
    // Where the key or another argument is at fault, it reads nothing, and prints the line of this fault, unless there is no memory
    // for it.
    ensures unread { (fault : Fault) → making_fault words.now ≡ Some fault
        → input.new ≡ input.old }
    ensures line { (fault : Fault) → making_fault words.now ≡ Some fault → (result ≡ 2)
        × (WritesLine fault (W.contents output.old) (W.contents output.new)
        ⊎ WritesLine Fault.Memory (W.contents output.old) (W.contents output.new)) }
{
    let key = words.key.as_slice();
    let kid = slice_of(&words.kid);
    let aad = words.aad.as_slice();
    match make_message(words.alg, key, kid, aad, words.length, input, output) {
        Ok(status) => status.code(),
        Err(fault) => print_fault(alloc, fault, output).code(),
    }
}
