//! The lines of the messages of a sequence (RFC 8742), each of which is followed at once by the next.

ghost use Rattle.std.specs.Prelude.{◌≡◌, ℕ, Bool, List, Some, IfErr, IfOk, string_bytes};
ghost use Rattle.cose_msg.specs.Answer.{decided};
ghost use Rattle.cose_answers.specs.Part.{HasBytes, IsNextOf, MovesOn, Steps, part_text};
ghost use Rattle.cose_answers.specs.Printed.{Output, Prints};
ghost use Rattle.cose_answers.specs.Sequence.{FailsAfter, FailsInSequence, Reads, is_whole, joined_status, sequence_said};

pub mod messages;
pub mod tokens;

use crate::answers::verdict::CHUNK;
use crate::fault::Fault;
use crate::output::{print, print_fault};
use crate::reply::{Reply, Status};
use cose_msg::{Intake, ReadIntake, Reason, Verdict};
use std::alloc::Global;
use std::io::{BufReader, Read, Write};

/// The most bytes of a message that are taken at once. They come from a buffer, so that no read is for so few.
pub const PIECE: usize = 512;

/// One message of a sequence.
#[derive(Drop)]
pub struct Part {
    /// The lines that it has alone, and how a run with it alone ends.
    pub reply: Reply,
    /// The number of its bytes.
    pub taken: u64,
    /// Whether it was read to its end.
    pub whole: bool,
}

/// Why the next message isn't answered.
#[derive(Clone, Copy)]
pub enum Missing {
    /// A request for memory was refused.
    Memory,
    /// The input failed.
    Input,
}

impl Missing {
    /// The fault of the run.
    fn fault(self) -> Fault {
        match self {
            Missing::Memory => Fault::Memory,
            Missing::Input => Fault::Input,
        }
    }
}

/// Why there is no reply to a message, where this is the fault.
fn missing_by(fault: Fault) -> Missing {
    match fault {
        Fault::Input => Missing::Input,
        _ => Missing::Memory,
    }
}

/// What one step over a sequence did.
#[derive(Clone, Copy)]
pub enum Step {
    /// Nothing: the input has ended.
    Ended,
    /// It printed a message, which the next follows.
    Printed {
        /// The number of its bytes.
        taken: u64,
        /// How a run with it alone ends.
        status: Status,
    },
    /// The run ends so: the next message can't be found, or there is a fault.
    Over(Status),
}

/// What takes the messages of a sequence, one after the other.
///
/// A contract sees how the bytes of a message are read, and what is printed for a message alone.
pub trait Parts {
    ghost reads: { Self → Reads };

    ghost alone: { Self → List ℕ → Output };

    /// The next message of an intake, if there is one. It takes none of the bytes after it.
    fn next<I: Intake>(&mut self, alloc: Global, intake: &mut I) -> Result<Option<Part>, Missing>
        ensures part { (bytes : List ℕ) → I.to_come intake.old ≡ Some bytes →
            IfOk result (IsNextOf (reads self.old) (alone self.old) bytes
            (I.to_come intake.new)) }
        ensures some { IfOk result HasBytes }
        ensures same_reading { reads self.new ≡ reads self.old }
        ensures same_lines { alone self.new ≡ alone self.old };
}

/// How a run ends after a part that ends so, where what follows ends so.
fn joined(first: Status, later: Status) -> Status
    ensures { result ≡ joined_status first later }
{
    match first {
        Status::Done => later,
        Status::Refused | Status::Fault => first,
    }
}

/// Whether a message with this verdict was read to its end.
fn is_read_whole(verdict: Verdict) -> bool
    ensures { result ≡ is_whole (decided verdict) }
{
    match verdict {
        Verdict::Authentic { .. } => true,
        Verdict::Refused(refusal) => matches!(refusal.reason, Reason::BadAuth),
    }
}

/// The lines of a part, after one with its place; and the last line, where the next message can't be found.
fn placed_text(alloc: Global, place: u64, part: &Part) -> Result<String, Fault>
    ensures text { IfOk result (λ text. string_bytes text ≡ part_text place part.now) }
    ensures fault { IfErr result (λ fault. fault ≡ Fault.Memory) }
{
    let lines = part.reply.text.as_str();
    if part.whole {
        let text = format!(in alloc; "at {place}\n{lines}")?;
        return Ok(text);
    }
    let text = format!(in alloc;
        "at {place}\n{lines}ended at {place}: the next message can't be found\n"
    )?;
    Ok(text)
}

/// Writes the lines of the next message, if there is one.
fn print_next<P: Parts, I: Intake, W: Write>(
    alloc: Global,
    place: u64,
    parts: &mut P,
    intake: &mut I,
    output: &mut W,
) -> Step
    ensures step { (bytes : List ℕ) → I.to_come intake.old ≡ Some bytes →
        Steps (P.reads parts.old) (P.alone parts.old) place bytes
        (I.to_come intake.new) (W.contents output.old) (W.contents output.new) result }
    ensures moves { MovesOn result }
    ensures same_reading { P.reads parts.new ≡ P.reads parts.old }
    ensures same_lines { P.alone parts.new ≡ P.alone parts.old }
{
    let part = match parts.next(alloc, intake) {
        Ok(Some(part)) => part,
        Ok(None) => return Step::Ended,
        Err(missing) => return Step::Over(print_fault(alloc, missing.fault(), output)),
    };
    let text = match placed_text(alloc, place, &part) {
        Ok(text) => text,
        Err(fault) => return Step::Over(print_fault(alloc, fault, output)),
    };
    let status = print(output, text.as_str(), part.reply.status);
    match status {
        Status::Fault => Step::Over(Status::Fault),
        _ if part.whole => Step::Printed {
            taken: part.taken,
            status,
        },
        _ => Step::Over(Status::Refused),
    }
}

/// Writes the lines of all messages of an intake, each at its place, and says how the run ends.
pub fn print_all<P: Parts, I: Intake, W: Write>(
    alloc: Global,
    parts: &mut P,
    intake: &mut I,
    output: &mut W,
) -> Status
    ensures prints { (bytes : List ℕ) → I.to_come intake.old ≡ Some bytes →
        Prints (sequence_said (P.reads parts.old) (P.alone parts.old) bytes)
        (W.contents output.old) (W.contents output.new) result }
    ensures fails { (bytes : List ℕ) → I.to_come intake.old ≡ Some bytes → result ≡ Status.Fault →
        FailsAfter (sequence_said (P.reads parts.old) (P.alone parts.old)) bytes
        (W.contents output.old) (W.contents output.new) }
{
    let mut place: u64 = 0;
    let mut status = Status::Done;
    'messages: loop {
        match print_next(alloc, place, parts, intake, output) {
            Step::Ended => return status,
            Step::Over(last) => return last,
            Step::Printed {
                taken,
                status: latest,
            } => {
                status = joined(status, latest);
                place = match place.checked_add(taken) {
                    Some(next) => next,
                    None => return print_fault(alloc, Fault::Input, output),
                };
            }
        }
    }
}

/// Writes the lines of all messages that a reader gives, and says how the run ends. One read serves many messages.
pub fn print_read<P: Parts, R: Read, W: Write>(
    alloc: Global,
    parts: &mut P,
    input: &mut R,
    output: &mut W,
) -> Status
    ensures prints { (bytes : List ℕ) → R.remaining input.old ≡ Some bytes →
        Prints (sequence_said (P.reads parts.old) (P.alone parts.old) bytes)
        (W.contents output.old) (W.contents output.new) result }
    ensures fails { (bytes : List ℕ) → R.remaining input.old ≡ Some bytes → result ≡ Status.Fault →
        FailsInSequence (sequence_said (P.reads parts.old) (P.alone parts.old)) bytes
        (W.contents output.old) (W.contents output.new) }
{
    let reader = match BufReader::with_capacity(alloc, CHUNK, &mut *input) {
        Ok(reader) => reader,
        Err(_) => return print_fault(alloc, Fault::Memory, output),
    };
    let mut intake = ReadIntake::new(reader);
    print_all(alloc, parts, &mut intake, output)
}
