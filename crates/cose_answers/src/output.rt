//! Texts that are written whole.

ghost use Rattle.std.specs.Prelude.{◌≡◌, ◌≢◌, ◌⊎◌, IfOk, false, true};
ghost use Rattle.std.specs.Io.KnownBytes.{Appends};
ghost use Rattle.cose_msg.specs.Sink.{AppendsFront};
ghost use Rattle.cose_answers.specs.Faults.{WritesLine};
ghost use Rattle.cose_answers.specs.Printed.{Fails, Output, Prints, Says, WritesPart};

use crate::fault::Fault;
use crate::reply::{Reply, Status};
use std::alloc::Global;
use std::io::{ErrorKind, Write};

/// Writes bytes by as many writes as it takes, and returns whether all are written. A write that is interrupted is tried
/// again, as `write_all` does; any other error ends it, and so does a write that takes no byte.
fn write_bytes<W: Write>(output: &mut W, bytes: &[u8]) -> bool
    ensures whole { result ≡ true
        → Appends (W.contents output.old) (W.contents output.new) bytes.now }
    ensures part { result ≡ false
        → WritesPart bytes.now (W.contents output.old) (W.contents output.new) }
{
    let mut rest = bytes;
    let mut interruptions_left = u64::MAX;
    'bytes: while !rest.is_empty() {
        match output.write(rest) {
            Ok(0) => return false,
            Ok(count) => {
                let (_written, unwritten) = rest.split_at(count);
                rest = unwritten;
            }
            Err(error) => {
                if error.kind() != ErrorKind::Interrupted || interruptions_left == 0 {
                    return false;
                }
                interruptions_left -= 1;
            }
        }
    }
    true
}

/// Writes a text whole, and returns how the run ends: with the status of the text, or with a fault where the writer
/// failed.
#[tactic(auto, using(crate::proofs::lemmas::Payloads::WrittenPieces::whole_front, crate::proofs::lemmas::Payloads::WrittenPieces::part_front))]
pub fn print<W: Write>(output: &mut W, text: &str, status: Status) -> Status
    ensures status { result ≢ Status.Fault → result ≡ status }
    ensures written { result ≢ Status.Fault
        → Appends (W.contents output.old) (W.contents output.new) text.now }
    // With a fault all of the text is written only where this is its status.
    ensures part { result ≡ Status.Fault
        → WritesPart text.now (W.contents output.old) (W.contents output.new)
        ⊎ ((status ≡ Status.Fault)
        × Appends (W.contents output.old) (W.contents output.new) text.now) }
    ensures front { AppendsFront (W.contents output.old) (W.contents output.new) text.now }
{
    if write_bytes(output, text.as_bytes()) {
        return status;
    }
    Status::Fault
}

/// Writes the line of a fault. Where there is no memory for the line, the fault is that.
pub fn print_fault<W: Write>(alloc: Global, fault: Fault, output: &mut W) -> Status
    ensures status { result ≡ Status.Fault }
    ensures line { WritesLine fault (W.contents output.old) (W.contents output.new)
        ⊎ WritesLine Fault.Memory (W.contents output.old) (W.contents output.new) }
{
    match format!(in alloc; "{fault}\n") {
        Ok(text) => print(output, text.as_str(), Status::Fault),
        Err(_) => print(output, "fault memory\n", Status::Fault),
    }
}

/// Writes the text of a reply, or the line of a fault.
pub fn print_reply<W: Write>(alloc: Global, reply: Result<Reply, Fault>, output: &mut W) -> Status
    ensures prints { (said : Output) → IfOk reply (Says said)
        → Prints said (W.contents output.old) (W.contents output.new) result }
    ensures fails { (said : Output) → IfOk reply (Says said) → result ≡ Status.Fault
        → Fails said (W.contents output.old) (W.contents output.new) }
{
    match reply {
        Ok(Reply { status, text }) => print(output, text.as_str(), status),
        Err(fault) => print_fault(alloc, fault, output),
    }
}
