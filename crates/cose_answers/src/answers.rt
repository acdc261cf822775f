//! What the program answers to a request, over any reader and writer.

ghost use Rattle.std.specs.Prelude.{◌≡◌, ◌≤◌, ℕ, true, false, List, Option, Some, None, IfOk};
ghost use Rattle.cose_files.specs.NewFile.{content_of};
ghost use Rattle.cose_answers.specs.Requests.{asked_for, is_sequence, makes, payload_for};
ghost use Rattle.cose_answers.specs.MakeStops.{StopsMaking};
ghost use Rattle.cose_answers.specs.PayloadTo.{Settles, kept_under, new_file_for, payload_under};
ghost use Rattle.cose_answers.specs.Printed.{EndsWith, Fails, Output, Says};
ghost use Rattle.cose_answers.specs.Sequence.{FailsInSequence};
ghost use Rattle.cose_answers.specs.Under.{Under};

mod checks;
mod cwt;
mod headers;
mod keys;
mod make;
mod message;
mod payload_to;
mod sequence;
mod show;
mod unmet;
mod verdict;
mod words;

use crate::fault::Fault;
use crate::output::print_reply;
use crate::reply::Reply;
use crate::request::Request;
use cose_files::{NamedFiles, NewFiles};
use cwt::cwt_reply;
use keys::listing_reply;
use make::answer_make;
use message::message_reply;
use payload_to::answer_with_payload_to;
use sequence::messages::print_verified;
use sequence::tokens::print_admitted;
use show::show_reply;
use std::alloc::Global;
use std::io::{Read, Write};

/// Writes the text of a reply, or the line of a fault, and returns the exit status.
fn end_with<W: Write>(alloc: Global, reply: Result<Reply, Fault>, output: &mut W) -> u8
    ensures status { result ≤ 2 }
    ensures printed { (said : Output) → IfOk reply (Says said)
        → EndsWith said (W.contents output.old) (W.contents output.new) result }
    ensures fails { (said : Output) → IfOk reply (Says said) → result ≡ 2
        → Fails said (W.contents output.old) (W.contents output.new) }
{
    print_reply(alloc, reply, output).code()
}

/// Does what the request asks for: it reads the message or the payload from `input`, and writes the lines, or the message that is
/// made, to `output`.
///
/// After an accepted message, and after an admitted token, it reads once more: a further byte is `Trailing` at the end of the
/// message. Of a sequence a message takes the bytes up to its end and none after it, where the next begins (RFC 8742). After the
/// payload of `make` it reads nothing. To list keys for a message it reads at most the first 131,124 bytes, which have the headers.
/// It returns the exit status: 0 for a message that is authentic, shown or made, or whose digest is printed, and for a token that is
/// admitted; 1 for a message or a token that is refused; 2 where the key or the key set is refused, a request for memory is refused,
/// the input or the output fails, or a message can't be made.
///
/// With status 2 it writes one line that names the fault, or a prefix of it where the output fails. `make` writes no line once the
/// first byte of the message was written: its output is then a prefix of the message.
pub fn answer<F: NamedFiles, N: NewFiles, R: Read, W: Write>(
    alloc: Global,
    files: &F,
    new_files: &mut N,
    request: &Request,
    input: &mut R,
    output: &mut W,
) -> u8
    ensures status { result ≤ 2 }
    // Unless there is a fault, it prints the output for this request, for the payload that it names, if any, and for
    // all that the reader gives, and ends with its status.
    ensures printed { (bytes : List ℕ) (payload : Option (List ℕ))
        → R.remaining input.old ≡ Some bytes →
        payload_for (F.content files.now) request.entry.now ≡ Some payload →
        EndsWith (asked_for request.entry.now payload bytes) (W.contents output.old)
        (W.contents output.new) result }
    // With status 2 it prints a fault's line, or a part of the output; `make` may have begun its message.
    ensures fails { (bytes : List ℕ) (payload : Option (List ℕ))
        → R.remaining input.old ≡ Some bytes →
        payload_for (F.content files.now) request.entry.now ≡ Some payload →
        makes request.entry.now ≡ false →
        is_sequence request.entry.now ≡ false → result ≡ 2 →
        Fails (asked_for request.entry.now payload bytes) (W.contents output.old)
        (W.contents output.new) }
    // `make` prints a fault's line alone, or a prefix of the message, which no line follows.
    ensures stops { (bytes : List ℕ) → R.remaining input.old ≡ Some bytes →
        makes request.entry.now ≡ true → result ≡ 2 →
        StopsMaking (asked_for request.entry.now None) bytes (W.contents output.old)
        (W.contents output.new) }
    // What becomes of the new file that the request names; where it names none, none is made.
    ensures settled { (name : List ℕ) → new_file_for request.entry.now ≡ Some name →
        Settles name (N.made new_files.old) (N.made new_files.new) result }
    ensures unnamed { new_file_for request.entry.now ≡ None → new_files.new ≡ new_files.old }
    ensures payload { (under : Under) (bytes : List ℕ) →
        kept_under request.entry.now ≡ Some under → R.remaining input.old ≡ Some bytes →
        N.is_known ≡ true → result ≡ 0 →
        content_of (N.made new_files.new) ≡ Some (payload_under under bytes) }
    // Where it isn't made, nothing of the input is read.
    ensures unmade { (name : List ℕ) → new_file_for request.entry.now ≡ Some name →
        (N.made new_files.new).file ≡ (N.made new_files.old).file →
        (input.new ≡ input.old) × (result ≡ 2) }
    ensures sequence { (bytes : List ℕ) → R.remaining input.old ≡ Some bytes →
        is_sequence request.entry.now ≡ true → result ≡ 2 →
        FailsInSequence (asked_for request.entry.now None) bytes (W.contents output.old)
        (W.contents output.new) }
{
    match request {
        Request::Show {
            limits,
            wanted,
            details,
        } => {
            let reply = show_reply(alloc, *limits, *wanted, *details, input);
            end_with(alloc, reply, output)
        }
        Request::Message {
            question,
            checks,
            payload,
        } => {
            let reply = message_reply(alloc, files, question, checks, payload, input);
            end_with(alloc, reply, output)
        }
        Request::Keep { checks, name } => {
            answer_with_payload_to(alloc, checks, new_files, name, input, output)
        }
        Request::MessageSequence(checks) => print_verified(alloc, checks, input, output).code(),
        Request::Cwt(words) => {
            let reply = cwt_reply(alloc, words, input);
            end_with(alloc, reply, output)
        }
        Request::TokenSequence(words) => print_admitted(alloc, words, input, output).code(),
        Request::Keys(words) => {
            let reply = listing_reply(alloc, words, input);
            end_with(alloc, reply, output)
        }
        Request::Make(words) => answer_make(alloc, words, input, output),
    }
}
