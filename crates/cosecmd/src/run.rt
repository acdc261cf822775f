//! A run of the program: its arguments, what they ask for, and the answer.

ghost use Rattle.std.specs.Prelude.{◌≡◌, ◌≤◌, ◌<◌, ℕ, true, List, Some, map};
ghost use Rattle.cose_text.specs.TextInput.{reader_of};
ghost use Rattle.cosecmd.specs.CommandLine.{Answers, FailsOn, IsAsked};
ghost use Rattle.cosecmd.specs.PayloadTo.{EndsWithFile, KeepsPayload, ReadsNothingBefore};

use crate::arguments::{Parsed, parse, request_of};
use crate::input_form::input_form_of;
use cose_answers::{answer, print, print_fault};
use cose_files::{NamedFiles, NewFiles};
use cose_text::TextInput;
use std::alloc::Global;
use std::io::{Read, Write};

/// Runs the program: `words` are the arguments of the command line, the first of them the program's name. The message,
/// or the payload of which one is made, comes from `input`, whose form the arguments name; every line goes to `output`, a fault's too, and so does a
/// message that is made. The keys come from the arguments, or from the file that an option names, and so does a detached
/// payload, which is read from its file while the message is verified. A payload that is to be kept goes into a new file.
///
/// The exit status is 0 for a message that is authentic, shown or made, or whose digest is printed, and for a token
/// that is admitted (and for help and the version), 1 for a message or a token that is refused, and 2 where there is no
/// answer and no whole message: the command line is wrong, a file of the keys or of the payload can't be read, the keys are
/// refused, a request for memory is refused, or the input or the output fails.
pub fn run_with_files<'a, F: NamedFiles, N: NewFiles, R: Read, W: Write>(
    alloc: Global,
    words: &'a [&'a str],
    files: &F,
    new_files: &mut N,
    input: &mut TextInput<R>,
    output: &mut W,
) -> u8
    ensures status { result ≤ 2 }
    // Whatever the input is, the status is 0 or 1 only where the arguments ask for help or the version, or where a request was
    // read from what clap finds in them.
    ensures asked { result < 2 →
        IsAsked (F.content files.now) (map (λ word. word.now) words.entry.now) }
    // Unless there is a fault, it prints help or the version, which a word of the arguments asks for, or the output for a request
    // that it reads from the options that clap finds in them. So only then the status is 0 or 1.
    ensures printed { (bytes : List ℕ) → R.remaining (reader_of input.old) ≡ Some bytes →
        Answers (F.content files.now) (map (λ word. word.now) words.entry.now) bytes
        (W.contents output.old) (W.contents output.new) result }
    // With status 2 it prints a fault's line, what is wrong with the arguments, or a part of the output, and no more. No line
    // follows what `make` has written of a message. A fault's line may follow what is printed for the first messages of a
    // sequence.
    ensures fails { (bytes : List ℕ) → R.remaining (reader_of input.old) ≡ Some bytes → result ≡ 2 →
        FailsOn (F.content files.now) (map (λ word. word.now) words.entry.now) bytes
        (W.contents output.old) (W.contents output.new) }
    // Where the arguments name a new file, it is kept after an accepting answer, and after any other it has no name, unless the
    // system doesn't remove it. No other file is made.
    ensures new_file { EndsWithFile (map (λ word. word.now) words.entry.now)
        (N.made new_files.old) (N.made new_files.new) result }
    // The file that is kept holds exactly the payload, where what is written to files is known.
    ensures payload { (bytes : List ℕ) → R.remaining (reader_of input.old) ≡ Some bytes →
        N.is_known ≡ true →
        KeepsPayload (F.content files.now) (map (λ word. word.now) words.entry.now) bytes
        (N.made new_files.new) result }
    // Where it isn't made, as where its name exists, nothing of the input is read.
    ensures unread { ReadsNothingBefore (map (λ word. word.now) words.entry.now)
        (N.made new_files.old) (N.made new_files.new) (reader_of input.old)
        (reader_of input.new) result }
{
    match parse(alloc, words) {
        Ok(Parsed::Matches(matches)) => match request_of(alloc, files, &matches) {
            Ok(request) => {
                input.read_as(input_form_of(&matches));
                answer(alloc, files, new_files, &request, input, output)
            }
            Err(fault) => print_fault(alloc, fault, output).code(),
        },
        Ok(Parsed::Text(reply)) => print(output, reply.text.as_str(), reply.status).code(),
        Err(fault) => print_fault(alloc, fault, output).code(),
    }
}
