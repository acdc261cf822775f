//! The program `cosecmd`: verifies COSE messages (RFC 9052) and CBOR Web Tokens (RFC 8392), and makes COSE_Mac0.
//! HMAC is computed here; for ECDSA (ES256, ES384, ES512, ESP256, ESP384, ESP512) the digest is computed, and `--vouch`
//! decides; no curve arithmetic is included.
#![tactic(auto)]

ghost use Rattle.std.specs.Prelude.{◌≡◌};
ghost use Rattle.std.specs.Process.{exit_status};

mod allowed;
mod arguments;
mod files;
mod input_form;
mod labels;
mod requirements;
mod run;

use allowed::wrong_part;
use cose_hints::{
    Ended, Form, Noted, NotedFiles, NotedNewFiles, advice_on_wrong_text, first_bytes, hold_closed,
    is_text, name_of, other_form, reads_input, say_of_arguments,
};
use cose_text::{InputForm, TextFault, TextInput};
use input_form::form_named_in;
use run::run_with_files;
use std::alloc::{AllocError, Global};
use std::io::{ErrorKind, IsTerminal, Read, Write};
use std::process::ExitCode;
use std::rt::Env;
use std::{env, io};

/// How many bytes are looked at that an input stands for.
const DECODED: usize = 512;

/// The arguments of the command line, each of them UTF-8.
fn owned_words(rt: &(impl Env + Alloc<A = Global>)) -> io::Result<Vec<String>> {
    let args = env::args(rt)?;
    let mut words = Vec::with_capacity(rt.alloc(), args.len())?;
    for word in args {
        words.push(word)?;
    }
    Ok(words)
}

/// The arguments as `run_with_files` takes them.
fn borrowed_words(alloc: Global, owned: &[String]) -> Result<Vec<&str>, AllocError> {
    let mut words = Vec::with_capacity(alloc, owned.len())?;
    for word in owned {
        words.push(word.as_str())?;
    }
    Ok(words)
}

/// Writes what is wrong with the arguments before they are parsed.
fn complain<W: Write>(output: &mut W, text: &str) -> ExitCode
    ensures { exit_status result ≡ 2 }
{
    let _ = output.write_all(text.as_bytes());
    ExitCode::from(2)
}

/// Says on standard error which part of the list of algorithms is no number of one, where the list was refused. Its text isn't
/// repeated: it may be a key that lacks its option.
fn say_of_algorithms(rt: &HostRuntime, ended: &Ended) {
    if let Some(list) = ended.refused_algorithms() {
        if let Some(part) = wrong_part(list) {
            let _ = eprintln!(rt;
                "cosecmd: --algs takes numbers of algorithms, joined by commas; its part {part} is none"
            );
        }
    }
}

/// Says on standard error what the text on standard output doesn't say after this run: of another command than `make` the form
/// of the text that the input begins as, where no message is accepted, and advice; of `make`, whose output was to be a message,
/// what it printed in its place too.
fn say_more(rt: &HostRuntime, ended: &Ended, form: Option<Form>, complaint: Option<&[u8]>) {
    if ended.is_of("make") {
        if let (2, Some(complaint)) = (ended.status, complaint) {
            let _ = rt.stderr().write_all(complaint);
        }
    } else if let (1 | 2, Some(form)) = (ended.status, form) {
        let (name, advice) = (form.name(), form.advice());
        let _ = eprintln!(rt; "cosecmd: standard input begins as {name} does; {advice}");
    }
    say_of_algorithms(rt, ended);
    say_of_arguments(rt, ended);
    if let Some(advice) = ended.advice() {
        let _ = eprintln!(rt; "cosecmd: {advice}");
    }
}

/// Says on standard error why standard input couldn't be read, where the run has ended for that.
fn say_why_unread(rt: &HostRuntime, ended: &Ended, cause: Option<&str>, is_closed: bool) {
    if !ended.has_printed("fault ", "input") {
        return;
    }
    if let Some(cause) = cause {
        let cause = if is_closed { "it is closed" } else { cause };
        let _ = eprintln!(rt; "cosecmd: standard input can't be read: {cause}");
    }
}

/// Says on standard error where the input is no text of the form that the arguments name. Its characters aren't repeated.
fn say_of_text(rt: &HostRuntime, form: InputForm, fault: TextFault, first: &[u8]) {
    let name = name_of(form);
    let _ = match fault {
        TextFault::Character(place) => {
            eprintln!(rt; "cosecmd: character {place} of standard input is wrong in {name}")
        }
        TextFault::End => eprintln!(rt; "cosecmd: standard input ends early in {name}"),
    };
    if let Some(advice) = advice_on_wrong_text(first) {
        let _ = eprintln!(rt; "cosecmd: {advice}");
    }
}

/// The form of the text that the input begins as, where it isn't the one that the arguments name.
fn form_begun<R: Read>(form: InputForm, noted: &Noted<R>) -> Option<Form> {
    if is_text(form) {
        return other_form(noted.known());
    }
    noted.form()
}

/// Says on standard error that the run waits for a terminal.
fn say_of_terminal(rt: &HostRuntime, words: &[&str]) {
    if reads_input(words) && rt.stdin().is_terminal() {
        let _ = rt.eprintln("cosecmd: reading from this terminal, up to its end of file");
    }
}

/// Says on standard error what standard output doesn't say of a run with these arguments, which has read `noted`, printed `output`
/// and ended with this status.
fn say_of_run<'a, R: Read, W: Write>(
    rt: &HostRuntime,
    words: &'a [&'a str],
    status: u8,
    fault: Option<TextFault>,
    noted: &'a Noted<R>,
    output: &'a Noted<W>,
    is_closed: bool,
) {
    let form = form_named_in(words);
    if let Some(fault) = fault {
        say_of_text(rt, form, fault, noted.known());
    }
    let mut decoded = [0; DECODED];
    let ended = Ended {
        words,
        status,
        input: first_bytes(form, noted.known(), &mut decoded),
        printed: output.known(),
    };
    say_more(rt, &ended, form_begun(form, noted), output.complaint());
    say_why_unread(rt, &ended, noted.cause(), is_closed);
}

/// What is wrong where the arguments can't be had.
fn line_of(error: &io::Error) -> &'static str {
    match error.kind() {
        ErrorKind::InvalidData => "error: invalid UTF-8 was detected in one or more arguments\n",
        _ => "fault memory\n",
    }
}

fn main(rt: HostRuntime) -> ExitCode {
    let closed = hold_closed(&rt, "/dev/fd/0");
    let _output = hold_closed(&rt, "/dev/fd/1");
    let _error = hold_closed(&rt, "/dev/fd/2");
    let owned = match owned_words(&rt) {
        Ok(owned) => owned,
        Err(error) => return complain(&mut rt.stdout(), line_of(&error)),
    };
    let words = match borrowed_words(rt.alloc(), owned.as_slice()) {
        Ok(words) => words,
        Err(_) => return complain(&mut rt.stdout(), "fault memory\n"),
    };
    say_of_terminal(&rt, words.as_slice());
    let files = NotedFiles::new(&rt, words.as_slice());
    let mut new_files = NotedNewFiles::new(&rt);
    let mut noted = Noted::new(rt.stdin());
    let mut input = TextInput::new(&mut noted);
    let mut output = Noted::new(rt.stdout());
    let status = run_with_files(
        rt.alloc(),
        words.as_slice(),
        &files,
        &mut new_files,
        &mut input,
        &mut output,
    );
    let fault = input.fault();
    say_of_run(
        &rt,
        words.as_slice(),
        status,
        fault,
        &noted,
        &output,
        closed.is_some(),
    );
    ExitCode::from(status)
}
