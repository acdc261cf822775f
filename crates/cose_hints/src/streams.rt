//! The standard streams of the process: those that are closed, a terminal that the input comes from, a complaint that goes to
//! standard error too, and an input that begins as a text does.

ghost use Rattle.std.specs.Prelude.{◌≡◌};

use crate::cause::cause;
use crate::hints::{First, Form, form_of_first};
use std::fs::File;
use std::io::{Read, Write};
use std::rt::Files;
use std::{fs, io};

/// Opens a folder in the place of a standard stream that is closed, so that no file that is opened later takes its number. To read
/// from it or to write to it fails. The folder is open as long as what is returned is there.
pub fn hold_closed<F: Files>(rt: &F, stream: &str) -> Option<F::File> {
    match fs::metadata(rt, stream) {
        Ok(_) => None,
        Err(_) => File::open(rt, "/").ok(),
    }
}

/// Whether the arguments are those of a command that reads standard input.
pub fn reads_input(words: &[&str]) -> bool {
    let is_command = match words.get(1) {
        Some(&"keys") => words.iter().any(|&word| word == "--for-message"),
        Some(&command) => matches!(command, "verify" | "cwt" | "digest" | "show" | "make"),
        None => false,
    };
    is_command && !words.iter().any(|&word| word == "--help" || word == "-h")
}

/// A stream that remembers the first bytes that went through it.
#[derive(Drop)]
pub struct Noted<S> {
    stream: S,
    first: First,
    /// Why it couldn't be read the last time.
    cause: Option<&'static str>,
}

impl<S> Noted<S> {
    /// Before anything is read or written.
    pub fn new(stream: S) -> Noted<S>
        ensures { result.stream ≡ stream }
    {
        Noted {
            stream,
            first: First::new(),
            cause: None,
        }
    }

    /// The first bytes that went through it, as many as are remembered.
    pub fn known(&self) -> &[u8] {
        self.first.known()
    }

    /// Why it couldn't be read the last time, in words.
    pub fn cause(&self) -> Option<&'static str> {
        self.cause
    }

    /// What was written, as far as it is remembered, where it begins as the line of a fault or as a text of clap's does.
    pub fn complaint(&self) -> Option<&[u8]> {
        let text = self.first.known();
        if text.starts_with("fault ".as_bytes()) || text.starts_with("error: ".as_bytes()) {
            return Some(text);
        }
        None
    }

    /// The form of a text that the input begins as, where it does. No message begins with such a byte, so a run reads no more
    /// of it, and nothing is read here, where it might wait.
    pub fn form(&self) -> Option<Form> {
        form_of_first(*self.first.known().first()?)
    }
}

impl<R: Read> Read for Noted<R> {
    // What is left of its stream.
    ghost remaining = { λ noted. R.remaining noted.stream };

    fn read(&mut self, into: &mut [u8]) -> io::Result<usize> {
        let count = match self.stream.read(into) {
            Ok(count) => count,
            Err(error) => {
                self.cause = Some(cause(error.kind()));
                return Err(error);
            }
        };
        if let Some(bytes) = into.get(..count) {
            self.first.note(bytes);
        }
        Ok(count)
    }
}

impl<W: Write> Write for Noted<W> {
    // What its stream holds.
    ghost contents = { λ noted. W.contents noted.stream };

    fn write(&mut self, bytes: &[u8]) -> io::Result<usize> {
        let count = self.stream.write(bytes)?;
        if let Some(taken) = bytes.get(..count) {
            self.first.note(taken);
        }
        Ok(count)
    }

    fn flush(&mut self) -> io::Result<()> {
        self.stream.flush()
    }
}
