//! Why a run has no verdict and makes no message (the command line, the keys, memory, the input), each with the line that is
//! printed for it.

ghost use Rattle.std.specs.IoError.{error_kind};
ghost use Rattle.std.specs.Prelude.{◌≡◌, ◌≢◌, Some};

use cose_msg::Refusal;
use hex::FromHexError;
use std::alloc::AllocError;
use std::error::Error;
use std::io::ErrorKind;
use std::{fmt, io};

/// Why a run has no verdict and makes no message. The program ends with status 2.
#[derive(Debug, Drop)]
pub enum Fault {
    /// A request for memory was refused.
    Memory,
    /// The argument of this option isn't hexadecimal, or is too long.
    Line(&'static str),
    /// The file of this option can't be opened or read, has more bytes than a key may have, or, where it has the payload, isn't
    /// regular or ends before the length that it had when it was opened.
    File(&'static str),
    /// The key set is refused. The place is relative to the first byte of the set.
    Keys(Refusal),
    /// The key that is to make a message is refused. The place is relative to the first byte of the key.
    Key(Refusal),
    /// The key doesn't make MACs by the algorithm (RFC 9052 section 7.1).
    WrongKey,
    /// The identifier of the key has more than 255 bytes, or another input of the message is too long.
    TooLong,
    /// The input failed.
    Input,
}

impl fmt::Display for Fault {
    ghost use Rattle.cose_answers.specs.Faults.{fault_text};

    ghost output = { λ fault. Some (fault_text fault) };

    fn fmt<W: fmt::Write>(&self, f: &mut fmt::Formatter<W>) -> fmt::Result {
        match *self {
            Fault::Memory => write!(f, "fault memory"),
            Fault::Line(option) => write!(f, "fault line {option}"),
            Fault::File(option) => write!(f, "fault file {option}"),
            Fault::Keys(refusal) => write!(f, "fault keys {refusal}"),
            Fault::Key(refusal) => write!(f, "fault key {refusal}"),
            Fault::WrongKey => write!(f, "fault make WrongKey"),
            Fault::TooLong => write!(f, "fault make TooLong"),
            Fault::Input => write!(f, "fault input"),
        }
    }
}

impl Error for Fault {}

impl From<AllocError> for Fault {
    ghost use Rattle.cose_answers.specs.declared.fault.Fault.{Fault};

    ghost from_gives = { λ _ fault. fault ≡ Fault.Memory };

    fn from(_: AllocError) -> Fault {
        Self::Memory
    }
}

impl Fault {
    /// The fault of an option whose argument couldn't be read as hexadecimal.
    pub fn hexadecimal(option: &'static str, error: FromHexError) -> Fault
        ensures memory { error ≡ FromHexError.OutOfMemory → result ≡ Fault.Memory }
        ensures line { error ≢ FromHexError.OutOfMemory → result ≡ Fault.Line option.entry }
    {
        match error {
            FromHexError::OutOfMemory => Fault::Memory,
            _ => Fault::Line(option),
        }
    }

    /// The fault of an option whose file couldn't be opened or read.
    pub fn file(option: &'static str, error: &io::Error) -> Fault
        ensures memory { error_kind error.now ≡ ErrorKind.OutOfMemory → result ≡ Fault.Memory }
        ensures file { error_kind error.now ≢ ErrorKind.OutOfMemory
            → result ≡ Fault.File option.entry }
    {
        match error.kind() {
            ErrorKind::OutOfMemory => Fault::Memory,
            _ => Fault::File(option),
        }
    }

    /// The fault of an input that couldn't be read.
    pub fn input(error: &io::Error) -> Fault
        ensures memory { error_kind error.now ≡ ErrorKind.OutOfMemory → result ≡ Fault.Memory }
        ensures input { error_kind error.now ≢ ErrorKind.OutOfMemory → result ≡ Fault.Input }
    {
        match error.kind() {
            ErrorKind::OutOfMemory => Fault::Memory,
            _ => Fault::Input,
        }
    }
}
