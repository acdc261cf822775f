//! The input of a message that is made.

ghost use Rattle.std.specs.Prelude.{◌≡◌, false};
ghost use Rattle.cose_answers.specs.Input.{name_in, reader_in};

use cose_msg::{Intake, IntakeFault};
use std::io::Read;

/// The bytes of a reader, with one read in each call. Any error of the reader is a failure. The reader can be taken back,
/// so that a contract sees what is left of it.
#[derive(Drop)]
pub struct Input<'r, R> {
    reader: &'r mut R,
    failed: bool,
    ended: bool,
}

impl<'r, R: Read> Input<'r, R> {
    /// An intake of the bytes that the reader gives.
    pub fn new(reader: &'r mut R) -> Self
        ensures known { ⟦<Input<'r, R> as Intake>⟧.to_come result
            ≡ R.remaining reader.old }
        ensures reader { reader_in result ≡ reader.old }
        ensures same_reference { name_in result ≡ reader.entry.ghost_name }
        ensures not_failed { ⟦<Input<'r, R> as Intake>⟧.has_failed result ≡ false }
    {
        Input {
            reader,
            failed: false,
            ended: false,
        }
    }

    /// The reader, with what is left of it.
    pub fn into_reader(self) -> &'r mut R
        ensures reader { result.now ≡ reader_in self.entry }
        ensures same_reference { result.ghost_name ≡ name_in self.entry }
    {
        self.reader
    }
}

impl<R: Read> Intake for Input<'_, R> {
    ghost to_come = { λ intake. R.remaining intake.reader.now };

    ghost has_failed = { λ intake. intake.failed };

    ghost ended = { λ intake. intake.ended };

    fn take(&mut self, into: &mut [u8]) -> Result<usize, IntakeFault> {
        match self.reader.read(into) {
            Ok(count) => {
                self.ended = count == 0;
                Ok(count)
            }
            Err(_) => {
                self.failed = true;
                self.ended = false;
                Err(IntakeFault)
            }
        }
    }
}
