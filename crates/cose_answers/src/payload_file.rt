//! The bytes of a payload that is in a file, whose length is stated.

ghost use Rattle.std.specs.Prelude.{◌≡◌, ◌<◌, ◌≤◌, ◌+◌, ◌&&◌, ◌==◌, IfOk, false, length, true};
ghost use Rattle.cose_msg.specs.Intake.{Takes, is_end, marks};

use cose_msg::{Intake, IntakeFault};
use std::io::Read;

/// The first bytes of a reader, as many as are stated, with one read in each call. Any error of the reader is a failure,
/// and so is an end before the stated length.
#[derive(Drop)]
pub struct PayloadFile<R> {
    reader: R,
    left: u64,
    failed: bool,
    ended: bool,
    ghost in_range: { left < 18446744073709551616 },
}

impl<R: Read> PayloadFile<R> {
    ghost use Rattle.cose_answers.specs.PayloadFile.{counted, left_of};

    /// An intake of the first `length` bytes that the reader gives.
    pub fn new(reader: R, length: u64) -> Self
        ensures known { ⟦<PayloadFile<R> as Intake>⟧.to_come result
            ≡ counted length (R.remaining reader) }
        ensures left { left_of result ≡ length }
        ensures not_failed { ⟦<PayloadFile<R> as Intake>⟧.has_failed result ≡ false }
    {
        PayloadFile {
            reader,
            left: length,
            failed: false,
            ended: false,
        }
    }

    /// Whether a read has failed, or has found the end before the stated length.
    pub fn has_failed(&self) -> bool
        ensures { result ≡ ⟦<PayloadFile<R> as Intake>⟧.has_failed self.now }
    {
        self.failed
    }

    /// Records that a read has failed.
    fn fail(&mut self) -> IntakeFault
        ensures { self.new ≡ record self.old { failed = true; ended = false } }
    {
        self.failed = true;
        self.ended = false;
        IntakeFault
    }
}

impl<R: Read> Intake for PayloadFile<R> {
    ghost use Rattle.cose_answers.specs.PayloadFile.{counted, left_of};

    // Of a reader whose bytes are known those up to the stated length; where they are fewer, more that never come.
    ghost to_come = { λ intake. counted intake.left (R.remaining intake.reader) };

    ghost has_failed = { λ intake. intake.failed };

    ghost ended = { λ intake. intake.ended && (intake.left == 0) };

    fn take(&mut self, into: &mut [u8]) -> Result<usize, IntakeFault>
        requires { 0 < length into.old }
        ensures within { IfOk result (λ n. n ≤ length into.new) }
        ensures bytes { Takes (⟦<PayloadFile<R> as Intake>⟧.to_come self.old)
            (⟦<PayloadFile<R> as Intake>⟧.to_come self.new) result into.new }
        ensures failure { ⟦<PayloadFile<R> as Intake>⟧.has_failed self.new
            ≡ marks (⟦<PayloadFile<R> as Intake>⟧.has_failed self.old) result }
        ensures end { ⟦<PayloadFile<R> as Intake>⟧.ended self.new ≡ is_end result }
        // Whatever the reader gives, it ends only after all of the stated bytes.
        ensures counts { IfOk result (λ n. left_of self.new + n ≡ left_of self.old) }
        ensures whole { is_end result ≡ true → left_of self.old ≡ 0 }
    {
        let asked = self.left.min(into.len() as u64) as usize;
        if asked == 0 {
            self.ended = true;
            return Ok(0);
        }
        match self.reader.read(&mut into[..asked]) {
            Ok(count) if count > 0 => {
                self.left -= count as u64;
                self.ended = false;
                Ok(count)
            }
            Ok(_) => Err(self.fail()),
            Err(_) => Err(self.fail()),
        }
    }
}
