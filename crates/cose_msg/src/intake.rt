//! Where the bytes of a message come from.

ghost use Rattle.std.specs.Prelude.{◌≡◌, ◌≤◌, ◌<◌, ℕ, Bool, false, List, Option, Some, IfOk, IsOk, length, take};
ghost use Rattle.cose_msg.specs.Intake.{Takes, marks, is_end};

use std::io::Read;

/// An intake has failed. It gave no byte in the call that says so.
#[derive(Clone, Copy, Debug, PartialEq, Eq)]
pub struct IntakeFault;

/// Where bytes come from, in pieces of any length.
///
/// A contract sees the bytes to come, where the intake makes them known to it, whether the intake has failed, and
/// whether its last answer was the end.
pub trait Intake {
    ghost to_come: { Self → Option (List ℕ) };

    ghost has_failed: { Self → Bool };

    ghost ended: { Self → Bool };

    /// Gives the next bytes, at least one and at most as many as fit; `Ok(0)` is the end.
    fn take(&mut self, into: &mut [u8]) -> Result<usize, IntakeFault>
        requires { 0 < length into.old }
        ensures within { IfOk result (λ n. n ≤ length into.new) }
        ensures bytes { Takes (to_come self.old) (to_come self.new) result into.new }
        ensures failure { has_failed self.new ≡ marks (has_failed self.old) result }
        ensures end { ended self.new ≡ is_end result };
}

/// The bytes of a slice, in pieces of at most a given length. It never fails.
#[derive(Drop)]
pub struct SliceIntake<'a> {
    bytes: &'a [u8],
    cut: usize,
    ended: bool,
    ghost cuts: { 0 < cut },
}

impl<'a> SliceIntake<'a> {
    ghost use Rattle.cose_msg.specs.SliceIntake.{cut_of};

    /// An intake of these bytes that gives at most `cut` of them in a call.
    pub fn new(bytes: &'a [u8], cut: usize) -> Self
        requires { 0 < cut }
        ensures cut { cut_of result ≡ cut }
        ensures known { ⟦<SliceIntake<'a> as Intake>⟧.to_come result ≡ Some bytes.entry.now }
        ensures not_failed { ⟦<SliceIntake<'a> as Intake>⟧.has_failed result ≡ false }
        ensures not_ended { ⟦<SliceIntake<'a> as Intake>⟧.ended result ≡ false }
    {
        SliceIntake {
            bytes,
            cut,
            ended: false,
        }
    }
}

/// Copies a piece to the front of `into`. The bytes of a head come one by one: one byte takes no call of `memcpy`.
#[inline]
fn copy_to_front(into: &mut [u8], piece: &[u8])
    requires { length piece.now ≤ length into.old }
    ensures front { take (length piece.now) into.new ≡ piece.now }
    ensures length { length into.new ≡ length into.old }
{
    if piece.len() == 1 {
        into[0] = piece[0];
    } else {
        into[..piece.len()].copy_from_slice(piece);
    }
}

impl<'a> Intake for SliceIntake<'a> {
    ghost use Rattle.cose_msg.specs.SliceIntake.{cut_of};

    ghost to_come = { λ intake. Some intake.bytes.now };

    ghost has_failed = { λ _. false };

    ghost ended = { λ intake. intake.ended };

    fn take(&mut self, into: &mut [u8]) -> Result<usize, IntakeFault>
        requires { 0 < length into.old }
        ensures within { IfOk result (λ n. n ≤ length into.new) }
        ensures bytes { Takes (⟦<SliceIntake<'a> as Intake>⟧.to_come self.old)
            (⟦<SliceIntake<'a> as Intake>⟧.to_come self.new) result into.new }
        ensures failure { ⟦<SliceIntake<'a> as Intake>⟧.has_failed self.new
            ≡ marks (⟦<SliceIntake<'a> as Intake>⟧.has_failed self.old) result }
        ensures end { ⟦<SliceIntake<'a> as Intake>⟧.ended self.new ≡ is_end result }
        // It gives no more than its cut in a call, and never fails.
        ensures cut { IfOk result (λ n. n ≤ cut_of self.old) }
        ensures kept { cut_of self.new ≡ cut_of self.old }
        ensures given { IsOk result }
    {
        let count = self.bytes.len().min(self.cut).min(into.len());
        let (piece, rest) = self.bytes.split_at(count);
        copy_to_front(into, piece);
        self.bytes = rest;
        self.ended = count == 0;
        Ok(count)
    }
}

/// The bytes of a reader, with one read in each call. Any error of the reader is a failure.
#[derive(Drop)]
pub struct ReadIntake<R: Read> {
    reader: R,
    failed: bool,
    ended: bool,
}

impl<R: Read> ReadIntake<R> {
    /// An intake of the bytes that the reader gives.
    pub fn new(reader: R) -> Self
        ensures known { ⟦<ReadIntake<R> as Intake>⟧.to_come result ≡ R.remaining reader }
        ensures not_failed { ⟦<ReadIntake<R> as Intake>⟧.has_failed result ≡ false }
        ensures not_ended { ⟦<ReadIntake<R> as Intake>⟧.ended result ≡ false }
    {
        ReadIntake {
            reader,
            failed: false,
            ended: false,
        }
    }
}

impl<R: Read> Intake for ReadIntake<R> {
    ghost to_come = { λ intake. R.remaining intake.reader };

    ghost has_failed = { λ intake. intake.failed };

    ghost ended = { λ intake. intake.ended };

    fn take(&mut self, into: &mut [u8]) -> Result<usize, IntakeFault> {
        match self.reader.read(into) {
            Ok(count) => {
                self.ended = count == 0;
                Ok(count)
            }
            Err(_) => {
                self.failed = true;
                self.ended = false;
                Err(IntakeFault)
            }
        }
    }
}
