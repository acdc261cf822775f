//! Where the payload of a message goes.

ghost use Rattle.std.specs.Prelude.{◌≡◌, ◌≤◌, ◌<◌, ◌+◌, ◌^◌, ℕ, Bool, false, List, Option, None, IsOk, OnOk, length};
ghost use Rattle.cose_msg.specs.Intake.{marks};
ghost use Rattle.cose_msg.specs.Sink.{Puts};

/// A sink has failed. It may have kept a prefix of the piece.
#[derive(Clone, Copy, Debug, PartialEq, Eq)]
pub struct SinkFault;

/// Where the payload goes, piece by piece, before the verdict is known. After a refusal or a stop it has what came of a
/// payload that isn't known to be authentic, and its owner drops that.
///
/// A contract sees what the sink holds, where the sink makes that known to it, whether the sink has failed, and how
/// many bytes it is sure to take.
pub trait Sink {
    ghost contents: { Self → Option (List ℕ) };

    ghost has_failed: { Self → Bool };

    ghost sure: { Self → ℕ };

    /// Appends the piece; on an `Err` a prefix of it.
    fn put(&mut self, piece: &[u8]) -> Result<(), SinkFault>
        requires { 0 < length piece.now }
        ensures bytes { Puts (contents self.old) (contents self.new) result piece.now }
        ensures failure { has_failed self.new ≡ marks (has_failed self.old) result }
        ensures promised { length piece.now ≤ sure self.old → IsOk result }
        ensures promise { OnOk result (sure self.old ≤ sure self.new + length piece.now) };
}

/// Takes all bytes, keeps none and never fails.
#[derive(Clone, Copy, Debug, PartialEq, Eq)]
pub struct Nothing;

impl Sink for Nothing {
    ghost contents = { λ _. None };

    ghost has_failed = { λ _. false };

    ghost sure = { λ _. 2 ^ 64 };

    fn put(&mut self, _piece: &[u8]) -> Result<(), SinkFault> {
        Ok(())
    }
}
