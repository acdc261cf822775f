//! A device that gets a message from a serial line.

ghost use Rattle.std.specs.Prelude.{◌≡◌, ◌≤◌, false, [], IfOk};
ghost use Rattle.std.specs.Io.KnownBytes.{Appends};
ghost use Rattle.cose_msg.specs.Kept.{HasTaken, is_inspecting};
ghost use Rattle.cose_msg.specs.Task.{Task};
ghost use Rattle.cose_msg.specs.Verifier.{setting_in};
ghost use Rattle.cose_examples.specs.Firmware.{WhereAuthentic};
ghost use Rattle.cose_examples.specs.Line.{Hears, IsOfLine};

use cose_msg::{EcVerifier, Sink, Status, Stop, Verdict, Verifier};

/// Passes on what came of the payload.
fn pass_on<S: Sink>(handler: &mut S, payload: &[u8]) -> Result<(), Stop>
    ensures handled { IfOk result (λ _. Appends (S.contents handler.old) (S.contents handler.new)
        payload.now) }
{
    if payload.is_empty() {
        return Ok(());
    }
    match handler.put(payload) {
        Ok(()) => Ok(()),
        Err(_) => Err(Stop::Sink),
    }
}

/// The device's side of a serial line, with a buffer of seven bytes that is emptied at each interrupt.
pub trait Port {
    /// Gives the bytes that came since the last interrupt, and says how many these are: 0 where the line is closed.
    fn interrupt(&mut self, buffer: &mut [u8; 7]) -> usize;

    /// Takes back bytes that came after a message.
    fn give_back(&mut self, bytes: &[u8]);
}

/// Takes one message from the line. The payload goes to the handler as it comes.
fn hear<P: Port, S: Sink>(
    verifier: &mut Verifier<256, 4>,
    port: &mut P,
    handler: &mut S,
) -> Result<(), Stop>
    ensures hears { (task : Task) → HasTaken task [] [] verifier.old → IfOk result (λ _.
        Hears task (S.contents handler.old) (S.contents handler.new) verifier.new) }
{
    let mut buffer = [0u8; 7];
    'interrupts: for _i in 0..u64::MAX {
        let count = port.interrupt(&mut buffer).min(7);
        let bytes = &buffer[..count];
        let fed = verifier.feed(bytes);
        pass_on(handler, fed.payload_of(bytes))?;
        let is_done = count == 0 || fed.status != Status::More;
        if is_done {
            port.give_back(&bytes[fed.used..]);
            return Ok(());
        }
    }
    Ok(())
}

/// The verdict on one message from the line.
pub fn listen<P: Port, S: Sink, E: EcVerifier>(
    verifier: &mut Verifier<256, 4>,
    port: &mut P,
    handler: &mut S,
    ec: &E,
) -> Result<Verdict, Stop>
    requires { is_inspecting verifier.old ≡ false }
    ensures authentic { WhereAuthentic result
        (IsOfLine (setting_in verifier.old) (E.decides ec.now) (S.contents handler.old)
        (S.contents handler.new)) }
{
    verifier.reset();
    hear(verifier, port, handler)?;
    if verifier.is_complete() {
        return Ok(verifier.verdict(ec));
    }
    match verifier.end() {
        Status::Refused(refusal) => Ok(Verdict::Refused(refusal)),
        _ => Err(Stop::Again),
    }
}
