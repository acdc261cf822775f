//! The verifier over an intake and a sink.

ghost use Rattle.std.specs.Prelude.{◌≡◌, ◌≢◌, ◌↔◌, ◌+◌, ◌*◌, ◌≤◌, ℕ, true, false, List, ◌++◌, length, Some, None, Result, Err, IfOk, is_err};
ghost use Rattle.cose_msg.specs.declared.verdict.Inspected.{Inspected};
ghost use Rattle.cose_msg.specs.declared.verdict.Stop.{Stop};
ghost use Rattle.cose_msg.specs.declared.verdict.Verdict.{Verdict};
ghost use Rattle.cose_msg.specs.Answer.{decided};
ghost use Rattle.cose_msg.specs.Change.{intake_change, sink_change};
ghost use Rattle.cose_msg.specs.Kept.{answered_again, is_inspecting, is_stopped, kept_answer, kept_inspection, WhateverInspected, WhateverTaken, WhateverVerified, HasTaken, SamePurpose};
ghost use Rattle.cose_msg.specs.Message.{inspecting, message, verdict_of, verifying, Setting};
ghost use Rattle.cose_msg.specs.Run.{TakesMessage, FailsIf, Run, inspection, stop_in, stops_for_intake, stops_for_sink, LeftAt};
ghost use Rattle.cose_msg.specs.Source.{is_detached_from};
ghost use Rattle.cose_msg.specs.Task.{rules_of, to_inspect, to_verify};
ghost use Rattle.cose_msg.specs.Verifier.{is_detached};

use crate::elliptic::EcVerifier;
use crate::intake::Intake;
use crate::laws::{
    deciding_goes_last, messages_are_bounded, nothing_stands_after_the_bytes, settled_stays,
};
use crate::sink::Sink;
use crate::verdict::{Inspected, Stop, Verdict};
use crate::verifier::Verifier;
use cose_map::Keys;

/// Takes pieces of a message until no further byte is wanted, or the intake has ended. It takes none after the message,
/// and puts the payload into the sink as it comes. A piece is as long as the chunk at most, into which it is taken.
pub(crate) fn take_message<'k, const H: usize, const D: usize, K: Keys<'k>, I: Intake, S: Sink>(
    verifier: &mut Verifier<'k, H, D, K>,
    intake: &mut I,
    sink: &mut S,
    chunk: &mut [u8],
) -> Result<(), Stop>
    requires some { 1 ≤ length chunk.old }
    requires limit { length chunk.old ≤ 65536 }
    requires goes_on { is_stopped verifier.old ≡ false }
    ensures drive { WhateverTaken verifier.old (λ task before payload_before.
        TakesMessage task before payload_before
        (intake_change I.to_come I.ended intake.old intake.new)
        (sink_change S.contents sink.old sink.new) (stop_in result) verifier.new) }
    ensures stopped { is_stopped verifier.new ≡ is_err result }
    ensures purpose { SamePurpose verifier.old verifier.new }
    ensures once { result ≢ Err Stop.Again }

    // It stops only for a failure in this call.
    ensures intake_failure { FailsIf I.has_failed intake.old intake.new (stops_for_intake result) }
    ensures sink_failure { FailsIf S.has_failed sink.old sink.new (stops_for_sink result) }
    ensures sure { WhateverTaken verifier.old (λ task _ _.
        task.setting.payload_limit ≤ S.sure sink.old → stops_for_sink result ≡ false) }
    // Of a message whose payload is detached nothing goes to the sink.
    ensures beside { WhateverTaken verifier.old (λ task _ _.
        is_detached_from task.setting.source ≡ true → (stops_for_sink result ≡ false)
        × (S.sure sink.old ≤ S.sure sink.new)) }
{
    // The law of messages that the proof cites.
    messages_are_bounded();
    'pieces: loop {
        verifier.reader.lemma_reading_so_far();
        let asked = verifier.request(chunk.len());
        if asked == 0 {
            return Ok(());
        }
        let count = match intake.take(&mut chunk[..asked]) {
            Ok(count) => count,
            Err(_) => {
                verifier.stop();
                return Err(Stop::Intake);
            }
        };
        if count == 0 {
            return Ok(());
        }
        let piece = &chunk[..count];
        let in_payload = verifier.reader.is_in_payload();
        verifier.take_piece(piece);
        verifier.reader.lemma_reading_so_far();
        if in_payload && sink.put(piece).is_err() {
            verifier.stop();
            return Err(Stop::Sink);
        }
    }
}

/// Verifies one message: it takes bytes from the intake, and none after the message, puts the payload into the sink as
/// it comes, and asks `ec` about the signature of a COSE_Sign1 (RFC 9052 section 4.4), once.
///
/// The sink has the payload before the verdict is known: drop what it holds after a refusal or a stop. A verifier that
/// was fed continues from there. A verdict is kept and answered again until `reset`; after a stop every call answers
/// [`Stop::Again`]. Of message bytes it holds `C` at most in addition to what the verifier holds ([`Verifier::held`]), and, while labels
/// out of order are looked for, copies of at most 51 labels, of at most 14 bytes each.
///
/// The verifier isn't one that [`Verifier::inspecting`] or [`Verifier::detached`] made.
pub fn verify<
    'k,
    const C: usize,
    const H: usize,
    const D: usize,
    K: Keys<'k>,
    I: Intake,
    S: Sink,
    E: EcVerifier,
>(
    verifier: &mut Verifier<'k, H, D, K>,
    intake: &mut I,
    sink: &mut S,
    ec: &E,
) -> Result<Verdict, Stop>
    requires some { 1 ≤ C }
    requires limit { C ≤ 65536 }
    requires verifies { is_inspecting verifier.old ≡ false }
    requires attached { is_detached verifier.old ≡ false }
    // What was taken, the result, what the sink got, what the verifier gives, and the status of the message.
    ensures run { WhateverVerified verifier.old (λ setting before payload_before.
        (taken : List ℕ)
        × Run (verifying H D setting (E.decides ec.now)) decided before payload_before
        (intake_change I.to_come I.ended intake.old intake.new)
        (sink_change S.contents sink.old sink.new) result taken
        × LeftAt (to_verify setting) (before ++ taken) result verifier.new) }
    // (The payload so far, before the call, is that of the bytes so far.)
    ensures before { WhateverVerified verifier.old (λ setting before payload_before.
        (message (rules_of H D (to_verify setting)) before).so_far.payload ≡ payload_before) }
    // Where the bytes to come are known to the contract, the verdict is that of all of them.
    ensures answer { (setting : Setting) (before payload_before bytes : List ℕ)
        → HasTaken (to_verify setting) before payload_before verifier.old
        → I.to_come intake.old ≡ Some bytes → IfOk result (λ verdict.
        verdict_of H D setting (E.decides ec.now) (before ++ bytes) ≡ decided verdict) }

    // The answer is kept, and a kept one is answered again.
    ensures kept { kept_answer verifier.new ≡ Some (answered_again result) }
    ensures again { (answer : Result Verdict Stop) → kept_answer verifier.old ≡ Some answer →
        (result ≡ answer) × (verifier.new ≡ verifier.old) × (intake.new ≡ intake.old)
        × (sink.new ≡ sink.old) }
    ensures stopped { (result ≡ Err Stop.Again) ↔ (is_stopped verifier.old ≡ true) }
    ensures purpose { SamePurpose verifier.old verifier.new }

    // It stops only for a failure in this call.
    ensures intake_failure { FailsIf I.has_failed intake.old intake.new (stops_for_intake result) }
    ensures sink_failure { FailsIf S.has_failed sink.old sink.new (stops_for_sink result) }
    // A sink that is sure of every payload doesn't stop it.
    ensures sure { WhateverVerified verifier.old (λ setting _ _.
        setting.payload_limit ≤ S.sure sink.old → stops_for_sink result ≡ false) }
{
    // Laws of messages that the proof cites.
    settled_stays();
    nothing_stands_after_the_bytes();
    deciding_goes_last();
    verifier.reader.lemma_reading_so_far();
    match verifier.kept_answer() {
        Some(answer) => return answer,
        None => {}
    }
    let mut chunk = [0u8; C];
    match take_message(verifier, intake, sink, &mut chunk) {
        Ok(()) => Ok(verifier.conclude(ec)),
        Err(stop) => Err(stop),
    }
}

/// Inspects one message: as [`verify`], but no key is chosen and nothing is compared, so that nothing is authenticated.
/// The tag or signature may have 65,535 bytes, and is skipped.
///
/// The answer is kept, and a [`Stop`] says what failed, as with [`verify`]. The verifier is one that
/// [`Verifier::inspecting`] made.
pub fn inspect<'k, const C: usize, const H: usize, const D: usize, K: Keys<'k>, I: Intake, S: Sink>(
    verifier: &mut Verifier<'k, H, D, K>,
    intake: &mut I,
    sink: &mut S,
) -> Result<Inspected, Stop>
    requires some { 1 ≤ C }
    requires limit { C ≤ 65536 }
    requires inspects { is_inspecting verifier.old ≡ true }
    requires attached { is_detached verifier.old ≡ false }
    // What was taken, the result, what the sink got, what the verifier gives, and the status of the message.
    ensures run { WhateverInspected verifier.old (λ setting before payload_before.
        (taken : List ℕ)
        × Run (inspecting H D setting) inspection before payload_before
        (intake_change I.to_come I.ended intake.old intake.new)
        (sink_change S.contents sink.old sink.new) result taken
        × LeftAt (to_inspect setting) (before ++ taken) result verifier.new) }
    // (The payload so far, before the call, is that of the bytes so far.)
    ensures before { WhateverInspected verifier.old (λ setting before payload_before.
        (message (rules_of H D (to_inspect setting)) before).so_far.payload ≡ payload_before) }
    // Where the bytes to come are known to the contract, the answer is that of all of them.
    ensures answer { (setting : Setting) (before payload_before bytes : List ℕ)
        → HasTaken (to_inspect setting) before payload_before verifier.old
        → I.to_come intake.old ≡ Some bytes → IfOk result (λ inspected.
        (message (inspecting H D setting) (before ++ bytes)).answer ≡ inspection inspected) }

    // The answer is kept, and a kept one is answered again.
    ensures kept { kept_inspection verifier.new ≡ Some (answered_again result) }
    ensures again { (answer : Result Inspected Stop) → kept_inspection verifier.old ≡ Some answer →
        (result ≡ answer) × (verifier.new ≡ verifier.old) × (intake.new ≡ intake.old)
        × (sink.new ≡ sink.old) }
    ensures stopped { (result ≡ Err Stop.Again) ↔ (is_stopped verifier.old ≡ true) }
    ensures purpose { SamePurpose verifier.old verifier.new }

    // It stops only for a failure in this call.
    ensures intake_failure { FailsIf I.has_failed intake.old intake.new (stops_for_intake result) }
    ensures sink_failure { FailsIf S.has_failed sink.old sink.new (stops_for_sink result) }
    // A sink that is sure of every payload doesn't stop it.
    ensures sure { WhateverInspected verifier.old (λ setting _ _.
        setting.payload_limit ≤ S.sure sink.old → stops_for_sink result ≡ false) }
{
    // Laws of messages that the proof cites.
    settled_stays();
    nothing_stands_after_the_bytes();
    verifier.reader.lemma_reading_so_far();
    match verifier.kept_inspection() {
        Some(answer) => return answer,
        None => {}
    }
    let mut chunk = [0u8; C];
    match take_message(verifier, intake, sink, &mut chunk) {
        Ok(()) => Ok(verifier.conclude_inspection()),
        Err(stop) => Err(stop),
    }
}

pub mod detached;
