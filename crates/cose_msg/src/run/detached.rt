//! The verifier of a message whose payload is detached, over an intake of each and a sink.

ghost use Rattle.std.specs.Prelude.{◌≡◌, ◌≢◌, ◌↔◌, ◌<◌, ◌+◌, ◌*◌, ◌≤◌, ℕ, true, false, List, [], ◌++◌, length, Some, None, Result, Err, IfOk, is_err};
ghost use Rattle.cose_msg.specs.declared.verdict.Stop.{Stop};
ghost use Rattle.cose_msg.specs.declared.verdict.Verdict.{Verdict};
ghost use Rattle.cose_msg.specs.Answer.{decided};
ghost use Rattle.cose_msg.specs.Change.{intake_change, sink_change};
ghost use Rattle.cose_msg.specs.Detached.{TakesDetachedPayload, DetachedRun, EitherFails, TakesDetached};
ghost use Rattle.cose_msg.specs.Kept.{answered_again, is_stopped, kept_answer, WhateverTaken, WhateverVerified, HasTaken, SamePurpose};
ghost use Rattle.cose_msg.specs.Message.{given, message as reading, verdict_of, verifying, Setting};
ghost use Rattle.cose_msg.specs.Run.{FailsIf, stop_in, stops_for_intake, stops_for_sink, LeftAt};
ghost use Rattle.cose_msg.specs.Status.{payload_wanted_in};
ghost use Rattle.cose_msg.specs.Task.{rules_of, to_verify};
ghost use Rattle.cose_msg.specs.Verifier.{is_detached};

use crate::elliptic::EcVerifier;
use crate::intake::Intake;
use crate::laws::{
    deciding_goes_last, nothing_stands_after_the_bytes, payload_stays, settled_stays,
};
use crate::run::take_message;
use crate::sink::Sink;
use crate::verdict::{Stop, Verdict};
use crate::verifier::Verifier;
use cose_map::Keys;

/// Takes pieces of a detached payload until no further byte of it is wanted, or its intake has ended, and puts them into
/// the sink. A piece is as long as the chunk at most, into which it is taken.
fn take_payload<'k, const H: usize, const D: usize, K: Keys<'k>, P: Intake, S: Sink>(
    verifier: &mut Verifier<'k, H, D, K>,
    payload: &mut P,
    sink: &mut S,
    chunk: &mut [u8],
) -> Result<(), Stop>
    requires some { 1 ≤ length chunk.old }
    requires wanted { 0 < payload_wanted_in verifier.old }
    ensures brings { WhateverTaken verifier.old (λ task before payload_before.
        TakesDetachedPayload task before payload_before
        (intake_change P.to_come P.ended payload.old payload.new)
        (sink_change S.contents sink.old sink.new) (stop_in result) verifier.new) }
    ensures stopped { is_stopped verifier.new ≡ is_err result }
    ensures purpose { SamePurpose verifier.old verifier.new }
    ensures once { result ≢ Err Stop.Again }

    // It stops only for a failure in this call.
    ensures payload_failure { FailsIf P.has_failed payload.old payload.new
        (stops_for_intake result) }
    ensures sink_failure { FailsIf S.has_failed sink.old sink.new (stops_for_sink result) }
    ensures sure { WhateverTaken verifier.old (λ task _ payload_before.
        task.setting.payload_limit ≤ S.sure sink.old + length payload_before
        → stops_for_sink result ≡ false) }
{
    'pieces: loop {
        verifier.reader.lemma_reading_so_far();
        let asked = verifier.payload_wanted().min(chunk.len() as u64) as usize;
        if asked == 0 {
            return Ok(());
        }
        let count = match payload.take(&mut chunk[..asked]) {
            Ok(count) => count,
            Err(_) => {
                verifier.stop();
                return Err(Stop::Intake);
            }
        };
        if count == 0 {
            return Ok(());
        }
        let piece = &chunk[..count];
        verifier.feed_payload(piece);
        verifier.reader.lemma_reading_so_far();
        if sink.put(piece).is_err() {
            verifier.stop();
            return Err(Stop::Sink);
        }
    }
}

/// Takes pieces of a message and of its detached payload: the message up to its nil, the payload, and the rest of the
/// message, unless bytes are missing before.
fn take_detached<'k, const H: usize, const D: usize, K: Keys<'k>, I: Intake, P: Intake, S: Sink>(
    verifier: &mut Verifier<'k, H, D, K>,
    message: &mut I,
    payload: &mut P,
    sink: &mut S,
    chunk: &mut [u8],
) -> Result<(), Stop>
    requires some { 1 ≤ length chunk.old }
    requires limit { length chunk.old ≤ 65536 }
    requires goes_on { is_stopped verifier.old ≡ false }
    requires detached { is_detached verifier.old ≡ true }
    ensures takes { WhateverTaken verifier.old (λ task before payload_before.
        TakesDetached task before payload_before
        (intake_change I.to_come I.ended message.old message.new)
        (intake_change P.to_come P.ended payload.old payload.new)
        (sink_change S.contents sink.old sink.new) (stop_in result) verifier.new) }
    ensures stopped { is_stopped verifier.new ≡ is_err result }
    ensures purpose { SamePurpose verifier.old verifier.new }
    ensures once { result ≢ Err Stop.Again }

    // It stops only for a failure in this call.
    ensures intake_failure { EitherFails (stops_for_intake result) I.has_failed message.old
        message.new P.has_failed payload.old payload.new }
    ensures sink_failure { FailsIf S.has_failed sink.old sink.new (stops_for_sink result) }
    ensures sure { WhateverTaken verifier.old (λ task _ _.
        task.setting.payload_limit ≤ S.sure sink.old → stops_for_sink result ≡ false) }
{
    // The law of messages that the proof cites.
    payload_stays();
    take_message(verifier, message, sink, chunk)?;
    verifier.reader.lemma_reading_so_far();
    if verifier.payload_wanted() == 0 {
        return Ok(());
    }
    take_payload(verifier, payload, sink, chunk)?;
    verifier.reader.lemma_reading_so_far();
    if verifier.payload_wanted() > 0 {
        return Ok(());
    }
    let result = take_message(verifier, message, sink, chunk);
    verifier.reader.lemma_reading_so_far();
    result
}

/// Verifies one message whose payload is detached (RFC 9052 sections 4.2 and 6.2): as [`verify`](crate::verify), but the message
/// has nil in the place of the payload, whose bytes come from an intake of their own, as many as are stated. They go to the sink
/// as they come. Where that intake ends early, the message is refused as Truncated at its nil.
///
/// Of the payload it takes nothing before the message's nil, and no byte after the stated length. Both intakes are taken into the
/// same `C` bytes: nothing is held of the payload in addition to them. A device whose payload comes when the message has gone by
/// feeds both instead ([`Verifier::feed`], [`Verifier::feed_payload`]); the verdict is the same, since both give that of the two
/// lists of bytes.
///
/// The verifier is one that [`Verifier::detached`] made.
pub fn verify_detached<
    'k,
    const C: usize,
    const H: usize,
    const D: usize,
    K: Keys<'k>,
    I: Intake,
    P: Intake,
    S: Sink,
    E: EcVerifier,
>(
    verifier: &mut Verifier<'k, H, D, K>,
    message: &mut I,
    payload: &mut P,
    sink: &mut S,
    ec: &E,
) -> Result<Verdict, Stop>
    requires some { 1 ≤ C }
    requires limit { C ≤ 65536 }
    requires detached { is_detached verifier.old ≡ true }
    // What was taken of the message and of the payload, the result, what the sink got, what the verifier gives, and the
    // status of the message.
    ensures run { WhateverVerified verifier.old (λ setting before payload_before.
        (taken : List ℕ) × (came : List ℕ)
        × DetachedRun (verifying H D (given (payload_before ++ came) setting) (E.decides ec.now))
        before payload_before (intake_change I.to_come I.ended message.old message.new)
        (intake_change P.to_come P.ended payload.old payload.new)
        (sink_change S.contents sink.old sink.new) result taken came
        × LeftAt (to_verify (given (payload_before ++ came) setting)) (before ++ taken)
        result verifier.new) }
    // (The payload so far, before the call, is that of the bytes so far.)
    ensures before { WhateverVerified verifier.old (λ setting before payload_before.
        (reading (rules_of H D (to_verify setting)) before).so_far.payload ≡ payload_before) }
    // Where the bytes to come of both are known to the contract, the verdict is that of all of them.
    ensures answer { (setting : Setting) (before payload_before bytes more : List ℕ)
        → HasTaken (to_verify setting) before payload_before verifier.old
        → I.to_come message.old ≡ Some bytes → P.to_come payload.old ≡ Some more
        → IfOk result (λ verdict.
        verdict_of H D (given (payload_before ++ more) setting) (E.decides ec.now)
        (before ++ bytes) ≡ decided verdict) }

    // The answer is kept, and a kept one is answered again.
    ensures kept { kept_answer verifier.new ≡ Some (answered_again result) }
    ensures again { (answer : Result Verdict Stop) → kept_answer verifier.old ≡ Some answer
        → (result ≡ answer) × (verifier.new ≡ verifier.old) × (message.new ≡ message.old)
        × (payload.new ≡ payload.old) × (sink.new ≡ sink.old) }
    ensures stopped { (result ≡ Err Stop.Again) ↔ (is_stopped verifier.old ≡ true) }
    ensures purpose { SamePurpose verifier.old verifier.new }

    // It stops only for a failure in this call.
    ensures intake_failure { EitherFails (stops_for_intake result) I.has_failed message.old
        message.new P.has_failed payload.old payload.new }
    ensures sink_failure { FailsIf S.has_failed sink.old sink.new (stops_for_sink result) }
    // A sink that is sure of every payload doesn't stop it.
    ensures sure { WhateverVerified verifier.old (λ setting _ _.
        setting.payload_limit ≤ S.sure sink.old → stops_for_sink result ≡ false) }
{
    // Laws of messages that the proof cites.
    settled_stays();
    nothing_stands_after_the_bytes();
    deciding_goes_last();
    payload_stays();
    verifier.reader.lemma_reading_so_far();
    match verifier.kept_answer() {
        Some(answer) => return answer,
        None => {}
    }
    let mut chunk = [0u8; C];
    match take_detached(verifier, message, payload, sink, &mut chunk) {
        Ok(()) => Ok(verifier.conclude(ec)),
        Err(stop) => Err(stop),
    }
}
