//! What is asked of a message: its verdict, or what its signature is verified with.

ghost use Rattle.std.specs.Prelude.{◌≡◌, ◌≤◌, ◌||◌, ℕ, false, List, Option, Some, None, Err, IfErr, IfOk, codes, map, string_bytes};
ghost use Rattle.cose_head.specs.declared.refusal.Refusal.{Refusal};
ghost use Rattle.cose_msg.specs.Detached.{EitherFails};
ghost use Rattle.cose_msg.specs.Kept.{bytes_taken};
ghost use Rattle.cose_msg.specs.Shown.{protected_of, sign_input_of, unprotected_of};
ghost use Rattle.cose_answers.specs.Faults.{FailsForKeys, IsOfMemoryOrInput, NamesOption, fails_by_file, fails_by_input};
ghost use Rattle.cose_answers.specs.Limits.{AreSizesUnder};
ghost use Rattle.cose_answers.specs.Payload.{part_of_file};
ghost use Rattle.cose_answers.specs.Payload.{detached_in, is_in_file};
ghost use Rattle.cose_answers.specs.PayloadFile.{counted};
ghost use Rattle.cose_answers.specs.Printed.{Says, answered_under, digested_before, followed_by, said_before, said_of, said_with, vouched};
ghost use Rattle.cose_answers.specs.Replies.{RepliesTo, RepliesToBoth};
ghost use Rattle.cose_answers.specs.Stated.{RepliesWith, answered_from};
ghost use Rattle.cose_answers.specs.Under.{under_of};

use crate::answers::headers::{Buckets, headed_reply};
use crate::answers::verdict::{CHUNK, reply_of, trailing_at, whole_verdict};
use crate::fault::Fault;
use crate::limits::{
    LARGE_HEADER, LARGE_KEYS, LARGE_NESTING, Limits, SMALL_HEADER, SMALL_KEYS, SMALL_NESTING,
};
use crate::payload_file::PayloadFile;
use crate::reply::{Reply, Status};
use crate::request::{Checks, Payload, Question};
use crate::vouch::word_for;
use cose_files::NamedFiles;
use cose_msg::laws::{
    deciding_goes_last, payload_stays, settled_stays, spelled_is_read, unrefused_is_message,
};
use cose_msg::{
    Intake, KeyTable, Nothing, ReadIntake, SliceIntake, Verdict, Verifier, verify, verify_detached,
};
use std::alloc::Global;
use std::io::Read;

/// The line that prints the argument of `--vouch`.
fn word_reply(alloc: Global, word: &[u8]) -> Result<Reply, Fault>
    ensures says { IfOk result (Says (vouched word.now)) }
    ensures fault { IfErr result (λ fault. fault ≡ Fault.Memory) }
{
    let word = hex::encode(alloc, word)?;
    let text = format!(in alloc; "vouch {word}\n")?;
    let status = Status::Done;
    Ok(Reply { status, text })
}

/// The reply with the verdict on a message, which no byte may follow.
fn verdict_reply<I: Intake>(alloc: Global, verdict: Verdict, intake: &mut I) -> Result<Reply, Fault>
    ensures says { RepliesTo (I.to_come intake.old) (λ rest. said_of (followed_by rest verdict))
        result }
    ensures fault { IfErr result IsOfMemoryOrInput }
    ensures input { I.has_failed intake.new ≡ (I.has_failed intake.old || fails_by_input result) }
{
    let verdict = whole_verdict(verdict, intake)?;
    reply_of(alloc, verdict)
}

/// The reply with what the signature of a message is verified with, and without a signature the one with its verdict. No byte
/// may follow the message.
fn signature_reply<'k, const H: usize, const D: usize, const N: usize, I: Intake>(
    alloc: Global,
    verdict: Verdict,
    verifier: &Verifier<'k, H, D, KeyTable<'k, N>>,
    intake: &mut I,
) -> Result<Reply, Fault>
    ensures says { RepliesTo (I.to_come intake.old)
        (λ rest. digested_before rest (sign_input_of verifier.now) (bytes_taken verifier.now)
        verdict) result }
    ensures fault { IfErr result IsOfMemoryOrInput }
    ensures input { I.has_failed intake.new ≡ (I.has_failed intake.old || fails_by_input result) }
{
    let Some((key, digest, signature)) = verifier.sign_input() else {
        return verdict_reply(alloc, verdict, intake);
    };
    match trailing_at(verifier.taken(), intake)? {
        Some(refusal) => reply_of(alloc, Verdict::Refused(refusal)),
        None => {
            let word = word_for(alloc, &key, digest, signature)?;
            word_reply(alloc, word.as_slice())
        }
    }
}

/// The reply with the verdict on a message, which no byte may follow, and of an authentic one with
/// the parameters that have these labels.
fn parameters_reply<'k, const H: usize, const D: usize, const N: usize, I: Intake>(
    alloc: Global,
    labels: &[String],
    verdict: Verdict,
    verifier: &Verifier<'k, H, D, KeyTable<'k, N>>,
    intake: &mut I,
) -> Result<Reply, Fault>
    ensures says { RepliesTo (I.to_come intake.old) (λ rest. said_with
        (map string_bytes labels.now) (protected_of verifier.now) (unprotected_of verifier.now)
        (followed_by rest verdict)) result }
    ensures fault { IfErr result IsOfMemoryOrInput }
    ensures input { I.has_failed intake.new ≡ (I.has_failed intake.old || fails_by_input result) }
{
    let verdict = whole_verdict(verdict, intake)?;
    let buckets = Buckets {
        protected: verifier.protected(),
        unprotected: verifier.unprotected(),
    };
    headed_reply(alloc, verdict, labels, &buckets)
}

/// The reply to what is asked of a message that the verifier has read, with this verdict.
fn reply_to<'k, const H: usize, const D: usize, const N: usize, I: Intake>(
    alloc: Global,
    question: &Question,
    verdict: Verdict,
    verifier: &Verifier<'k, H, D, KeyTable<'k, N>>,
    intake: &mut I,
) -> Result<Reply, Fault>
    ensures says { RepliesTo (I.to_come intake.old)
        (λ rest. said_before question.now rest (sign_input_of verifier.now)
        (bytes_taken verifier.now) (protected_of verifier.now) (unprotected_of verifier.now)
        verdict) result }
    ensures fault { IfErr result IsOfMemoryOrInput }
    ensures input { I.has_failed intake.new ≡ (I.has_failed intake.old || fails_by_input result) }
{
    match question {
        Question::Verdict => verdict_reply(alloc, verdict, intake),
        Question::Digest => signature_reply(alloc, verdict, verifier, intake),
        Question::Headers(labels) => {
            parameters_reply(alloc, labels.as_slice(), verdict, verifier, intake)
        }
    }
}

/// The reply to the message of an intake, which has its payload: the key set is read before the intake is asked.
#[inline(never)]
fn attached_reply<const H: usize, const D: usize, const N: usize, I: Intake>(
    alloc: Global,
    question: &Question,
    checks: &Checks,
    intake: &mut I,
) -> Result<Reply, Fault>
    requires some_room { 16 ≤ H }
    requires limit { H ≤ 65535 }
    requires nesting { D ≤ 32 }
    requires some_keys { 1 ≤ N }
    requires keys_limit { N ≤ 256 }
    requires sizes { AreSizesUnder checks.now.limits H D N }
    ensures says { RepliesTo (I.to_come intake.old)
        (answered_under question.now (under_of checks.now) None) result }
    ensures keys { FailsForKeys (under_of checks.now).keys result }
    // Its fault is that the input failed exactly where the intake failed in this call.
    ensures input { I.has_failed intake.new ≡ (I.has_failed intake.old || fails_by_input result) }
{
    // Laws of messages that the proof cites.
    settled_stays();
    deciding_goes_last();
    spelled_is_read();
    unrefused_is_message();
    let keys = match checks.key_table::<N>() {
        Ok(keys) => keys,
        Err(refusal) => return Err(Fault::Keys(refusal)),
    };
    let context = checks.context(keys);
    let vouch = checks.vouch();
    let mut verifier = Verifier::<H, D, KeyTable<'_, N>>::new(context);
    match verify::<CHUNK, H, D, _, _, _, _>(&mut verifier, intake, &mut Nothing, &vouch) {
        Ok(verdict) => reply_to(alloc, question, verdict, &verifier, intake),
        // The sink `Nothing` never fails, and a new verifier hasn't stopped.
        Err(_) => Err(Fault::Input),
    }
}

/// The reply to the message of an intake, which has nil in the place of the payload. The payload has so many bytes, and they
/// come from an intake of their own. The key set is read before either intake is asked.
#[inline(never)]
fn detached_reply<const H: usize, const D: usize, const N: usize, I: Intake, P: Intake>(
    alloc: Global,
    question: &Question,
    checks: &Checks,
    payload_length: u64,
    payload: &mut P,
    intake: &mut I,
) -> Result<Reply, Fault>
    requires some_room { 16 ≤ H }
    requires limit { H ≤ 65535 }
    requires nesting { D ≤ 32 }
    requires some_keys { 1 ≤ N }
    requires keys_limit { N ≤ 256 }
    requires sizes { AreSizesUnder checks.now.limits H D N }
    ensures says { RepliesWith question.now (under_of checks.now) payload_length
        (I.to_come intake.old) (P.to_come payload.old) (P.to_come payload.new)
        (P.ended payload.new) result }
    ensures keys { FailsForKeys (under_of checks.now).keys result }
    // One of the intakes has failed in this call, where the fault is of an input, and otherwise none.
    ensures failure { EitherFails (fails_by_input result)
        I.has_failed intake.old intake.new
        P.has_failed payload.old payload.new }
    ensures no_file { fails_by_file result ≡ false }
{
    // Laws of messages that the proof cites.
    settled_stays();
    deciding_goes_last();
    spelled_is_read();
    unrefused_is_message();
    let keys = match checks.key_table::<N>() {
        Ok(keys) => keys,
        Err(refusal) => return Err(Fault::Keys(refusal)),
    };
    let context = checks.context(keys);
    let vouch = checks.vouch();
    let mut verifier = Verifier::<H, D, KeyTable<'_, N>>::detached(context, payload_length);
    let verdict = verify_detached::<CHUNK, H, D, _, _, _, _, _>(
        &mut verifier,
        intake,
        payload,
        &mut Nothing,
        &vouch,
    );
    match verdict {
        Ok(verdict) => reply_to(alloc, question, verdict, &verifier, intake),
        // The sink `Nothing` never fails, and a new verifier hasn't stopped.
        Err(_) => Err(Fault::Input),
    }
}

/// The same within the limits of the checks.
fn reply_to_detached<I: Intake, P: Intake>(
    alloc: Global,
    question: &Question,
    checks: &Checks,
    payload_length: u64,
    payload: &mut P,
    intake: &mut I,
) -> Result<Reply, Fault>
    ensures says { RepliesWith question.now (under_of checks.now) payload_length
        (I.to_come intake.old) (P.to_come payload.old) (P.to_come payload.new)
        (P.ended payload.new) result }
    ensures keys { FailsForKeys (under_of checks.now).keys result }
    ensures failure { EitherFails (fails_by_input result)
        I.has_failed intake.old intake.new
        P.has_failed payload.old payload.new }
    ensures no_file { fails_by_file result ≡ false }
{
    match checks.limits {
        Limits::Small => detached_reply::<SMALL_HEADER, SMALL_NESTING, SMALL_KEYS, _, _>(
            alloc,
            question,
            checks,
            payload_length,
            payload,
            intake,
        ),
        Limits::Large => detached_reply::<LARGE_HEADER, LARGE_NESTING, LARGE_KEYS, _, _>(
            alloc,
            question,
            checks,
            payload_length,
            payload,
            intake,
        ),
    }
}

/// The reply to the message of an intake, which has nil in the place of the payload. The payload's bytes are these.
fn reply_with_bytes<I: Intake>(
    alloc: Global,
    question: &Question,
    checks: &Checks,
    payload: &[u8],
    intake: &mut I,
) -> Result<Reply, Fault>
    ensures says { RepliesTo (I.to_come intake.old)
        (answered_under question.now (under_of checks.now) (Some payload.now)) result }
    ensures keys { FailsForKeys (under_of checks.now).keys result }
    // Its fault is that the input failed exactly where the intake failed in this call.
    ensures input { I.has_failed intake.new ≡ (I.has_failed intake.old || fails_by_input result) }
{
    // Laws of messages that the proof cites: what comes of a payload changes nothing where none of it is wanted.
    deciding_goes_last();
    payload_stays();
    let payload_length = payload.len() as u64;
    let mut payload = SliceIntake::new(payload, CHUNK);
    reply_to_detached(
        alloc,
        question,
        checks,
        payload_length,
        &mut payload,
        intake,
    )
}

/// The reply to the message of an intake whose payload comes from a file, so many of its first bytes.
fn reply_with_file<I: Intake, R: Read>(
    alloc: Global,
    question: &Question,
    checks: &Checks,
    payload_length: u64,
    payload: &mut PayloadFile<R>,
    intake: &mut I,
) -> Result<Reply, Fault>
    requires sound { ⟦<PayloadFile<R> as Intake>⟧.has_failed payload.old ≡ false }
    ensures says { (bytes content : List ℕ) → I.to_come intake.old ≡ Some bytes →
        ⟦<PayloadFile<R> as Intake>⟧.to_come payload.old
        ≡ counted payload_length (Some content)
        → IfOk result
        (Says (answered_from question.now (under_of checks.now) payload_length content bytes)) }
    ensures keys { FailsForKeys (under_of checks.now).keys result }
    // Its fault is that the file failed, or the input, exactly where it failed in this call.
    ensures file { ⟦<PayloadFile<R> as Intake>⟧.has_failed payload.new ≡ fails_by_file result }
    ensures option { IfErr result (NamesOption (codes "payload-file")) }
    ensures input { I.has_failed intake.new ≡ (I.has_failed intake.old || fails_by_input result) }
{
    // Laws of messages that the proof cites: what comes of a payload changes nothing where none of it is wanted.
    deciding_goes_last();
    payload_stays();
    match reply_to_detached(alloc, question, checks, payload_length, payload, intake) {
        Ok(reply) => Ok(reply),
        Err(_) if payload.has_failed() => Err(Fault::File("payload-file")),
        Err(fault) => Err(fault),
    }
}

/// The reply to what is asked of a message, with a payload that comes from a reader, next to the message: its first bytes, as many
/// as are stated.
///
/// Of `payload` it reads nothing before the message's nil, in pieces of at most 4,096 bytes, and nothing after the stated length.
/// An error of `payload`, and an end before the stated length, is a fault, and no verdict.
fn message_reply_with_file<P: Read, I: Intake>(
    alloc: Global,
    question: &Question,
    checks: &Checks,
    payload_length: u64,
    payload: &mut P,
    intake: &mut I,
) -> Result<Reply, Fault>
    ensures says { RepliesToBoth (I.to_come intake.old) (P.remaining payload.old)
        (answered_from question.now (under_of checks.now) payload_length) result }
    ensures keys { FailsForKeys (under_of checks.now).keys result }
{
    let mut file = PayloadFile::new(payload, payload_length);
    reply_with_file(alloc, question, checks, payload_length, &mut file, intake)
}

/// The reply to what is asked of a message, whose payload is in the file of this name. Not inlined: nothing else is to take the
/// stack that files take.
#[inline(never)]
fn reply_from_file<F: NamedFiles, I: Intake>(
    alloc: Global,
    files: &F,
    question: &Question,
    checks: &Checks,
    name: &str,
    stated: Option<u64>,
    intake: &mut I,
) -> Result<Reply, Fault>
    ensures says { (bytes payload : List ℕ) → I.to_come intake.old ≡ Some bytes →
        part_of_file (F.content files.now) name.now stated ≡ Some payload →
        IfOk result
        (Says (answered_under question.now (under_of checks.now) (Some payload) bytes)) }
    // The fault is of the keys only where their set is refused.
    ensures keys { (refusal : Refusal) → result ≡ Err (Fault.Keys refusal) →
        (under_of checks.now).keys ≡ Err refusal }
{
    let (mut file, length) = match files.open_with_length(name, stated) {
        Ok(opened) => opened,
        Err(error) => return Err(Fault::file("payload-file", &error)),
    };
    message_reply_with_file(alloc, question, checks, length, &mut file, intake)
}

/// The reply to what is asked of the message on the input, whose payload is where the request says.
pub fn message_reply<F: NamedFiles, R: Read>(
    alloc: Global,
    files: &F,
    question: &Question,
    checks: &Checks,
    payload: &Payload,
    input: &mut R,
) -> Result<Reply, Fault>
    ensures says { (bytes : List ℕ) (detached : Option (List ℕ))
        → R.remaining input.old ≡ Some bytes →
        detached_in (F.content files.now) payload.entry.now ≡ Some detached →
        IfOk result (Says (answered_under question.now (under_of checks.now) detached bytes)) }
    // Where the payload is in no file, the fault is of the keys exactly where their set is refused.
    ensures keys { is_in_file payload.entry.now ≡ false →
        FailsForKeys (under_of checks.now).keys result }
{
    let mut intake = ReadIntake::new(input);
    match payload {
        Payload::InMessage => match checks.limits {
            Limits::Small => attached_reply::<SMALL_HEADER, SMALL_NESTING, SMALL_KEYS, _>(
                alloc,
                question,
                checks,
                &mut intake,
            ),
            Limits::Large => attached_reply::<LARGE_HEADER, LARGE_NESTING, LARGE_KEYS, _>(
                alloc,
                question,
                checks,
                &mut intake,
            ),
        },
        Payload::Bytes(bytes) => {
            reply_with_bytes(alloc, question, checks, bytes.as_slice(), &mut intake)
        }
        Payload::File { name, length } => {
            reply_from_file(alloc, files, question, checks, name, *length, &mut intake)
        }
    }
}
