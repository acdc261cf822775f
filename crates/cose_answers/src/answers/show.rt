//! The lines of the command `show`: the shape of a message, what is in its headers, and its payload.

ghost use Rattle.std.specs.Prelude.{◌≡◌, ◌≤◌, ◌++◌, ◌&&◌, ◌||◌, ℕ, true, false, List, [], Some, Err, IfErr, IfOk, codes, is_err, length, option_map, string_bytes};
ghost use Rattle.cose_head.specs.ItemRef.{placed};
ghost use Rattle.cose_map.specs.Bucket.View.{bucket_pairs};
ghost use Rattle.cose_msg.specs.Kept.{HasTaken, is_inspecting};
ghost use Rattle.cose_msg.specs.Message.{Setting};
ghost use Rattle.cose_msg.specs.Run.{inspection};
ghost use Rattle.cose_msg.specs.Shown.{protected_of, unprotected_of};
ghost use Rattle.cose_msg.specs.Task.{to_inspect};
ghost use Rattle.cose_msg.specs.Verifier.{is_detached};
ghost use Rattle.cose_answers.specs.Faults.{fails_by_input};
ghost use Rattle.cose_answers.specs.Inspection.{IsInspection};
ghost use Rattle.cose_answers.specs.Printed.{Says, bucket_lines, detached_said, header_lines, is_for_nil, item_line, refusal_shown, shape_said, shown, shown_as, shown_in};
ghost use Rattle.cose_answers.specs.Readable.{item_or_bytes, no_payload_shown, pair_notation, payload_line, payload_shown};

use crate::answers::cwt::token_context;
use crate::answers::verdict::{CHUNK, program_context, reply_of, trailing_at};
use crate::answers::words::{push_hex, push_named_hex};
use crate::fault::Fault;
use crate::limits::{
    LARGE_CLAIMS, LARGE_HEADER, LARGE_NESTING, Limits, SMALL_CLAIMS, SMALL_HEADER, SMALL_NESTING,
};
use crate::line::word_of;
use crate::reply::{Reply, Status};
use crate::request::Details;
use cose_head::ItemRef;
use cose_map::Bucket;
use cose_msg::laws::settled_stays;
use cose_msg::{
    Inspected, Intake, KeySet, Kind, Nothing, ReadIntake, Reason, Refusal, Sink, Store, Verdict,
    Verifier, Wanted, inspect,
};
use cose_text::push_diagnostic;
use std::alloc::Global;
use std::io::Read;

/// The empty key set: inspecting a message needs no key.
const NO_KEYS: &[u8] = &[0xa0];

/// The shape of a message.
#[derive(Clone, Copy)]
struct Shape {
    kind: Kind,
    payload: u64,
    auth: u64,
    taken: u64,
}

/// Appends a label and a value in diagnostic notation, where it is asked for.
fn push_notation(
    alloc: Global,
    text: &mut String,
    label: &ItemRef,
    value: &ItemRef,
    diagnostic: bool,
) -> Result<(), Fault>
    ensures text { IfOk result (λ _. string_bytes text.new ≡ string_bytes text.old
        ++ pair_notation diagnostic (placed label.now) (placed value.now)) }
    ensures fault { IfErr result (λ fault. fault ≡ Fault.Memory) }
{
    if !diagnostic {
        return Ok(());
    }
    text.push_str(" ")?;
    push_diagnostic(alloc, text, label)?;
    text.push_str(": ")?;
    push_diagnostic(alloc, text, value)?;
    Ok(())
}

/// Appends the line of a pair: the bytes of its label and of its value.
fn push_pair(
    alloc: Global,
    text: &mut String,
    name: &str,
    label: &ItemRef,
    value: &ItemRef,
    diagnostic: bool,
) -> Result<(), Fault>
    ensures line { IfOk result (λ _. string_bytes text.new ≡ string_bytes text.old
        ++ item_line diagnostic name.now (placed label.now) (placed value.now)) }
    ensures fault { IfErr result (λ fault. fault ≡ Fault.Memory) }
{
    push_named_hex(alloc, text, name, label.bytes)?;
    text.push_str(" ")?;
    push_hex(alloc, text, value.bytes)?;
    push_notation(alloc, text, label, value, diagnostic)?;
    text.push_str("\n")?;
    Ok(())
}

/// Appends a line for each pair of a bucket, in the order of the message.
fn push_pairs(
    alloc: Global,
    text: &mut String,
    name: &str,
    bucket: Option<Bucket>,
    diagnostic: bool,
) -> Result<(), Fault>
    ensures lines { IfOk result (λ _. string_bytes text.new
        ≡ string_bytes text.old ++ bucket_lines diagnostic name.now
        (option_map bucket_pairs bucket.entry)) }
    ensures fault { IfErr result (λ fault. fault ≡ Fault.Memory) }
{
    let Some(bucket) = bucket else {
        return Ok(());
    };
    'pairs: for (_label, label, value) in bucket.pairs() {
        push_pair(alloc, text, name, &label, &value, diagnostic)?;
    }
    Ok(())
}

/// Appends the lines of both buckets, as this verifier gives them.
fn push_headers<const H: usize, const D: usize>(
    alloc: Global,
    text: &mut String,
    verifier: &Verifier<H, D>,
    diagnostic: bool,
) -> Result<(), Fault>
    ensures lines { IfOk result (λ _. string_bytes text.new ≡ string_bytes text.old
        ++ header_lines diagnostic (protected_of verifier.now) (unprotected_of verifier.now)) }
    ensures fault { IfErr result (λ fault. fault ≡ Fault.Memory) }
{
    push_pairs(alloc, text, "protected", verifier.protected(), diagnostic)?;
    push_pairs(
        alloc,
        text,
        "unprotected",
        verifier.unprotected(),
        diagnostic,
    )
}

/// Appends bytes that are no item, and why.
fn push_no_item(
    alloc: Global,
    text: &mut String,
    bytes: &[u8],
    refusal: Refusal,
) -> Result<(), Fault>
    ensures words { IfOk result (λ _. string_bytes text.new
        ≡ string_bytes text.old ++ item_or_bytes bytes.now (Err refusal)) }
    ensures fault { IfErr result (λ fault. fault ≡ Fault.Memory) }
{
    text.push_str("h'")?;
    push_hex(alloc, text, bytes)?;
    let words = format!(in alloc; "' refused {refusal}")?;
    text.push_str(words.as_str())?;
    Ok(())
}

/// Appends the line of a payload: one item of CBOR of a nesting of at most `depth` in diagnostic notation, or the bytes, and why
/// they are no such item.
fn push_payload(alloc: Global, text: &mut String, payload: &[u8], depth: usize) -> Result<(), Fault>
    requires nesting { depth ≤ 32 }
    ensures line { IfOk result (λ _. string_bytes text.new
        ≡ string_bytes text.old ++ payload_line depth payload.now) }
    ensures fault { IfErr result (λ fault. fault ≡ Fault.Memory) }
{
    text.push_str("payload ")?;
    match ItemRef::read(payload, 0, depth) {
        Ok(item) => push_diagnostic(alloc, text, &item)?,
        Err(refusal) => push_no_item(alloc, text, payload, refusal)?,
    }
    text.push_str("\n")?;
    Ok(())
}

/// Appends the line of a payload, where it is asked for.
fn push_payload_if(
    alloc: Global,
    text: &mut String,
    payload: &[u8],
    depth: usize,
    asked: bool,
) -> Result<(), Fault>
    requires nesting { depth ≤ 32 }
    ensures line { IfOk result (λ _. string_bytes text.new
        ≡ string_bytes text.old ++ payload_shown asked depth payload.now) }
    ensures fault { IfErr result (λ fault. fault ≡ Fault.Memory) }
{
    if !asked {
        return Ok(());
    }
    push_payload(alloc, text, payload, depth)
}

/// The line of a payload that the message doesn't have, where it is asked for.
fn no_payload(asked: bool) -> &'static str
    ensures { result.now ≡ no_payload_shown asked }
{
    if asked {
        return "payload elsewhere\n";
    }
    ""
}

/// The lines of a message of this shape, which this verifier has inspected, and which has this payload.
fn shape_reply<const H: usize, const D: usize>(
    alloc: Global,
    shape: Shape,
    verifier: &Verifier<H, D>,
    details: Details,
    content: &[u8],
) -> Result<Reply, Fault>
    requires nesting { D ≤ 32 }
    ensures says { IfOk result
        (Says (shape_said details D shape.kind shape.payload shape.auth shape.taken
        (protected_of verifier.now) (unprotected_of verifier.now) content.now)) }
    ensures fault { IfErr result (λ fault. fault ≡ Fault.Memory) }
{
    let Shape {
        kind,
        payload,
        auth,
        taken,
    } = shape;
    let kind = word_of(kind);
    let mut text = format!(in alloc; "shape {kind} payload {payload} auth {auth} taken {taken}\n")?;
    push_headers(alloc, &mut text, verifier, details.diagnostic)?;
    push_payload_if(alloc, &mut text, content, D, details.payload)?;
    let status = Status::Done;
    Ok(Reply { status, text })
}

/// The lines of a message that this verifier has inspected, and that has nil at this place instead of its payload.
fn nil_reply<const H: usize, const D: usize>(
    alloc: Global,
    place: u64,
    verifier: &Verifier<H, D>,
    details: Details,
) -> Result<Reply, Fault>
    ensures says { IfOk result (Says (detached_said details place (protected_of verifier.now)
        (unprotected_of verifier.now))) }
    ensures fault { IfErr result (λ fault. fault ≡ Fault.Memory) }
{
    let mut text = format!(in alloc; "detached at {place}\n")?;
    push_headers(alloc, &mut text, verifier, details.diagnostic)?;
    text.push_str(no_payload(details.payload))?;
    let status = Status::Done;
    Ok(Reply { status, text })
}

/// Whether a refusal is for the nil of a detached payload, and such a message is to be shown.
fn is_shown(reason: Reason, detached: bool) -> bool
    ensures { result ≡ (is_for_nil reason && detached) }
{
    matches!(reason, Reason::Detached) && detached
}

/// The reply to a message that this verifier has refused.
fn refused_reply<const H: usize, const D: usize>(
    alloc: Global,
    refusal: Refusal,
    verifier: &Verifier<H, D>,
    details: Details,
) -> Result<Reply, Fault>
    ensures says { IfOk result (Says (refusal_shown details (protected_of verifier.now)
        (unprotected_of verifier.now) refusal)) }
    ensures fault { IfErr result (λ fault. fault ≡ Fault.Memory) }
{
    if is_shown(refusal.reason, details.detached) {
        return nil_reply(alloc, refusal.place, verifier, details);
    }
    reply_of(alloc, Verdict::Refused(refusal))
}

/// The reply to a message that this verifier has inspected, and that has this payload.
fn inspected_reply<const H: usize, const D: usize>(
    alloc: Global,
    inspected: Inspected,
    verifier: &Verifier<H, D>,
    details: Details,
    content: &[u8],
) -> Result<Reply, Fault>
    requires nesting { D ≤ 32 }
    ensures says { IfOk result (Says (shown_as details D (protected_of verifier.now)
        (unprotected_of verifier.now) content.now (inspection inspected))) }
    ensures fault { IfErr result (λ fault. fault ≡ Fault.Memory) }
{
    match inspected {
        Inspected::Shape {
            kind,
            payload,
            auth,
            taken,
        } => {
            let shape = Shape {
                kind,
                payload,
                auth,
                taken,
            };
            shape_reply(alloc, shape, verifier, details, content)
        }
        Inspected::Refused(refusal) => refused_reply(alloc, refusal, verifier, details),
    }
}

/// What inspecting finds of the message of an intake, to which no byte is left after a shape. The payload goes into the sink as it
/// comes.
fn whole_inspection<const H: usize, const D: usize, I: Intake, S: Sink>(
    verifier: &mut Verifier<H, D>,
    intake: &mut I,
    sink: &mut S,
) -> Result<Inspected, Fault>
    requires inspects { is_inspecting verifier.old ≡ true }
    requires attached { is_detached verifier.old ≡ false }
    ensures whole { (setting : Setting) (bytes : List ℕ)
        → HasTaken (to_inspect setting) [] [] verifier.old → I.to_come intake.old ≡ Some bytes →
        IfOk result (IsInspection H D setting bytes verifier.new (S.contents sink.old)
        (S.contents sink.new)) }
    ensures fault { IfErr result (λ fault. fault ≡ Fault.Input) }
    // Where the sink is sure of every payload, it fails exactly where the intake failed in this call.
    ensures failure { (setting : Setting) → HasTaken (to_inspect setting) [] [] verifier.old →
        setting.payload_limit ≤ S.sure sink.old →
        I.has_failed intake.new ≡ (I.has_failed intake.old || is_err result) }
{
    // A law of messages that the proof cites.
    settled_stays();
    match inspect::<CHUNK, H, D, _, _, _>(verifier, intake, sink) {
        Ok(Inspected::Refused(refusal)) => Ok(Inspected::Refused(refusal)),
        Ok(
            Inspected::Shape {
                kind,
                payload,
                auth,
                taken,
            },
        ) => match trailing_at(taken, intake)? {
            Some(refusal) => Ok(Inspected::Refused(refusal)),
            None => Ok(Inspected::Shape {
                kind,
                payload,
                auth,
                taken,
            }),
        },
        // Of a sink that isn't sure of the payload this may be the failure too.
        Err(_) => Err(Fault::Input),
    }
}

/// The reply to the message of an intake, whose payload isn't asked for.
#[inline(never)]
fn reply_without_payload<const H: usize, const D: usize, I: Intake>(
    alloc: Global,
    wanted: Wanted,
    details: Details,
    intake: &mut I,
) -> Result<Reply, Fault>
    requires some_room { 16 ≤ H }
    requires limit { H ≤ 65535 }
    requires nesting { D ≤ 32 }
    requires unasked { details.payload ≡ false }
    ensures says { (claims : ℕ) (bytes : List ℕ) → I.to_come intake.old ≡ Some bytes →
        IfOk result (Says (shown_in H D claims wanted details bytes)) }
    // Its fault is that the input failed exactly where the intake failed in this call.
    ensures input { I.has_failed intake.new ≡ (I.has_failed intake.old || fails_by_input result) }
{
    let keys = match KeySet::read(NO_KEYS) {
        Ok(keys) => keys,
        Err(refusal) => return Err(Fault::Keys(refusal)),
    };
    let mut verifier = Verifier::<H, D>::inspecting(program_context(keys, b"", wanted));
    let inspected = whole_inspection(&mut verifier, intake, &mut Nothing)?;
    inspected_reply(alloc, inspected, &verifier, details, b"")
}

/// The reply to the message of an intake, whose payload is asked for, and has at most `L` bytes.
#[inline(never)]
fn reply_with_payload<const H: usize, const D: usize, const L: usize, I: Intake>(
    alloc: Global,
    wanted: Wanted,
    details: Details,
    intake: &mut I,
) -> Result<Reply, Fault>
    requires some_room { 16 ≤ H }
    requires limit { H ≤ 65535 }
    requires nesting { D ≤ 32 }
    requires store_limit { L ≤ 65535 }
    requires asked { details.payload ≡ true }
    ensures says { (bytes : List ℕ) → I.to_come intake.old ≡ Some bytes →
        IfOk result (Says (shown_in H D L wanted details bytes)) }
    // Its fault is that the input failed exactly where the intake failed in this call.
    ensures input { I.has_failed intake.new ≡ (I.has_failed intake.old || fails_by_input result) }
{
    let keys = match KeySet::read(NO_KEYS) {
        Ok(keys) => keys,
        Err(refusal) => return Err(Fault::Keys(refusal)),
    };
    let mut verifier = Verifier::<H, D>::inspecting(token_context::<L, _>(keys, b"", wanted));
    let mut store = Store::<L>::new();
    let inspected = whole_inspection(&mut verifier, intake, &mut store)?;
    inspected_reply(alloc, inspected, &verifier, details, store.bytes())
}

/// The reply to the message of an intake: no byte may follow a message that has a shape.
fn shown_reply<const H: usize, const D: usize, const L: usize, I: Intake>(
    alloc: Global,
    wanted: Wanted,
    details: Details,
    intake: &mut I,
) -> Result<Reply, Fault>
    requires some_room { 16 ≤ H }
    requires limit { H ≤ 65535 }
    requires nesting { D ≤ 32 }
    requires store_limit { L ≤ 65535 }
    ensures says { (bytes : List ℕ) → I.to_come intake.old ≡ Some bytes →
        IfOk result (Says (shown_in H D L wanted details bytes)) }
    // Its fault is that the input failed exactly where the intake failed in this call.
    ensures input { I.has_failed intake.new ≡ (I.has_failed intake.old || fails_by_input result) }
{
    if details.payload {
        return reply_with_payload::<H, D, L, _>(alloc, wanted, details, intake);
    }
    reply_without_payload::<H, D, _>(alloc, wanted, details, intake)
}

/// The reply to the message on the input, which is shown under no key.
pub fn show_reply<R: Read>(
    alloc: Global,
    limits: Limits,
    wanted: Wanted,
    details: Details,
    input: &mut R,
) -> Result<Reply, Fault>
    ensures says { (bytes : List ℕ) → R.remaining input.old ≡ Some bytes →
        IfOk result (Says (shown limits wanted details bytes)) }
{
    let mut intake = ReadIntake::new(input);
    match limits {
        Limits::Small => shown_reply::<SMALL_HEADER, SMALL_NESTING, SMALL_CLAIMS, _>(
            alloc,
            wanted,
            details,
            &mut intake,
        ),
        Limits::Large => shown_reply::<LARGE_HEADER, LARGE_NESTING, LARGE_CLAIMS, _>(
            alloc,
            wanted,
            details,
            &mut intake,
        ),
    }
}
