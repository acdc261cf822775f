//! The command `verify` with a new file that the payload of an authentic message is kept in.

ghost use Rattle.std.specs.Prelude.{◌≡◌, ◌≢◌, ◌≤◌, ◌⊎◌, ◌||◌, ℕ, true, List, [], Some, None, IfErr, IfOk, IsErr, length};
ghost use Rattle.std.specs.Io.KnownBytes.{Appends};
ghost use Rattle.cose_files.specs.NewFile.{IsFirstFile, IsRemoved, IsSettled, MadeFile, Stands, content_of, settled};
ghost use Rattle.cose_files.specs.declared.new_file.Standing.TheVariants.{Gone, Kept, Stuck};
ghost use Rattle.cose_map.specs.KeyTable.{keys as usable};
ghost use Rattle.cose_msg.specs.Verifier.{setting_of};
ghost use Rattle.cose_answers.specs.Faults.{fails_by_file, fails_by_input};
ghost use Rattle.cose_answers.specs.Limits.{AreSizesUnder};
ghost use Rattle.cose_answers.specs.PayloadTo.{IsOfNewFile, PutsPayload, WritesFileFault, payload_in, payload_under};
ghost use Rattle.cose_answers.specs.Printed.{Output, Says, verified_under};
ghost use Rattle.cose_answers.specs.Replies.{FailsFor, IsVerdictOfInput, PrintsFor, RepliesTo, vouching_by};
ghost use Rattle.cose_answers.specs.Under.{under_of};

use crate::answers::verdict::{CHUNK, reply_of, whole_verdict};
use crate::fault::Fault;
use crate::limits::{
    LARGE_HEADER, LARGE_KEYS, LARGE_NESTING, Limits, SMALL_HEADER, SMALL_KEYS, SMALL_NESTING,
};
use crate::output::{print_fault, print_reply};
use crate::reply::{Reply, Status};
use crate::request::Checks;
use crate::vouch::Vouch;
use crate::write_sink::WriteSink;
use cose_files::NewFiles;
use cose_msg::laws::settled_stays;
use cose_msg::{Context, Intake, KeyTable, ReadIntake, Sink, Stop, Verdict, Verifier, verify};
use std::alloc::Global;
use std::io::{Read, Write};

/// The verdict of all that an intake gives, a message that has its payload. The payload goes into the sink as it comes.
fn verdict_into<'j, const H: usize, const D: usize, const N: usize, I: Intake, S: Sink>(
    context: Context<'j, KeyTable<'j, N>>,
    vouch: &Vouch<'j>,
    intake: &mut I,
    sink: &mut S,
) -> Result<Verdict, Fault>
    requires some_room { 16 ≤ H }
    requires limit { H ≤ 65535 }
    requires nesting { D ≤ 32 }
    requires external { length context.aad.now ≤ 65535 }
    ensures verdict { IsVerdictOfInput H D (setting_of usable context.entry)
        (vouching_by vouch.now) (I.to_come intake.old) result }
    ensures payload { PutsPayload (I.to_come intake.old)
        (payload_in H D (setting_of usable context.entry) (vouching_by vouch.now))
        (S.contents sink.old) (S.contents sink.new) result }
    // It fails exactly where the intake or the sink failed in this call.
    ensures fault { IfErr result (λ fault. (fault ≡ Fault.Input)
        ⊎ (fails_by_file result ≡ true)) }
    ensures failure { I.has_failed intake.new
        ≡ (I.has_failed intake.old || fails_by_input result) }
    ensures sink_failure { S.has_failed sink.new
        ≡ (S.has_failed sink.old || fails_by_file result) }
{
    // The law that the proof cites: the reading of a message stays when bytes follow.
    settled_stays();
    let mut verifier = Verifier::<H, D, KeyTable<'_, N>>::new(context);
    match verify::<CHUNK, H, D, _, _, _, _>(&mut verifier, intake, sink, vouch) {
        Ok(verdict) => whole_verdict(verdict, intake),
        Err(Stop::Sink) => Err(Fault::File("payload-to")),
        // A new verifier hasn't stopped.
        Err(Stop::Intake | Stop::Again) => Err(Fault::Input),
    }
}

/// The reply to the message of an intake, whose payload goes into the sink: the key set is read before the intake is asked.
#[inline(never)]
fn reply_into<const H: usize, const D: usize, const N: usize, I: Intake, S: Sink>(
    alloc: Global,
    checks: &Checks,
    intake: &mut I,
    sink: &mut S,
) -> Result<Reply, Fault>
    requires some_room { 16 ≤ H }
    requires limit { H ≤ 65535 }
    requires nesting { D ≤ 32 }
    requires some_keys { 1 ≤ N }
    requires keys_limit { N ≤ 256 }
    requires sizes { AreSizesUnder checks.now.limits H D N }
    ensures says { RepliesTo (I.to_come intake.old)
        (verified_under (under_of checks.now) None) result }
    ensures payload { PutsPayload (I.to_come intake.old) (payload_under (under_of checks.now))
        (S.contents sink.old) (S.contents sink.new) result }
{
    let keys = match checks.key_table::<N>() {
        Ok(keys) => keys,
        Err(refusal) => return Err(Fault::Keys(refusal)),
    };
    let context = checks.context(keys);
    let vouch = checks.vouch();
    let verdict = verdict_into::<H, D, N, _, _>(context, &vouch, intake, sink)?;
    reply_of(alloc, verdict)
}

/// The same, in the room that the limits say.
fn reply_in_room<I: Intake, S: Sink>(
    alloc: Global,
    checks: &Checks,
    intake: &mut I,
    sink: &mut S,
) -> Result<Reply, Fault>
    ensures says { RepliesTo (I.to_come intake.old)
        (verified_under (under_of checks.now) None) result }
    ensures payload { PutsPayload (I.to_come intake.old) (payload_under (under_of checks.now))
        (S.contents sink.old) (S.contents sink.new) result }
{
    match checks.limits {
        Limits::Small => reply_into::<SMALL_HEADER, SMALL_NESTING, SMALL_KEYS, _, _>(
            alloc, checks, intake, sink,
        ),
        Limits::Large => reply_into::<LARGE_HEADER, LARGE_NESTING, LARGE_KEYS, _, _>(
            alloc, checks, intake, sink,
        ),
    }
}

/// The reply to the message of a reader, whose payload is written to the file as it comes.
fn reply_written<N: Write, R: Read>(
    alloc: Global,
    checks: &Checks,
    file: &mut N,
    input: &mut R,
) -> Result<Reply, Fault>
    ensures says { RepliesTo (R.remaining input.old)
        (verified_under (under_of checks.now) None) result }
    ensures payload { PutsPayload (R.remaining input.old) (payload_under (under_of checks.now))
        (N.contents file.old) (N.contents file.new) result }
{
    let mut intake = ReadIntake::new(input);
    let mut sink = WriteSink::new(file);
    let reply = reply_in_room(alloc, checks, &mut intake, &mut sink);
    // The file holds in the end what the sink's writer holds. The proof reads it from this use, which has no run-time effect.
    let writer = sink.into_writer();
    let _ = &*writer;
    reply
}

/// Gives the file its own name. Where that fails, it is removed.
fn keep<N: NewFiles>(files: &mut N, file: &mut N::New) -> Result<(), Fault>
    ensures kept { IfOk result (λ _. N.made files.new
        ≡ settled Kept (N.New.contents file.old) (N.made files.old)) }
    ensures removed { IfErr result (λ _. IsRemoved (N.made files.old) (N.made files.new)) }
{
    match files.keep(file) {
        Ok(()) => Ok(()),
        Err(error) => {
            let _ = files.discard();
            Err(Fault::file("payload-to", &error))
        }
    }
}

/// Removes the file.
fn discard<N: NewFiles>(files: &mut N) -> Result<(), Fault>
    ensures gone { IfOk result (λ _. N.made files.new ≡ settled Gone None (N.made files.old)) }
    ensures removed { IsRemoved (N.made files.old) (N.made files.new) }
{
    match files.discard() {
        Ok(()) => Ok(()),
        Err(error) => Err(Fault::file("payload-to", &error)),
    }
}

/// Keeps the file where its message is authentic, and removes it where it is refused.
fn settle<N: NewFiles>(reply: Reply, files: &mut N, file: &mut N::New) -> Result<Reply, Fault>
    ensures same { (said : Output) → Says said reply → IfOk result (Says said) }
    ensures kept { IfOk result (λ said. said.status ≡ Status.Done → N.made files.new
        ≡ settled Kept (N.New.contents file.old) (N.made files.old)) }
    ensures gone { IfOk result (λ said. said.status ≢ Status.Done →
        N.made files.new ≡ settled Gone None (N.made files.old)) }
    ensures removed { IfErr result (λ _. IsRemoved (N.made files.old) (N.made files.new)) }
{
    match reply.status {
        Status::Done => keep(files, file)?,
        Status::Refused | Status::Fault => discard(files)?,
    }
    Ok(reply)
}

/// The same, where there is a fault perhaps: then the file is removed.
fn settle_reply<N: NewFiles>(
    reply: Result<Reply, Fault>,
    files: &mut N,
    file: &mut N::New,
) -> Result<Reply, Fault>
    ensures same { (said : Output) → IfOk reply (Says said) → IfOk result (Says said) }
    ensures kept { IfOk result (λ said. said.status ≡ Status.Done → N.made files.new
        ≡ settled Kept (N.New.contents file.old) (N.made files.old)) }
    ensures gone { IfOk result (λ said. said.status ≢ Status.Done →
        N.made files.new ≡ settled Gone None (N.made files.old)) }
    ensures removed { IfErr result (λ _. IsRemoved (N.made files.old) (N.made files.new)) }
    ensures fault { IfErr reply (λ _. IsErr result) }
{
    match reply {
        Ok(reply) => settle(reply, files, file),
        Err(fault) => {
            let _ = discard(files);
            Err(fault)
        }
    }
}

/// Removes the file where a run ends with a fault.
fn withdraw<N: NewFiles>(status: Status, files: &mut N)
    ensures stays { status ≢ Status.Fault → files.new ≡ files.old }
    ensures removed { status ≡ Status.Fault → IsRemoved (N.made files.old) (N.made files.new) }
{
    match status {
        Status::Fault => {
            let _ = discard(files);
        }
        Status::Done | Status::Refused => {}
    }
}

/// Verifies a message that has its payload, with a new file, to which the payload is written while the message is read. The file is kept only
/// after the authentic verdict, where no byte follows the message; in all else it is as without a file.
pub fn answer_to_new_file<N: NewFiles, R: Read, W: Write>(
    alloc: Global,
    checks: &Checks,
    files: &mut N,
    file: &mut N::New,
    input: &mut R,
    output: &mut W,
) -> u8
    ensures status { result ≤ 2 }
    // It prints what it prints without a file.
    ensures printed { PrintsFor (R.remaining input.old) (verified_under (under_of checks.now) None)
        (W.contents output.old) (W.contents output.new) result }
    ensures fails { FailsFor (R.remaining input.old) (verified_under (under_of checks.now) None)
        (W.contents output.old) (W.contents output.new) result }
    // Where it says authentic, the file is kept, and exactly the payload was written to it.
    ensures kept { result ≡ 0 → N.made files.new
        ≡ settled Kept (content_of (N.made files.new)) (N.made files.old) }
    ensures payload { (made : MadeFile) (bytes : List ℕ) → (N.made files.old).file ≡ Some made →
        R.remaining input.old ≡ Some bytes → result ≡ 0 →
        Appends (N.New.contents file.old) (content_of (N.made files.new))
        (payload_under (under_of checks.now) bytes) }
    // After a refusal the file is gone, and after a fault too, unless the system doesn't remove it.
    ensures refused { result ≡ 1 → N.made files.new ≡ settled Gone None (N.made files.old) }
    ensures fault { result ≡ 2 → IsRemoved (N.made files.old) (N.made files.new) }
    ensures settled { IsSettled (N.made files.old) (N.made files.new) }
{
    let written = reply_written(alloc, checks, file, input);
    let reply = settle_reply(written, files, file);
    let status = print_reply(alloc, reply, output);
    withdraw(status, files);
    status.code()
}

/// A new file that is to have this name, where nothing has it yet.
fn new_file<N: NewFiles>(alloc: Global, files: &mut N, name: &str) -> Result<N::New, Fault>
    ensures made { IfOk result (λ _. IsFirstFile name.now (N.made files.old) (N.made files.new)) }
    ensures empty { N.is_known ≡ true → IfOk result (λ file. N.New.contents file ≡ Some []) }
    ensures unmade { IfErr result (λ _. (N.made files.new).file ≡ (N.made files.old).file) }
    ensures taken { (N.made files.new).is_taken ≡ Some true → IsErr result }
    ensures fault { IfErr result IsOfNewFile }
{
    match files.look(name) {
        Ok(true) => Err(Fault::File("payload-to")),
        Ok(false) => files
            .create(alloc, name)
            .map_err(|error| Fault::file("payload-to", &error)),
        Err(error) => Err(Fault::file("payload-to", &error)),
    }
}

/// Verifies a message that has its payload, and keeps the payload of an authentic one in a new file of this name. A name that
/// exists is a fault, before the input is read. In all else it is as [`answer_to_new_file`]. Not inlined: nothing else is to take
/// the stack that files take.
#[inline(never)]
pub fn answer_with_payload_to<N: NewFiles, R: Read, W: Write>(
    alloc: Global,
    checks: &Checks,
    files: &mut N,
    name: &str,
    input: &mut R,
    output: &mut W,
) -> u8
    ensures status { result ≤ 2 }
    ensures printed { PrintsFor (R.remaining input.old) (verified_under (under_of checks.now) None)
        (W.contents output.old) (W.contents output.new) result }
    ensures fails { FailsFor (R.remaining input.old) (verified_under (under_of checks.now) None)
        (W.contents output.old) (W.contents output.new) result }
    // Where it says authentic, the file of this name is kept, and holds exactly the payload.
    ensures kept { result ≡ 0 → Stands name.now Kept (N.made files.new) }
    ensures payload { (bytes : List ℕ) → R.remaining input.old ≡ Some bytes →
        N.is_known ≡ true → result ≡ 0 →
        content_of (N.made files.new) ≡ Some (payload_under (under_of checks.now) bytes) }
    // After a refusal the file is gone, and after a fault too, unless the system doesn't remove it, or none was made.
    ensures refused { result ≡ 1 → Stands name.now Gone (N.made files.new) }
    ensures fault { result ≡ 2 → ((N.made files.new).file ≡ (N.made files.old).file)
        ⊎ (Stands name.now Gone (N.made files.new) ⊎ Stands name.now Stuck (N.made files.new)) }
    // Where the name exists, no file is made.
    ensures taken { (N.made files.new).is_taken ≡ Some true →
        (N.made files.new).file ≡ (N.made files.old).file }
    // Where no file is made, there is a fault, and nothing of the input is read.
    ensures unmade { (N.made files.new).file ≡ (N.made files.old).file → (result ≡ 2)
        × (input.new ≡ input.old)
        × WritesFileFault (W.contents output.old) (W.contents output.new) }
{
    let mut file = match new_file(alloc, files, name) {
        Ok(file) => file,
        Err(fault) => return print_fault(alloc, fault, output).code(),
    };
    answer_to_new_file(alloc, checks, files, &mut file, input, output)
}
