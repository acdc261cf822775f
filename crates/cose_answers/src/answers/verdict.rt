//! The verdict of a whole input, and the reply that prints it.

ghost use Rattle.std.specs.Prelude.{◌≡◌, ◌||◌, ℕ, List, Some, Ok, IfErr, IfOk, drop, is_err};
ghost use Rattle.cose_head.specs.declared.refusal.Refusal.{Refusal};
ghost use Rattle.cose_msg.specs.Verifier.{setting_of};
ghost use Rattle.cose_msg.specs.declared.verdict.Verdict.{Verdict};
ghost use Rattle.cose_answers.specs.Printed.{Says, followed_by, program_setting, said_of, trailing_refusal};

use crate::fault::Fault;
use crate::line::Line;
use crate::reply::{Reply, Status};
use cose_msg::{Context, Intake, Keys, Reason, Refusal, Verdict, Wanted};
use std::alloc::Global;

/// The most bytes of a message that are taken at once.
pub const CHUNK: usize = 4_096;

/// The most bytes of a payload, which is the most that any message may have.
const PAYLOAD: u64 = (1 << 56) - 1;

/// The line of a verdict, and how a run ends with it.
pub fn reply_of(alloc: Global, verdict: Verdict) -> Result<Reply, Fault>
    ensures says { IfOk result (Says (said_of verdict)) }
    ensures fault { IfErr result (λ fault. fault ≡ Fault.Memory) }
{
    let status = match verdict {
        Verdict::Authentic { .. } => Status::Done,
        Verdict::Refused(_) => Status::Refused,
    };
    let line = Line { verdict };
    let text = format!(in alloc; "{line}\n")?;
    Ok(Reply { status, text })
}

/// The refusal of a byte after a message of this many bytes, where there is one.
pub fn trailing_at<I: Intake>(taken: u64, intake: &mut I) -> Result<Option<Refusal>, Fault>
    ensures whole { (rest : List ℕ) → I.to_come intake.old ≡ Some rest →
        IfOk result (λ refusal. refusal ≡ trailing_refusal rest taken) }
    // It takes this byte and none after it.
    ensures left { (rest : List ℕ) → I.to_come intake.old ≡ Some rest →
        IfOk result (λ _. I.to_come intake.new ≡ Some (drop 1 rest)) }
    ensures fault { IfErr result (λ fault. fault ≡ Fault.Input) }
    ensures failure { I.has_failed intake.new ≡ (I.has_failed intake.old || is_err result) }
{
    match intake.take(&mut [0]) {
        Ok(0) => Ok(None),
        Ok(_) => Ok(Some(Refusal {
            reason: Reason::Trailing,
            place: taken,
        })),
        Err(_) => Err(Fault::Input),
    }
}

/// The context of a message that is verified or inspected: the CWT tag is known, and no label is understood in addition
/// to the standard's.
pub fn program_context<'j, S: Keys<'j>>(keys: S, aad: &'j [u8], wanted: Wanted) -> Context<'j, S>
    ensures setting { setting_of S.usable result
        ≡ program_setting (S.usable keys) aad.entry.now wanted }
    ensures external { result.aad ≡ aad.entry }
{
    Context {
        keys,
        aad,
        wanted,
        cwt: true,
        understood: &[],
        payload_limit: PAYLOAD,
    }
}

/// The verdict of the whole input: after an authentic message, a further byte makes it `Trailing`.
pub fn whole_verdict<I: Intake>(verdict: Verdict, intake: &mut I) -> Result<Verdict, Fault>
    // After a refused message no byte is looked for.
    ensures refused { (refusal : Refusal) → verdict ≡ Verdict.Refused refusal
        → result ≡ Ok verdict }
    ensures unread { (refusal : Refusal) → verdict ≡ Verdict.Refused refusal
        → intake.new ≡ intake.old }

    // After an authentic one no byte may follow.
    ensures whole { (rest : List ℕ) → I.to_come intake.old ≡ Some rest →
        IfOk result (λ whole. whole ≡ followed_by rest verdict) }
    ensures fault { IfErr result (λ fault. fault ≡ Fault.Input) }
    ensures failure { I.has_failed intake.new ≡ (I.has_failed intake.old || is_err result) }
{
    let Verdict::Authentic { taken, .. } = verdict else {
        return Ok(verdict);
    };
    match trailing_at(taken, intake)? {
        Some(refusal) => Ok(Verdict::Refused(refusal)),
        None => Ok(verdict),
    }
}
