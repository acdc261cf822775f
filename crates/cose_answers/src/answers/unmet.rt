//! The line of a requirement that the claims of a token don't meet.

ghost use Rattle.std.specs.Prelude.{◌≡◌, IfErr, IfOk, string_bytes};
ghost use Rattle.cose_answers.specs.Requirements as spec;

use crate::fault::Fault;
use crate::reply::{Reply, Status};
use cose_cwt::{Claim, Requirement, Unmet};
use std::alloc::{AllocError, Global};

/// The word that is printed where a claim is absent: `Present`, and the claim's name with its first letter in upper case.
#[tactic(auto, using(crate::proofs::lemmas::Messages::UnmetRequirements::first_letter))]
fn presence_word(alloc: Global, claim: Claim) -> Result<String, AllocError>
    ensures { IfOk result (λ word. string_bytes word ≡ spec.presence_word claim) }
{
    let (first, others) = claim.name().split_at(1);
    let first = first.to_ascii_uppercase(alloc)?;
    format!(in alloc; "Present{first}{others}")
}

/// The word that is printed for a requirement.
fn requirement_word(alloc: Global, requirement: Requirement) -> Result<String, AllocError>
    ensures { IfOk result (λ word. string_bytes word ≡ spec.requirement_word requirement) }
{
    let word = match requirement {
        Requirement::Present(claim) => return presence_word(alloc, claim),
        Requirement::Issuer => "Issuer",
        Requirement::Subject => "Subject",
        Requirement::Audience => "Audience",
        Requirement::Lifetime => "Lifetime",
        Requirement::Age => "Age",
        Requirement::Issued => "Issued",
    };
    String::from_str(alloc, word)
}

/// The line of a requirement that isn't met.
pub fn unmet_reply(alloc: Global, unmet: Unmet) -> Result<Reply, Fault>
    ensures text { IfOk result (λ reply. string_bytes reply.text ≡ spec.unmet_line unmet) }
    ensures status { IfOk result (λ reply. reply.status ≡ Status.Refused) }
    ensures fault { IfErr result (λ fault. fault ≡ Fault.Memory) }
{
    let Unmet { requirement, place } = unmet;
    let word = requirement_word(alloc, requirement)?;
    let status = Status::Refused;
    let text = format!(in alloc; "refused policy {word} at {place}\n")?;
    Ok(Reply { status, text })
}
