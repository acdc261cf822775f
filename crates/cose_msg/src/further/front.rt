//! The tags of a message in memory, and the head of its array (RFC 9052 section 2, RFC 8392 section 6).

ghost use Rattle.std.specs.Prelude.{◌≡◌};
ghost use Rattle.cose_msg.specs.declared.further.rest.Rest.{Rest};
ghost use Rattle.cose_msg.specs.Front as phases;
ghost use Rattle.cose_msg.specs.InMemory.{answer_at, going_on};
ghost use Rattle.cose_msg.specs.Phases.{protected_head};
ghost use Rattle.cose_msg.specs.Rules.{Rules};

use crate::context::Wanted;
use crate::further::rest::Rest;
use crate::reader::front::{cose_tag, fault_of_array, is_array, is_cwt_tag, is_tag, kind_of_tag};
use cose_head::{Head, Kind, Reason, Refusal};

/// Checks that a head at this place is that of the message's array.
fn check_array(head: &Head, at: u64) -> Result<(), Refusal>
    ensures { (rules : Rules) (kind : Kind) (rest : Rest)
        → answer_at (phases.past_array_head rules kind at head.now) rest
        ≡ going_on result (λ _. answer_at (protected_head rules kind) rest) }
{
    match fault_of_array(head) {
        Some(reason) => Err(Refusal { reason, place: at }),
        None => Ok(()),
    }
}

/// The kind that the tag at this place gives. The head of the message's array follows it.
fn tagged(rest: &mut Rest<'_>, kind: Result<Kind, Reason>, tag_at: u64) -> Result<Kind, Refusal>
    ensures { (rules : Rules) → answer_at (phases.past_tag rules tag_at kind) rest.old
        ≡ going_on result (λ kind. answer_at (protected_head rules kind) rest.new) }
{
    match kind {
        Ok(kind) => {
            let at = rest.place();
            let head = rest.head()?;
            check_array(&head, at)?;
            Ok(kind)
        }
        Err(reason) => Err(Refusal {
            reason,
            place: tag_at,
        }),
    }
}

/// The kind that the tag after that of a CWT gives.
fn tagged_in_cwt(rest: &mut Rest<'_>, wanted: Wanted) -> Result<Kind, Refusal>
    ensures { (rules : Rules) → rules.wanted ≡ wanted
        → answer_at (phases.second_head rules) rest.old
        ≡ going_on result (λ kind. answer_at (protected_head rules kind) rest.new) }
{
    let at = rest.place();
    let head = rest.head()?;
    tagged(rest, cose_tag(wanted, &head), at)
}

/// The kind of a message without a tag, which begins with this head.
fn untagged(head: &Head, wanted: Wanted, at: u64) -> Result<Kind, Refusal>
    ensures { (rules : Rules) (rest : Rest)
        → answer_at (phases.past_untagged rules wanted at head.now) rest
        ≡ going_on result (λ kind. answer_at (protected_head rules kind) rest) }
{
    let kind = match wanted {
        Wanted::Mac0 => Kind::Mac0,
        Wanted::Sign1 => Kind::Sign1,
        Wanted::Tagged => {
            return Err(Refusal {
                reason: Reason::WrongTag,
                place: at,
            });
        }
    };
    check_array(head, at)?;
    Ok(kind)
}

/// The kind of the message: its tags, and the head of its array.
pub(crate) fn kind_of(rest: &mut Rest<'_>, wanted: Wanted, cwt: bool) -> Result<Kind, Refusal>
    ensures { (rules : Rules) → rules.wanted ≡ wanted → rules.cwt ≡ cwt
        → answer_at (phases.first_head rules) rest.old
        ≡ going_on result (λ kind. answer_at (protected_head rules kind) rest.new) }
{
    let at = rest.place();
    let head = rest.head()?;
    if is_cwt_tag(cwt, &head) {
        return tagged_in_cwt(rest, wanted);
    }
    if is_tag(&head) {
        return tagged(rest, kind_of_tag(wanted, head.arg), at);
    }
    if is_array(&head) {
        return untagged(&head, wanted, at);
    }
    Err(Refusal {
        reason: Reason::WrongType,
        place: at,
    })
}
