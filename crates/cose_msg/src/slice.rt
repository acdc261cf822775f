//! Verifying a message that is in memory.

ghost use Rattle.std.specs.Prelude.{◌≡◌, ◌≤◌, ◌+◌, ◌*◌, false, [], length, Some, Ok};
ghost use Rattle.cose_msg.specs.declared.verdict.Verdict.{Verdict};
ghost use Rattle.cose_msg.specs.Answer.{decided};
ghost use Rattle.cose_msg.specs.Feed.{Uses, payload_in};
ghost use Rattle.cose_msg.specs.Kept.{bytes_taken, is_inspecting, kept_answer};
ghost use Rattle.cose_msg.specs.Message.{message as reading, verdict_of};
ghost use Rattle.cose_msg.specs.Shown.{ShowsReading};
ghost use Rattle.cose_msg.specs.Slice.{IfPayload, outcome, outcome_of};
ghost use Rattle.cose_msg.specs.Status.{status_in, status_of_answer};
ghost use Rattle.cose_msg.specs.Task.{rules_of, to_verify};
ghost use Rattle.cose_msg.specs.Verifier.{is_detached, setting_in, task_of};

use crate::elliptic::EcVerifier;
use crate::laws::{deciding_goes_last, settled_stays};
use crate::status::Fed;
use crate::verdict::Verdict;
use crate::verifier::Verifier;
use cose_head::{Kind, Reason, Refusal};
use cose_mac::Alg;
use cose_map::Keys;

/// What a slice of bytes is that should be one message.
#[derive(Clone, Copy, Debug, PartialEq, Eq)]
pub enum Verified<'m> {
    /// The bytes are a message that is authentic under the chosen key.
    Authentic {
        /// The kind of the message.
        kind: Kind,
        /// The algorithm that authenticates it.
        alg: Alg,
        /// The payload, a part of the message.
        payload: &'m [u8],
    },
    /// The bytes are refused. The place is relative to the first byte.
    Refused(Refusal),
}

/// The result for bytes of this verdict, with the payload among those that were fed.
fn result_of<'m>(verdict: Verdict, fed: &Fed, message: &'m [u8]) -> Verified<'m>
    requires ordered { fed.now.payload_from ≤ fed.now.payload_to }
    requires among { fed.now.payload_to ≤ length message.now }
    ensures outcome { outcome_of (length message.now) (decided verdict) ≡ outcome result }
    ensures payload { IfPayload result (λ payload. payload ≡ payload_in fed.now message.now) }
{
    match verdict {
        Verdict::Refused(refusal) => Verified::Refused(refusal),
        Verdict::Authentic { taken, .. } if taken < message.len() as u64 => {
            Verified::Refused(Refusal {
                reason: Reason::Trailing,
                place: taken,
            })
        }
        Verdict::Authentic { kind, alg, .. } => Verified::Authentic {
            kind,
            alg,
            payload: fed.payload_of(message),
        },
    }
}

/// Verifies a message that is in memory: the bytes are the message, and nothing follows it. A byte after an authentic message is
/// refused as [`Reason::Trailing`], at its place.
///
/// The verifier is reset first, so that one verifier serves many messages. It asks `ec` about the signature of a COSE_Sign1 (RFC
/// 9052 section 4.4), once. The payload is returned only of an authentic message, as a part of it: nothing is copied.
///
/// Afterwards the verifier's getters and its status are those of these bytes, and it keeps their verdict until it is reset:
/// [`verify`](crate::verify) answers it again. That of an authentic message is kept also where a byte after it is refused.
///
/// The verifier isn't one that [`Verifier::inspecting`] or [`Verifier::detached`] made
/// ([`Verifier::is_inspecting`], [`Verifier::is_detached`]).
pub fn verify_slice<'k, 'm, const H: usize, const D: usize, K: Keys<'k>, E: EcVerifier>(
    verifier: &mut Verifier<'k, H, D, K>,
    message: &'m [u8],
    ec: &E,
) -> Verified<'m>
    requires verifies { is_inspecting verifier.old ≡ false }
    requires attached { is_detached verifier.old ≡ false }
    ensures outcome { outcome_of (length message.now)
        (verdict_of H D (setting_in verifier.old) (E.decides ec.now) message.now) ≡ outcome result }
    ensures payload { IfPayload result (λ payload. payload
        ≡ (reading (rules_of H D (to_verify
        (setting_in verifier.old))) message.now).so_far.payload) }
    // The verifier has taken the fewest bytes that settle the message, or all. It gives what these bytes have, and its status
    // is theirs.
    ensures counted { Uses (rules_of H D (to_verify (setting_in verifier.old))) [] message.now
        (bytes_taken verifier.new) }
    ensures shows { ShowsReading (to_verify (setting_in verifier.old)) message.now verifier.new }
    ensures status { status_in verifier.new
        ≡ status_of_answer
        (reading (rules_of H D (to_verify (setting_in verifier.old))) message.now).answer }
    // Their verdict is kept.
    ensures kept { (verdict : Verdict)
        × (verdict_of H D (setting_in verifier.old) (E.decides ec.now) message.now
        ≡ decided verdict)
        × (kept_answer verifier.new ≡ Some (Ok verdict)) }
    ensures purpose { task_of verifier.new ≡ task_of verifier.old }
{
    // Laws that the proof cites.
    settled_stays();
    deciding_goes_last();
    verifier.reset();
    let fed = verifier.feed(message);
    verifier.reader.lemma_reading_so_far();
    let verdict = verifier.conclude(ec);
    result_of(verdict, &fed, message)
}
