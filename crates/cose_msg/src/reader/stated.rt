//! What the caller states about the tag or signature of a message that is authenticated elsewhere.

ghost use Rattle.std.specs.Prelude.{◌≡◌, ◌≤◌, ◌+◌, ◌*◌, ℕ, true, false, List, [], ◌++◌, None, Some, length};
ghost use Rattle.cose_msg.specs.Elsewhere.{stated_by};

use crate::phase::{Decided, Phase, Signed};
use crate::reader::Reader;
use crate::verdict::Verdict;
use cose_head::{Reason, Refusal};
use cose_mac::{Alg, same_bytes};

/// What the caller states.
#[derive(Clone, Copy)]
pub(crate) enum Stated<'m> {
    /// The MAC of the structure (RFC 9052 section 6.3).
    Mac(&'m [u8]),
    /// Whether the signature holds (RFC 9052 section 4.4).
    Answer(bool),
}

impl<'m> Stated<'m> {
    ghost use Rattle.cose_msg.specs.Answer.{Chosen as Found};

    /// Whether a message with this tag or signature is authentic.
    fn holds(self, alg: Alg, auth: &[u8]) -> bool
        ensures { (found : Found) (message : List ℕ) → found.alg ≡ alg
            → result ≡ stated_by self.entry found message auth.now }
    {
        match self {
            Stated::Mac(mac) => alg.is_mac() && same_bytes(auth, mac),
            Stated::Answer(holds) => !alg.is_mac() && holds,
        }
    }
}

impl<'k, const H: usize, const D: usize> Reader<'k, H, D> {
    ghost use Rattle.cose_msg.specs.declared.status.Status.{Status};
    ghost use Rattle.cose_msg.specs.Answer.{decided};
    ghost use Rattle.cose_msg.specs.Elsewhere.{then_authenticated};
    ghost use Rattle.cose_msg.specs.Kept.{verdict_in};
    ghost use Rattle.cose_msg.specs.Message.{Setting};
    ghost use Rattle.cose_msg.specs.Phase.{awaits_decision};
    ghost use Rattle.cose_msg.specs.Reader.{IsUntouched, ReaderMeans, held_by, opened_by};
    ghost use Rattle.cose_msg.specs.Reading.{Reading};
    ghost use Rattle.cose_msg.specs.Shown.{shown_by};
    ghost use Rattle.cose_msg.specs.Status.{status_of_phase};
    ghost use Rattle.cose_msg.specs.Task.{Task, given_to, to_verify_elsewhere};

    /// The verdict on a message all bytes of which are there, by what the caller states.
    fn stated_verdict(&self, signed: Signed, stated: Stated<'_>) -> Verdict
        requires phase { self.now.phase ≡ Phase.Signed signed }
        ensures { (task : Task) (payload : List ℕ) (n : ℕ) (reading : List ℕ → Reading)
            → ReaderMeans task payload n self.now reading
            → then_authenticated task.setting.aad (stated_by stated.entry) (reading []).answer
            ≡ decided result }
    {
        if stated.holds(signed.alg, self.auth.as_slice()) {
            return Verdict::Authentic {
                kind: signed.kind,
                alg: signed.alg,
                payload: signed.payload,
                taken: signed.taken,
            };
        }
        Verdict::Refused(Refusal {
            reason: Reason::BadAuth,
            place: signed.head_at,
        })
    }

    /// The verdict after `taken` bytes of a message that is authenticated elsewhere, which is kept: Truncated where it isn't settled,
    /// and otherwise by what the caller states.
    pub(crate) fn conclude_stated(&mut self, taken: u64, stated: Stated<'_>) -> Verdict
        ensures kept { verdict_in self.new.phase ≡ Some result }
        ensures terms { self.new.terms ≡ self.old.terms }
        ensures shown { shown_by self.new ≡ shown_by self.old }
        ensures held { held_by self.new ≡ held_by self.old }
        ensures opened { opened_by self.new ≡ opened_by self.old }
        ensures complete { awaits_decision self.old.phase ≡ true
            → status_of_phase self.new.phase ≡ Status.Complete }
        ensures answer { (setting : Setting) (payload : List ℕ) (reading : List ℕ → Reading)
            → ReaderMeans (to_verify_elsewhere setting) payload taken self.old reading
            → given_to payload (to_verify_elsewhere setting) ≡ to_verify_elsewhere setting
            → then_authenticated setting.aad (stated_by stated.entry) (reading []).answer
            ≡ decided result }
        // Where no byte was taken, the only change is that the message is Truncated at 0.
        ensures untouched { taken ≡ 0 → IsUntouched self.old → IsUntouched self.new }
    {
        self.lemma_reading_so_far();
        if let Some(verdict) = self.known_verdict() {
            return verdict;
        }
        match self.phase {
            Phase::Signed(signed) => {
                let verdict = self.stated_verdict(signed, stated);
                self.phase = Phase::Decided(Decided {
                    verdict,
                    head_at: signed.head_at,
                });
                verdict
            }
            _ => {
                let place = self.phase.ends_at(taken);
                Verdict::Refused(self.truncate(place))
            }
        }
    }
}
