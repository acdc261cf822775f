//! The verdict on a reader's message, once it is known, and the verdict on a message that ends.

ghost use Rattle.std.specs.Prelude.{◌≡◌, ◌<◌, ◌≤◌, ◌+◌, ◌*◌, ℕ, true, false, List, [], ◌++◌, None, Some, length, take};

use crate::elliptic::EcVerifier;
use crate::phase::{Decided, Phase, Signed};
use crate::reader::Reader;
use crate::verdict::{Inspected, Verdict};
use cose_head::{Reason, Refusal};

impl<'k, const H: usize, const D: usize> Reader<'k, H, D> {
    ghost use Rattle.cose_map.specs.Key.View.{key_value};
    ghost use Rattle.cose_msg.specs.declared.reader.Chosen.{Chosen};
    ghost use Rattle.cose_msg.specs.Answer.{decided, refused};
    ghost use Rattle.cose_msg.specs.Hashing.{result_of};
    ghost use Rattle.cose_msg.specs.Kept.{inspected_in, verdict_in};
    ghost use Rattle.cose_msg.specs.Laws.{then_verified};
    ghost use Rattle.cose_msg.specs.Message.{Setting};
    ghost use Rattle.cose_msg.specs.Phase.{awaits_decision, ends_at, in_payload, is_settled, payload_want_of, want_of};
    ghost use Rattle.cose_msg.specs.Reader.{Counts, IsUntouched, ReaderMeans, held_by, opened_by};
    ghost use Rattle.cose_msg.specs.Reading.{Reading};
    ghost use Rattle.cose_msg.specs.Run.{SaysCount, inspection};
    ghost use Rattle.cose_msg.specs.Shown.{shown_by, shown_in, sign_input_by};
    ghost use Rattle.cose_msg.specs.declared.status.Status.{Status};
    ghost use Rattle.cose_msg.specs.Status.{is_open, status_of_phase, status_of_reading, status_of_answer};
    ghost use Rattle.cose_msg.specs.Task.{Task, asks, given_to, to_inspect, to_verify};

    /// The verdict, once it is known.
    pub(crate) fn known_verdict(&self) -> Option<Verdict>
        ensures { result ≡ verdict_in self.now.phase }
    {
        match self.phase {
            Phase::Decided(decided) => Some(decided.verdict),
            Phase::Settled(verdict) => Some(verdict),
            _ => None,
        }
    }

    /// The answer for a message that is only inspected, once it is known.
    pub(crate) fn inspected(&self) -> Option<Inspected>
        ensures { result ≡ inspected_in self.now.phase }
    {
        match self.phase {
            Phase::Settled(Verdict::Refused(refusal)) => Some(Inspected::Refused(refusal)),
            Phase::Shaped(shape) => Some(Inspected::Shape {
                kind: shape.kind,
                payload: shape.payload,
                auth: shape.auth,
                taken: shape.taken,
            }),
            _ => None,
        }
    }

    /// Fewer bytes than are wanted don't settle the message. Proof only; no run-time effect.
    pub(crate) fn lemma_reading_so_far(&self)
        ensures open { (task : Task) (payload : List ℕ) (n : ℕ) (reading : List ℕ → Reading)
            (more : List ℕ)
            → ReaderMeans task payload n self.now reading
            → length more < want_of self.now.phase → (reading more).settled ≡ false }
        ensures settled { (task : Task) (payload : List ℕ) (n : ℕ) (reading : List ℕ → Reading)
            → ReaderMeans task payload n self.now reading → given_to payload task ≡ task
            → (reading []).settled ≡ is_settled self.now.phase }
        ensures wanted { (task : Task) (payload : List ℕ) (n : ℕ) (reading : List ℕ → Reading)
            → ReaderMeans task payload n self.now reading → given_to payload task ≡ task
            → (reading []).wanted ≡ want_of self.now.phase }
        ensures payload { (task : Task) (payload : List ℕ) (n : ℕ) (reading : List ℕ → Reading)
            → ReaderMeans task payload n self.now reading → given_to payload task ≡ task
            → (reading []).so_far.payload ≡ payload }
        ensures ended { (task : Task) (payload : List ℕ) (n : ℕ) (reading : List ℕ → Reading)
            → ReaderMeans task payload n self.now reading → given_to payload task ≡ task
            → is_open (status_of_phase self.now.phase) ≡ true
            → (reading []).answer ≡ refused Reason.Truncated (ends_at self.now.phase n) }
        // What it shows so far is what the reading of these bytes shows.
        ensures shows { (task : Task) (payload : List ℕ) (n : ℕ) (reading : List ℕ → Reading)
            → ReaderMeans task payload n self.now reading → given_to payload task ≡ task
            → shown_by self.now ≡ shown_in task (reading []) }
        ensures payload_wanted { (task : Task) (payload : List ℕ) (n : ℕ)
            (reading : List ℕ → Reading) → ReaderMeans task payload n self.now reading
            → given_to payload task ≡ task
            → (reading []).payload_wanted ≡ payload_want_of self.now.phase }
        // So the status is that of these bytes.
        ensures status { (task : Task) (payload : List ℕ) (n : ℕ) (reading : List ℕ → Reading)
            → ReaderMeans task payload n self.now reading → given_to payload task ≡ task
            → status_of_phase self.now.phase ≡ status_of_reading (reading []) }
        // In the payload the next bytes are the payload's, as many as are left of it; after it none are.
        ensures grows { (task : Task) (payload : List ℕ) (n : ℕ) (reading : List ℕ → Reading)
            (more : List ℕ)
            → ReaderMeans task payload n self.now reading
            → in_payload self.now.phase ≡ true
            → (reading more).so_far.payload ≡ payload ++ take (want_of self.now.phase) more }
        ensures fixed { (task : Task) (payload : List ℕ) (n : ℕ) (reading : List ℕ → Reading) (more
            : List ℕ) → ReaderMeans task payload n self.now reading → given_to payload task ≡ task
            → in_payload self.now.phase ≡ false → 0 < length payload
            → (reading more).so_far.payload ≡ payload }
        // The last byte of a payload doesn't settle it either: a tag or signature follows.
        ensures open_payload { (task : Task) (payload : List ℕ) (n : ℕ) (reading : List ℕ → Reading)
            (more : List ℕ)
            → ReaderMeans task payload n self.now reading
            → in_payload self.now.phase ≡ true → length more ≤ want_of self.now.phase
            → (reading more).settled ≡ false }
    {
        // What this call ensures of the item that is being read is what the proof cites.
        let _wanted = self.walker.want();
    }

    /// It holds no more than its stores do, the half of a head, and the hash, and no more is open than the walker allows.
    /// Proof only; no run-time effect.
    pub(crate) fn lemma_bounded(&self)
        ensures held { held_by self.now ≤ 2 * H + 512 }
        ensures opened { opened_by self.now ≤ D }
    {
        let _held = self.held();
        let _opened = self.open_items();
    }

    /// The message is Truncated at this place, where its bytes end, and that is kept.
    pub(crate) fn truncate(&mut self, place: u64) -> Refusal
        ensures same { result ≡ record { reason = Reason.Truncated; place = place } }
        ensures phase { self.new.phase ≡ Phase.Settled (Verdict.Refused result) }
        ensures terms { self.new.terms ≡ self.old.terms }
        ensures shown { sign_input_by self.old ≡ None → shown_by self.new ≡ shown_by self.old }
        ensures held { held_by self.new ≡ held_by self.old }
        ensures opened { opened_by self.new ≡ opened_by self.old }
        ensures untouched { place ≡ 0 → IsUntouched self.old → IsUntouched self.new }
    {
        let refusal = Refusal {
            reason: Reason::Truncated,
            place,
        };
        self.phase = Phase::Settled(Verdict::Refused(refusal));
        refusal
    }

    /// Whether the signature holds: `ec` is asked about the key, the digest of the structure that is signed (RFC 9052 section 4.4)
    /// and the signature as received.
    fn is_signed<E: EcVerifier>(&self, ec: &E) -> bool
        ensures { (chosen : Chosen) → self.now.chosen ≡ Some chosen
            → result ≡ E.decides ec.now (key_value chosen.key) (result_of self.now.hashing)
            self.now.auth.items }
    {
        match &self.chosen {
            Some(chosen) => ec.holds(&chosen.key, self.hashing.result(), self.auth.as_slice()),
            None => false,
        }
    }

    /// The verdict on a message with a signature, all bytes of which are there.
    fn signed_verdict<E: EcVerifier>(&self, signed: Signed, ec: &E) -> Verdict
        requires phase { self.now.phase ≡ Phase.Signed signed }
        ensures answer { (task : Task) (payload : List ℕ) (n : ℕ) (reading : List ℕ → Reading)
            → asks task ≡ false → ReaderMeans task payload n self.now reading
            → then_verified task.setting.aad (E.decides ec.now) (reading []).answer
            ≡ decided result }
        ensures counted { Counts result signed.taken }
    {
        if self.is_signed(ec) {
            return Verdict::Authentic {
                kind: signed.kind,
                alg: signed.alg,
                payload: signed.payload,
                taken: signed.taken,
            };
        }
        Verdict::Refused(Refusal {
            reason: Reason::BadAuth,
            place: signed.head_at,
        })
    }

    /// The verdict after `taken` bytes, which is kept: the message is Truncated where it isn't settled, or at its nil where
    /// bytes of a detached payload are missing, and a signature is decided on, once.
    pub(crate) fn conclude<E: EcVerifier>(&mut self, taken: u64, ec: &E) -> Verdict
        ensures kept { verdict_in self.new.phase ≡ Some result }
        ensures terms { self.new.terms ≡ self.old.terms }
        ensures shown { shown_by self.new ≡ shown_by self.old }
        ensures held { held_by self.new ≡ held_by self.old }
        ensures opened { opened_by self.new ≡ opened_by self.old }
        ensures complete { awaits_decision self.old.phase ≡ true
            → status_of_phase self.new.phase ≡ Status.Complete }
        ensures answer { (setting : Setting) (payload : List ℕ) (reading : List ℕ → Reading)
            → ReaderMeans (to_verify setting) payload taken self.old reading
            → given_to payload (to_verify setting) ≡ to_verify setting
            → then_verified setting.aad (E.decides ec.now) (reading []).answer ≡ decided result }
        ensures counted { (setting : Setting) (payload : List ℕ) (reading : List ℕ → Reading)
            → ReaderMeans (to_verify setting) payload taken self.old reading
            → given_to payload (to_verify setting) ≡ to_verify setting
            → Counts result taken }
        ensures status { (setting : Setting) (payload : List ℕ) (reading : List ℕ → Reading)
            → ReaderMeans (to_verify setting) payload taken self.old reading
            → given_to payload (to_verify setting) ≡ to_verify setting
            → status_of_phase self.new.phase ≡ status_of_answer (reading []).answer }
        // Where no byte was taken, the only change is that the message is Truncated at 0.
        ensures untouched { taken ≡ 0 → IsUntouched self.old → IsUntouched self.new }
    {
        self.lemma_reading_so_far();
        if let Some(verdict) = self.known_verdict() {
            return verdict;
        }
        match self.phase {
            Phase::Signed(signed) => {
                let verdict = self.signed_verdict(signed, ec);
                self.phase = Phase::Decided(Decided {
                    verdict,
                    head_at: signed.head_at,
                });
                verdict
            }
            _ => {
                let place = self.phase.ends_at(taken);
                Verdict::Refused(self.truncate(place))
            }
        }
    }

    /// The answer after `taken` bytes of a message that is only inspected, which is kept: Truncated where it isn't
    /// settled.
    pub(crate) fn conclude_inspection(&mut self, taken: u64) -> Inspected
        ensures kept { inspected_in self.new.phase ≡ Some result }
        ensures terms { self.new.terms ≡ self.old.terms }
        ensures shown { (setting : Setting) (payload : List ℕ) (reading : List ℕ → Reading)
            → ReaderMeans (to_inspect setting) payload taken self.old reading
            → given_to payload (to_inspect setting) ≡ to_inspect setting
            → shown_by self.new ≡ shown_by self.old }
        ensures held { held_by self.new ≡ held_by self.old }
        ensures opened { opened_by self.new ≡ opened_by self.old }
        ensures answer { (setting : Setting) (payload : List ℕ) (reading : List ℕ → Reading)
            → ReaderMeans (to_inspect setting) payload taken self.old reading
            → given_to payload (to_inspect setting) ≡ to_inspect setting
            → (reading []).answer ≡ inspection result }
        ensures counted { (setting : Setting) (payload : List ℕ) (reading : List ℕ → Reading)
            → ReaderMeans (to_inspect setting) payload taken self.old reading
            → given_to payload (to_inspect setting) ≡ to_inspect setting
            → SaysCount (inspection result) taken }
        ensures status { (setting : Setting) (payload : List ℕ) (reading : List ℕ → Reading)
            → ReaderMeans (to_inspect setting) payload taken self.old reading
            → given_to payload (to_inspect setting) ≡ to_inspect setting
            → status_of_phase self.new.phase ≡ status_of_answer (reading []).answer }
        ensures untouched { taken ≡ 0 → IsUntouched self.old → IsUntouched self.new }
    {
        self.lemma_reading_so_far();
        match self.inspected() {
            Some(inspected) => inspected,
            None => {
                let place = self.phase.ends_at(taken);
                Inspected::Refused(self.truncate(place))
            }
        }
    }
}
