//! What a verifier counts and keeps: the number of bytes taken, whether it stopped, and the verdict.

ghost use Rattle.std.specs.Prelude.{◌≡◌, ◌<◌, ◌≤◌, ◌+◌, ◌^◌, ℕ, true, false, List, [], ◌++◌, None, Some, if◌then◌else◌, length};
ghost use Rattle.cose_msg.specs.Kept.{answer_kept, WhateverTaken};
ghost use Rattle.cose_msg.specs.Reader.{keys_in};

use crate::elliptic::EcVerifier;
use crate::verdict::{Inspected, Stop, Verdict};
use crate::verifier::Verifier;
use cose_head::{Reason, Refusal};
use cose_map::Keys;

/// No message has so many bytes: its payload has fewer than 2^56.
const MESSAGE_LIMIT: u64 = 1 << 57;

/// The answer that is kept: that the verifier has stopped, or the result of the message, once it is known.
fn kept<A: Copy>(stopped: bool, answer: Option<A>) -> Option<Result<A, Stop>>
    ensures { result ≡ answer_kept stopped answer }
{
    if stopped {
        return Some(Err(Stop::Again));
    }
    match answer {
        Some(answer) => Some(Ok(answer)),
        None => None,
    }
}

/// The keys of which one is chosen, unless none is.
fn keys_to_choose_from<'k, K: Keys<'k>>(keys: &K, keyless: bool) -> Option<&K>
    ensures { keys_in K.usable result ≡ (if keyless then None else Some (K.usable keys.now)) }
{
    if keyless {
        return None;
    }
    Some(keys)
}

impl<'k, const H: usize, const D: usize, S: Keys<'k>> Verifier<'k, H, D, S> {
    ghost use Rattle.cose_msg.specs.Answer.{decided};
    ghost use Rattle.cose_msg.specs.Kept.{HasTaken, kept_answer, kept_inspection, SamePurpose};
    ghost use Rattle.cose_msg.specs.Laws.{then_verified};
    ghost use Rattle.cose_msg.specs.Message.{Setting};
    ghost use Rattle.cose_msg.specs.Phase.{awaits_decision, grown, in_payload, is_settled, want_of};
    ghost use Rattle.cose_msg.specs.Reader.{Counts, ReaderMeans};
    ghost use Rattle.cose_msg.specs.Reading.{Reading};
    ghost use Rattle.cose_msg.specs.Run.{SaysCount, inspection};
    ghost use Rattle.cose_msg.specs.Shown.{shown_of};
    ghost use Rattle.cose_msg.specs.declared.status.Status.{Status};
    ghost use Rattle.cose_msg.specs.Status.{status_in, status_of_answer};
    ghost use Rattle.cose_msg.specs.Task.{given_to, to_inspect, to_verify};
    ghost use Rattle.cose_msg.specs.Verifier.{task_of};

    /// The answer that is kept until `reset`: that it had stopped, or the verdict.
    pub(crate) fn kept_answer(&self) -> Option<Result<Verdict, Stop>>
        ensures { result ≡ kept_answer self.now }
    {
        kept(self.stopped, self.reader.known_verdict())
    }

    /// The same of a verifier that inspects.
    pub(crate) fn kept_inspection(&self) -> Option<Result<Inspected, Stop>>
        ensures { result ≡ kept_inspection self.now }
    {
        kept(self.stopped, self.reader.inspected())
    }

    /// How many bytes to ask for next: at most `most`, no more than are to come for certain, and none once the message
    /// is settled.
    pub(crate) fn request(&self, most: usize) -> usize
        requires { 0 < most }
        ensures most { result ≤ most }
        ensures wanted { result ≤ want_of self.now.reader.phase }
        ensures early { 0 < result → self.now.taken < 2 ^ 57 }
        ensures some { is_settled self.now.reader.phase ≡ false → self.now.taken < 2 ^ 57
            → 0 < result }
    {
        if self.taken >= MESSAGE_LIMIT {
            return 0;
        }
        self.reader.wanted().min(most as u64) as usize
    }

    /// Takes a piece of no more bytes than are wanted, and counts them.
    #[inline(always)]
    pub(crate) fn take_piece(&mut self, piece: &[u8])
        requires some { 0 < length piece.now }
        requires wanted { length piece.now ≤ want_of self.old.reader.phase }
        requires early { self.old.taken < 2 ^ 57 }
        requires short { length piece.now ≤ 65536 }
        ensures counted { self.new.taken ≡ self.old.taken + length piece.now }
        ensures marked { self.new.stopped ≡ self.old.stopped }
        ensures purpose { SamePurpose self.old self.new }
        ensures taken { WhateverTaken self.old (λ task taken payload_so_far.
            HasTaken task (taken ++ piece.now)
            (grown self.old.reader.phase payload_so_far piece.now) self.new) }
    {
        let elsewhere = self.is_elsewhere();
        let keyless = self.is_keyless();
        let keys = keys_to_choose_from(&self.keys, keyless);
        self.reader
            .advance(piece, keys, elsewhere, self.detached_length);
        self.reader.lemma_bounded();
        self.taken += piece.len() as u64;
    }

    /// Whether so many bytes, at least one, all are the payload's, and others of it follow.
    #[inline(always)]
    pub(crate) fn has_more_payload_than(&self, count: usize) -> bool
        ensures some { result ≡ true → 0 < count }
        ensures fewer { result ≡ true → count < want_of self.now.reader.phase }
        ensures inside { result ≡ true → in_payload self.now.reader.phase ≡ true }
        ensures early { result ≡ true → self.now.taken < 2 ^ 57 }
        ensures goes_on { result ≡ true → self.now.stopped ≡ false }
    {
        if self.stopped {
            return false;
        }
        if self.taken >= MESSAGE_LIMIT {
            return false;
        }
        self.reader.has_more_payload_than(count)
    }

    /// Takes a piece that ends before the payload does, and counts it.
    #[inline(always)]
    pub(crate) fn take_payload_part(&mut self, bytes: &[u8])
        requires some { 0 < length bytes.now }
        requires fewer { length bytes.now < want_of self.old.reader.phase }
        requires inside { in_payload self.old.reader.phase ≡ true }
        requires early { self.old.taken < 2 ^ 57 }
        ensures inside { in_payload self.new.reader.phase ≡ true }
        ensures counted { self.new.taken ≡ self.old.taken + length bytes.now }
        ensures marked { self.new.stopped ≡ self.old.stopped }
        ensures purpose { SamePurpose self.old self.new }
        ensures taken { WhateverTaken self.old (λ task taken payload_so_far.
            HasTaken task (taken ++ bytes.now) (payload_so_far ++ bytes.now) self.new) }
    {
        self.reader.payload_part(bytes);
        self.reader.lemma_bounded();
        self.taken += bytes.len() as u64;
    }

    /// Stops until `reset`.
    pub(crate) fn stop(&mut self)
        ensures stopped { self.new.stopped ≡ true }
        ensures taken { self.new.taken ≡ self.old.taken }
        ensures shown { shown_of self.new ≡ shown_of self.old }
        ensures purpose { task_of self.new ≡ task_of self.old }
    {
        self.stopped = true;
    }

    /// The verdict of the bytes taken, which is kept: the message is Truncated where it isn't settled, or at its nil where bytes of
    /// a detached payload are missing, and a signature is decided on, once.
    pub(crate) fn conclude<E: EcVerifier>(&mut self, ec: &E) -> Verdict
        ensures kept { kept_answer self.new ≡ answer_kept self.old.stopped (Some result) }
        ensures counts { self.new.taken ≡ self.old.taken }
        ensures purpose { task_of self.new ≡ task_of self.old }
        ensures shown { shown_of self.new ≡ shown_of self.old }
        ensures complete { awaits_decision self.old.reader.phase ≡ true → self.old.stopped ≡ false
            → status_in self.new ≡ Status.Complete }
        ensures answer { (setting : Setting) (payload_so_far : List ℕ) (reading : List ℕ → Reading)
            → ReaderMeans (to_verify setting) payload_so_far self.old.taken self.old.reader reading
            → given_to payload_so_far (to_verify setting) ≡ to_verify setting
            → then_verified setting.aad (E.decides ec.now) (reading []).answer ≡ decided result }
        ensures counted { (setting : Setting) (payload_so_far : List ℕ) (reading : List ℕ → Reading)
            → ReaderMeans (to_verify setting) payload_so_far self.old.taken self.old.reader reading
            → given_to payload_so_far (to_verify setting) ≡ to_verify setting
            → Counts result self.old.taken }
        ensures status { (setting : Setting) (payload_so_far : List ℕ) (reading : List ℕ → Reading)
            → ReaderMeans (to_verify setting) payload_so_far self.old.taken self.old.reader reading
            → given_to payload_so_far (to_verify setting) ≡ to_verify setting
            → self.old.stopped ≡ false → status_in self.new ≡ status_of_answer (reading []).answer }
    {
        self.reader.conclude(self.taken, ec)
    }

    /// The answer for the bytes taken of a message that is only inspected, which is kept: Truncated where it isn't settled.
    pub(crate) fn conclude_inspection(&mut self) -> Inspected
        ensures kept { kept_inspection self.new ≡ answer_kept self.old.stopped (Some result) }
        ensures counts { self.new.taken ≡ self.old.taken }
        ensures purpose { task_of self.new ≡ task_of self.old }
        ensures shown { (setting : Setting) (payload_so_far : List ℕ) (reading : List ℕ → Reading)
            → ReaderMeans (to_inspect setting) payload_so_far self.old.taken self.old.reader reading
            → given_to payload_so_far (to_inspect setting) ≡ to_inspect setting
            → shown_of self.new ≡ shown_of self.old }
        ensures answer { (setting : Setting) (payload_so_far : List ℕ) (reading : List ℕ → Reading)
            → ReaderMeans (to_inspect setting) payload_so_far self.old.taken self.old.reader reading
            → given_to payload_so_far (to_inspect setting) ≡ to_inspect setting
            → (reading []).answer ≡ inspection result }
        ensures counted { (setting : Setting) (payload_so_far : List ℕ) (reading : List ℕ → Reading)
            → ReaderMeans (to_inspect setting) payload_so_far self.old.taken self.old.reader reading
            → given_to payload_so_far (to_inspect setting) ≡ to_inspect setting
            → SaysCount (inspection result) self.old.taken }
        ensures status { (setting : Setting) (payload_so_far : List ℕ) (reading : List ℕ → Reading)
            → ReaderMeans (to_inspect setting) payload_so_far self.old.taken self.old.reader reading
            → given_to payload_so_far (to_inspect setting) ≡ to_inspect setting
            → self.old.stopped ≡ false → status_in self.new ≡ status_of_answer (reading []).answer }
    {
        self.reader.conclude_inspection(self.taken)
    }
}
