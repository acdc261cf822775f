//! A verifier that is fed: pieces of a message as they come, of any length, and the status after them.

ghost use Rattle.std.specs.Prelude.{◌≡◌, ◌≢◌, ◌<◌, ◌≤◌, ◌+◌, ◌*◌, ◌^◌, ℕ, true, false, List, [], ◌++◌, Some, Ok, length, take, ◌==◌, if◌then◌else◌};

use crate::elliptic::EcVerifier;
use crate::laws::{deciding_goes_last, messages_are_bounded};
use crate::status::{Fed, Status};
use crate::verdict::Verdict;
use crate::verifier::Verifier;
use cose_map::Keys;

/// The most bytes that are taken in one step. (Any number would do; it keeps the counts small.)
const STEP: usize = 65_536;

/// The payload's bytes of a piece: from the first one to after the last one. Both are 0 where there is none.
#[derive(Clone, Copy)]
struct Part {
    from: usize,
    to: usize,
}

impl Part {
    /// This part and the next `count` bytes, which begin at `begin`.
    fn extended(self, begin: usize, count: usize) -> Part
        requires { begin + count < 2 ^ 64 }
        ensures from { result.from ≡ (if self.to == 0 then begin else self.from) }
        ensures to { result.to ≡ begin + count }
    {
        Part {
            from: if self.to == 0 { begin } else { self.from },
            to: begin + count,
        }
    }
}

impl<'k, const H: usize, const D: usize, S: Keys<'k>> Verifier<'k, H, D, S> {
    ghost use Rattle.cose_head.specs.declared.reason.Reason.{Reason};
    ghost use Rattle.cose_msg.specs.Answer.{decided};
    ghost use Rattle.cose_msg.specs.Feed.{TakesPiece, Uses, nothing_used, payload_in};
    ghost use Rattle.cose_msg.specs.Kept.{HasTaken, bytes_taken, is_inspecting, kept_answer, WhateverTaken, WhateverVerified, SamePurpose};
    ghost use Rattle.cose_msg.specs.Message.{message, verdict_of};
    ghost use Rattle.cose_msg.specs.Phase.{is_settled, want_of};
    ghost use Rattle.cose_msg.specs.Shown.{ShowsReading, shown_of};
    ghost use Rattle.cose_msg.specs.Status.{is_complete, is_more, is_open, status_in, status_of_reading, status_of_answer, wanted_in};
    ghost use Rattle.cose_msg.specs.Task.{rules_of};
    ghost use Rattle.cose_msg.specs.Verifier.{is_detached, task_of};

    /// The status of the message after the bytes so far.
    pub fn status(&self) -> Status
        ensures value { result ≡ status_in self.now }
        // It is that of the bytes so far, by definition.
        ensures reads { WhateverTaken self.now (λ task taken _.
            result ≡ status_of_reading (message (rules_of H D task) taken)) }
        // Of a message that has its payload no byte of a detached one is wanted.
        ensures attached { WhateverTaken self.now (λ _ _ _.
            is_detached self.now ≡ false → result ≢ Status.PayloadNext) }
    {
        self.reader.lemma_reading_so_far();
        if self.stopped {
            return Status::Stopped;
        }
        self.reader.phase.status()
    }

    /// Whether all bytes of the message are there, and none of them refused it: [`Verifier::verdict`] may be called.
    pub fn is_complete(&self) -> bool
        ensures { result ≡ is_complete (status_in self.now) }
    {
        matches!(self.status(), Status::Complete)
    }

    /// How many bytes are to come for certain: those that are left of a string, be it the protected header, one of the unprotected
    /// header, the payload, or the tag or signature, and one of a head. None once the message is settled or the verifier has stopped.
    pub fn want(&self) -> u64
        ensures value { result ≡ wanted_in self.now }
        // By definition, of the bytes so far.
        ensures reads { WhateverTaken self.now (λ task taken _.
            result ≡ (message (rules_of H D task) taken).wanted) }
        ensures some { status_in self.now ≡ Status.More → 0 < result }
        ensures none { is_more (status_in self.now) ≡ false → result ≡ 0 }
        // Fewer bytes than that don't settle the message.
        ensures early { WhateverTaken self.now (λ task taken _.
            (more : List ℕ) → length more < result
            → (message (rules_of H D task) (taken ++ more)).settled ≡ false) }
    {
        self.reader.lemma_reading_so_far();
        if self.stopped {
            return 0;
        }
        self.reader.wanted()
    }

    /// How many bytes of the rest of a piece to take next.
    fn step(&self, rest: usize) -> usize
        ensures rest { result ≤ rest }
        ensures short { result ≤ 65536 }
        ensures wanted { result ≤ want_of self.now.reader.phase }
        ensures early { 0 < result → self.now.taken < 2 ^ 57 }
        ensures some { 0 < rest → is_settled self.now.reader.phase ≡ false → self.now.taken < 2 ^ 57
            → 0 < result }
    {
        if rest == 0 {
            return 0;
        }
        self.request(rest.min(STEP))
    }

    /// [`Verifier::feed`] of any piece, step by step. Not inlined, so that a piece that is all within the payload takes few steps.
    #[inline(never)]
    fn feed_across(&mut self, piece: &[u8]) -> Fed
        ensures { TakesPiece self.old piece.now result self.new }
    {
        // The law of messages that the proof cites.
        messages_are_bounded();
        self.reader.lemma_reading_so_far();
        let mut used = 0;
        let mut payload = Part { from: 0, to: 0 };
        if self.want() == 0 {
            return Fed {
                used,
                payload_from: 0,
                payload_to: 0,
                status: self.status(),
            };
        }
        'pieces: loop {
            self.reader.lemma_reading_so_far();
            let rest = &piece[used..];
            let count = self.step(rest.len());
            if count == 0 {
                return Fed {
                    used,
                    payload_from: payload.from,
                    payload_to: payload.to,
                    status: self.status(),
                };
            }
            if self.reader.is_in_payload() {
                payload = payload.extended(used, count);
            }
            self.take_piece(&rest[..count]);
            used += count;
        }
    }

    /// Takes the next bytes of the message: the fewest that settle it, or the whole piece. It says how many it used, and which of
    /// them are of the payload; these are hashed, and not kept.
    ///
    /// Pass the payload's bytes on as they come, and drop them all where the message is refused, or ends too early
    /// ([`Verifier::end`]). A message that is settled, or a verifier that has stopped, uses no byte, and the status
    /// stays.
    pub fn feed(&mut self, piece: &[u8]) -> Fed
        // Of the bytes so far, whatever cuts they came in, and the piece:
        ensures uses { WhateverTaken self.old (λ task taken _.
            Uses (rules_of H D task) taken piece.now result.used) }
        ensures taken { WhateverTaken self.old (λ task taken payload_so_far.
            HasTaken task (taken ++ take result.used piece.now)
            (payload_so_far ++ payload_in result piece.now) self.new) }
        ensures status { WhateverTaken self.old (λ task taken _.
            result.status
            ≡ status_of_reading
            (message (rules_of H D task) (taken ++ take result.used piece.now))) }
        ensures attached { WhateverTaken self.old (λ _ _ _.
            is_detached self.old ≡ false → result.status ≢ Status.PayloadNext) }
        ensures payload { WhateverTaken self.old (λ task taken _.
            (message (rules_of H D task) (taken ++ take result.used piece.now)).so_far.payload
            ≡ (message (rules_of H D task) taken).so_far.payload ++ payload_in result piece.now) }
        ensures shows { WhateverTaken self.old (λ task taken _.
            ShowsReading task (taken ++ take result.used piece.now) self.new) }
        // The payload's bytes are some of those that were used, or both places are 0.
        ensures fits { result.used ≤ length piece.now }
        ensures ordered { result.payload_from ≤ result.payload_to }
        ensures among { result.payload_to ≤ result.used }
        ensures none { result.payload_from ≡ result.payload_to → result.payload_to ≡ 0 }

        ensures current { result.status ≡ status_in self.new }
        ensures counted { bytes_taken self.new ≡ bytes_taken self.old + result.used }
        // Where no byte is wanted, nothing changes.
        ensures again { is_more (status_in self.old) ≡ false
            → (result ≡ nothing_used (status_in self.old)) × (self.new ≡ self.old) }
        ensures purpose { SamePurpose self.old self.new }
    {
        self.reader.lemma_reading_so_far();
        if self.has_more_payload_than(piece.len()) {
            self.take_payload_part(piece);
            self.reader.lemma_reading_so_far();
            return Fed {
                used: piece.len(),
                payload_from: 0,
                payload_to: piece.len(),
                status: Status::More,
            };
        }
        self.feed_across(piece)
    }

    /// Says that no further byte comes: a message that isn't settled is Truncated where its bytes end, and one whose detached
    /// payload isn't all there at its nil. Any other status stays.
    pub fn end(&mut self) -> Status
        ensures current { result ≡ status_in self.new }
        ensures truncated { status_in self.old ≡ Status.More
            → result
            ≡ Status.Refused (record { reason = Reason.Truncated; place = bytes_taken self.old }) }
        ensures kept { status_in self.old ≡ Status.More
            → kept_answer self.new
            ≡ Some (Ok
            (Verdict.Refused
            (record { reason = Reason.Truncated; place = bytes_taken self.old }))) }
        ensures awaiting { WhateverTaken self.old (λ task taken _.
            status_in self.old ≡ Status.PayloadNext
            → result ≡ status_of_answer (message (rules_of H D task) taken).answer) }
        ensures again { is_open (status_in self.old) ≡ false → (result ≡ status_in self.old)
            × (self.new ≡ self.old) }
        ensures counts { bytes_taken self.new ≡ bytes_taken self.old }
        ensures purpose { task_of self.new ≡ task_of self.old }
        ensures shown { shown_of self.new ≡ shown_of self.old }
    {
        self.reader.lemma_reading_so_far();
        match self.status() {
            Status::More | Status::PayloadNext => {
                let place = self.reader.phase.ends_at(self.taken);
                Status::Refused(self.reader.truncate(place))
            }
            status => status,
        }
    }

    /// The verdict on a message that is complete: it asks `ec` about the signature of a COSE_Sign1 (RFC 9052 section
    /// 4.4), once. The verdict is kept, and answered again whichever `ec` is passed later. The status stays
    /// [`Status::Complete`].
    ///
    /// The verifier isn't one that [`Verifier::inspecting`] made.
    pub fn verdict<E: EcVerifier>(&mut self, ec: &E) -> Verdict
        requires complete { is_complete (status_in self.old) ≡ true }
        requires verifies { is_inspecting self.old ≡ false }
        // It is that of the bytes so far.
        ensures answer { WhateverVerified self.old (λ setting taken _.
            verdict_of H D setting (E.decides ec.now) taken ≡ decided result) }
        ensures status { WhateverVerified self.old (λ _ _ _. status_in self.new ≡ Status.Complete) }
        ensures kept { kept_answer self.new ≡ Some (Ok result) }
        ensures again { (verdict : Verdict) → kept_answer self.old ≡ Some (Ok verdict)
            → (result ≡ verdict) × (self.new ≡ self.old) }
        ensures counts { bytes_taken self.new ≡ bytes_taken self.old }
        ensures purpose { task_of self.new ≡ task_of self.old }
        ensures shown { shown_of self.new ≡ shown_of self.old }
    {
        // The law of messages that the proof cites.
        deciding_goes_last();
        self.reader.lemma_reading_so_far();
        match self.reader.known_verdict() {
            Some(verdict) => verdict,
            None => self.conclude(ec),
        }
    }
}
