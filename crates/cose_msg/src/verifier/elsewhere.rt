//! A message that is authenticated elsewhere: by a caller that has the hash or the key.

ghost use Rattle.std.specs.Prelude.{◌≡◌, ◌≤◌, length, true};

use crate::context::Context;
use crate::front_pieces::FrontPieces;
use crate::reader::stated::Stated;
use crate::verdict::Verdict;
use crate::verifier::Verifier;
use cose_mac::Alg;
use cose_map::{Key, Keys};

impl<'k, const H: usize, const D: usize, S: Keys<'k>> Verifier<'k, H, D, S> {
    ghost use Rattle.std.specs.Prelude.{[], false, ℕ, List, Ok, Some, IfSome, is_some};
    ghost use Rattle.std.specs.List.{concat};
    ghost use Rattle.cose_msg.specs.FrontPieces.{piece_at, pieces_of};
    ghost use Rattle.cose_msg.specs.Answer.{decided};
    ghost use Rattle.cose_msg.specs.Elsewhere.{AsksKey, HasSignature, HoweverItGoesOn, IsFrontOf, key_asked, stated_answer, stated_by, stated_mac, then_authenticated, verdict_by};
    ghost use Rattle.cose_msg.specs.Kept.{HasTaken, WhateverAsked, answer_kept, bytes_taken, is_inspecting, kept_answer};
    ghost use Rattle.cose_msg.specs.Message.{Setting, message, uncompared};
    ghost use Rattle.cose_msg.specs.Phase.{awaits_decision};
    ghost use Rattle.cose_msg.specs.Reader.{ReaderMeans};
    ghost use Rattle.cose_msg.specs.Reading.{Reading};
    ghost use Rattle.cose_msg.specs.Shown.{ShowsReading, held, shown_of};
    ghost use Rattle.cose_msg.specs.declared.status.Status.{Status};
    ghost use Rattle.cose_msg.specs.Status.{is_complete, status_in};
    ghost use Rattle.cose_msg.specs.Task.{given_to, is_keyless, to_verify_elsewhere};
    ghost use Rattle.cose_msg.specs.Verifier.{asks_about_signature, detaching, is_detached, is_elsewhere, is_framed, setting_in, setting_of, task_of};

    /// A verifier of a message in this context that the caller authenticates, since it has the hash or the key: its key is chosen,
    /// and its tag or signature kept, but nothing is hashed or compared.
    pub fn elsewhere(context: Context<'k, S>) -> Self
        requires some_room { 16 ≤ H }
        requires limit { H ≤ 65535 }
        requires nesting { D ≤ 32 }
        requires external { length context.aad.now ≤ 65535 }
        ensures none_taken { HasTaken (to_verify_elsewhere (setting_of S.usable context.entry)) []
            [] result }
        ensures shows { ShowsReading (to_verify_elsewhere (setting_of S.usable context.entry)) []
            result }
        ensures status { status_in result ≡ Status.More }
        ensures held { held result ≡ 256 }
        ensures inspects { is_inspecting result ≡ true }
        ensures elsewhere { is_elsewhere result ≡ true }
        ensures attached { is_detached result ≡ false }
    {
        Self::made(context, true, true, None)
    }

    /// The same of a message whose payload is detached ([`Verifier::detached`]).
    pub fn elsewhere_detached(context: Context<'k, S>, payload_length: u64) -> Self
        requires some_room { 16 ≤ H }
        requires limit { H ≤ 65535 }
        requires nesting { D ≤ 32 }
        requires external { length context.aad.now ≤ 65535 }
        ensures none_taken { HasTaken
            (to_verify_elsewhere (detaching payload_length (setting_of S.usable context.entry))) []
            [] result }
        ensures shows { ShowsReading
            (to_verify_elsewhere (detaching payload_length (setting_of S.usable context.entry))) []
            result }
        ensures status { status_in result ≡ Status.More }
        ensures held { held result ≡ 256 }
        ensures inspects { is_inspecting result ≡ true }
        ensures elsewhere { is_elsewhere result ≡ true }
        ensures detached { is_detached result ≡ true }
    {
        Self::made(context, true, true, Some(payload_length))
    }

    /// Whether it was made for a message that is authenticated elsewhere.
    pub fn is_elsewhere(&self) -> bool
        ensures { result ≡ is_elsewhere self.now }
    {
        self.inspecting && self.elsewhere
    }

    /// Whether no key is chosen.
    pub(crate) fn is_keyless(&self) -> bool
        ensures { result ≡ is_keyless (task_of self.now) }
    {
        self.inspecting && !self.elsewhere
    }

    /// The bytes of the MAC_structure or Sig_structure (RFC 9052 sections 6.3 and 4.4) before the payload's content, in pieces, once
    /// the payload's head was read and until the verdict: what the caller hashes, and after it the payload as it comes.
    pub fn front_pieces(&self) -> Option<FrontPieces<'_>>
        // Whatever bytes follow, they and the payload are the structure.
        ensures front { IfSome result (λ pieces.
            WhateverAsked self.now (λ setting taken payload_so_far.
            HoweverItGoesOn H D setting taken payload_so_far (λ reading.
            IsFrontOf setting.aad reading (concat (pieces_of pieces))))) }
        ensures context { IfSome result (λ pieces. length (piece_at 0 (pieces_of pieces)) ≤ 12) }
        ensures external { IfSome result (λ pieces.
            piece_at 4 (pieces_of pieces) ≡ (setting_in self.now).aad) }
        ensures some { WhateverAsked self.now (λ _ _ _. is_some result ≡ is_framed self.now) }
    {
        self.reader.front_pieces()
    }

    /// The key that fits the message, as it is in the keys, and the algorithm that it is used with, once the payload's head was
    /// read and until the verdict. A symmetric key's bytes may be any handle of the caller's: they are not used.
    pub fn asked_key(&self) -> Option<(Key<'k>, Alg)>
        ensures key { IfSome result (λ asked.
            WhateverAsked self.now (λ setting taken payload_so_far.
            HoweverItGoesOn H D setting taken payload_so_far (λ reading.
            AsksKey reading (key_asked asked)))) }
        ensures some { WhateverAsked self.now (λ _ _ _. is_some result ≡ is_framed self.now) }
        ensures framed { is_some result ≡ true → is_framed self.now ≡ true }
    {
        self.reader.asked_key()
    }

    /// The signature of a COSE_Sign1 as it was received, once all bytes are there and until the verdict. The tag of a COSE_Mac0 is
    /// given to no one.
    pub fn asked_signature(&self) -> Option<&[u8]>
        ensures signature { IfSome result (λ signature. WhateverAsked self.now (λ setting taken _.
            HasSignature (message (uncompared H D setting) taken).answer signature.now)) }
        ensures some { is_some result ≡ asks_about_signature self.now }
    {
        self.reader.asked_signature()
    }

    /// The verdict of the bytes taken by what the caller states, which is kept.
    fn conclude_stated(&mut self, stated: Stated<'_>) -> Verdict
        ensures kept { kept_answer self.new ≡ answer_kept self.old.stopped (Some result) }
        ensures counts { self.new.taken ≡ self.old.taken }
        ensures purpose { task_of self.new ≡ task_of self.old }
        ensures shown { shown_of self.new ≡ shown_of self.old }
        ensures answer { (setting : Setting) (payload_so_far : List ℕ) (reading : List ℕ → Reading)
            → ReaderMeans (to_verify_elsewhere setting) payload_so_far self.old.taken
            self.old.reader reading
            → given_to payload_so_far (to_verify_elsewhere setting) ≡ to_verify_elsewhere setting
            → then_authenticated setting.aad (stated_by stated.entry) (reading []).answer
            ≡ decided result }
    {
        self.reader.conclude_stated(self.taken, stated)
    }

    /// The verdict on a message that is complete, by what the caller states.
    fn verdict_stated(&mut self, stated: Stated<'_>) -> Verdict
        requires complete { is_complete (status_in self.old) ≡ true }
        ensures answer { WhateverAsked self.old (λ setting taken _.
            verdict_by H D setting (stated_by stated.entry) taken ≡ decided result) }
        ensures kept { kept_answer self.new ≡ Some (Ok result) }
        ensures again { (verdict : Verdict) → kept_answer self.old ≡ Some (Ok verdict)
            → (result ≡ verdict) × (self.new ≡ self.old) }
        ensures counts { bytes_taken self.new ≡ bytes_taken self.old }
        ensures purpose { task_of self.new ≡ task_of self.old }
        ensures shown { shown_of self.new ≡ shown_of self.old }
    {
        self.reader.lemma_reading_so_far();
        match self.reader.known_verdict() {
            Some(verdict) => verdict,
            None => self.conclude_stated(stated),
        }
    }

    /// The verdict on a complete COSE_Mac0, whose tag is compared with the MAC that the caller computed of the structure under the
    /// chosen key (RFC 9052 section 6.3), in steps that don't depend on where they differ. A COSE_Sign1 is refused. The verdict is
    /// kept, and answered again whatever is stated later.
    pub fn verdict_of_mac(&mut self, mac: &[u8]) -> Verdict
        requires complete { is_complete (status_in self.old) ≡ true }
        requires elsewhere { is_elsewhere self.old ≡ true }
        // It is that of the bytes so far. Where the MAC is right, it is that of a verifier that has the key.
        ensures answer { WhateverAsked self.old (λ setting taken _.
            verdict_by H D setting (stated_mac mac.now) taken ≡ decided result) }
        ensures kept { kept_answer self.new ≡ Some (Ok result) }
        ensures again { (verdict : Verdict) → kept_answer self.old ≡ Some (Ok verdict)
            → (result ≡ verdict) × (self.new ≡ self.old) }
        ensures counts { bytes_taken self.new ≡ bytes_taken self.old }
        ensures purpose { task_of self.new ≡ task_of self.old }
        ensures shown { shown_of self.new ≡ shown_of self.old }
    {
        self.verdict_stated(Stated::Mac(mac))
    }

    /// The verdict on a complete COSE_Sign1, where the caller's verifier says whether the signature of the structure holds under the
    /// chosen key (RFC 9052 section 4.4). A COSE_Mac0 is refused. The verdict is kept, and answered again whatever is stated later.
    pub fn verdict_of_answer(&mut self, holds: bool) -> Verdict
        requires complete { is_complete (status_in self.old) ≡ true }
        requires elsewhere { is_elsewhere self.old ≡ true }
        ensures answer { WhateverAsked self.old (λ setting taken _.
            verdict_by H D setting (stated_answer holds) taken ≡ decided result) }
        ensures kept { kept_answer self.new ≡ Some (Ok result) }
        ensures again { (verdict : Verdict) → kept_answer self.old ≡ Some (Ok verdict)
            → (result ≡ verdict) × (self.new ≡ self.old) }
        ensures counts { bytes_taken self.new ≡ bytes_taken self.old }
        ensures purpose { task_of self.new ≡ task_of self.old }
        ensures shown { shown_of self.new ≡ shown_of self.old }
    {
        self.verdict_stated(Stated::Answer(holds))
    }
}
