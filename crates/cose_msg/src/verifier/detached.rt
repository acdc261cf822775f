//! A detached payload, which is fed on its own after the message's nil.

ghost use Rattle.std.specs.Prelude.{◌≡◌, ◌<◌, ◌≤◌, ◌+◌, ◌*◌, true, false, ◌++◌, length, take, min};

use crate::phase::Phase;
use crate::verifier::Verifier;
use cose_map::Keys;

impl<'k, const H: usize, const D: usize, S: Keys<'k>> Verifier<'k, H, D, S> {
    ghost use Rattle.cose_msg.specs.Kept.{HasTaken, bytes_taken, WhateverTaken, SamePurpose};
    ghost use Rattle.cose_msg.specs.Message.{message};
    ghost use Rattle.cose_msg.specs.Shown.{ShowsReading};
    ghost use Rattle.cose_msg.specs.declared.status.Status.{Status};
    ghost use Rattle.cose_msg.specs.Status.{is_open, is_payload_next, payload_wanted_in, status_in, status_of_reading};
    ghost use Rattle.cose_msg.specs.Task.{given_to, rules_of};

    /// How many bytes of the detached payload are to come. None unless the status is
    /// [`Status::PayloadNext`](crate::Status::PayloadNext).
    pub fn payload_wanted(&self) -> u64
        ensures value { result ≡ payload_wanted_in self.now }
        // By definition, of the bytes so far.
        ensures reads { WhateverTaken self.now (λ task taken _.
            result ≡ (message (rules_of H D task) taken).payload_wanted) }
        ensures some { status_in self.now ≡ Status.PayloadNext → 0 < result }
        ensures none { is_payload_next (status_in self.now) ≡ false → result ≡ 0 }
    {
        self.reader.lemma_reading_so_far();
        if self.stopped {
            return 0;
        }
        self.reader.phase.payload_wanted()
    }

    /// Takes the next bytes of a detached payload: the whole piece, or as many as are wanted. It returns how many it
    /// used. They are hashed, and not kept.
    ///
    /// It is called where bytes of the payload are wanted ([`Verifier::payload_wanted`]). When all are there, the
    /// message is fed again.
    pub fn feed_payload(&mut self, piece: &[u8]) -> usize
        requires some { 0 < payload_wanted_in self.old }
        ensures uses { result ≡ min (length piece.now) (payload_wanted_in self.old) }
        ensures taken { WhateverTaken self.old (λ task taken payload_so_far.
            HasTaken (given_to (payload_so_far ++ take result piece.now) task) taken
            (payload_so_far ++ take result piece.now) self.new) }
        ensures status { WhateverTaken self.old (λ task taken payload_so_far.
            status_in self.new
            ≡ status_of_reading
            (message (rules_of H D
            (given_to (payload_so_far ++ take result piece.now) task)) taken)) }
        ensures shows { WhateverTaken self.old (λ task taken payload_so_far.
            ShowsReading (given_to (payload_so_far ++ take result piece.now) task) taken self.new) }
        // So many fewer are wanted then. Where none is, bytes of the message are.
        ensures left { payload_wanted_in self.new + result ≡ payload_wanted_in self.old }
        ensures further { is_open (status_in self.new) ≡ true }
        ensures complete { payload_wanted_in self.new ≡ 0 → status_in self.new ≡ Status.More }
        ensures counts { bytes_taken self.new ≡ bytes_taken self.old }
        ensures purpose { SamePurpose self.old self.new }
    {
        match self.reader.phase {
            Phase::Detached(detached) => {
                let count = detached.left.min(piece.len() as u64) as usize;
                self.reader.detached_piece(detached, &piece[..count]);
                self.reader.lemma_reading_so_far();
                count
            }
            _ => 0,
        }
    }
}
