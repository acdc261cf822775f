//! The header buckets of a message (RFC 9052 section 3).

ghost use Rattle.std.specs.Prelude.{◌≡◌, ◌<◌, ◌≤◌, ◌+◌, ◌^◌, ℕ, List, Ok, ◌++◌, length};
ghost use Rattle.cose_head.specs.Measured.{left_of};
ghost use Rattle.cose_head.specs.Reading.{read};
ghost use Rattle.cose_head.specs.Walker.{Answers, HasPut, IsAmong, last_step};
ghost use Rattle.cose_map.specs.Bucket.{bucket_of};
ghost use Rattle.cose_map.specs.Map.View.{refusal_in};
ghost use Rattle.cose_msg.specs.Reading.{wanted_after};

use crate::bare_head::take_bare_head_byte;
use crate::phase::{Phase, Protected, ProtectedHead, Unprotected};
use crate::reader::{Place, Reader};
use crate::store_bytes::append;
use cose_head::laws::{read_stays, walker_is_reading};
use cose_head::{Head, HeadStep, Kind, Reason, Refusal, Step, Walker};
use cose_map::{Bucket, Keys};

/// Why the bytes of a header bucket are refused, if they are.
fn refusal_of(bytes: &[u8], at: u64, depth: usize) -> Option<Refusal>
    requires shallow { depth ≤ 32 }
    requires in_range { at + length bytes.now < 2 ^ 64 }
    ensures { result ≡ refusal_in (bucket_of depth (record { bytes = bytes.now; place = at })) }
{
    Bucket::fault(bytes, at, depth)
}

/// Puts a piece of no more bytes than the walker wants, and returns the walker's step after it.
fn walk_on<const D: usize>(walker: &mut Walker<D>, piece: &[u8]) -> Step
    requires some { 0 < length piece.now }
    ensures answer { (room : ℕ) (bytes : List ℕ) → HasPut room bytes walker.old
        → length piece.now ≤ wanted_after room D bytes
        → Answers room (bytes ++ piece.now) result (read D (left_of (bytes ++ piece.now) room 0)) }
    ensures put { (room : ℕ) (bytes : List ℕ) → HasPut room bytes walker.old
        → length piece.now ≤ wanted_after room D bytes
        → result ≡ Step.Going → HasPut room (bytes ++ piece.now) walker.new }
    ensures among { (room : ℕ) (bytes : List ℕ) → HasPut room bytes walker.old
        → length piece.now ≤ wanted_after room D bytes
        → IsAmong room (bytes ++ piece.now) result }
    ensures step { last_step walker.new ≡ result }
{
    if walker.pass(piece) == 0 {
        return walker.put(piece[0]);
    }
    walker.step()
}

impl<'k, const H: usize, const D: usize> Reader<'k, H, D> {
    ghost use Rattle.std.specs.Prelude.{[], ◌∷◌};
    ghost use Rattle.cose_map.specs.Map.Pairs.{Pair};
    ghost use Rattle.cose_msg.specs.Phases.{nothing_so_far, past_protected, past_protected_head, past_unprotected, placed_at, protected_head, protected_fault_within, protected_so_far, unprotected};
    ghost use Rattle.cose_msg.specs.Reading.{Reading};
    ghost use Rattle.cose_msg.specs.Task.{Task, asks, keys_for, rules_of};
    ghost use Rattle.cose_msg.specs.Reader.{HasFindings, ReaderMeans, keys_in};

    /// The head of the protected bucket begins here.
    pub(crate) fn begin_protected_head(&mut self, kind: Kind, at: u64)
        requires early { at ≤ 27 }
        ensures reads_on { (task : Task) → HasFindings task nothing_so_far self.old
            → ReaderMeans task [] at self.new
            (λ more. protected_head (rules_of H D task) kind at more) }
    {
        self.head.clear();
        self.phase = Phase::ProtectedHead(ProtectedHead { kind, at });
    }

    /// Takes the next byte of the protected bucket's head.
    pub(crate) fn protected_head(&mut self, protected_head: ProtectedHead, byte: u8)
        requires phase { self.old.phase ≡ Phase.ProtectedHead protected_head }
        ensures reads_on { (task : Task) (payload : List ℕ) (n : ℕ) (reading : List ℕ → Reading)
            → ReaderMeans task payload n self.old reading
            → ReaderMeans task payload (n + 1) self.new (λ more. reading (byte ∷ more)) }
    {
        let ProtectedHead { kind, at } = protected_head;
        match take_bare_head_byte(&mut self.head, byte) {
            HeadStep::More(_) => {}
            HeadStep::Fault(reason) => self.refuse(reason, at),
            HeadStep::Got(head, used) => self.past_protected_head(kind, head, at, at + used as u64),
        }
    }

    /// What is wrong with the protected bucket's head.
    pub(crate) fn fault_of_protected(head: &Head) -> Option<Reason>
        ensures { result ≡ protected_fault_within H head.now }
    {
        if head.major != 2 {
            return Some(Reason::WrongType);
        }
        if head.arg > H as u64 {
            return Some(Reason::PastRoom);
        }
        None
    }

    /// What follows the protected bucket's head.
    fn past_protected_head(&mut self, kind: Kind, head: Head, head_at: u64, at: u64)
        requires early { at ≤ 36 }
        ensures reads_on { (task : Task) → HasFindings task nothing_so_far self.old
            → ReaderMeans task [] at self.new
            (λ more. past_protected_head (rules_of H D task) kind head_at head at more) }
    {
        match Self::fault_of_protected(&head) {
            Some(reason) => self.refuse(reason, head_at),
            None => {
                self.protected.clear();
                if head.arg == 0 {
                    self.past_protected(kind, at);
                } else {
                    self.phase = Phase::Protected(Protected {
                        kind,
                        at,
                        length: head.arg,
                        left: head.arg,
                    });
                }
            }
        }
    }

    /// Takes a piece of the protected bucket's content.
    #[inline(never)]
    pub(crate) fn protected_piece(&mut self, protected: Protected, piece: &[u8])
        requires phase { self.old.phase ≡ Phase.Protected protected }
        requires fits { length piece.now ≤ protected.left }
        ensures reads_on { (task : Task) (payload : List ℕ) (n : ℕ) (reading : List ℕ → Reading)
            → ReaderMeans task payload n self.old reading
            → ReaderMeans task payload (n + length piece.now) self.new (λ more. reading (piece.now ++
            more)) }
    {
        append(&mut self.protected, piece);
        let left = protected.left - piece.len() as u64;
        if left == 0 {
            self.past_protected(protected.kind, protected.at);
        } else {
            self.phase = Phase::Protected(Protected {
                kind: protected.kind,
                at: protected.at,
                length: protected.length,
                left,
            });
        }
    }

    /// What follows the protected bucket, whose content is at this place.
    fn past_protected(&mut self, kind: Kind, at: u64)
        requires early { at ≤ 36 }
        ensures reads_on { (task : Task) → HasFindings task nothing_so_far self.old
            → ReaderMeans task [] (at + length self.old.protected.items) self.new
            (λ more. past_protected (rules_of H D task) kind at self.old.protected.items
            (at + length self.old.protected.items) more) }
    {
        let length = self.protected.len() as u64;
        match refusal_of(self.protected.as_slice(), at, D) {
            Some(refusal) => self.refuse(refusal.reason, refusal.place),
            None => self.begin_unprotected(kind, at, at + length),
        }
    }

    /// The unprotected bucket begins here.
    fn begin_unprotected(&mut self, kind: Kind, protected_at: u64, at: u64)
        requires protected_early { protected_at ≤ 36 }
        requires early { at < 2 ^ 17 }
        ensures reads_on { (task : Task) (pairs : List Pair)
            → HasFindings task nothing_so_far self.old
            → bucket_of D (placed_at protected_at self.old.protected.items) ≡ Ok pairs
            → ReaderMeans task [] at self.new
            (λ more. unprotected (rules_of H D task) kind self.old.protected.items pairs at more) }
    {
        // The law of walkers that the proof cites.
        walker_is_reading();
        self.protected_at = Some(Place { at: protected_at });
        self.unprotected.clear();
        self.walker = Walker::new(H);
        self.phase = Phase::Unprotected(Unprotected {
            kind,
            protected_at,
            at,
            wanted: self.walker.want() as u64,
        });
    }

    /// What follows the unprotected bucket: the check of its content, then the result of both buckets.
    fn past_unprotected<K: Keys<'k>>(
        &mut self,
        keys: Option<&K>,
        elsewhere: bool,
        kind: Kind,
        protected_at: u64,
        at: u64,
    )
        requires protected_early { protected_at ≤ 36 }
        requires early { at < 2 ^ 17 }
        ensures reads_on { (task : Task) (pairs : List Pair)
            → keys_in K.usable keys.entry ≡ keys_for task → elsewhere ≡ asks task
            → HasFindings task (protected_so_far pairs) self.old
            → bucket_of D (placed_at protected_at self.old.protected.items) ≡ Ok pairs
            → ReaderMeans task [] (at + length self.old.unprotected.items) self.new
            (λ more. past_unprotected (rules_of H D task) kind self.old.protected.items pairs at
            self.old.unprotected.items (at + length self.old.unprotected.items) more) }
    {
        match refusal_of(self.unprotected.as_slice(), at, D) {
            Some(refusal) => self.refuse(refusal.reason, refusal.place),
            None => {
                self.unprotected_at = Some(Place { at });
                self.past_buckets(keys, elsewhere, kind, protected_at, at);
            }
        }
    }

    /// Takes a piece of the unprotected bucket, of no more bytes than it wants.
    #[inline(never)]
    pub(crate) fn unprotected_piece<K: Keys<'k>>(
        &mut self,
        unprotected: Unprotected,
        piece: &[u8],
        keys: Option<&K>,
        elsewhere: bool,
    )
        requires phase { self.old.phase ≡ Phase.Unprotected unprotected }
        requires some { 0 < length piece.now }
        requires fits { length piece.now ≤ unprotected.wanted }
        ensures reads_on { (task : Task) (payload : List ℕ) (n : ℕ) (reading : List ℕ → Reading)
            → keys_in K.usable keys.entry ≡ keys_for task → elsewhere ≡ asks task
            → ReaderMeans task payload n self.old reading
            → ReaderMeans task payload (n + length piece.now) self.new (λ more. reading (piece.now ++
            more)) }
    {
        // Laws of reading and of walkers that the proof cites.
        read_stays();
        walker_is_reading();
        let _wanted = self.walker.want();
        let at = unprotected.at;
        append(&mut self.unprotected, piece);
        match walk_on(&mut self.walker, piece) {
            Step::Going => {
                self.phase = Phase::Unprotected(Unprotected {
                    kind: unprotected.kind,
                    protected_at: unprotected.protected_at,
                    at,
                    wanted: self.walker.want() as u64,
                });
            }
            Step::Done => self.past_unprotected(
                keys,
                elsewhere,
                unprotected.kind,
                unprotected.protected_at,
                at,
            ),
            Step::Fault(refusal) => self.refuse(refusal.reason, at.saturating_add(refusal.place)),
        }
    }
}
