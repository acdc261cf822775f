//! A reader of one message, changed in place: its stores are fields, and its progress is counts alone. It knows no keys: with a type
//! parameter in it goals don't compute within the checker's limits.

ghost use Rattle.std.specs.Prelude.{◌<◌, ◌≤◌, ◌^◌};
ghost use Rattle.arrayvec.specs.ArrayVec.{array_vec_len};

use crate::context::Terms;
use crate::hashing::Hashing;
use crate::phase::Phase;
use crate::store_bytes::front_of;
use crate::verdict::Verdict;
use arrayvec::ArrayVec;
use cose_head::{Reason, Refusal, Walker};
use cose_mac::Alg;
use cose_map::{Key, Keys};

pub(crate) mod auth;
pub(crate) mod choice;
mod decide;
pub(crate) mod front;
mod getters;
pub(crate) mod headers;
pub(crate) mod payload;
pub(crate) mod stated;

/// The key that fits the message, and the algorithm that it is used with.
#[derive(Clone, Copy)]
pub(crate) struct Chosen<'k> {
    /// The key.
    pub(crate) key: Key<'k>,
    /// The algorithm.
    pub(crate) alg: Alg,
}

/// Where the content of a header bucket that was found good begins.
#[derive(Clone, Copy)]
pub(crate) struct Place {
    /// The place of its first byte.
    pub(crate) at: u64,
    ghost early: { at < 2 ^ 17 },
}

/// A reader of one message at a time, of header buckets of at most `H` bytes each, nested at most `D` deep: what a
/// verifier knows of the message itself. It counts no bytes, and is passed the keys.
#[derive(Drop)]
pub(crate) struct Reader<'k, const H: usize, const D: usize> {
    pub(crate) phase: Phase,
    pub(crate) terms: Terms<'k>,
    protected_at: Option<Place>,
    unprotected_at: Option<Place>,
    head: ArrayVec<u8, 9>,
    auth: ArrayVec<u8, 132>,
    hashing: Hashing,
    chosen: Option<Chosen<'k>>,
    // What depends on a parameter is last: a proof about a field goes through the types of those before it.
    walker: Walker<D>,
    protected: ArrayVec<u8, H>,
    unprotected: ArrayVec<u8, H>,
    ghost some_room: { 16 ≤ H },
    ghost limit: { H ≤ 65535 },
    ghost nesting: { D ≤ 32 },
    ghost half: { array_vec_len head < 9 },
}

impl<'k, const H: usize, const D: usize> Reader<'k, H, D> {
    ghost use Rattle.std.specs.Prelude.{◌≡◌, ℕ, List, [], ◌∷◌, ◌++◌, ◌+◌, None, length, take, true, false};
    ghost use Rattle.cose_msg.specs.Message.{message};
    ghost use Rattle.cose_msg.specs.Phase.{grown, in_payload, is_settled, takes_bytes, want_of};
    ghost use Rattle.cose_msg.specs.Reader.{IsUntouched, HasFindings, ReaderMeans, held_by, keys_in};
    ghost use Rattle.cose_msg.specs.Reading.{Reading, stop, Findings};
    ghost use Rattle.cose_msg.specs.Source.{IsStated};
    ghost use Rattle.cose_msg.specs.Shown.{shown_by, shown_in};
    ghost use Rattle.cose_msg.specs.Task.{Task, asks, keys_for, rules_of};

    /// A reader of a message under these terms.
    pub(crate) fn new(terms: Terms<'k>) -> Self
        requires some_room { 16 ≤ H }
        requires limit { H ≤ 65535 }
        requires nesting { D ≤ 32 }
        ensures untouched { IsUntouched result }
        ensures shown { (task : Task)
            → shown_by result ≡ shown_in task (message (rules_of H D task) []) }
        ensures phase { result.phase ≡ Phase.FirstHead }
        ensures held { held_by result ≡ 256 }
        ensures terms { result.terms ≡ terms.entry }
    {
        Reader {
            phase: Phase::FirstHead,
            terms,
            protected_at: None,
            unprotected_at: None,
            head: ArrayVec::new(),
            auth: ArrayVec::new(),
            hashing: Hashing::Nothing,
            chosen: None,
            walker: Walker::new(H),
            protected: ArrayVec::new(),
            unprotected: ArrayVec::new(),
        }
    }

    /// Resets the reader, under the same terms.
    pub(crate) fn reset(&mut self)
        ensures untouched { IsUntouched self.new }
        ensures shown { (task : Task)
            → shown_by self.new ≡ shown_in task (message (rules_of H D task) []) }
        ensures phase { self.new.phase ≡ Phase.FirstHead }
        ensures held { held_by self.new ≡ 256 }
        ensures no_key { self.new.chosen ≡ None }
        ensures no_hash { self.new.hashing ≡ Hashing.Nothing }
        ensures terms { self.new.terms ≡ self.old.terms }
    {
        self.protected.clear();
        self.unprotected.clear();
        self.protected_at = None;
        self.unprotected_at = None;
        self.head.clear();
        self.auth.clear();
        self.walker = Walker::new(H);
        self.hashing = Hashing::Nothing;
        self.chosen = None;
        self.phase = Phase::FirstHead;
    }

    /// Refuses the message.
    fn refuse(&mut self, reason: Reason, place: u64)
        ensures { (task : Task) (payload : List ℕ) (n : ℕ) (so_far : Findings)
            → HasFindings task so_far self.old
            → so_far.payload ≡ payload
            → ReaderMeans task payload n self.new (λ more. stop so_far reason place) }
    {
        self.phase = Phase::Settled(Verdict::Refused(Refusal { reason, place }));
    }

    /// Whether no further byte is wanted.
    pub(crate) fn is_settled(&self) -> bool
        ensures { result ≡ is_settled self.now.phase }
    {
        self.phase.is_settled()
    }

    /// Whether the next byte is one of the payload.
    pub(crate) fn is_in_payload(&self) -> bool
        ensures { result ≡ in_payload self.now.phase }
    {
        matches!(self.phase, Phase::Payload(_))
    }

    /// Whether so many bytes, at least one, all are the payload's, and others of it follow.
    #[inline(always)]
    pub(crate) fn has_more_payload_than(&self, count: usize) -> bool
        ensures some { result ≡ true → 0 < count }
        ensures fewer { result ≡ true → count < want_of self.now.phase }
        ensures inside { result ≡ true → in_payload self.now.phase ≡ true }
    {
        0 < count && self.is_in_payload() && (count as u64) < self.wanted()
    }

    /// How many bytes are to come for certain: those of a string that are left, one of a head, and none once the message is
    /// settled.
    pub(crate) fn wanted(&self) -> u64
        ensures value { result ≡ want_of self.now.phase }
        ensures some { is_settled self.now.phase ≡ false → 0 < result }
    {
        self.phase.wanted()
    }

    /// Takes the next byte of a head. In any other phase nothing changes.
    #[inline(never)]
    fn take_byte(&mut self, byte: u8, detached_length: Option<u64>)
        requires { takes_bytes self.old.phase ≡ true }
        ensures { (task : Task) (payload : List ℕ) (n : ℕ) (reading : List ℕ → Reading)
            → IsStated detached_length task.setting.source
            → ReaderMeans task payload n self.old reading
            → ReaderMeans task payload (n + 1) self.new (λ more. reading (byte ∷ more)) }
    {
        match self.phase {
            Phase::FirstHead => self.first_head(byte),
            Phase::TagHead(head) => self.tag_head(head, byte),
            Phase::ArrayHead(head) => self.array_head(head, byte),
            Phase::ProtectedHead(head) => self.protected_head(head, byte),
            Phase::PayloadHead(head) => self.payload_head(head, byte, detached_length),
            Phase::AuthHead(head) => self.auth_head(head, byte),
            _ => {}
        }
    }

    /// Takes the next bytes, all of one phase, and returns their number. A string takes all that it has left, or the
    /// whole piece. The key is chosen from those that are passed, once both header buckets are there; none are passed
    /// where the message is only inspected. Nothing is hashed where it is authenticated elsewhere. The length of a detached
    /// payload is stated.
    #[inline(always)]
    pub(crate) fn advance<K: Keys<'k>>(
        &mut self,
        piece: &[u8],
        keys: Option<&K>,
        elsewhere: bool,
        detached_length: Option<u64>,
    ) -> usize
        requires some { 0 < length piece.now }
        ensures fits { result ≤ length piece.now }
        ensures uses { is_settled self.old.phase ≡ false → 0 < result }
        ensures whole { length piece.now ≤ want_of self.old.phase → result ≡ length piece.now }
        ensures reads_on { (task : Task) (payload : List ℕ) (n : ℕ) (reading : List ℕ → Reading)
            → keys_in K.usable keys.entry ≡ keys_for task → elsewhere ≡ asks task
            → IsStated detached_length task.setting.source
            → ReaderMeans task payload n self.old reading
            → ReaderMeans task (grown self.old.phase payload (take result piece.now)) (n + result)
            self.new (λ more. reading (take result piece.now ++ more)) }
    {
        match self.phase {
            Phase::Protected(protected) => {
                let part = front_of(piece, protected.left);
                self.protected_piece(protected, part);
                part.len()
            }
            Phase::Unprotected(unprotected) => {
                let part = front_of(piece, unprotected.wanted);
                self.unprotected_piece(unprotected, part, keys, elsewhere);
                part.len()
            }
            Phase::Payload(payload) => {
                let part = front_of(piece, payload.left);
                self.payload(payload, part);
                part.len()
            }
            Phase::Auth(auth) => {
                let part = front_of(piece, auth.left);
                self.auth(auth, part);
                part.len()
            }
            _ if self.is_settled() => 0,
            _ => {
                self.take_byte(piece[0], detached_length);
                1
            }
        }
    }
}
