//! The payload of a message, which is hashed as it comes.

ghost use Rattle.std.specs.Prelude.{◌≡◌, ◌<◌, ◌≤◌, ◌+◌, ◌^◌, ℕ, [], if◌then◌else◌};
ghost use Rattle.cose_msg.specs.Phases.{is_nil as is_nil_head, nil_fault_within, payload_fault_within};

use crate::bare_head::take_bare_head_byte;
use crate::phase::{Detached, Payload, PayloadHead, Phase};
use crate::reader::Reader;
use cose_head::{Head, HeadStep, Kind, Reason};

/// Whether a head is nil, which marks a detached payload (RFC 9052 sections 4.2 and 6.2).
fn is_nil(head: &Head) -> bool
    ensures { result ≡ is_nil_head head.now }
{
    head.major == 7 && head.width == 1 && head.arg == 22
}

/// What is wrong with the payload's head, where a payload may have `limit` bytes.
pub(crate) fn fault_of_payload(head: &Head, limit: u64) -> Option<Reason>
    ensures { result ≡ payload_fault_within limit head.now }
{
    if head.major == 2 {
        if head.arg >= 1 << 56 || head.arg > limit {
            return Some(Reason::PayloadTooLong);
        }
        return None;
    }
    if is_nil(head) {
        return Some(Reason::Detached);
    }
    Some(Reason::WrongType)
}

/// What is wrong with the head in the place of a detached payload, of which `stated` bytes are to come, where a payload may
/// have `limit` bytes.
pub(crate) fn fault_of_nil(head: &Head, detached_length: u64, limit: u64) -> Option<Reason>
    ensures { result ≡ nil_fault_within limit detached_length head.now }
{
    if is_nil(head) {
        if detached_length >= 1 << 56 || detached_length > limit {
            return Some(Reason::PayloadTooLong);
        }
        return None;
    }
    if head.major == 2 {
        return Some(Reason::Attached);
    }
    Some(Reason::WrongType)
}

/// The bytes, or none.
pub(crate) fn empty_if(is_bare: bool, bytes: &[u8]) -> &[u8]
    ensures { result.now ≡ (if is_bare then [] else bytes.now) }
{
    if is_bare {
        return &[];
    }
    bytes
}

impl<'k, const H: usize, const D: usize> Reader<'k, H, D> {
    ghost use Rattle.std.specs.Prelude.{List, ◌∷◌, ◌++◌, length, ◌==◌, ◌*◌, true};
    ghost use Rattle.cose_msg.specs.Hashing.{HashesFor};
    ghost use Rattle.cose_msg.specs.Phases.{detached_payload, headers_so_far, past_payload_head, payload, payload_head};
    ghost use Rattle.cose_msg.specs.Reading.{Reading};
    ghost use Rattle.cose_msg.specs.Task.{Task, rules_of};
    ghost use Rattle.cose_msg.specs.Reader.{HoldsKey, IsAtPayload, Known, HasFindings, ReaderMeans, held_by, opened_by};
    ghost use Rattle.cose_msg.specs.declared.status.Status.{Status};
    ghost use Rattle.cose_msg.specs.Phase.{in_payload, payload_want_of, want_of};
    ghost use Rattle.cose_msg.specs.Status.{is_open, status_of_phase};
    ghost use Rattle.cose_msg.specs.Source.{IsStated, attached, came_of, detached};

    /// The payload's head begins here.
    pub(crate) fn begin_payload_head(&mut self, kind: Kind, is_bare: bool, at: u64)
        requires early { at < 2 ^ 18 }
        ensures reads_on { (task : Task) (known : Known)
            → HasFindings task (headers_so_far known.headers []) self.old → known.payload ≡ []
            → HoldsKey task known self.old kind → known.headers.protected ≡ self.old.protected.items
            → is_bare ≡ (length known.headers.protected_pairs == 0)
            → HashesFor self.old.hashing known.chosen []
            → ReaderMeans task [] at self.new
            (λ more. payload_head (rules_of H D task) known.headers known.chosen at more) }
    {
        self.head.clear();
        self.phase = Phase::PayloadHead(PayloadHead { kind, is_bare, at });
    }

    /// Takes the next byte of the payload's head. A detached payload has the length that is stated.
    pub(crate) fn payload_head(
        &mut self,
        payload_head: PayloadHead,
        byte: u8,
        detached_length: Option<u64>,
    )
        requires phase { self.old.phase ≡ Phase.PayloadHead payload_head }
        ensures reads_on { (task : Task) (payload : List ℕ) (n : ℕ) (reading : List ℕ → Reading)
            → IsStated detached_length task.setting.source
            → ReaderMeans task payload n self.old reading
            → ReaderMeans task payload (n + 1) self.new (λ more. reading (byte ∷ more)) }
    {
        let at = payload_head.at;
        match take_bare_head_byte(&mut self.head, byte) {
            HeadStep::More(_) => {}
            HeadStep::Fault(reason) => self.refuse(reason, at),
            HeadStep::Got(head, used) => self.past_payload_head(
                payload_head,
                head,
                at + used as u64,
                detached_length,
            ),
        }
    }

    /// What follows the payload's head.
    fn past_payload_head(
        &mut self,
        payload_head: PayloadHead,
        head: Head,
        at: u64,
        detached_length: Option<u64>,
    )
        requires early { at < 2 ^ 19 }
        ensures reads_on { (task : Task) (known : Known)
            → IsStated detached_length task.setting.source
            → HasFindings task (headers_so_far known.headers []) self.old → known.payload ≡ []
            → HoldsKey task known self.old payload_head.kind
            → known.headers.protected ≡ self.old.protected.items
            → payload_head.is_bare ≡ (length known.headers.protected_pairs == 0)
            → HashesFor self.old.hashing known.chosen []
            → ReaderMeans task [] at self.new (λ more. past_payload_head (rules_of H D task)
            known.headers known.chosen payload_head.at head at more) }
    {
        let limit = self.terms.payload_limit;
        match detached_length {
            Some(detached_length) => match fault_of_nil(&head, detached_length, limit) {
                Some(reason) => self.refuse(reason, payload_head.at),
                None => {
                    self.hash_front(payload_head, detached_length);
                    self.await_payload(payload_head.kind, payload_head.at, at, detached_length);
                }
            },
            None => match fault_of_payload(&head, limit) {
                Some(reason) => self.refuse(reason, payload_head.at),
                None => {
                    self.hash_front(payload_head, head.arg);
                    self.begin_payload(payload_head.kind, at, head.arg);
                }
            },
        }
    }

    /// Hashes what precedes the payload in the structure, which has this length: the protected header as it was received,
    /// or an empty string where the bucket has no pair.
    fn hash_front(&mut self, head: PayloadHead, payload_length: u64)
        ensures opened { (task : Task) (known : Known)
            → HasFindings task (headers_so_far known.headers []) self.old → known.payload ≡ []
            → HoldsKey task known self.old head.kind
            → known.headers.protected ≡ self.old.protected.items
            → head.is_bare ≡ (length known.headers.protected_pairs == 0)
            → HashesFor self.old.hashing known.chosen []
            → IsAtPayload task known self.new head.kind payload_length }
    {
        let protected = empty_if(head.is_bare, self.protected.as_slice());
        self.hashing
            .front(head.kind, protected, self.terms.aad, payload_length);
    }

    /// The payload begins here.
    fn begin_payload(&mut self, kind: Kind, at: u64, length: u64)
        requires early { at < 2 ^ 19 }
        requires limit { length < 2 ^ 56 }
        ensures reads_on { (task : Task) (known : Known)
            → IsAtPayload task known self.old kind length
            → task.setting.source ≡ attached
            → ReaderMeans task [] at self.new
            (λ more. payload (rules_of H D task) known.headers known.chosen length at more) }
    {
        if length == 0 {
            self.begin_auth_head(kind, at, 0);
            return;
        }
        self.phase = Phase::Payload(Payload {
            kind,
            at,
            length,
            left: length,
        });
    }

    /// A detached payload is awaited, unless it is empty: the nil is at `nil`, and the message goes on at `at`.
    fn await_payload(&mut self, kind: Kind, nil: u64, at: u64, detached_length: u64)
        requires early { at < 2 ^ 19 }
        requires limit { detached_length < 2 ^ 56 }
        ensures reads_on { (task : Task) (known : Known) (came : List ℕ)
            → IsAtPayload task known self.old kind detached_length
            → task.setting.source ≡ detached came detached_length
            → ReaderMeans task [] at self.new (λ more. detached_payload (rules_of H D task)
            known.headers known.chosen came detached_length nil at more) }
    {
        if detached_length == 0 {
            self.begin_auth_head(kind, at, 0);
            return;
        }
        self.phase = Phase::Detached(Detached {
            kind,
            at: nil,
            after: at,
            length: detached_length,
            left: detached_length,
        });
    }

    /// Takes a piece of the payload.
    #[inline(always)]
    pub(crate) fn payload(&mut self, payload: Payload, piece: &[u8])
        requires phase { self.old.phase ≡ Phase.Payload payload }
        requires fits { length piece.now ≤ payload.left }
        ensures reads_on { (task : Task) (payload : List ℕ) (n : ℕ) (reading : List ℕ → Reading)
            → ReaderMeans task payload n self.old reading
            → ReaderMeans task (payload ++ piece.now) (n + length piece.now) self.new
            (λ more. reading (piece.now ++ more)) }
    {
        self.hashing.update(piece);
        let left = payload.left - piece.len() as u64;
        if left == 0 {
            self.begin_auth_head(payload.kind, payload.at + payload.length, payload.length);
        } else {
            self.phase = Phase::Payload(Payload {
                kind: payload.kind,
                at: payload.at,
                length: payload.length,
                left,
            });
        }
    }

    /// Takes a piece that ends before the payload does. The phase isn't copied: what is left is counted in its place.
    #[inline(always)]
    pub(crate) fn payload_part(&mut self, bytes: &[u8])
        requires inside { in_payload self.old.phase ≡ true }
        requires fewer { length bytes.now < want_of self.old.phase }
        ensures inside { in_payload self.new.phase ≡ true }
        ensures reads_on { (task : Task) (payload : List ℕ) (n : ℕ) (reading : List ℕ → Reading)
            → ReaderMeans task payload n self.old reading
            → ReaderMeans task (payload ++ bytes.now) (n + length bytes.now) self.new
            (λ more. reading (bytes.now ++ more)) }
    {
        match &mut self.phase {
            Phase::Payload(payload) => payload.left -= bytes.len() as u64,
            _ => {}
        }
        self.hashing.update(bytes);
    }

    /// Takes a piece of a detached payload.
    pub(crate) fn detached_piece(&mut self, detached: Detached, part: &[u8])
        requires phase { self.old.phase ≡ Phase.Detached detached }
        requires fits { length part.now ≤ detached.left }
        // So many bytes fewer are wanted; once there are none, further bytes of the message are.
        ensures left { payload_want_of self.new.phase + length part.now ≡ detached.left }
        ensures further { is_open (status_of_phase self.new.phase) ≡ true }
        ensures complete { payload_want_of self.new.phase ≡ 0 → status_of_phase self.new.phase
            ≡ Status.More }
        ensures held { held_by self.new ≤ 2 * H + 512 }
        ensures opened { opened_by self.new ≤ D }
        // Where it is the next one of what comes of the payload, the reading stays.
        ensures reads_on { (task : Task) (payload more : List ℕ) (n : ℕ)
            (reading : List ℕ → Reading)
            → came_of task.setting.source ≡ (payload ++ part.now) ++ more
            → ReaderMeans task payload n self.old reading
            → ReaderMeans task (payload ++ part.now) n self.new reading }
    {
        self.hashing.update(part);
        let left = detached.left - part.len() as u64;
        if left == 0 {
            self.begin_auth_head(detached.kind, detached.after, detached.length);
            self.lemma_bounded();
        } else {
            self.phase = Phase::Detached(Detached {
                kind: detached.kind,
                at: detached.at,
                after: detached.after,
                length: detached.length,
                left,
            });
            self.lemma_bounded();
        }
    }
}
