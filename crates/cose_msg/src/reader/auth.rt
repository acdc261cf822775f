//! The authentication tag or signature of a message (RFC 9052 sections 6.3 and 4.4).

ghost use Rattle.std.specs.Prelude.{◌≡◌, ◌<◌, ◌≤◌, ◌+◌, ◌^◌, ◌++◌, ℕ, None, true, false, length};
ghost use Rattle.cose_msg.specs.Chosen.{has_length_of};
ghost use Rattle.cose_msg.specs.Phases.{auth_fault_where};

use crate::bare_head::take_bare_head_byte;
use crate::phase::{Auth, AuthHead, Phase, Shape, Signed, Whole};
use crate::reader::Reader;
use crate::store_bytes::append;
use crate::verdict::Verdict;
use arrayvec::ArrayVec;
use cose_head::{Head, HeadStep, Kind, Reason};
use cose_mac::{Alg, same_bytes};

/// The most bytes of a tag or signature of a message that is only inspected.
const INSPECTED_LIMIT: u64 = 65_535;

/// Whether a tag or signature may have this length: that of its algorithm, where there is one.
fn has_auth_length(alg: Option<Alg>, length: u64) -> bool
    ensures value { result ≡ has_length_of alg length }
    ensures limit { result ≡ true → length ≤ 65535 }
{
    match alg {
        Some(alg) => length == alg.auth_length() as u64,
        None => length <= INSPECTED_LIMIT,
    }
}

/// What is wrong with the head of a tag or signature under an algorithm.
pub(crate) fn fault_of_auth(head: &Head, alg: Option<Alg>) -> Option<Reason>
    ensures value { result ≡ auth_fault_where (has_length_of alg) head.now }
    ensures limit { result ≡ None → head.now.arg ≤ 65535 }
{
    if head.major != 2 {
        return Some(Reason::WrongType);
    }
    if !has_auth_length(alg, head.arg) {
        return Some(Reason::BadAuthLength);
    }
    None
}

/// Holds a piece of a tag or signature where there is a key. Otherwise nothing is compared with it, and it is skipped.
fn hold(store: &mut ArrayVec<u8, 132>, has_key: bool, piece: &[u8])
    ensures held { has_key ≡ true → length store.old.items + length piece.now ≤ 132
        → store.new.items ≡ store.old.items ++ piece.now }
    ensures passed { has_key ≡ false → store.new ≡ store.old }
{
    if has_key {
        append(store, piece);
    }
}

impl<'k, const H: usize, const D: usize> Reader<'k, H, D> {
    ghost use Rattle.std.specs.Prelude.{List, ◌∷◌, Some, ◌&&◌, not, option_map};
    ghost use Rattle.cose_head.specs.Algorithm.{is_mac_of};
    ghost use Rattle.cose_msg.specs.Hashing.{is_elsewhere};
    ghost use Rattle.cose_msg.specs.declared.reader.Chosen.{Chosen};
    ghost use Rattle.cose_msg.specs.Answer.{Chosen as Found};
    ghost use Rattle.cose_msg.specs.declared.status.Status.{Status};
    ghost use Rattle.cose_msg.specs.Phase.{payload_want_of};
    ghost use Rattle.cose_msg.specs.Status.{status_of_phase};
    ghost use Rattle.cose_msg.specs.Phases.{auth_head, finish, headers_so_far, past_auth_head};
    ghost use Rattle.cose_msg.specs.Reading.{Reading};
    ghost use Rattle.cose_msg.specs.Task.{Task, rules_of};
    ghost use Rattle.cose_msg.specs.Reader.{HoldsAuth, HoldsKey, IsFed, Known, HasFindings, ReaderMeans};

    /// The algorithm that the key is used with, if one was chosen.
    fn alg(&self) -> Option<Alg>
        ensures { result ≡ option_map (λ (chosen : Chosen). chosen.alg) self.now.chosen }
    {
        match &self.chosen {
            Some(chosen) => Some(chosen.alg),
            None => None,
        }
    }

    /// Whether a tag or signature is compared with what was hashed.
    fn compares(&self, alg: Alg) -> bool
        ensures { result ≡ (not (is_elsewhere self.now.hashing) && is_mac_of alg) }
    {
        !self.hashing.is_elsewhere() && alg.is_mac()
    }

    /// The head of the tag or signature begins here, after a payload of this length.
    #[inline(never)]
    pub(crate) fn begin_auth_head(&mut self, kind: Kind, at: u64, payload: u64)
        requires early { at < 2 ^ 57 }
        ensures further { status_of_phase self.new.phase ≡ Status.More }
        ensures unawaited { payload_want_of self.new.phase ≡ 0 }
        ensures reads_on { (task : Task) (known : Known)
            → HasFindings task (headers_so_far known.headers known.payload) self.old
            → HoldsKey task known self.old kind → length known.payload ≡ payload
            → IsFed self.old.hashing task.setting.aad known
            → ReaderMeans task known.payload at self.new (λ more. auth_head (rules_of H D task)
            known.headers known.chosen known.payload at more) }
    {
        self.head.clear();
        self.phase = Phase::AuthHead(AuthHead { kind, at, payload });
    }

    /// Takes the next byte of the head of the tag or signature.
    pub(crate) fn auth_head(&mut self, auth_head: AuthHead, byte: u8)
        requires phase { self.old.phase ≡ Phase.AuthHead auth_head }
        ensures reads_on { (task : Task) (payload : List ℕ) (n : ℕ) (reading : List ℕ → Reading)
            → ReaderMeans task payload n self.old reading
            → ReaderMeans task payload (n + 1) self.new (λ more. reading (byte ∷ more)) }
    {
        let at = auth_head.at;
        match take_bare_head_byte(&mut self.head, byte) {
            HeadStep::More(_) => {}
            HeadStep::Fault(reason) => self.refuse(reason, at),
            HeadStep::Got(head, used) => self.past_auth_head(auth_head, head, at + used as u64),
        }
    }

    /// What follows the head of the tag or signature.
    fn past_auth_head(&mut self, auth_head: AuthHead, head: Head, at: u64)
        requires early { at < 2 ^ 58 }
        ensures reads_on { (task : Task) (known : Known)
            → HasFindings task (headers_so_far known.headers known.payload) self.old
            → HoldsKey task known self.old auth_head.kind → length known.payload ≡ auth_head.payload
            → IsFed self.old.hashing task.setting.aad known
            → ReaderMeans task known.payload at self.new
            (λ more. past_auth_head (rules_of H D task) known.headers known.chosen known.payload
            auth_head.at head at more) }
    {
        match fault_of_auth(&head, self.alg()) {
            Some(reason) => self.refuse(reason, auth_head.at),
            None => {
                self.auth.clear();
                if head.arg == 0 {
                    self.finish(Whole {
                        kind: auth_head.kind,
                        head_at: auth_head.at,
                        payload: auth_head.payload,
                        auth: 0,
                        taken: at,
                    });
                } else {
                    self.phase = Phase::Auth(Auth {
                        kind: auth_head.kind,
                        head_at: auth_head.at,
                        at,
                        length: head.arg,
                        left: head.arg,
                        payload: auth_head.payload,
                    });
                }
            }
        }
    }

    /// Takes a piece of the tag or signature.
    #[inline(never)]
    pub(crate) fn auth(&mut self, auth: Auth, piece: &[u8])
        requires phase { self.old.phase ≡ Phase.Auth auth }
        requires fits { length piece.now ≤ auth.left }
        ensures reads_on { (task : Task) (payload : List ℕ) (n : ℕ) (reading : List ℕ → Reading)
            → ReaderMeans task payload n self.old reading
            → ReaderMeans task payload (n + length piece.now) self.new (λ more. reading (piece.now ++
            more)) }
    {
        let has_key = self.chosen.is_some();
        hold(&mut self.auth, has_key, piece);
        let left = auth.left - piece.len() as u64;
        if left == 0 {
            self.finish(Whole {
                kind: auth.kind,
                head_at: auth.head_at,
                payload: auth.payload,
                auth: auth.length,
                taken: auth.at + auth.length,
            });
        } else {
            self.phase = Phase::Auth(Auth {
                kind: auth.kind,
                head_at: auth.head_at,
                at: auth.at,
                length: auth.length,
                left,
                payload: auth.payload,
            });
        }
    }

    /// All bytes are there: the shape of a message that is only inspected is known.
    fn finish(&mut self, whole: Whole)
        ensures reads_on { (task : Task) (known : Known) (at : ℕ)
            → HasFindings task (headers_so_far known.headers known.payload) self.old
            → HoldsKey task known self.old whole.kind → length known.payload ≡ whole.payload
            → length known.auth ≡ whole.auth → IsFed self.old.hashing task.setting.aad known
            → HoldsAuth known.chosen self.old.auth.items known.auth
            → ReaderMeans task known.payload whole.taken self.new (λ more. finish (rules_of H D task)
            known.headers known.chosen known.payload whole.head_at at known.auth whole.taken more) }
    {
        match self.alg() {
            Some(alg) => self.compare(whole, alg),
            None => {
                self.phase = Phase::Shaped(Shape {
                    kind: whole.kind,
                    payload: whole.payload,
                    auth: whole.auth,
                    taken: whole.taken,
                });
            }
        }
    }

    /// All bytes are there, and a key was chosen: a tag is compared, and a signature is left to the `EcVerifier`. Both are left to
    /// the caller where the message is authenticated elsewhere.
    fn compare(&mut self, whole: Whole, alg: Alg)
        ensures reads_on { (task : Task) (known : Known) (found : Found) (at : ℕ)
            → HasFindings task (headers_so_far known.headers known.payload) self.old
            → HoldsKey task known self.old whole.kind → known.chosen ≡ Some found → found.alg ≡ alg
            → length known.payload ≡ whole.payload → IsFed self.old.hashing task.setting.aad known
            → self.old.auth.items ≡ known.auth
            → ReaderMeans task known.payload whole.taken self.new (λ more. finish (rules_of H D task)
            known.headers known.chosen known.payload whole.head_at at known.auth whole.taken more) }
    {
        let is_compared = self.compares(alg);
        self.hashing.finish();
        if is_compared {
            let received = self.auth.as_slice();
            let computed = self.hashing.result();
            if same_bytes(received, computed) {
                self.phase = Phase::Settled(Verdict::Authentic {
                    kind: whole.kind,
                    alg,
                    payload: whole.payload,
                    taken: whole.taken,
                });
            } else {
                self.refuse(Reason::BadAuth, whole.head_at);
            }
        } else {
            self.phase = Phase::Signed(Signed {
                kind: whole.kind,
                alg,
                head_at: whole.head_at,
                payload: whole.payload,
                taken: whole.taken,
            });
        }
    }
}
