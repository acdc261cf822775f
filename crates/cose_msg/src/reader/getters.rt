//! What a reader gives of a message in addition to the result, and what it holds.

ghost use Rattle.std.specs.Prelude.{◌≡◌, ◌<◌, ◌≤◌, ◌+◌, ◌*◌, ◌^◌, IfSome, length, option_map};
ghost use Rattle.cose_map.specs.Bucket.View.{bucket_pairs};
ghost use Rattle.cose_msg.specs.Phase.{has_signature};
ghost use Rattle.cose_msg.specs.Shown.{input_value, pairs_at, protected_by, place_of, sign_input_by, signed_at, unprotected_by};
ghost use Rattle.cose_msg.specs.Reader.{held_by, opened_by};

use crate::front_pieces::FrontPieces;
use crate::phase::Phase;
use crate::reader::payload::empty_if;
use crate::reader::{Place, Reader};
use cose_mac::Alg;
use cose_map::{Bucket, Key};

/// The number of bytes that the running hash counts as.
const HASH: usize = 256;

/// The bucket of these bytes, where one was found good at this place.
fn bucket_at(bytes: &[u8], place: Option<Place>, depth: usize) -> Option<Bucket<'_>>
    requires shallow { depth ≤ 32 }
    requires short { length bytes.now ≤ 65535 }
    ensures { option_map bucket_pairs result ≡ pairs_at depth place bytes.now }
{
    match place {
        Some(place) => match Bucket::read(bytes, place.at, depth) {
            Ok(bucket) => Some(bucket),
            Err(_) => None,
        },
        None => None,
    }
}

impl<'k, const H: usize, const D: usize> Reader<'k, H, D> {
    ghost use Rattle.std.specs.Prelude.{ℕ, List, [], true, is_some};
    ghost use Rattle.std.specs.List.{concat};
    ghost use Rattle.cose_msg.specs.Elsewhere.{AsksKey, HasSignature, IsFrontOf, key_asked};
    ghost use Rattle.cose_msg.specs.FrontPieces.{piece_at, pieces_of};
    ghost use Rattle.cose_msg.specs.Phase.{asks_signature, frame_of};
    ghost use Rattle.cose_msg.specs.Reader.{ReaderMeans};
    ghost use Rattle.cose_msg.specs.Reading.{Reading};
    ghost use Rattle.cose_msg.specs.Task.{Task, asks};

    /// The protected header bucket, once it was found good.
    pub(crate) fn protected(&self) -> Option<Bucket<'_>>
        ensures { option_map bucket_pairs result ≡ protected_by self.now }
    {
        bucket_at(self.protected.as_slice(), self.protected_at, D)
    }

    /// The unprotected header bucket, once it was found good.
    pub(crate) fn unprotected(&self) -> Option<Bucket<'_>>
        ensures { option_map bucket_pairs result ≡ unprotected_by self.now }
    {
        bucket_at(self.unprotected.as_slice(), self.unprotected_at, D)
    }

    /// The structure that is authenticated before the payload's content, once the payload's head was read.
    pub(crate) fn front_pieces(&self) -> Option<FrontPieces<'_>>
        ensures front { IfSome result (λ pieces.
            (task : Task) (payload : List ℕ) (n : ℕ) (reading : List ℕ → Reading)
            → ReaderMeans task payload n self.now reading → asks task ≡ true
            → IsFrontOf task.setting.aad reading (concat (pieces_of pieces))) }
        ensures context { IfSome result (λ pieces. length (piece_at 0 (pieces_of pieces)) ≤ 12) }
        ensures external { IfSome result (λ pieces.
            piece_at 4 (pieces_of pieces) ≡ self.now.terms.aad.now) }
        ensures some { (task : Task) (payload : List ℕ) (n : ℕ) (reading : List ℕ → Reading)
            → ReaderMeans task payload n self.now reading → asks task ≡ true
            → is_some result ≡ is_some (frame_of self.now.phase) }
    {
        match self.phase.frame() {
            Some(frame) => match self.protected() {
                Some(bucket) => {
                    let protected = empty_if(bucket.is_empty(), self.protected.as_slice());
                    Some(FrontPieces::new(frame.kind, protected, self.terms.aad, frame.payload))
                }
                None => None,
            },
            None => None,
        }
    }

    /// The chosen key and its algorithm, once the payload's head was read.
    pub(crate) fn asked_key(&self) -> Option<(Key<'k>, Alg)>
        ensures key { IfSome result (λ asked.
            (task : Task) (payload : List ℕ) (n : ℕ) (reading : List ℕ → Reading)
            → ReaderMeans task payload n self.now reading → asks task ≡ true
            → AsksKey reading (key_asked asked)) }
        ensures some { (task : Task) (payload : List ℕ) (n : ℕ) (reading : List ℕ → Reading)
            → ReaderMeans task payload n self.now reading → asks task ≡ true
            → is_some result ≡ is_some (frame_of self.now.phase) }
        ensures framed { is_some result ≡ true → is_some (frame_of self.now.phase) ≡ true }
    {
        match self.phase.frame() {
            Some(_frame) => match &self.chosen {
                Some(chosen) => Some((chosen.key, chosen.alg)),
                None => None,
            },
            None => None,
        }
    }

    /// The signature as received, once all bytes of a COSE_Sign1 are there and until the verdict.
    pub(crate) fn asked_signature(&self) -> Option<&[u8]>
        ensures signature { IfSome result (λ signature.
            (task : Task) (payload : List ℕ) (n : ℕ) (reading : List ℕ → Reading)
            → ReaderMeans task payload n self.now reading
            → HasSignature (reading []).answer signature.now) }
        ensures some { is_some result ≡ asks_signature self.now.phase }
    {
        match self.phase {
            Phase::Signed(signed) => {
                if signed.alg.is_mac() {
                    return None;
                }
                Some(self.auth.as_slice())
            }
            _ => None,
        }
    }

    /// Whether all bytes of a message with a signature are there.
    fn has_signature(&self) -> bool
        ensures { result ≡ has_signature self.now.phase }
    {
        self.phase.auth_place().is_some()
    }

    /// The key, the digest and the signature of a COSE_Sign1, once all bytes are there.
    pub(crate) fn sign_input(&self) -> Option<(Key<'k>, &[u8], &[u8])>
        ensures value { option_map (input_value (signed_at self.now)) result
            ≡ sign_input_by self.now }
        ensures digest { IfSome result (λ input. length input.1.now ≤ 64) }
        ensures signature { IfSome result (λ input. length input.2.now ≤ 132) }
    {
        if !self.has_signature() || self.hashing.is_elsewhere() {
            return None;
        }
        match &self.chosen {
            Some(chosen) => Some((chosen.key, self.hashing.result(), self.auth.as_slice())),
            None => None,
        }
    }

    /// The place of the head of the signature of a COSE_Sign1, once all bytes are there.
    pub(crate) fn signature_place(&self) -> Option<u64>
        ensures { result ≡ option_map place_of (sign_input_by self.now) }
    {
        match self.sign_input() {
            Some(_input) => self.phase.auth_place(),
            None => None,
        }
    }

    /// How many bytes of the message the stores hold, and 256 for the running hash.
    pub(crate) fn held(&self) -> usize
        ensures value { result ≡ held_by self.now }
        ensures limit { result ≤ 2 * H + 512 }
    {
        self.protected.len() + self.unprotected.len() + self.head.len() + self.auth.len() + HASH
    }

    /// How many arrays, maps and tags of the unprotected bucket are open.
    pub(crate) fn open_items(&self) -> usize
        ensures value { result ≡ opened_by self.now }
        ensures limit { result ≤ D }
    {
        self.walker.open_items()
    }
}
