//! A hasher of any of the hash functions that the algorithms use (FIPS 180-4).

ghost use Rattle.std.specs.Prelude.{◌≡◌, List, ℕ, [], ◌++◌};
ghost use Rattle.cose_mac.specs.Hash.{function_of};
ghost use Rattle.cose_mac.specs.Hasher.{Holds, is_of};

use arrayvec::ArrayVec;
use cose_head::Hash;
use sha2::{Digest, Sha256, Sha384, Sha512};

/// A message that is being hashed, piece by piece.
#[derive(Drop)]
pub(crate) enum Hasher {
    Sha256(Sha256),
    Sha384(Sha384),
    Sha512(Sha512),
}

impl Hasher {
    /// A hasher of the empty message.
    pub(crate) fn new(hash: Hash) -> Hasher
        ensures { Holds hash result [] }
    {
        match hash {
            Hash::Sha256 => Hasher::Sha256(Sha256::new()),
            Hash::Sha384 => Hasher::Sha384(Sha384::new()),
            Hash::Sha512 => Hasher::Sha512(Sha512::new()),
        }
    }

    /// Another hasher of the same message. Not inlined, so that there is no third one on the stack.
    #[inline(never)]
    pub(crate) fn again(&self) -> Hasher
        ensures { result ≡ self.now }
    {
        match self {
            Hasher::Sha256(hasher) => Hasher::Sha256(hasher.clone().unwrap()),
            Hasher::Sha384(hasher) => Hasher::Sha384(hasher.clone().unwrap()),
            Hasher::Sha512(hasher) => Hasher::Sha512(hasher.clone().unwrap()),
        }
    }

    /// Whether it is one of this hash function.
    pub(crate) fn is_of(&self, hash: Hash) -> bool
        ensures { result ≡ is_of hash self.now }
    {
        matches!(
            (self, hash),
            (Hasher::Sha256(_), Hash::Sha256)
                | (Hasher::Sha384(_), Hash::Sha384)
                | (Hasher::Sha512(_), Hash::Sha512)
        )
    }

    /// Appends a piece to the message.
    pub(crate) fn update(&mut self, piece: &[u8])
        ensures { (hash : Hash) (message : List ℕ) → Holds hash self.old message
            → Holds hash self.new (message ++ piece.now) }
    {
        match self {
            Hasher::Sha256(hasher) => hasher.update(piece),
            Hasher::Sha384(hasher) => hasher.update(piece),
            Hasher::Sha512(hasher) => hasher.update(piece),
        }
    }

    /// The digest of the message so far and of one more piece, by another hasher. Not inlined, so that one of them at a time is on the
    /// stack.
    #[inline(never)]
    pub(crate) fn digest_with(&self, piece: &[u8]) -> ArrayVec<u8, 64>
        ensures { (hash : Hash) (message : List ℕ) → Holds hash self.now message
            → result.items ≡ (function_of hash).digest (message ++ piece.now) }
    {
        let mut hasher = self.again();
        hasher.update(piece);
        hasher.finish()
    }

    /// The digest of the message.
    pub(crate) fn finish(self) -> ArrayVec<u8, 64>
        ensures { (hash : Hash) (message : List ℕ) → Holds hash self message
            → result.items ≡ (function_of hash).digest message }
    {
        let mut digest = ArrayVec::new();
        // No digest is longer than 64 bytes.
        let _ = match self {
            Hasher::Sha256(hasher) => digest.try_extend_from_slice(&hasher.finalize()),
            Hasher::Sha384(hasher) => digest.try_extend_from_slice(&hasher.finalize()),
            Hasher::Sha512(hasher) => digest.try_extend_from_slice(&hasher.finalize()),
        };
        digest
    }
}
