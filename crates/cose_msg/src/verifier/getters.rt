//! What a verifier gives of a message in addition to the result, and what it holds.

ghost use Rattle.std.specs.Prelude.{◌≡◌, ◌≤◌, ◌+◌, ◌*◌, IfSome, length, option_map};
ghost use Rattle.cose_map.specs.Bucket.View.{bucket_pairs};
ghost use Rattle.cose_msg.specs.Shown.{held, input_value, place_of, protected_of, sign_input_of, signed_place, unprotected_of};
ghost use Rattle.cose_msg.specs.Verifier.{opened};

use crate::verifier::Verifier;
use cose_map::{Bucket, Key, Keys};

impl<'k, const H: usize, const D: usize, S: Keys<'k>> Verifier<'k, H, D, S> {
    /// The protected header bucket (RFC 9052 section 3), once it was found good, also where the message is refused later.
    pub fn protected(&self) -> Option<Bucket<'_>>
        ensures { option_map bucket_pairs result ≡ protected_of self.now }
    {
        self.reader.protected()
    }

    /// The unprotected header bucket (RFC 9052 section 3), once it was found good, also where the message is refused later.
    pub fn unprotected(&self) -> Option<Bucket<'_>>
        ensures { option_map bucket_pairs result ≡ unprotected_of self.now }
    {
        self.reader.unprotected()
    }

    /// What the signature of a COSE_Sign1 is verified with (RFC 9052 section 4.4), once all bytes are there, and also when it was
    /// decided on: the key, the digest of the structure that is signed, and the signature as it was received.
    pub fn sign_input(&self) -> Option<(Key<'k>, &[u8], &[u8])>
        // The key, the digest and the signature. `signature_place` gives the place.
        ensures value { option_map (input_value (signed_place self.now)) result
            ≡ sign_input_of self.now }
        ensures digest { IfSome result (λ input. length input.1.now ≤ 64) }
        ensures signature { IfSome result (λ input. length input.2.now ≤ 132) }
    {
        self.reader.sign_input()
    }

    /// The place of the head of the signature of a COSE_Sign1, relative to the first byte of the message, once all bytes are there,
    /// and also when it was decided on: if the signature isn't good, the message is refused there as
    /// [`Reason::BadAuth`](cose_head::Reason::BadAuth).
    pub fn signature_place(&self) -> Option<u64>
        ensures { result ≡ option_map place_of (sign_input_of self.now) }
    {
        self.reader.signature_place()
    }

    /// How many bytes of the message are held: those of both header buckets, of a head and of the tag or signature, and 256 for
    /// the running hash.
    pub fn held(&self) -> usize
        ensures value { result ≡ held self.now }
        ensures limit { result ≤ 2 * H + 512 }
    {
        self.reader.held()
    }

    /// How many arrays, maps and tags of the unprotected bucket are open: their head was taken, and their end wasn't.
    pub fn open_items(&self) -> usize
        ensures value { result ≡ opened self.now }
        ensures limit { result ≤ D }
    {
        self.reader.open_items()
    }
}
