//! What HMAC uses of the hash functions: the length of their blocks, and digests (FIPS 180-4).

ghost use Rattle.std.specs.Prelude.{◌≡◌, ◌≤◌};
ghost use Rattle.cose_mac.specs.Hash.{function_of};

use crate::hasher::Hasher;
use arrayvec::ArrayVec;
use cose_head::Hash;

/// The number of bytes of a block of the function.
pub(crate) fn block_length(hash: Hash) -> usize
    ensures value { result ≡ (function_of hash).block_length }
    ensures at_least { 64 ≤ result }
    ensures at_most { result ≤ 128 }
{
    match hash {
        Hash::Sha256 => 64,
        Hash::Sha384 | Hash::Sha512 => 128,
    }
}

/// The digest of a whole message.
pub(crate) fn digest(hash: Hash, message: &[u8]) -> ArrayVec<u8, 64>
    ensures { result.items ≡ (function_of hash).digest message.now }
{
    let mut hasher = Hasher::new(hash);
    hasher.update(message);
    hasher.finish()
}
