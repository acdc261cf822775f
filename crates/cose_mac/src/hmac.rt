//! The blocks of HMAC (RFC 2104 section 2).

ghost use Rattle.std.specs.Prelude.{◌≡◌, ◌≤◌, length};
ghost use Rattle.cose_mac.specs.Hash.{function_of};
ghost use Rattle.cose_mac.specs.Hasher.{Holds};
ghost use Rattle.cose_mac.specs.Hmac as spec;

use crate::hash::{block_length, digest};
use crate::hasher::Hasher;
use arrayvec::ArrayVec;
use cose_head::Hash;

/// A block of any of the hash functions.
pub(crate) type Block = ArrayVec<u8, 128>;

/// The byte that is repeated over the inner block.
pub(crate) const IPAD: u8 = 0x36;

/// The byte that is repeated over the outer block.
pub(crate) const OPAD: u8 = 0x5c;

/// The key as a block: a key longer than a block is hashed, and then zeros are appended to it. Not inlined, so that no hasher is on
/// the stack while the key is hashed.
#[inline(never)]
#[tactic(auto, unfolding(crate::specs::Hmac::key_block))]
pub(crate) fn key_block(hash: Hash, key: &[u8]) -> Block
    ensures { result.items ≡ spec.key_block (function_of hash) key.now }
{
    let length = block_length(hash);
    let mut block = Block::new();
    // What is at most as long as a block fits into a `Block`.
    let _ = if length < key.len() {
        block.try_extend_from_slice(&digest(hash, key))
    } else {
        block.try_extend_from_slice(key)
    };
    'zeros: for _i in block.len()..length {
        block.push(0);
    }
    block
}

/// Each byte of the block XOR the byte `pad`.
#[tactic(auto, unfolding(crate::specs::Hmac::xor_pad))]
pub(crate) fn xor_pad(block: &Block, pad: u8) -> Block
    ensures { result.items ≡ spec.xor_pad block.now.items pad }
{
    let mut padded = Block::new();
    'bytes: for byte in block.as_slice() {
        padded.push(*byte ^ pad);
    }
    padded
}

/// A hasher that was fed each byte of the block XOR the byte `pad`. Not inlined, so that one padded block at a time is on the stack.
#[inline(never)]
pub(crate) fn padded_hasher(hash: Hash, block: &Block, pad: u8) -> Hasher
    ensures { Holds hash result (spec.xor_pad block.now.items pad) }
{
    let mut hasher = Hasher::new(hash);
    hasher.update(&xor_pad(block, pad));
    hasher
}
