//! Blocks in the caller's memory. A block has no content until it is given one, and a pointer to it is all that the caller holds.
//!
//! A handle (`CoseVerifier`) owns the block that its pointer leads to; its ghost field is the value in the block. Each type of blocks
//! has two functions that are proved by hand: `lend` gives the value for as long as the handle is borrowed, and `cose_..begin` writes
//! the first value. A generic handle doesn't cross to C, so each type has its own pair, in the same words.

pub(crate) mod device_verifier;
pub(crate) mod large_verifier;
pub(crate) mod maker;
pub(crate) mod shared_table;
pub(crate) mod signer;
pub(crate) mod table;
pub(crate) mod verifier;
