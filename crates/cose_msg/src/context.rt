//! What a message is verified under.

use cose_map::{KeySet, Label};

/// The kinds of messages that are wanted.
#[derive(Clone, Copy, Debug, PartialEq, Eq)]
pub enum Wanted {
    /// COSE_Mac0, with its tag or without.
    Mac0,
    /// COSE_Sign1, with its tag or without.
    Sign1,
    /// COSE_Mac0 or COSE_Sign1, as its tag says (RFC 9052 section 2).
    Tagged,
}

/// What a message is verified under: the keys, and what the application knows of the message.
#[derive(Clone, Copy, Debug)]
pub struct Context<'k, S = KeySet<'k>> {
    /// The keys, exactly one of which has to fit the message: a key set, which is read again for each message, or a
    /// [`KeyTable`](cose_map::KeyTable) or a reference to one, which was read once.
    pub keys: S,
    /// The externally supplied data (RFC 9052 section 4.3), at most 65,535 bytes.
    pub aad: &'k [u8],
    /// The kinds of messages that are wanted.
    pub wanted: Wanted,
    /// Whether the CWT tag may precede the message's own (RFC 8392 section 6).
    pub cwt: bool,
    /// The labels, in addition to those that RFC 9052 section 3.1 defines, that the application understands where crit
    /// lists them.
    pub understood: &'k [Label<'k>],
    /// The most bytes that a payload may have.
    pub payload_limit: u64,
}

/// A context without its keys.
#[derive(Clone, Copy)]
pub(crate) struct Terms<'k> {
    /// The externally supplied data.
    pub(crate) aad: &'k [u8],
    /// The kinds of messages that are wanted.
    pub(crate) wanted: Wanted,
    /// Whether the CWT tag may precede the message's own.
    pub(crate) cwt: bool,
    /// The labels that the application understands.
    pub(crate) understood: &'k [Label<'k>],
    /// The most bytes that a payload may have.
    pub(crate) payload_limit: u64,
}
