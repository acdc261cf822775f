//! The kinds of messages that are verified.

/// The kind of a message.
#[derive(Clone, Copy, Debug, PartialEq, Eq)]
pub enum Kind {
    /// COSE_Mac0: a payload with a message authentication code (RFC 9052 section 6.2).
    Mac0,
    /// COSE_Sign1: a payload with one signature (RFC 9052 section 4.2).
    Sign1,
}
