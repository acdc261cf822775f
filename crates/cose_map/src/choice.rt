//! Which key authenticates a message, and by which algorithm (RFC 9052 section 7.1).

mod algorithm;
pub mod fitting;
pub mod further;
pub mod mismatch;
pub mod query;
