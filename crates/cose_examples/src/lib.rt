//! Callers of the libraries. docs/USING.md shows their code: a message in memory, one from any intake, many under the same
//! keys, a token, a serial line, a firmware image beside its message, a verifier of signatures, and the layers below.
#![tactic(auto)]

mod context;
pub mod firmware;
pub mod intake;
pub mod layers;
pub mod line;
pub mod memory;
pub mod signatures;
pub mod table;
pub mod token;
