//! The verifier for callers in C and in what calls C: functions over memory, and a verifier in the caller's memory. `include/cose.h`
//! declares what is exported here, and says what a caller owes.
//!
//! A function with a slice among its arguments is exported as `cose_edge_NAME`: a slice is never null here, so the header has a
//! `cose_NAME` that takes a null pointer too.
#![tactic(auto)]

mod admit;
mod authenticate;
mod claims;
mod cose_claims;
mod deciding;
mod eddsa;
mod elsewhere;
mod fed_keys;
mod held;
mod input;
mod item;
mod key_choice;
mod key_set;
mod make;
mod message;
mod numbers;
mod parameter;
mod permitted;
mod required;
mod shape;
mod sign;
mod stated;
mod stream;
mod table;
mod terms;
mod wipe;
