//! CBOR Web Tokens (RFC 8392), and their confirmation keys (RFC 8747). HMAC is computed here; for ECDSA (ES256, ES384,
//! ES512, ESP256, ESP384, ESP512) the digest is computed, and the caller's [`EcVerifier`](cose_msg::EcVerifier) decides; no
//! curve arithmetic is included.
//!
//! [`verify_cwt`] verifies a token over any intake, and returns its [`Claims`] where the message is authentic and a
//! [`Policy`] admits them. The claims borrow the store that holds the payload. No memory is allocated. Here `keys` is a
//! [`KeySet`], and `token` the bytes of a token:
//!
//! ```rust
//! use cose_cwt::{
//!     Audience, Context, CwtStop, Never, Policy, SliceIntake, Store, Verifier, Wanted, verify_cwt,
//! };
//!
//! let mut verifier = Verifier::<1024, 8>::new(Context {
//!     keys,
//!     aad: b"",
//!     wanted: Wanted::Tagged,
//!     cwt: true,
//!     understood: &[],
//!     payload_limit: 4096,
//! });
//! let mut store = Store::<4096>::new();
//! let mut intake = SliceIntake::new(token, 64);
//! let policy = Policy {
//!     now: 1_444_064_943,
//!     leeway: 60,
//!     audience: Audience::Mine(&["coap://light.example.com"]),
//! };
//! match verify_cwt::<512, 1024, 8, 4096, _, _, _>(
//!     &mut verifier,
//!     &mut intake,
//!     &mut store,
//!     &Never,
//!     &policy,
//! ) {
//!     Ok(claims) => assert_eq!(rt; claims.sub(), Some("erikw")),
//!     Err(CwtStop::Stopped(_)) => panic!(rt; "the intake failed"),
//!     Err(CwtStop::Message(refusal)) => panic!(rt; "the message: {refusal}"),
//!     Err(CwtStop::Claims(refusal)) => panic!(rt; "the claims: {refusal}"),
//! }
//! ```
//!
//! [`Claims::auds`] gives the text strings of the audience ([`Auds`]), [`Claims::cnf`] the confirmation ([`Cnf`]). The
//! confirmation key as a set of one ([`Claims::cnf_set`]) can be the keys of a context for the messages that the
//! token's presenter authenticates.
#![tactic(auto)]

mod claims;
mod confirmation;
mod elsewhere;
pub mod laws;
mod policy;
mod required;
mod requirements;
mod token;

pub use claims::Claims;
pub use claims::audience::Auds;
pub use claims::known::Known;
pub use confirmation::Cnf;
pub use cose_map::{Key, KeySet, Label, Material, Ops, Reason, Refusal, Y};
pub use cose_msg::{
    Alg, Context, EcVerifier, Intake, IntakeFault, Kind, Never, ReadIntake, SliceIntake, Stop,
    Store, Verifier, Wanted,
};
pub use elsewhere::{token_of_answer, token_of_mac};
pub use policy::{Audience, Policy};
pub use required::{Token, TokenStop, verify_token};
pub use requirements::{Claim, Requirement, Requirements, Unmet};
pub use token::{CwtStop, verify_cwt};
