//! COSE_Mac0 and COSE_Sign1 messages (RFC 9052 sections 6.2 and 4.2), verified over any intake in bounded memory, and
//! COSE_Mac0 messages made in the same way. HMAC is computed here; for ECDSA (ES256, ES384, ES512, ESP256, ESP384,
//! ESP512) the digest is computed, and the caller's [`EcVerifier`] decides; no curve arithmetic is included.
//!
//! A [`Verifier`] holds the header buckets of one message, of at most `H` bytes each, and never the payload. [`verify`] takes
//! the message from an [`Intake`] in pieces of at most `C` bytes, puts the payload into a [`Sink`] as it comes, and gives one
//! [`Verdict`]: authentic, or refused with a reason and a place. Drop what the sink got where the message isn't authentic.
//!
//! ```rust
//! use cose_msg::{Context, KeySet, Never, SliceIntake, Store, Wanted, Verifier, verify};
//!
//! let Ok(keys) = KeySet::read(b"\xa2\x01\x04\x20\x44Jefe") else {
//!     return;
//! };
//! let mut verifier = Verifier::<1024, 8>::new(Context {
//!     keys,
//!     aad: b"",
//!     wanted: Wanted::Tagged,
//!     cwt: false,
//!     understood: &[],
//!     payload_limit: 4096,
//! });
//! let mut payload = Store::<4096>::new();
//! let mut intake = SliceIntake::new(message, 64);
//! let verdict = verify::<512, 1024, 8, _, _, _, _>(&mut verifier, &mut intake, &mut payload, &Never);
//! ```
//!
//! A message that is in memory needs neither: [`verify_slice`] resets the verifier, and returns the payload of an authentic
//! message as a part of it ([`Verified`]). A byte after the message is refused.
//!
//! ```rust
//! match verify_slice(&mut verifier, message, &Never) {
//!     Verified::Authentic { payload, .. } => handle(payload),
//!     Verified::Refused(refusal) => report(refusal),
//! }
//! ```
//!
//! A COSE_Sign1 is authentic where the [`EcVerifier`] that the caller passes answers so, asked with the key, the digest
//! of the structure that is signed and the signature; [`Never`] refuses all. Until [`Verifier::reset`] a verdict is
//! answered again, and after a [`Stop`] for a failure of the intake or the sink [`Stop::Again`]. [`same_bytes`], by which tags
//! are compared, is for a caller that compares one of its own. One that has the hash or the key elsewhere gets the bytes before
//! the payload by [`FrontPieces`].
//!
//! A [`SliceIntake`] gives the bytes of a slice, a [`ReadIntake`] those of a reader. A [`Store`] holds the payload until
//! [`Store::clear`], [`Nothing`] keeps none of it. An intake that fails says so by [`IntakeFault`], and a sink by [`SinkFault`].
//!
//! [`inspect`] reads a message with a verifier that [`Verifier::inspecting`] made, and gives its shape ([`Inspected`]):
//! no key is chosen, and nothing is authenticated. After either call a verifier gives what was read of the header
//! buckets, and after [`verify`] also what a signature is verified with.
//!
//! Where the bytes arrive on their own, [`Verifier::feed`] takes them in pieces of any length, says which of them are
//! of the payload ([`Fed`]), and gives the [`Status`] of the message. [`Verifier::end`] says that no byte follows, and
//! [`Verifier::verdict`] decides once the message is complete. `verify` continues where a verifier was fed before.
//!
//! A payload may be detached (RFC 9052 sections 4.2 and 6.2): the message has nil in its place. [`Verifier::detached`] is
//! passed its length; where the status is [`Status::PayloadNext`], [`Verifier::feed_payload`] takes its bytes.
//!
//! A caller that has the hash or the key elsewhere, as in a secure element, makes the verifier by [`Verifier::elsewhere`]. After
//! the payload's head [`Verifier::front_pieces`] gives the bytes to hash before the payload, and [`Verifier::asked_key`] the key;
//! once the message is complete, [`Verifier::verdict_of_mac`] or [`Verifier::verdict_of_answer`] decides by what the caller found.
//!
//! EdDSA (RFC 9053 section 2.2, RFC 9864 section 2.2) hashes part of the signature and the key before the message, so it is
//! verified in memory alone: [`verify_further`] finds the OKP key, and the caller's [`FurtherVerifier`] decides. [`ask_further`]
//! gives what it is asked, for a caller that answers later ([`FurtherAsk::answer`]). Everywhere else the algorithm is unknown.
//!
//! ```rust
//! let fed = verifier.feed(piece);
//! let payload = fed.payload_of(piece);
//! if verifier.is_complete() {
//!     let verdict = verifier.verdict(&Never);
//! }
//! ```
//!
//! [`make_mac0`] makes a COSE_Mac0 of a payload whose length is known, also in pieces, or gives a [`MakeFault`] that
//! says why not:
//!
//! ```rust
//! use cose_msg::{Alg, Key, SliceIntake, Store, make_mac0};
//!
//! let Ok(key) = Key::read(b"\xa2\x01\x04\x20\x44Jefe", 0) else {
//!     return;
//! };
//! let length = payload.len() as u64;
//! let mut intake = SliceIntake::new(payload, 64);
//! let mut message = Store::<4096>::new();
//! let count = make_mac0::<512, _, _>(Alg::Hmac256, &key, None, b"", &mut intake, length, &mut message);
//! ```
#![tactic(auto)]

mod bare_head;
mod context;
mod elliptic;
mod front_pieces;
mod further;
mod hashing;
mod intake;
pub mod laws;
mod make;
mod phase;
mod reader;
mod run;
mod sink;
mod slice;
mod status;
mod store;
mod store_bytes;
mod verdict;
mod verifier;

pub use context::{Context, Wanted};
pub use cose_head::{Kind, Reason, Refusal};
pub use cose_mac::{Alg, same_bytes};
pub use cose_map::{
    Bucket, FurtherAlg, Key, KeySet, KeyTable, Keys, Label, OkpCurve, OkpKey, PreparedTable, Query,
};
pub use elliptic::{EcVerifier, Never};
pub use front_pieces::FrontPieces;
pub use further::{
    FurtherAsk, FurtherVerified, FurtherVerifier, ask_further, ask_further_detached,
    verify_further, verify_further_detached,
};
pub use intake::{Intake, IntakeFault, ReadIntake, SliceIntake};
pub use make::maker::Maker;
pub use make::sign1_maker::{Sign1Maker, SignFault, Unsigned};
pub use make::{MakeFault, make_mac0};
pub use run::detached::verify_detached;
pub use run::{inspect, verify};
pub use sink::{Nothing, Sink, SinkFault};
pub use slice::{Verified, verify_slice};
pub use status::{Fed, Status};
pub use store::{Lender, Store};
pub use verdict::{Inspected, Stop, Verdict};
pub use verifier::Verifier;
