//! The authentication of COSE messages (RFC 9052 sections 4.4 and 6.3): running MACs and digests of the bytes that are
//! authenticated, and the structures of these bytes. HMAC is computed here; for ECDSA (ES256, ES384, ES512, ESP256, ESP384,
//! ESP512) the digest is computed, and the caller decides; no curve arithmetic is included.
//!
//! The MAC of a COSE_Mac0 is that of its MAC_structure: [`structure_front`] appends the bytes before the payload, and
//! then the caller appends the payload in pieces of any length. Here the protected header is {1: 4}, which names HMAC
//! 256/64:
//!
//! ```rust
//! use cose_mac::{Alg, Kind, Prepared, Running, structure_front};
//!
//! let protected = b"\xa1\x01\x04";
//! let mut running = Running::hmac(Alg::Hmac64, b"Jefe");
//! structure_front(Kind::Mac0, protected, b"", 11, &mut running);
//! running.update(b"hello ");
//! running.update(b"world");
//! let mac = running.finish_mac();
//! assert_eq!(rt; mac.as_slice(), b"\x7a\x06\x73\x54\x1f\xac\xc3\xd1".as_slice());
//! ```
//!
//! Of a short message half of this hashes the key alone. [`Prepared`] does that once for many messages:
//!
//! ```rust
//! let prepared = Prepared::hmac(Alg::Hmac64, b"Jefe");
//! let mut running = prepared.begin(Alg::Hmac64);
//! structure_front(Kind::Mac0, protected, b"", 11, &mut running);
//! running.update(b"hello world");
//! let mac = running.finish_mac();
//! assert_eq!(rt; mac.as_slice(), b"\x7a\x06\x73\x54\x1f\xac\xc3\xd1".as_slice());
//! ```
//!
//! For a signature, a digest is made: [`Running::digest`] instead of [`Running::hmac`], [`Kind::Sign1`], and at the end
//! [`Running::finish_digest`]. [`Alg::is_mac`] says which of the two an algorithm needs, and [`Alg::auth_length`] is
//! the length of its MACs or signatures.
#![tactic(auto)]

mod comparison;
mod hash;
mod hasher;
mod hmac;
pub mod laws;
mod prepared;
mod running;
mod structure;

pub use comparison::same_bytes;
pub use cose_head::{Alg, Kind};
pub use prepared::Prepared;
pub use running::Running;
pub use structure::structure_front;
