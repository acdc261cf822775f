//! Maps of labels and values in COSE (RFC 9052): header buckets, keys and key sets.
//!
//! From the bytes of a message's two header buckets and of a key set to the key that authenticates the message. The
//! protected bucket is {1: 5}, which names HMAC 256/256, and the unprotected one is {4: h'31'}, the key's identifier.
//! Their places in the message are 3 and 6, and the place after both is 10:
//!
//! ```rust
//! use cose_map::{Bucket, KeySet, KeyTable, Kind, Material, Query, check_pair};
//!
//! let protected = Bucket::read(b"\xa1\x01\x05", 3, 4)?;
//! let unprotected = Bucket::read(b"\xa1\x04\x411", 6, 4)?;
//! check_pair(&protected, &unprotected, &[], 10)?;
//! let keys = KeySet::read(b"\xa3\x01\x04\x02\x411\x20\x44Jefe")?;
//! let query = Query {
//!     kind: Kind::Mac0,
//!     operation: 10,
//!     protected_alg: protected.alg(),
//!     unprotected_alg: unprotected.alg(),
//!     kid: unprotected.kid(),
//! };
//! let (key, algorithm) = keys.find(&query)?;
//! assert_eq!(rt; algorithm, 5);
//! match key.material {
//!     Material::Symmetric(secret) => assert_eq!(rt; secret, b"Jefe".as_slice()),
//!     Material::Ec { .. } => panic!(rt; "a point makes no MAC"),
//! }
//! ```
//!
//! A [`KeySet`] keeps its bytes and reads its keys again at each call. For many messages a [`KeyTable`] reads each key once,
//! and keeps up to as many as its type says:
//!
//! ```rust
//! let table = KeyTable::<16>::read(b"\xa3\x01\x04\x02\x411\x20\x44Jefe")?;
//! assert_eq!(rt; table.count(), 1);
//! let (_key, algorithm) = table.find(&query)?;
//! assert_eq!(rt; algorithm, 5);
//! ```
//!
//! Code that takes either is generic over [`Keys`]. Why none of them fits, [`Query::mismatch`] says of each key.
//!
//! A usable key is a secret, or a point on P-256, P-384 or P-521 ([`Material`]). Whether a point is on its curve isn't
//! checked: no curve arithmetic is included.
//!
//! For a signature that the caller verifies, EdDSA, [`KeySet::find_further`] finds the [`OkpKey`] and the [`FurtherAlg`]; every
//! other call skips such keys, and knows no such algorithm.
//!
//! The labels that RFC 9052 section 3.1 defines are in [`header`]. [`read_map`] and [`check_map`] read any map with a
//! table of value forms, a [`Form`], into its [`Pairs`]. [`KeySet::of_key`] is the set of one key that is within
//! another item.
//!
//! A fault is what is wrong with some bytes, at a place. A refusal is the answer of a call: it names one fault, the
//! first or the least, by its reason and place.
#![tactic(auto)]

mod bucket;
mod choice;
mod key;
mod key_set;
mod key_table;
mod keys;
mod label;
pub mod laws;
mod map;
mod prepared_table;
mod restrictions;

pub use bucket::both::check_pair;
pub use bucket::{Bucket, header};
pub use choice::mismatch::Mismatch;
pub use choice::query::Query;
pub use cose_head::{FurtherAlg, Head, ItemRef, Items, Kind, OkpCurve, Reason, Refusal};
pub use key::Key;
pub use key::material::{Material, Y};
pub use key::okp::OkpKey;
pub use key::operations::Ops;
pub use key_set::KeySet;
pub use key_table::KeyTable;
pub use keys::{KeyMeaning, Keys};
pub use label::Label;
pub use map::form::Form;
pub use map::pairs::Pairs;
pub use map::read::{check_map, read_map, refused};
pub use prepared_table::PreparedTable;
pub use restrictions::{Permits, Restrictions};
