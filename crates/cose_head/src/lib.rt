//! Heads and items of CBOR (RFC 8949), and the reasons for which COSE messages are refused.
//!
//! [`ItemRef::read`] reads bytes that are exactly one item; the caller passes the place of the first byte. Its getters,
//! such as [`ItemRef::as_int`] and [`ItemRef::is_map`], say what the item is. [`Items`] gives the children of an array
//! or a map, [`ItemRef::as_tag`] what a CBOR tag encloses. [`read_item`] finds the length and nesting of the item that
//! bytes begin with (a [`Span`]). [`Walker`] reads an item a byte at a time, and answers with a [`Step`].
//! [`parse_head`], which answers with a [`HeadStep`], and [`write_head`] are for a [`Head`] outside an item. No memory
//! is allocated.
//!
//! [`Alg`] is the table of algorithms, four of HMAC and six of ECDSA: the [`Kind`] of message of each, its [`Hash`],
//! and the [`KeyType`] of its keys. [`FurtherAlg`] is that of the signature algorithms which are left to the caller, EdDSA, with the
//! [`OkpCurve`]s of its keys.
//!
//! `Debug` of an [`ItemRef`] and of [`Items`] prints how many bytes there are, and none of them ([`Hidden`]): they may be a key's.
//!
//! ```
//! // A map of one pair, {1: 5}, whose first byte is at place 3 of a message.
//! let map = ItemRef::read(b"\xa1\x01\x05", 3, 8)?;
//! let mut children = Items::of(&map);
//! if let (Some(label), Some(value)) = (children.next(), children.next()) {
//!     // Some(1) at place 4, and Some(5) at place 5.
//!     println!(rt; "{:?} at {}", label.as_int(), label.place)?;
//!     println!(rt; "{:?} at {}", value.as_int(), value.place)?;
//! }
//!
//! // A byte after the item is refused: `Trailing at 6`.
//! if let Err(refusal) = ItemRef::read(b"\xa1\x01\x05\x00", 3, 8) {
//!     println!(rt; "{refusal}")?;
//! }
//!
//! // The same map, a byte at a time: `Going`, `Going`, `Done`. It may use 3 bytes and be nested 8 deep.
//! let mut walker: Walker<8> = Walker::new(3);
//! for byte in b"\xa1\x01\x05" {
//!     println!(rt; "{:?}", walker.put(*byte))?;
//! }
//! ```
#![tactic(auto)]

mod algorithm;
mod further;
mod half_head;
mod head;
mod hidden;
mod item;
mod item_length;
mod item_ref;
mod items;
mod kind;
pub mod laws;
mod reason;
mod refusal;
mod walker;

pub use algorithm::{Alg, Hash, KeyType};
pub use further::{FurtherAlg, OkpCurve};
pub use head::{Head, HeadStep, parse_head, write_head};
pub use hidden::Hidden;
pub use item::{Span, read_item};
pub use item_ref::ItemRef;
pub use items::Items;
pub use kind::Kind;
pub use reason::Reason;
pub use refusal::Refusal;
pub use walker::{Step, Walker};
