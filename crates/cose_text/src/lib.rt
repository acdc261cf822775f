//! What people read of a message: an item in diagnostic notation (RFC 8949 section 8), a text in quotes, and a date
//! (RFC 3339). What people have of one: its bytes in hexadecimal or base64url (RFC 4648), decoded as they are read.
//!
//! All is written in printable ASCII characters ([`laws::is_printable`]), and a text ends where its quotes do, whatever its bytes
//! are ([`laws::quotes_end`]). It is appended to a `String` of the caller, which may be refused memory.
#![tactic(auto)]

mod date;
mod diagnostic;
pub mod laws;
mod quoted;
mod text_form;
mod text_input;

pub use date::Date;
pub use diagnostic::push_diagnostic;
pub use quoted::push_quoted;
pub use text_input::{InputForm, TextFault, TextInput};
