//! What the program `cosecmd` answers to a request, over any reader and writer: the verdict on a message (RFC 9052) or on each of a
//! sequence, its headers, what its signature is verified with; the claims of a token (RFC 8392) that is admitted; the keys of a key
//! set; and a COSE_Mac0 that it makes.
//!
//! [`answer`] answers a [`Request`]. Its text is written to the output, a [`Fault`]'s line too.
#![tactic(auto)]

mod allowed;
mod answers;
mod fault;
mod input;
mod limits;
mod line;
mod notation;
mod output;
mod payload_file;
mod reply;
mod request;
mod required;
mod vouch;
mod write_sink;

pub use allowed::Allowed;
pub use answers::answer;
pub use fault::Fault;
pub use limits::Limits;
pub use notation::quoted;
pub use output::{print, print_fault};
pub use reply::{Reply, Status};
pub use request::{Checks, Cwt, Details, Keys, Make, Payload, Printing, Question, Request};
pub use required::Required;
