//! What the program says on standard error, for people: of texts where CBOR is expected, of keys and arguments that are wrong, of
//! what a run has refused, and why a file or a stream can't be used. None of it changes what standard output says, or how a run
//! ends, and no argument is repeated, which may be a secret.
//!
//! [`Noted`] is a stream that remembers its first bytes, [`Ended`] a run that has ended; [`NotedFiles`] and [`NotedNewFiles`] are the
//! files of the process, of which something is said once they are read, or can't be used.
#![tactic(auto)]

mod advice;
mod argument_advice;
mod cause;
mod hints;
mod key_hints;
mod noted_files;
mod streams;
mod text_advice;

pub use advice::Ended;
pub use argument_advice::say_of_arguments;
pub use hints::Form;
pub use noted_files::{NotedFiles, NotedNewFiles};
pub use streams::{Noted, hold_closed, reads_input};
pub use text_advice::{advice_on_wrong_text, first_bytes, is_text, name_of, other_form};
