//! The command line as clap takes it: [`line`] is made of the tables of the commands and their options, and [`mistake`] is the text for
//! arguments that are refused.
#![tactic(auto)]

mod commands;
mod refused;

pub use commands::line;
pub use refused::mistake;
