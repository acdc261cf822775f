//! The tests of the libraries and of their callers. They use public calls alone, and are of what no row of rows/ can be: streams
//! that fail, what is asked of them, states between calls, `Debug`, the examples of the crates' pages, and the callers on good bytes
//! and on bad ones. A crate with tests is proved twice, so this one has nothing else.
#![tactic(auto)]

#[cfg(test)]
mod tests;
