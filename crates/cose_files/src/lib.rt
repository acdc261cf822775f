//! The files that a run of the program opens by their names, and the new file that it may make: [`NamedFiles`] and [`NewFiles`],
//! whose contracts say what a run knows of them, and those of the process.
#![tactic(auto)]

mod host_file;
mod named_files;
mod new_file;

pub use host_file::{HostFiles, NamelessFile};
pub use named_files::{NamedFiles, open_with_length};
pub use new_file::{NewFiles, Standing};
