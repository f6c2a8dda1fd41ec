//! The words of the command line, read by `clap`: which job they ask for, over which files.
//!
//! The crate depends on `clap` alone, and what it answers holds nothing of `clap`: so no crate above pays for it. What `clap` reads is `clap`'s
//! contract; of the job that the words ask for nothing else is claimed.
#![tactic(auto)]

mod command;
mod held;
mod line;
mod usage;
mod words;

pub use line::{CommandLine, ServeOptions};
pub use usage::Usage;
pub use words::read;
