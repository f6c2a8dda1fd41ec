//! Why a command line names no job.

use clap::Error;
use clap::error::ErrorKind;
use std::alloc::Global;

/// What is said in place of a job.
#[derive(Drop)]
pub enum Usage {
    /// This text of `clap` goes to standard error, and the program ends with this exit status: 2 where the words are wrong, and 0 where they
    /// ask for help or for the version.
    Said { text: String, status: u8 },
    /// Out of memory.
    OutOfMemory,
}

/// Returns what `clap` says of the words that it doesn't accept.
pub fn usage_of(alloc: Global, error: &Error) -> Usage {
    if error.kind() == ErrorKind::OutOfMemory {
        return Usage::OutOfMemory;
    }
    match format!(in alloc; "{error}") {
        Ok(text) => Usage::Said {
            text,
            status: error.exit_code() as u8,
        },
        Err(_) => Usage::OutOfMemory,
    }
}
