//! The files that a command line names.

use qs_results::out_of_memory_line;
use qs_terms::{Sink, put_all};
use std::hash::RandomState;
use std::{fs, io};

/// Prints the line of the fault for out of memory; the status is 1.
pub fn refuse_for_memory<S: Sink>(out: &mut S) -> u8 {
    put_all(out, out_of_memory_line().as_bytes());
    1
}

// Prints that a file can't be read, or the line of the fault for out of memory; the status is 1.
fn refuse_file<S: Sink>(out: &mut S, name: &str, error: &io::Error) -> u8 {
    if error.kind() == io::ErrorKind::OutOfMemory {
        return refuse_for_memory(out);
    }
    for part in ["cannot read ", name, "\n"] {
        if put_all(out, part.as_bytes()) < part.len() {
            return 1;
        }
    }
    1
}

/// Returns the bytes of the file of this name.
///
/// # Errors
///
/// The exit status, where the file can't be read.
pub fn file<S: Sink>(rt: &HostRuntime, out: &mut S, name: &str) -> Result<Vec<u8>, u8> {
    match fs::read(rt, name) {
        Ok(bytes) => Ok(bytes),
        Err(error) => Err(refuse_file(out, name, &error)),
    }
}

/// Returns the bytes of two files, of which the first is read first.
///
/// # Errors
///
/// The exit status, where one of them can't be read.
pub fn two_files<S: Sink>(
    rt: &HostRuntime,
    out: &mut S,
    first: &str,
    second: &str,
) -> Result<(Vec<u8>, Vec<u8>), u8> {
    let bytes = file(rt, out, first)?;
    Ok((bytes, file(rt, out, second)?))
}

/// Returns what terms of a store are hashed by.
///
/// # Errors
///
/// The exit status, where the system gives no random bytes: 1, once `cannot read random bytes` is printed.
pub fn hasher<S: Sink>(rt: &HostRuntime, out: &mut S) -> Result<RandomState, u8> {
    match RandomState::new(rt) {
        Ok(hasher) => Ok(hasher),
        Err(error) => Err(refuse_file(out, "random bytes", &error)),
    }
}
