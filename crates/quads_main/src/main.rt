//! The program: checks the quads of a file, answers the query of a file over the quads of another, carries the update of a file out over
//! them, prints the plans of either, carries out the connection events of a script, and serves the quads to clients.
//!
//! What a job's bytes result in is proved of `quads::run`. The words of the command line are read by `quads_command`. Here the files are read,
//! and the port is bound.
#![tactic(auto)]

mod dropped;
mod files;
mod jobs;
mod listen;
mod places;

use crate::files::refuse_for_memory;
use crate::jobs::do_line;
use qs_terms::{Counted, Sink};
use quads_command::{Usage, read};
use std::process::ExitCode;
use std::{env, io};

/// Does what the words say: the exit status. What `clap` says goes to standard error, and so does the text of `--help`, which is no fault: its
/// status is 0.
fn obey<S: Sink>(rt: &HostRuntime, out: &mut S, words: &[String]) -> u8 {
    match read(rt.alloc(), words) {
        Ok(line) => do_line(rt, out, line),
        Err(Usage::Said { text, status }) => {
            drop(rt.eprint(&text));
            status
        }
        Err(Usage::OutOfMemory) => refuse_for_memory(out),
    }
}

fn words_of(rt: &HostRuntime) -> Result<Vec<String>, io::Error> {
    let words = env::args(rt)?.collect(rt.alloc())?;
    Ok(words)
}

fn main(rt: HostRuntime) -> ExitCode {
    let mut out = Counted::new(io::writer(&rt));
    let status = match words_of(&rt) {
        Ok(words) => obey(&rt, &mut out, words.as_slice()),
        Err(error) if error.kind() == io::ErrorKind::OutOfMemory => refuse_for_memory(&mut out),
        // An argument that is not UTF-8 is a fault of the command line.
        Err(_) => {
            drop(rt.eprintln("error: an argument is not UTF-8"));
            2
        }
    };
    ExitCode::from(status)
}
