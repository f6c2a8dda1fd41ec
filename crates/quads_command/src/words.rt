//! From the words to the job.

use crate::command::command;
use crate::held::drop_value;
use crate::line::{CommandLine, line_of};
use crate::usage::{Usage, usage_of};
use clap::ArgMatches;
use std::alloc::Global;

// The matches of the words.
fn matches_of<'a>(alloc: Global, words: &'a [String]) -> Result<ArgMatches<'a>, clap::Error> {
    command(alloc)?.try_get_matches_from(words)
}

// The job that the matches name.
fn named<'a>(alloc: Global, matches: &ArgMatches<'a>) -> Result<CommandLine<'a>, Usage> {
    match line_of(matches) {
        Some(line) => Ok(line),
        None => Err(Usage::Said {
            text: String::new(alloc),
            status: 2,
        }),
    }
}

/// Returns the job that the words ask for. The first word is the name of the program. The port is a number from 1 to 65535, the number of
/// requests one from 0 to 4294967295, that of connections at once from 1 to 64, and seconds are from 1 to 4294967295.
///
/// # Errors
///
/// What is said in place of a job: the text of `clap` where the words are wrong, or where they ask for help or for the version; or out of
/// memory.
pub fn read<'a>(alloc: Global, words: &'a [String]) -> Result<CommandLine<'a>, Usage> {
    match matches_of(alloc, words) {
        Ok(matches) => {
            let line = named(alloc, &matches);
            drop_value(matches);
            line
        }
        Err(error) => Err(usage_of(alloc, &error)),
    }
}
