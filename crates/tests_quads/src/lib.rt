//! Tests of the program's jobs: they stand in a crate of their own, since a crate with tests is proved twice.
//!
//! Each job is run over a sink in memory, which takes all bytes or fails after some of them: the status, and how many bytes were taken.
#![tactic(auto)]

#[cfg(test)]
mod jobs;
#[cfg(test)]
mod sink;
