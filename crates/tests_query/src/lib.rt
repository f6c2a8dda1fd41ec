//! Tests of texts, data, patterns and printed lines: they stand in a crate of their own, since a crate with tests is proved twice.
//!
//! Here is what no clause says and no run of the program shows: updates, forms of queries that have no answer yet, and calls that the
//! program doesn't make, each once where it succeeds, at values worked out by hand from the standard. `growth` has the pairs for refused
//! allocations. What is made is held by a small function of its own and dropped by `drop`: a proof grows with what is alive where a call
//! may fail.
#![tactic(auto)]

#[cfg(test)]
mod allowed;
#[cfg(test)]
mod answers;
#[cfg(test)]
mod expressions;
#[cfg(test)]
mod fronts;
#[cfg(test)]
mod growth;
#[cfg(test)]
mod lines;
#[cfg(test)]
mod operations;
#[cfg(test)]
mod outcome;
#[cfg(test)]
mod patterns;
#[cfg(test)]
mod quads;
#[cfg(test)]
mod queries;
#[cfg(test)]
mod rows;
#[cfg(test)]
mod tokens;
#[cfg(test)]
mod updates;
#[cfg(test)]
mod written;
