//! Tests of terms, the dictionary, the index, the store and requests over it: they stand in a crate of their own, since a crate with tests is proved twice.
//!
//! Here is what no clause says and no run of the program shows: calls that the program doesn't make, each once where it succeeds, at
//! values worked out by hand from the standard, and what is printed. `growth` has the pairs for refused allocations. What is made is held
//! by a small function of its own and dropped by `drop`: a proof grows with what is alive where a call may fail.
#![tactic(auto)]

#[cfg(test)]
mod devices;
#[cfg(test)]
mod dict;
#[cfg(test)]
mod faults;
#[cfg(test)]
mod growth;
#[cfg(test)]
mod index;
#[cfg(test)]
mod limits;
#[cfg(test)]
mod loads;
#[cfg(test)]
mod looks;
#[cfg(test)]
mod outcome;
#[cfg(test)]
mod quads;
#[cfg(test)]
mod requests;
#[cfg(test)]
mod rows;
#[cfg(test)]
mod seen;
#[cfg(test)]
mod store;
#[cfg(test)]
mod terms;
#[cfg(test)]
mod values;
#[cfg(test)]
mod whole_graphs;
