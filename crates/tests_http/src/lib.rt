//! Tests of the wire of the endpoint: they stand in a crate of their own, since a crate with tests is proved twice.
//!
//! Requests as clients send them, each refusal, the limits, and replies byte by byte. `growth` has the pairs for refused allocations.
#![tactic(auto)]

#[cfg(test)]
mod growth;
#[cfg(test)]
mod outcome;
#[cfg(test)]
mod replies;
#[cfg(test)]
mod requests;
