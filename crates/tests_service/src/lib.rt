//! Tests of connections over one store: they stand in a crate of their own, since a crate with tests is proved twice.
//!
//! Replies that are taken, connections over streams in memory and over sockets, and many at once over a network in memory. `growth` has the pairs for refused allocations.
#![tactic(auto)]

#[cfg(test)]
mod events;
#[cfg(test)]
mod faults;
#[cfg(test)]
mod growth;
#[cfg(test)]
mod handed_back;
#[cfg(test)]
mod interleaved;
#[cfg(test)]
mod memory;
#[cfg(test)]
mod outcome;
#[cfg(test)]
mod sockets;
#[cfg(test)]
mod streams;
#[cfg(test)]
mod take;
