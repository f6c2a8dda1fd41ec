//! Tests of the event loop: they stand in a crate of their own, since a crate with tests is proved twice.
//!
//! `script` is a network in memory with a clock of its own, whose log is known; `peers` has its clients. Other tests use these too. `echo` is an
//! endpoint that replies with what it was sent.
#![tactic(auto)]

#[cfg(test)]
mod crowd;
mod echo;
mod entry;
#[cfg(test)]
mod faults;
#[cfg(test)]
mod late;
mod peers;
mod run;
mod script;
#[cfg(test)]
mod served;
#[cfg(test)]
mod sockets;

pub use peers::{Peer, Peers};
pub use script::{Fault, Script};
