//! An event loop: many connections at once, generic over an endpoint and a network.
//!
//! `serve_events` is the loop. An `Endpoint` takes the events of connections and has their replies; a `Network` has the connections themselves.
//! `Sockets` is the network of the system. Each connection has a place, which is also its id: `Limits` says how many places there are, and how
//! long a peer may take. An `Observer` learns of connections that were dropped since all places were taken.
//!
//! The definitions stand in `specs/`: what comes and goes in `Log.antt`, and what the loop does in `Run.antt`. Those of `inner/` serve the proofs.
#![tactic(auto)]

mod arrivals;
mod connection;
mod endpoint;
mod limits;
mod network;
mod observer;
mod reactor;
mod sockets;
mod table;

pub use endpoint::Endpoint;
pub use limits::Limits;
pub use network::{Network, WaitResult};
pub use observer::Observer;
pub use reactor::serve_events;
pub use sockets::Sockets;
