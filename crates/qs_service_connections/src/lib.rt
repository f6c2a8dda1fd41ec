//! A table of connections, generic over what a request does: each event is one step, and the event that brings a request's last byte carries
//! the whole request out (SPARQL 1.1 Protocol, 2).
//!
//! `Connections` has the joined connections, in a `Table`: a `connection` is what was read of its request, or its `reply`. An implementation
//! of `Meaning` says what a request does. `serve_one` serves one connection over a stream, and `serve` one after another that result in a
//! listener.
//!
//! The definitions stand in `specs/`: replies in `Message.antt`, what is asked of a request's meaning in `Meaning.antt`, the state of the
//! connections in `State.antt`, its steps in `Step.antt`, and a connection over a stream in `Serve.antt`.
#![tactic(auto)]

mod connection;
mod connections;
mod fault;
mod meaning;
mod receive;
mod reply;
mod served;
mod sockets;
mod stream;
mod table;

pub use connections::Connections;
pub use fault::ServiceFault;
pub use meaning::Meaning;
pub use reply::Reply;
pub use served::{ServeFault, Served};
pub use sockets::serve;
pub use table::Table;
