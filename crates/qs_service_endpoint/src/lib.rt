//! Connections as the endpoint of the event loop.
//!
//! The loop of `qs_service_reactor` serves any endpoint. `ConnectionsEndpoint` makes one of `Connections`, whatever their requests mean: a
//! connection that joins, a piece of bytes that arrives, and a connection that ends are one step each of the run of connections.
//!
//! What a step and a standing reply are in the loop's words is defined in `specs/Endpoint.antt`.
#![tactic(auto)]

mod endpoint;

pub use endpoint::ConnectionsEndpoint;
