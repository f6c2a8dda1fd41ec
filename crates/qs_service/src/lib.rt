//! Connections over one store (SPARQL 1.1 Protocol, 2).
//!
//! A `Service` is a table of connections whose requests mean what SPARQL says. `StoreMeaning` makes the reply of a request, by `carry`: by
//! what its `text` means over the store.
//!
//! The definitions are in `specs/`: what texts mean in `Language.antt`, what requests are carried out over in `State.antt`, and the reply
//! of one that is carried out in `Carried.antt`. The steps of connections are in `qs_service_connections`.
#![tactic(auto)]

mod carry;
mod service;
mod store_meaning;
mod text;

pub use qs_service_connections::{Reply, ServeFault, Served, ServiceFault, serve};
pub use service::{OverStore, Service};
pub use store_meaning::StoreMeaning;
