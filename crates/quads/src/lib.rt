//! The jobs of the program: from the bytes of files to the bytes that are printed.
//!
//! `run` does a job and prints what it results in; `run_owned` takes the job by value, and drops the bytes of its data early. `load_owned_service`
//! makes a service over the data of a file. `serve_events` serves it to many connections at once, and `serve` to one after another of a listener.
//! `put_refusal` prints why there is none.
//!
//! The definitions are in `specs/`: what is due of a job in `Due.antt`, what a run does with a sink in `Run.antt`, a service over data in
//! `Service.antt`, and the lines of refusals in `Refusal.antt`.
#![tactic(auto)]

mod events;
mod explain;
mod job;
pub mod laws;
mod load;
mod owned;
mod perform;
mod print;
mod put;
mod query;
mod refusal;
mod replay;
mod result;
mod update;

pub use events::{ServiceEndpoint, serve_events};
pub use job::{Job, Ran, TextKind};
pub use load::load_owned_service;
pub use owned::run_owned;
pub use perform::run;
pub use qs_service::serve;
pub use refusal::{Refusal, put_refusal};
