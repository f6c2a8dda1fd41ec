//! Updates of a store, whole or not at all (SPARQL 1.1 Update, 3 and 4).
//!
//! `effect` is what an operation does, `data` what a run of INSERT DATA and DELETE DATA does, and `modified` what templates and solutions do;
//! `lawful` says why the numbers of blank nodes suffice after it, and `carried` makes the change that it is. `whole_graphs` goes over a
//! draft's entries. `draft` carries operations out over a draft of the store by their form, and `request` commits it or leaves the store as
//! it was.
#![tactic(auto)]

mod carried;
mod data;
mod draft;
mod effect;
mod graphs;
mod lawful;
mod modified;
mod request;
mod templates;
mod whole_graphs;

pub use effect::Effect;
pub use request::update;
