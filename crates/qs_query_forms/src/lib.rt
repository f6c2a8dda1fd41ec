//! SELECT, CONSTRUCT and ASK over a view of the store (SPARQL 1.1 Query, 15, 16 and 18).
//!
//! `request` has what a query asks for by its form, and `selection` and `construction` what a SELECT and a CONSTRUCT do. `sequence` has how many
//! solutions suffice, and what becomes of them in order. `placed` puts distinct rows in order, and `unordered` slices rows in place.
#![tactic(auto)]

mod answer;
mod construction;
mod distinct;
pub mod laws;
mod modifiers;
mod placed;
mod request;
mod selection;
mod sequence;
mod unordered;

pub use answer::{answer_query, solutions};
