//! Solutions of patterns, and what queries are answered with (SPARQL 1.1 Query, 16 and 18).
#![tactic(auto)]

mod answer;
mod solution;

pub use answer::Answer;
pub use solution::Row;
