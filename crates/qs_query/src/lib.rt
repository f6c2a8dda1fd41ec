//! Queries over a view of the store (SPARQL 1.1 Query).
#![tactic(auto)]

mod query;

pub use qs_algebra_solutions::{Answer, Row};
pub use qs_query_forms::solutions;
pub use query::answer;
