//! The answers of the forms of queries.

use crate::solution::Row;
use qs_terms::{Quad, Text};
use sqlite_items::Items;

/// What a query is answered with, by its form (SPARQL 1.1 Query, 16).
#[derive(Debug, Drop)]
pub enum Answer {
    /// SELECT: the names of the variables without their `?` or `$`, and the solutions, whose terms stand in the order of the names.
    Solutions { vars: Items<Text>, rows: Items<Row> },
    /// ASK: whether there is a solution.
    Truth(bool),
    /// CONSTRUCT: quads without a graph, each once.
    Graph(Items<Quad>),
}
