//! The rows that triple patterns, the names of graphs and property paths make of a row over a view of the store (SPARQL 1.1 Query, 18.5).
//!
//! What can be looked up once for a plan is prepared: `prepare_triple` and `prepare_look` put the numbers of terms in place of them. A
//! source of rows (`TripleRows`, `QuadRows`, `NameRows`, `PathRows`) is opened for a row and hands out its rows one by one; contracts see it as the
//! list of the rows that are still to come. What these rows denote is defined in `specs/inner/Makes.antt`.
#![tactic(auto)]

mod bind;
mod bound;
mod ends;
mod fed;
mod kept;
mod lawful;
mod look;
mod names;
mod nodes;
mod opened;
mod paths;
mod pattern;
mod quads;
mod skip;
mod triples;

pub use bound::{RowEnds, row_ends};
pub use fed::fed_pairs;
pub use kept::{PathPairs, path_pairs};
pub use lawful::content_is_lawful;
pub use look::{PreparedLook, graph_of_look, prepare_look};
pub use names::{NameRows, graph_numbers, is_named_graph, name_rows, names_graph};
pub use paths::{PathRows, path_rows};
pub use pattern::{Place, PreparedTriple, prepare_triple};
pub use quads::{QuadRows, gives_number, joined_quad_rows, misses, quad_rows};
pub use triples::{TripleRows, open_triple, triple_rows};
