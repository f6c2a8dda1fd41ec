//! The procedures of triples, property paths, quads and tables of values (SPARQL 1.1 Query, 19.8, [48] to [52], [61] to [65] and [73]
//! to [99]), one for each rule of the grammar of `qs_syntax_tree`. `qs_syntax_tokens::parser` says what they answer.
#![tactic(auto)]

pub mod data;
mod paths;
pub mod quads;
pub mod triples;
