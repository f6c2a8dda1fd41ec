//! Written forms: answers as JSON (SPARQL 1.1 Query Results JSON Format), graphs as N-Triples, faults as lines.
//!
//! What is written is defined in `specs/`: the JSON value of an answer in `Json.antt`, the lines of faults in `Lines.antt`; the text of
//! a graph is that of `qs_nquads`. Running out of memory is the only error of these calls.
#![tactic(auto)]

mod answer;
mod columns;
mod line;
mod solution;
mod term;
mod triples;

pub use answer::{json, json_after};
pub use line::{data_fault_line, fault_line, fault_status, out_of_memory_line};
pub use triples::{ntriples, ntriples_after};
