//! Plans of queries and of updates as text: the stages that would be run over a view of the store, one a line, in the order of evaluation.
//!
//! `explain` goes from a text to its explanation. `lines` writes the stages of a plan, `words` a stage and a variable, `facts` what is told
//! of a triple or a path, and `reason` why a group is evaluated by itself. `bound` knows which variables the rows before a stage bind, and
//! `columns` by which columns the plan of a DISTINCT goes. `laws` has what holds of refusals. Nothing is carried out. What an explanation
//! results in is defined in `specs/Explained.antt`.
#![tactic(auto)]

mod bound;
mod columns;
mod explain;
mod facts;
pub mod laws;
mod lines;
mod operation;
mod reason;
mod words;

pub use explain::{explain_query, explain_update};
