//! Expressions of the algebra and what they mean in a solution (SPARQL 1.1 Query, 17).
//!
//! Variables have numbers, and chains are lists, so that no tree is deeper than the brackets of its text. `value` evaluates an
//! expression over anything that gives variables their terms (`Bindings`); it makes no term, and takes memory for CONCAT alone. `eval_terms`
//! makes the term, `truth` is the effective boolean value, `holds` what FILTER asks, and `order_key_terms` what ORDER BY sorts by.
//!
//! The definitions stand in `specs/`: truth with errors in `Truth.antt`, calls in `Calls.antt`, expressions in `Meaning.antt`, which
//! ones take memory in `inner/Makes.antt`; how answers stand to what is due in `inner/Comes.antt`.
#![tactic(auto)]

mod bindings;
mod call;
mod evaluate;
mod expr;
mod fault;
mod joined;
pub mod laws;
mod make;
mod relation;

pub use bindings::Bindings;
pub use evaluate::{truth, value};
pub use expr::{Addend, Expr};
pub use fault::ExprFault;
pub use make::{ebv_terms, eval_terms, holds, order_key_terms};
pub use qs_syntax_tree::expression::{BinaryFunction, Comparison, Sign, UnaryFunction};
