//! Expressions over rows of cells (SPARQL 1.1 Query, 17).
//!
//! A `Cell` is the number of a term in the dictionary, or the place of one in a `Scratch` table, which holds the terms that the
//! dictionary lacks. Each term has one cell, so cells are equal exactly where their terms are. A `Row` has one optional cell for each
//! variable. `eval` answers the cell of an expression's value, `holds` what FILTER asks, `ebv` and `order_key` read a cell. A
//! `Condition` is prepared once and asked of many rows.
//!
//! The definitions are in `specs/`: what cells and rows denote in `Cell.antt`, rows by their cells in `Row.antt`, the scratch table
//! in `Scratch.antt`, what `eval` answers in `Evaluated.antt`, prepared conditions in `Condition.antt`.
#![tactic(auto)]

mod among;
mod cell;
mod compact;
mod condition;
mod constant;
mod evaluate;
pub mod laws;
mod members;
mod part;
mod parts;
mod reading;
mod row;
mod scratch;

pub use cell::{Cell, is_same};
pub use condition::Condition;
pub use evaluate::{ebv, eval, holds, order_key};
pub use qs_expr_meaning::{Expr, ExprFault};
pub use qs_expr_values::Key;
pub use row::Row;
pub use scratch::{Scratch, intern, intern_owned, term, value};
