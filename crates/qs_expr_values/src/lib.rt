//! The values of terms: integers, booleans and strings, what is true of a term, and how terms compare and sort
//! (SPARQL 1.1 Query, 15.1 and 17.1 to 17.4).
//!
//! A `Value` is a term that stands somewhere, or a literal or an IRI that was computed and isn't made yet. What is asked of one or two
//! values takes no memory; `make_term` makes the term. `order_key` makes what ORDER BY sorts by. `TermValue` is what a table keeps of a
//! term, and `KnownTerm` a term beside that.
//!
//! The definitions stand in `specs/`: integers, their range and their forms in `Number.antt`; worth, truth and comparisons in
//! `Values.antt`; texts in texts and language ranges in `Text.antt`; the order of ORDER BY in `Sorting.antt`; what a table keeps of a term
//! in `TermValue.antt`; the term that a value denotes in `Value.antt`.
#![tactic(auto)]

mod datatype;
mod key;
mod known_term;
pub mod laws;
mod make;
mod number;
mod same;
mod term_value;
mod text;
mod value;
mod worth;

pub use datatype::Datatype;
pub use key::{Key, order_key};
pub use known_term::KnownTerm;
pub use make::make_term;
pub use number::{add, integer_of, multiply, negate, subtract};
pub use same::is_same;
pub use term_value::TermValue;
pub use text::{contains, count, ends, matches_range, starts};
pub use value::{Value, boolean_form, digits, ebv, equal, is_literal};
pub use worth::{Worth, compare, worth_of};
