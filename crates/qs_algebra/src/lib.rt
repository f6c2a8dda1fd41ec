//! Queries as patterns of the algebra (SPARQL 1.1 Query, 18.2), and the variables that a pattern binds: those that each of its solutions
//! binds, and those that some solution may bind.
#![tactic(auto)]

mod basic;
mod blocks;
mod bound_columns;
mod certain_variables;
mod expression;
mod flags;
mod hidden;
mod mentioned;
mod parts;
mod pattern;
mod possible_variables;
mod query;
mod table;
mod translation;

pub use blocks::translate_blocks;
pub use certain_variables::certain;
pub use expression::expr_of;
pub use pattern::drop_pattern;
pub use possible_variables::possible;
pub use qs_algebra_patterns::Pattern;
pub use query::{translate, translate_where, translate_where_with};
pub use translation::group_pattern;
