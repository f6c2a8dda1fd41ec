//! The rules that a query or an update keeps beyond the grammar (SPARQL 1.1 Query, 18.2.1 and the notes on the grammar in 19.8;
//! 19.6 for the labels of blank nodes). Lists of its variables: those in scope of a group, those that stand anywhere in a group, and
//! each variable once.
#![tactic(auto)]

mod blocks;
mod first;
mod in_expression;
mod in_group;
mod key;
mod labels;
pub mod laws;
mod met;
mod name;
mod name_list;
mod query;
mod runs;
mod scope;
mod selected;
mod tables;
mod update;

pub use first::{first_variables, number_names};
pub use in_group::group_variables;
pub use name_list::NameList;
pub use query::query_keeps_scope;
pub use scope::in_scope;
pub use update::update_keeps_scope;
