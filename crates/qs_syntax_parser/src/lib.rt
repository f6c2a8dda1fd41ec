//! The parser: from a list of tokens to the one tree that it spells, or to the first token that is to blame. The procedures of
//! queries and updates stand here, one for each rule of the grammar of `qs_syntax_tree`, over those of expressions, data and patterns in
//! the crates below. `qs_syntax_tokens::parser` says what they answer.
#![tactic(auto)]

pub mod parse;
mod queries;
mod updates;

pub use crate::parse::{query, update};
