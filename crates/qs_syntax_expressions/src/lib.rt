//! The procedures of expressions (SPARQL 1.1 Query, 19.8, [110] to [121]), one for each rule of the grammar of `qs_syntax_tree`.
//! `qs_syntax_tokens::parser` says what they answer.
#![tactic(auto)]

pub mod expressions;
mod operators;
