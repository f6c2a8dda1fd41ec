//! The procedures of group graph patterns and of solution modifiers (SPARQL 1.1 Query, 19.8, [18] to [27] and [53] to [69]), one for
//! each rule of the grammar of `qs_syntax_tree`. `qs_syntax_tokens::parser` says what they answer.
#![tactic(auto)]

pub mod groups;
pub mod modifiers;
