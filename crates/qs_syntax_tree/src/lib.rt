//! The trees of queries and updates as they are written, and the grammar that they are read by. The trees and the kinds of tokens
//! stand here; `specs/Rules.antt` has the grammar line by line, `specs/Words.antt` the tables of words and marks.
//!
//! Trees are as they are written: names by their spans, chains with all their operands, `a` and `[]` as such. ISURI is ISIRI, and
//! a keyword leaves no trace but its meaning.
#![tactic(auto)]

pub mod expression;
pub mod kind;
pub mod laws;
pub mod path;
pub mod pattern;
pub mod query;
pub mod term;
pub mod token;
pub mod triples;
pub mod update;
pub mod words;
