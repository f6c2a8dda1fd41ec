//! The tokens of SPARQL: the one token list of a text, or the first place at which no token begins. The table of tokens stands
//! in `specs/Table.antt`, token lists in `specs/Lexes.antt`.
#![tactic(auto)]

mod gap;
mod iri_state;
pub mod laws;
mod letter;
pub mod lexer;
mod longest;
mod mark_state;
mod name_state;
mod number_state;
mod quote;
mod run;
mod state;
mod steady;
mod string_state;
pub mod token;
pub mod token_list;

pub use crate::lexer::Lexer;
pub use crate::token::{Class, Token};
pub use crate::token_list::tokens;
