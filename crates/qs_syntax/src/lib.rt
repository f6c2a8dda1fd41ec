//! From a text to its query or its update, with the names resolved, or to the one fault that is due. `specs/Outcome.antt` says what a
//! text results in, fault by fault from top to bottom in their order. A query lists its variables once each. Below that stand the tokens
//! of a text by kind (`specs/Kinds.antt`) and the place of their fault where they spell no tree (`specs/Text.antt`).
#![tactic(auto)]

mod drop_tree;
mod frequent;
pub mod laws;
pub mod parse;
mod resolve_and_check;
pub mod token;
mod token_check;
mod tree;

pub use crate::drop_tree::{drop_query, drop_update};
pub use crate::parse::{parse_query, parse_update};
pub use crate::token::tokens;
pub use qs_syntax_ast::pattern::Group;
pub use qs_syntax_ast::query::Query;
pub use qs_syntax_ast::update::Update;
