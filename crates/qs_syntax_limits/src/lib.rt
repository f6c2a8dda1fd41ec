//! The limits of a text, and the words that are left out: brackets that are open at once, over its tokens; elements of groups and
//! operands of chains, over its tree; and the first token that the grammar leaves out. Nothing here takes memory.
#![tactic(auto)]

pub mod bracket;
mod expression;
pub mod laws;
pub mod omission;
mod path;
mod pattern;
mod place;
pub mod query;
mod triples;
pub mod update;
mod words;

pub use crate::bracket::brackets;
pub use crate::omission::left_out;
pub use crate::query::large_query;
pub use crate::update::large_update;
