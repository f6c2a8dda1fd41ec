//! The patterns of the algebra, and what they mean: the solutions of a pattern in a graph of a dataset.
#![tactic(auto)]

mod named_pattern;
mod pattern;
mod table;

pub use named_pattern::Pattern;
pub use pattern::{BasicPattern, PathPattern, PatternNode, Slot, Step, TriplePattern};
pub use table::{Table, rows_copy};
