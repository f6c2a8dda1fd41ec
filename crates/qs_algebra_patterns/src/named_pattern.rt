//! Patterns that know their variables.

use crate::pattern::PatternNode;
use qs_terms::Text;
use sqlite_items::Items;

/// A pattern with the names of its variables: the number of a variable is its place among them.
#[derive(Drop)]
pub struct Pattern {
    /// Without their `?` or `$`, each once.
    pub names: Items<Text>,
    /// The operators.
    pub root: PatternNode,
}
