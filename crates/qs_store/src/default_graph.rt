//! Which default graph queries see.

/// The default graph of queries over a store: the stored one, or the union of all named graphs, without the stored one.
#[derive(Clone, Copy, Debug, PartialEq, Eq)]
pub enum DefaultGraph {
    Stored,
    Union,
}
