//! What is removed before a graph is put into another.

/// Which quads are removed before those of a graph are put into another.
#[derive(Clone, Copy)]
pub enum Removal {
    Nothing,
    /// Those of the graph that they are put into.
    Target,
    /// Those of both graphs.
    Both,
}
