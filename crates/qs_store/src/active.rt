//! Which graph is read.

/// The graph that is read: the default graph as queries see it (`DefaultGraph`), the graph with a number, or none, which has no
/// triples. The number is that of the graph's name, as `find` tells it. Number 0 is the stored default graph, whatever queries see as
/// theirs. A number that is no graph's has no triples.
#[derive(Clone, Copy, Debug, PartialEq, Eq)]
pub enum Active {
    Default,
    Graph(u32),
    Empty,
}
