//! Which entries are read.

ghost use Rattle.std.specs.Prelude.{◌≡◌};
ghost use Rattle.qs_store.specs.inner.Scans.{graphs_of};

use crate::active::Active;
use crate::default_graph::DefaultGraph;

/// The graphs whose entries are read: none, the one with a number, or all named ones.
#[derive(Clone, Copy)]
pub enum Graphs {
    Nothing,
    One(u32),
    Named,
}

/// The graphs whose entries are those of the active graph, where queries see this default graph.
pub fn graphs_of(active: Active, default_graph: DefaultGraph) -> Graphs
    ensures { result ≡ graphs_of default_graph active }
{
    match active {
        Active::Empty => Graphs::Nothing,
        Active::Graph(number) => Graphs::One(number),
        Active::Default => match default_graph {
            DefaultGraph::Stored => Graphs::One(0),
            DefaultGraph::Union => Graphs::Named,
        },
    }
}
