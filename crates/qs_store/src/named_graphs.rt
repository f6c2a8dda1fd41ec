//! The named graphs that have entries.

ghost use Rattle.std.specs.Prelude.{◌≡◌, ◌↔◌, ◌++◌, IsTrue, IfOk, IfSome, IfNone};
ghost use Rattle.qs_index.specs.inner.Entries.{HaveFour};
ghost use Rattle.qs_store.specs.inner.Holding.{AreGraphsOf, AreWithin, HasGraph, IsNextIn};
ghost use Rattle.qs_store.specs.inner.Emptied.{AreEmptied};
ghost use Rattle.qs_store.specs.inner.Layers.{IsDraft, drafted};

use crate::emptied_graphs::{Emptied, are_out};
use crate::graphs::Graphs;
use crate::triples::Triples;
use qs_index::Index;
use std::alloc::{AllocError, Global};

/// The numbers of the named graphs that have entries in the index, ascending.
pub fn graphs_in(alloc: Global, index: &Index) -> Result<Vec<u32>, AllocError>
    ensures { IfOk result (λ graphs. AreGraphsOf index.now.entries graphs.items) }
{
    let mut graphs = Vec::new(alloc);
    let mut after = 0;
    'graphs: while let Some(graph) = index.next_graph(after) {
        graphs.push(graph)?;
        after = graph;
    }
    Ok(graphs)
}

/// The least graph number above `after` that an entry of one of two indexes has.
fn next_of_both(index: &Index, added: &Index, after: u32) -> Option<u32>
    ensures next { IfSome result (IsNextIn (index.now.entries ++ added.now.entries) after) }
    ensures none { IfNone result (AreWithin (index.now.entries ++ added.now.entries) after) }
{
    let Some(first) = index.next_graph(after) else {
        return added.next_graph(after);
    };
    let Some(other) = added.next_graph(after) else {
        return Some(first);
    };
    if first < other {
        Some(first)
    } else {
        Some(other)
    }
}

/// Whether an entry of the index has the graph.
fn has(index: &Index, graph: u32) -> bool
    requires four { HaveFour index.now.entries }
    ensures held { IsTrue result → HasGraph index.now.entries graph }
    ensures empty { HasGraph index.now.entries graph → IsTrue result }
{
    let mut triples = Triples::of_store(index, Graphs::One(graph), None, None, None);
    match triples.next() {
        None => false,
        Some(_) => true,
    }
}

/// Whether an entry of a draft has the graph, some of whose entries in the index may not be removed.
fn has_left(index: &Index, removed: &Index, added: &Index, graph: u32) -> bool
    requires draft { IsDraft index.now.entries removed.now.entries added.now.entries }
    requires four { HaveFour (drafted index.now.entries removed.now.entries added.now.entries) }
    ensures held { IsTrue result
        → HasGraph (drafted index.now.entries removed.now.entries added.now.entries) graph }
    ensures empty { HasGraph (drafted index.now.entries removed.now.entries added.now.entries) graph
        → IsTrue result }
{
    let mut triples = Triples::of_draft(
        index,
        removed,
        added,
        Graphs::One(graph),
        None,
        None,
        None,
    );
    match triples.next() {
        None => false,
        Some(_) => true,
    }
}

/// Whether an entry of a draft has the graph.
pub fn holds(index: &Index, removed: &Index, added: &Index, emptied: &Emptied, graph: u32) -> bool
    requires draft { IsDraft index.now.entries removed.now.entries added.now.entries }
    requires out { AreEmptied index.now.entries removed.now.entries emptied.now }
    requires four { HaveFour (drafted index.now.entries removed.now.entries added.now.entries) }
    ensures held { IsTrue result
        → HasGraph (drafted index.now.entries removed.now.entries added.now.entries) graph }
    ensures empty { HasGraph (drafted index.now.entries removed.now.entries added.now.entries) graph
        → IsTrue result }
{
    if are_out(index, removed, emptied, Graphs::One(graph)) {
        return has(added, graph);
    }
    has_left(index, removed, added, graph)
}

/// The numbers of the named graphs that have entries in a draft, ascending. A graph that has lost its last entry isn't among them.
pub fn graphs_in_draft(
    alloc: Global,
    index: &Index,
    removed: &Index,
    added: &Index,
    emptied: &Emptied,
) -> Result<Vec<u32>, AllocError>
    requires draft { IsDraft index.now.entries removed.now.entries added.now.entries }
    requires out { AreEmptied index.now.entries removed.now.entries emptied.now }
    requires four { HaveFour (drafted index.now.entries removed.now.entries added.now.entries) }
    ensures { IfOk result
        (λ graphs. AreGraphsOf (drafted index.now.entries removed.now.entries added.now.entries)
        graphs.items) }
{
    let mut graphs = Vec::new(alloc);
    let mut after = 0;
    'graphs: while let Some(graph) = next_of_both(index, added, after) {
        if holds(index, removed, added, emptied, graph) {
            graphs.push(graph)?;
        }
        after = graph;
    }
    Ok(graphs)
}
