//! The graphs of which a draft has removed all entries of its store.
//!
//! No reader of a draft goes over the store's entries of a graph that is known to be one. Of the default graph, of all named graphs and of
//! all graphs the counts of entries tell it. Another graph is noted when CLEAR, DROP, COPY or MOVE empties it; one that DELETE empties
//! isn't. An entry that is removed stays so until the end of the draft.

ghost use Rattle.std.specs.Prelude.{◌≡◌, ◌↔◌, [], IsTrue, OnOk, OnErr, Contains};
ghost use Rattle.std.specs.BTreeSet.{insert_key};
ghost use Rattle.std.specs.Ordering.{nat_cmp};
ghost use Rattle.qs_store.specs.declared.graphs.Graphs.TheVariants.{One, Named};
ghost use Rattle.qs_store.specs.inner.Emptied.{AreEmptied, AreOut, IsRemoval};
ghost use Rattle.qs_store.specs.inner.Layers.{drafted};

use crate::graphs::Graphs;
use crate::kept::Kept;
use qs_index::Index;
use std::alloc::{AllocError, Global};
use std::collections::BTreeSet;
use std::marker::Model;

/// The numbers of graphs that were emptied. Contracts see them as an ascending list.
#[derive(Drop)]
pub struct Emptied {
    graphs: BTreeSet<u32>,
}

impl Model for Emptied {
    ghost use Rattle.std.specs.Prelude.{ℕ, List};

    ghost Value = { List ℕ };

    ghost view = { λ e. e.graphs.keys };
}

impl Emptied {
    /// No graphs. It takes no memory.
    pub fn new(alloc: Global) -> Emptied
        ensures { result ≡ [] }
    {
        Emptied {
            graphs: BTreeSet::new(alloc),
        }
    }

    /// Whether the graph is one of them.
    pub fn contains(&self, graph: u32) -> bool
        ensures { IsTrue result ↔ Contains self.now graph }
    {
        self.graphs.contains(&graph)
    }

    /// Puts the graph among them. Where it is refused they stay.
    pub fn note(&mut self, graph: u32) -> Result<(), AllocError>
        ensures noted { OnOk result (self.new ≡ insert_key nat_cmp self.old graph) }
        ensures refused { OnErr result (self.new ≡ self.old) }
    {
        match self.graphs.insert(graph) {
            Ok(_) => Ok(()),
            Err(_) => Err(AllocError),
        }
    }
}

/// Whether all entries of named graphs are removed.
fn is_named_out(index: &Index, removed: &Index) -> bool
    requires { IsRemoval index.now.entries removed.now.entries }
    ensures { IsTrue result → AreOut Named index.now.entries removed.now.entries }
{
    index.named_len() == removed.named_len()
}

/// Whether all entries of the default graph are removed.
fn is_default_out(index: &Index, removed: &Index) -> bool
    requires { IsRemoval index.now.entries removed.now.entries }
    ensures { IsTrue result → AreOut (One 0) index.now.entries removed.now.entries }
{
    index.len() + removed.named_len() == removed.len() + index.named_len()
}

/// Whether all entries are removed.
pub fn is_all_out(index: &Index, removed: &Index) -> bool
    requires { IsRemoval index.now.entries removed.now.entries }
    ensures { IsTrue result → drafted index.now.entries removed.now.entries [] ≡ [] }
{
    index.len() == removed.len()
}

/// Whether all entries of the graph are known to be removed.
fn is_out(index: &Index, removed: &Index, emptied: &Emptied, graph: u32) -> bool
    requires removal { IsRemoval index.now.entries removed.now.entries }
    requires emptied { AreEmptied index.now.entries removed.now.entries emptied.now }
    ensures { IsTrue result → AreOut (One graph) index.now.entries removed.now.entries }
{
    if graph == 0 {
        return is_default_out(index, removed);
    }
    is_named_out(index, removed) || emptied.contains(graph)
}

/// Whether all entries of these graphs are known to be removed.
pub fn are_out(index: &Index, removed: &Index, emptied: &Emptied, graphs: Graphs) -> bool
    requires removal { IsRemoval index.now.entries removed.now.entries }
    requires emptied { AreEmptied index.now.entries removed.now.entries emptied.now }
    ensures { IsTrue result → AreOut graphs index.now.entries removed.now.entries }
{
    match graphs {
        Graphs::Nothing => true,
        Graphs::One(graph) => is_out(index, removed, emptied, graph),
        Graphs::Named => is_named_out(index, removed),
    }
}

/// Whether all entries of the graph are removed. It goes over them up to the first that isn't.
pub fn is_emptied(index: &Index, removed: &Index, graph: u32) -> bool
    ensures { IsTrue result → AreOut (One graph) index.now.entries removed.now.entries }
{
    let _each = index.entries();
    let mut kept = Kept::new(
        index.scan(graph, None, None, None),
        removed.scan(graph, None, None, None),
    );
    match kept.next() {
        None => true,
        Some(_) => false,
    }
}
