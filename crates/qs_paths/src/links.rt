//! The pairs of a path as links between nodes that have places.

ghost use Rattle.std.specs.Prelude.{◌≡◌, ℕ, ◌<◌, ◌++◌, [], ◌∷◌, false, true, length, map, All, slice_index_or, if◌then◌else◌, IfOk, IfSome, OnOk};
ghost use Rattle.std.specs.List.{list_any};
ghost use Rattle.qs_terms.specs.Term.{same_term};
ghost use Rattle.qs_terms.specs.declared.term.Term.{Term};
ghost use Rattle.qs_paths_meaning.specs.inner.Links.{AreBelow, IsMarked, leads_to, put_at, rows_of, same_number, with_numbers};
ghost use Rattle.qs_paths.specs.inner.Links.{IsWeb, LeadAlike, LinkPairs, StandsAt};
ghost use Rattle.qs_paths.specs.inner.Nodes.{AreApart, names};

use crate::node::NodePair;
use crate::reached::Reached;
use indexmap::IndexSet;
use std::alloc::{AllocError, Global};

/// Nodes with their places, and at each place those of the nodes that pairs lead to from its node, one for each pair.
#[derive(Drop)]
pub struct Links {
    pub nodes: IndexSet<u64>,
    pub next: Vec<Vec<usize>>,
}

/// A node with its place.
#[derive(Clone, Copy)]
pub struct Placed {
    pub place: usize,
    pub node: u64,
}

/// Puts the number at the end of the row at this place.
fn push_at(rows: &mut Vec<Vec<usize>>, at: usize, number: usize) -> Result<(), AllocError>
    requires { at < length rows.old.items }
    ensures { OnOk result (rows_of rows.new.items ≡ put_at (rows_of rows.old.items) at number) }
{
    let row = &mut rows[at];
    row.push(number)?;
    Ok(())
}

impl Links {
    fn new(alloc: Global) -> Links
        ensures web { IsWeb result.nodes.keys (rows_of result.next.items) }
        ensures links { LinkPairs result.nodes.keys (rows_of result.next.items) [] }
    {
        Links {
            nodes: IndexSet::new(alloc),
            next: Vec::new(alloc),
        }
    }

    /// The place of the node; the next one where it has none yet.
    fn place(&mut self, alloc: Global, node: u64) -> Result<usize, AllocError>
        requires { IsWeb self.old.nodes.keys (rows_of self.old.next.items) }
        ensures web { OnOk result (IsWeb self.new.nodes.keys (rows_of self.new.next.items)) }
        ensures kept { OnOk result ((at n : ℕ) → StandsAt self.old.nodes.keys at n
            → StandsAt self.new.nodes.keys at n) }
        ensures leads { OnOk result (LeadAlike self.old.nodes.keys (rows_of self.old.next.items)
            self.new.nodes.keys (rows_of self.new.next.items)) }
        ensures at { IfOk result (λ at. StandsAt self.new.nodes.keys at node) }
    {
        let (place, is_new) = self.nodes.insert_full(node)?;
        if !is_new {
            return Ok(place);
        }
        self.next.push(Vec::new(alloc))?;
        Ok(place)
    }

    /// Has a link lead from the left end of the pair to its right end.
    fn link(&mut self, alloc: Global, pair: NodePair) -> Result<(), AllocError>
        requires { IsWeb self.old.nodes.keys (rows_of self.old.next.items) }
        ensures web { OnOk result (IsWeb self.new.nodes.keys (rows_of self.new.next.items)) }
        ensures leads { OnOk result ((name : ℕ → Term) → AreApart name → (x : Term)
            → leads_to (names name self.new.nodes.keys) (rows_of self.new.next.items) x
            ≡ leads_to (names name self.old.nodes.keys) (rows_of self.old.next.items) x
            ++ (if same_term x (name pair.left) then name pair.right ∷ [] else [])) }
    {
        let from = self.place(alloc, pair.left)?;
        let to = self.place(alloc, pair.right)?;
        push_at(&mut self.next, from, to)?;
        Ok(())
    }

    /// The nodes with their places; those that no link has yet get the next ones.
    pub fn placed(&mut self, alloc: Global, nodes: &[u64]) -> Result<Vec<Placed>, AllocError>
        requires { IsWeb self.old.nodes.keys (rows_of self.old.next.items) }
        ensures web { OnOk result (IsWeb self.new.nodes.keys (rows_of self.new.next.items)) }
        ensures leads { OnOk result (LeadAlike self.old.nodes.keys (rows_of self.old.next.items)
            self.new.nodes.keys (rows_of self.new.next.items)) }
        ensures nodes { IfOk result (λ all. map (λ s. s.node) all.items ≡ nodes.now) }
        ensures at { IfOk result (λ all. All (λ s. StandsAt self.new.nodes.keys s.place s.node)
            all.items) }
    {
        let mut all = Vec::with_capacity(alloc, nodes.len())?;
        for node in nodes {
            let place = self.place(alloc, *node)?;
            all.push(Placed { place, node: *node })?;
        }
        Ok(all)
    }

    /// A place that a link leads to from this one and that was reached, if any was.
    pub fn reached_from(&self, place: usize, reached: &Reached) -> Option<usize>
        requires place { place < length self.now.next.items }
        requires below { All (AreBelow (length reached.now.rounds.items))
            (rows_of self.now.next.items) }
        requires marked { IsMarked reached.now.round reached.now.rounds.items
            reached.now.numbers.items }
        ensures row { IfSome result
            (λ n. list_any (same_number n) (slice_index_or (rows_of self.now.next.items) place [])
            ≡ true) }
        ensures reached { IfSome result (λ n. list_any (same_number n) reached.now.numbers.items
            ≡ true) }
    {
        reached.any_of(self.next[place].as_slice())
    }

    /// Puts the places that links lead to from this one at the end of what was reached, each if it isn't there yet.
    pub fn lead_on(&self, place: usize, found: &mut Reached) -> Result<(), AllocError>
        requires place { place < length self.now.next.items }
        requires below { All (AreBelow (length found.old.rounds.items))
            (rows_of self.now.next.items) }
        requires marked { IsMarked found.old.round found.old.rounds.items found.old.numbers.items }
        ensures numbers { OnOk result
            (found.new.numbers.items ≡ with_numbers found.old.numbers.items
            (slice_index_or (rows_of self.now.next.items) place [])) }
        ensures long { OnOk result (length found.new.rounds.items ≡ length found.old.rounds.items) }
        ensures marked { OnOk result
            (IsMarked found.new.round found.new.rounds.items found.new.numbers.items) }
    {
        found.add_all(self.next[place].as_slice())?;
        Ok(())
    }
}

/// The links of the pairs.
pub fn links_of(alloc: Global, pairs: &[NodePair]) -> Result<Links, AllocError>
    ensures web { IfOk result (λ l. IsWeb l.nodes.keys (rows_of l.next.items)) }
    ensures links { IfOk result (λ l. LinkPairs l.nodes.keys (rows_of l.next.items) pairs.now) }
{
    let mut links = Links::new(alloc);
    for pair in pairs {
        links.link(alloc, *pair)?;
    }
    Ok(links)
}
