//! The entries of a store in one index, and apart in two others those that a draft removes and adds.
//!
//! An entry that a draft removed and gets again stays removed, and is added: so the removed ones only grow until the draft's end.
//!
//! Each change of a draft makes a buffer long enough and sets room aside. A commit copies the draft's entries of each order to the buffer, and
//! from there into the same order of the store or out of it: so it takes no memory, and sorts none of them. The buffer is given back at the end
//! of the draft.

ghost use Rattle.std.specs.Prelude.{◌≡◌, ℕ, ◌<◌, ◌≤◌, ◌+◌, ◌++◌, ◌∷◌, ◌↔◌, Bool, List, [], length, map, take, None, IsTrue, IfOk, OnOk, OnErr, Contains, cond};
ghost use Rattle.std.specs.Str.{bytes_eq};
ghost use Rattle.qs_terms.specs.Bag.{Distinct};
ghost use Rattle.std.specs.List.Sorted.{IsPermutation};
ghost use Rattle.qs_index.specs.inner.Agreeing.{agreeing};
ghost use Rattle.qs_index.specs.inner.Entries.{HaveFour, IsUnion, IsDifference};
ghost use Rattle.qs_index.specs.inner.Entry.{IsAscending};
ghost use Rattle.qs_index.specs.inner.Graph.{named_entries};
ghost use Rattle.qs_store.specs.Change.{IsChanged};
ghost use Rattle.qs_store.specs.inner.Copied.{AreCopies, AreNamed, IsWithoutGraph};
ghost use Rattle.qs_store.specs.inner.Holding.{AreGraphsOf, HasGraph};
ghost use Rattle.qs_store.specs.inner.Emptied.{AreEmptied, IsRemoval, RemovesGraph};
ghost use Rattle.qs_store.specs.inner.Missing.{IsMissing, IsUnionWith, MayBeMissing};
ghost use Rattle.qs_store.specs.inner.Layers.{drafted, IsPartOf};
ghost use Rattle.qs_store.specs.Same.{SameSet};
ghost use Rattle.qs_store.specs.inner.Scans.{AreNamedQuadsOf, AreTriplesOf, AreTriplesOfAnyhow};

use crate::emptied_graphs::{Emptied, are_out, is_all_out, is_emptied};
use crate::graphs::Graphs;
use crate::named_graphs::{graphs_in, graphs_in_draft, holds};
use crate::named_quads::NamedQuads;
use crate::triples::Triples;
use qs_index::permutation::Lead;
use qs_index::{Index, PagePosition, Scan, count_named, sort};
use std::alloc::{AllocError, Global};
use std::marker::Model;

/// The entries of a store, and of its draft: those of the index without the removed, and the added. For a commit there is room in the
/// index for what is added, and in `batch` for either list. Where no entry that is added is of a named graph, none is set aside in the
/// index for such. Of the `emptied` graphs the draft has no entries but the added ones.
#[derive(Drop)]
pub struct Layers {
    alloc: Global,
    index: Index,
    removed: Index,
    added: Index,
    emptied: Emptied,
    batch: Vec<[u32; 4]>,
}

impl Model for Layers {
    ghost use Rattle.std.specs.Prelude.{length};
    ghost use Rattle.qs_store.specs.inner.Layers.{LayersState, AreLayers, drafted};

    ghost Value = { LayersState };

    ghost view = { λ l. record {
      base = l.index.entries;
      draft = drafted l.index.entries l.removed.entries l.added.entries;
    } };

    ghost invariant = { λ l. AreLayers l.index l.removed l.added l.emptied (length l.batch.items) };
}

/// Where a look for the first of some entries begins.
const FRONT: PagePosition = PagePosition { page: 0, at: 0 };

/// How many entries there are, and how many of them are of named graphs.
#[derive(Clone, Copy)]
struct Counts {
    all: usize,
    named: usize,
}

/// How many entries a list has.
fn count(entries: &[[u32; 4]]) -> Counts
    ensures all { result.all ≡ length entries.now }
    ensures named { result.named ≡ length (named_entries entries.now) }
{
    Counts {
        all: entries.len(),
        named: count_named(entries),
    }
}

/// A count and some more, if it has a number.
fn sum(count: u128, more: usize) -> Result<usize, AllocError>
    ensures { IfOk result (λ sum. sum ≡ count + more) }
{
    let sum = count.checked_add(more as u128).ok_or(AllocError)?;
    usize::try_from(sum).map_err(|_| AllocError)
}

/// How many entries the index will have at most with so many more.
fn with_more(index: &Index, more: Counts) -> Result<Counts, AllocError>
    ensures all { IfOk result (λ most. most.all ≡ length index.now.entries + more.all) }
    ensures named { IfOk result (λ most. most.named ≡ length (named_entries index.now.entries)
        + more.named) }
{
    let all = sum(index.len(), more.all)?;
    let named = sum(index.named_len(), more.named)?;
    Ok(Counts { all, named })
}

/// Makes room for so many inserts.
fn reserve(index: &mut Index, counts: Counts) -> Result<(), AllocError>
    ensures entries { index.new.entries ≡ index.old.entries }
    ensures kept { index.old.spare ≤ index.new.spare }
    ensures named_kept { index.old.named_spare ≤ index.new.named_spare }
    ensures ok { OnOk result (counts.all ≤ index.new.spare) }
    ensures named_ok { OnOk result (counts.named ≤ index.new.named_spare) }
    ensures none { counts.named ≡ 0 → index.new.named_spare ≡ index.old.named_spare }
{
    index.reserve_for(counts.all as u64, counts.named as u64)
}

/// Takes the entries of `removed` out of the index, by way of `batch`.
fn take_all(index: &mut Index, removed: &Index, batch: &mut [[u32; 4]])
    requires { length removed.now.entries ≤ length batch.old }
    ensures difference { IsDifference index.old.entries removed.now.entries index.new.entries }
    ensures spare { index.old.spare ≤ index.new.spare }
    ensures named_spare { index.old.named_spare ≤ index.new.named_spare }
{
    index.remove_all_of(removed, batch);
}

/// Puts the entries of `added` into the index, which has room for them, by way of `batch`.
fn put_all(index: &mut Index, added: &Index, batch: &mut [[u32; 4]])
    requires batch { length added.now.entries ≤ length batch.old }
    requires spare { length added.now.entries ≤ index.old.spare }
    requires named_spare { length (named_entries added.now.entries) ≤ index.old.named_spare }
    ensures union { IsUnion index.old.entries added.now.entries index.new.entries }
    ensures spare { index.old.spare ≤ index.new.spare + length added.now.entries }
    ensures named_spare { index.old.named_spare ≤ index.new.named_spare
        + length (named_entries added.now.entries) }
{
    index.insert_all_of(added, batch);
}

/// Makes the index what a draft of it would make it, by way of `batch`, and puts the entries in, too. Where there are neither entries of the
/// index nor added ones it is made of these alone, which sets no room aside. Where it is refused the entries of the index stay.
fn put_together(
    alloc: Global,
    index: &mut Index,
    removed: &Index,
    added: &Index,
    batch: &mut [[u32; 4]],
    entries: &mut [[u32; 4]],
) -> Result<(), AllocError>
    requires removed { length removed.now.entries ≤ length batch.old }
    requires added { length added.now.entries ≤ length batch.old }
    ensures changed { OnOk result
        (IsChanged (drafted index.old.entries removed.now.entries added.now.entries) [] entries.old
        index.new.entries) }
    ensures once { OnOk result (IsAscending index.new.entries) }
    ensures refused { OnErr result (index.new.entries ≡ index.old.entries) }
    ensures spare { OnErr result (index.old.spare ≤ index.new.spare) }
    ensures named_spare { OnErr result (index.old.named_spare ≤ index.new.named_spare) }
{
    if index.len() == 0 && added.len() == 0 {
        let made = Index::from_entries(alloc, entries)?;
        set(index, made);
        return Ok(());
    }
    let most = with_more(added, count(entries))?;
    reserve(index, most)?;
    take_all(index, removed, batch);
    put_all(index, added, batch);
    index.insert_all(entries);
    Ok(())
}

/// Puts a value in the place of another, which is dropped by one call.
fn set<T: Drop>(slot: &mut T, value: T)
    ensures { slot.new ≡ value }
{
    *slot = value;
}

/// Those of the entries that stand in the index.
fn standing(alloc: Global, index: &Index, entries: &[[u32; 4]]) -> Result<Vec<[u32; 4]>, AllocError>
    ensures { IfOk result (λ part. IsPartOf entries.now part.items (Contains index.now.entries)) }
{
    let mut part = Vec::new(alloc);
    let mut from = FRONT;
    for entry in entries {
        if index.contains_from(&mut from, entry) {
            part.push(*entry)?;
        }
    }
    Ok(part)
}

/// Whether the index lacks the entry, which is looked for about `from` first, or it is removed.
fn is_missing(index: &Index, removed: &Index, from: &mut PagePosition, entry: &[u32; 4]) -> bool
    ensures { IsTrue result ↔ IsMissing index.now.entries removed.now.entries entry.now }
{
    !index.contains_from(from, entry) || removed.contains(entry)
}

/// Whether the entry may be missing once those that are `taken` are removed, too: any may where there are such.
fn may_be_missing(
    index: &Index,
    removed: &Index,
    taken: &[[u32; 4]],
    from: &mut PagePosition,
    entry: &[u32; 4],
) -> bool
    ensures { IsTrue result ↔ MayBeMissing index.now.entries removed.now.entries taken.now
        entry.now }
{
    !taken.is_empty() || is_missing(index, removed, from, entry)
}

/// Those of the entries that may be missing once those that are `taken` are removed, too.
fn missing(
    alloc: Global,
    index: &Index,
    removed: &Index,
    taken: &[[u32; 4]],
    entries: &[[u32; 4]],
) -> Result<Vec<[u32; 4]>, AllocError>
    ensures { IfOk result
        (λ part. IsPartOf entries.now part.items
        (MayBeMissing index.now.entries removed.now.entries taken.now)) }
{
    let mut part = Vec::new(alloc);
    let mut from = FRONT;
    for entry in entries {
        if may_be_missing(index, removed, taken, &mut from, entry) {
            part.push(*entry)?;
        }
    }
    Ok(part)
}

/// Writes those of the entries that are missing to the front of `batch`, and tells how many they are.
fn gather(batch: &mut [[u32; 4]], index: &Index, removed: &Index, entries: &[[u32; 4]]) -> usize
    requires { length entries.now ≤ length batch.old }
    ensures part { IsPartOf entries.now (take result batch.new)
        (IsMissing index.now.entries removed.now.entries) }
    ensures count { result ≤ length batch.new }
{
    let mut count: usize = 0;
    let mut from = FRONT;
    for entry in entries {
        if is_missing(index, removed, &mut from, entry) {
            batch[count] = *entry;
            count += 1;
        }
    }
    count
}

/// Puts those of the entries that are missing into `added`, which has room for them, by way of `batch`; all, where all are known to be.
fn put_missing(
    added: &mut Index,
    index: &Index,
    removed: &Index,
    batch: &mut [[u32; 4]],
    entries: &mut [[u32; 4]],
    are_missing: bool,
)
    requires batch { length entries.old ≤ length batch.old }
    requires spare { length entries.old ≤ added.old.spare }
    requires named_spare { length (named_entries entries.old) ≤ added.old.named_spare }
    requires missing { IsTrue are_missing → (x : List ℕ) → Contains entries.old x
        → IsMissing index.now.entries removed.now.entries x }
    ensures union { IsUnionWith added.old.entries entries.old
        (IsMissing index.now.entries removed.now.entries) added.new.entries }
{
    if are_missing {
        added.insert_all(entries);
        return;
    }
    let count = gather(batch, index, removed, entries);
    added.insert_all(&mut batch[..count]);
}

/// The entries of the index that stand in another one no more.
fn kept(alloc: Global, index: &Index, removed: &Index) -> Result<Vec<[u32; 4]>, AllocError>
    requires { IsRemoval index.now.entries removed.now.entries }
    ensures { IfOk result (λ kept. kept.items ≡ drafted index.now.entries removed.now.entries []) }
{
    let mut kept = Vec::new(alloc);
    if is_all_out(index, removed) {
        return Ok(kept);
    }
    for entry in index.entries() {
        if !removed.contains(&entry) {
            kept.push(entry)?;
        }
    }
    Ok(kept)
}

/// Puts the entries of the index after the list.
fn put_behind(list: &mut Vec<[u32; 4]>, index: &Index) -> Result<(), AllocError>
    ensures { OnOk result (list.new.items ≡ list.old.items ++ index.now.entries) }
{
    for entry in index.entries() {
        list.push(entry)?;
    }
    Ok(())
}

/// The triples as entries of a graph.
fn put_into(alloc: Global, triples: Triples<'_>, graph: u32) -> Result<Vec<[u32; 4]>, AllocError>
    ensures { IfOk result (λ found. found.items ≡ map (λ t. graph ∷ t) triples.entry) }
{
    let mut found = Vec::new(alloc);
    for [s, p, o] in triples {
        found.push([graph, s, p, o])?;
    }
    Ok(found)
}

/// About how many entries of these graphs have the numbers that are given.
fn about(
    index: &Index,
    graphs: Graphs,
    subject: Option<u32>,
    predicate: Option<u32>,
    object: Option<u32>,
) -> u64 {
    match graphs {
        Graphs::Nothing => 0,
        Graphs::One(graph) => index.about(graph, subject, predicate, object),
        Graphs::Named => index.about_named(subject, predicate, object),
    }
}

/// What a scan gives.
fn listed(alloc: Global, scan: Scan<'_>) -> Result<Vec<[u32; 4]>, AllocError>
    ensures { IfOk result (λ found. found.items ≡ scan.entry.rest) }
{
    let mut found = Vec::new(alloc);
    for entry in scan {
        found.push(entry)?;
    }
    Ok(found)
}

/// The entries of a graph in the index.
fn graph_entries(alloc: Global, index: &Index, graph: u32) -> Result<Vec<[u32; 4]>, AllocError>
    ensures same { IfOk result
        (λ found. IsPermutation (agreeing graph None None None index.now.entries) found.items) }
    ensures four { HaveFour index.now.entries }
{
    let _each = index.entries();
    listed(alloc, index.scan(graph, None, None, None))
}

/// Makes `batch` no shorter than `n`.
fn lengthen(batch: &mut Vec<[u32; 4]>, n: usize) -> Result<(), AllocError>
    ensures kept { length batch.old.items ≤ length batch.new.items }
    ensures ok { OnOk result (n ≤ length batch.new.items) }
{
    if batch.len() < n {
        batch.resize(n, [0; 4])?;
    }
    Ok(())
}

/// So many entries of a graph as counts of entries.
fn counts_of_graph(graph: u32, all: usize) -> Counts
    ensures all { result.all ≡ all }
    ensures named { 0 < graph → result.named ≡ all }
{
    if graph == 0 {
        return Counts { all, named: 0 };
    }
    Counts { all, named: all }
}

/// Puts all entries of a graph that the index has among the removed ones, unless they are known to be there, and makes `batch` no shorter than
/// these.
fn remove_graph(
    alloc: Global,
    index: &Index,
    removed: &mut Index,
    emptied: &Emptied,
    batch: &mut Vec<[u32; 4]>,
    graph: u32,
) -> Result<(), AllocError>
    requires removal { IsRemoval index.now.entries removed.old.entries }
    requires emptied { AreEmptied index.now.entries removed.old.entries emptied.now }
    ensures removes { OnOk result
        (RemovesGraph graph index.now.entries removed.old.entries removed.new.entries) }
    ensures refused { OnErr result (removed.new.entries ≡ removed.old.entries) }
    ensures room { OnOk result (length removed.old.entries ≤ length batch.old.items
        → length removed.new.entries ≤ length batch.new.items) }
    ensures kept { length batch.old.items ≤ length batch.new.items }
{
    if are_out(index, removed, emptied, Graphs::One(graph)) {
        return Ok(());
    }
    let mut taken = graph_entries(alloc, index, graph)?;
    let more = counts_of_graph(graph, taken.len());
    let most = with_more(removed, more)?;
    lengthen(batch, most.all)?;
    reserve(removed, more)?;
    removed.insert_graph_of(index, graph, taken.as_mut_slice());
    Ok(())
}

/// Makes room for so many more removed and so many more added entries, and for the commit of both.
fn make_room(
    index: &mut Index,
    removed: &mut Index,
    added: &mut Index,
    batch: &mut Vec<[u32; 4]>,
    outs: Counts,
    ins: Counts,
) -> Result<(), AllocError>
    ensures index { index.new.entries ≡ index.old.entries }
    ensures removed { removed.new.entries ≡ removed.old.entries }
    ensures added { added.new.entries ≡ added.old.entries }
    ensures spare { index.old.spare ≤ index.new.spare }
    ensures named_spare { index.old.named_spare ≤ index.new.named_spare }
    ensures batch { length batch.old.items ≤ length batch.new.items }
    ensures for_index { OnOk result (length added.old.entries + ins.all ≤ index.new.spare) }
    ensures for_named { OnOk result
        (length (named_entries added.old.entries) + ins.named ≤ index.new.named_spare) }
    ensures for_removed { OnOk result (outs.all ≤ removed.new.spare) }
    ensures for_removed_named { OnOk result (outs.named ≤ removed.new.named_spare) }
    ensures for_added { OnOk result (ins.all ≤ added.new.spare) }
    ensures for_added_named { OnOk result (ins.named ≤ added.new.named_spare) }
    ensures removed_batch { OnOk result
        (length removed.old.entries + outs.all ≤ length batch.new.items) }
    ensures added_batch { OnOk result
        (length added.old.entries + ins.all ≤ length batch.new.items) }
{
    let most_removed = with_more(removed, outs)?;
    let most_added = with_more(added, ins)?;
    lengthen(batch, most_removed.all)?;
    lengthen(batch, most_added.all)?;
    reserve(removed, outs)?;
    reserve(added, ins)?;
    reserve(index, most_added)
}

impl Layers {
    /// No entries. It takes no memory.
    pub fn new(alloc: Global) -> Layers
        ensures base { result.base ≡ [] }
        ensures draft { result.draft ≡ [] }
    {
        Layers {
            alloc,
            index: Index::new(alloc),
            removed: Index::new(alloc),
            added: Index::new(alloc),
            emptied: Emptied::new(alloc),
            batch: Vec::new(alloc),
        }
    }

    /// Whether the entry is one of the store's.
    pub fn contains(&self, entry: &[u32; 4]) -> bool
        ensures { IsTrue result ↔ Contains self.now.base entry.now }
    {
        self.index.contains(entry)
    }

    /// How many entries the store has.
    pub fn len(&self) -> u128
        ensures count { result ≡ length self.now.base }
        ensures once { Distinct bytes_eq self.now.base }
    {
        self.index.len()
    }

    /// How many entries the draft has.
    pub fn draft_len(&self) -> u128
        ensures count { result ≡ length self.now.draft }
        ensures once { Distinct bytes_eq self.now.draft }
    {
        let kept = self.index.len() - self.removed.len();
        kept + self.added.len()
    }

    /// Whether the entry is one of the draft's.
    pub fn draft_contains(&self, entry: &[u32; 4]) -> bool
        ensures { IsTrue result ↔ Contains self.now.draft entry.now }
    {
        if self.added.contains(entry) {
            return true;
        }
        self.index.contains(entry) && !self.removed.contains(entry)
    }

    /// The numbers of the named graphs that have entries of the store, ascending.
    pub fn graphs(&self) -> Result<Vec<u32>, AllocError>
        ensures { IfOk result (λ graphs. AreGraphsOf self.now.base graphs.items) }
    {
        graphs_in(self.alloc, &self.index)
    }

    /// The numbers of the named graphs that have entries of the draft, ascending.
    pub fn draft_graphs(&self) -> Result<Vec<u32>, AllocError>
        requires { HaveFour self.now.draft }
        ensures { IfOk result (λ graphs. AreGraphsOf self.now.draft graphs.items) }
    {
        if are_out(&self.index, &self.removed, &self.emptied, Graphs::Named) {
            return graphs_in(self.alloc, &self.added);
        }
        graphs_in_draft(
            self.alloc,
            &self.index,
            &self.removed,
            &self.added,
            &self.emptied,
        )
    }

    /// The entries of the store.
    pub fn base(&self) -> Result<Vec<[u32; 4]>, AllocError>
        ensures { IfOk result (λ list. list.items ≡ self.now.base) }
    {
        let mut list = Vec::new(self.alloc);
        put_behind(&mut list, &self.index)?;
        Ok(list)
    }

    /// The entries of the draft.
    pub fn draft(&self) -> Result<Vec<[u32; 4]>, AllocError>
        ensures { IfOk result (λ list. list.items ≡ self.now.draft) }
    {
        let mut list = kept(self.alloc, &self.index, &self.removed)?;
        put_behind(&mut list, &self.added)?;
        Ok(list)
    }

    /// Whether the draft has an entry of the graph.
    pub fn draft_holds(&self, graph: u32) -> bool
        requires { HaveFour self.now.draft }
        ensures held { IsTrue result → HasGraph self.now.draft graph }
        ensures empty { HasGraph self.now.draft graph → IsTrue result }
    {
        holds(
            &self.index,
            &self.removed,
            &self.added,
            &self.emptied,
            graph,
        )
    }

    /// The draft's entries of one graph, put into another one.
    pub fn draft_copies(&self, from: u32, to: u32) -> Result<Vec<[u32; 4]>, AllocError>
        requires { HaveFour self.now.draft }
        ensures { IfOk result (λ found. AreCopies self.now.draft from to found.items) }
    {
        let triples = self.scan_draft(Graphs::One(from), None, None, None);
        put_into(self.alloc, triples, to)
    }

    /// The draft's entries of the named graphs.
    pub fn draft_named(&self) -> Result<Vec<[u32; 4]>, AllocError>
        requires { HaveFour self.now.draft }
        ensures { IfOk result (λ found. AreNamed self.now.draft found.items) }
    {
        let graphs = self.draft_graphs()?;
        let mut found = Vec::new(self.alloc);
        for graph in &graphs {
            let mut more = self.draft_copies(*graph, *graph)?;
            found.append(&mut more)?;
        }
        Ok(found)
    }

    /// The triples of the store's entries in these graphs.
    pub fn scan(
        &self,
        graphs: Graphs,
        subject: Option<u32>,
        predicate: Option<u32>,
        object: Option<u32>,
    ) -> Triples<'_>
        ensures { AreTriplesOf graphs subject predicate object self.now.base result }
    {
        Triples::of_store(&self.index, graphs, subject, predicate, object)
    }

    /// The triples of the store's entries in these graphs, in the order that has the place in front where none is given.
    pub fn scan_with_lead(
        &self,
        lead: Lead,
        graphs: Graphs,
        subject: Option<u32>,
        predicate: Option<u32>,
        object: Option<u32>,
    ) -> Triples<'_>
        ensures { AreTriplesOfAnyhow graphs subject predicate object self.now.base result }
    {
        Triples::of_store_with_lead(&self.index, lead, graphs, subject, predicate, object)
    }

    /// The triples of the draft's entries in these graphs.
    pub fn scan_draft(
        &self,
        graphs: Graphs,
        subject: Option<u32>,
        predicate: Option<u32>,
        object: Option<u32>,
    ) -> Triples<'_>
        ensures { AreTriplesOf graphs subject predicate object self.now.draft result }
    {
        if are_out(&self.index, &self.removed, &self.emptied, graphs) {
            return Triples::of_store(&self.added, graphs, subject, predicate, object);
        }
        Triples::of_draft(
            &self.index,
            &self.removed,
            &self.added,
            graphs,
            subject,
            predicate,
            object,
        )
    }

    /// The quads of the store's entries in all named graphs.
    pub fn scan_named(
        &self,
        subject: Option<u32>,
        predicate: Option<u32>,
        object: Option<u32>,
    ) -> NamedQuads<'_>
        ensures { AreNamedQuadsOf subject predicate object self.now.base result }
    {
        NamedQuads::of_store(&self.index, subject, predicate, object)
    }

    /// The quads of the draft's entries in all named graphs.
    pub fn scan_draft_named(
        &self,
        subject: Option<u32>,
        predicate: Option<u32>,
        object: Option<u32>,
    ) -> NamedQuads<'_>
        ensures { AreNamedQuadsOf subject predicate object self.now.draft result }
    {
        if are_out(&self.index, &self.removed, &self.emptied, Graphs::Named) {
            return NamedQuads::of_store(&self.added, subject, predicate, object);
        }
        NamedQuads::of_draft(
            &self.index,
            &self.removed,
            &self.added,
            subject,
            predicate,
            object,
        )
    }

    /// About how many triples `scan` gives.
    pub fn about(
        &self,
        graphs: Graphs,
        subject: Option<u32>,
        predicate: Option<u32>,
        object: Option<u32>,
    ) -> u64 {
        about(&self.index, graphs, subject, predicate, object)
    }

    /// About how many triples `scan_draft` gives.
    pub fn about_draft(
        &self,
        graphs: Graphs,
        subject: Option<u32>,
        predicate: Option<u32>,
        object: Option<u32>,
    ) -> u64 {
        let stored = about(&self.index, graphs, subject, predicate, object);
        let removed = about(&self.removed, graphs, subject, predicate, object);
        let added = about(&self.added, graphs, subject, predicate, object);
        stored.saturating_sub(removed).saturating_add(added)
    }

    /// Forgets what the draft has added and removed.
    pub fn reset(&mut self)
        ensures base { self.new.base ≡ self.old.base }
        ensures draft { self.new.draft ≡ self.old.base }
    {
        set(&mut self.removed, Index::new(self.alloc));
        set(&mut self.added, Index::new(self.alloc));
        set(&mut self.emptied, Emptied::new(self.alloc));
        set(&mut self.batch, Vec::new(self.alloc));
    }

    /// Makes the draft's entries those of the store. It takes no memory.
    pub fn settle(&mut self)
        ensures base { SameSet self.new.base self.old.draft }
        ensures draft { self.new.draft ≡ self.new.base }
    {
        take_all(&mut self.index, &self.removed, self.batch.as_mut_slice());
        put_all(&mut self.index, &self.added, self.batch.as_mut_slice());
        set(&mut self.removed, Index::new(self.alloc));
        set(&mut self.added, Index::new(self.alloc));
        set(&mut self.emptied, Emptied::new(self.alloc));
        set(&mut self.batch, Vec::new(self.alloc));
    }

    /// Makes the draft's entries those of the store, and puts these in, too, which it leaves in some order. No room is left set aside in
    /// the store's index. Where it is refused the store and the draft stay as they were.
    pub fn settle_with(&mut self, entries: &mut [[u32; 4]]) -> Result<(), AllocError>
        ensures base { OnOk result (IsChanged self.old.draft [] entries.old self.new.base) }
        ensures draft { OnOk result (self.new.draft ≡ self.new.base) }
        ensures refused { OnErr result (self.new.base ≡ self.old.base) }
        ensures draft_refused { OnErr result (self.new.draft ≡ self.old.draft) }
    {
        let batch = self.batch.as_mut_slice();
        match put_together(
            self.alloc,
            &mut self.index,
            &self.removed,
            &self.added,
            batch,
            entries,
        ) {
            Ok(()) => {
                self.index.release();
                set(&mut self.removed, Index::new(self.alloc));
                set(&mut self.added, Index::new(self.alloc));
                set(&mut self.emptied, Emptied::new(self.alloc));
                set(&mut self.batch, Vec::new(self.alloc));
                Ok(())
            }
            Err(error) => Err(error),
        }
    }

    /// Takes the first entries out of the draft, and puts the others in; both are left in some order. Where it is refused the draft
    /// stays as it was.
    pub fn change(&mut self, outs: &mut [[u32; 4]], ins: &mut [[u32; 4]]) -> Result<(), AllocError>
        ensures base { self.new.base ≡ self.old.base }
        ensures draft { OnOk result (IsChanged self.old.draft outs.old ins.old self.new.draft) }
        ensures refused { OnErr result (self.new.draft ≡ self.old.draft) }
    {
        sort(outs);
        sort(ins);
        self.change_sorted(outs, ins)
    }

    // Makes a change of entries, which are looked for fastest where they ascend.
    fn change_sorted(&mut self, outs: &mut [[u32; 4]], ins: &[[u32; 4]]) -> Result<(), AllocError>
        ensures base { self.new.base ≡ self.old.base }
        ensures draft { OnOk result (IsChanged self.old.draft outs.old ins.now self.new.draft) }
        ensures refused { OnErr result (self.new.draft ≡ self.old.draft) }
    {
        let mut taken = standing(self.alloc, &self.index, outs)?;
        let mut put = missing(self.alloc, &self.index, &self.removed, &taken, ins)?;
        let more_removed = count(&taken);
        let more_added = count(&put);
        make_room(
            &mut self.index,
            &mut self.removed,
            &mut self.added,
            &mut self.batch,
            more_removed,
            more_added,
        )?;
        self.added.remove_all(outs);
        self.removed.insert_all(taken.as_mut_slice());
        put_missing(
            &mut self.added,
            &self.index,
            &self.removed,
            self.batch.as_mut_slice(),
            put.as_mut_slice(),
            more_removed.all == 0,
        );
        Ok(())
    }

    /// Takes the entries of a graph out of the draft, in a time that goes by these. Where it is refused the draft stays as it was.
    pub fn clear_graph(&mut self, graph: u32) -> Result<(), AllocError>
        ensures base { self.new.base ≡ self.old.base }
        ensures draft { OnOk result (IsWithoutGraph graph self.old.draft self.new.draft) }
        ensures refused { OnErr result (self.new.draft ≡ self.old.draft) }
    {
        let mut outs = graph_entries(self.alloc, &self.added, graph)?;
        remove_graph(
            self.alloc,
            &self.index,
            &mut self.removed,
            &self.emptied,
            &mut self.batch,
            graph,
        )?;
        self.added.remove_all(outs.as_mut_slice());
        Ok(())
    }

    /// Notes the graph where all entries of it that the store has are removed, so that no reader of the draft goes over them again. Out of
    /// memory it isn't noted.
    pub fn note(&mut self, graph: u32)
        ensures base { self.new.base ≡ self.old.base }
        ensures draft { self.new.draft ≡ self.old.draft }
    {
        if are_out(
            &self.index,
            &self.removed,
            &self.emptied,
            Graphs::One(graph),
        ) {
            return;
        }
        if is_emptied(&self.index, &self.removed, graph) {
            let _ = self.emptied.note(graph);
        }
    }
}
