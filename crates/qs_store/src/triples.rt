//! A scan of the triples of a store or of a draft.
//!
//! A scan is stated over the quads of the active graph through their terms' numbers, so no list of triples is between a store and
//! its readers. The scans of a draft's parts are merged by entries with their graphs. A repeat is left out last: a triple of the
//! union stays while one graph has it.

ghost use Rattle.std.specs.Prelude.{◌≡◌, ◌∷◌, [], true, map, None, IfSome, IfNone};
ghost use Rattle.std.specs.Iterator.{YieldsFirst, item_count};
ghost use Rattle.qs_index.specs.inner.Skipped.{IsSkipped, SkipsAgreeing};
ghost use Rattle.qs_store.specs.inner.Layers.{IsDraft, drafted};
ghost use Rattle.qs_store.specs.inner.Scans.{AreTriplesOf, AreTriplesOfAnyhow, LastFits, is_last, triple_of, triples_left, unrepeated};
ghost use Rattle.qs_store.specs.inner.Sources.{entries_left};
ghost use Rattle.qs_store.specs.inner.Triples.{triple_fits};

use crate::graphs::Graphs;
use crate::merged::Merged;
use qs_index::permutation::{Lead, Lookup};
use qs_index::{Index, Scan, agrees};
use std::marker::Model;

/// Where the entries come from: nowhere, from a store, or from a draft.
#[derive(Drop)]
pub enum Source<'a> {
    Nothing,
    Stored(Scan<'a>),
    Drafted(Merged<'a>),
}

/// The next entry.
#[inline(always)]
pub fn next_entry(source: &mut Source<'_>) -> Option<[u32; 4]>
    ensures { YieldsFirst entries_left source.old result source.new }
{
    match source {
        Source::Nothing => None,
        Source::Stored(scan) => scan.next(),
        Source::Drafted(merged) => merged.next(),
    }
}

/// Skips entries that come next and have the numbers that are given, as far as the source does so by a search. None of a draft is skipped.
fn skip_entries(
    source: &mut Source<'_>,
    subject: Option<u32>,
    predicate: Option<u32>,
    object: Option<u32>,
)
    ensures { SkipsAgreeing subject predicate object (entries_left source.old)
        (entries_left source.new) }
{
    if let Source::Stored(scan) = source {
        scan.skip_agreeing(subject, predicate, object);
    }
}

#[inline(always)]
fn triple_of(entry: [u32; 4]) -> [u32; 3]
    ensures { result ≡ triple_of entry }
{
    let [_, s, p, o] = entry;
    [s, p, o]
}

/// Whether the triple is the last one, if there is one.
#[inline(always)]
fn is_last(last: &Option<[u32; 3]>, triple: &[u32; 3]) -> bool
    ensures { result ≡ is_last last.now triple.now }
{
    match last {
        None => false,
        Some(last) => *last == *triple,
    }
}

/// Whether the last triple, if there is one, has the numbers that are given.
fn last_fits(
    last: &Option<[u32; 3]>,
    subject: Option<u32>,
    predicate: Option<u32>,
    object: Option<u32>,
) -> bool
    ensures { result ≡ true → LastFits subject predicate object last.now }
{
    match last {
        None => true,
        Some([s, p, o]) => agrees([0, *s, *p, *o], subject, predicate, object),
    }
}

/// The next triple that differs from the last one.
fn next_other(source: &mut Source<'_>, last: &mut Option<[u32; 3]>) -> Option<[u32; 3]>
    ensures none { IfNone result
        ((unrepeated last.old (map triple_of (entries_left source.old)) ≡ [])
        × (unrepeated last.new (map triple_of (entries_left source.new)) ≡ [])) }
    ensures some { IfSome result
        (λ triple. unrepeated last.old (map triple_of (entries_left source.old)) ≡ triple
        ∷ unrepeated last.new (map triple_of (entries_left source.new))) }
{
    'entries: while let Some(entry) = next_entry(source) {
        let triple = triple_of(entry);
        if !is_last(last, &triple) {
            *last = Some(triple);
            return Some(triple);
        }
    }
    None
}

/// The triples `[subject, predicate, object]` of a graph that have the numbers that are given, ascending in the order used, each once.
/// It takes no memory.
#[derive(Drop)]
pub struct Triples<'a> {
    source: Source<'a>,
    // Whether a triple of several graphs may follow itself, and is left out then.
    repeats: bool,
    last: Option<[u32; 3]>,
}

impl<'a> Model for Triples<'a> {
    ghost use Rattle.std.specs.Prelude.{ℕ, List};
    ghost use Rattle.qs_store.specs.inner.Scans.{triples_left};
    ghost use Rattle.qs_store.specs.inner.Sources.{entries_left};

    ghost Value = { List (List ℕ) };

    ghost view = { λ t. triples_left t.repeats t.last (entries_left t.source) };
}

impl<'a> Triples<'a> {
    fn new(source: Source<'a>, repeats: bool) -> Triples<'a>
        ensures { result ≡ triples_left repeats None (entries_left source.entry) }
    {
        Triples {
            source,
            repeats,
            last: None,
        }
    }

    /// The triples of an index.
    pub fn of_store(
        index: &'a Index,
        graphs: Graphs,
        subject: Option<u32>,
        predicate: Option<u32>,
        object: Option<u32>,
    ) -> Triples<'a>
        ensures { AreTriplesOf graphs subject predicate object index.now.entries result }
    {
        match graphs {
            Graphs::Nothing => Triples::new(Source::Nothing, false),
            Graphs::One(graph) => {
                let scan = index.scan(graph, subject, predicate, object);
                Triples::new(Source::Stored(scan), false)
            }
            Graphs::Named => {
                let scan = index.scan_named(subject, predicate, object);
                Triples::new(Source::Stored(scan), true)
            }
        }
    }

    /// The triples of an index, in the order that has the place in front where none is given.
    pub fn of_store_with_lead(
        index: &'a Index,
        lead: Lead,
        graphs: Graphs,
        subject: Option<u32>,
        predicate: Option<u32>,
        object: Option<u32>,
    ) -> Triples<'a>
        ensures { AreTriplesOfAnyhow graphs subject predicate object index.now.entries result }
    {
        match graphs {
            Graphs::Nothing => Triples::new(Source::Nothing, false),
            Graphs::One(graph) => {
                let entries = index.scan_with_lead(lead, graph, subject, predicate, object);
                Triples::new(Source::Stored(entries), false)
            }
            Graphs::Named => {
                let entries = index.scan_named_with_lead(lead, subject, predicate, object);
                Triples::new(Source::Stored(entries), true)
            }
        }
    }

    /// Skips triples to come that have the subject, predicate and object that are given, as far as one search finds their end. Of a store
    /// these are those that `Scan::skip_agreeing` skips; of a union none are skipped until one was handed out that has the given places. Of
    /// a draft none are. No other triple is skipped. It takes no memory.
    pub fn skip_agreeing(
        &mut self,
        subject: Option<u32>,
        predicate: Option<u32>,
        object: Option<u32>,
    )
        ensures { IsSkipped (λ t. triple_fits subject predicate object t ≡ true) self.old self.new }
    {
        // Without this test the contract would hold as well, since entries ascend. No contract here says that they do.
        if self.repeats && !last_fits(&self.last, subject, predicate, object) {
            return;
        }
        skip_entries(&mut self.source, subject, predicate, object);
    }

    /// The triples of an index without the removed, and with the added.
    pub fn of_draft(
        index: &'a Index,
        removed: &'a Index,
        added: &'a Index,
        graphs: Graphs,
        subject: Option<u32>,
        predicate: Option<u32>,
        object: Option<u32>,
    ) -> Triples<'a>
        requires { IsDraft index.now.entries removed.now.entries added.now.entries }
        ensures { AreTriplesOf graphs subject predicate object
            (drafted index.now.entries removed.now.entries added.now.entries) result }
    {
        match graphs {
            Graphs::Nothing => Triples::new(Source::Nothing, false),
            Graphs::One(graph) => {
                let lookup = Lookup::new(graph, subject, predicate, object);
                let entries = Merged::new(
                    lookup.permutation,
                    index.scan(graph, subject, predicate, object),
                    removed.scan(graph, subject, predicate, object),
                    added.scan(graph, subject, predicate, object),
                );
                Triples::new(Source::Drafted(entries), false)
            }
            Graphs::Named => {
                let lookup = Lookup::of_named(subject, predicate, object);
                let entries = Merged::new(
                    lookup.permutation,
                    index.scan_named(subject, predicate, object),
                    removed.scan_named(subject, predicate, object),
                    added.scan_named(subject, predicate, object),
                );
                Triples::new(Source::Drafted(entries), true)
            }
        }
    }
}

impl<'a> Iterator for Triples<'a> {
    type Item = [u32; 3];

    ghost next_gives = { YieldsFirst (λ rest. rest) };

    ghost remaining = { item_count (λ rest. rest) };

    #[inline(always)]
    fn next(&mut self) -> Option<[u32; 3]> {
        if self.repeats {
            return next_other(&mut self.source, &mut self.last);
        }
        let entry = next_entry(&mut self.source)?;
        Some(triple_of(entry))
    }
}
