//! About how many triples of a view agree with a triple pattern, by which a plan is ordered.

use crate::parts::Parts;
use qs_algebra_patterns::{Slot, TriplePattern};
use qs_plan::{Counts, Look};
use qs_store::{Active, View};
use qs_terms::Term;

/// What is counted: the triples of a view, where this graph is active.
#[derive(Drop)]
pub struct ViewCounts<'v, V: View> {
    pub view: &'v V,
    pub active: Active,
}

/// The number that a triple must have in this place, if it must have one; none where the term isn't known.
fn number_of<V: View>(view: &V, slot: &Slot) -> Option<Option<u32>> {
    match slot {
        Slot::Term(term) => {
            let number = view.find(term.get())?;
            Some(Some(number))
        }
        Slot::Variable(_) => Some(None),
    }
}

/// The numbers that a triple must have in its places, where it must have one.
#[derive(Clone, Copy)]
struct Given {
    subject: Option<u32>,
    predicate: Option<u32>,
    object: Option<u32>,
}

/// The numbers of the terms of the pattern; none where a term isn't known.
fn given_of<V: View>(view: &V, pattern: &TriplePattern) -> Option<Given> {
    let subject = number_of(view, &pattern.subject)?;
    let predicate = number_of(view, &pattern.predicate)?;
    let object = number_of(view, &pattern.object)?;
    Some(Given {
        subject,
        predicate,
        object,
    })
}

/// About how many triples of the graph agree with the terms of the pattern.
fn count_in<V: View>(view: &V, graph: Active, pattern: &TriplePattern) -> u64 {
    match given_of(view, pattern) {
        Some(given) => view.about(graph, given.subject, given.predicate, given.object),
        None => 0,
    }
}

/// About how many quads of all named graphs agree with the terms of the pattern.
fn count_named<V: View>(view: &V, pattern: &TriplePattern) -> u64 {
    match given_of(view, pattern) {
        Some(given) => view.about_named(given.subject, given.predicate, given.object),
        None => 0,
    }
}

/// The graph of this name.
fn graph_of<V: View>(view: &V, name: &Term) -> Active {
    match view.find(name) {
        Some(number) => Active::Graph(number),
        None => Active::Empty,
    }
}

impl<'v, V: View> Counts for ViewCounts<'v, V> {
    /// In each named graph: about how many quads of all of them agree.
    fn about(&self, look: &Look, pattern: &TriplePattern) -> u64 {
        match look {
            Look::Active => count_in(self.view, self.active, pattern),
            Look::Named(name) => {
                let graph = graph_of(self.view, name.get());
                count_in(self.view, graph, pattern)
            }
            Look::Register(_) => count_named(self.view, pattern),
        }
    }
}

/// So many triples are told more of a part that comes late.
const LATE: u64 = 1 << 48;

/// What is counted, where the terms of some columns are asked for, each once: of the parts without a column more, so that they come last.
#[derive(Drop)]
pub(crate) struct DistinctCounts<'v, V: View> {
    pub(crate) counts: ViewCounts<'v, V>,
    pub(crate) parts: Parts,
}

impl<'v, V: View> Counts for DistinctCounts<'v, V> {
    /// A triple of one row or none comes first in any case.
    fn about(&self, look: &Look, pattern: &TriplePattern) -> u64 {
        let count = self.counts.about(look, pattern);
        if count > 1 && self.parts.is_late(pattern) {
            return count.saturating_add(LATE);
        }
        count
    }
}
