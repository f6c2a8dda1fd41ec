//! What is to be seen of a store or of a draft, and whether it is.

use crate::outcome::Outcome;
use qs_store::{Active, DefaultGraph, StoreFault, View};
use qs_terms::Quad;

/// What is to be seen; quads are told by their places in a list.
#[derive(Clone, Copy)]
pub struct Seen {
    /// The quads that are there, in their order.
    pub quads: &'static [usize],
    /// Quads with the triples of the default graph where it is the union of the named ones, one for each triple.
    pub union: &'static [usize],
    /// A quad with the name of a graph, and the quads of that graph. The first is that of the stored default graph.
    pub graphs: &'static [(usize, &'static [usize])],
    /// How many graphs have a name and quads.
    pub names: usize,
    pub terms: u32,
    pub next: u64,
}

fn is_in(at: usize, places: &[usize]) -> bool {
    for place in places {
        if *place == at {
            return true;
        }
    }
    false
}

fn has<V: View>(view: &V, quads: &[Quad], wanted: &[usize]) -> bool {
    for (at, quad) in quads.iter().enumerate() {
        if view.contains(quad) != is_in(at, wanted) {
            return false;
        }
    }
    true
}

fn is_triple<V: View>(view: &V, quad: &Quad, triple: [u32; 3]) -> bool {
    let [s, p, o] = triple;
    view.find(quad.subject()) == Some(s)
        && view.find(quad.predicate()) == Some(p)
        && view.find(quad.object()) == Some(o)
}

fn is_wanted<V: View>(view: &V, quads: &[Quad], wanted: &[usize], triple: [u32; 3]) -> bool {
    for (at, quad) in quads.iter().enumerate() {
        if is_in(at, wanted) && is_triple(view, quad, triple) {
            return true;
        }
    }
    false
}

/// Whether a scan hands out the triples of these quads, which differ.
fn scans<V: View>(view: &V, active: Active, quads: &[Quad], wanted: &[usize]) -> bool {
    let mut count: usize = 0;
    for triple in view.scan(active, None, None, None) {
        if !is_wanted(view, quads, wanted, triple) {
            return false;
        }
        count = count.wrapping_add(1);
    }
    count == wanted.len()
}

/// The number of the graph of the quad, 0 for the default graph.
fn graph_number<V: View>(view: &V, quad: &Quad) -> Option<u32> {
    match quad.graph() {
        None => Some(0),
        Some(name) => view.find(name),
    }
}

/// Whether the graph of one of the quads has these ones.
fn has_graph<V: View>(view: &V, quads: &[Quad], at: usize, wanted: &[usize]) -> bool {
    let Some(quad) = quads.get(at) else {
        return false;
    };
    match graph_number(view, quad) {
        None => wanted.is_empty(),
        Some(number) => scans(view, Active::Graph(number), quads, wanted),
    }
}

fn has_graphs<V: View>(view: &V, quads: &[Quad], graphs: &[(usize, &[usize])]) -> bool {
    for (at, wanted) in graphs {
        if !has_graph(view, quads, *at, wanted) {
            return false;
        }
    }
    true
}

/// Whether the default graph that queries see has what it ought to.
fn has_default<V: View>(view: &V, quads: &[Quad], seen: &Seen) -> bool {
    match view.default_graph() {
        DefaultGraph::Union => scans(view, Active::Default, quads, seen.union),
        DefaultGraph::Stored => match seen.graphs.first() {
            Some((_, stored)) => scans(view, Active::Default, quads, stored),
            None => false,
        },
    }
}

/// Whether each number in use is that of its term.
fn are_numbers<V: View>(view: &V) -> bool {
    for place in 0..view.terms() {
        let number = place + 1;
        if view.find(view.term(number)) != Some(number) {
            return false;
        }
    }
    true
}

/// Whether this is seen by calls that take no memory.
pub fn is_seen<V: View>(view: &V, quads: &[Quad], seen: &Seen) -> bool {
    view.terms() == seen.terms
        && view.count() == seen.quads.len() as u128
        && view.next_blank() == seen.next
        && are_numbers(view)
        && has(view, quads, seen.quads)
        && has_graphs(view, quads, seen.graphs)
        && has_default(view, quads, seen)
        && scans(view, Active::Empty, quads, &[])
}

/// Whether a subject and an object that are given lead to the quad alone.
fn leads_to<V: View>(view: &V, quad: &Quad) -> bool {
    let Some(graph) = graph_number(view, quad) else {
        return false;
    };
    let (s, o) = (view.find(quad.subject()), view.find(quad.object()));
    let mut scan = view.scan(Active::Graph(graph), s, None, o);
    match scan.next() {
        Some(triple) => is_triple(view, quad, triple) && scan.next().is_none(),
        None => false,
    }
}

fn is_read<V: View>(view: &V, read: Option<&Quad>, wanted: Option<&Quad>) -> bool {
    match (read, wanted) {
        (Some(read), Some(wanted)) => read.is_same(wanted) && leads_to(view, read),
        _ => false,
    }
}

fn are_read<V: View>(view: &V, read: &[Quad], quads: &[Quad], wanted: &[usize]) -> bool {
    for (place, at) in wanted.iter().enumerate() {
        if !is_read(view, read.get(place), quads.get(*at)) {
            return false;
        }
    }
    read.len() == wanted.len()
}

fn outcome_of(fault: StoreFault) -> Outcome {
    match fault {
        StoreFault::Memory => Outcome::Refused,
        StoreFault::Full => Outcome::Wrong,
    }
}

fn quads_read<V: View>(view: &V, quads: &[Quad], wanted: &[usize]) -> Outcome {
    match view.quads() {
        Ok(read) => {
            let are_read = are_read(view, &read, quads, wanted);
            drop(read);
            Outcome::Whole.or_wrong(are_read)
        }
        Err(fault) => outcome_of(fault),
    }
}

/// Whether each of the numbers is that of a graph with quads; they ascend.
fn are_graphs<V: View>(view: &V, graphs: &[u32]) -> bool {
    let mut last: u32 = 0;
    for graph in graphs {
        if *graph <= last
            || view
                .scan(Active::Graph(*graph), None, None, None)
                .next()
                .is_none()
        {
            return false;
        }
        last = *graph;
    }
    true
}

fn graphs_read<V: View>(view: &V, names: usize) -> Outcome {
    match view.graphs() {
        Ok(graphs) => {
            let are_graphs = graphs.len() == names && are_graphs(view, &graphs);
            drop(graphs);
            Outcome::Whole.or_wrong(are_graphs)
        }
        Err(fault) => outcome_of(fault),
    }
}

/// What comes of reading back the quads and the names of the graphs.
pub fn reads_back<V: View>(view: &V, quads: &[Quad], seen: &Seen) -> Outcome {
    match quads_read(view, quads, seen.quads) {
        Outcome::Whole => graphs_read(view, seen.names),
        outcome => outcome,
    }
}

/// What comes of a change, which turns one thing to be seen into another, or is refused where memory runs out.
pub fn changed<V: View>(
    view: &V,
    quads: &[Quad],
    change: Option<Result<(), StoreFault>>,
    before: &Seen,
    after: &Seen,
) -> Outcome {
    match change {
        Some(Ok(())) => Outcome::Whole.or_wrong(is_seen(view, quads, after)),
        Some(Err(fault)) => outcome_of(fault).or_wrong(is_seen(view, quads, before)),
        None => Outcome::Wrong,
    }
}
