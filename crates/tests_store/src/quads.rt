//! Quads over few terms: some have the same triple in several graphs.

use qs_terms::{Quad, Term, TermFault};
use std::alloc::Global;

/// Graph, subject, predicate and object of each quad: IRIs, blank node 7 where "_" stands, and no text for the default graph.
const ROWS: &[[&str; 4]] = &[
    ["", "e:a", "e:p", "e:b"],
    ["e:g", "e:a", "e:p", "e:b"],
    ["e:g", "e:a", "e:p", "_"],
    ["e:h", "e:a", "e:p", "e:b"],
    ["e:h", "e:b", "e:p", "e:a"],
    ["e:k", "e:b", "e:p", "e:a"],
    ["", "e:a", "e:p", "e:c"],
];

fn term(alloc: Global, text: &str) -> Result<Term, TermFault> {
    if text == "_" {
        Ok(Term::Blank(7))
    } else {
        Term::iri(alloc, text)
    }
}

fn graph(alloc: Global, text: &str) -> Result<Option<Term>, TermFault> {
    if text.is_empty() {
        return Ok(None);
    }
    match term(alloc, text) {
        Ok(name) => Ok(Some(name)),
        Err(fault) => Err(fault),
    }
}

fn both<A: Drop, B: Drop>(
    one: Result<A, TermFault>,
    other: Result<B, TermFault>,
) -> Result<(A, B), TermFault> {
    match (one, other) {
        (Ok(one), Ok(other)) => Ok((one, other)),
        (Err(fault), _) => Err(fault),
        (_, Err(fault)) => Err(fault),
    }
}

fn lawful(graph: Option<Term>, subject: Term, predicate: Term, object: Term) -> Option<Quad> {
    if Quad::fits(graph.as_ref(), &subject, &predicate) {
        Some(Quad::new(graph, subject, predicate, object))
    } else {
        None
    }
}

fn quad(alloc: Global, row: [&str; 4]) -> Result<Quad, TermFault> {
    let [g, s, p, o] = row;
    let front = both(graph(alloc, g), term(alloc, s));
    let back = both(term(alloc, p), term(alloc, o));
    let ((graph, subject), (predicate, object)) = both(front, back)?;
    lawful(graph, subject, predicate, object).ok_or(TermFault::NotAbsolute)
}

/// The quads of all rows.
pub fn quads(alloc: Global) -> Result<Vec<Quad>, TermFault> {
    let mut quads = Vec::new(alloc);
    for row in ROWS {
        let quad = quad(alloc, *row)?;
        quads.push(quad)?;
    }
    Ok(quads)
}
