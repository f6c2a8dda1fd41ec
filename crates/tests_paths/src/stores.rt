//! A store of six quads: in the default graph `e:a e:p e:b`, `e:b e:p e:c`, `e:c e:p e:b` and `e:a e:q e:d`, in the graph `e:g` `e:a e:p e:d`
//! and `e:d e:p e:a`.

use qs_store::Store;
use qs_terms::dataset::is_above_blanks;
use qs_terms::{Quad, Term, TermFault};
use std::alloc::Global;

fn lawful(
    graph: Option<Term>,
    subject: Term,
    predicate: Term,
    object: Term,
) -> Result<Quad, TermFault> {
    if Quad::fits(graph.as_ref(), &subject, &predicate) {
        Ok(Quad::new(graph, subject, predicate, object))
    } else {
        Err(TermFault::NotAbsolute)
    }
}

fn both(
    one: Result<Term, TermFault>,
    other: Result<Term, TermFault>,
) -> Result<(Term, Term), TermFault> {
    match (one, other) {
        (Ok(one), Ok(other)) => Ok((one, other)),
        (Err(fault), _) => Err(fault),
        (_, Err(fault)) => Err(fault),
    }
}

/// The name of a graph, if one is given.
fn name(alloc: Global, graph: Option<&str>) -> Result<Option<Term>, TermFault> {
    match graph {
        Some(text) => {
            let name = Term::iri(alloc, text)?;
            Ok(Some(name))
        }
        None => Ok(None),
    }
}

fn quad(
    alloc: Global,
    graph: Option<&str>,
    subject: &str,
    predicate: &str,
    object: &str,
) -> Result<Quad, TermFault> {
    let graph = name(alloc, graph)?;
    let ends = both(Term::iri(alloc, subject), Term::iri(alloc, object));
    let Ok((subject, object)) = ends else {
        return Err(TermFault::Memory);
    };
    match Term::iri(alloc, predicate) {
        Ok(predicate) => lawful(graph, subject, predicate, object),
        Err(fault) => Err(fault),
    }
}

fn put(
    alloc: Global,
    quads: &mut Vec<Quad>,
    graph: Option<&str>,
    subject: &str,
    predicate: &str,
    object: &str,
) -> Result<(), TermFault> {
    let quad = quad(alloc, graph, subject, predicate, object)?;
    quads.push(quad)?;
    Ok(())
}

fn put_all(alloc: Global, quads: &mut Vec<Quad>) -> Result<(), TermFault> {
    put(alloc, quads, None, "e:a", "e:p", "e:b")?;
    put(alloc, quads, None, "e:b", "e:p", "e:c")?;
    put(alloc, quads, None, "e:c", "e:p", "e:b")?;
    put(alloc, quads, None, "e:a", "e:q", "e:d")?;
    put(alloc, quads, Some("e:g"), "e:a", "e:p", "e:d")?;
    put(alloc, quads, Some("e:g"), "e:d", "e:p", "e:a")?;
    Ok(())
}

fn filled(store: &mut Store, quads: &[Quad]) -> Result<bool, TermFault> {
    let is_lawful = store.next_blank() == 0 && is_above_blanks(0, quads);
    if !is_lawful {
        return Ok(false);
    }
    match store.change(&[], quads, 0) {
        Ok(()) => Ok(true),
        Err(_) => Err(TermFault::Memory),
    }
}

/// Puts the quads into an empty store. Answers whether that could be done.
pub fn fill(alloc: Global, store: &mut Store) -> Result<bool, TermFault> {
    let mut quads = Vec::new(alloc);
    put_all(alloc, &mut quads)?;
    let is_filled = filled(store, quads.as_slice());
    drop(quads);
    is_filled
}
