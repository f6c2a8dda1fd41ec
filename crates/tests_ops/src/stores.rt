//! A store of four quads: `e:a e:p e:b`, `e:c e:p e:d` and `e:a e:q e:b` in the default graph, and `e:c e:p e:a` in the graph `e:g`.

use crate::calls;
use qs_store::Store;
use qs_terms::dataset::is_above_blanks;
use qs_terms::{Quad, Term, TermFault};
use std::alloc::Global;
use std::hash::RandomState;

fn both<A: Drop, B: Drop>(
    one: Result<A, TermFault>,
    other: Result<B, TermFault>,
) -> Result<(A, B), TermFault> {
    match (one, other) {
        (Ok(one), Ok(other)) => Ok((one, other)),
        (Err(fault), _) => Err(fault),
        (_, Err(fault)) => Err(fault),
    }
}

fn lawful(graph: Option<Term>, subject: Term, predicate: Term, object: Term) -> Option<Quad> {
    if Quad::fits(graph.as_ref(), &subject, &predicate) {
        Some(Quad::new(graph, subject, predicate, object))
    } else {
        None
    }
}

fn name(alloc: Global, graph: Option<&str>) -> Result<Option<Term>, TermFault> {
    match graph {
        Some(text) => {
            let name = Term::iri(alloc, text)?;
            Ok(Some(name))
        }
        None => Ok(None),
    }
}

fn quad(
    alloc: Global,
    graph: Option<&str>,
    subject: &str,
    predicate: &str,
    object: &str,
) -> Result<Quad, TermFault> {
    let front = both(Term::iri(alloc, subject), Term::iri(alloc, predicate));
    let back = both(Term::iri(alloc, object), name(alloc, graph));
    let ((subject, predicate), (object, graph)) = both(front, back)?;
    lawful(graph, subject, predicate, object).ok_or(TermFault::NotAbsolute)
}

fn put(quads: &mut Vec<Quad>, quad: Result<Quad, TermFault>) -> Result<(), TermFault> {
    let quad = quad?;
    quads.push(quad)?;
    Ok(())
}

fn quads(alloc: Global) -> Result<Vec<Quad>, TermFault> {
    let mut quads = Vec::new(alloc);
    put(&mut quads, quad(alloc, None, "e:a", "e:p", "e:b"))?;
    put(&mut quads, quad(alloc, None, "e:c", "e:p", "e:d"))?;
    put(&mut quads, quad(alloc, None, "e:a", "e:q", "e:b"))?;
    put(&mut quads, quad(alloc, Some("e:g"), "e:c", "e:p", "e:a"))?;
    Ok(quads)
}

fn filled(store: &mut Store, quads: &[Quad]) -> bool {
    store.next_blank() == 0 && is_above_blanks(0, quads) && store.change(&[], quads, 0).is_ok()
}

fn is_filled(alloc: Global, store: &mut Store) -> bool {
    match quads(alloc) {
        Ok(quads) => filled(store, quads.as_slice()),
        Err(_) => false,
    }
}

fn does(alloc: Global, hasher: Option<RandomState>) -> bool {
    let Some(hasher) = hasher else {
        return false;
    };
    let mut store = Store::new(alloc, 100, hasher);
    let does = is_filled(alloc, &mut store) && calls::are_right(alloc, &store);
    drop(store);
    does
}

#[test]
fn evaluations(rt: HostRuntime) {
    assert!(rt; does(rt.alloc(), RandomState::new(&rt).ok()));
}
