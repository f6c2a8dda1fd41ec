//! Requests over a store: accepted whole, or refused with quads, next number and known terms as before.

use crate::outcome::Outcome;
use crate::quads::quads;
use crate::seen::{Seen, is_seen, reads_back};
use qs_store::Store;
use qs_terms::dataset::is_above_blanks;
use qs_terms::{QFault, Quad};
use qs_update::update;
use std::alloc::Global;
use std::hash::RandomState;

/// Changes the four first quads to the first and the three after the third: takes out what it puts in, copies a graph that isn't there,
/// empties a graph, and puts the same triple into two others.
const TEXT: &str = "DELETE { ?s ?p ?o } INSERT { ?s ?p ?o } WHERE { ?s ?p ?o }
; COPY SILENT <e:none> TO DEFAULT
; DELETE WHERE { GRAPH <e:g> { ?s ?p ?o } }
; INSERT DATA { GRAPH <e:h> { <e:b> <e:p> <e:a> } GRAPH <e:k> { <e:b> <e:p> <e:a> } }";

pub const BEFORE: Seen = Seen {
    quads: &[0, 1, 2, 3],
    union: &[],
    graphs: &[(0, &[0]), (1, &[1, 2]), (3, &[3]), (5, &[])],
    names: 2,
    terms: 6,
    next: 8,
};

const BEHIND: Seen = Seen {
    quads: &[0, 3, 4, 5],
    union: &[],
    graphs: &[(0, &[0]), (1, &[]), (3, &[3, 4]), (5, &[5])],
    names: 2,
    terms: 7,
    next: 8,
};

/// Puts the four first quads into the store.
pub fn is_filled(store: &mut Store, quads: &[Quad]) -> Option<bool> {
    let add = quads.get(..4)?;
    if store.next_blank() <= 8 && is_above_blanks(8, add) {
        Some(store.change(&[], add, 8).is_ok())
    } else {
        None
    }
}

fn is_memory(fault: &QFault) -> bool {
    matches!(fault, QFault::Memory)
}

/// What comes of the request over what is to be seen before it.
fn requested(alloc: Global, store: &mut Store, quads: &[Quad]) -> Outcome {
    let outcome = match update(alloc, TEXT, store, 5) {
        Ok(()) => Outcome::Whole,
        Err(fault) if is_memory(&fault) => Outcome::Refused,
        Err(_) => Outcome::Wrong,
    };
    if outcome == Outcome::Whole {
        return reads_back(&*store, quads, &BEHIND).or_wrong(is_seen(&*store, quads, &BEHIND));
    }
    outcome.or_wrong(is_seen(&*store, quads, &BEFORE))
}

fn filled_and_requested(alloc: Global, store: &mut Store, quads: &[Quad]) -> Outcome {
    match is_filled(store, quads) {
        Some(true) => requested(alloc, store, quads),
        Some(false) => Outcome::Refused,
        None => Outcome::Wrong,
    }
}

/// What comes of a request over a store of four quads.
pub fn requests(alloc: Global, hasher: Option<RandomState>) -> Outcome {
    match (quads(alloc), hasher) {
        (Ok(quads), Some(hasher)) => {
            let mut store = Store::new(alloc, 7, hasher);
            let outcome = filled_and_requested(alloc, &mut store, &quads);
            drop(store);
            outcome
        }
        _ => Outcome::Refused,
    }
}

/// Needs four terms, of which the third is in no quad after it.
const FOUR: &str = "INSERT DATA { <e:a> <e:p> <e:b> } ; DELETE DATA { <e:a> <e:p> <e:b> }
; INSERT DATA { <e:a> <e:p> <e:c> }";

const NOTHING: Seen = Seen {
    quads: &[],
    union: &[],
    graphs: &[(0, &[]), (1, &[])],
    names: 0,
    terms: 0,
    next: 0,
};

const ONE_OF_FOUR: Seen = Seen {
    quads: &[6],
    union: &[],
    graphs: &[(0, &[6]), (1, &[])],
    names: 0,
    terms: 4,
    next: 0,
};

fn takes_four(alloc: Global, store: &mut Store, quads: &[Quad]) -> bool {
    update(alloc, FOUR, store, 1).is_ok() && is_seen(&*store, quads, &ONE_OF_FOUR)
}

/// Refused as full, with nothing known after it.
fn refuses_four(alloc: Global, store: &mut Store, quads: &[Quad]) -> bool {
    matches!(update(alloc, FOUR, store, 1), Err(QFault::Full)) && is_seen(&*store, quads, &NOTHING)
}

fn keeps_limits(alloc: Global, hasher: Option<RandomState>) -> bool {
    match (quads(alloc), hasher) {
        (Ok(quads), Some(hasher)) => {
            let mut four = Store::new(alloc, 4, hasher);
            let takes = takes_four(alloc, &mut four, &quads);
            drop(four);
            let mut three = Store::new(alloc, 3, hasher);
            let refuses = refuses_four(alloc, &mut three, &quads);
            drop(three);
            takes && refuses
        }
        _ => false,
    }
}

#[test]
fn known_terms_count_the_removed_too(rt: HostRuntime) {
    assert!(rt; keeps_limits(rt.alloc(), RandomState::new(&rt).ok()));
}
