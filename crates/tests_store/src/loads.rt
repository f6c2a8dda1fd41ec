//! Bytes of N-Quads that are put into a store of at most ten terms.

use crate::outcome::Outcome;
use qs_nquads::{NqFault, NqFaultKind};
use qs_store::{Store, StoreFault};
use qs_store_load::{LoadFault, load};
use std::alloc::Global;
use std::hash::RandomState;

/// A text, what its load results in, and how many quads and terms the store has then, with its next number.
struct Row {
    text: &'static str,
    want: Result<(), LoadFault>,
    quads: u128,
    terms: u32,
    next: u64,
}

const NOTHING: Row = Row {
    text: "",
    want: Ok(()),
    quads: 0,
    terms: 0,
    next: 0,
};

/// Texts that are put in one after another. Two statements of the first are the same; labels of the second are new, whatever the first
/// had. In the third the second line has a relative IRI. The terms of the others find no room, but a fault of the text comes before that.
const ROWS: &[Row] = &[
    Row {
        text: "<http://e/s> <http://e/p> \"a\" .\n_:x <http://e/p> _:y <http://e/g> .\n<http://e/s> <http://e/p> \"a\" .\n",
        want: Ok(()),
        quads: 2,
        terms: 6,
        next: 2,
    },
    Row {
        text: "_:x <http://e/p> <http://e/s> .\n_:z <http://e/q> \"b\"@en .",
        want: Ok(()),
        quads: 4,
        terms: 10,
        next: 4,
    },
    Row {
        text: "_:n <http://e/p> \"a\" .\n<http://e/s> <p> \"a\" .\n",
        want: Err(LoadFault::Text(NqFault {
            line: 2,
            kind: NqFaultKind::Iri,
        })),
        quads: 4,
        terms: 10,
        next: 4,
    },
    Row {
        text: "<http://e/t> <http://e/p> \"a\" .\n<http://e/s> <http://e/q> \"a\" .\n",
        want: Err(LoadFault::Store(StoreFault::Full)),
        quads: 4,
        terms: 10,
        next: 4,
    },
    Row {
        text: "<http://e/t> <http://e/p> \"a\" .\n\n.\n",
        want: Err(LoadFault::Text(NqFault {
            line: 3,
            kind: NqFaultKind::Shape,
        })),
        quads: 4,
        terms: 10,
        next: 4,
    },
];

pub fn is_out_of_memory(loaded: &Result<(), LoadFault>) -> bool {
    match loaded {
        Err(LoadFault::Text(fault)) => fault.kind == NqFaultKind::Memory,
        Err(LoadFault::Store(fault)) => *fault == StoreFault::Memory,
        Ok(()) => false,
    }
}

fn holds(store: &Store, row: &Row) -> bool {
    store.count() == row.quads && store.terms() == row.terms && store.next_blank() == row.next
}

fn step(alloc: Global, hasher: RandomState, store: &mut Store, before: &Row, row: &Row) -> Outcome {
    let loaded = load(alloc, hasher, store, row.text.as_bytes());
    if is_out_of_memory(&loaded) {
        Outcome::Refused.or_wrong(holds(store, before))
    } else {
        Outcome::Whole.or_wrong(loaded == row.want && holds(store, row))
    }
}

fn steps(alloc: Global, hasher: RandomState, store: &mut Store) -> Outcome {
    let mut before = &NOTHING;
    for row in ROWS {
        let outcome = step(alloc, hasher, store, before, row);
        if outcome != Outcome::Whole {
            return outcome;
        }
        before = row;
    }
    Outcome::Whole
}

/// Whether all those texts result in what they ought to.
pub fn outcome(alloc: Global, hasher: Option<RandomState>) -> Outcome {
    let Some(hasher) = hasher else {
        return Outcome::Refused;
    };
    let mut store = Store::new(alloc, 10, hasher);
    let outcome = steps(alloc, hasher, &mut store);
    drop(store);
    outcome
}
