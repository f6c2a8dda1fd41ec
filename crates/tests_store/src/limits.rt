//! Updates at the limits: of solutions, of numbers for blank nodes, and of known terms.

use qs_store::Store;
use qs_terms::QFault;
use qs_update::update;
use std::alloc::Global;
use std::hash::RandomState;

/// What a request results in.
#[derive(Clone, Copy, PartialEq, Eq)]
enum End {
    Accepted,
    TooManyRows,
    Full,
    Other,
}

/// A request with at most so many solutions, what it results in, and how many quads and terms the store has then, with its next number.
struct Row {
    text: &'static str,
    most: u64,
    end: End,
    quads: u128,
    terms: u32,
    next: u64,
}

/// Two solutions, of which one is allowed; an operation without a WHERE has none.
const SOLUTIONS: &[Row] = &[
    Row {
        text: "DELETE { ?s ?p ?o } WHERE { ?s ?p ?o }",
        most: 1,
        end: End::TooManyRows,
        quads: 2,
        terms: 5,
        next: 0,
    },
    Row {
        text: "CLEAR ALL",
        most: 1,
        end: End::Accepted,
        quads: 0,
        terms: 5,
        next: 0,
    },
    Row {
        text: TWO,
        most: 1,
        end: End::Accepted,
        quads: 2,
        terms: 5,
        next: 0,
    },
    Row {
        text: "DELETE { ?s ?p ?o } WHERE { ?s ?p ?o . FILTER(?s = <e:a>) }",
        most: 1,
        end: End::Accepted,
        quads: 1,
        terms: 5,
        next: 0,
    },
];

/// From the next number 2^64 - 2 one number is left that has one after it: two solutions would take two.
const NUMBERS: &[Row] = &[
    Row {
        text: "INSERT DATA { <e:a> <e:q> _:n } ; INSERT DATA { <e:a> <e:q> _:m }",
        most: 9,
        end: End::Full,
        quads: 2,
        terms: 5,
        next: 18_446_744_073_709_551_614,
    },
    Row {
        text: "INSERT { ?s <e:q> _:n } WHERE { ?s <e:p> ?o }",
        most: 9,
        end: End::Full,
        quads: 2,
        terms: 5,
        next: 18_446_744_073_709_551_614,
    },
    Row {
        text: "INSERT { <e:a> <e:q> _:n } WHERE { <e:a> <e:p> ?o }",
        most: 9,
        end: End::Accepted,
        quads: 3,
        terms: 7,
        next: 18_446_744_073_709_551_615,
    },
];

/// Three terms are allowed: a removal knows no new one, and a request needs room for all that its operations insert.
const TERMS: &[Row] = &[
    Row {
        text: "INSERT DATA { <e:a> <e:p> <e:b> } ; INSERT DATA { <e:b> <e:p> <e:c> } ; INSERT DATA { <e:a> <e:p> <e:a> }",
        most: 9,
        end: End::Full,
        quads: 0,
        terms: 0,
        next: 0,
    },
    Row {
        text: "INSERT DATA { <e:a> <e:p> <e:b> }",
        most: 9,
        end: End::Accepted,
        quads: 1,
        terms: 3,
        next: 0,
    },
    Row {
        text: "DELETE DATA { <e:a> <e:p> <e:b> } ; INSERT DATA { <e:a> <e:p> <e:c> }",
        most: 9,
        end: End::Full,
        quads: 1,
        terms: 3,
        next: 0,
    },
    Row {
        text: "INSERT DATA { <e:a> <e:p> <e:a> }",
        most: 9,
        end: End::Accepted,
        quads: 2,
        terms: 3,
        next: 0,
    },
    Row {
        text: "DELETE DATA { <e:z> <e:q> <e:w> }",
        most: 9,
        end: End::Accepted,
        quads: 2,
        terms: 3,
        next: 0,
    },
];

fn end_of(outcome: Result<(), QFault>) -> End {
    match outcome {
        Ok(()) => End::Accepted,
        Err(QFault::TooManyRows) => End::TooManyRows,
        Err(QFault::Full) => End::Full,
        Err(_) => End::Other,
    }
}

/// Whether each request results in what it must, and leaves what it must.
fn come_to(alloc: Global, store: &mut Store, rows: &[Row]) -> bool {
    for row in rows {
        let end = end_of(update(alloc, row.text, store, row.most));
        if end != row.end
            || store.count() != row.quads
            || store.terms() != row.terms
            || store.next_blank() != row.next
        {
            return false;
        }
    }
    true
}

const TWO: &str = "INSERT DATA { <e:a> <e:p> <e:b> . <e:c> <e:p> <e:d> }";

/// Makes this the store's next number.
fn moves_to(store: &mut Store, next: u64) -> bool {
    store.next_blank() <= next && store.change(&[], &[], next).is_ok()
}

fn keeps(alloc: Global, store: &mut Store, next: u64, rows: &[Row]) -> bool {
    update(alloc, TWO, store, 1).is_ok() && moves_to(store, next) && come_to(alloc, store, rows)
}

/// Whether a store of two quads, with that next number, does with the requests what it must.
fn is_kept(alloc: Global, hasher: Option<RandomState>, next: u64, rows: &[Row]) -> bool {
    match hasher {
        Some(hasher) => {
            let mut store = Store::new(alloc, 100, hasher);
            let is = keeps(alloc, &mut store, next, rows);
            drop(store);
            is
        }
        None => false,
    }
}

#[test]
fn solutions_are_limited(rt: HostRuntime) {
    assert!(rt; is_kept(rt.alloc(), RandomState::new(&rt).ok(), 0, SOLUTIONS));
}

#[test]
fn numbers_of_blank_nodes_are_limited(rt: HostRuntime) {
    let next = 18_446_744_073_709_551_614;
    assert!(rt; is_kept(rt.alloc(), RandomState::new(&rt).ok(), next, NUMBERS));
}

fn three_terms(alloc: Global, hasher: Option<RandomState>) -> bool {
    match hasher {
        Some(hasher) => {
            let mut store = Store::new(alloc, 3, hasher);
            let is = come_to(alloc, &mut store, TERMS);
            drop(store);
            is
        }
        None => false,
    }
}

#[test]
fn known_terms_are_limited(rt: HostRuntime) {
    assert!(rt; three_terms(rt.alloc(), RandomState::new(&rt).ok()));
}
