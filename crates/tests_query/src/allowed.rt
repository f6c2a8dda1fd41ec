//! How many rows an answer may have.

use crate::answers::{put_data, written_answer};
use crate::lines::comes_to;
use crate::outcome::Outcome;
use qs_query::answer;
use qs_store::Store;
use std::alloc::{AllocError, Global};
use std::hash::RandomState;

const TWO: &[u8] = b"<e:a> <e:p> <e:b> .\n<e:c> <e:p> <e:d> .";

/// The answer of each of the two quads.
const ONE: &[&str] = &[
    r#"{"head":{"vars":["s","p","o"]},"results":{"bindings":[{"o":{"type":"uri","value":"e:b"},"p":{"type":"uri","value":"e:p"},"s":{"type":"uri","value":"e:a"}}]}}"#,
    r#"{"head":{"vars":["s","p","o"]},"results":{"bindings":[{"o":{"type":"uri","value":"e:d"},"p":{"type":"uri","value":"e:p"},"s":{"type":"uri","value":"e:c"}}]}}"#,
];

/// Whether one of the two quads is answered.
fn is_one(alloc: Global, store: &Store) -> bool {
    for line in ONE {
        let answer = answer(alloc, "SELECT * { ?s ?p ?o } LIMIT 1", store, 1);
        if written_answer(alloc, answer, line) == Outcome::Whole {
            return true;
        }
    }
    false
}

fn is_limited(alloc: Global, store: &Store) -> bool {
    let answer = answer(alloc, "SELECT * { ?s ?p ?o }", store, 1);
    comes_to(alloc, answer, "F8 too many rows") == Outcome::Whole && is_one(alloc, store)
}

/// Whether of two rows one is allowed where LIMIT asks for no more.
fn is_one_of_two(alloc: Global, hasher: Option<RandomState>) -> bool {
    let Some(hasher) = hasher else {
        return false;
    };
    let mut store = Store::new(alloc, 100, hasher);
    let is = put_data(alloc, hasher, &mut store, TWO) == Outcome::Whole
        && is_limited(alloc, &store);
    drop(store);
    is
}

#[test]
fn one_row_of_two(rt: HostRuntime) {
    assert!(rt; is_one_of_two(rt.alloc(), RandomState::new(&rt).ok()));
}

/// 2,000 quads.
fn many(alloc: Global) -> Result<Vec<u8>, AllocError> {
    let mut data = Vec::new(alloc);
    for number in 0..2000u32 {
        let line = format!(in alloc; "<e:s> <e:p> <e:{number}> .\n")?;
        data.extend_from_slice(line.as_bytes())?;
    }
    Ok(data)
}

/// 8,000,000,000 solutions, of which two are asked for: MINUS shares no variable with them, and leaves each.
const STREAMED: &str =
    "SELECT ?z { ?a ?b ?c . ?d ?e ?f . ?g ?h ?i OPTIONAL { ?j ?k ?l } MINUS { ?m ?n ?o } BIND(1 AS ?z) } LIMIT 2";

const TWICE: &str =
    r#"{"head":{"vars":["z"]},"results":{"bindings":[{"z":{"datatype":"http://www.w3.org/2001/XMLSchema#integer","type":"literal","value":"1"}},{"z":{"datatype":"http://www.w3.org/2001/XMLSchema#integer","type":"literal","value":"1"}}]}}"#;

fn is_streamed(alloc: Global, hasher: RandomState, data: &[u8]) -> bool {
    let mut store = Store::new(alloc, 10_000, hasher);
    let is = put_data(alloc, hasher, &mut store, data) == Outcome::Whole
        && store.count() == 2000
        && written_answer(alloc, answer(alloc, STREAMED, &store, 2), TWICE) == Outcome::Whole;
    drop(store);
    is
}

/// Whether two rows are answered where two are allowed, of however many solutions.
fn are_two_of_many(alloc: Global, hasher: Option<RandomState>) -> bool {
    match (many(alloc), hasher) {
        (Ok(data), Some(hasher)) => {
            let is = is_streamed(alloc, hasher, data.as_slice());
            drop(data);
            is
        }
        _ => false,
    }
}

#[test]
fn two_rows_of_many(rt: HostRuntime) {
    assert!(rt; are_two_of_many(rt.alloc(), RandomState::new(&rt).ok()));
}
