//! Answers, and how many solutions they may have.

use crate::lines::{comes_to, written};
use crate::outcome::Outcome;
use qs_algebra::{drop_pattern, translate};
use qs_nquads::{NqFaultKind, read_hashed};
use qs_query::{Answer, answer, solutions};
use qs_results::{json, ntriples};
use qs_store::{Store, StoreFault};
use qs_syntax::{drop_query, parse_query};
use qs_terms::dataset::is_above_blanks;
use qs_terms::{QFault, Quad, Term, TermFault};
use std::alloc::Global;
use std::hash::RandomState;

/// Queries over the data below, the greatest number of solutions, and the line of the fault, or nothing where there is none.
const LIMITED: &[(&str, u64, &str)] = &[
    ("SELECT * { ?s ?p ?o }", 2, "F8 too many rows"),
    ("SELECT * { ?s ?p ?o }", 3, ""),
    ("SELECT ?p { ?s ?p ?o } LIMIT 1", 1, ""),
    ("SELECT ?p { ?s ?p ?o } OFFSET 1", 2, ""),
    ("SELECT ?p { ?s ?p ?o } OFFSET 1", 1, "F8 too many rows"),
    ("SELECT ?p { ?s ?p ?o } LIMIT 0", 0, ""),
    ("SELECT * { ?s ?p ", 0, "F1 syntax at 17"),
    ("SELECT DISTINCT ?p { ?s ?p ?o }", 2, ""),
    ("SELECT DISTINCT ?p { ?s ?p ?o }", 1, "F8 too many rows"),
    ("ASK { ?s ?p ?o }", 0, ""),
];

fn limited_outcome(alloc: Global, store: &Store) -> Outcome {
    for (text, most, line) in LIMITED {
        match comes_to(alloc, answer(alloc, text, store, *most), line) {
            Outcome::Whole => {}
            other => return other,
        }
    }
    Outcome::Whole
}

const DATA: &[u8] =
    b"<u:a> <u:p> <u:b> .\n_:c <u:p> \"x\\t\"@EN .\n<u:a> <u:q> \"1\"^^<u:t> .\n<u:a> <u:p> _:c <u:g> .";

/// Queries with all forms that have an answer, and their answers, worked out by hand.
///
/// Of the first: `<u:a> <u:p> <u:b>` and `_:c <u:p> "x\t"@en` by the left side of UNION; `<u:a> <u:q> "1"` by the right one, for each of
/// two triples of `u:p`; ascending, the blank node is before `<u:a>`, and the IRI before the literal. Of the second: two solutions of
/// `?x p:p ?y`, each twice; MINUS takes those of `_:c` away, which is the object in the named graph, and what is left is one row. Of the
/// third, by a path, descending: `"1"` to `<u:a>` by `^p:q`, and the two of `p:p`; the first is left out. Of the CONSTRUCT, ascending:
/// `_:b0` with its literal, which is no subject, and then `<u:a>`.
const ANSWERED: &[(&str, &str)] = &[
    (
        "PREFIX p: <u:> SELECT REDUCED ?x ?y ?z { { ?x p:p ?y } UNION { [] p:p _:n . ?x p:q ?y } { ?x ?p ?y . ?x ?p ?y } } ORDER BY ?x ?y LIMIT 9 OFFSET 0",
        r#"{"head":{"vars":["x","y","z"]},"results":{"bindings":[{"x":{"type":"bnode","value":"b0"},"y":{"type":"literal","value":"x\t","xml:lang":"en"}},{"x":{"type":"uri","value":"u:a"},"y":{"type":"uri","value":"u:b"}},{"x":{"type":"uri","value":"u:a"},"y":{"datatype":"u:t","type":"literal","value":"1"}},{"x":{"type":"uri","value":"u:a"},"y":{"datatype":"u:t","type":"literal","value":"1"}}]}}"#,
    ),
    (
        "PREFIX p: <u:> SELECT DISTINCT ?x ?v ?w { {} UNION {} ?x p:p ?y OPTIONAL { ?x p:q ?z FILTER(ISIRI(?y)) } BIND(CONCAT(STR(?z), \"!\") AS ?v) FILTER(BOUND(?x)) VALUES ?w { 5 } MINUS { GRAPH ?g { ?s ?p ?x } } }",
        r#"{"head":{"vars":["x","v","w"]},"results":{"bindings":[{"v":{"type":"literal","value":"1!"},"w":{"datatype":"http://www.w3.org/2001/XMLSchema#integer","type":"literal","value":"5"},"x":{"type":"uri","value":"u:a"}}]}}"#,
    ),
    (
        "PREFIX p: <u:> SELECT (STR(?y) AS ?v) ?x { ?x p:p|^p:q ?y } ORDER BY DESC(?x) LIMIT 2 OFFSET 1",
        r#"{"head":{"vars":["v","x"]},"results":{"bindings":[{"v":{"type":"literal","value":"u:b"},"x":{"type":"uri","value":"u:a"}},{"v":{"type":"literal","value":"x\t"},"x":{"type":"bnode","value":"b0"}}]}}"#,
    ),
    (
        "CONSTRUCT { _:n <u:q> ?x . ?o <u:r> [] } { ?x <u:p> ?o } ORDER BY ?x",
        "<u:b> <u:r> _:b4 .\n_:b1 <u:q> _:b0 .\n_:b3 <u:q> <u:a> .\n",
    ),
    (
        "ASK { ?s <u:q> ?o FILTER(?s = <u:a>) } OFFSET 1",
        r#"{"boolean":true,"head":{}}"#,
    ),
];

/// Whether the answer is written as this line.
pub fn written_answer(alloc: Global, answer: Result<Answer, QFault>, line: &str) -> Outcome {
    match answer {
        Ok(answer) => {
            let text = match &answer {
                Answer::Solutions { vars: _, rows: _ } => json(alloc, &answer),
                Answer::Truth(_) => json(alloc, &answer),
                Answer::Graph(_) => ntriples(alloc, &answer),
            };
            drop(answer);
            written(text, line)
        }
        Err(fault) => Outcome::of_fault(&fault),
    }
}

fn written_outcome(alloc: Global, store: &Store) -> Outcome {
    for (text, line) in ANSWERED {
        match written_answer(alloc, answer(alloc, text, store, 4), line) {
            Outcome::Whole => {}
            other => return other,
        }
    }
    Outcome::Whole
}

/// All solutions of one pattern in the default graph, and in a named one.
const DEFAULT_LINE: &str =
    r#"{"head":{"vars":["s","o"]},"results":{"bindings":[{"o":{"type":"uri","value":"u:b"},"s":{"type":"uri","value":"u:a"}},{"o":{"type":"literal","value":"x\t","xml:lang":"en"},"s":{"type":"bnode","value":"b0"}}]}}"#;

const NAMED_LINE: &str =
    r#"{"head":{"vars":["s","o"]},"results":{"bindings":[{"o":{"type":"bnode","value":"b0"},"s":{"type":"uri","value":"u:a"}}]}}"#;

fn in_graph(alloc: Global, store: &Store, graph: Option<&Term>) -> Result<Answer, QFault> {
    let query = parse_query(alloc, "SELECT * { ?s <u:p> ?o }")?;
    let pattern = translate(alloc, &query);
    drop_query(query);
    let pattern = pattern?;
    let answer = solutions(alloc, &pattern, store, graph, 2);
    drop_pattern(pattern);
    answer
}

fn graphs_outcome(alloc: Global, store: &Store) -> Outcome {
    match written_answer(alloc, in_graph(alloc, store, None), DEFAULT_LINE) {
        Outcome::Whole => {}
        other => return other,
    }
    match Term::iri(alloc, "u:g") {
        Ok(name) => {
            let answer = in_graph(alloc, store, Some(&name));
            drop(name);
            written_answer(alloc, answer, NAMED_LINE)
        }
        Err(TermFault::Memory) => Outcome::Refused,
        Err(_) => Outcome::Wrong,
    }
}

fn answered_outcome(alloc: Global, store: &Store) -> Outcome {
    let outcome = match limited_outcome(alloc, store) {
        Outcome::Whole => written_outcome(alloc, store),
        other => other,
    };
    match outcome {
        Outcome::Whole => graphs_outcome(alloc, store),
        other => other,
    }
}

/// Adds the quads, after which this is the next blank node's number.
fn put(store: &mut Store, quads: &[Quad], next: u64) -> Outcome {
    if store.next_blank() > next || !is_above_blanks(next, quads) {
        return Outcome::Wrong;
    }
    match store.change(&[], quads, next) {
        Ok(()) => Outcome::Whole,
        Err(StoreFault::Memory) => Outcome::Refused,
        Err(StoreFault::Full) => Outcome::Wrong,
    }
}

/// Puts the quads of the data into an empty store.
pub fn put_data(alloc: Global, hasher: RandomState, store: &mut Store, data: &[u8]) -> Outcome {
    match read_hashed(alloc, hasher, data, 0) {
        Ok((quads, next)) => {
            let outcome = put(store, quads.as_slice(), next);
            drop(quads);
            outcome
        }
        Err(fault) if fault.kind == NqFaultKind::Memory => Outcome::Refused,
        Err(_) => Outcome::Wrong,
    }
}

/// Each of three solutions takes a number, and there is no next number after the third.
fn full_outcome(alloc: Global, store: &mut Store) -> Outcome {
    match put(store, &[], u64::MAX - 2) {
        Outcome::Whole => {
            let text = "CONSTRUCT { [] <u:p> ?o } { ?s ?p ?o }";
            comes_to(alloc, answer(alloc, text, &*store, 3), "F10 full")
        }
        other => other,
    }
}

fn stored_outcome(alloc: Global, hasher: RandomState, store: &mut Store) -> Outcome {
    let outcome = match put_data(alloc, hasher, store, DATA) {
        Outcome::Whole => answered_outcome(alloc, &*store),
        other => other,
    };
    match outcome {
        Outcome::Whole => full_outcome(alloc, store),
        other => other,
    }
}

/// Whether data are read and put into a store, queries over it are answered or refused, and an answer is written.
pub fn outcome(alloc: Global, hasher: Option<RandomState>) -> Outcome {
    match hasher {
        Some(hasher) => {
            let mut store = Store::new(alloc, 100, hasher);
            let outcome = stored_outcome(alloc, hasher, &mut store);
            drop(store);
            outcome
        }
        None => Outcome::Refused,
    }
}
