//! Queries that are answered whole or refused, each over data of its own; the answers are worked out by hand.

use crate::answers::{put_data, written_answer};
use crate::outcome::Outcome;
use qs_query::answer;
use qs_store::Store;
use std::alloc::Global;
use std::hash::RandomState;

struct Case {
    data: &'static [u8],
    text: &'static str,
    line: &'static str,
}

const OPTIONAL: &[u8] =
    b"<e:a> <e:p> \"1\"^^<http://www.w3.org/2001/XMLSchema#integer> .\n<e:a> <e:q> <e:b> .";

// What `<e:v>` tells of `<e:r1>` to `<e:r6>`: nothing, a blank node, an IRI, 10 and 9, and a string.
const ORDERED: &[u8] =
    b"<e:r1> <e:k> <e:k> .\n<e:r2> <e:k> <e:k> .\n<e:r3> <e:k> <e:k> .\n<e:r4> <e:k> <e:k> .\n<e:r5> <e:k> <e:k> .\n<e:r6> <e:k> <e:k> .\n<e:r2> <e:v> _:b .\n<e:r3> <e:v> <e:i> .\n<e:r4> <e:v> \"10\"^^<http://www.w3.org/2001/XMLSchema#integer> .\n<e:r5> <e:v> \"9\"^^<http://www.w3.org/2001/XMLSchema#integer> .\n<e:r6> <e:v> \"10\" .";

/// A closure round a cycle, an optional part with its condition and with a filter in a group of its own, rows in order and in the reverse order,
/// rows without repeats that are sliced, and a graph that leaves out a literal as a subject.
const CASES: &[Case] = &[
    Case {
        data: b"<e:a> <e:p> <e:b> .\n<e:b> <e:p> <e:a> .",
        text: "PREFIX : <e:> SELECT * { ?x :p+ ?y } ORDER BY ?x ?y",
        line: r#"{"head":{"vars":["x","y"]},"results":{"bindings":[{"x":{"type":"uri","value":"e:a"},"y":{"type":"uri","value":"e:a"}},{"x":{"type":"uri","value":"e:a"},"y":{"type":"uri","value":"e:b"}},{"x":{"type":"uri","value":"e:b"},"y":{"type":"uri","value":"e:a"}},{"x":{"type":"uri","value":"e:b"},"y":{"type":"uri","value":"e:b"}}]}}"#,
    },
    Case {
        data: OPTIONAL,
        text: "PREFIX : <e:> SELECT * { ?x :p ?v OPTIONAL { ?x :q ?w FILTER(?v = 1) } }",
        line: r#"{"head":{"vars":["x","v","w"]},"results":{"bindings":[{"v":{"datatype":"http://www.w3.org/2001/XMLSchema#integer","type":"literal","value":"1"},"w":{"type":"uri","value":"e:b"},"x":{"type":"uri","value":"e:a"}}]}}"#,
    },
    Case {
        data: OPTIONAL,
        text: "PREFIX : <e:> SELECT * { ?x :p ?v OPTIONAL { { ?x :q ?w FILTER(?v = 1) } } }",
        line: r#"{"head":{"vars":["x","v","w"]},"results":{"bindings":[{"v":{"datatype":"http://www.w3.org/2001/XMLSchema#integer","type":"literal","value":"1"},"x":{"type":"uri","value":"e:a"}}]}}"#,
    },
    Case {
        data: ORDERED,
        text: "PREFIX : <e:> SELECT ?s { ?s :k :k OPTIONAL { ?s :v ?v } } ORDER BY ?v",
        line: r#"{"head":{"vars":["s"]},"results":{"bindings":[{"s":{"type":"uri","value":"e:r1"}},{"s":{"type":"uri","value":"e:r2"}},{"s":{"type":"uri","value":"e:r3"}},{"s":{"type":"uri","value":"e:r5"}},{"s":{"type":"uri","value":"e:r4"}},{"s":{"type":"uri","value":"e:r6"}}]}}"#,
    },
    Case {
        data: ORDERED,
        text: "PREFIX : <e:> SELECT ?s { ?s :k :k OPTIONAL { ?s :v ?v } } ORDER BY DESC(?v)",
        line: r#"{"head":{"vars":["s"]},"results":{"bindings":[{"s":{"type":"uri","value":"e:r6"}},{"s":{"type":"uri","value":"e:r4"}},{"s":{"type":"uri","value":"e:r5"}},{"s":{"type":"uri","value":"e:r3"}},{"s":{"type":"uri","value":"e:r2"}},{"s":{"type":"uri","value":"e:r1"}}]}}"#,
    },
    Case {
        data: b"",
        text: "PREFIX : <e:> SELECT DISTINCT ?x { VALUES (?x ?y) { (1 1) (2 2) (1 3) (3 4) } } ORDER BY ?y LIMIT 2 OFFSET 1",
        line: r#"{"head":{"vars":["x"]},"results":{"bindings":[{"x":{"datatype":"http://www.w3.org/2001/XMLSchema#integer","type":"literal","value":"2"}},{"x":{"datatype":"http://www.w3.org/2001/XMLSchema#integer","type":"literal","value":"3"}}]}}"#,
    },
    Case {
        data: b"",
        text: "PREFIX : <e:> SELECT DISTINCT ?x { VALUES (?x ?y) { (1 1) (2 2) (1 3) (3 4) } } ORDER BY ?y LIMIT 0 OFFSET 1",
        line: r#"{"head":{"vars":["x"]},"results":{"bindings":[]}}"#,
    },
    Case {
        data: b"<e:a> <e:p> <e:b> .\n<e:a> <e:p> \"1\"^^<http://www.w3.org/2001/XMLSchema#integer> .",
        text: "PREFIX : <e:> CONSTRUCT { ?o :q ?s } WHERE { ?s :p ?o }",
        line: "<e:b> <e:q> <e:a> .\n",
    },
];

fn answered(alloc: Global, store: &Store, case: &Case) -> Outcome {
    written_answer(alloc, answer(alloc, case.text, store, 10), case.line)
}

/// Answers the query by `answered`; where memory ran out, it is answered once more.
fn answer_outcome(alloc: Global, store: &Store, case: &Case) -> Outcome {
    let outcome = answered(alloc, store, case);
    if outcome == Outcome::Refused && answered(alloc, store, case) != Outcome::Whole {
        return Outcome::Wrong;
    }
    outcome
}

fn case_outcome(alloc: Global, hasher: RandomState, case: &Case) -> Outcome {
    let mut store = Store::new(alloc, 100, hasher);
    let outcome = match put_data(alloc, hasher, &mut store, case.data) {
        Outcome::Whole => answer_outcome(alloc, &store, case),
        other => other,
    };
    drop(store);
    outcome
}

/// Whether each query is answered.
pub fn outcome(alloc: Global, hasher: Option<RandomState>) -> Outcome {
    let Some(hasher) = hasher else {
        return Outcome::Refused;
    };
    for case in CASES {
        match case_outcome(alloc, hasher, case) {
            Outcome::Whole => {}
            other => return other,
        }
    }
    Outcome::Whole
}
