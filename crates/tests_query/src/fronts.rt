//! Each front of a text or of data is read, or refused at the place that is due, worked out by hand from the grammars.
//!
//! A front that is cut between tokens is refused at its end, where more tokens are wanted. One that is cut in a token is refused at that token,
//! unless what is left of it fits there: a `?` after the IRI of a path, and `:` for `:p`.

use crate::lines::written;
use crate::outcome::Outcome;
use qs_nquads::{NqFaultKind, read, text};
use qs_syntax::{drop_query, drop_update, parse_query, parse_update};
use qs_terms::QFault;
use std::alloc::Global;

/// What the fronts from some length on result in.
#[derive(Clone, Copy)]
enum Due {
    Read,
    /// A fault at the end of the front.
    End,
    /// A fault at this place.
    At(usize),
}

/// A text, and what its fronts result in, by their least lengths.
struct Text {
    text: &'static str,
    is_update: bool,
    due: &'static [(usize, Due)],
}

const TEXTS: &[Text] = &[
    Text {
        text: "PREFIX : <http://e/> SELECT * { ?x :p ?v OPTIONAL { ?x :q ?w FILTER(?v = 1) } }",
        is_update: false,
        due: &[
            (0, Due::End),
            (1, Due::At(0)),
            (6, Due::End),
            (10, Due::At(9)),
            (20, Due::End),
            (22, Due::At(21)),
            (27, Due::End),
            (33, Due::At(32)),
            (34, Due::End),
            (42, Due::At(41)),
            (49, Due::End),
            (53, Due::At(52)),
            (54, Due::End),
            (62, Due::At(61)),
            (67, Due::End),
            (69, Due::At(68)),
            (70, Due::End),
            (79, Due::Read),
        ],
    },
    Text {
        text: "PREFIX : <http://e/> SELECT * { ?x :p ?v OPTIONAL { { ?x :q ?w FILTER(?v = 1) } } }",
        is_update: false,
        due: &[
            (0, Due::End),
            (1, Due::At(0)),
            (6, Due::End),
            (10, Due::At(9)),
            (20, Due::End),
            (22, Due::At(21)),
            (27, Due::End),
            (33, Due::At(32)),
            (34, Due::End),
            (42, Due::At(41)),
            (49, Due::End),
            (55, Due::At(54)),
            (56, Due::End),
            (64, Due::At(63)),
            (69, Due::End),
            (71, Due::At(70)),
            (72, Due::End),
            (83, Due::Read),
        ],
    },
    Text {
        text: "PREFIX : <http://e/> SELECT DISTINCT ?x { VALUES (?x ?y) { (1 1) (2 2) (1 3) (3 4) } } ORDER BY ?y LIMIT 2 OFFSET 1",
        is_update: false,
        due: &[
            (0, Due::End),
            (1, Due::At(0)),
            (6, Due::End),
            (10, Due::At(9)),
            (20, Due::End),
            (22, Due::At(21)),
            (27, Due::End),
            (29, Due::At(28)),
            (36, Due::End),
            (38, Due::At(37)),
            (39, Due::End),
            (43, Due::At(42)),
            (48, Due::End),
            (51, Due::At(50)),
            (52, Due::End),
            (54, Due::At(53)),
            (55, Due::End),
            (86, Due::Read),
            (88, Due::At(87)),
            (92, Due::End),
            (94, Due::At(93)),
            (95, Due::End),
            (97, Due::At(96)),
            (98, Due::Read),
            (100, Due::At(99)),
            (104, Due::End),
            (106, Due::Read),
            (108, Due::At(107)),
            (113, Due::End),
            (115, Due::Read),
        ],
    },
    Text {
        text: "PREFIX : <http://e/> SELECT DISTINCT ?x { VALUES (?x ?y) { (1 1) (2 2) (1 3) (3 4) } } ORDER BY ?y LIMIT 0 OFFSET 1",
        is_update: false,
        due: &[
            (0, Due::End),
            (1, Due::At(0)),
            (6, Due::End),
            (10, Due::At(9)),
            (20, Due::End),
            (22, Due::At(21)),
            (27, Due::End),
            (29, Due::At(28)),
            (36, Due::End),
            (38, Due::At(37)),
            (39, Due::End),
            (43, Due::At(42)),
            (48, Due::End),
            (51, Due::At(50)),
            (52, Due::End),
            (54, Due::At(53)),
            (55, Due::End),
            (86, Due::Read),
            (88, Due::At(87)),
            (92, Due::End),
            (94, Due::At(93)),
            (95, Due::End),
            (97, Due::At(96)),
            (98, Due::Read),
            (100, Due::At(99)),
            (104, Due::End),
            (106, Due::Read),
            (108, Due::At(107)),
            (113, Due::End),
            (115, Due::Read),
        ],
    },
    Text {
        text: "PREFIX : <http://e/> DELETE { ?s ?p ?o } INSERT { ?s ?p ?o } WHERE { ?s ?p ?o }",
        is_update: true,
        due: &[
            (0, Due::Read),
            (1, Due::At(0)),
            (6, Due::End),
            (10, Due::At(9)),
            (20, Due::Read),
            (22, Due::At(21)),
            (27, Due::End),
            (31, Due::At(30)),
            (32, Due::End),
            (34, Due::At(33)),
            (35, Due::End),
            (37, Due::At(36)),
            (38, Due::End),
            (42, Due::At(41)),
            (47, Due::End),
            (51, Due::At(50)),
            (52, Due::End),
            (54, Due::At(53)),
            (55, Due::End),
            (57, Due::At(56)),
            (58, Due::End),
            (62, Due::At(61)),
            (66, Due::End),
            (70, Due::At(69)),
            (71, Due::End),
            (73, Due::At(72)),
            (74, Due::End),
            (76, Due::At(75)),
            (77, Due::End),
            (79, Due::Read),
        ],
    },
    Text {
        text: "PREFIX : <http://e/> INSERT { ?s :q _:n } WHERE { ?s :p ?o }",
        is_update: true,
        due: &[
            (0, Due::Read),
            (1, Due::At(0)),
            (6, Due::End),
            (10, Due::At(9)),
            (20, Due::Read),
            (22, Due::At(21)),
            (27, Due::End),
            (31, Due::At(30)),
            (32, Due::End),
            (37, Due::At(36)),
            (39, Due::End),
            (43, Due::At(42)),
            (47, Due::End),
            (51, Due::At(50)),
            (52, Due::End),
            (60, Due::Read),
        ],
    },
];

fn due_at(steps: &[(usize, Due)], len: usize) -> Due {
    let mut due = Due::Read;
    for (from, next) in steps {
        if *from <= len {
            due = *next;
        }
    }
    due
}

fn is_due(fault: &Option<QFault>, len: usize, due: Due) -> bool {
    match (fault, due) {
        (None, Due::Read) => true,
        (Some(QFault::Syntax { place }), Due::End) => *place == len,
        (Some(QFault::Syntax { place }), Due::At(at)) => *place == at,
        _ => false,
    }
}

fn fault_of_query(alloc: Global, front: &str) -> Option<QFault> {
    match parse_query(alloc, front) {
        Ok(query) => {
            drop_query(query);
            None
        }
        Err(fault) => Some(fault),
    }
}

fn fault_of_update(alloc: Global, front: &str) -> Option<QFault> {
    match parse_update(alloc, front) {
        Ok(update) => {
            drop_update(update);
            None
        }
        Err(fault) => Some(fault),
    }
}

fn is_front(alloc: Global, front: &[u8], is_update: bool, due: Due) -> bool {
    let Ok(text) = str::from_utf8(front) else {
        return false;
    };
    let fault = if is_update {
        fault_of_update(alloc, text)
    } else {
        fault_of_query(alloc, text)
    };
    let is = is_due(&fault, front.len(), due);
    drop(fault);
    is
}

/// Whether each front of the text, the whole text among them, results in what is due.
fn are_due(alloc: Global, text: &Text) -> bool {
    let bytes = text.text.as_bytes();
    for len in 0..=bytes.len() {
        if !is_front(alloc, &bytes[..len], text.is_update, due_at(text.due, len)) {
            return false;
        }
    }
    true
}

#[test]
fn of_texts(rt: HostRuntime) {
    for text in TEXTS {
        assert!(rt; are_due(rt.alloc(), text), "{}", text.text);
    }
}

/// A datatype that isn't written, a tag in capitals, and the first statement again.
const DATA: &[u8] = b"<http://e/s> <http://e/p> \"x\"^^<http://www.w3.org/2001/XMLSchema#string> .
<http://e/s> <http://e/p> \"a\"@EN-us .
<http://e/s> <http://e/p> \"x\"^^<http://www.w3.org/2001/XMLSchema#string> .
";

/// What the fronts of these data result in, by their least lengths, and the lines of their faults. The second line begins at 75, and the third
/// at 113.
const FAULTS: &[(usize, Option<(usize, NqFaultKind)>)] = &[
    (0, None),
    (1, Some((1, NqFaultKind::Token))),
    (12, Some((1, NqFaultKind::Shape))),
    (14, Some((1, NqFaultKind::Token))),
    (25, Some((1, NqFaultKind::Shape))),
    (27, Some((1, NqFaultKind::Token))),
    (29, Some((1, NqFaultKind::Shape))),
    (30, Some((1, NqFaultKind::Token))),
    (31, Some((1, NqFaultKind::Shape))),
    (32, Some((1, NqFaultKind::Token))),
    (72, Some((1, NqFaultKind::Shape))),
    (74, None),
    (76, Some((2, NqFaultKind::Token))),
    (87, Some((2, NqFaultKind::Shape))),
    (89, Some((2, NqFaultKind::Token))),
    (100, Some((2, NqFaultKind::Shape))),
    (102, Some((2, NqFaultKind::Token))),
    (104, Some((2, NqFaultKind::Shape))),
    // `@` is no tag, `@EN` is one, and `-` alone is no token
    (105, Some((2, NqFaultKind::Token))),
    (106, Some((2, NqFaultKind::Shape))),
    (108, Some((2, NqFaultKind::Token))),
    (109, Some((2, NqFaultKind::Shape))),
    (112, None),
    (114, Some((3, NqFaultKind::Token))),
    (125, Some((3, NqFaultKind::Shape))),
    (127, Some((3, NqFaultKind::Token))),
    (138, Some((3, NqFaultKind::Shape))),
    (140, Some((3, NqFaultKind::Token))),
    (142, Some((3, NqFaultKind::Shape))),
    (143, Some((3, NqFaultKind::Token))),
    (144, Some((3, NqFaultKind::Shape))),
    (145, Some((3, NqFaultKind::Token))),
    (185, Some((3, NqFaultKind::Shape))),
    (187, None),
];

/// The lines of the quads that are read, by the least lengths of the fronts.
const LINES: &[(usize, &str)] = &[
    (0, ""),
    (74, "<http://e/s> <http://e/p> \"x\" .\n"),
    (
        112,
        "<http://e/s> <http://e/p> \"a\"@en-us .\n<http://e/s> <http://e/p> \"x\" .\n",
    ),
];

fn fault_at(len: usize) -> Option<(usize, NqFaultKind)> {
    let mut fault = None;
    for (from, next) in FAULTS {
        if *from <= len {
            fault = *next;
        }
    }
    fault
}

fn lines_at(len: usize) -> &'static str {
    let mut lines = "";
    for (from, next) in LINES {
        if *from <= len {
            lines = next;
        }
    }
    lines
}

fn is_data_front(alloc: Global, front: &[u8]) -> bool {
    let due = fault_at(front.len());
    match read(alloc, front, 0) {
        Ok((quads, next)) => {
            let lines = lines_at(front.len());
            let are_written = written(text(alloc, quads.as_slice()), lines) == Outcome::Whole;
            drop(quads);
            due.is_none() && next == 0 && are_written
        }
        Err(fault) => match due {
            Some((line, kind)) => fault.line == line && fault.kind == kind,
            None => false,
        },
    }
}

#[test]
fn of_data(rt: HostRuntime) {
    for len in 0..=DATA.len() {
        assert!(rt; is_data_front(rt.alloc(), &DATA[..len]), "{len}");
    }
}
