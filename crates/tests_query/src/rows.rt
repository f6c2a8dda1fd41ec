//! Data that are read with no hasher, the first label as number 0.

use crate::lines::written;
use crate::outcome::Outcome;
use qs_nquads::{NqFault, NqFaultKind, read, text};
use std::alloc::Global;

/// Data with the lines of their quads and the next blank node's number. Some end with no line end, and of the last the second label
/// comes before the first in the order of labels.
const READ: &[(&str, &str, u64)] = &[
    (
        "<http://e/s> <http://e/p> \"x\"^^<http://www.w3.org/2001/XMLSchema#string> .\n<http://e/s> <http://e/p> \"a\"@EN-us .\n<http://e/s> <http://e/p> \"x\"^^<http://www.w3.org/2001/XMLSchema#string> .\n",
        "<http://e/s> <http://e/p> \"a\"@en-us .\n<http://e/s> <http://e/p> \"x\" .\n",
        0,
    ),
    ("_:x <http://e/p> _:y .", "_:b0 <http://e/p> _:b1 .\n", 2),
    (
        "_:y <http://e/p> _:x .\n_:x <http://e/p> _:y .",
        "_:b0 <http://e/p> _:b1 .\n_:b1 <http://e/p> _:b0 .\n",
        2,
    ),
];

/// Data with the fault in their only line.
const REFUSED: &[(&str, NqFaultKind)] = &[
    ("<http://e/s> <http://e/p> \"a", NqFaultKind::Token),
    ("\"a\" <http://e/p> <http://e/o> .", NqFaultKind::Shape),
    ("<s> <http://e/p> <http://e/o> .", NqFaultKind::Iri),
    (
        "<http://e/s> <http://e/p> \"\\uD800\" .",
        NqFaultKind::Escape,
    ),
];

fn is_read(alloc: Global, data: &str, lines: &str, next: u64) -> bool {
    match read(alloc, data.as_bytes(), 0) {
        Ok((quads, number)) => {
            let are_written = written(text(alloc, quads.as_slice()), lines) == Outcome::Whole;
            drop(quads);
            are_written && number == next
        }
        Err(_) => false,
    }
}

fn is_refused(alloc: Global, data: &str, kind: NqFaultKind) -> bool {
    match read(alloc, data.as_bytes(), 0) {
        Ok((quads, _)) => {
            drop(quads);
            false
        }
        Err(fault) => fault == NqFault { line: 1, kind },
    }
}

#[test]
fn reads_rows(rt: HostRuntime) {
    for (data, lines, next) in READ {
        assert!(rt; is_read(rt.alloc(), data, lines, *next), "{data}");
    }
    for (data, kind) in REFUSED {
        assert!(rt; is_refused(rt.alloc(), data, *kind), "{data}");
    }
}
