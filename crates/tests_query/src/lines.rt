//! How faults are printed.

use crate::outcome::Outcome;
use qs_nquads::{NqFault, NqFaultKind};
use qs_results::{data_fault_line, fault_line, out_of_memory_line};
use qs_terms::{QFault, Text};
use std::alloc::{AllocError, Global};
use std::fmt::Display;

pub fn written(made: Result<String, AllocError>, line: &str) -> Outcome {
    match made {
        Ok(text) => Outcome::of_answer(text.as_str() == line),
        Err(_) => Outcome::Refused,
    }
}

fn is_displayed(alloc: Global, fault: &impl Display, line: &str) -> bool {
    written(format!(in alloc; "{fault}"), line) == Outcome::Whole
}

// Whether a line is that of the fault, and what the fault is displayed as.
fn line_outcome(alloc: Global, fault: &QFault, line: &str) -> Outcome {
    match written(fault_line(alloc, fault), line) {
        Outcome::Whole => written(format!(in alloc; "{fault}"), line),
        other => other,
    }
}

/// Whether what was made of a text has the fault of this line, or none where the line is empty.
pub fn comes_to<T: Drop>(alloc: Global, made: Result<T, QFault>, line: &str) -> Outcome {
    match made.err() {
        Some(QFault::Memory) => Outcome::Refused,
        Some(fault) => {
            let outcome = written(fault_line(alloc, &fault), line);
            drop(fault);
            outcome
        }
        None => Outcome::of_answer(line.is_empty()),
    }
}

/// The faults whose lines stand below.
fn fault(number: usize) -> QFault {
    match number {
        0 => QFault::Syntax { place: 23 },
        1 => QFault::Prefix { place: 0 },
        2 => QFault::RelativeIri { place: 10 },
        3 => QFault::Scope,
        4 => QFault::TooLarge { place: 65536 },
        5 => QFault::NoGraph,
        6 => QFault::GraphExists,
        7 => QFault::TooManyRows,
        8 => QFault::Memory,
        _ => QFault::Full,
    }
}

const LINES: &[&str] = &[
    "F1 syntax at 23",
    "F2 undeclared prefix at 0",
    "F3 relative IRI at 10",
    "F5 scope",
    "F6 too large at 65536",
    "F7 no such graph",
    "F7 graph exists",
    "F8 too many rows",
    "F9 out of memory",
    "F10 full",
];

fn is_printed(alloc: Global, number: usize, line: &str) -> bool {
    let fault = fault(number);
    let is_printed = line_outcome(alloc, &fault, line) == Outcome::Whole;
    drop(fault);
    is_printed
}

#[test]
fn prints_faults(rt: HostRuntime) {
    for (number, line) in LINES.iter().enumerate() {
        assert!(rt; is_printed(rt.alloc(), number, line), "{line}");
    }
}

const DATA_FAULTS: &[(NqFaultKind, &str)] = &[
    (NqFaultKind::Utf8, "N1 utf8 at line 12"),
    (NqFaultKind::Token, "N2 token at line 12"),
    (NqFaultKind::Shape, "N3 shape at line 12"),
    (NqFaultKind::Iri, "N4 iri at line 12"),
    (NqFaultKind::Escape, "N5 escape at line 12"),
    (NqFaultKind::Literal, "N6 literal at line 12"),
    (NqFaultKind::Memory, "N7 memory at line 12"),
    (NqFaultKind::Full, "N8 full at line 12"),
];

fn is_data_line(alloc: Global, kind: NqFaultKind, line: &str) -> bool {
    let fault = NqFault { line: 12, kind };
    written(data_fault_line(alloc, &fault), line) == Outcome::Whole
        && is_displayed(alloc, &fault, line)
}

#[test]
fn prints_faults_of_data(rt: HostRuntime) {
    for (kind, line) in DATA_FAULTS {
        assert!(rt; is_data_line(rt.alloc(), *kind, line), "{line}");
    }
}

/// Whether the line of a word that is left out is written.
pub fn outcome(alloc: Global) -> Outcome {
    match Text::new(alloc, "OPTIONAL") {
        Ok(word) => {
            let fault = QFault::LeftOut { word };
            let outcome = line_outcome(alloc, &fault, "F4 left out: OPTIONAL");
            drop(fault);
            outcome
        }
        Err(_) => Outcome::Refused,
    }
}

#[test]
fn prints_want_of_memory(rt: HostRuntime) {
    assert!(rt; out_of_memory_line() == "F9 out of memory\n");
}
