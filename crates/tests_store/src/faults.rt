//! How faults are printed.

use qs_dict::DictFault;
use qs_nquads::{NqFault, NqFaultKind, WriteFault};
use qs_store::StoreFault;
use qs_store_load::LoadFault;
use qs_terms::TermFault;
use std::alloc::Global;
use std::fmt::Display;

fn is_printed(alloc: Global, fault: &impl Display, line: &str) -> bool {
    match format!(in alloc; "{fault}") {
        Ok(text) => text.as_str() == line,
        Err(_) => false,
    }
}

fn are_printed<F: Display>(alloc: Global, rows: &[(F, &str)]) -> bool {
    for (fault, line) in rows {
        if !is_printed(alloc, fault, line) {
            return false;
        }
    }
    true
}

const TERM_FAULTS: &[(TermFault, &str)] = &[
    (TermFault::NotAbsolute, "the IRI has no scheme"),
    (
        TermFault::BadChar,
        "the IRI has a character that IRIs exclude",
    ),
    (TermFault::BadTag, "the language tag has another form"),
    (
        TermFault::BadDatatype,
        "a literal without a language tag can't be an rdf:langString",
    ),
    (TermFault::Memory, "out of memory"),
];

const DICT_FAULTS: &[(DictFault, &str)] = &[
    (DictFault::Full, "the dictionary is full"),
    (DictFault::Memory, "out of memory"),
];

const STORE_FAULTS: &[(StoreFault, &str)] = &[
    (StoreFault::Full, "the store is full"),
    (StoreFault::Memory, "out of memory"),
];

const WRITE_FAULTS: &[(WriteFault, &str)] = &[
    (
        WriteFault::Io { written: 0 },
        "the device failed after 0 bytes",
    ),
    (
        WriteFault::Io {
            written: 18446744073709551616,
        },
        "the device failed after 18446744073709551616 bytes",
    ),
    (WriteFault::Memory, "out of memory"),
];

const KINDS: &[(NqFaultKind, &str)] = &[
    (NqFaultKind::Utf8, "N1 utf8"),
    (NqFaultKind::Token, "N2 token"),
    (NqFaultKind::Shape, "N3 shape"),
    (NqFaultKind::Iri, "N4 iri"),
    (NqFaultKind::Escape, "N5 escape"),
    (NqFaultKind::Literal, "N6 literal"),
    (NqFaultKind::Memory, "N7 memory"),
    (NqFaultKind::Full, "N8 full"),
];

const LOAD_FAULTS: &[(LoadFault, &str)] = &[
    (
        LoadFault::Text(NqFault {
            line: 12,
            kind: NqFaultKind::Token,
        }),
        "N2 token at line 12",
    ),
    (
        LoadFault::Text(NqFault {
            line: 1,
            kind: NqFaultKind::Memory,
        }),
        "N7 memory at line 1",
    ),
    (LoadFault::Store(StoreFault::Full), "the store is full"),
    (LoadFault::Store(StoreFault::Memory), "out of memory"),
];

#[test]
fn prints_faults(rt: HostRuntime) {
    assert!(rt;
        are_printed(rt.alloc(), TERM_FAULTS)
            && are_printed(rt.alloc(), DICT_FAULTS)
            && are_printed(rt.alloc(), STORE_FAULTS)
    );
}

#[test]
fn prints_faults_of_texts(rt: HostRuntime) {
    assert!(rt;
        are_printed(rt.alloc(), WRITE_FAULTS)
            && are_printed(rt.alloc(), KINDS)
            && are_printed(rt.alloc(), LOAD_FAULTS)
    );
}
