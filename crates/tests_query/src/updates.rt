//! The faults of updates.

use crate::lines::comes_to;
use crate::outcome::Outcome;
use qs_syntax::{drop_update, parse_update};
use qs_terms::QFault;
use std::alloc::Global;

/// An update as a front, a part and how often it stands, and an end; and the line of its fault, or nothing where it has none.
const UPDATES: &[(&str, &str, u32, &str, &str)] = &[
    ("", "", 0, "", ""),
    ("CREATE GRAPH <u:g> ;", "", 0, "", ""),
    // no tokens, no tree: at the token that is to blame, or at the end
    ("CREATE GRAPH <u:g> ; ;", "", 0, "", "F1 syntax at 21"),
    ("INSERT DATA { <u:a> <u:p> }", "", 0, "", "F1 syntax at 26"),
    (
        "INSERT DATA { <u:a> <u:p> \"a }",
        "",
        0,
        "",
        "F1 syntax at 26",
    ),
    (
        "INSERT DATA { <u:a> <u:p>|<u:q> 1 }",
        "",
        0,
        "",
        "F1 syntax at 25",
    ),
    ("DELETE {} WHERE", "", 0, "", "F1 syntax at 15"),
    ("CLEAR", "", 0, "", "F1 syntax at 5"),
    ("SELECT * {}", "", 0, "", "F1 syntax at 0"),
    // what is left out, and before that a bad token
    ("LOAD <u:x>", "", 0, "", "F4 left out: LOAD"),
    (
        "DELETE DATA { <u:s> <u:p> 1.5 }",
        "",
        0,
        "",
        "F4 left out: 1.5",
    ),
    ("LOAD %", "", 0, "", "F1 syntax at 5"),
    // names: an operation has the prefixes of those before it
    ("CLEAR GRAPH <g>", "", 0, "", "F3 relative IRI at 12"),
    (
        "INSERT DATA { x:a x:b x:c } ; PREFIX x: <http://x/> CLEAR ALL",
        "",
        0,
        "",
        "F2 undeclared prefix at 14",
    ),
    (
        "PREFIX x: <http://x/> CLEAR ALL ; INSERT DATA { x:a x:b x:c }",
        "",
        0,
        "",
        "",
    ),
    (
        "INSERT DATA { ?s x:p 1 }",
        "",
        0,
        "",
        "F2 undeclared prefix at 17",
    ),
    // no variables in data, and no blank nodes where triples are deleted
    ("INSERT DATA { ?s <u:p> 1 }", "", 0, "", "F5 scope"),
    ("INSERT DATA { <u:s> ?p 1 }", "", 0, "", "F5 scope"),
    ("INSERT DATA { <u:s> <u:p> ?o }", "", 0, "", "F5 scope"),
    (
        "INSERT DATA { GRAPH ?g { <u:s> <u:p> 1 } }",
        "",
        0,
        "",
        "F5 scope",
    ),
    ("DELETE DATA { <u:s> <u:p> ?o }", "", 0, "", "F5 scope"),
    (
        "DELETE DATA { <u:s> <u:p> 1 GRAPH ?g {} }",
        "",
        0,
        "",
        "F5 scope",
    ),
    ("DELETE DATA { _:a <u:p> 1 }", "", 0, "", "F5 scope"),
    ("DELETE DATA { <u:s> <u:p> [] }", "", 0, "", "F5 scope"),
    ("DELETE WHERE { [] ?p ?o }", "", 0, "", "F5 scope"),
    ("DELETE WHERE { ?s <u:p> _:a }", "", 0, "", "F5 scope"),
    (
        "DELETE { _:a ?p ?o } WHERE { ?s ?p ?o }",
        "",
        0,
        "",
        "F5 scope",
    ),
    ("DELETE { <u:s> <u:p> [] } WHERE {}", "", 0, "", "F5 scope"),
    (
        "DELETE DATA { <u:s> <u:p> 1 } ; DELETE WHERE { GRAPH ?g { ?s ?p ?o } } ; DELETE { ?s ?p ?o } WHERE { ?s ?p ?o }",
        "",
        0,
        "",
        "",
    ),
    // a label stands in one INSERT DATA alone, and in one WHERE alone
    (
        "INSERT DATA { _:a <u:p> _:a . _:a <u:q> [] } ; INSERT DATA { _:b <u:p> 1 }",
        "",
        0,
        "",
        "",
    ),
    (
        "INSERT DATA { _:a <u:p> 1 } ; INSERT DATA { <u:s> <u:p> _:a }",
        "",
        0,
        "",
        "F5 scope",
    ),
    (
        "INSERT DATA { _:a <u:p> 1 } ; CLEAR ALL ; INSERT DATA { _:b <u:p> 1 . _:a <u:p> 1 }",
        "",
        0,
        "",
        "F5 scope",
    ),
    (
        "INSERT {} WHERE { _:a ?p ?o } ; INSERT {} WHERE { _:a ?p ?o }",
        "",
        0,
        "",
        "F5 scope",
    ),
    (
        "INSERT {} WHERE { _:a ?p ?o } ; DELETE { ?o <u:p> 1 } WHERE { _:a ?p ?o }",
        "",
        0,
        "",
        "F5 scope",
    ),
    (
        "INSERT DATA { _:a <u:p> _:a } ; INSERT { _:a ?p ?o } WHERE { ?s ?p ?o }",
        "",
        0,
        "",
        "",
    ),
    (
        "INSERT DATA { _:a <u:p> 1 } ; INSERT { <u:s> <u:p> ?o } WHERE { _:a <u:p> ?o }",
        "",
        0,
        "",
        "",
    ),
    (
        "INSERT { _:a <u:p> ?x } WHERE { _:a <u:p> ?x }",
        "",
        0,
        "",
        "",
    ),
    (
        "INSERT { _:a <u:p> ?x } WHERE { ?x <u:p> 1 } ; INSERT { _:a <u:p> ?x } WHERE { ?x <u:p> 1 }",
        "",
        0,
        "",
        "",
    ),
    // the rules of a WHERE
    (
        "INSERT { <u:s> <u:p> ?v } WHERE { ?s <u:p> 1 BIND(1 AS ?v) }",
        "",
        0,
        "",
        "",
    ),
    (
        "INSERT { <u:s> <u:p> ?v } WHERE { ?v <u:p> 1 BIND(1 AS ?v) }",
        "",
        0,
        "",
        "F5 scope",
    ),
    ("INSERT {} WHERE { VALUES ?v { 1 2 } }", "", 0, "", ""),
    (
        "INSERT {} WHERE { VALUES (?v ?w) { (1 2) (1) } }",
        "",
        0,
        "",
        "F5 scope",
    ),
    // groups have 256 elements at most, and 64 brackets are open at once; triples of data and operations are as many as memory holds
    ("DELETE WHERE {", "GRAPH<u:g>{}", 256, "}", ""),
    (
        "DELETE WHERE {",
        "GRAPH<u:g>{}",
        257,
        "}",
        "F6 too large at 3086",
    ),
    ("INSERT DATA {", "GRAPH<u:g>{}", 257, "}", ""),
    ("INSERT{}WHERE ", "{", 65, "", "F6 too large at 78"),
    ("INSERT DATA { ", "<u:s> <u:p> 1 . ", 20_000, "}", ""),
    ("", "CLEAR ALL ; ", 20_000, "CLEAR ALL", ""),
];

fn parsed(alloc: Global, text: &str) -> Result<(), QFault> {
    let update = parse_update(alloc, text)?;
    drop_update(update);
    Ok(())
}

fn parses_to(
    alloc: Global,
    front: &str,
    part: &str,
    times: u32,
    end: &str,
    line: &str,
) -> Result<Outcome, QFault> {
    let mut text = String::from_str(alloc, front)?;
    for _ in 0..times {
        text.push_str(part)?;
    }
    text.push_str(end)?;
    Ok(comes_to(alloc, parsed(alloc, text.as_str()), line))
}

#[test]
fn finds_faults(rt: HostRuntime) {
    for (front, part, times, end, line) in UPDATES {
        let outcome = parses_to(rt.alloc(), front, part, *times, end, line);
        assert!(rt; matches!(outcome, Ok(Outcome::Whole)), "{front}");
    }
}
