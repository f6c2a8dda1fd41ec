//! Plans for stores of which some counts are known, worked out by hand from the rule that `plan_for` tells.

use qs_algebra::{drop_pattern, translate};
use qs_algebra_patterns::{Slot, TriplePattern};
use qs_plan::{Counts, Look, drop_plan, plan_for};
use qs_syntax::{drop_query, parse_query};
use qs_terms::{QFault, Term};
use std::alloc::Global;

/// How many triples have this object, or else this subject, or else this predicate. Of all others there are as many as may be.
const COUNTS: &[(&str, u64)] = &[
    ("u:None", 0),
    ("u:One", 1),
    ("u:Small", 40),
    ("u:Middle", 60),
    ("u:Big", 700),
    ("u:rare", 3),
    ("u:start", 3),
    ("u:leaf", 0),
    ("u:p", 500),
    ("u:q", 200),
    ("u:r", 900),
    ("u:n1", 350),
    ("u:n2", 60),
    ("u:n3", 400),
    ("u:n4", 20),
    ("u:n5", 500),
    ("u:n6", 90),
    ("u:n7", 60),
    ("u:n8", 30),
    ("u:n9", 600),
    ("u:n10", 300),
];

struct Known;

fn is_iri(slot: &Slot, text: &str) -> bool {
    match slot {
        Slot::Term(term) => match term.get() {
            Term::Iri(iri) => iri.text() == text,
            _ => false,
        },
        Slot::Variable(_) => false,
    }
}

fn count_of(slot: &Slot) -> Option<u64> {
    for (text, count) in COUNTS {
        if is_iri(slot, text) {
            return Some(*count);
        }
    }
    None
}

impl Counts for Known {
    fn about(&self, _look: &Look, pattern: &TriplePattern) -> u64 {
        for slot in [&pattern.object, &pattern.subject, &pattern.predicate] {
            if let Some(count) = count_of(slot) {
                return count;
            }
        }
        u64::MAX
    }
}

/// Texts and what is printed of their plans.
const PLANS: &[(&str, &str)] = &[
    // two classes and the link between them: from the smaller class over the link, and not both classes first
    (
        "SELECT * { ?a <u:type> <u:Big> . ?b <u:type> <u:Small> . ?b <u:knows> ?a }",
        "triple ?1 <u:type> <u:Small>\ntriple ?1 <u:knows> ?0\ntriple ?0 <u:type> <u:Big>\n",
    ),
    // two that share no variable, and a link between them
    (
        "SELECT * { ?a <u:type> <u:Small> . ?b <u:type> <u:Middle> . ?a <u:knows> ?b }",
        "triple ?0 <u:type> <u:Small>\ntriple ?0 <u:knows> ?1\ntriple ?1 <u:type> <u:Middle>\n",
    ),
    // where each of the two has one triple, there is no product, and the link is looked up once
    (
        "SELECT * { ?a <u:type> <u:One> . ?a <u:knows> ?b . ?b <u:type> <u:One> }",
        "triple ?0 <u:type> <u:One>\ntriple ?1 <u:type> <u:One>\ntriple ?0 <u:knows> ?1\n",
    ),
    // a triangle
    (
        "SELECT * { ?a <u:r> ?b . ?b <u:p> ?c . ?c <u:q> ?a }",
        "triple ?2 <u:q> ?0\ntriple ?1 <u:p> ?2\ntriple ?0 <u:r> ?1\n",
    ),
    // a chain whose selective end stands last
    (
        "SELECT * { ?a <u:p> ?b . ?b <u:p> ?c . ?c <u:p> ?d . ?d <u:rare> ?e }",
        "triple ?3 <u:rare> ?4\ntriple ?2 <u:p> ?3\ntriple ?1 <u:p> ?2\ntriple ?0 <u:p> ?1\n",
    ),
    // a star: by the counts, and of those with as many the first of the text comes first
    (
        "SELECT * { ?x <u:n1> ?a . ?x <u:n2> ?b . ?x <u:n3> ?c . ?x <u:n4> ?d . ?x <u:n5> ?e . ?x <u:n6> ?f . ?x <u:n7> ?g . ?x <u:n8> ?h . ?x <u:n9> ?i . ?x <u:n10> ?j }",
        "triple ?0 <u:n4> ?4\ntriple ?0 <u:n8> ?8\ntriple ?0 <u:n2> ?2\ntriple ?0 <u:n7> ?7\ntriple ?0 <u:n6> ?6\ntriple ?0 <u:n10> ?10\ntriple ?0 <u:n1> ?1\ntriple ?0 <u:n3> ?3\ntriple ?0 <u:n5> ?5\ntriple ?0 <u:n9> ?9\n",
    ),
    // one of which there is none ends all, and comes first
    (
        "SELECT * { ?a <u:p> ?b . ?b <u:q> 'x' . ?c <u:type> <u:None> }",
        "triple ?2 <u:type> <u:None>\ntriple ?1 <u:q> \"x\"\ntriple ?0 <u:p> ?1\n",
    ),
    // one without variables comes before all that bind some
    (
        "SELECT * { ?a <u:rare> ?b . <u:s> <u:p> <u:o> }",
        "triple <u:s> <u:p> <u:o>\ntriple ?0 <u:rare> ?1\n",
    ),
    // of those with as many triples the one with fewer places free comes first, and then the first of the text
    (
        "SELECT * { ?a <u:p> ?b . ?b <u:p> 'x' }",
        "triple ?1 <u:p> \"x\"\ntriple ?0 <u:p> ?1\n",
    ),
    (
        "SELECT * { ?a <u:p> ?b . ?b <u:p> ?c . ?c <u:p> ?a }",
        "triple ?0 <u:p> ?1\ntriple ?1 <u:p> ?2\ntriple ?2 <u:p> ?0\n",
    ),
    // a path from a term comes after triples that are few and before those that are many: 3 triples next to the term, and 500 in all, are about 48 pairs
    (
        "SELECT * { ?a <u:type> <u:Small> . <u:start> <u:p>+ ?b . ?a <u:knows> ?b }",
        "triple ?0 <u:type> <u:Small>\ntriple ?0 <u:knows> ?1\npath <u:start> <u:p>+ ?1\n",
    ),
    (
        "SELECT * { <u:start> <u:p>+ ?a . ?a <u:type> <u:One> }",
        "triple ?0 <u:type> <u:One>\npath <u:start> <u:p>+ ?0\n",
    ),
    (
        "SELECT * { ?a <u:type> <u:Small> . <u:start> <u:p>+ ?a }",
        "triple ?0 <u:type> <u:Small>\npath <u:start> <u:p>+ ?0\n",
    ),
    (
        "SELECT * { ?a <u:type> <u:Middle> . <u:start> <u:p>+ ?a }",
        "path <u:start> <u:p>+ ?0\ntriple ?0 <u:type> <u:Middle>\n",
    ),
    (
        "SELECT * { ?a <u:q> ?b . <u:start> <u:p>+ ?a }",
        "path <u:start> <u:p>+ ?0\ntriple ?0 <u:q> ?1\n",
    ),
    (
        "SELECT * { ?a <u:q> ?b . ?a <u:p>* <u:Small> }",
        "path ?0 <u:p>* <u:Small>\ntriple ?0 <u:q> ?1\n",
    ),
    (
        "SELECT * { ?a <u:q> ?b . ?a ^<u:p>+ <u:start> }",
        "path <u:start> <u:p>+ ?0\ntriple ?0 <u:q> ?1\n",
    ),
    (
        "SELECT * { ?a <u:q> ?b . <u:start> (<u:p>|<u:r>)+ ?a }",
        "path <u:start> (| <u:p> <u:r>)+ ?0\ntriple ?0 <u:q> ?1\n",
    ),
    (
        "SELECT * { ?a <u:q> ?b . <u:start> <u:p>/<u:r>* ?a }",
        "path <u:start> (/ <u:p> <u:r>*) ?0\ntriple ?0 <u:q> ?1\n",
    ),
    (
        "SELECT * { ?a <u:q> ?b . <u:start> !<u:p> ?a }",
        "path <u:start> !(<u:p>|) ?0\ntriple ?0 <u:q> ?1\n",
    ),
    // one with no edge next to the term comes before all others
    (
        "SELECT * { ?a <u:rare> ?b . ?a <u:p>+ <u:leaf> }",
        "path ?0 <u:p>+ <u:leaf>\ntriple ?0 <u:rare> ?1\n",
    ),
    // the classes below one, before what is of them
    (
        "SELECT * { ?a <u:q> ?b . ?a <u:type>/<u:n9>* <u:Small> }",
        "path ?2 <u:n9>* <u:Small>\ntriple ?0 <u:type> ?2\ntriple ?0 <u:q> ?1\n",
    ),
    // where a term is at both ends, it is asked once
    (
        "SELECT * { ?a <u:rare> ?b . <u:start> <u:p>+ <u:x> }",
        "path <u:start> <u:p>+ <u:x>\ntriple ?0 <u:rare> ?1\n",
    ),
    // a short table comes before a walk from a term
    (
        "SELECT * { <u:start> <u:p>+ ?a VALUES ?a { <u:x> <u:y> } }",
        "values ?0, rows: 2\npath <u:start> <u:p>+ ?0\n",
    ),
    // no path goes past an OPTIONAL that may bind its variable
    (
        "SELECT * { ?x <u:q> ?v OPTIONAL { ?x <u:n3> ?y } <u:start> <u:p>+ ?y }",
        "triple ?0 <u:q> ?1\noptional\n  triple ?0 <u:n3> ?2\npath <u:start> <u:p>+ ?2\n",
    ),
    // a branch of a union has as many rows as the path in it
    (
        "SELECT * { ?a <u:q> ?b { <u:start> <u:p>+ ?a } UNION { ?a <u:p>+ <u:start> } }",
        "union\n  branch\n    path <u:start> <u:p>+ ?0\n  branch\n    path ?0 <u:p>+ <u:start>\ntriple ?0 <u:q> ?1\n",
    ),
    // in a named graph, and in each
    (
        "SELECT * { GRAPH <u:g> { ?a <u:q> ?b . <u:start> <u:p>+ ?a } }",
        "exists <u:g>\npath <u:start> <u:p>+ ?0 in <u:g>\ntriple ?0 <u:q> ?1 in <u:g>\n",
    ),
    (
        "SELECT * { GRAPH ?g { ?a <u:q> ?b . <u:start> <u:p>+ ?a } }",
        "names ?3\nname ?0 = ?3\npath <u:start> <u:p>+ ?1 in ?3\ntriple ?1 <u:q> ?2 in ?3\n",
    ),
    // of a path between two variables nothing is counted
    (
        "SELECT * { <u:x> <u:p>+ ?a . ?a <u:knows> ?b }",
        "path <u:x> <u:p>+ ?0\ntriple ?0 <u:knows> ?1\n",
    ),
    (
        "SELECT * { ?a <u:p>+ ?b . ?b <u:q> ?c }",
        "triple ?1 <u:q> ?2\npath ?0 <u:p>+ ?1\n",
    ),
    // a triple that shares no variable with those before it is evaluated by itself, once, if a filter reads variables of it alone
    (
        "SELECT * { ?a <u:type> <u:Small> . ?b <u:p> ?c FILTER(?c != ?b && ?a != ?b) }",
        "triple ?0 <u:type> <u:Small>\njoin\n  triple ?1 <u:p> ?2\n  filter (!= ?2 ?1)\nfilter (!= ?0 ?1)\n",
    ),
    // but not if it takes another triple to have the variables of the filter
    (
        "SELECT * { ?a <u:type> <u:Small> . ?b <u:type> <u:Middle> . ?b <u:p> ?c FILTER(?c != ?b) }",
        "triple ?0 <u:type> <u:Small>\ntriple ?1 <u:type> <u:Middle>\ntriple ?1 <u:p> ?2\nfilter (!= ?2 ?1)\n",
    ),
    (
        "SELECT * { ?a <u:type> <u:Small> . ?b <u:type> <u:Middle> FILTER(?a != ?b) }",
        "triple ?0 <u:type> <u:Small>\ntriple ?1 <u:type> <u:Middle>\nfilter (!= ?0 ?1)\n",
    ),
    // nor where its rows may be too many to keep
    (
        "SELECT * { ?a <u:type> <u:Small> . ?b <u:other> ?c FILTER(?c != ?b) }",
        "triple ?0 <u:type> <u:Small>\ntriple ?1 <u:other> ?2\nfilter (!= ?2 ?1)\n",
    ),
    // nor with a blank node, which is no variable that is named
    (
        "SELECT * { ?a <u:type> <u:Small> . _:b <u:p> ?c FILTER(?c != <u:x>) }",
        "triple ?0 <u:type> <u:Small>\ntriple ?2 <u:p> ?1\nfilter (!= ?1 <u:x>)\n",
    ),
    // a table has as many as its rows
    (
        "SELECT * { ?s <u:p> ?x . ?x <u:rare> ?v VALUES ?s { <u:x> } }",
        "values ?0, rows: 1\ntriple ?0 <u:p> ?1\ntriple ?1 <u:rare> ?2\n",
    ),
    (
        "SELECT * { ?s <u:p> ?x . ?x <u:rare> ?v VALUES (?s ?v) { (<u:x> 1) (<u:y> 2) (<u:z> 3) (<u:w> 4) } }",
        "triple ?1 <u:rare> ?2\nvalues ?0 ?2, rows: 4\ntriple ?0 <u:p> ?1\n",
    ),
    // a table without a variable of the others comes last
    (
        "SELECT * { VALUES ?z { <u:x> } ?a <u:p> ?b . ?b <u:q> ?c }",
        "triple ?2 <u:q> ?3\ntriple ?1 <u:p> ?2\nvalues ?0, rows: 1\n",
    ),
    // a union has as many as its branches together, and is ordered inside when it has its place
    (
        "SELECT * { { ?x <u:p> ?y } UNION { ?x <u:q> ?y } <u:s> <u:rare> ?x }",
        "triple <u:s> <u:rare> ?0\nunion\n  branch\n    triple ?0 <u:p> ?1\n  branch\n    triple ?0 <u:q> ?1\n",
    ),
    (
        "SELECT * { ?a <u:p> ?b { ?b <u:type> <u:One> } UNION { ?b <u:rare> <u:x> } }",
        "union\n  branch\n    triple ?1 <u:type> <u:One>\n  branch\n    triple ?1 <u:rare> <u:x>\ntriple ?0 <u:p> ?1\n",
    ),
    (
        "SELECT * { { ?x <u:p> ?y . ?y <u:rare> ?z } UNION { ?x <u:q> ?z } ?x <u:type> <u:One> }",
        "triple ?0 <u:type> <u:One>\nunion\n  branch\n    triple ?0 <u:p> ?1\n    triple ?1 <u:rare> ?2\n  branch\n    triple ?0 <u:q> ?2\n",
    ),
    // a union without a variable of the others comes last
    (
        "SELECT * { { ?z <u:rare> <u:x> } UNION { ?z <u:rare> <u:y> } ?a <u:p> ?b . ?b <u:q> ?c }",
        "triple ?2 <u:q> ?3\ntriple ?1 <u:p> ?2\nunion\n  branch\n    triple ?0 <u:rare> <u:x>\n  branch\n    triple ?0 <u:rare> <u:y>\n",
    ),
    // what is bound before the run counts as bound
    (
        "SELECT * { BIND(<u:x> AS ?b) ?a <u:rare> ?c . ?b <u:p> ?c }",
        "bind ?0 = <u:x>\ntriple ?0 <u:p> ?2\ntriple ?1 <u:rare> ?2\n",
    ),
    (
        "SELECT * { VALUES ?b { <u:x> } ?a <u:rare> ?c . ?b <u:p> ?c }",
        "values ?0, rows: 1\ntriple ?0 <u:p> ?2\ntriple ?1 <u:rare> ?2\n",
    ),
    // no triple goes past an OPTIONAL, and what is optional has an order of its own
    (
        "SELECT * { ?a <u:p> ?b OPTIONAL { ?b <u:q> ?c . ?c <u:rare> ?d } ?a <u:type> <u:One> }",
        "triple ?0 <u:p> ?1\noptional\n  triple ?2 <u:rare> ?3\n  triple ?1 <u:q> ?2\ntriple ?0 <u:type> <u:One>\n",
    ),
    // triples in the graph of a register are counted too
    (
        "SELECT * { GRAPH ?g { ?a <u:p> ?b . ?b <u:rare> ?c } }",
        "names ?4\nname ?0 = ?4\ntriple ?2 <u:rare> ?3 in ?4\ntriple ?1 <u:p> ?2 in ?4\n",
    ),
    (
        "SELECT * { GRAPH <u:g> { ?a <u:p> ?b . ?b <u:rare> ?c } }",
        "exists <u:g>\ntriple ?1 <u:rare> ?2 in <u:g>\ntriple ?0 <u:p> ?1 in <u:g>\n",
    ),
];

fn printed(alloc: Global, text: &str) -> Result<String, QFault> {
    let query = parse_query(alloc, text)?;
    let pattern = translate(alloc, &query);
    drop_query(query);
    let pattern = pattern?;
    let found = plan_for(alloc, &pattern, &Known);
    drop_pattern(pattern);
    let found = found?;
    let printed = found.to_string(alloc);
    drop_plan(found);
    Ok(printed?)
}

fn is_printed(alloc: Global, text: &str, expected: &str) -> Result<bool, QFault> {
    let printed = printed(alloc, text)?;
    Ok(printed.as_str() == expected)
}

fn are_printed(alloc: Global) -> bool {
    for (text, expected) in PLANS {
        match is_printed(alloc, text, expected) {
            Ok(true) => {}
            _ => return false,
        }
    }
    true
}

#[test]
fn plans_by_counts_are_printed(rt: HostRuntime) {
    assert!(rt; are_printed(rt.alloc()));
}
