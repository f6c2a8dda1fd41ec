//! The variables that patterns bind (SPARQL 1.1 Query, 18.2.1 and 18.5).

use crate::outcome::Outcome;
use qs_algebra::{
    Pattern, certain, drop_pattern, possible, translate, translate_where, translate_where_with,
};
use qs_syntax::{drop_query, parse_query};
use qs_syntax_ast::query::{Query, QueryForm};
use qs_terms::{QFault, Text};
use std::alloc::Global;

/// Queries, and which of their variables, in the order of the text, each solution of the pattern binds, and which some solution may bind.
const FLAGS: &[(&str, &[bool], &[bool])] = &[
    // what triples mention; the blank node has the number after the last
    (
        "SELECT ?z { ?a <u:p> _:b . _:b ?d ?a }",
        &[false, true, true],
        &[false, true, true],
    ),
    // what one part of a join binds
    (
        "SELECT * { { ?a <u:p> ?b } { ?b <u:q> ?c } }",
        &[true, true, true],
        &[true, true, true],
    ),
    // what each part of a union binds
    (
        "SELECT * { { ?a <u:p> ?b } UNION { ?b <u:q> ?c } }",
        &[false, true, false],
        &[true, true, true],
    ),
    (
        "SELECT * { { { ?a <u:p> ?b } UNION { ?b <u:q> ?c } } { ?a <u:p> ?b } }",
        &[true, true, false],
        &[true, true, true],
    ),
    ("SELECT ?z {}", &[false], &[false]),
    // BIND may err, and a filter binds nothing
    (
        "SELECT * { ?a <u:p> ?b BIND(?b AS ?c) OPTIONAL { ?a <u:q> ?d FILTER(?d = ?b) } FILTER(?a = ?e) }",
        &[true, true, false, false, false],
        &[true, true, true, true, false],
    ),
];

/// Queries, the variables of the WHERE alone in the order of their numbers, and which of these each solution binds, and some may bind.
const ALONE: &[(&str, &[&str], &[bool], &[bool])] = &[
    // a variable that the SELECT alone names has no number
    (
        "SELECT ?z { ?a <u:p> _:b . _:b ?d ?a }",
        &["a", "d"],
        &[true, true],
        &[true, true],
    ),
    // those of filters are last
    (
        "SELECT ?c ?a { ?a <u:p> ?b FILTER(?c = ?a) OPTIONAL { ?a <u:q> ?d } }",
        &["a", "b", "d", "c"],
        &[true, true, false, false],
        &[true, true, true, false],
    ),
];

// the pattern of the WHERE with the query's variables, where the query is a SELECT
fn pattern_of_where(alloc: Global, query: &Query) -> Result<Pattern, QFault> {
    match &query.form {
        QueryForm::Select(select) => {
            translate_where_with(alloc, query.variables.as_slice(), &select.pattern)
        }
        _ => translate(alloc, query),
    }
}

fn patterns_of(alloc: Global, text: &str) -> Result<(Pattern, Pattern), QFault> {
    let query = parse_query(alloc, text)?;
    let whole = translate(alloc, &query);
    let alone = pattern_of_where(alloc, &query);
    drop_query(query);
    Ok((whole?, alone?))
}

fn has_flags(
    alloc: Global,
    pattern: &Pattern,
    are_certain: &[bool],
    are_possible: &[bool],
) -> Result<bool, QFault> {
    let found = certain(alloc, pattern)?;
    let possible = possible(alloc, pattern)?;
    Ok(found.as_slice() == are_certain && possible.as_slice() == are_possible)
}

fn is_flagged(
    alloc: Global,
    text: &str,
    are_certain: &[bool],
    are_possible: &[bool],
) -> Result<bool, QFault> {
    let (whole, alone) = patterns_of(alloc, text)?;
    let of_whole = has_flags(alloc, &whole, are_certain, are_possible);
    let of_where = has_flags(alloc, &alone, are_certain, are_possible);
    drop_pattern(whole);
    drop_pattern(alone);
    Ok(of_whole? && of_where?)
}

fn are_named(found: &[Text], names: &[&str]) -> bool {
    if found.len() != names.len() {
        return false;
    }
    for at in 0..names.len() {
        if found[at].as_str() != names[at] {
            return false;
        }
    }
    true
}

// the pattern of the WHERE with its own variables, where the query is a SELECT
fn pattern_alone(alloc: Global, text: &str) -> Result<Pattern, QFault> {
    let query = parse_query(alloc, text)?;
    let pattern = match &query.form {
        QueryForm::Select(select) => translate_where(alloc, &select.pattern),
        _ => translate(alloc, &query),
    };
    drop_query(query);
    pattern
}

fn is_flagged_alone(
    alloc: Global,
    text: &str,
    names: &[&str],
    are_certain: &[bool],
    are_possible: &[bool],
) -> Result<bool, QFault> {
    let pattern = pattern_alone(alloc, text)?;
    let is_named = are_named(pattern.names.as_slice(), names);
    let has_flags = has_flags(alloc, &pattern, are_certain, are_possible);
    drop_pattern(pattern);
    Ok(is_named && has_flags?)
}

fn alone_outcome(alloc: Global) -> Outcome {
    for (text, names, are_certain, are_possible) in ALONE {
        match is_flagged_alone(alloc, text, names, are_certain, are_possible) {
            Ok(true) => {}
            Ok(false) => return Outcome::Wrong,
            Err(fault) => return Outcome::of_fault(&fault),
        }
    }
    Outcome::Whole
}

/// Whether each pattern has its flags.
pub fn outcome(alloc: Global) -> Outcome {
    for (text, are_certain, are_possible) in FLAGS {
        match is_flagged(alloc, text, are_certain, are_possible) {
            Ok(true) => {}
            Ok(false) => return Outcome::Wrong,
            Err(fault) => return Outcome::of_fault(&fault),
        }
    }
    alone_outcome(alloc)
}
