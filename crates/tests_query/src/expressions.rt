//! How tightly the operators of expressions and of paths bind (SPARQL 1.1 Query, 9 and 19.8). Queries with them have no answer yet.

use qs_syntax::{drop_query, parse_query};
use qs_syntax_ast::expression::Expression;
use qs_syntax_ast::path::Path;
use qs_syntax_ast::pattern::{GraphPattern, Group, Triple, Verb};
use qs_syntax_ast::query::QueryForm;
use qs_syntax_tree::expression::{Comparison, Sign};
use qs_syntax_tree::path::Repetition;
use std::alloc::Global;

const TEXT: &str =
    "ASK { FILTER(!?a || ?b = 1 && ?c NOT IN (2, ?d)) FILTER(?a - 1 + 2 * ?b >= -?c) ?s ^<u:p>*/(<u:q>|!(^a|<u:r>))+ ?o }";

/// `!.. || .. && ..`
fn is_disjunction(filter: &Expression) -> bool {
    match filter {
        Expression::Or(all) => matches!(all.as_slice(), [Expression::Not(_), Expression::And(all)]
            if matches!(all.as_slice(), [Expression::Compare(_, _, _), Expression::NotIn(_, _)])),
        _ => false,
    }
}

/// `.. - .. + .. * .. >= -..`
fn is_comparison(filter: &Expression) -> bool {
    match filter {
        Expression::Compare(Comparison::GreaterOrEqual, sum, signed) => {
            matches!(signed.get(), Expression::Signed(Sign::Minus, _))
                && matches!(sum.get(), Expression::Sum(_, rest)
                    if matches!(rest.as_slice(), [one, two]
                        if matches!(one.sign, Sign::Minus) && matches!(two.operand, Expression::Product(_))))
        }
        _ => false,
    }
}

/// `(..|!(..))+`
fn is_repeated(path: &Path) -> bool {
    match path {
        Path::Repeated(all, Repetition::OneOrMore) => matches!(all.get(), Path::Alternative(all)
            if matches!(all.as_slice(), [Path::Iri(_), Path::NegatedSet(members)] if members.len() == 2)),
        _ => false,
    }
}

/// `^..*/..`
fn is_sequence(verb: &Verb) -> bool {
    let Verb::Path(path) = verb else {
        return false;
    };
    match path.get() {
        Path::Sequence(all) => matches!(all.as_slice(), [Path::Inverse(first), second]
            if matches!(first.get(), Path::Repeated(_, Repetition::ZeroOrMore)) && is_repeated(second)),
        _ => false,
    }
}

fn are_sequences(triples: &[Triple]) -> bool {
    matches!(triples, [triple] if is_sequence(&triple.verb))
}

fn is_meant(group: &Group) -> bool {
    match (group.filters.as_slice(), group.patterns.as_slice()) {
        ([disjunction, comparison], [GraphPattern::Triples(triples)]) => {
            is_disjunction(disjunction)
                && is_comparison(comparison)
                && are_sequences(triples.as_slice())
        }
        _ => false,
    }
}

fn is_read(alloc: Global) -> bool {
    match parse_query(alloc, TEXT) {
        Ok(query) => {
            let is_read = matches!(&query.form, QueryForm::Ask(ask) if is_meant(&ask.pattern));
            drop_query(query);
            is_read
        }
        Err(_) => false,
    }
}

#[test]
fn binds_operators(rt: HostRuntime) {
    assert!(rt; is_read(rt.alloc()));
}
