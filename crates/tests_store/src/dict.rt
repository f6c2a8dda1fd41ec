//! The dictionary.

use crate::outcome::Outcome;
use crate::terms::ascending;
use qs_dict::{Dict, DictFault};
use qs_expr_values::TermValue;
use qs_terms::{Term, TermFault};
use std::alloc::Global;
use std::hash::RandomState;

/// Whether the blank node gets the number, and is found by it.
fn gets(dict: &mut Dict, blank: u64, want: Result<u32, DictFault>) -> bool {
    let term = Term::Blank(blank);
    let is_it = dict.number(&term) == want
        && dict.number(&term) == want
        && dict.find(&term) == want.ok();
    drop(term);
    is_it
}

/// Blank nodes, and the number that each gets, at a limit of three.
const FIRST: &[(u64, Result<u32, DictFault>)] = &[
    (7, Ok(1)),
    (8, Ok(2)),
    (7, Ok(1)),
    (9, Ok(3)),
    (6, Err(DictFault::Full)),
    (9, Ok(3)),
];

/// What they get once the first alone is left.
const THEN: &[(u64, Result<u32, DictFault>)] = &[
    (9, Ok(2)),
    (7, Ok(1)),
    (6, Ok(3)),
    (8, Err(DictFault::Full)),
];

fn get(dict: &mut Dict, rows: &[(u64, Result<u32, DictFault>)]) -> bool {
    for (blank, want) in rows {
        if !gets(dict, *blank, *want) {
            return false;
        }
    }
    true
}

/// Whether the length is this one, once no more than so many terms are left.
fn is_cut(dict: &mut Dict, len: u32, want: u32) -> bool {
    dict.cut(len);
    dict.len() == want
}

fn keeps_its_limit(alloc: Global, hasher: Option<RandomState>) -> bool {
    let Some(hasher) = hasher else {
        return false;
    };
    let mut dict = Dict::new(alloc, 3, hasher);
    let does = get(&mut dict, FIRST)
        && is_cut(&mut dict, 9, 3)
        && is_cut(&mut dict, 1, 1)
        && get(&mut dict, THEN);
    drop(dict);
    does
}

#[test]
fn numbers_terms(rt: HostRuntime) {
    assert!(rt; keeps_its_limit(rt.alloc(), RandomState::new(&rt).ok()));
}

fn has(dict: &Dict, number: u32, term: &Term) -> bool {
    number > 0
        && number <= dict.len()
        && dict.term(number).is_same(term)
        && dict.value(number) == TermValue::of(term)
}

/// Whether the term gets the number that it has or else the next one, or is refused where memory runs out, which leaves all as it was.
fn is_numbered(dict: &mut Dict, term: &Term) -> bool {
    let len = dict.len();
    let found = dict.find(term);
    match dict.number(term) {
        Ok(number) => number == found.unwrap_or(len.saturating_add(1)) && has(dict, number, term),
        Err(fault) => fault == DictFault::Memory
            && found.is_none()
            && dict.find(term).is_none()
            && dict.len() == len,
    }
}

fn are_numbered(dict: &mut Dict, terms: &[Term]) -> bool {
    for term in terms {
        if !is_numbered(dict, term) {
            return false;
        }
    }
    true
}

/// 38 terms of all kinds, enough for the table to grow more than once.
fn many(alloc: Global) -> Result<Vec<Term>, TermFault> {
    let mut terms = ascending(alloc)?;
    for number in 11..40 {
        terms.push(Term::Blank(number))?;
    }
    Ok(terms)
}

fn outcome_of(alloc: Global, hasher: RandomState, terms: &[Term]) -> Outcome {
    let mut dict = Dict::new(alloc, 40, hasher);
    let are_numbered = are_numbered(&mut dict, terms) && are_numbered(&mut dict, terms);
    let len = dict.len();
    drop(dict);
    if !are_numbered {
        Outcome::Wrong
    } else if len == 38 {
        Outcome::Whole
    } else {
        Outcome::Refused
    }
}

/// Whether all those terms are numbered, and have their numbers when they come once more.
pub fn outcome(alloc: Global, hasher: Option<RandomState>) -> Outcome {
    match (many(alloc), hasher) {
        (Ok(terms), Some(hasher)) => outcome_of(alloc, hasher, terms.as_slice()),
        _ => Outcome::Refused,
    }
}
