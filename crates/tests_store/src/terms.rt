//! Terms: which texts make one (RDF 1.1 Concepts, 3; SPARQL 1.1 Query, 19.8), their order, and what they may denote in a quad.

use crate::outcome::Outcome;
use qs_terms::{Quad, Term, TermFault};
use std::alloc::Global;

pub const INTEGER: &str = "http://www.w3.org/2001/XMLSchema#integer";

pub const BOOLEAN: &str = "http://www.w3.org/2001/XMLSchema#boolean";

pub const DECIMAL: &str = "http://www.w3.org/2001/XMLSchema#decimal";

pub const STRING: &str = "http://www.w3.org/2001/XMLSchema#string";

const LANG_STRING: &str = "http://www.w3.org/1999/02/22-rdf-syntax-ns#langString";

/// What a term is made of.
#[derive(Clone, Copy)]
pub enum Parts {
    Iri(&'static str),
    Blank(u64),
    /// A form and a datatype.
    Typed(&'static str, &'static str),
    /// A form and a language tag.
    Tagged(&'static str, &'static str),
}

/// The term of these parts.
pub fn make(alloc: Global, parts: Parts) -> Result<Term, TermFault> {
    match parts {
        Parts::Iri(text) => Term::iri(alloc, text),
        Parts::Blank(number) => Ok(Term::Blank(number)),
        Parts::Typed(form, datatype) => Term::literal(alloc, form, datatype),
        Parts::Tagged(form, tag) => Term::tagged(alloc, form, tag),
    }
}

const TRIED: &[(Parts, Option<TermFault>)] = &[
    (Parts::Iri("urn:x"), None),
    (Parts::Iri("a:"), None),
    (Parts::Iri("z+1-.:é"), None),
    (Parts::Iri(""), Some(TermFault::NotAbsolute)),
    (Parts::Iri(":a"), Some(TermFault::NotAbsolute)),
    (Parts::Iri("a"), Some(TermFault::NotAbsolute)),
    (Parts::Iri("1a:b"), Some(TermFault::NotAbsolute)),
    (Parts::Iri("a_b:c"), Some(TermFault::NotAbsolute)),
    (Parts::Iri("é:c"), Some(TermFault::NotAbsolute)),
    (Parts::Iri("a b"), Some(TermFault::NotAbsolute)),
    (Parts::Iri("a: "), Some(TermFault::BadChar)),
    (Parts::Iri("a:\u{0}"), Some(TermFault::BadChar)),
    (Parts::Iri("a:<"), Some(TermFault::BadChar)),
    (Parts::Iri("a:>"), Some(TermFault::BadChar)),
    (Parts::Iri("a:\""), Some(TermFault::BadChar)),
    (Parts::Iri("a:{"), Some(TermFault::BadChar)),
    (Parts::Iri("a:}"), Some(TermFault::BadChar)),
    (Parts::Iri("a:|"), Some(TermFault::BadChar)),
    (Parts::Iri("a:^"), Some(TermFault::BadChar)),
    (Parts::Iri("a:`"), Some(TermFault::BadChar)),
    (Parts::Iri("a:\\"), Some(TermFault::BadChar)),
    (Parts::Typed("x", "integer"), Some(TermFault::NotAbsolute)),
    (Parts::Typed("x", "http://e/a b"), Some(TermFault::BadChar)),
    (Parts::Typed("x", LANG_STRING), Some(TermFault::BadDatatype)),
    (Parts::Tagged("x", "de-CH-1996"), None),
    (Parts::Tagged("x", ""), Some(TermFault::BadTag)),
    (Parts::Tagged("x", "-"), Some(TermFault::BadTag)),
    (Parts::Tagged("x", "en-"), Some(TermFault::BadTag)),
    (Parts::Tagged("x", "-en"), Some(TermFault::BadTag)),
    (Parts::Tagged("x", "en--us"), Some(TermFault::BadTag)),
    (Parts::Tagged("x", "e1"), Some(TermFault::BadTag)),
    (Parts::Tagged("x", "en_us"), Some(TermFault::BadTag)),
    (Parts::Tagged("x", "é"), Some(TermFault::BadTag)),
];

#[test]
fn refuses_texts(rt: HostRuntime) {
    for (row, (parts, fault)) in TRIED.iter().enumerate() {
        let found = make(rt.alloc(), *parts).err();
        assert!(rt; found == *fault, "row {row}");
    }
}

/// Terms in their order: IRIs by their text, blank nodes by number, literals by form, datatype and tag. Of the last ones no two are the
/// same, though form or value are.
const ASCENDING: &[Parts] = &[
    Parts::Iri("http://e/a"),
    Parts::Iri("http://e/b"),
    Parts::Blank(2),
    Parts::Blank(10),
    Parts::Typed("01", INTEGER),
    Parts::Tagged("1", "de"),
    Parts::Tagged("1", "de-ch"),
    Parts::Typed("1", INTEGER),
    Parts::Typed("1", STRING),
];

/// The terms above.
pub fn ascending(alloc: Global) -> Result<Vec<Term>, TermFault> {
    let mut terms = Vec::new(alloc);
    for parts in ASCENDING {
        let term = make(alloc, *parts)?;
        terms.push(term)?;
    }
    Ok(terms)
}

/// Whether term `i` and term `j` compare as they ought to. The first four may be subjects and graphs, the first two predicates.
fn compare(i: usize, term: &Term, j: usize, other: &Term) -> bool {
    let fit = i < 4 && j < 2;
    term.order(other) == i.cmp(&j)
        && term.is_same(other) == (i == j)
        && Quad::fits(None, term, other) == fit
        && Quad::fits(Some(term), other, other) == fit
}

fn compare_all(terms: &[Term], others: &[Term]) -> bool {
    for (i, term) in terms.iter().enumerate() {
        for (j, other) in others.iter().enumerate() {
            if !compare(i, term, j, other) {
                return false;
            }
        }
    }
    true
}

fn are_ordered(alloc: Global) -> Result<bool, TermFault> {
    let terms = ascending(alloc)?;
    let others = ascending(alloc)?;
    Ok(compare_all(terms.as_slice(), others.as_slice()))
}

/// Whether the terms, made twice, compare as they ought to; a refusal of a text takes no memory.
pub fn outcome(alloc: Global) -> Outcome {
    if Term::iri(alloc, "a").err() == Some(TermFault::NotAbsolute) {
        Outcome::of(are_ordered(alloc))
    } else {
        Outcome::Wrong
    }
}
