//! Basic graph patterns (SPARQL 1.1 Query, 18.2.2.5).
//!
//! A slot that equals that of the same place of the pattern before shares it. The pattern before takes no memory, where
//! a table of all terms would; the triples of one subject or verb are one after another. Those of brackets are between them:
//! there a term is copied once more.

ghost use Rattle.std.specs.Prelude.{◌≡◌, ◌↔◌, IfOk, IsTrue};
ghost use Rattle.std.specs.List.{filter_map};
ghost use Rattle.qs_algebra.specs.Basic as spec;
ghost use Rattle.qs_algebra_patterns.specs.declared.pattern.Slot.TheVariants as slot;
ghost use Rattle.qs_terms.specs.declared.term.Term.TheVariants as value;

use crate::hidden::{Hidden, hidden_of};
use qs_algebra_patterns::{BasicPattern, PathPattern, Slot, TriplePattern};
use qs_base::{Shared, keep_beside};
use qs_syntax_ast::path::Path;
use qs_syntax_ast::pattern::{Triple, Verb};
use qs_syntax_ast::term::TermPattern;
use qs_syntax_scope::NameList;
use qs_terms::{Iri, Lit, Term};
use sqlite_items::Items;
use std::alloc::{AllocError, Global};

fn is_iri(term: &Term, iri: &Iri) -> bool
    ensures { IsTrue result ↔ (term.now ≡ value.Iri iri.now) }
{
    match term {
        Term::Iri(known) => known.is_same(iri),
        _ => false,
    }
}

fn is_literal(term: &Term, literal: &Lit) -> bool
    ensures { IsTrue result ↔ (term.now ≡ value.Literal literal.now) }
{
    match term {
        Term::Literal(known) => known.is_same(literal),
        _ => false,
    }
}

/// The slot of an IRI, which is shared with the slot before it where that has the same one.
fn iri_slot(alloc: Global, before: Option<&Slot>, iri: &Iri) -> Result<Slot, AllocError>
    ensures { IfOk result (λ s. s ≡ slot.Term (value.Iri iri.now)) }
{
    if let Some(Slot::Term(term)) = before {
        if is_iri(term.get(), iri) {
            return Ok(Slot::Term(term.share()?));
        }
    }
    let iri = Term::Iri(iri.try_clone()?);
    Ok(Slot::Term(Shared::new(alloc, iri)?))
}

/// The slot of a literal, which is shared with the slot before it where that has the same one.
fn literal_slot(alloc: Global, before: Option<&Slot>, literal: &Lit) -> Result<Slot, AllocError>
    ensures { IfOk result (λ s. s ≡ slot.Term (value.Literal literal.now)) }
{
    if let Some(Slot::Term(term)) = before {
        if is_literal(term.get(), literal) {
            return Ok(Slot::Term(term.share()?));
        }
    }
    let literal = Term::Literal(literal.try_clone()?);
    Ok(Slot::Term(Shared::new(alloc, literal)?))
}

fn term_slot<'a>(
    alloc: Global,
    names: &NameList<'a>,
    hidden: &Hidden<'a>,
    before: Option<&Slot>,
    term: &'a TermPattern,
) -> Result<Slot, AllocError>
    ensures { IfOk result (λ s. s ≡ spec.term_slot names.now hidden.now term.now) }
{
    match term {
        TermPattern::Variable(variable) => Ok(Slot::Variable(names.place(variable.text()))),
        TermPattern::Iri(iri) => iri_slot(alloc, before, iri),
        TermPattern::Literal(literal) => literal_slot(alloc, before, literal),
        TermPattern::Blank(blank) => Ok(Slot::Variable(hidden.number(names, blank)?)),
    }
}

/// The slot of a verb that is no path.
fn verb_slot<'a>(
    alloc: Global,
    names: &NameList<'a>,
    before: Option<&Slot>,
    verb: &'a Verb,
) -> Result<Option<Slot>, AllocError>
    ensures { IfOk result (λ s. s ≡ spec.verb_slot names.now verb.now) }
{
    match verb {
        Verb::Variable(variable) => Ok(Some(Slot::Variable(names.place(variable.text())))),
        Verb::Iri(iri) => Ok(Some(iri_slot(alloc, before, iri)?)),
        Verb::Path(_) => Ok(None),
    }
}

/// The triple pattern of a triple whose verb is no path. It shares the terms that the one before it has in the same places.
fn triple_pattern<'a>(
    alloc: Global,
    names: &NameList<'a>,
    hidden: &Hidden<'a>,
    before: Option<&TriplePattern>,
    triple: &'a Triple,
) -> Result<Option<TriplePattern>, AllocError>
    ensures { IfOk result (λ p. p ≡ spec.triple_pattern names.now hidden.now triple.now) }
{
    let above = before.map(|pattern| &pattern.predicate);
    let Some(predicate) = verb_slot(alloc, names, above, &triple.verb)? else {
        return Ok(None);
    };
    let above = before.map(|pattern| &pattern.subject);
    let subject = term_slot(alloc, names, hidden, above, &triple.subject)?;
    let above = before.map(|pattern| &pattern.object);
    let object = term_slot(alloc, names, hidden, above, &triple.object)?;
    Ok(Some(TriplePattern {
        subject,
        predicate,
        object,
    }))
}

#[tactic(auto, using(crate::proofs::Kept::kept_more, crate::proofs::Kept::kept_less))]
fn triple_patterns<'a>(
    alloc: Global,
    names: &NameList<'a>,
    hidden: &Hidden<'a>,
    triples: &'a [Triple],
) -> Result<Items<TriplePattern>, AllocError>
    ensures { IfOk result
        (λ patterns. patterns ≡ filter_map (spec.triple_pattern names.now hidden.now) triples.now) }
{
    let mut patterns = Items::new(alloc);
    for triple in triples {
        let before = patterns.as_slice().last();
        if let Some(pattern) = triple_pattern(alloc, names, hidden, before, triple)? {
            patterns.push(pattern)?;
        }
    }
    Ok(patterns)
}

/// The verb's path, shared with the verb.
fn path_of(verb: &Verb) -> Result<Option<Shared<Path>>, AllocError>
    ensures { IfOk result (λ path. path ≡ spec.path_of verb.now) }
{
    match verb {
        Verb::Path(path) => Ok(Some(path.share()?)),
        _ => Ok(None),
    }
}

/// The path pattern of a triple whose verb is a path. It shares the path with the verb, and the terms of its ends with the pattern
/// before it, where that has the same.
fn path_pattern<'a>(
    alloc: Global,
    names: &NameList<'a>,
    hidden: &Hidden<'a>,
    before: Option<&PathPattern>,
    triple: &'a Triple,
) -> Result<Option<PathPattern>, AllocError>
    ensures { IfOk result (λ p. p ≡ spec.path_pattern names.now hidden.now triple.now) }
{
    let Some(path) = path_of(&triple.verb)? else {
        return Ok(None);
    };
    let above = before.map(|pattern| &pattern.subject);
    let left = term_slot(alloc, names, hidden, above, &triple.subject)?;
    let above = before.map(|pattern| &pattern.object);
    let right = term_slot(alloc, names, hidden, above, &triple.object)?;
    Ok(Some(PathPattern {
        subject: left,
        path,
        object: right,
    }))
}

#[tactic(auto, using(crate::proofs::Kept::kept_more, crate::proofs::Kept::kept_less))]
fn path_patterns<'a>(
    alloc: Global,
    names: &NameList<'a>,
    hidden: &Hidden<'a>,
    triples: &'a [Triple],
) -> Result<Items<PathPattern>, AllocError>
    ensures { IfOk result
        (λ patterns. patterns ≡ filter_map (spec.path_pattern names.now hidden.now) triples.now) }
{
    let mut patterns = Items::new(alloc);
    for triple in triples {
        let before = patterns.as_slice().last();
        if let Some(pattern) = path_pattern(alloc, names, hidden, before, triple)? {
            patterns.push(pattern)?;
        }
    }
    Ok(patterns)
}

/// The basic graph pattern of these triples.
pub fn basic_pattern<'a>(
    alloc: Global,
    names: &NameList<'a>,
    triples: &'a [Triple],
) -> Result<BasicPattern, AllocError>
    ensures { IfOk result (λ p. p ≡ spec.basic_pattern names.now triples.now) }
{
    let hidden = hidden_of(alloc, triples)?;
    let paths = path_patterns(alloc, names, &hidden, triples)?;
    let (paths, triples) = keep_beside(paths, triple_patterns(alloc, names, &hidden, triples))?;
    let hidden = hidden.width()?;
    Ok(BasicPattern {
        triples,
        paths,
        hidden,
    })
}
