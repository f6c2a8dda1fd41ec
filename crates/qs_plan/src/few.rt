//! Whether few rows come of the stages of a group, as far as their text tells. An OPTIONAL after few rows is fed each of them; after many
//! its group is evaluated once, by itself. Both make the same rows.

use qs_algebra_patterns::{Slot, Table, TriplePattern};
use qs_plan_meaning::Stage;
use qs_terms::Term;

/// The most rows of a table that are few.
const FEW: usize = 64;

/// How many stages are looked at.
const LOOKED_AT: usize = 64;

/// The predicate of types: many subjects have one in common.
const RDF_TYPE: &str = "http://www.w3.org/1999/02/22-rdf-syntax-ns#type";

/// Whether the table has few rows.
pub(crate) fn is_short(table: &Table) -> bool {
    table.rows.len() <= FEW
}

fn is_type(slot: &Slot) -> bool {
    match slot {
        Slot::Term(term) => match term.get() {
            Term::Iri(iri) => iri.text() == RDF_TYPE,
            _ => false,
        },
        Slot::Variable(_) => false,
    }
}

/// Whether the place holds a term.
pub(crate) fn is_term(slot: &Slot) -> bool {
    match slot {
        Slot::Term(_) => true,
        Slot::Variable(_) => false,
    }
}

fn is_iri(slot: &Slot) -> bool {
    match slot {
        Slot::Term(term) => matches!(term.get(), Term::Iri(_)),
        Slot::Variable(_) => false,
    }
}

/// Whether few triples agree with the pattern: its subject is a term, or its object is one that is no type.
pub(crate) fn is_selective(pattern: &TriplePattern) -> bool {
    if is_term(&pattern.subject) {
        return true;
    }
    if is_iri(&pattern.object) {
        return !is_type(&pattern.predicate);
    }
    is_term(&pattern.object)
}

/// Whether the stage lets few rows through: of a path with an end that is a term, what is reached from there.
fn makes_few(stage: &Stage) -> bool {
    match stage {
        Stage::Triple(_, pattern) => is_selective(pattern),
        Stage::Path(_, pattern) => is_term(&pattern.subject) || is_term(&pattern.object),
        Stage::Values(table) => is_short(table.get()),
        _ => false,
    }
}

fn is_bind(stage: &Stage) -> bool {
    match stage {
        Stage::Bind(_, _) => true,
        _ => false,
    }
}

/// Whether few rows come of the stages with which a group begins. `first` tells whether the group itself comes first.
pub(crate) fn are_few(first: bool, stages: &[Stage]) -> bool {
    if !first || stages.is_empty() {
        return false;
    }
    let mut only_binds = stages.len() <= LOOKED_AT;
    for at in 0..stages.len().min(LOOKED_AT) {
        let stage = &stages[at];
        if makes_few(stage) {
            return true;
        }
        only_binds = only_binds && is_bind(stage);
    }
    only_binds
}
