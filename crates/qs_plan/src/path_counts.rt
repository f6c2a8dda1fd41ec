//! About how many pairs a path has between its ends: what the order of a run goes by.
//!
//! No walk is made for it. The triples next to the given end are counted, and all that the path may lead over. What a closure or a sequence
//! reaches is somewhere between both.

use crate::copies::copied_slot;
use crate::counts::{Counts, MANY};
use crate::few::is_term;
use qs_algebra_patterns::{PathPattern, Slot, TriplePattern};
use qs_base::Shared;
use qs_plan_meaning::Look;
use qs_syntax_ast::path::{NegatedIri, Path};
use qs_syntax_tree::path::Repetition;
use qs_terms::{Iri, Term};
use std::alloc::{AllocError, Global};

// ---- triples

/// About how many triples with this predicate agree with both ends.
fn of_iri<C: Counts>(
    alloc: Global,
    counts: &C,
    look: &Look,
    left: &Slot,
    iri: &Iri,
    right: &Slot,
) -> Result<u64, AllocError> {
    let predicate = Term::Iri(iri.try_clone()?);
    let predicate = Slot::Term(Shared::new(alloc, predicate)?);
    let subject = copied_slot(left)?;
    let object = copied_slot(right)?;
    let pattern = TriplePattern {
        subject,
        predicate,
        object,
    };
    Ok(counts.about(look, &pattern))
}

/// About how many triples agree with both ends, whatever their predicate is. `open` is an end that is a variable.
fn of_any<C: Counts>(
    counts: &C,
    look: &Look,
    left: &Slot,
    right: &Slot,
    open: &Slot,
) -> Result<u64, AllocError> {
    let subject = copied_slot(left)?;
    let predicate = copied_slot(open)?;
    let object = copied_slot(right)?;
    let pattern = TriplePattern {
        subject,
        predicate,
        object,
    };
    Ok(counts.about(look, &pattern))
}

/// Whether a member of the negated set is an inverse one, or is none.
fn has_member(members: &[NegatedIri], inverse: bool) -> bool {
    for member in members {
        if member.inverse == inverse {
            return true;
        }
    }
    false
}

/// About how many triples there are for a negated set, in the directions that it has.
fn of_set<C: Counts>(
    counts: &C,
    look: &Look,
    left: &Slot,
    members: &[NegatedIri],
    right: &Slot,
) -> Result<u64, AllocError> {
    let open = open_end(left, right);
    let mut sum: u64 = 0;
    if has_member(members, false) || members.is_empty() {
        sum = of_any(counts, look, left, right, open)?;
    }
    if has_member(members, true) {
        sum = sum.saturating_add(of_any(counts, look, right, left, open)?);
    }
    Ok(sum)
}

// ---- the triples of a path

/// The end that is a variable, where one is.
fn open_end<'a>(left: &'a Slot, right: &'a Slot) -> &'a Slot {
    if is_term(left) { right } else { left }
}

/// Whether the part at the place of a sequence of `count` parts is next to the end that is a term; where neither end is, each part is looked at.
fn is_next(left: &Slot, at: usize, count: usize, right: &Slot) -> bool {
    if is_term(left) {
        return at == 0;
    }
    !is_term(right) || at == count.saturating_sub(1)
}

/// One, if the path has a pair of no step.
fn steps_of_none(repetition: Repetition) -> u64 {
    match repetition {
        Repetition::OneOrMore => 0,
        _ => 1,
    }
}

/// About how many triples of the path are next to the end that is a term, or are there at all where neither is.
#[cycle(triples)]
fn triples_of<C: Counts>(
    alloc: Global,
    counts: &C,
    look: &Look,
    left: &Slot,
    path: &Path,
    right: &Slot,
) -> Result<u64, AllocError> {
    match path {
        Path::Iri(iri) => of_iri(alloc, counts, look, left, iri, right),
        Path::NegatedSet(members) => of_set(counts, look, left, members.as_slice(), right),
        Path::Alternative(parts) => {
            triples_of_each(alloc, counts, look, left, parts.as_slice(), right)
        }
        Path::Sequence(parts) => {
            triples_in_sequence(alloc, counts, look, left, parts.as_slice(), right)
        }
        Path::Inverse(inner) => triples_of(alloc, counts, look, right, inner.get(), left),
        Path::Repeated(inner, repetition) => {
            let count = triples_of(alloc, counts, look, left, inner.get(), right)?;
            Ok(count.saturating_add(steps_of_none(*repetition)))
        }
    }
}

/// The sum over the parts of a sequence that are looked at.
#[cycle(triples)]
fn triples_in_sequence<C: Counts>(
    alloc: Global,
    counts: &C,
    look: &Look,
    left: &Slot,
    parts: &[Path],
    right: &Slot,
) -> Result<u64, AllocError> {
    let mut sum: u64 = 0;
    for at in 0..parts.len() {
        if is_next(left, at, parts.len(), right) {
            let count = triples_of(alloc, counts, look, left, &parts[at], right)?;
            sum = sum.saturating_add(count);
        }
    }
    Ok(sum)
}

/// The sum over the parts.
#[cycle(triples)]
fn triples_of_each<C: Counts>(
    alloc: Global,
    counts: &C,
    look: &Look,
    left: &Slot,
    parts: &[Path],
    right: &Slot,
) -> Result<u64, AllocError> {
    let mut sum: u64 = 0;
    for part in parts {
        sum = sum.saturating_add(triples_of(alloc, counts, look, left, part, right)?);
    }
    Ok(sum)
}

// ---- the pairs of a path

/// How often a number is doubled until it is no less than any other.
const DOUBLINGS: u64 = 64;

/// Returns a number between `less` and `greater`, about their geometric mean: the one is doubled and the other halved until they meet.
fn between(less: u64, greater: u64) -> u64 {
    let mut low = less;
    let mut high = greater;
    for _ in 0..DOUBLINGS {
        if high <= low {
            return low;
        }
        low = low.saturating_add(low);
        high /= 2;
    }
    low
}

/// About how many pairs there are of a path that is walked from the end that is a term.
fn walked<C: Counts>(
    alloc: Global,
    counts: &C,
    look: &Look,
    left: &Slot,
    path: &Path,
    right: &Slot,
) -> Result<u64, AllocError> {
    let open = open_end(left, right);
    let next = triples_of(alloc, counts, look, left, path, right)?;
    let all = triples_of(alloc, counts, look, open, path, open)?;
    Ok(between(next, all))
}

/// About how many pairs of the path have the one end that is a term.
#[cycle(pairs)]
fn pairs_of<C: Counts>(
    alloc: Global,
    counts: &C,
    look: &Look,
    left: &Slot,
    path: &Path,
    right: &Slot,
) -> Result<u64, AllocError> {
    match path {
        Path::Iri(_) => triples_of(alloc, counts, look, left, path, right),
        Path::NegatedSet(_) => triples_of(alloc, counts, look, left, path, right),
        Path::Inverse(inner) => pairs_of(alloc, counts, look, right, inner.get(), left),
        Path::Alternative(parts) => {
            pairs_of_each(alloc, counts, look, left, parts.as_slice(), right)
        }
        Path::Repeated(inner, Repetition::ZeroOrOne) => {
            let count = pairs_of(alloc, counts, look, left, inner.get(), right)?;
            Ok(count.saturating_add(1))
        }
        _ => walked(alloc, counts, look, left, path, right),
    }
}

/// The sum over the parts.
#[cycle(pairs)]
fn pairs_of_each<C: Counts>(
    alloc: Global,
    counts: &C,
    look: &Look,
    left: &Slot,
    parts: &[Path],
    right: &Slot,
) -> Result<u64, AllocError> {
    let mut sum: u64 = 0;
    for part in parts {
        sum = sum.saturating_add(pairs_of(alloc, counts, look, left, part, right)?);
    }
    Ok(sum)
}

/// About how many pairs the path has between its ends. Where both are terms it is one, as it is asked once. Where neither is, there are as many as
/// may be. An answer decides the order of stages, and never which solutions a plan has.
///
/// # Errors
/// `AllocError` where memory runs out.
pub fn path_count<C: Counts>(
    alloc: Global,
    counts: &C,
    look: &Look,
    pattern: &PathPattern,
) -> Result<u64, AllocError> {
    let left = &pattern.subject;
    let right = &pattern.object;
    match (is_term(left), is_term(right)) {
        (false, false) => Ok(MANY),
        (true, true) => Ok(1),
        _ => pairs_of(alloc, counts, look, left, pattern.path.get(), right),
    }
}
