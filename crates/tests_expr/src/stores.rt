//! A store of four quads: `e:a e:p e:b`, `e:a e:q 01`, `e:b e:q 2` and `e:b e:p e:a`.

ghost use Rattle.qs_expr.specs.inner.Cell.{FitsRow};
ghost use Rattle.qs_expr.specs.inner.Scratch.{IsTable};

use crate::outcome::Outcome;
use crate::sample::{WIDTH, bind_all};
use crate::{cells, conditions, values};
use qs_expr::{Row, Scratch};
use qs_store::{Store, View};
use qs_terms::dataset::is_above_blanks;
use qs_terms::{Quad, Term, TermFault};
use std::alloc::Global;
use std::hash::RandomState;

const INTEGER: &str = "http://www.w3.org/2001/XMLSchema#integer";

fn both<A: Drop, B: Drop>(
    one: Result<A, TermFault>,
    other: Result<B, TermFault>,
) -> Result<(A, B), TermFault> {
    match (one, other) {
        (Ok(one), Ok(other)) => Ok((one, other)),
        (Err(fault), _) => Err(fault),
        (_, Err(fault)) => Err(fault),
    }
}

fn lawful(subject: Term, predicate: Term, object: Term) -> Option<Quad> {
    if Quad::fits(None, &subject, &predicate) {
        Some(Quad::new(None, subject, predicate, object))
    } else {
        None
    }
}

fn quad(
    alloc: Global,
    subject: &str,
    predicate: &str,
    object: Result<Term, TermFault>,
) -> Result<Quad, TermFault> {
    let front = both(Term::iri(alloc, subject), Term::iri(alloc, predicate));
    let ((subject, predicate), object) = both(front, object)?;
    lawful(subject, predicate, object).ok_or(TermFault::NotAbsolute)
}

fn integer(alloc: Global, form: &str) -> Result<Term, TermFault> {
    Term::literal(alloc, form, INTEGER)
}

fn put(quads: &mut Vec<Quad>, quad: Result<Quad, TermFault>) -> Result<(), TermFault> {
    let quad = quad?;
    quads.push(quad)?;
    Ok(())
}

fn quads(alloc: Global) -> Result<Vec<Quad>, TermFault> {
    let mut quads = Vec::new(alloc);
    put(
        &mut quads,
        quad(alloc, "e:a", "e:p", Term::iri(alloc, "e:b")),
    )?;
    put(&mut quads, quad(alloc, "e:a", "e:q", integer(alloc, "01")))?;
    put(&mut quads, quad(alloc, "e:b", "e:q", integer(alloc, "2")))?;
    put(
        &mut quads,
        quad(alloc, "e:b", "e:p", Term::iri(alloc, "e:a")),
    )?;
    Ok(quads)
}

/// Whether all is right of the row.
fn are_right_of<V: View>(
    alloc: Global,
    row: &Row,
    view: &V,
    scratch: &mut Scratch,
) -> Result<bool, TermFault>
    requires table { IsTable (V.content view.now).known scratch.old }
    requires fits { FitsRow (V.content view.now).known scratch.old row.now }
{
    let are_read = values::are_read(alloc, row, view, scratch)?;
    let are_conditions = conditions::are_right(alloc, row, view, scratch)?;
    let are_values = values::are_values(alloc, row, view, scratch)?;
    let are_rows = cells::are_rows(alloc)?;
    Ok(are_read && are_conditions && are_values && are_rows)
}

/// Whether all is right over the view.
fn are_right_over<V: View>(
    alloc: Global,
    view: &V,
    scratch: &mut Scratch,
) -> Result<bool, TermFault>
    requires { IsTable (V.content view.now).known scratch.old }
{
    let mut row = Row::unbound(alloc, WIDTH)?;
    bind_all(alloc, &mut row, view, scratch)?;
    are_right_of(alloc, &row, view, scratch)
}

/// Whether all is right over the store.
fn are_right(alloc: Global, store: &Store) -> Result<bool, TermFault> {
    let mut scratch = Scratch::new(alloc, store);
    are_right_over(alloc, store, &mut scratch)
}

fn over(alloc: Global, store: &mut Store, quads: &[Quad]) -> Result<bool, TermFault> {
    if store.next_blank() != 0 || !is_above_blanks(0, quads) {
        return Ok(false);
    }
    if store.change(&[], quads, 0).is_err() {
        return Err(TermFault::Memory);
    }
    are_right(alloc, store)
}

fn filled(alloc: Global, store: &mut Store) -> Result<bool, TermFault> {
    match quads(alloc) {
        Ok(quads) => over(alloc, store, quads.as_slice()),
        Err(fault) => Err(fault),
    }
}

/// What comes of expressions over rows of cells.
pub fn outcome(alloc: Global, hasher: Option<RandomState>) -> Outcome {
    let Some(hasher) = hasher else {
        return Outcome::Wrong;
    };
    let mut store = Store::new(alloc, 100, hasher);
    let outcome = Outcome::of(filled(alloc, &mut store));
    drop(store);
    outcome
}
