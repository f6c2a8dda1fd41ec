//! The quads that a template makes of solutions.

ghost use Rattle.std.specs.Prelude.{◌≡◌, ◌+◌, ◌*◌, ◌^◌, ◌<◌, ◌++◌, length, option_to_list, Err, IfOk, OnOk};
ghost use Rattle.std.specs.Option.{option_copied};
ghost use Rattle.qs_terms.specs.inner.Outcome.{OrOutOfMemory};
ghost use Rattle.qs_terms.specs.declared.fault.QFault.TheVariants.{Full};
ghost use Rattle.qs_query_template.specs.Instances as spec;
ghost use Rattle.qs_query_template.specs.inner.Instances as inner;
ghost use Rattle.qs_query_template.specs.inner.Lent.{lent, listed};

use crate::template::{QuadTemplate, Slot, Template};
use qs_algebra_solutions::Row;
use qs_terms::{QFault, Quad, Term};
use std::alloc::{AllocError, Global};

pub(crate) fn fresh(blanks: usize, first: u64, number: usize) -> Option<Term>
    requires { first + blanks < 2 ^ 64 }
    ensures { result ≡ inner.fresh blanks first number }
{
    if number < blanks {
        return Some(Term::Blank(first + number as u64));
    }
    None
}

fn copied(term: Option<&Term>) -> Result<Option<Term>, AllocError>
    ensures { IfOk result (λ t. t ≡ option_copied term.entry) }
{
    match term {
        None => Ok(None),
        Some(term) => Ok(Some(term.try_clone()?)),
    }
}

fn slot_term(blanks: usize, first: u64, row: &Row, slot: &Slot) -> Result<Option<Term>, AllocError>
    requires { first + blanks < 2 ^ 64 }
    ensures { IfOk result (λ t. t ≡ spec.slot_term blanks first row.now slot.now) }
{
    match slot {
        Slot::Variable(number) => copied(row.term(*number)),
        Slot::Term(term) => Ok(Some(term.get().try_clone()?)),
        Slot::Blank(number) => Ok(fresh(blanks, first, *number)),
    }
}

fn graph_term(
    blanks: usize,
    first: u64,
    row: &Row,
    graph: &Option<Slot>,
) -> Result<Option<Option<Term>>, AllocError>
    requires { first + blanks < 2 ^ 64 }
    ensures { IfOk result (λ t. t ≡ spec.graph_term blanks first row.now graph.now) }
{
    match graph {
        None => Ok(Some(None)),
        Some(slot) => match slot_term(blanks, first, row, slot)? {
            None => Ok(None),
            Some(name) => Ok(Some(Some(name))),
        },
    }
}

// the quad, where the terms may stand in their places
fn lawful(graph: Option<Term>, subject: Term, predicate: Term, object: Term) -> Option<Quad>
    ensures { option_to_list result ≡ inner.lawful graph subject predicate object }
{
    if Quad::fits(graph.as_ref(), &subject, &predicate) {
        return Some(Quad::new(graph, subject, predicate, object));
    }
    None
}

// the quad, where each place has a term
pub(crate) fn quad_of(
    graph: Option<Option<Term>>,
    subject: Option<Term>,
    predicate: Option<Term>,
    object: Option<Term>,
) -> Option<Quad>
    ensures { option_to_list result ≡ spec.quad_of graph subject predicate object }
{
    match (graph, subject, predicate, object) {
        (Some(graph), Some(subject), Some(predicate), Some(object)) => {
            lawful(graph, subject, predicate, object)
        }
        _ => None,
    }
}

fn instance(
    blanks: usize,
    first: u64,
    row: &Row,
    quad: &QuadTemplate,
) -> Result<Option<Quad>, AllocError>
    requires { first + blanks < 2 ^ 64 }
    ensures { IfOk result (λ q. option_to_list q ≡ spec.instance blanks first row.now quad.now) }
{
    let graph = graph_term(blanks, first, row, &quad.graph)?;
    let subject = slot_term(blanks, first, row, &quad.subject)?;
    let predicate = slot_term(blanks, first, row, &quad.predicate)?;
    let object = slot_term(blanks, first, row, &quad.object)?;
    Ok(quad_of(graph, subject, predicate, object))
}

fn put_instance(
    blanks: usize,
    first: u64,
    row: &Row,
    quad: &QuadTemplate,
    quads: &mut Vec<Quad>,
) -> Result<(), AllocError>
    requires { first + blanks < 2 ^ 64 }
    ensures { OnOk result (quads.new.items ≡ quads.old.items ++ spec.instance blanks first row.now
        quad.now) }
{
    match instance(blanks, first, row, quad)? {
        None => Ok(()),
        Some(quad) => {
            quads.push(quad)?;
            Ok(())
        }
    }
}

// Puts the instances under a solution after the others.
fn put_instances(
    template: &Template,
    first: u64,
    row: &Row,
    quads: &mut Vec<Quad>,
) -> Result<(), AllocError>
    requires { first + template.now.blanks < 2 ^ 64 }
    ensures { OnOk result (quads.new.items ≡ quads.old.items ++ inner.instances_under template.now
        first row.now) }
{
    for quad in template.quads.as_slice() {
        put_instance(template.blanks, first, row, quad, quads)?;
    }
    Ok(())
}

fn all_instances(
    alloc: Global,
    template: &Template,
    rows: &[&Row],
    next: u64,
) -> Result<Vec<Quad>, AllocError>
    requires { spec.next_after template.now next (length rows.now) < 2 ^ 64 }
    ensures { IfOk result (λ quads. quads.items ≡ spec.instances template.now next
        (lent rows.now)) }
{
    let mut quads = Vec::new(alloc);
    let mut first = next;
    for &row in rows {
        put_instances(template, first, row, &mut quads)?;
        first += template.blanks as u64;
    }
    Ok(quads)
}

/// The number after those of the fresh blank nodes that so many solutions take, from the next one on. Takes no memory.
///
/// # Errors
/// `QFault::Full` where it is past the greatest number of 64 bits.
pub fn next_after(template: &Template, next: u64, solutions: usize) -> Result<u64, QFault>
    ensures { let after = spec.next_after template.now next solutions
        in result ≡ inner.within after after }
{
    let Some(taken) = (template.blanks as u64).checked_mul(solutions as u64) else {
        return Err(QFault::Full);
    };
    match next.checked_add(taken) {
        Some(after) => Ok(after),
        None => Err(QFault::Full),
    }
}

/// The quads that the template makes of the solutions, whose terms stand by the numbers of the variables (SPARQL 1.1 Query, 16.2): by
/// solution, and under each solution in the order of the template. Those with an unbound variable, or with a term that may not stand in
/// its place, are left out. Each solution takes fresh blank nodes, from the number `next_blank` on, as many as the template has, also
/// where quads are left out (16.2.1). A quad may stand there more than once.
///
/// # Errors
/// `QFault::Full` where the numbers of blank nodes don't suffice, before anything is made; `QFault::Memory` where memory runs out.
pub fn instances(
    alloc: Global,
    template: &Template,
    rows: &[&Row],
    next_blank: u64,
) -> Result<Vec<Quad>, QFault>
    ensures outcome { OrOutOfMemory (spec.made template.now next_blank (lent rows.now))
        (listed result) }
    ensures full { spec.made template.now next_blank (lent rows.now) ≡ Err Full
        → result ≡ Err Full }
{
    next_after(template, next_blank, rows.len())?;
    let quads = all_instances(alloc, template, rows, next_blank)?;
    Ok(quads)
}
