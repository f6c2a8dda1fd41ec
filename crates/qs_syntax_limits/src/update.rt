//! Updates.

ghost use Rattle.std.specs.Prelude.{◌≡◌, ◌∷◌, map};
ghost use Rattle.std.specs.List.{flat_map};
ghost use Rattle.qs_syntax_limits.specs.Large as spec;
ghost use Rattle.qs_syntax_limits.specs.inner.Parts as inner;
ghost use Rattle.qs_syntax_tree.specs.declared.update.Operation.TheVariants as operation;

use crate::pattern::in_group;
use crate::place::{excess, first};
use crate::triples::in_triples;
use qs_syntax_tree::update::{
    Modify, Operation, QuadElement, QuadPattern, Quads, Update, UpdateStep,
};

fn in_quads(quads: &Quads) -> Option<usize>
    ensures { result ≡ spec.excess (spec.quads quads.now) }
{
    match quads {
        Quads::Triples(triples) | Quads::Graph(_, triples) => in_triples(triples.as_slice()),
    }
}

// What was found before, or is within an element.
#[tactic(auto, using(crate::proofs::Rows::gathered))]
fn in_elements(mut found: Option<usize>, all: &[QuadElement]) -> Option<usize>
    ensures { result ≡ inner.first found
        (spec.excess (flat_map (λ e. spec.quads e.quads) all.now)) }
{
    for element in all {
        found = first(found, in_quads(&element.quads));
    }
    found
}

#[tactic(auto, using(crate::proofs::Rows::none_first))]
fn in_quad_pattern(pattern: &QuadPattern) -> Option<usize>
    ensures { result ≡ spec.excess (spec.braces pattern.now) }
{
    in_elements(None, pattern.elements.as_slice())
}

#[tactic(auto, using(crate::proofs::Rows::excess_more))]
fn in_quad_group(pattern: &QuadPattern) -> Option<usize>
    ensures { result ≡ spec.excess (spec.operation (operation.DeleteWhere pattern.now)) }
{
    let elements = pattern.elements.as_slice();
    in_elements(excess(elements), elements)
}

#[tactic(auto, using(crate::proofs::Rows::excess_none))]
fn in_template(template: &Option<QuadPattern>) -> Option<usize>
    ensures { result ≡ spec.excess (inner.given spec.braces template.now) }
{
    match template {
        None => None,
        Some(pattern) => in_quad_pattern(pattern),
    }
}

#[tactic(auto, using(crate::proofs::Rows::excess_append))]
fn in_modify(modify: &Modify) -> Option<usize>
    ensures { result ≡ spec.excess (spec.operation (operation.Modify modify.now)) }
{
    let insert = in_template(&modify.insert);
    first(
        in_template(&modify.delete),
        first(insert, in_group(&modify.pattern)),
    )
}

#[tactic(auto, using(crate::proofs::Rows::excess_none))]
fn in_operation(operation: &Operation) -> Option<usize>
    ensures { result ≡ spec.excess (spec.operation operation.now) }
{
    match operation {
        Operation::InsertData(quads) | Operation::DeleteData(quads) => in_quad_pattern(quads),
        Operation::DeleteWhere(quads) => in_quad_group(quads),
        Operation::Modify(modify) => in_modify(modify),
        Operation::Clear(_, _) | Operation::Drop(_, _) | Operation::Create(_, _) => None,
        Operation::Add(_) | Operation::Move(_) | Operation::Copy(_) => None,
    }
}

#[tactic(auto, using(crate::proofs::Rows::excess_none))]
fn in_step(step: &UpdateStep) -> Option<usize>
    ensures { result ≡ spec.excess (inner.given spec.operation step.now.operation) }
{
    match &step.operation {
        None => None,
        Some(operation) => in_operation(operation),
    }
}

#[tactic(auto, using(crate::proofs::Rows::from_none))]
fn in_steps(all: &[UpdateStep]) -> Option<usize>
    ensures { result ≡ spec.excess (flat_map (λ s. inner.given spec.operation s.operation)
        all.now) }
{
    let mut found = None;
    for step in all {
        found = first(found, in_step(step));
    }
    found
}

/// As `large_query`, of an update. The braces of DELETE WHERE count as a group, those of data and of templates don't.
#[tactic(auto, unfolding(crate::specs::Large::update))]
pub fn large_update(update: &Update) -> Option<usize>
    ensures { result ≡ spec.update update.now }
{
    in_steps(update.steps.as_slice())
}
