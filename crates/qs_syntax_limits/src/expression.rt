//! Expressions.

ghost use Rattle.std.specs.Prelude.{◌≡◌, ◌∷◌, map, slice_get};
ghost use Rattle.std.specs.List.{flat_map};
ghost use Rattle.qs_syntax_limits.specs.Large as spec;
ghost use Rattle.qs_syntax_limits.specs.inner.Parts as part;

use crate::place::{excess, excess_behind, first};
use qs_syntax_tree::expression::{Addend, Call, Expression, Operand};

/// The first place in an expression at which a chain has too many operands.
#[cycle(expression)]
#[tactic(auto, using(crate::proofs::Rows::excess_none, crate::proofs::Rows::excess_append, crate::proofs::Rows::of_more))]
pub fn in_expression(tree: &Expression) -> Option<usize>
    ensures { result ≡ spec.excess (spec.expression tree.now) }
{
    match tree {
        Expression::Var(_) | Expression::Iri(_) | Expression::Literal(_) => None,
        Expression::Call(call) => in_call(call),
        Expression::Or(all) | Expression::And(all) | Expression::Product(all) => {
            in_operands(all.as_slice())
        }
        Expression::Compare(_, a, b) => first(in_expression(a.get()), in_expression(b.get())),
        Expression::In(a, list) | Expression::NotIn(a, list) => {
            first(in_expression(a.get()), in_expressions(list.as_slice()))
        }
        Expression::Sum(start, rest) => {
            let within = in_operand(start.get());
            in_sum(start.get().place, within, rest.as_slice())
        },
        Expression::Not(a) | Expression::Signed(_, a) => in_expression(a.get()),
    }
}

#[cycle(expression)]
#[tactic(auto, using(crate::proofs::Rows::excess_none, crate::proofs::Rows::excess_append))]
fn in_call(call: &Call) -> Option<usize>
    ensures { result ≡ spec.excess (part.call call.now) }
{
    match call {
        Call::Bound(_) => None,
        Call::If(test, a, b) => first(
            in_expression(test.get()),
            first(in_expression(a.get()), in_expression(b.get())),
        ),
        Call::Coalesce(all) | Call::Concat(all) => in_expressions(all.as_slice()),
        Call::Unary(_, a) => in_expression(a.get()),
        Call::Binary(_, a, b) => first(in_expression(a.get()), in_expression(b.get())),
    }
}

#[cycle(expression)]
#[tactic(auto, using(crate::proofs::Rows::of_each))]
fn in_expressions(all: &[Expression]) -> Option<usize>
    ensures { result ≡ spec.excess (flat_map (λ rows. rows) (map spec.expression all.now)) }
{
    let mut found = None;
    for tree in all {
        found = first(found, in_expression(tree));
    }
    found
}

#[cycle(expression)]
#[tactic(auto, using(crate::proofs::Rows::of_row))]
fn in_operands(all: &[Operand]) -> Option<usize>
    ensures { result ≡ spec.excess (spec.side_by_side (map part.operand all.now)) }
{
    let mut found = excess(all);
    for operand in all {
        found = first(found, in_expression(&operand.expression));
    }
    found
}

#[cycle(expression)]
#[tactic(auto, using(crate::proofs::Rows::gathered))]
fn in_sum(start: usize, within: Option<usize>, rest: &[Addend]) -> Option<usize>
    ensures { result ≡ part.first
        (part.first (slice_get (start ∷ map (λ x. (part.addend x).place) rest.now) spec.limit)
        within) (spec.excess (flat_map (λ x. (part.addend x).rows) rest.now)) }
{
    let mut found = first(excess_behind(rest), within);
    for addend in rest {
        found = first(found, in_expression(&addend.operand.expression));
    }
    found
}

#[cycle(expression)]
fn in_operand(operand: &Operand) -> Option<usize>
    ensures { result ≡ spec.excess (spec.expression operand.now.expression) }
{
    in_expression(&operand.expression)
}
