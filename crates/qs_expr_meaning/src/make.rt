//! Terms, truth and sorting keys of expressions.

ghost use Rattle.std.specs.Prelude.{◌≡◌, ◌||◌, false, true, IfOk, OnErr};
ghost use Rattle.std.specs.Option.{is_some};
ghost use Rattle.qs_expr_values.specs.Sorting.{key_of};
ghost use Rattle.qs_expr_values.specs.inner.Sorting.{has_text};
ghost use Rattle.qs_expr_meaning.specs.inner.Comes.{Comes};
ghost use Rattle.qs_expr_meaning.specs.inner.Makes.{makes};
ghost use Rattle.qs_expr_meaning.specs.Meaning.{meaning};
ghost use Rattle.qs_expr_meaning.specs.Meaning as spec;
ghost use Rattle.qs_expr_values.specs.Values as of_terms;

use crate::bindings::Bindings;
use crate::evaluate::{truth, value};
use crate::expr::Expr;
use crate::fault::ExprFault;
use qs_expr_values::{Key, Value, make_term};
use qs_terms::Term;
use std::alloc::{AllocError, Global};

/// The term that the expression means. Memory is taken for the term, and by CONCAT.
pub fn eval_terms<B: Bindings>(alloc: Global, expr: &Expr, bindings: &B) -> Result<Term, ExprFault>
    ensures { Comes (makes expr.now || is_some (meaning (B.solution bindings.now) expr.now))
        (meaning (B.solution bindings.now) expr.now) result }
{
    let value = value(alloc, expr, bindings)?;
    match make_term(alloc, value) {
        Ok(term) => Ok(term),
        Err(_) => Err(ExprFault::Memory),
    }
}

/// The effective boolean value of a term, without taking memory (SPARQL 1.1 Query, 17.2.2).
pub fn ebv_terms(term: &Term) -> Result<bool, ExprFault>
    ensures { Comes false (of_terms.ebv term.now) result }
{
    match qs_expr_values::ebv(&Value::Term(term)) {
        Some(truth) => Ok(truth),
        None => Err(ExprFault::TypeError),
    }
}

/// Whether the condition is true; an error isn't true (SPARQL 1.1 Query, 17.2 and 18.5, Filter). It takes memory for CONCAT alone.
pub fn holds<B: Bindings>(alloc: Global, expr: &Expr, bindings: &B) -> Result<bool, AllocError>
    ensures value { IfOk result (λ b. b ≡ spec.holds (B.solution bindings.now) expr.now) }
    ensures memory { OnErr result (makes expr.now ≡ true) }
{
    match truth(alloc, expr, bindings) {
        Ok(truth) => Ok(truth),
        Err(ExprFault::TypeError) => Ok(false),
        Err(ExprFault::Memory) => Err(AllocError),
    }
}

/// What ORDER BY sorts the solution by (SPARQL 1.1 Query, 15.1). Memory is taken for the texts of keys, and by CONCAT.
pub fn order_key_terms<B: Bindings>(
    alloc: Global,
    expr: &Expr,
    bindings: &B,
) -> Result<Key, AllocError>
    ensures key { IfOk result (λ k. k ≡ key_of (meaning (B.solution bindings.now) expr.now)) }
    ensures memory { OnErr result
        ((makes expr.now || has_text (key_of (meaning (B.solution bindings.now) expr.now)))
        ≡ true) }
{
    match value(alloc, expr, bindings) {
        Ok(value) => qs_expr_values::order_key(alloc, Some(&value)),
        Err(ExprFault::TypeError) => qs_expr_values::order_key(alloc, None),
        Err(ExprFault::Memory) => Err(AllocError),
    }
}
