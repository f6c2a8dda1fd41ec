//! Expressions, with their variables by numbers (SPARQL 1.1 Query, 17).

ghost use Rattle.std.specs.Prelude.{◌≡◌, map, IfOk};
ghost use Rattle.qs_algebra.specs.Expressions as spec;
ghost use Rattle.qs_algebra.specs.inner.Expressions as inner_spec;

use qs_base::keep_beside;
use qs_expr_meaning::{Addend, Expr};
use qs_syntax_ast::expression::{Addend as WrittenAddend, Expression};
use qs_syntax_scope::NameList;
use qs_terms::Term;
use sqlite_items::{Boxed, Items};
use std::alloc::{AllocError, Global};

/// The expression, where `names` are the names of the variables in the order of their numbers.
#[cycle(expression)]
pub fn expr_of<'a>(
    alloc: Global,
    names: &NameList<'a>,
    expression: &'a Expression,
) -> Result<Expr, AllocError>
    ensures { IfOk result (λ e. e ≡ spec.expr_of names.now expression.now) }
{
    match expression {
        Expression::Variable(variable) => Ok(Expr::Variable(names.place(variable.text()))),
        Expression::Iri(iri) => Ok(Expr::Term(Term::Iri(iri.try_clone()?))),
        Expression::Literal(lit) => Ok(Expr::Term(Term::Literal(lit.try_clone()?))),
        Expression::Or(parts) => Ok(Expr::Or(exprs_of(alloc, names, parts.as_slice())?)),
        Expression::And(parts) => Ok(Expr::And(exprs_of(alloc, names, parts.as_slice())?)),
        Expression::Compare(by, a, b) => {
            let a = boxed(alloc, names, a.get())?;
            let (a, b) = keep_beside(a, boxed(alloc, names, b.get()))?;
            Ok(Expr::Compare(*by, a, b))
        }
        Expression::In(inner, parts) => {
            let inner = boxed(alloc, names, inner.get())?;
            let (inner, parts) = keep_beside(inner, exprs_of(alloc, names, parts.as_slice()))?;
            Ok(Expr::In(inner, parts))
        }
        Expression::NotIn(inner, parts) => {
            let inner = boxed(alloc, names, inner.get())?;
            let (inner, parts) = keep_beside(inner, exprs_of(alloc, names, parts.as_slice()))?;
            Ok(Expr::NotIn(inner, parts))
        }
        Expression::Sum(first, more) => {
            let first = boxed(alloc, names, first.get())?;
            let (first, more) = keep_beside(first, addends_of(alloc, names, more.as_slice()))?;
            Ok(Expr::Sum(first, more))
        }
        Expression::Product(parts) => product_of(alloc, names, parts.as_slice()),
        Expression::Not(inner) => Ok(Expr::Not(boxed(alloc, names, inner.get())?)),
        Expression::Signed(by, inner) => {
            let inner = boxed(alloc, names, inner.get())?;
            Ok(Expr::Signed(*by, inner))
        }
        Expression::Bound(variable) => Ok(Expr::Bound(names.place(variable.text()))),
        Expression::If(test, then, otherwise) => {
            let test = boxed(alloc, names, test.get())?;
            let (test, then) = keep_beside(test, boxed(alloc, names, then.get()))?;
            let two = (test, then);
            let ((test, then), otherwise) = keep_beside(two, boxed(alloc, names, otherwise.get()))?;
            Ok(Expr::If(test, then, otherwise))
        }
        Expression::Coalesce(parts) => {
            Ok(Expr::Coalesce(exprs_of(alloc, names, parts.as_slice())?))
        }
        Expression::Concat(parts) => Ok(Expr::Concat(exprs_of(alloc, names, parts.as_slice())?)),
        Expression::Unary(function, argument) => {
            let argument = boxed(alloc, names, argument.get())?;
            Ok(Expr::Unary(*function, argument))
        }
        Expression::Binary(function, a, b) => {
            let a = boxed(alloc, names, a.get())?;
            let (a, b) = keep_beside(a, boxed(alloc, names, b.get()))?;
            Ok(Expr::Binary(*function, a, b))
        }
    }
}

#[cycle(expression)]
fn boxed<'a>(
    alloc: Global,
    names: &NameList<'a>,
    expression: &'a Expression,
) -> Result<Boxed<Expr>, AllocError>
    ensures { IfOk result (λ e. e ≡ spec.expr_of names.now expression.now) }
{
    let expr = expr_of(alloc, names, expression)?;
    Boxed::new(alloc, expr)
}

#[cycle(expression)]
fn product_of<'a>(
    alloc: Global,
    names: &NameList<'a>,
    parts: &'a [Expression],
) -> Result<Expr, AllocError>
    ensures { IfOk result (λ e. e ≡ spec.product (map (spec.expr_of names.now) parts.now)) }
{
    match parts.split_first() {
        None => Ok(Expr::Coalesce(Items::new(alloc))),
        Some((first, more)) => {
            let first = boxed(alloc, names, first)?;
            let (first, more) = keep_beside(first, exprs_of(alloc, names, more))?;
            Ok(Expr::Product(first, more))
        }
    }
}

/// The expressions, in their order.
#[cycle(expression)]
pub fn exprs_of<'a>(
    alloc: Global,
    names: &NameList<'a>,
    expressions: &'a [Expression],
) -> Result<Items<Expr>, AllocError>
    ensures { IfOk result (λ exprs. exprs ≡ map (spec.expr_of names.now) expressions.now) }
{
    let mut exprs = Items::new(alloc);
    for expression in expressions {
        let expr = expr_of(alloc, names, expression)?;
        exprs.push(expr)?;
    }
    Ok(exprs)
}

#[cycle(expression)]
fn addends_of<'a>(
    alloc: Global,
    names: &NameList<'a>,
    written: &'a [WrittenAddend],
) -> Result<Items<Addend>, AllocError>
    ensures { IfOk result (λ addends. addends ≡ map (inner_spec.addend_of names.now) written.now) }
{
    let mut addends = Items::new(alloc);
    for addend in written {
        let operand = expr_of(alloc, names, &addend.operand)?;
        addends.push(Addend {
            sign: addend.sign,
            operand,
        })?;
    }
    Ok(addends)
}
