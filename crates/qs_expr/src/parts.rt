//! How a condition is taken into parts.

ghost use Rattle.std.specs.Prelude.{◌≡◌, ◌&&◌, ◌||◌, [], ◌∷◌, IfOk, IfSome, OnOk};
ghost use Rattle.std.specs.List.{list_all, list_any};
ghost use Rattle.qs_dict.specs.inner.Dict.{number_of};
ghost use Rattle.qs_algebra_solutions.specs.Solution.{Solution, term_at};
ghost use Rattle.qs_expr_meaning.specs.inner.Makes.{makes};
ghost use Rattle.qs_expr_meaning.specs.Meaning as spec;
ghost use Rattle.qs_expr_meaning.specs.declared.expr.Expr.TheVariants as expr_of;
ghost use Rattle.qs_syntax_tree.specs.declared.expression.BinaryFunction.TheVariants as binary_function;
ghost use Rattle.qs_expr_values.specs.Values as of_terms;
ghost use Rattle.qs_expr.specs.inner.Condition.{AreNumbersOf};
ghost use Rattle.qs_expr.specs.inner.Against.{has_term, with_constant};
ghost use Rattle.qs_expr.specs.inner.Members.{among_by};
ghost use Rattle.qs_expr.specs.inner.Parts.{all_hold, asked, numbers_of, some_make, IsNumbered};

use crate::among::AmongConstants;
use crate::constant::{AgainstConstant, is_literal};
use crate::part::{AreAlike, HasTerm, Part};
use qs_expr_meaning::{BinaryFunction, Comparison, Expr};
use qs_store::View;
use qs_terms::Term;
use std::alloc::{AllocError, Global};

/// The most constants that are compared one by one.
const FEW: usize = 8;

// Whether the variable has the term, or another one; the term's number is looked up.
fn has_part<'e, V: View>(
    expr: &'e Expr,
    variable: usize,
    term: &'e Term,
    apart: bool,
    view: &V,
) -> Part<'e>
    requires { (m : Solution) → spec.holds m expr.now ≡ has_term apart term.now
        (term_at m variable) }
    ensures asked { asked result ≡ expr.now }
    ensures number { IsNumbered (V.content view.now).known result }
{
    Part::Has(HasTerm {
        expr,
        variable,
        term,
        number: view.find(term),
        apart,
    })
}

// The comparison of a variable with a constant, which comes `first` or second. One with an IRI asks for the term, in whichever order.
fn constant_part<'e, V: View>(
    expr: &'e Expr,
    comparison: Comparison,
    variable: usize,
    term: &'e Term,
    first: bool,
    view: &V,
) -> Part<'e>
    requires { expr.now ≡ with_constant first comparison variable term.now }
    ensures asked { asked result ≡ expr.now }
    ensures number { IsNumbered (V.content view.now).known result }
{
    if is_literal(term) {
        return Part::Against(AgainstConstant::new(expr, comparison, variable, term, first));
    }
    match comparison {
        Comparison::Equal => has_part(expr, variable, term, false, view),
        Comparison::NotEqual => has_part(expr, variable, term, true, view),
        _ => Part::Other(expr),
    }
}

// The comparison of two variables.
fn variables_part<'e>(
    expr: &'e Expr,
    comparison: Comparison,
    first: usize,
    second: usize,
) -> Part<'e>
    requires { expr.now ≡ expr_of.Compare comparison (expr_of.Variable first)
        (expr_of.Variable second) }
    ensures asked { asked result ≡ expr.now }
    ensures number { numbers_of (result ∷ []) ≡ [] }
{
    let truth = match comparison {
        Comparison::Equal => true,
        Comparison::NotEqual => false,
        _ => return Part::Other(expr),
    };
    Part::Alike(AreAlike {
        expr,
        first,
        second,
        truth,
        exact: false,
    })
}

// The part of a comparison.
fn comparison_part<'e, V: View>(
    expr: &'e Expr,
    comparison: Comparison,
    a: &'e Expr,
    b: &'e Expr,
    view: &V,
) -> Part<'e>
    requires { expr.now ≡ expr_of.Compare comparison a.now b.now }
    ensures asked { asked result ≡ expr.now }
    ensures number { IsNumbered (V.content view.now).known result }
{
    match (a, b) {
        (Expr::Variable(variable), Expr::Term(term)) => {
            constant_part(expr, comparison, *variable, term, false, view)
        }
        (Expr::Term(term), Expr::Variable(variable)) => {
            constant_part(expr, comparison, *variable, term, true, view)
        }
        (Expr::Variable(first), Expr::Variable(second)) => {
            variables_part(expr, comparison, *first, *second)
        }
        _ => Part::Other(expr),
    }
}

// sameTerm of two variables.
#[tactic(auto, using(crate::proofs::Said::same_term_alike, crate::proofs::Said::same_term_unlike))]
fn same_variables<'e>(expr: &'e Expr, first: usize, second: usize) -> Part<'e>
    requires { expr.now ≡ expr_of.Binary binary_function.SameTerm (expr_of.Variable first)
        (expr_of.Variable second) }
    ensures asked { asked result ≡ expr.now }
    ensures number { numbers_of (result ∷ []) ≡ [] }
{
    Part::Alike(AreAlike {
        expr,
        first,
        second,
        truth: true,
        exact: true,
    })
}

// The part of a sameTerm.
#[tactic(auto, using(crate::proofs::Said::same_term_second, crate::proofs::Said::same_term_first))]
fn same_term_part<'e, V: View>(expr: &'e Expr, a: &'e Expr, b: &'e Expr, view: &V) -> Part<'e>
    requires { expr.now ≡ expr_of.Binary binary_function.SameTerm a.now b.now }
    ensures asked { asked result ≡ expr.now }
    ensures number { IsNumbered (V.content view.now).known result }
{
    match (a, b) {
        (Expr::Variable(variable), Expr::Term(term)) => {
            has_part(expr, *variable, term, false, view)
        }
        (Expr::Term(term), Expr::Variable(variable)) => {
            has_part(expr, *variable, term, false, view)
        }
        (Expr::Variable(first), Expr::Variable(second)) => same_variables(expr, *first, *second),
        _ => Part::Other(expr),
    }
}

// The part of a condition that is no conjunction.
fn part_of<'e, V: View>(expr: &'e Expr, view: &V) -> Part<'e>
    ensures asked { asked result ≡ expr.now }
    ensures number { IsNumbered (V.content view.now).known result }
{
    match expr {
        Expr::Compare(comparison, a, b) => {
            comparison_part(expr, *comparison, a.get(), b.get(), view)
        }
        Expr::Binary(BinaryFunction::SameTerm, a, b) => {
            same_term_part(expr, a.get(), b.get(), view)
        }
        _ => Part::Other(expr),
    }
}

// The look-up that an IN or NOT IN is, where it is of a variable and of more than a few constants.
fn among_part<'e, V: View>(
    alloc: Global,
    expr: &'e Expr,
    denied: bool,
    operand: &Expr,
    exprs: &[Expr],
    view: &V,
) -> Result<Option<AmongConstants<'e>>, AllocError>
    requires { (m : Solution) → spec.holds m expr.now ≡ among_by denied m
        (spec.meaning m operand.now) exprs.now }
    ensures { IfOk result (λ o. IfSome o (λ among. among.expr.now ≡ expr.now)) }
{
    if exprs.len() <= FEW {
        return Ok(None);
    }
    match operand {
        Expr::Variable(variable) => {
            AmongConstants::new(alloc, expr, denied, *variable, exprs, view)
        }
        _ => Ok(None),
    }
}

// The look-up that the denial of an IN or NOT IN is.
fn denied_part<'e, V: View>(
    alloc: Global,
    expr: &'e Expr,
    inner: &Expr,
    view: &V,
) -> Result<Option<AmongConstants<'e>>, AllocError>
    requires { expr.now ≡ expr_of.Not inner.now }
    ensures { IfOk result (λ o. IfSome o (λ among. among.expr.now ≡ expr.now)) }
{
    match inner {
        Expr::In(operand, exprs) => {
            among_part(alloc, expr, true, operand.get(), exprs.as_slice(), view)
        }
        Expr::NotIn(operand, exprs) => {
            among_part(alloc, expr, false, operand.get(), exprs.as_slice(), view)
        }
        _ => Ok(None),
    }
}

// The look-up that the condition is, if it is one.
fn lookup_of<'e, V: View>(
    alloc: Global,
    expr: &'e Expr,
    view: &V,
) -> Result<Option<AmongConstants<'e>>, AllocError>
    ensures { IfOk result (λ o. IfSome o (λ among. among.expr.now ≡ expr.now)) }
{
    match expr {
        Expr::In(operand, exprs) => {
            among_part(alloc, expr, false, operand.get(), exprs.as_slice(), view)
        }
        Expr::NotIn(operand, exprs) => {
            among_part(alloc, expr, true, operand.get(), exprs.as_slice(), view)
        }
        Expr::Not(inner) => denied_part(alloc, expr, inner.get(), view),
        _ => Ok(None),
    }
}

// The part of a condition that is no conjunction: a look-up, if it is one.
fn any_part_of<'e, V: View>(alloc: Global, expr: &'e Expr, view: &V) -> Result<Part<'e>, AllocError>
    ensures asked { IfOk result (λ part. asked part ≡ expr.now) }
    ensures number { IfOk result (IsNumbered (V.content view.now).known) }
{
    match lookup_of(alloc, expr, view)? {
        Some(among) => Ok(Part::Among(among)),
        None => Ok(part_of(expr, view)),
    }
}

/// Puts the parts of the condition after the others: those of each operand, where it is a conjunction.
#[cycle(parts)]
pub(crate) fn put_parts<'e, V: View>(
    alloc: Global,
    expr: &'e Expr,
    view: &V,
    parts: &mut Vec<Part<'e>>,
) -> Result<(), AllocError>
    ensures hold { OnOk result ((m : Solution) → all_hold m parts.new.items
        ≡ (all_hold m parts.old.items && spec.holds m expr.now)) }
    ensures make { OnOk result
        (some_make parts.new.items ≡ (some_make parts.old.items || makes expr.now)) }
    ensures numbers { OnOk result
        (AreNumbersOf (V.content view.now).known (numbers_of parts.old.items)
        → AreNumbersOf (V.content view.now).known (numbers_of parts.new.items)) }
{
    match expr {
        Expr::And(conjuncts) => put_all(alloc, conjuncts.as_slice(), view, parts),
        _ => {
            let part = any_part_of(alloc, expr, view)?;
            parts.push(part)?;
            Ok(())
        }
    }
}

/// Puts the parts of each of the conditions after the others.
#[cycle(parts)]
fn put_all<'e, V: View>(
    alloc: Global,
    exprs: &'e [Expr],
    view: &V,
    parts: &mut Vec<Part<'e>>,
) -> Result<(), AllocError>
    ensures hold { OnOk result ((m : Solution) → all_hold m parts.new.items
        ≡ (all_hold m parts.old.items && list_all (spec.holds m) exprs.now)) }
    ensures make { OnOk result
        (some_make parts.new.items ≡ (some_make parts.old.items || list_any makes exprs.now)) }
    ensures numbers { OnOk result
        (AreNumbersOf (V.content view.now).known (numbers_of parts.old.items)
        → AreNumbersOf (V.content view.now).known (numbers_of parts.new.items)) }
{
    for expr in exprs {
        put_parts(alloc, expr, view, parts)?;
    }
    Ok(())
}
