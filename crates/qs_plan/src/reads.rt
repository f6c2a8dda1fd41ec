//! Which variables an expression reads.

ghost use Rattle.std.specs.Prelude.{OnOk};
ghost use Rattle.std.specs.List.{AllByRecursion};
ghost use Rattle.qs_plan.specs.inner.Reads.{Grows, Settles, SettlesOperand};

use qs_expr_meaning::{Addend, Expr};
use std::alloc::{AllocError, Global};

/// Puts the variables that the expression reads after the others: where two solutions bind all of these alike, it means the same in both.
///
/// # Errors
/// `AllocError` where memory runs out.
#[cycle(settle)]
#[tactic(auto, using(crate::proofs::Settled::variable_settled, crate::proofs::Settled::bound_settled, crate::proofs::Settled::term_settled, crate::proofs::Settled::grows_by_one, crate::proofs::Settled::grows_more, crate::proofs::Settled::grows_same))]
pub fn settle(alloc: Global, expr: &Expr, variables: &mut Vec<usize>) -> Result<(), AllocError>
    ensures grows { OnOk result (Grows variables.old.items variables.new.items) }
    ensures settles { OnOk result (Settles variables.new.items expr.now) }
{
    match expr {
        Expr::Variable(variable) => {
            variables.push(*variable)?;
            Ok(())
        }
        Expr::Bound(variable) => {
            variables.push(*variable)?;
            Ok(())
        }
        Expr::Term(_) => Ok(()),
        Expr::Not(inner) => { settle(alloc, inner.get(), variables) }
        Expr::Signed(_, inner) => { settle(alloc, inner.get(), variables) }
        Expr::Unary(_, inner) => { settle(alloc, inner.get(), variables) }
        Expr::Compare(_, left, right) => {
            settle(alloc, left.get(), variables)?;
            settle(alloc, right.get(), variables)
        }
        Expr::Binary(_, left, right) => {
            settle(alloc, left.get(), variables)?;
            settle(alloc, right.get(), variables)
        }
        Expr::If(test, yes, no) => {
            settle(alloc, test.get(), variables)?;
            settle(alloc, yes.get(), variables)?;
            settle(alloc, no.get(), variables)
        }
        Expr::Or(parts) => { settle_all(alloc, parts.as_slice(), variables) }
        Expr::And(parts) => { settle_all(alloc, parts.as_slice(), variables) }
        Expr::Coalesce(parts) => { settle_all(alloc, parts.as_slice(), variables) }
        Expr::Concat(parts) => { settle_all(alloc, parts.as_slice(), variables) }
        Expr::In(inner, parts) => {
            settle(alloc, inner.get(), variables)?;
            settle_all(alloc, parts.as_slice(), variables)
        }
        Expr::NotIn(inner, parts) => {
            settle(alloc, inner.get(), variables)?;
            settle_all(alloc, parts.as_slice(), variables)
        }
        Expr::Product(inner, parts) => {
            settle(alloc, inner.get(), variables)?;
            settle_all(alloc, parts.as_slice(), variables)
        }
        Expr::Sum(inner, addends) => {
            settle(alloc, inner.get(), variables)?;
            settle_addends(alloc, addends.as_slice(), variables)
        }
    }
}

/// Puts the variables that the expressions read after the others.
#[cycle(settle)]
#[tactic(auto, using(crate::proofs::Settled::part_settled, crate::proofs::Settled::all_settled, crate::proofs::Settled::grows_more, crate::proofs::Settled::grows_same))]
pub(crate) fn settle_all(
    alloc: Global,
    parts: &[Expr],
    variables: &mut Vec<usize>,
) -> Result<(), AllocError>
    ensures grows { OnOk result (Grows variables.old.items variables.new.items) }
    ensures settles { OnOk result (AllByRecursion (Settles variables.new.items) parts.now) }
{
    for part in parts {
        settle(alloc, part, variables)?;
    }
    Ok(())
}

/// Puts the variables that the operands read after the others.
#[cycle(settle)]
#[tactic(auto, using(crate::proofs::Settled::addend_settled, crate::proofs::Settled::addends_settled, crate::proofs::Settled::grows_more, crate::proofs::Settled::grows_same))]
fn settle_addends(
    alloc: Global,
    addends: &[Addend],
    variables: &mut Vec<usize>,
) -> Result<(), AllocError>
    ensures grows { OnOk result (Grows variables.old.items variables.new.items) }
    ensures settles { OnOk result
        (AllByRecursion (SettlesOperand variables.new.items) addends.now) }
{
    for addend in addends {
        settle(alloc, &addend.operand, variables)?;
    }
    Ok(())
}
