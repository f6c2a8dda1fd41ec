//! The terms of the rows of an evaluation.

ghost use Rattle.std.specs.Prelude.{◌≡◌, IfOk, OnOk};
ghost use Rattle.std.specs.Option.{option_copied, option_map};
ghost use Rattle.qs_algebra_solutions.specs.Solution.{projected, term_at};
ghost use Rattle.qs_expr_values.specs.inner.Value.{term_of};
ghost use Rattle.qs_expr.specs.inner.Cell.{row_solution, FitsRow};
ghost use Rattle.qs_query_solutions.specs.inner.Front.{with_term};

use qs_algebra_solutions::Row as Solution;
use qs_expr::Row;
use qs_expr_values::Value;
use qs_ops::Op;
use qs_store::View;
use qs_terms::Term;
use std::alloc::{AllocError, Global};

/// The term of a variable; none where it isn't bound.
#[tactic(auto, using(crate::proofs::Fronts::term_read, crate::proofs::Fronts::none_read))]
pub(crate) fn term<'a, V: View>(op: &'a Op<'_, V>, row: &Row, variable: usize) -> Option<&'a Term>
    requires { FitsRow op.now.known op.now.table row.now }
    ensures { option_copied result ≡ term_at (row_solution op.now.known op.now.table row.now)
        variable }
{
    match row.cell(variable) {
        Some(cell) => Some(op.term(cell)),
        None => None,
    }
}

/// The term of a variable as a value; none where it isn't bound.
#[tactic(auto, using(crate::proofs::Fronts::term_read, crate::proofs::Fronts::none_read))]
pub(crate) fn value<'a, V: View>(op: &'a Op<'_, V>, row: &Row, variable: usize) -> Option<Value<'a>>
    requires { FitsRow op.now.known op.now.table row.now }
    ensures { option_map term_of result ≡ term_at (row_solution op.now.known op.now.table row.now)
        variable }
{
    match row.cell(variable) {
        Some(cell) => Some(op.value(cell)),
        None => None,
    }
}

/// Binds the variable to an equal term of its own, if there is one.
pub(crate) fn bind(
    solution: &mut Solution,
    variable: usize,
    term: Option<&Term>,
) -> Result<(), AllocError>
    ensures { OnOk result
        (solution.new ≡ with_term solution.old variable (option_copied term.entry)) }
{
    if let Some(term) = term {
        let term = term.try_clone()?;
        solution.bind(variable, term);
    }
    Ok(())
}

/// The solution that the row denotes.
#[tactic(auto, using(crate::proofs::Fronts::front_more))]
pub(crate) fn solution<V: View>(
    alloc: Global,
    op: &Op<'_, V>,
    row: &Row,
) -> Result<Solution, AllocError>
    requires { FitsRow op.now.known op.now.table row.now }
    ensures { IfOk result (λ m. m ≡ row_solution op.now.known op.now.table row.now) }
{
    let width = row.width();
    let mut solution = Solution::unbound(alloc, width)?;
    for variable in 0..width {
        bind(&mut solution, variable, term(op, row, variable))?;
    }
    Ok(solution)
}

/// The solution of the terms of these variables in the row (SPARQL 1.1 Query, 18.5: Project).
pub(crate) fn projected<V: View>(
    alloc: Global,
    op: &Op<'_, V>,
    row: &Row,
    columns: &[usize],
) -> Result<Solution, AllocError>
    requires { FitsRow op.now.known op.now.table row.now }
    ensures { IfOk result
        (λ m. m ≡ projected columns.now (row_solution op.now.known op.now.table row.now)) }
{
    let width = columns.len();
    let mut solution = Solution::unbound(alloc, width)?;
    for at in 0..width {
        bind(&mut solution, at, term(op, row, columns[at]))?;
    }
    Ok(solution)
}
