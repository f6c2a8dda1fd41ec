//! Distinct solutions (SPARQL 1.1 Query, 18.5: Project and Distinct).
//!
//! Distinct rows of cells are kept, in the order in which they are found, until they suffice. Terms are made for these alone, at the end.

ghost use Rattle.std.specs.Prelude.{◌≡◌, [], length, List, Some, IfOk};
ghost use Rattle.std.specs.List.{AllByRecursion};
ghost use Rattle.std.specs.Option.{option_copied};
ghost use Rattle.qs_terms.specs.Dataset.{graph_of};
ghost use Rattle.qs_store.specs.inner.ActiveGraph.{active_graph};
ghost use Rattle.qs_store.specs.inner.Visible.{visible_quads};
ghost use Rattle.qs_algebra_solutions.specs.Solution.{Solution as Solved};
ghost use Rattle.qs_algebra_solutions.specs.inner.Some.{AreSomeDistinct};
ghost use Rattle.qs_algebra_patterns.specs.Eval.{eval};
ghost use Rattle.qs_expr.specs.inner.Cell.{FitsRow};
ghost use Rattle.qs_expr.specs.inner.Scratch.{IsTable};
ghost use Rattle.qs_plan.specs.inner.Plans.{plan_list, IsPlanOf};
ghost use Rattle.qs_query_solutions.specs.inner.Distinct.{CollectsDistinct};

use crate::active::active_of;
use crate::collected::is_enough;
use crate::distinct_rows::DistinctRows;
use crate::parts::parts_of;
use crate::planned::{distinct_plan_over, plan_over};
use crate::solutions::out_of_memory;
use qs_algebra_patterns::Pattern;
use qs_algebra_solutions::Row as Solution;
use qs_ops::Op;
use qs_plan::{Plan, drop_plan};
use qs_store::{Active, View};
use qs_terms::{QFault, Term};
use std::alloc::{AllocError, Global};

/// Puts rows of the evaluation, one after another, until the distinct ones suffice or none is left. After each, rows to come that give the same
/// columns are passed over, as far as that is known without making them.
fn collect<V: View>(
    alloc: Global,
    op: &mut Op<'_, V>,
    columns: &[usize],
    most: Option<u64>,
    mut rows: DistinctRows,
) -> Result<DistinctRows, QFault>
    requires table { IsTable op.old.known op.old.table }
    requires none { rows ≡ [] }
    ensures fits { IfOk result (λ rows. AllByRecursion (FitsRow op.new.known op.new.table) rows) }
    ensures rows { IfOk result (λ rows. (all : List Solved) → op.old.rows ≡ Some all
        → CollectsDistinct op.new.known op.new.table columns.now most all rows) }
{
    'found: while !is_enough(most, rows.len()) {
        let Some(row) = op.next()? else {
            return Ok(rows);
        };
        rows.put(alloc, &row, columns)?;
        op.skip_alike(columns, &row);
        op.give_back(row);
    }
    Ok(rows)
}

/// The terms of these variables in the solutions of the evaluation, each once.
fn distinct<V: View>(
    alloc: Global,
    op: &mut Op<'_, V>,
    columns: &[usize],
    most: Option<u64>,
    rows: DistinctRows,
) -> Result<Vec<Solution>, QFault>
    requires table { IsTable op.old.known op.old.table }
    requires none { rows ≡ [] }
    ensures { IfOk result (λ rows. (all : List Solved) → op.old.rows ≡ Some all
        → AreSomeDistinct columns.now most rows.items all) }
{
    let found = collect(alloc, op, columns, most, rows)?;
    let solutions = found.solutions(alloc, op)?;
    Ok(solutions)
}

/// The terms of these variables in the solutions of the plan where this graph is active, each once.
fn distinct_planned<V: View>(
    alloc: Global,
    plan: &Plan,
    view: &V,
    active: Active,
    columns: &[usize],
    most: Option<u64>,
) -> Result<Vec<Solution>, QFault>
    ensures { IfOk result (λ rows. AreSomeDistinct columns.now most rows.items
        (plan_list plan.now (V.content view.now).quads
        (active_graph (V.content view.now) (V.default_seen view.now) active))) }
{
    let mut op = Op::start_led(alloc, plan, view, active, columns)?;
    let rows = DistinctRows::new(alloc, view);
    let found = distinct(alloc, &mut op, columns, most, rows);
    op.end();
    found
}

/// Whether the plan has a row.
fn has_row<V: View>(alloc: Global, plan: &Plan, view: &V, active: Active) -> Result<bool, QFault> {
    let mut op = Op::start_in(alloc, plan, view, active)?;
    let row = op.next();
    op.end();
    Ok(row?.is_some())
}

/// Whether the pattern has a solution, by the plan that looks at the parts with few triples first.
fn has_solution<V: View>(
    alloc: Global,
    pattern: &Pattern,
    view: &V,
    active: Active,
) -> Result<bool, QFault> {
    let plan = plan_over(alloc, pattern, view, active)?;
    let found = has_row(alloc, &plan, view, active);
    drop_plan(plan);
    found
}

/// The plan that is run. If there are parts without a column, it is asked first whether there is a solution: else such a part would be asked
/// for one again and again.
fn plan_to_run<V: View>(
    alloc: Global,
    pattern: &Pattern,
    view: &V,
    active: Active,
    columns: &[usize],
) -> Result<Plan, QFault>
    ensures { IfOk result (λ p. IsPlanOf p pattern.now) }
{
    let parts = parts_of(alloc, pattern, columns)?;
    if parts.has_late() && !has_solution(alloc, pattern, view, active)? {
        return plan_over(alloc, pattern, view, active);
    }
    distinct_plan_over(alloc, pattern, view, active, columns)
}

fn distinct_all<V: View>(
    alloc: Global,
    pattern: &Pattern,
    view: &V,
    name: Option<&Term>,
    columns: &[usize],
    most: Option<u64>,
) -> Result<Vec<Solution>, QFault>
    ensures { IfOk result (λ rows. AreSomeDistinct columns.now most rows.items
        (eval (length pattern.now.names)
        (visible_quads (V.content view.now) (V.default_seen view.now)) pattern.now.root
        (graph_of (visible_quads (V.content view.now) (V.default_seen view.now))
        (option_copied name.entry)))) }
{
    let _count = view.count();
    let active = active_of(view, name);
    let plan = plan_to_run(alloc, pattern, view, active, columns)?;
    let rows = distinct_planned(alloc, &plan, view, active, columns, most);
    drop_plan(plan);
    rows
}

/// The terms of these variables in some of the solutions of the pattern, each once: as many as suffice, or all (SPARQL 1.1 Query, 18.5:
/// Project and Distinct). No two that are the same are kept, and no solution is asked for beyond those that suffice. The graph of the name
/// is active, or the default graph where none is given.
///
/// # Errors
/// `AllocError` where memory runs out.
pub fn distinct_solutions<V: View>(
    alloc: Global,
    pattern: &Pattern,
    view: &V,
    name: Option<&Term>,
    columns: &[usize],
    most: Option<u64>,
) -> Result<Vec<Solution>, AllocError>
    ensures { IfOk result (λ rows. AreSomeDistinct columns.now most rows.items
        (eval (length pattern.now.names)
        (visible_quads (V.content view.now) (V.default_seen view.now)) pattern.now.root
        (graph_of (visible_quads (V.content view.now) (V.default_seen view.now))
        (option_copied name.entry)))) }
{
    match distinct_all(alloc, pattern, view, name, columns, most) {
        Ok(rows) => Ok(rows),
        Err(fault) => Err(out_of_memory(fault)),
    }
}
