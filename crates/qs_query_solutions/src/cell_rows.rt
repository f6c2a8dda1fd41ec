//! All solutions of a pattern as rows of cells, for a caller who needs the numbers of their terms.

ghost use Rattle.std.specs.Prelude.{◌≡◌, ◌≢◌, ◌<◌, List, Some, length, IfOk, IfErr};
ghost use Rattle.std.specs.List.{All};
ghost use Rattle.std.specs.Option.{option_copied};
ghost use Rattle.qs_terms.specs.Dataset.{graph_of};
ghost use Rattle.qs_terms.specs.declared.fault.QFault.TheVariants.{Memory, TooManyRows};
ghost use Rattle.qs_store.specs.inner.ActiveGraph.{active_graph};
ghost use Rattle.qs_store.specs.inner.Visible.{visible_quads};
ghost use Rattle.qs_algebra_solutions.specs.Solution.{Solution as Solved};
ghost use Rattle.qs_algebra_patterns.specs.Eval.{eval};
ghost use Rattle.qs_expr.specs.inner.Cell.{FitsRow};
ghost use Rattle.qs_plan.specs.inner.Plans.{plan_list};
ghost use Rattle.qs_query_solutions.specs.inner.CellRows.{AreAll, AreAllCells};

use crate::active::active_of;
use crate::planned::plan_over;
use qs_algebra_patterns::Pattern;
use qs_expr::{Row, Scratch};
use qs_ops::Op;
use qs_plan::{Plan, drop_plan};
use qs_store::{Active, View};
use qs_terms::{QFault, Term};
use std::alloc::Global;

/// Rows of cells: numbers of a view's dictionary, and places of the table of the terms that it lacks.
#[derive(Drop)]
pub struct CellRows {
    pub rows: Vec<Row>,
    pub scratch: Scratch,
}

/// The rows of the evaluation, where they are no more than `max_rows`.
fn list<V: View>(alloc: Global, op: &mut Op<'_, V>, max_rows: u64) -> Result<Vec<Row>, QFault>
    ensures fits { IfOk result (λ rows. All (FitsRow op.new.known op.new.table) rows.items) }
    ensures all { IfOk result (λ rows. (all : List Solved) → op.old.rows ≡ Some all
        → AreAll max_rows op.new.known op.new.table all rows.items) }
    ensures fault { IfErr result (λ f. f ≢ Memory → (f ≡ TooManyRows)
        × ((all : List Solved) → op.old.rows ≡ Some all → max_rows < length all)) }
    ensures known { op.new.known ≡ op.old.known }
{
    let mut rows = Vec::new(alloc);
    loop {
        let Some(row) = op.next()? else {
            return Ok(rows);
        };
        if rows.len() as u64 == max_rows {
            op.give_back(row);
            return Err(QFault::TooManyRows);
        }
        rows.push(row)?;
    }
}

/// The rows of the plan where this graph is active, where they are no more than `max_rows`.
fn list_planned<V: View>(
    alloc: Global,
    plan: &Plan,
    view: &V,
    active: Active,
    max_rows: u64,
) -> Result<CellRows, QFault>
    ensures { AreAllCells max_rows (V.content view.now).known
        (plan_list plan.now (V.content view.now).quads
        (active_graph (V.content view.now) (V.default_seen view.now) active)) result }
{
    let mut op = Op::start_in(alloc, plan, view, active)?;
    match list(alloc, &mut op, max_rows) {
        Ok(rows) => {
            let scratch = op.into_scratch();
            Ok(CellRows { rows, scratch })
        }
        Err(fault) => {
            op.end();
            Err(fault)
        }
    }
}

/// All solutions of the pattern over what queries see of the view, in some order, as rows of cells. The graph of the name is active, or the
/// default graph where none is given (SPARQL 1.1 Query, 13 and 18.6). The numbers in them are those of the view's terms.
///
/// # Errors
/// `QFault::TooManyRows` where there are more solutions than `max_rows`; `QFault::Memory` where memory runs out.
pub fn cell_solutions<V: View>(
    alloc: Global,
    pattern: &Pattern,
    view: &V,
    name: Option<&Term>,
    max_rows: u64,
) -> Result<CellRows, QFault>
    ensures { AreAllCells max_rows (V.content view.now).known
        (eval (length pattern.now.names)
        (visible_quads (V.content view.now) (V.default_seen view.now)) pattern.now.root
        (graph_of (visible_quads (V.content view.now) (V.default_seen view.now))
        (option_copied name.entry))) result }
{
    let _count = view.count();
    let active = active_of(view, name);
    let plan = plan_over(alloc, pattern, view, active)?;
    let found = list_planned(alloc, &plan, view, active, max_rows);
    drop_plan(plan);
    found
}
