//! Solutions in the order of ORDER BY (SPARQL 1.1 Query, 15.1 and 18.5).
//!
//! Rows of cells are kept with their keys. Where a count is given, somewhat more than twice so many are kept at once. Terms are made for the rows
//! of the answer alone.

ghost use Rattle.std.specs.Prelude.{◌≡◌, ◌++◌, [], ◌∷◌, length, drop, map, None, Some, List, IfOk, OnOk};
ghost use Rattle.std.specs.Option.{option_copied};
ghost use Rattle.std.specs.List.{All};
ghost use Rattle.qs_terms.specs.Dataset.{graph_of};
ghost use Rattle.qs_store.specs.inner.ActiveGraph.{active_graph};
ghost use Rattle.qs_store.specs.inner.Visible.{visible_quads};
ghost use Rattle.qs_algebra_solutions.specs.Solution.{Solution as Solved};
ghost use Rattle.qs_algebra_solutions.specs.inner.Some.{AreSome};
ghost use Rattle.qs_algebra_patterns.specs.Eval.{eval};
ghost use Rattle.qs_expr.specs.inner.Cell.{row_solution, FitsRow};
ghost use Rattle.qs_plan.specs.inner.Plans.{plan_list};
ghost use Rattle.qs_query_order.specs.inner.Keyed.{AreInFrontIf, IsKeyed, solutions_of};
ghost use Rattle.qs_query_solutions.specs.inner.After.{projected_if};
ghost use Rattle.qs_query_solutions.specs.inner.Ordered.{IsOrderedPart};
ghost use Rattle.qs_query_solutions.specs.inner.Collected.{most_left};
ghost use Rattle.qs_query_solutions.specs.inner.SoFar.{Fit, AreSoFar, one_less};

use crate::active::active_of;
use crate::planned::plan_over;
use crate::reading::Reading;
use crate::solutions::out_of_memory;
use crate::terms::{projected, solution};
use qs_algebra_patterns::Pattern;
use qs_algebra_solutions::Row as Solution;
use qs_expr::Row;
use qs_ops::Op;
use qs_plan::{Plan, drop_plan};
use qs_query_order::{KeyedRow, OrderCondition, keep, keys_of, put_in_order};
use qs_store::{Active, View};
use qs_terms::{QFault, Term};
use std::alloc::{AllocError, Global};

/// Which part of the solutions in order is asked for.
#[derive(Clone, Copy)]
pub struct OrderedPart<'c> {
    /// The conditions of ORDER BY.
    pub conditions: &'c [OrderCondition],
    /// The variables whose terms are made; where none are given, those of all.
    pub columns: Option<&'c [usize]>,
    /// How many solutions are left out at the front.
    pub offset: u64,
    /// How many of the first solutions are needed, with those that are left out; where none is given, all are.
    pub count: Option<u64>,
    /// How many solutions suffice, in whichever order they are found; where none is given, all are looked at.
    pub most: Option<u64>,
}

/// The row with the keys of its solution.
fn with_keys<V: View>(
    alloc: Global,
    op: &Op<'_, V>,
    conditions: &[OrderCondition],
    row: Row,
) -> Result<KeyedRow<Row>, AllocError>
    requires { FitsRow op.now.known op.now.table row }
    ensures row { IfOk result (λ one. one.row ≡ row) }
    ensures keyed { IfOk result
        (λ one. IsKeyed (row_solution op.now.known op.now.table) conditions.now one) }
{
    let keys = keys_of(alloc, conditions, &Reading::new(op, &row))?;
    Ok(KeyedRow { keys, row })
}

/// Takes back a row, if there is one, for its memory.
fn give_back_if<V: View>(op: &mut Op<'_, V>, spare: Option<Row>)
    ensures { op.new ≡ op.old }
{
    if let Some(spare) = spare {
        op.give_back(spare);
    }
}

/// Takes the next row into account.
fn take_in<V: View>(
    alloc: Global,
    op: &mut Op<'_, V>,
    conditions: &[OrderCondition],
    kept: &mut Vec<KeyedRow<Row>>,
    count: Option<usize>,
    row: Row,
) -> Result<(), AllocError>
    requires fits { FitsRow op.old.known op.old.table row }
    requires front { AreInFrontIf conditions.now count kept.old.items }
    ensures op { op.new ≡ op.old }
    ensures front { OnOk result (AreInFrontIf conditions.now count kept.new.items) }
    ensures fits { OnOk result (Fit op.old.known op.old.table kept.old.items
        → Fit op.old.known op.old.table kept.new.items) }
    ensures kept { OnOk result ((seen : List Solved)
        → AreSoFar op.old.known op.old.table conditions.now count seen kept.old.items
        → AreSoFar op.old.known op.old.table conditions.now count
        (seen ++ row_solution op.old.known op.old.table row ∷ []) kept.new.items) }
{
    let one = with_keys(alloc, op, conditions, row)?;
    let spare = keep(conditions, kept, count, one)?;
    give_back_if(op, spare);
    Ok(())
}

fn one_less(left: Option<u64>) -> Option<u64>
    ensures { result ≡ one_less left }
{
    match left {
        None => None,
        Some(left) => Some(left.saturating_sub(1)),
    }
}

/// Keeps rows of the evaluation, one after another, until as many were seen as suffice or none is left.
fn collect<V: View>(
    alloc: Global,
    op: &mut Op<'_, V>,
    conditions: &[OrderCondition],
    count: Option<usize>,
    most: Option<u64>,
) -> Result<Vec<KeyedRow<Row>>, QFault>
    ensures fits { IfOk result (λ kept. Fit op.new.known op.new.table kept.items) }
    ensures seen { IfOk result (λ kept. (all : List Solved) → op.old.rows ≡ Some all
        → (seen : List Solved) × AreSome most seen all
        × AreSoFar op.new.known op.new.table conditions.now count seen kept.items) }
{
    let mut kept = Vec::new(alloc);
    let mut left = most;
    while left != Some(0) {
        let Some(row) = op.next()? else {
            return Ok(kept);
        };
        take_in(alloc, op, conditions, &mut kept, count, row)?;
        left = one_less(left);
    }
    Ok(kept)
}

/// The solution that the row denotes, or its terms at these variables.
fn made<V: View>(
    alloc: Global,
    op: &Op<'_, V>,
    row: &Row,
    columns: Option<&[usize]>,
) -> Result<Solution, AllocError>
    requires { FitsRow op.now.known op.now.table row.now }
    ensures { IfOk result (λ m. m ≡ projected_if (option_copied columns.entry)
        (row_solution op.now.known op.now.table row.now)) }
{
    match columns {
        None => solution(alloc, op, row),
        Some(columns) => projected(alloc, op, row, columns),
    }
}

fn made_rows<V: View>(
    alloc: Global,
    op: &Op<'_, V>,
    kept: &[KeyedRow<Row>],
    columns: Option<&[usize]>,
) -> Result<Vec<Solution>, AllocError>
    requires { Fit op.now.known op.now.table kept.now }
    ensures { IfOk result (λ rows. rows.items ≡ map (projected_if (option_copied columns.entry))
        (solutions_of (row_solution op.now.known op.now.table) kept.now)) }
{
    let mut rows = Vec::with_capacity(alloc, kept.len())?;
    for one in kept {
        let solution = made(alloc, op, &one.row, columns)?;
        rows.push(solution)?;
    }
    Ok(rows)
}

fn after<R: Drop>(kept: &[R], offset: u64) -> &[R]
    ensures { result.now ≡ drop offset kept.now }
{
    let first = offset.min(kept.len() as u64);
    &kept[first as usize..]
}

fn size_of(count: Option<u64>) -> Option<usize>
    ensures { result ≡ count }
{
    match count {
        None => None,
        Some(count) => Some(count as usize),
    }
}

/// The part of the solutions of the evaluation.
fn ordered<V: View>(
    alloc: Global,
    op: &mut Op<'_, V>,
    part: OrderedPart<'_>,
) -> Result<Vec<Solution>, QFault>
    ensures { IfOk result (λ rows. (all : List Solved) → op.old.rows ≡ Some all
        → IsOrderedPart part.entry.conditions.now (option_copied part.entry.columns)
        part.entry.offset part.entry.count part.entry.most rows.items all) }
{
    let count = size_of(part.count);
    let mut kept = collect(alloc, op, part.conditions, count, part.most)?;
    put_in_order(part.conditions, &mut kept, count);
    let rows = made_rows(alloc, op, after(kept.as_slice(), part.offset), part.columns)?;
    Ok(rows)
}

/// The part of the solutions of the plan where this graph is active.
fn ordered_planned<V: View>(
    alloc: Global,
    plan: &Plan,
    view: &V,
    active: Active,
    part: OrderedPart<'_>,
) -> Result<Vec<Solution>, QFault>
    ensures { IfOk result
        (λ rows. IsOrderedPart part.entry.conditions.now (option_copied part.entry.columns)
        part.entry.offset part.entry.count part.entry.most rows.items
        (plan_list plan.now (V.content view.now).quads
        (active_graph (V.content view.now) (V.default_seen view.now) active))) }
{
    let mut op = Op::start_in(alloc, plan, view, active)?;
    let rows = ordered(alloc, &mut op, part);
    op.end();
    rows
}

fn ordered_all<V: View>(
    alloc: Global,
    pattern: &Pattern,
    view: &V,
    name: Option<&Term>,
    part: OrderedPart<'_>,
) -> Result<Vec<Solution>, QFault>
    ensures { IfOk result
        (λ rows. IsOrderedPart part.entry.conditions.now (option_copied part.entry.columns)
        part.entry.offset part.entry.count part.entry.most rows.items
        (eval (length pattern.now.names)
        (visible_quads (V.content view.now) (V.default_seen view.now)) pattern.now.root
        (graph_of (visible_quads (V.content view.now) (V.default_seen view.now))
        (option_copied name.entry)))) }
{
    let _count = view.count();
    let active = active_of(view, name);
    let plan = plan_over(alloc, pattern, view, active)?;
    let rows = ordered_planned(alloc, &plan, view, active, part);
    drop_plan(plan);
    rows
}

/// A part of the solutions of the pattern over what queries see of the view, in an order of the conditions; ties stand in any order (SPARQL
/// 1.1 Query, 15.1, 18.5: OrderBy, Project and Slice). The graph of the name is active, or the default graph where none is given. Where `count`
/// is given, somewhat more than twice so many rows are kept at once.
///
/// # Errors
/// `AllocError` where memory runs out.
pub fn ordered_solutions<V: View>(
    alloc: Global,
    pattern: &Pattern,
    view: &V,
    name: Option<&Term>,
    part: OrderedPart<'_>,
) -> Result<Vec<Solution>, AllocError>
    ensures { IfOk result
        (λ rows. IsOrderedPart part.entry.conditions.now (option_copied part.entry.columns)
        part.entry.offset part.entry.count part.entry.most rows.items
        (eval (length pattern.now.names)
        (visible_quads (V.content view.now) (V.default_seen view.now)) pattern.now.root
        (graph_of (visible_quads (V.content view.now) (V.default_seen view.now))
        (option_copied name.entry)))) }
{
    match ordered_all(alloc, pattern, view, name, part) {
        Ok(rows) => Ok(rows),
        Err(fault) => Err(out_of_memory(fault)),
    }
}
