//! The solutions of a pattern (SPARQL 1.1 Query, 18.5 and 18.6): as many as suffice, or all.

ghost use Rattle.std.specs.Prelude.{◌≡◌, length, List, Some, IfOk, OnOk};
ghost use Rattle.std.specs.Option.{option_copied};
ghost use Rattle.qs_terms.specs.Dataset.{graph_of};
ghost use Rattle.qs_store.specs.inner.ActiveGraph.{active_graph};
ghost use Rattle.qs_store.specs.inner.Visible.{visible_quads};
ghost use Rattle.qs_algebra_solutions.specs.Solution.{Solution as Solved};
ghost use Rattle.qs_algebra_solutions.specs.inner.Some.{AreSome};
ghost use Rattle.qs_algebra_patterns.specs.Eval.{eval};
ghost use Rattle.qs_plan.specs.inner.Plans.{plan_list};
ghost use Rattle.qs_query_solutions.specs.inner.After.{AreSomeAfter};
ghost use Rattle.qs_query_solutions.specs.inner.Collected.{Collects, CollectsAfter, IsPassed, most_left};

use crate::active::active_of;
use crate::collected::Collected;
use crate::planned::plan_over;
use qs_algebra_patterns::Pattern;
use qs_algebra_solutions::Row as Solution;
use qs_base::drop_value;
use qs_ops::Op;
use qs_plan::{Plan, drop_plan};
use qs_store::{Active, View};
use qs_terms::{QFault, Term};
use std::alloc::{AllocError, Global};

/// Collects the solutions of the evaluation, one after another, until they suffice or none is left.
fn collect<V: View>(
    alloc: Global,
    op: &mut Op<'_, V>,
    found: &mut Collected<'_>,
) -> Result<(), QFault>
    ensures { OnOk result ((all : List Solved) → op.old.rows ≡ Some all
        → Collects found.old found.new all) }
{
    while !found.is_enough() {
        let Some(row) = op.next()? else {
            return Ok(());
        };
        found.put(alloc, op, &row)?;
        op.give_back(row);
    }
    Ok(())
}

/// Passes over solutions of the evaluation, one after another, until they are so many or none is left. It makes no term of them.
fn pass<V: View>(op: &mut Op<'_, V>, count: u64) -> Result<(), QFault>
    ensures { OnOk result ((all : List Solved) → op.old.rows ≡ Some all
        → (passed left : List Solved) × IsPassed count all passed left
        × (op.new.rows ≡ Some left)) }
{
    let mut passed = 0;
    while passed < count {
        let Some(row) = op.next()? else {
            return Ok(());
        };
        op.give_back(row);
        passed += 1;
    }
    Ok(())
}

/// Passes over so many solutions, and then collects as `collect`.
fn collect_after<V: View>(
    alloc: Global,
    op: &mut Op<'_, V>,
    offset: u64,
    found: &mut Collected<'_>,
) -> Result<(), QFault>
    ensures { OnOk result ((all : List Solved) → op.old.rows ≡ Some all
        → CollectsAfter offset found.old found.new all) }
{
    pass(op, offset)?;
    collect(alloc, op, found)
}

/// Collects the solutions of the plan where this graph is active, after so many that are passed over.
fn collect_planned<V: View>(
    alloc: Global,
    plan: &Plan,
    view: &V,
    active: Active,
    offset: u64,
    found: &mut Collected<'_>,
) -> Result<(), QFault>
    ensures { OnOk result
        (CollectsAfter offset found.old found.new
        (plan_list plan.now (V.content view.now).quads
        (active_graph (V.content view.now) (V.default_seen view.now) active))) }
{
    let mut op = Op::start_in(alloc, plan, view, active)?;
    let outcome = collect_after(alloc, &mut op, offset, found);
    op.end();
    outcome
}

/// Collects the solutions of the pattern where the graph of this name is active, or the default graph where none is given, after so many
/// that are passed over.
fn collect_all<V: View>(
    alloc: Global,
    pattern: &Pattern,
    view: &V,
    name: Option<&Term>,
    offset: u64,
    found: &mut Collected<'_>,
) -> Result<(), QFault>
    ensures { OnOk result
        (CollectsAfter offset found.old found.new
        (eval (length pattern.now.names)
        (visible_quads (V.content view.now) (V.default_seen view.now)) pattern.now.root
        (graph_of (visible_quads (V.content view.now) (V.default_seen view.now))
        (option_copied name.entry)))) }
{
    let _count = view.count();
    let active = active_of(view, name);
    // The plan is evaluated over the view's own quads. A lemma says that these have the same solutions in the active graph as what queries
    // see: for a union that is a list which is never made.
    let plan = plan_over(alloc, pattern, view, active)?;
    let outcome = collect_planned(alloc, &plan, view, active, offset, found);
    drop_plan(plan);
    outcome
}

/// Running out of memory, which is the one fault of an evaluation.
pub(crate) fn out_of_memory(fault: QFault) -> AllocError {
    drop_value(fault);
    AllocError
}

/// Some of the solutions of the pattern over what queries see of the view: as many as suffice, or all. The graph of the name is active, or
/// the default graph where none is given (SPARQL 1.1 Query, 13 and 18.6).
///
/// # Errors
/// `AllocError` where memory runs out.
pub fn some_solutions<V: View>(
    alloc: Global,
    pattern: &Pattern,
    view: &V,
    name: Option<&Term>,
    most: Option<u64>,
) -> Result<Vec<Solution>, AllocError>
    ensures { IfOk result
        (λ rows. AreSome most rows.items
        (eval (length pattern.now.names)
        (visible_quads (V.content view.now) (V.default_seen view.now)) pattern.now.root
        (graph_of (visible_quads (V.content view.now) (V.default_seen view.now))
        (option_copied name.entry)))) }
{
    let mut found = Collected::new(alloc, None, most);
    match collect_all(alloc, pattern, view, name, 0, &mut found) {
        Ok(()) => Ok(found.into_rows()),
        Err(fault) => Err(out_of_memory(fault)),
    }
}

/// How many more suffice after so many.
fn most_left(most: Option<u64>, offset: u64) -> Option<u64>
    ensures { result ≡ most_left most offset }
{
    match most {
        None => None,
        Some(most) => Some(most.saturating_sub(offset)),
    }
}

/// Some of the solutions of the pattern as `some_solutions` has them, without the first `offset` of these: they are passed over. Where columns
/// are given, the terms of these variables alone are made.
///
/// # Errors
/// `AllocError` where memory runs out.
pub fn solutions_after<V: View>(
    alloc: Global,
    pattern: &Pattern,
    view: &V,
    name: Option<&Term>,
    columns: Option<&[usize]>,
    offset: u64,
    most: Option<u64>,
) -> Result<Vec<Solution>, AllocError>
    ensures { IfOk result (λ rows. AreSomeAfter (option_copied columns.entry) offset most rows.items
        (eval (length pattern.now.names)
        (visible_quads (V.content view.now) (V.default_seen view.now)) pattern.now.root
        (graph_of (visible_quads (V.content view.now) (V.default_seen view.now))
        (option_copied name.entry)))) }
{
    let mut found = Collected::new(alloc, columns, most_left(most, offset));
    match collect_all(alloc, pattern, view, name, offset, &mut found) {
        Ok(()) => Ok(found.into_rows()),
        Err(fault) => Err(out_of_memory(fault)),
    }
}
