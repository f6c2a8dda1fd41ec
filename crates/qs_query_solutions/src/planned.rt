//! The plan that is run for a pattern.

ghost use Rattle.std.specs.Prelude.{◌≡◌, IfOk, IfErr};
ghost use Rattle.qs_terms.specs.declared.fault.QFault.TheVariants.{Memory};
ghost use Rattle.qs_plan.specs.inner.Plans.{IsPlanOf};

use crate::counts::{DistinctCounts, ViewCounts};
use crate::parts::parts_of;
use qs_algebra_patterns::Pattern;
use qs_plan::{Plan, plan_for};
use qs_store::{Active, View};
use qs_terms::QFault;
use std::alloc::Global;

/// The plan that `some_solutions`, `solutions_after` and `ordered_solutions` run for the pattern over the view, where this graph is active. It has
/// the solutions of the pattern over each dataset (SPARQL 1.1 Query, 18.5 and 18.6); the triples of the view decide its order alone.
///
/// # Errors
/// `QFault::Memory` where memory runs out; no other fault.
pub fn plan_over<V: View>(
    alloc: Global,
    pattern: &Pattern,
    view: &V,
    active: Active,
) -> Result<Plan, QFault>
    ensures plan { IfOk result (λ p. IsPlanOf p pattern.now) }
    ensures fault { IfErr result (λ f. f ≡ Memory) }
{
    let counts = ViewCounts { view, active };
    plan_for(alloc, pattern, &counts)
}

/// The plan that `distinct_solutions` runs for the pattern over the view, where this graph is active and the terms of these columns are asked for,
/// each once. It is that of `plan_over`, but for triples that share no variable with a column, also not by others: they come last, if no
/// condition reads them. If there are such triples and no solution, the plan of `plan_over` is run instead.
///
/// # Errors
/// `QFault::Memory` where memory runs out; no other fault.
pub fn distinct_plan_over<V: View>(
    alloc: Global,
    pattern: &Pattern,
    view: &V,
    active: Active,
    columns: &[usize],
) -> Result<Plan, QFault>
    ensures plan { IfOk result (λ p. IsPlanOf p pattern.now) }
    ensures fault { IfErr result (λ f. f ≡ Memory) }
{
    let parts = parts_of(alloc, pattern, columns)?;
    let counts = ViewCounts { view, active };
    plan_for(alloc, pattern, &DistinctCounts { counts, parts })
}
