//! From a pattern to a plan.
//!
//! A row of more cells than there are numbers (named and hidden variables and registers) is out of memory, as no such row can be
//! made.

ghost use Rattle.std.specs.Prelude.{◌≡◌, ◌<◌, true, IfOk, IfErr};
ghost use Rattle.qs_terms.specs.declared.fault.QFault.TheVariants.{Memory};
ghost use Rattle.qs_plan.specs.inner.Plans.{IsPlanOf};
ghost use Rattle.qs_plan.specs.inner.Numbers.{past};

use crate::counts::{Counts, NoCounts};
use crate::filters::filter_order;
use crate::laid::Laid;
use crate::lay::lay;
use crate::order::counted_order;
use crate::parts::parted_plan;
use crate::plan_type::Plan;
use crate::run::PAST;
use qs_algebra_patterns::Pattern;
use qs_plan_meaning::Look;
use qs_terms::QFault;
use std::alloc::{AllocError, Global};

/// Whether a row may have so many cells.
fn is_row(cells: usize) -> bool
    ensures { result ≡ true → cells < past }
{
    cells < PAST
}

/// The plan of a pattern in the order of its text: it has the solutions of the pattern over each dataset and in each graph (SPARQL 1.1 Query,
/// 18.5 and 18.6).
///
/// # Errors
/// `AllocError` where memory runs out.
pub fn text_order(alloc: Global, pattern: &Pattern) -> Result<Plan, AllocError>
    ensures { IfOk result (λ p. IsPlanOf p pattern.now) }
{
    let width = pattern.names.len();
    let laid = lay(alloc, width, &pattern.root, &Look::Active, width, true)?;
    let Laid { stages, next } = laid;
    if !is_row(next) {
        return Err(AllocError);
    }
    Ok(Plan {
        width,
        cells: next,
        stages,
    })
}

/// The plan of a pattern: it has the solutions of the pattern over each dataset and in each graph (SPARQL 1.1 Query, 18.5 and 18.6). It knows
/// no store (`run_order`).
///
/// # Errors
/// `Memory` where memory runs out.
pub fn plan(alloc: Global, pattern: &Pattern) -> Result<Plan, QFault>
    ensures plan { IfOk result (λ p. IsPlanOf p pattern.now) }
    ensures fault { IfErr result (λ f. f ≡ Memory) }
{
    plan_for(alloc, pattern, &NoCounts)
}

/// The plan of a pattern for a store: it has the solutions of the pattern over each dataset and in each graph, whatever the counts are (SPARQL
/// 1.1 Query, 18.5 and 18.6). The counts decide the order of the triples, paths, tables and unions between two other stages. A union is one of them
/// if its branches hold nothing else than these, all in one graph or in the graphs of one variable.
///
/// Next comes one that has a variable bound before, or no variable, or one row at most: for a triple one triple in the store. Of several, it is
/// one with the fewest places free, then one with the fewest rows, then the first of the text. Where there is none, as at the beginning, it is
/// one with the fewest rows, then with the fewest places free, then the first of the text. A table or a union comes last if it has no variable
/// that is bound before or stands in another of them: what comes after it would be done again for each of its rows.
///
/// A place is free if it holds neither a term nor a variable bound before. The places of a table are its columns, and those of a union hold the
/// variables that each branch binds. A union has as many rows as its branches together, and a branch as many as the one of its stages with the
/// fewest. What has no row comes before all others. A path with one end that is a term has about as many rows as there are triples next to that end; if
/// it is a closure or a sequence, more, as it may lead on (`path_count`). Between two terms it is one row, and with no term there are as many as may
/// be. The groups in a union are ordered when it has its place.
///
/// A triple that shares no variable with the stages before it is evaluated by itself, once, if a filter reads variables of it alone, and if the
/// store has few triples for it: fewer than 262,144 for all such triples of a plan.
///
/// # Errors
/// `Memory` where memory runs out.
pub fn plan_for<C: Counts>(alloc: Global, pattern: &Pattern, counts: &C) -> Result<Plan, QFault>
    ensures plan { IfOk result (λ p. IsPlanOf p pattern.now) }
    ensures fault { IfErr result (λ f. f ≡ Memory) }
{
    let plan = text_order(alloc, pattern)?;
    let plan = counted_order(alloc, counts, &plan)?;
    let plan = parted_plan(alloc, counts, &plan)?;
    let plan = filter_order(alloc, &plan)?;
    Ok(plan)
}
