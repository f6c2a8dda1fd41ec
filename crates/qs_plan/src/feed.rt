//! What a row must not bind where the group of an OPTIONAL is fed it. An OPTIONAL or a condition inside the group sees the row that comes of
//! the stages before it, and by the text it sees none but what the group itself binds. Both are the same for a variable that the row doesn't
//! bind, and for one that the stages are certain to bind.

ghost use Rattle.std.specs.Prelude.{◌≡◌, true, OnOk, IfOk};
ghost use Rattle.std.specs.List.{AllByRecursion};
ghost use Rattle.qs_plan.specs.inner.Feeds.{Asks, Covers, Met, Sees, Touches};
ghost use Rattle.qs_plan.specs.inner.Reads.{LeaveAll};

use crate::certain::{Size, is_bound};
use crate::leaves::leave_all;
use crate::reads::settle_all;
use qs_algebra_patterns::Step;
use qs_expr_meaning::Expr;
use qs_plan_meaning::Stage;
use sqlite_items::Items;
use std::alloc::{AllocError, Global};

/// The most steps of a group that is fed.
const MOST_STEPS: usize = 64;

/// The most stages before an OPTIONAL in a group that is fed.
const MOST_STAGES: usize = 256;

/// The most variables of a query whose groups are fed, if they hold an OPTIONAL.
const MOST_VARIABLES: usize = 256;

/// Stages that may be fed a row that binds none of the variables which they need, and the number of the first cell after those that are theirs.
#[derive(Drop)]
pub struct Feed {
    pub stages: Items<Stage>,
    pub next: usize,
    pub needs: Vec<usize>,
}

/// Whether it would cost too much to find what the steps need. A part alone needs nothing.
pub(crate) fn are_too_many(width: usize, steps: &[Step]) -> bool {
    match steps {
        [] | [Step::Join(_)] => false,
        _ => steps.len() > MOST_STEPS || width > MOST_VARIABLES,
    }
}

/// Whether so many stages are looked at.
pub(crate) fn are_looked_at(stages: &[Stage]) -> bool {
    stages.len() <= MOST_STAGES
}

/// Whether the stages leave each of the variables as it is.
pub(crate) fn all_leave(stages: &[Stage], variables: &[usize]) -> bool
    ensures { result ≡ true → AllByRecursion (λ v. LeaveAll v stages.now) variables.now }
{
    for at in 0..variables.len() {
        if !leave_all(stages, variables[at]) {
            return false;
        }
    }
    true
}

/// The named variables that the stages may bind.
fn touched(alloc: Global, width: usize, stages: &[Stage]) -> Result<Vec<usize>, AllocError>
    ensures { IfOk result (λ found. Touches width stages.now found.items) }
{
    let mut found = Vec::new(alloc);
    for variable in 0..width {
        if !leave_all(stages, variable) {
            found.push(variable)?;
        }
    }
    Ok(found)
}

/// Puts the variables after the others.
fn put_all(variables: &[usize], needs: &mut Vec<usize>) -> Result<(), AllocError>
    ensures covers { OnOk result (Covers needs.old.items needs.new.items) }
    ensures more { OnOk result (Covers variables.now needs.new.items) }
{
    for at in 0..variables.len() {
        needs.push(variables[at])?;
    }
    Ok(())
}

/// Puts the variable after the others, unless the stages are certain to bind it.
fn put_unless_bound(
    variable: usize,
    stages: &[Stage],
    size: Size,
    needs: &mut Vec<usize>,
) -> Result<(), AllocError>
    ensures covers { OnOk result (Covers needs.old.items needs.new.items) }
    ensures met { OnOk result (Met size stages.now needs.new.items variable) }
{
    if variable < size.width && is_bound(stages, variable, size) {
        return Ok(());
    }
    needs.push(variable)?;
    Ok(())
}

/// Puts those of the variables after the others that the stages aren't certain to bind.
fn put_unbound(
    variables: &[usize],
    stages: &[Stage],
    size: Size,
    needs: &mut Vec<usize>,
) -> Result<(), AllocError>
    ensures covers { OnOk result (Covers needs.old.items needs.new.items) }
    ensures met { OnOk result (AllByRecursion (Met size stages.now needs.new.items) variables.now) }
{
    for at in 0..variables.len() {
        put_unless_bound(variables[at], stages, size, needs)?;
    }
    Ok(())
}

/// Puts what the conditions read after the others, unless the stages are certain to bind it.
pub(crate) fn put_read(
    alloc: Global,
    conditions: &[Expr],
    stages: &[Stage],
    size: Size,
    needs: &mut Vec<usize>,
) -> Result<(), AllocError>
    ensures { OnOk result (Asks size stages.now conditions.now needs.old.items needs.new.items) }
{
    let mut variables = Vec::new(alloc);
    settle_all(alloc, conditions, &mut variables)?;
    put_unbound(variables.as_slice(), stages, size, needs)?;
    Ok(())
}

/// Puts what an OPTIONAL with these stages needs after the others: what its own stages need, and what it binds or reads, unless the stages
/// before it are certain to bind that.
pub(crate) fn put_seen(
    alloc: Global,
    before: &[Stage],
    stages: &[Stage],
    conditions: &[Expr],
    inner: &[usize],
    size: Size,
    needs: &mut Vec<usize>,
) -> Result<(), AllocError>
    ensures { OnOk result (Sees size before.now stages.now conditions.now inner.now needs.old.items
        needs.new.items) }
{
    put_all(inner, needs)?;
    let touched = touched(alloc, size.width, stages)?;
    put_unbound(touched.as_slice(), before, size, needs)?;
    put_read(alloc, conditions, before, size, needs)?;
    Ok(())
}
