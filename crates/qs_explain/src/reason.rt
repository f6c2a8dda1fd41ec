//! Why a group is evaluated by itself. A plan doesn't keep the reason: the stages of the group tell it. A planner feeds a group the rows before
//! it only where each row that it makes stays as it was, and an OPTIONAL only where its group costs little for each of few rows.

use crate::bound::{Bound, bound_at, bound_by, mark_stage, none_bound};
use crate::words::put_variable;
use qs_algebra_patterns::Table;
use qs_expr_meaning::Expr;
use qs_plan::{Group, Stage, settle};
use qs_terms::Text;
use std::alloc::{AllocError, Global};

/// Why a group is evaluated by itself.
#[derive(Clone, Copy)]
pub(crate) enum Reason {
    /// A filter in it reads a variable that it isn't certain to bind.
    NotCertain(usize),
    /// The group has such a part.
    Inside(&'static str),
    /// It shares no variable with the rows before it, and a filter in it leaves few of its rows.
    NothingShared,
    /// It is optional, and many rows may come before it.
    ManyRows,
    /// It is optional, and many rows may come before it, or such a part is in a group in it.
    ManyRowsOrInside(&'static str),
}

/// Whether the group is joined or optional: some parts may be fed in a group that is joined, and not in an OPTIONAL.
#[derive(Clone, Copy)]
enum Side {
    Joined,
    Optional,
}

impl Side {
    fn only_if_optional(self, reason: Reason) -> Option<Reason> {
        match self {
            Side::Joined => None,
            Side::Optional => Some(reason),
        }
    }
}

/// The most rows of a table that are few.
const FEW: usize = 64;

fn table_reason(side: Side, table: &Table) -> Option<Reason> {
    if table.rows.len() <= FEW {
        return None;
    }
    side.only_if_optional(Reason::Inside("a long table"))
}

/// The first of the variables that isn't bound in each row.
fn not_certain(known: &[Bound], variables: &[usize]) -> Option<usize> {
    for at in 0..variables.len() {
        if !bound_at(known, variables[at]).is_always() {
            return Some(variables[at]);
        }
    }
    None
}

fn filter_reason(
    alloc: Global,
    condition: &Expr,
    known: &[Bound],
) -> Result<Option<Reason>, AllocError> {
    let mut variables = Vec::new(alloc);
    settle(alloc, condition, &mut variables)?;
    match not_certain(known, variables.as_slice()) {
        Some(variable) => Ok(Some(Reason::NotCertain(variable))),
        None => Ok(None),
    }
}

/// The first of the variables that the rows outside may bind, and that isn't bound in each row.
fn seen_outside(outside: &[Bound], known: &[Bound], variables: &[usize]) -> Option<usize> {
    for at in 0..variables.len() {
        let variable = variables[at];
        if !bound_at(known, variable).is_always() && !bound_at(outside, variable).is_never() {
            return Some(variable);
        }
    }
    None
}

/// The variables that the group binds in some row, of so many.
fn bound_variables(alloc: Global, count: usize, group: &Group) -> Result<Vec<usize>, AllocError> {
    let bound = bound_by(alloc, count, group)?;
    let mut variables = Vec::new(alloc);
    for at in 0..bound.len() {
        if !bound[at].is_never() {
            variables.push(at)?;
        }
    }
    Ok(variables)
}

/// Why a group with this OPTIONAL in it isn't fed, if the OPTIONAL is the cause: it sees a variable that the rows outside may bind, and that the
/// stages before it aren't certain to bind.
#[cycle(reason)]
fn inner_reason(
    alloc: Global,
    group: &Group,
    conditions: &[Expr],
    known: &[Bound],
    outside: &[Bound],
) -> Result<Option<Reason>, AllocError> {
    let reason = group_reason(alloc, Side::Optional, group, outside, known.len())?;
    if reason.is_some() {
        return Ok(reason);
    }
    let mut variables = bound_variables(alloc, known.len(), group)?;
    for condition in conditions {
        settle(alloc, condition, &mut variables)?;
    }
    match seen_outside(outside, known, variables.as_slice()) {
        Some(variable) => Ok(Some(Reason::NotCertain(variable))),
        None => Ok(None),
    }
}

/// Why a group with this OPTIONAL in it isn't fed, if the OPTIONAL is the cause: always in a group that is joined.
#[cycle(reason)]
fn optional_inside(
    alloc: Global,
    side: Side,
    group: &Group,
    conditions: &[Expr],
    known: &[Bound],
    outside: &[Bound],
) -> Result<Option<Reason>, AllocError> {
    match side {
        Side::Joined => Ok(Some(Reason::Inside("OPTIONAL"))),
        Side::Optional => inner_reason(alloc, group, conditions, known, outside),
    }
}

/// Why a group with this stage isn't fed, if the stage is the cause.
#[cycle(reason)]
fn stage_reason(
    alloc: Global,
    side: Side,
    stage: &Stage,
    known: &[Bound],
    outside: &[Bound],
) -> Result<Option<Reason>, AllocError> {
    match stage {
        Stage::Filter(condition) => filter_reason(alloc, condition.get(), known),
        Stage::Path(_, _) => Ok(side.only_if_optional(Reason::Inside("a path"))),
        Stage::Values(table) => Ok(table_reason(side, table.get())),
        Stage::Bind(_, _) => Ok(Some(Reason::Inside("BIND"))),
        Stage::Optional(_, group, conditions) => {
            let conditions = conditions.get().as_slice();
            optional_inside(alloc, side, group, conditions, known, outside)
        }
        Stage::Fed(group, conditions) => {
            let conditions = conditions.get().as_slice();
            optional_inside(alloc, side, group, conditions, known, outside)
        }
        Stage::Minus(_, _) => Ok(Some(Reason::Inside("MINUS"))),
        Stage::Apart(_, _) => Ok(Some(Reason::Inside("a group apart"))),
        Stage::Union(branches) => {
            branches_reason(alloc, side, branches.as_slice(), outside, known.len())
        }
        _ => Ok(None),
    }
}

#[cycle(reason)]
fn branches_reason(
    alloc: Global,
    side: Side,
    branches: &[Group],
    outside: &[Bound],
    count: usize,
) -> Result<Option<Reason>, AllocError> {
    for branch in branches {
        let reason = group_reason(alloc, side, branch, outside, count)?;
        if reason.is_some() {
            return Ok(reason);
        }
    }
    Ok(None)
}

/// Why the group, with so many variables, isn't fed the rows outside, if a stage of it is the cause.
#[cycle(reason)]
fn group_reason(
    alloc: Global,
    side: Side,
    group: &Group,
    outside: &[Bound],
    count: usize,
) -> Result<Option<Reason>, AllocError> {
    let mut known = none_bound(alloc, count, None)?;
    for stage in group.stages.as_slice() {
        let reason = stage_reason(alloc, side, stage, known.as_slice(), outside)?;
        if reason.is_some() {
            return Ok(reason);
        }
        mark_stage(alloc, &mut known, stage)?;
    }
    Ok(None)
}

fn is_optional(stage: &Stage) -> bool {
    match stage {
        Stage::Optional(_, _, _) => true,
        Stage::Fed(_, _) => true,
        _ => false,
    }
}

/// Whether an OPTIONAL is among the stages of the group.
fn has_optional(group: &Group) -> bool {
    for stage in group.stages.as_slice() {
        if is_optional(stage) {
            return true;
        }
    }
    false
}

/// Why the group of an OPTIONAL isn't fed the rows outside, which bind these variables. An OPTIONAL in a group inside that is joined is a cause
/// too, but its stages don't tell that group.
pub(crate) fn optional_reason(
    alloc: Global,
    group: &Group,
    outside: &[Bound],
) -> Result<Reason, AllocError> {
    match group_reason(alloc, Side::Optional, group, outside, outside.len())? {
        Some(reason) => Ok(reason),
        None if has_optional(group) => Ok(Reason::ManyRowsOrInside("OPTIONAL")),
        None => Ok(Reason::ManyRows),
    }
}

/// Whether the group binds no variable that the rows outside may bind.
fn is_nothing_shared(alloc: Global, group: &Group, outside: &[Bound]) -> Result<bool, AllocError> {
    let variables = bound_variables(alloc, outside.len(), group)?;
    for variable in variables.as_slice() {
        if !bound_at(outside, *variable).is_never() {
            return Ok(false);
        }
    }
    Ok(true)
}

/// Why a group that is joined is evaluated by itself. Where no stage is the cause, it shares no variable with the rows outside, or the cause is a
/// condition on a part of it.
pub(crate) fn join_reason(
    alloc: Global,
    group: &Group,
    outside: &[Bound],
) -> Result<Reason, AllocError> {
    if let Some(reason) = group_reason(alloc, Side::Joined, group, &[], outside.len())? {
        return Ok(reason);
    }
    if is_nothing_shared(alloc, group, outside)? {
        return Ok(Reason::NothingShared);
    }
    Ok(Reason::Inside("FILTER"))
}

/// Writes the reason.
pub(crate) fn put_reason(
    names: &[Text],
    reason: Reason,
    text: &mut String,
) -> Result<(), AllocError> {
    match reason {
        Reason::NotCertain(variable) => {
            text.push_str(", apart: ")?;
            put_variable(names, variable, text)?;
            text.push_str(" isn't certain")
        }
        Reason::Inside(part) => write!(text, ", apart: {part} inside"),
        Reason::NothingShared => text.push_str(", apart: no variable shared"),
        Reason::ManyRows => text.push_str(", apart: many rows before it"),
        Reason::ManyRowsOrInside(part) => {
            write!(text, ", apart: many rows before it, or {part} inside")
        }
    }
}
