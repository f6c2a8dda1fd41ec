//! The stages of a plan, a line each, with those of its groups indented.

use crate::bound::{Bound, copied, mark_stage, none_bound};
use crate::facts::{OpenRegister, open_after, put_names_facts, put_path_facts, put_triple_facts};
use crate::reason::{join_reason, optional_reason, put_reason};
use crate::words::put_line;
use qs_plan::{Group, Plan, Stage};
use qs_query_solutions::ViewCounts;
use qs_store::View;
use qs_terms::Text;
use std::alloc::{AllocError, Global};

/// What stages are explained over: the names of the variables, what is counted, and the columns whose distinct terms are asked for.
#[derive(Drop)]
pub(crate) struct Place<'a, V: View> {
    pub names: &'a [Text],
    pub counts: ViewCounts<'a, V>,
    pub columns: &'a [usize],
}

/// Blanks, two for each level.
fn put_indent(depth: usize, text: &mut String) -> Result<(), AllocError> {
    for _ in 0..depth {
        text.push_str("  ")?;
    }
    Ok(())
}

/// What is told of the stage besides what it is; `next` is the stage after it.
fn put_facts<V: View>(
    alloc: Global,
    place: &Place<'_, V>,
    stage: &Stage,
    next: Option<&Stage>,
    open: Option<OpenRegister>,
    known: &[Bound],
    text: &mut String,
) -> Result<(), AllocError> {
    match stage {
        Stage::Triple(look, pattern) => {
            put_triple_facts(place, open, look, pattern, known, text)
        }
        Stage::Names(register) => put_names_facts(place.names, *register, next, known, text),
        Stage::Path(look, pattern) => put_path_facts(alloc, place, look, pattern, known, text),
        Stage::Optional(_, group, _) => {
            let reason = optional_reason(alloc, group, known)?;
            put_reason(place.names, reason, text)
        }
        Stage::Minus(_, _) => text.push_str(", apart: MINUS isn't fed"),
        Stage::Apart(_, group) => {
            let reason = join_reason(alloc, group, known)?;
            put_reason(place.names, reason, text)
        }
        _ => Ok(()),
    }
}

/// Writes the stages, each after those before it and what is known to be bound before them.
#[cycle(lines)]
pub(crate) fn put_stages<V: View>(
    alloc: Global,
    place: &Place<'_, V>,
    stages: &[Stage],
    known: &mut Vec<Bound>,
    depth: usize,
    text: &mut String,
) -> Result<(), AllocError> {
    let mut open = None;
    for at in 0..stages.len() {
        let stage = &stages[at];
        let next = stages.get(at + 1);
        put_indent(depth, text)?;
        put_line(place.names, stage, text)?;
        put_facts(alloc, place, stage, next, open, known.as_slice(), text)?;
        text.push('\n')?;
        put_groups(
            alloc,
            place,
            stage,
            known.as_slice(),
            depth.saturating_add(1),
            text,
        )?;
        open = open_after(open, stage, known.as_slice());
        mark_stage(alloc, known, stage)?;
    }
    Ok(())
}

/// Writes the stages of the groups of a stage. A group that is evaluated by itself sees nothing of the row but its register.
#[cycle(lines)]
fn put_groups<V: View>(
    alloc: Global,
    place: &Place<'_, V>,
    stage: &Stage,
    known: &[Bound],
    depth: usize,
    text: &mut String,
) -> Result<(), AllocError> {
    match stage {
        Stage::Union(branches) => {
            put_branches(alloc, place, branches.as_slice(), known, depth, text)
        }
        Stage::Optional(register, group, _) => {
            let mut own = none_bound(alloc, known.len(), *register)?;
            put_group(alloc, place, group, &mut own, depth, text)
        }
        Stage::Fed(group, _) => {
            let mut own = copied(alloc, known)?;
            put_group(alloc, place, group, &mut own, depth, text)
        }
        Stage::Minus(register, group) => {
            let mut own = none_bound(alloc, known.len(), *register)?;
            put_group(alloc, place, group, &mut own, depth, text)
        }
        Stage::Apart(register, group) => {
            let mut own = none_bound(alloc, known.len(), *register)?;
            put_group(alloc, place, group, &mut own, depth, text)
        }
        _ => Ok(()),
    }
}

#[cycle(lines)]
fn put_group<V: View>(
    alloc: Global,
    place: &Place<'_, V>,
    group: &Group,
    known: &mut Vec<Bound>,
    depth: usize,
    text: &mut String,
) -> Result<(), AllocError> {
    put_stages(alloc, place, group.stages.as_slice(), known, depth, text)
}

#[cycle(lines)]
fn put_branches<V: View>(
    alloc: Global,
    place: &Place<'_, V>,
    branches: &[Group],
    known: &[Bound],
    depth: usize,
    text: &mut String,
) -> Result<(), AllocError> {
    for branch in branches {
        put_indent(depth, text)?;
        text.push_str("branch\n")?;
        let mut own = copied(alloc, known)?;
        put_group(
            alloc,
            place,
            branch,
            &mut own,
            depth.saturating_add(1),
            text,
        )?;
    }
    Ok(())
}

/// Writes the plan.
pub(crate) fn put_plan<V: View>(
    alloc: Global,
    place: &Place<'_, V>,
    plan: &Plan,
    depth: usize,
    text: &mut String,
) -> Result<(), AllocError> {
    if plan.stages.is_empty() {
        put_indent(depth, text)?;
        return text.push_str("no stage: one solution, which binds nothing\n");
    }
    let mut known = none_bound(alloc, plan.cells, None)?;
    put_stages(
        alloc,
        place,
        plan.stages.as_slice(),
        &mut known,
        depth,
        text,
    )
}
