//! Which variables the rows before a stage bind.

use qs_algebra_patterns::{Slot, Table};
use qs_plan::{Group, Stage};
use qs_terms::Term;
use std::alloc::{AllocError, Global};

/// Whether the rows before a stage bind a variable.
#[derive(Clone, Copy)]
pub(crate) enum Bound {
    /// None of them does.
    Never,
    /// Some may.
    Maybe,
    /// Each of them does.
    Always,
}

impl Bound {
    pub fn is_never(self) -> bool {
        matches!(self, Bound::Never)
    }

    pub fn is_always(self) -> bool {
        matches!(self, Bound::Always)
    }

    /// What is known where both are.
    fn or(self, other: Bound) -> Bound {
        match self {
            Bound::Never => other,
            Bound::Maybe => { if other.is_always() { other } else { self } }
            Bound::Always => self,
        }
    }

    /// What is known where some rows may be left without what binds the variable.
    fn at_most_maybe(self) -> Bound {
        match self {
            Bound::Never => Bound::Never,
            _ => Bound::Maybe,
        }
    }
}

/// Whether the variable is bound.
pub(crate) fn bound_at(known: &[Bound], variable: usize) -> Bound {
    match known.get(variable) {
        Some(bound) => *bound,
        None => Bound::Never,
    }
}

/// Whether the place has a term, or a variable that each row binds.
pub(crate) fn is_given(known: &[Bound], slot: &Slot) -> bool {
    match slot {
        Slot::Term(_) => true,
        Slot::Variable(variable) => bound_at(known, *variable).is_always(),
    }
}

/// As many variables, none bound but the register, if there is one.
pub(crate) fn none_bound(
    alloc: Global,
    count: usize,
    register: Option<usize>,
) -> Result<Vec<Bound>, AllocError> {
    let mut known = Vec::new(alloc);
    for _ in 0..count {
        known.push(Bound::Never)?;
    }
    if let Some(register) = register {
        mark(&mut known, register, Bound::Always);
    }
    Ok(known)
}

/// A copy of what is known.
pub(crate) fn copied(alloc: Global, known: &[Bound]) -> Result<Vec<Bound>, AllocError> {
    let mut copy = Vec::new(alloc);
    for bound in known {
        copy.push(*bound)?;
    }
    Ok(copy)
}

fn mark(known: &mut Vec<Bound>, variable: usize, bound: Bound) {
    if let Some(old) = known.get_mut(variable) {
        *old = (*old).or(bound);
    }
}

fn mark_slot(known: &mut Vec<Bound>, slot: &Slot) {
    match slot {
        Slot::Term(_) => {}
        Slot::Variable(variable) => mark(known, *variable, Bound::Always),
    }
}

fn is_bound_in(row: &[Option<Term>], at: usize) -> bool {
    match row.get(at) {
        Some(Some(_)) => true,
        _ => false,
    }
}

/// Whether the rows of the table bind the variable of this column.
fn column(table: &Table, at: usize) -> Bound {
    for row in table.rows.as_slice() {
        if !is_bound_in(row.as_slice(), at) {
            return Bound::Maybe;
        }
    }
    Bound::Always
}

fn mark_table(known: &mut Vec<Bound>, table: &Table) {
    let variables = table.variables.as_slice();
    for at in 0..variables.len() {
        mark(known, variables[at], column(table, at));
    }
}

/// Marks what the others bind.
fn mark_all(known: &mut Vec<Bound>, others: &[Bound]) {
    for at in 0..others.len() {
        mark(known, at, others[at]);
    }
}

/// Marks what the others bind, of rows that may be left as they were.
fn mark_maybe(known: &mut Vec<Bound>, others: &[Bound]) {
    for at in 0..others.len() {
        mark(known, at, others[at].at_most_maybe());
    }
}

/// Marks what the stage binds, of the rows that it makes.
#[cycle(bound)]
pub(crate) fn mark_stage(
    alloc: Global,
    known: &mut Vec<Bound>,
    stage: &Stage,
) -> Result<(), AllocError> {
    match stage {
        Stage::Triple(_, pattern) => {
            mark_slot(known, &pattern.subject);
            mark_slot(known, &pattern.predicate);
            mark_slot(known, &pattern.object);
            Ok(())
        }
        Stage::Path(_, pattern) => {
            mark_slot(known, &pattern.subject);
            mark_slot(known, &pattern.object);
            Ok(())
        }
        Stage::Names(register) => {
            mark(known, *register, Bound::Always);
            Ok(())
        }
        Stage::Name(variable, _) => {
            mark(known, *variable, Bound::Always);
            Ok(())
        }
        Stage::Bind(variable, _) => {
            mark(known, *variable, Bound::Maybe);
            Ok(())
        }
        Stage::Values(table) => {
            mark_table(known, table.get());
            Ok(())
        }
        Stage::Union(branches) => mark_union(alloc, known, branches.as_slice()),
        Stage::Optional(_, group, _) => {
            let own = bound_by(alloc, known.len(), group)?;
            mark_maybe(known, own.as_slice());
            Ok(())
        }
        Stage::Fed(group, _) => {
            let own = bound_by(alloc, known.len(), group)?;
            mark_maybe(known, own.as_slice());
            Ok(())
        }
        Stage::Apart(_, group) => {
            let own = bound_by(alloc, known.len(), group)?;
            mark_all(known, own.as_slice());
            Ok(())
        }
        _ => Ok(()),
    }
}

#[cycle(bound)]
fn mark_stages(alloc: Global, known: &mut Vec<Bound>, stages: &[Stage]) -> Result<(), AllocError> {
    for stage in stages {
        mark_stage(alloc, known, stage)?;
    }
    Ok(())
}

/// What the group binds by itself, of so many variables.
#[cycle(bound)]
pub(crate) fn bound_by(
    alloc: Global,
    count: usize,
    group: &Group,
) -> Result<Vec<Bound>, AllocError> {
    let mut own = none_bound(alloc, count, None)?;
    mark_stages(alloc, &mut own, group.stages.as_slice())?;
    Ok(own)
}

/// Marks what each branch binds, and what some branch may bind.
#[cycle(bound)]
fn mark_union(alloc: Global, known: &mut Vec<Bound>, branches: &[Group]) -> Result<(), AllocError> {
    let mut each = Vec::new(alloc);
    for _ in 0..known.len() {
        each.push(!branches.is_empty())?;
    }
    for branch in branches {
        let own = bound_by(alloc, known.len(), branch)?;
        keep_always(&mut each, own.as_slice());
        mark_maybe(known, own.as_slice());
    }
    mark_flagged(known, each.as_slice());
    Ok(())
}

/// Leaves those that are always bound.
fn keep_always(each: &mut Vec<bool>, own: &[Bound]) {
    for at in 0..each.len() {
        if !bound_at(own, at).is_always() {
            each[at] = false;
        }
    }
}

fn mark_flagged(known: &mut Vec<Bound>, flags: &[bool]) {
    for at in 0..flags.len() {
        if flags[at] {
            mark(known, at, Bound::Always);
        }
    }
}
