//! Which variables rows are certain to bind, and from which place on the stages of a group change no binding of a variable.

ghost use Rattle.std.specs.Prelude.{◌≡◌, ◌==◌, ◌<◌, ◌≤◌, ◌+◌, ◌⊎◌, true, [], length, take, slice_index_or, None, IsSome, IfOk};
ghost use Rattle.std.specs.List.{AllByRecursion, list_any};
ghost use Rattle.qs_algebra_patterns.specs.inner.Eval.{rows_of};
ghost use Rattle.qs_algebra_patterns.specs.declared.pattern.Slot.TheVariants as slots;
ghost use Rattle.qs_plan.specs.inner.Certain.{Bound, Keeps, Gets, Binds, Steady, Filled, Ends, Holds};
ghost use Rattle.qs_plan.specs.inner.Reads.{Leaves};

use crate::leaves::{has_column, leaves};
use qs_algebra_patterns::{PathPattern, Slot, Table, TriplePattern};
use qs_plan_meaning::{Group, Stage};
use qs_terms::Term;
use std::alloc::{AllocError, Global};

/// The size of a plan's rows: how many variables are named, and how many cells a row has.
#[derive(Clone, Copy)]
pub struct Size {
    pub width: usize,
    pub cells: usize,
}

// ---- which stages keep a variable

/// Whether the stage makes of a row that binds the variable rows that bind it alike.
#[cycle(keeps)]
fn keeps(stage: &Stage, variable: usize) -> bool
    ensures { result ≡ true → Keeps variable stage.now }
{
    match stage {
        Stage::Triple(_, _) => true,
        Stage::Path(_, _) => true,
        Stage::Exists(_) => true,
        Stage::Names(register) => *register != variable,
        Stage::Name(_, _) => true,
        Stage::Filter(_) => true,
        Stage::Bind(other, _) => *other != variable,
        Stage::Values(_) => true,
        Stage::Union(branches) => keep_branches(branches.as_slice(), variable),
        Stage::Optional(_, _, _) => true,
        Stage::Fed(_, _) => true,
        Stage::Minus(_, _) => true,
        Stage::Apart(_, _) => true,
    }
}

#[cycle(keeps)]
fn keep_all(stages: &[Stage], variable: usize) -> bool
    ensures { result ≡ true → AllByRecursion (Keeps variable) stages.now }
{
    for stage in stages {
        if !keeps(stage, variable) {
            return false;
        }
    }
    true
}

#[cycle(keeps)]
fn keep_branches(branches: &[Group], variable: usize) -> bool
    ensures { result ≡ true → AllByRecursion (λ g. AllByRecursion (Keeps variable) g.stages)
        branches.now }
{
    for branch in branches {
        if !keep_all(branch.stages.as_slice(), variable) {
            return false;
        }
    }
    true
}

// ---- which stages bind a variable

/// Whether the slot is the variable.
fn is_variable(slot: &Slot, variable: usize) -> bool
    ensures { result ≡ true → slot.now ≡ slots.Variable variable }
{
    match slot {
        Slot::Term(_) => false,
        Slot::Variable(other) => *other == variable,
    }
}

fn triple_holds(pattern: &TriplePattern, variable: usize) -> bool
    ensures { result ≡ true → Holds variable pattern.now }
{
    is_variable(&pattern.subject, variable)
        || is_variable(&pattern.predicate, variable)
        || is_variable(&pattern.object, variable)
}

fn path_ends(pattern: &PathPattern, variable: usize) -> bool
    ensures { result ≡ true → Ends variable pattern.now }
{
    is_variable(&pattern.subject, variable) || is_variable(&pattern.object, variable)
}

/// Whether each cell of the row is bound that stands in a column of the variable.
fn fills(columns: &[usize], row: &[Option<Term>], variable: usize) -> bool
    ensures { result ≡ true → Filled variable columns.now row.now (length columns.now) }
{
    for at in 0..columns.len() {
        if columns[at] == variable && !is_bound_at(row, at) {
            return false;
        }
    }
    true
}

fn is_bound_at(row: &[Option<Term>], at: usize) -> bool
    ensures { result ≡ true → IsSome (slice_index_or row.now at None) }
{
    match row.get(at) {
        Some(Some(_)) => true,
        _ => false,
    }
}

/// Whether each row of the table binds the variable.
fn is_filled(table: &Table, variable: usize, width: usize) -> bool
    ensures { result ≡ true → AllByRecursion (Bound variable) (rows_of width table.now) }
{
    if variable >= width || !has_column(table, variable) {
        return false;
    }
    let columns = table.variables.as_slice();
    let rows = table.rows.as_slice();
    for row in rows {
        if !fills(columns, row.as_slice(), variable) {
            return false;
        }
    }
    true
}

/// Whether each row that the stage makes binds the variable, whatever the row before it binds.
#[cycle(binds)]
fn gets(stage: &Stage, variable: usize, size: Size) -> bool
    ensures { result ≡ true → Gets size variable stage.now }
{
    match stage {
        Stage::Triple(_, pattern) => variable < size.cells && triple_holds(pattern, variable),
        Stage::Path(_, pattern) => variable < size.cells && path_ends(pattern, variable),
        Stage::Names(register) => variable < size.cells && *register == variable,
        Stage::Values(table) => is_filled(table.get(), variable, size.width),
        Stage::Union(branches) => bound_in_each(branches.as_slice(), variable, size),
        Stage::Apart(_, group) => {
            variable < size.width && is_bound(group.stages.as_slice(), variable, size)
        }
        _ => false,
    }
}

/// Whether one of the stages before this place has the register hold a name.
fn is_named(stages: &[Stage], place: usize, register: usize, size: Size) -> bool
    requires { place ≤ length stages.now }
    ensures { result ≡ true → Binds size [] register (take place stages.now) }
{
    if register >= size.cells {
        return false;
    }
    for at in 0..place {
        if let Stage::Names(other) = &stages[at] {
            if *other == register {
                return true;
            }
        }
    }
    false
}

/// Whether the rows after the stage at this place bind the variable, whatever the first row binds.
#[cycle(binds)]
fn is_bound_after(stages: &[Stage], at: usize, variable: usize, size: Size) -> bool
    requires { at < length stages.now }
    ensures { result ≡ true → Binds size [] variable (take (at + 1) stages.now) }
{
    match &stages[at] {
        Stage::Name(other, register) => {
            if variable >= size.width {
                return false;
            }
            if *other != variable {
                return false;
            }
            is_named(stages, at, *register, size)
        }
        stage => gets(stage, variable, size),
    }
}

/// Whether the rows after the stages bind the variable, whatever the first row binds.
#[cycle(binds)]
pub(crate) fn is_bound(stages: &[Stage], variable: usize, size: Size) -> bool
    ensures { result ≡ true → Binds size [] variable stages.now }
{
    for at in 0..stages.len() {
        if is_bound_after(stages, at, variable, size) {
            return true;
        }
    }
    false
}

#[cycle(binds)]
fn bound_in_each(branches: &[Group], variable: usize, size: Size) -> bool
    ensures { result ≡ true → AllByRecursion (λ g. Binds size [] variable g.stages) branches.now }
{
    for branch in branches {
        if !is_bound(branch.stages.as_slice(), variable, size) {
            return false;
        }
    }
    true
}

// ---- from which place on a variable stays as it is

/// Whether the stage makes rows that bind the variable as the row before it does, where the row is known to bind it or not.
fn stays(stage: &Stage, variable: usize, is_known: bool) -> bool
    ensures { result ≡ true → Leaves variable stage.now
        ⊎ ((is_known ≡ true) × Keeps variable stage.now) }
{
    if leaves(stage, variable) {
        return true;
    }
    is_known && keeps(stage, variable)
}

pub(crate) fn is_among(variable: usize, given: &[usize]) -> bool
    ensures { result ≡ true → list_any (λ w. w == variable) given.now ≡ true }
{
    given.iter().any(|one| *one == variable)
}

/// The earliest place from which on no stage changes what is bound to the variable. The first row binds the variables that are given.
fn steady_from(stages: &[Stage], variable: usize, size: Size, given: &[usize]) -> usize
    ensures within { result ≤ length stages.now }
    ensures steady { Steady size given.now variable result stages.now }
{
    let mut is_known = is_among(variable, given);
    let mut place = 0;
    for at in 0..stages.len() {
        if !stays(&stages[at], variable, is_known) {
            place = at + 1;
        }
        is_known = is_known || is_bound_after(stages, at, variable, size);
    }
    place
}

/// The earliest place from which on no stage changes what is bound to these variables.
pub(crate) fn all_steady_from(
    stages: &[Stage],
    variables: &[usize],
    size: Size,
    given: &[usize],
) -> usize
    ensures within { result ≤ length stages.now }
    ensures steady { AllByRecursion (λ v. Steady size given.now v result stages.now) variables.now }
{
    let mut place = 0;
    for at in 0..variables.len() {
        let variable = variables[at];
        let one = steady_from(stages, variable, size, given);
        if place < one {
            place = one;
        }
    }
    place
}

/// Whether the rows before this place bind the variable.
pub(crate) fn is_known_before(
    stages: &[Stage],
    place: usize,
    variable: usize,
    size: Size,
    given: &[usize],
) -> bool
    requires { place ≤ length stages.now }
    ensures { result ≡ true → Binds size given.now variable (take place stages.now) }
{
    if is_among(variable, given) {
        return true;
    }
    for at in 0..place {
        if is_bound_after(stages, at, variable, size) {
            return true;
        }
    }
    false
}

/// Those of the variables that the rows before this place bind.
pub(crate) fn known_before(
    alloc: Global,
    stages: &[Stage],
    place: usize,
    variables: &[usize],
    size: Size,
    given: &[usize],
) -> Result<Vec<usize>, AllocError>
    requires { place ≤ length stages.now }
    ensures { IfOk result
        (λ known. AllByRecursion (λ v. Binds size given.now v (take place stages.now))
        known.items) }
{
    let mut known = Vec::new(alloc);
    for at in 0..variables.len() {
        let variable = variables[at];
        if is_known_before(stages, place, variable, size, given) {
            known.push(variable)?;
        }
    }
    Ok(known)
}

/// Whether the rows after the stages bind each of the variables, and all of them are named.
pub(crate) fn are_bound(stages: &[Stage], variables: &[usize], size: Size) -> bool
    ensures { result ≡ true → AllByRecursion (λ v. (v < size.width) × Binds size [] v stages.now)
        variables.now }
{
    for at in 0..variables.len() {
        let variable = variables[at];
        if variable >= size.width || !is_bound(stages, variable, size) {
            return false;
        }
    }
    true
}
