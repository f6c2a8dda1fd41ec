//! Which stages leave a variable as it is.

ghost use Rattle.std.specs.Prelude.{◌≡◌, ◌≢◌, ◌==◌, true, Some};
ghost use Rattle.std.specs.List.{AllByRecursion, list_any};
ghost use Rattle.qs_plan.specs.inner.Reads.{LeaveAll, Leaves};

use crate::order::{path_misses, triple_misses};
use qs_algebra_patterns::Table;
use qs_plan_meaning::{Group, Stage};

fn is_other(register: Option<usize>, variable: usize) -> bool
    ensures { result ≡ true → register ≢ Some variable }
{
    match register {
        None => true,
        Some(register) => register != variable,
    }
}

pub(crate) fn has_column(table: &Table, variable: usize) -> bool
    ensures { result ≡ list_any (λ w. w == variable) table.now.variables }
{
    table
        .variables
        .as_slice()
        .iter()
        .any(|one| *one == variable)
}

/// Whether what the stage makes of a row binds the variable as the row does.
#[cycle(leaves)]
pub(crate) fn leaves(stage: &Stage, variable: usize) -> bool
    ensures { result ≡ true → Leaves variable stage.now }
{
    match stage {
        Stage::Triple(_, pattern) => triple_misses(pattern, Some(variable)),
        Stage::Path(_, pattern) => path_misses(pattern, Some(variable)),
        Stage::Exists(_) => true,
        Stage::Names(register) => *register != variable,
        Stage::Name(other, _) => *other != variable,
        Stage::Filter(_) => true,
        Stage::Bind(other, _) => *other != variable,
        Stage::Values(table) => !has_column(table.get(), variable),
        Stage::Union(branches) => leave_branches(branches.as_slice(), variable),
        Stage::Optional(register, group, _) => {
            is_other(*register, variable) && leave_all(group.stages.as_slice(), variable)
        }
        Stage::Fed(group, _) => leave_all(group.stages.as_slice(), variable),
        Stage::Minus(_, _) => true,
        Stage::Apart(register, group) => {
            is_other(*register, variable) && leave_all(group.stages.as_slice(), variable)
        }
    }
}

/// Whether what the stages make of a row binds the variable as the row does.
#[cycle(leaves)]
pub(crate) fn leave_all(stages: &[Stage], variable: usize) -> bool
    ensures { result ≡ true → LeaveAll variable stages.now }
{
    for stage in stages {
        if !leaves(stage, variable) {
            return false;
        }
    }
    true
}

#[cycle(leaves)]
fn leave_branches(branches: &[Group], variable: usize) -> bool
    ensures { result ≡ true → AllByRecursion (λ g. LeaveAll variable g.stages) branches.now }
{
    for branch in branches {
        if !leave_all(branch.stages.as_slice(), variable) {
            return false;
        }
    }
    true
}
