//! Parts of a run: triples that share no variable with the stages before them. In line such a triple is read again for each row before it. One of
//! which a filter reads variables alone leaves few rows, so it is evaluated by itself, once, if the store has few triples for it.
//!
//! Several triples that are joined could have any number of rows, whatever the store has of each. So these stay in line.

ghost use Rattle.std.specs.Prelude.{◌≡◌, ◌≤◌, ◌<◌, true, None, [], ◌∷◌, IfOk};
ghost use Rattle.std.specs.List.{AllByRecursion};
ghost use Rattle.qs_plan_meaning.specs.declared.stage.Stage.TheVariants as a_stage;
ghost use Rattle.qs_plan_meaning.specs.inner.Stages.{register_of};
ghost use Rattle.qs_plan.specs.inner.Plans.{SamePlan};
ghost use Rattle.qs_plan.specs.inner.Certain.{SameFrom};
ghost use Rattle.qs_plan.specs.inner.Parts.{IsFedAlike, IsNamed, IsPart};

use crate::certain::Size;
use crate::copies::copied_stage;
use crate::counts::{Counts, MANY};
use crate::known::{variables_of, variables_of_stages};
use crate::order::copied_plan;
use crate::plan_type::Plan;
use crate::reads::settle;
use qs_algebra_patterns::{Slot, TriplePattern};
use qs_expr_meaning::Expr;
use qs_plan_meaning::{Group, Look, Stage};
use sqlite_items::Items;
use std::alloc::{AllocError, Global};
use std::collections::{BTreeMap, BTreeSet};

/// All parts of a plan that are evaluated by themselves have fewer triples in the store than this, as far as it is counted. So their rows take
/// some 30 MB.
const KEPT: u64 = 262_144;

// ---- what may be a part

fn is_named(slot: &Slot, width: usize) -> bool
    ensures { result ≡ true → IsNamed width slot.now }
{
    match slot {
        Slot::Term(_) => true,
        Slot::Variable(variable) => *variable < width,
    }
}

fn are_named(pattern: &TriplePattern, width: usize) -> bool
    ensures { result ≡ true → IsNamed width pattern.now.subject
        × (IsNamed width pattern.now.predicate × IsNamed width pattern.now.object) }
{
    is_named(&pattern.subject, width)
        && is_named(&pattern.predicate, width)
        && is_named(&pattern.object, width)
}

/// Whether it looks in one graph for all rows.
fn is_one_graph(look: &Look) -> bool
    ensures { result ≡ true → register_of look.now ≡ None }
{
    look.register().is_none()
}

/// Whether the stage is a triple of named variables that looks in one graph for all rows.
fn is_part(stage: &Stage, width: usize) -> bool
    ensures { result ≡ true → IsPart width stage.now }
{
    match stage {
        Stage::Triple(look, pattern) => is_one_graph(look) && are_named(pattern, width),
        _ => false,
    }
}

fn are_parts(stages: &[Stage], width: usize) -> bool
    ensures { result ≡ true → AllByRecursion (IsPart width) stages.now }
{
    for stage in stages {
        if !is_part(stage, width) {
            return false;
        }
    }
    true
}

/// Whether a row has the same merges with what the group makes by itself as with what it makes of the row: so it is for triples of named variables
/// that look in one graph for all rows.
pub fn is_fed_alike(group: &Group, width: usize) -> bool
    ensures { result ≡ true → IsFedAlike width group.now.stages }
{
    are_parts(group.stages.as_slice(), width)
}

// ---- which parts there are

/// Where a variable stands first in the stages that were passed. In none of them it has no home.
#[derive(Clone, Copy, PartialEq, Eq)]
enum Home {
    /// In the part at this place.
    Part(usize),
    /// In a stage that is no part.
    Elsewhere,
}

/// What is known of the stages that were passed.
#[derive(Drop)]
struct Passed {
    homes: BTreeMap<usize, Home>,
    /// The places of the parts of which a filter reads variables alone.
    filtered: BTreeSet<usize>,
}

fn home_of(passed: &Passed, variable: usize) -> Option<Home> {
    passed.homes.get(&variable).copied()
}

/// Whether each of the variables has this home, or none has one.
fn are_at(passed: &Passed, variables: &[usize], home: Option<Home>) -> bool {
    for variable in variables {
        if home_of(passed, *variable) != home {
            return false;
        }
    }
    true
}

/// The home of the variables of a stage that have none. A part is no first stage, and has no variable of a stage before it.
fn new_home(passed: &Passed, variables: &[usize], at: usize, may_be_part: bool) -> Home {
    if may_be_part && !passed.homes.is_empty() && are_at(passed, variables, None) {
        Home::Part(at)
    } else {
        Home::Elsewhere
    }
}

/// Gives those of the variables a home that have none.
fn settle_at(passed: &mut Passed, variables: &[usize], home: Home) -> Result<(), AllocError> {
    for variable in variables {
        if home_of(passed, *variable).is_none() {
            passed.homes.insert(*variable, home)?;
        }
    }
    Ok(())
}

/// Notes the part that alone has the variables of the condition, or of a part of it if it is a conjunction.
#[cycle(notes)]
fn note_condition(alloc: Global, passed: &mut Passed, condition: &Expr) -> Result<(), AllocError> {
    match condition {
        Expr::And(conditions) => note_conditions(alloc, passed, conditions.as_slice()),
        _ => {
            let mut variables = Vec::new(alloc);
            settle(alloc, condition, &mut variables)?;
            note_part(passed, variables.as_slice())
        }
    }
}

#[cycle(notes)]
fn note_conditions(
    alloc: Global,
    passed: &mut Passed,
    conditions: &[Expr],
) -> Result<(), AllocError> {
    for condition in conditions {
        note_condition(alloc, passed, condition)?;
    }
    Ok(())
}

fn note_part(passed: &mut Passed, variables: &[usize]) -> Result<(), AllocError> {
    let Some(first) = variables.first() else {
        return Ok(());
    };
    let home = home_of(passed, *first);
    let Some(Home::Part(at)) = home else {
        return Ok(());
    };
    if are_at(passed, variables, home) {
        passed.filtered.insert(at)?;
    }
    Ok(())
}

/// Passes the stage at the place.
fn pass(
    alloc: Global,
    passed: &mut Passed,
    stage: &Stage,
    at: usize,
    width: usize,
) -> Result<(), AllocError> {
    if let Stage::Filter(condition) = stage {
        return note_condition(alloc, passed, condition.get());
    }
    let variables = names_in(alloc, stage)?;
    let home = new_home(passed, variables.as_slice(), at, is_part(stage, width));
    settle_at(passed, variables.as_slice(), home)
}

/// The variables that the stage binds, or may bind.
fn names_in(alloc: Global, stage: &Stage) -> Result<Vec<usize>, AllocError> {
    match stage {
        Stage::Optional(_, group, _) => variables_of_stages(alloc, group.stages.as_slice()),
        Stage::Fed(group, _) => variables_of_stages(alloc, group.stages.as_slice()),
        _ => variables_of(alloc, stage),
    }
}

fn is_filter(stage: &Stage) -> bool {
    match stage {
        Stage::Filter(_) => true,
        _ => false,
    }
}

fn has_filter(stages: &[Stage]) -> bool {
    for stage in stages {
        if is_filter(stage) {
            return true;
        }
    }
    false
}

/// The places of the parts of which a filter reads variables alone.
fn filtered_parts(
    alloc: Global,
    stages: &[Stage],
    width: usize,
) -> Result<BTreeSet<usize>, AllocError> {
    let mut passed = Passed {
        homes: BTreeMap::new(alloc),
        filtered: BTreeSet::new(alloc),
    };
    if has_filter(stages) {
        for at in 0..stages.len() {
            pass(alloc, &mut passed, &stages[at], at, width)?;
        }
    }
    let Passed { filtered, .. } = passed;
    Ok(filtered)
}

// ---- which of them are evaluated by themselves

/// Whether the store has fewer triples of the stage than are left. Then they are taken from what is left.
fn is_kept<C: Counts>(counts: &C, stage: &Stage, left: &mut u64) -> bool {
    let count = match stage {
        Stage::Triple(look, pattern) => counts.about(look, pattern),
        _ => MANY,
    };
    if count < *left {
        *left -= count;
        return true;
    }
    false
}

/// A copy of the stage, as a group that is evaluated by itself.
fn by_itself(alloc: Global, stage: &Stage) -> Result<Stage, AllocError>
    ensures { IfOk result (λ s. s ≡ a_stage.Apart None (record { stages = stage.now ∷ [] })) }
{
    let one = copied_stage(alloc, stage)?;
    let mut stages = Items::new(alloc);
    stages.push(one)?;
    Ok(Stage::Apart(None, Group { stages }))
}

// ---- stages with parts that are evaluated by themselves

/// The stages, with each part that is evaluated by itself as a group.
#[cycle(parted)]
fn parted_stages<C: Counts>(
    alloc: Global,
    counts: &C,
    stages: &[Stage],
    size: Size,
    left: &mut u64,
) -> Result<Items<Stage>, AllocError>
    requires { size.width ≤ size.cells }
    ensures { IfOk result (λ ss. SameFrom size [] ss stages.now) }
{
    let parts = filtered_parts(alloc, stages, size.width)?;
    let mut done = Items::new(alloc);
    for at in 0..stages.len() {
        let is_asked = parts.contains(&at);
        let one = parted_stage(alloc, counts, &stages[at], size, is_asked, left)?;
        done.push(one)?;
    }
    Ok(done)
}

/// The stage as a group that is evaluated by itself, if that is asked for and it may be one; else the stage, with the parts of its group where
/// that is evaluated by itself. Rows that a group is fed, and those of the branches of a union, may bind what stands in a part.
#[cycle(parted)]
fn parted_stage<C: Counts>(
    alloc: Global,
    counts: &C,
    stage: &Stage,
    size: Size,
    is_asked: bool,
    left: &mut u64,
) -> Result<Stage, AllocError>
    requires { size.width ≤ size.cells }
    ensures { IfOk result (λ s. SameFrom size [] (s ∷ []) (stage.now ∷ [])) }
{
    if is_asked && is_part(stage, size.width) && is_kept(counts, stage, left) {
        let one = by_itself(alloc, stage)?;
        return Ok(one);
    }
    match stage {
        Stage::Optional(register, group, conditions) => {
            let conditions = conditions.share()?;
            let group = parted_group(alloc, counts, group, size, left)?;
            Ok(Stage::Optional(*register, group, conditions))
        }
        Stage::Minus(register, group) => {
            let group = parted_group(alloc, counts, group, size, left)?;
            Ok(Stage::Minus(*register, group))
        }
        Stage::Apart(register, group) => {
            let group = parted_group(alloc, counts, group, size, left)?;
            Ok(Stage::Apart(*register, group))
        }
        other => copied_stage(alloc, other),
    }
}

#[cycle(parted)]
fn parted_group<C: Counts>(
    alloc: Global,
    counts: &C,
    group: &Group,
    size: Size,
    left: &mut u64,
) -> Result<Group, AllocError>
    requires { size.width ≤ size.cells }
    ensures { IfOk result (λ g. SameFrom size [] g.stages group.now.stages) }
{
    let stages = parted_stages(alloc, counts, group.stages.as_slice(), size, left)?;
    Ok(Group { stages })
}

/// The plan with each part of a run that a filter makes small evaluated by itself (`plan_for`). Both plans have the same solutions.
pub(crate) fn parted_plan<C: Counts>(
    alloc: Global,
    counts: &C,
    plan: &Plan,
) -> Result<Plan, AllocError>
    ensures { IfOk result (λ p. SamePlan p plan.now) }
{
    if plan.cells < plan.width {
        return copied_plan(alloc, plan);
    }
    let size = Size {
        width: plan.width,
        cells: plan.cells,
    };
    let mut left = KEPT;
    let stages = parted_stages(alloc, counts, plan.stages.as_slice(), size, &mut left)?;
    Ok(Plan {
        width: plan.width,
        cells: plan.cells,
        stages,
    })
}
