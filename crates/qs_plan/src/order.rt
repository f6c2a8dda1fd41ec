//! The order of runs: which triple, path, table or union comes next.

ghost use Rattle.std.specs.Prelude.{◌≡◌, ◌≢◌, ◌+◌, ◌<◌, ◌≤◌, true, false, [], ◌∷◌, ◌++◌, drop, length, slice_get, IfOk, OnOk};
ghost use Rattle.std.specs.List.{AllByRecursion};
ghost use Rattle.std.specs.Option.{option_to_list};
ghost use Rattle.qs_plan_meaning.specs.declared.stage.Stage.TheVariants as stage;
ghost use Rattle.qs_plan.specs.inner.Plans.{SamePlan};
ghost use Rattle.qs_plan_meaning.specs.inner.Stages.{register_of};
ghost use Rattle.qs_plan.specs.inner.Sames.{IsScan, Misses, MissesAll, SameStages};
ghost use Rattle.qs_plan.specs.inner.Slots.{Clears, Cut, Puts, if_left, part, stages_at, stages_left};

use crate::copies::{copied_stage, copied_stages};
use crate::counts::{Counts, NoCounts};
use crate::known::{Known, all_flags};
use crate::leaves::has_column;
use crate::plan_type::Plan;
use crate::ranks::order_of;
use qs_algebra_patterns::{PathPattern, Slot, Table, TriplePattern};
use qs_plan_meaning::{Group, Look, Stage};
use sqlite_items::Items;
use std::alloc::{AllocError, Global};

// ---- which stages may be exchanged

/// Whether the slot isn't the variable that is the register.
fn misses(slot: &Slot, register: Option<usize>) -> bool
    ensures { result ≡ true → Misses register slot.now }
{
    match register {
        None => true,
        Some(register) => match slot {
            Slot::Term(_) => true,
            Slot::Variable(variable) => *variable != register,
        },
    }
}

pub(crate) fn triple_misses(pattern: &TriplePattern, register: Option<usize>) -> bool
    ensures { result ≡ true → Misses register pattern.now.subject
        × (Misses register pattern.now.predicate × Misses register pattern.now.object) }
{
    misses(&pattern.subject, register)
        && misses(&pattern.predicate, register)
        && misses(&pattern.object, register)
}

pub(crate) fn path_misses(pattern: &PathPattern, register: Option<usize>) -> bool
    ensures { result ≡ true → Misses register pattern.now.subject
        × Misses register pattern.now.object }
{
    misses(&pattern.subject, register) && misses(&pattern.object, register)
}

/// Whether no column of the table is the variable that is the register.
fn table_misses(table: &Table, register: Option<usize>) -> bool
    ensures { result ≡ true → MissesAll register table.now.variables }
{
    match register {
        None => true,
        Some(register) => !has_column(table, register),
    }
}

/// Whether it looks in this register, or in none where there is none.
fn looks_in(look: &Look, register: Option<usize>) -> bool
    ensures { result ≡ true → register_of look.now ≡ register }
{
    match (look.register(), register) {
        (None, None) => true,
        (Some(one), Some(other)) => one == other,
        _ => false,
    }
}

/// Whether the stage is a triple or a path that looks in this register, or in none where there is none, a table, or a union of which each
/// branch holds such stages alone. None of them binds the register.
#[cycle(scans)]
fn is_scan(stage: &Stage, register: Option<usize>) -> bool
    ensures { result ≡ true → IsScan register stage.now }
{
    match stage {
        Stage::Triple(look, pattern) => {
            looks_in(look, register) && triple_misses(pattern, register)
        }
        Stage::Path(look, pattern) => looks_in(look, register) && path_misses(pattern, register),
        Stage::Values(table) => table_misses(table.get(), register),
        Stage::Union(branches) => have_scans(branches.as_slice(), register),
        _ => false,
    }
}

#[cycle(scans)]
fn are_scans(stages: &[Stage], register: Option<usize>) -> bool
    ensures { result ≡ true → AllByRecursion (IsScan register) stages.now }
{
    for stage in stages {
        if !is_scan(stage, register) {
            return false;
        }
    }
    true
}

#[cycle(scans)]
fn have_scans(branches: &[Group], register: Option<usize>) -> bool
    ensures { result ≡ true → AllByRecursion (λ g. AllByRecursion (IsScan register) g.stages)
        branches.now }
{
    for branch in branches {
        if !are_scans(branch.stages.as_slice(), register) {
            return false;
        }
    }
    true
}

/// The register in which the stage looks, if it does in one: of a union the first that is found in it.
#[cycle(registers)]
fn register_in(stage: &Stage) -> Option<usize> {
    match stage {
        Stage::Triple(look, _) => look.register(),
        Stage::Path(look, _) => look.register(),
        Stage::Union(branches) => register_of_branches(branches.as_slice()),
        _ => None,
    }
}

#[cycle(registers)]
fn register_of_stages(stages: &[Stage]) -> Option<usize> {
    for stage in stages {
        if let Some(register) = register_in(stage) {
            return Some(register);
        }
    }
    None
}

#[cycle(registers)]
fn register_of_branches(branches: &[Group]) -> Option<usize> {
    for branch in branches {
        if let Some(register) = register_of_stages(branch.stages.as_slice()) {
            return Some(register);
        }
    }
    None
}

/// So many tables are passed to find a register.
const AHEAD: usize = 16;

fn is_table(stage: &Stage) -> bool {
    match stage {
        Stage::Values(_) => true,
        _ => false,
    }
}

/// The register of a run that begins at the place: that of the first stage that is no table.
fn register_from(stages: &[Stage], from: usize) -> Option<usize> {
    let end = stages.len().min(from.saturating_add(AHEAD));
    for at in from..end {
        if !is_table(&stages[at]) {
            return register_in(&stages[at]);
        }
    }
    None
}

// ---- the order of a run

/// Stages that may be exchanged: so many from a place on, which look in this register, or in none.
#[derive(Clone, Copy)]
struct Run {
    register: Option<usize>,
    from: usize,
    count: usize,
}

/// Clears the flag at the place, and tells whether it was set.
fn take_flag(left: &mut Vec<bool>, at: usize) -> bool
    ensures { Clears result at left.old.items left.new.items }
{
    if left.len() <= at {
        return false;
    }
    if !left[at] {
        return false;
    }
    left[at] = false;
    true
}

/// Whether the place `at` from the place `from` on is one of so many.
fn is_within(count: usize, from: usize, at: usize) -> bool
    ensures within { result ≡ true → from + at < count }
    ensures past { result ≡ false → count ≤ from + at }
{
    if count <= from {
        return false;
    }
    at < count - from
}

/// Puts the place after others, if a stage stands there: it is the place `at` of the stages from the place `from` on.
fn put_place(
    stages: &[Stage],
    from: usize,
    at: usize,
    places: &mut Vec<usize>,
) -> Result<(), AllocError>
    ensures { OnOk result (stages_at stages.now places.new.items ≡ stages_at stages.now
        places.old.items ++ option_to_list (slice_get (drop from stages.now) at)) }
{
    if is_within(stages.len(), from, at) {
        places.push(from + at)?;
    }
    Ok(())
}

/// Puts the place in the run after others, if it is left.
fn put_at(
    stages: &[Stage],
    run: Run,
    left: &mut Vec<bool>,
    at: usize,
    places: &mut Vec<usize>,
) -> Result<(), AllocError>
    requires { AllByRecursion (IsScan run.register)
        (stages_left (drop run.from stages.now) left.old.items) }
    ensures { OnOk result (Puts run.register (stages_at stages.now places.old.items)
        (stages_left (drop run.from stages.now) left.old.items)
        (stages_at stages.now places.new.items)
        (stages_left (drop run.from stages.now) left.new.items)) }
{
    if take_flag(left, at) {
        put_place(stages, run.from, at, places)?;
    }
    Ok(())
}

/// Puts these places in the run after others, each that is left.
fn put_chosen(
    stages: &[Stage],
    run: Run,
    order: &[usize],
    left: &mut Vec<bool>,
    places: &mut Vec<usize>,
) -> Result<(), AllocError>
    requires { AllByRecursion (IsScan run.register)
        (stages_left (drop run.from stages.now) left.old.items) }
    ensures { OnOk result (Puts run.register (stages_at stages.now places.old.items)
        (stages_left (drop run.from stages.now) left.old.items)
        (stages_at stages.now places.new.items)
        (stages_left (drop run.from stages.now) left.new.items)) }
{
    for at in order {
        put_at(stages, run, left, *at, places)?;
    }
    Ok(())
}

/// Puts the place after others, if its flag is set.
fn put_flagged(
    stages: &[Stage],
    from: usize,
    at: usize,
    is_left: bool,
    places: &mut Vec<usize>,
) -> Result<(), AllocError>
    ensures { OnOk result (stages_at stages.now places.new.items ≡ stages_at stages.now
        places.old.items ++ option_to_list
        (if_left is_left (slice_get (drop from stages.now) at))) }
{
    if is_left {
        put_place(stages, from, at, places)?;
    }
    Ok(())
}

/// Puts all places in the run that are left after others.
fn put_left(
    stages: &[Stage],
    run: Run,
    mut left: Vec<bool>,
    places: &mut Vec<usize>,
) -> Result<(), AllocError>
    requires { AllByRecursion (IsScan run.register)
        (stages_left (drop run.from stages.now) left.items) }
    ensures { OnOk result (Puts run.register (stages_at stages.now places.old.items)
        (stages_left (drop run.from stages.now) left.items)
        (stages_at stages.now places.new.items) (stages_left (drop run.from stages.now) [])) }
{
    'left: while let Some(is_left) = left.pop() {
        put_flagged(stages, run.from, left.len(), is_left, places)?;
    }
    Ok(())
}

/// Puts the places in the run after others, in the order of `order_of`.
fn put_run<C: Counts>(
    alloc: Global,
    counts: &C,
    stages: &[Stage],
    run: Run,
    known: &mut Known,
    places: &mut Vec<usize>,
) -> Result<(), AllocError>
    requires within { run.from + run.count ≤ length stages.now }
    requires scans { AllByRecursion (IsScan run.register) (part stages.now run.from run.count) }
    ensures { OnOk result (SameStages (stages_at stages.now places.new.items)
        (stages_at stages.now places.old.items ++ part stages.now run.from run.count)) }
{
    let end = run.from + run.count;
    let order = order_of(alloc, counts, &stages[run.from..end], known)?;
    let mut left = all_flags(alloc, run.count)?;
    put_chosen(stages, run, order.as_slice(), &mut left, places)?;
    put_left(stages, run, left, places)?;
    Ok(())
}

/// The run with the next stage in it, or the next run, where that stage isn't one of it. A stage that is in no run stays where it is.
fn next_run<C: Counts>(
    alloc: Global,
    counts: &C,
    stages: &[Stage],
    run: Run,
    known: &mut Known,
    places: &mut Vec<usize>,
) -> Result<Run, AllocError>
    requires within { run.from + run.count < length stages.now }
    requires cut { Cut stages.now places.old.items run.register run.from run.count }
    ensures { IfOk result (λ next. (next.from + next.count ≡ run.from + run.count + 1)
        × Cut stages.now places.new.items next.register next.from next.count) }
{
    let at = run.from + run.count;
    let stage = &stages[at];
    if run.count > 0 && is_scan(stage, run.register) {
        return Ok(Run {
            register: run.register,
            from: run.from,
            count: run.count + 1,
        });
    }
    put_run(alloc, counts, stages, run, known, places)?;
    let register = register_from(stages, at);
    if is_scan(stage, register) {
        return Ok(Run {
            register,
            from: at,
            count: 1,
        });
    }
    known.add_stage(alloc, stage)?;
    put_place(stages, at, 0, places)?;
    Ok(Run {
        register: None,
        from: at + 1,
        count: 0,
    })
}

/// The places of all stages, those of each run in their order. The variables that are bound before stay as they were.
fn places_of<C: Counts>(
    alloc: Global,
    counts: &C,
    stages: &[Stage],
    known: &mut Known,
) -> Result<Vec<usize>, AllocError>
    ensures { IfOk result (λ ps. SameStages (stages_at stages.now ps.items) stages.now) }
{
    let count = known.len();
    let mut places = Vec::new(alloc);
    let mut run = Run {
        register: None,
        from: 0,
        count: 0,
    };
    for at in 0..stages.len() {
        run = next_run(alloc, counts, stages, run, known, &mut places)?;
    }
    put_run(alloc, counts, stages, run, known, &mut places)?;
    known.cut(count);
    Ok(places)
}

// ---- groups

/// The stages with those of each run in their order. The variables that are bound before stay as they were.
#[cycle(ordered)]
fn ordered_stages<C: Counts>(
    alloc: Global,
    counts: &C,
    stages: &[Stage],
    known: &mut Known,
) -> Result<Items<Stage>, AllocError>
    ensures { IfOk result (λ ss. SameStages ss stages.now) }
{
    let places = places_of(alloc, counts, stages, known)?;
    let count = known.len();
    let mut done = Items::new(alloc);
    for place in places.as_slice() {
        if let Some(stage) = stages.get(*place) {
            let one = ordered_stage(alloc, counts, stage, known)?;
            done.push(one)?;
            known.add_stage(alloc, stage)?;
        }
    }
    known.cut(count);
    Ok(done)
}

/// The stage, with its groups in their order.
#[cycle(ordered)]
fn ordered_stage<C: Counts>(
    alloc: Global,
    counts: &C,
    stage: &Stage,
    known: &mut Known,
) -> Result<Stage, AllocError>
    ensures { IfOk result (λ s. SameStages (s ∷ []) (stage.now ∷ [])) }
{
    match stage {
        Stage::Union(branches) => {
            let branches = ordered_branches(alloc, counts, branches.as_slice(), known)?;
            Ok(Stage::Union(branches))
        }
        Stage::Optional(register, group, conditions) => {
            let conditions = conditions.share()?;
            let mut none = Known::new(alloc);
            let group = ordered_group(alloc, counts, group, &mut none)?;
            Ok(Stage::Optional(*register, group, conditions))
        }
        Stage::Fed(group, conditions) => {
            let conditions = conditions.share()?;
            let group = ordered_group(alloc, counts, group, known)?;
            Ok(Stage::Fed(group, conditions))
        }
        Stage::Minus(register, group) => {
            let mut none = Known::new(alloc);
            let group = ordered_group(alloc, counts, group, &mut none)?;
            Ok(Stage::Minus(*register, group))
        }
        Stage::Apart(register, group) => {
            let mut none = Known::new(alloc);
            let group = ordered_group(alloc, counts, group, &mut none)?;
            Ok(Stage::Apart(*register, group))
        }
        other => copied_stage(alloc, other),
    }
}

#[cycle(ordered)]
fn ordered_group<C: Counts>(
    alloc: Global,
    counts: &C,
    group: &Group,
    known: &mut Known,
) -> Result<Group, AllocError>
    ensures { IfOk result (λ g. SameStages g.stages group.now.stages) }
{
    let stages = ordered_stages(alloc, counts, group.stages.as_slice(), known)?;
    Ok(Group { stages })
}

/// The branches, each in its order.
#[cycle(ordered)]
fn ordered_branches<C: Counts>(
    alloc: Global,
    counts: &C,
    branches: &[Group],
    known: &mut Known,
) -> Result<Items<Group>, AllocError>
    ensures { IfOk result (λ bs. SameStages (stage.Union bs ∷ []) (stage.Union branches.now ∷ [])) }
{
    let mut done = Items::new(alloc);
    for branch in branches {
        let group = ordered_group(alloc, counts, branch, known)?;
        done.push(group)?;
    }
    Ok(done)
}

pub(crate) fn copied_plan(alloc: Global, plan: &Plan) -> Result<Plan, AllocError>
    ensures { IfOk result (λ p. p ≡ plan.now) }
{
    let stages = copied_stages(alloc, plan.stages.as_slice())?;
    Ok(Plan {
        width: plan.width,
        cells: plan.cells,
        stages,
    })
}

/// The plan with the stages of each run in their order, by these counts (`order_of`). Both plans have the same solutions.
/// Where a row has no cell for a named variable, the plan stays as it is: a table then makes the row longer, and a triple after it may bind more.
pub(crate) fn counted_order<C: Counts>(
    alloc: Global,
    counts: &C,
    plan: &Plan,
) -> Result<Plan, AllocError>
    ensures { IfOk result (λ p. SamePlan p plan.now) }
{
    if plan.cells < plan.width {
        return copied_plan(alloc, plan);
    }
    let mut known = Known::new(alloc);
    let stages = ordered_stages(alloc, counts, plan.stages.as_slice(), &mut known)?;
    Ok(Plan {
        width: plan.width,
        cells: plan.cells,
        stages,
    })
}

/// The plan with the triples, paths, tables and unions of each run in the order that `plan_for` tells, for a store of which nothing is known: of each
/// triple, and of each path that isn't between two terms, there are as many as may be. Both plans have the same solutions.
///
/// # Errors
/// `AllocError` where memory runs out.
pub fn run_order(alloc: Global, plan: &Plan) -> Result<Plan, AllocError>
    ensures { IfOk result (λ p. SamePlan p plan.now) }
{
    counted_order(alloc, &NoCounts, plan)
}
