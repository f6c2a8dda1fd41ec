//! Where filters stand: each goes to the earliest place of its group from which on no stage changes what is bound to a variable of it, a
//! conjunction in its parts. A filter after a UNION goes into each branch, and one after a join into the group that is joined, where the group
//! is certain to bind each variable of it; none goes into the right side of an OPTIONAL or a MINUS.

ghost use Rattle.std.specs.Prelude.{◌≡◌, ◌≤◌, ◌<◌, ◌+◌, true, false, [], ◌∷◌, ◌++◌, map, length, IfOk, OnOk};
ghost use Rattle.std.specs.List.{AllByRecursion};
ghost use Rattle.qs_plan_meaning.specs.declared.stage.Stage.TheVariants as stage;
ghost use Rattle.qs_plan.specs.inner.Plans.{SamePlan};
ghost use Rattle.qs_plan.specs.inner.Certain.{Binds, SameFrom};
ghost use Rattle.qs_plan.specs.inner.Places.{Firm, FirmAt, Inside, SameFilters, placed_at};

use crate::certain::{Size, all_steady_from, are_bound, is_among, is_known_before, known_before};
use crate::copies::{copied_stage, shared_expr};
use crate::few::is_selective;
use crate::order::triple_misses;
use crate::plan_type::Plan;
use crate::reads::settle;
use qs_algebra_patterns::Slot;
use qs_base::Shared;
use qs_expr_meaning::Expr;
use qs_plan_meaning::{Group, Look, Stage};
use sqlite_items::Items;
use std::alloc::{AllocError, Global};
use std::mem;

// ---- the place of a filter

/// The place after the filters that stand at this place.
fn past_filters(stages: &[Stage], place: usize) -> usize
    requires { place ≤ length stages.now }
    ensures up { place ≤ result }
    ensures within { result ≤ length stages.now }
{
    for at in place..stages.len() {
        match &stages[at] {
            Stage::Filter(_) => {}
            _ => return at,
        }
    }
    stages.len()
}

/// Whether the slot is a variable that the rows before the place bind.
fn is_known_slot(stages: &[Stage], place: usize, slot: &Slot, size: Size, given: &[usize]) -> bool
    requires { place ≤ length stages.now }
{
    match slot {
        Slot::Term(_) => false,
        Slot::Variable(variable) => is_known_before(stages, place, *variable, size, given),
    }
}

/// Whether the stage at the place is the first triple in each named graph, right after the name, and few triples agree with it for each row. One scan of
/// all graphs finds them. A filter before it would have the graphs looked at one by one.
fn is_first_in_each(stages: &[Stage], place: usize, size: Size, given: &[usize]) -> bool
    requires { place < length stages.now }
{
    if place < 2 {
        return false;
    }
    match (&stages[place - 2], &stages[place - 1], &stages[place]) {
        (
            Stage::Names(named),
            Stage::Name(variable, joined),
            Stage::Triple(Look::Register(register), pattern),
        ) => {
            *named == *register
                && *joined == *register
                && triple_misses(pattern, Some(*variable))
                && (is_selective(pattern)
                    || is_known_slot(stages, place - 2, &pattern.subject, size, given)
                    || is_known_slot(stages, place - 2, &pattern.object, size, given))
        }
        _ => false,
    }
}

/// The place after the first triple in each graph, if that stands at this place (`is_first_in_each`); else this place.
fn past_first(stages: &[Stage], place: usize, size: Size, given: &[usize]) -> usize
    requires { place ≤ length stages.now }
    ensures up { place ≤ result }
    ensures within { result ≤ length stages.now }
{
    if place < stages.len() && is_first_in_each(stages, place, size, given) {
        return place + 1;
    }
    place
}

/// Whether the stage before the place may take filters in.
fn takes_in(stages: &[Stage], place: usize) -> bool {
    if place == 0 || place > stages.len() {
        return false;
    }
    match &stages[place - 1] {
        Stage::Union(_) => true,
        Stage::Apart(_, _) => true,
        _ => false,
    }
}

/// The place among the stages where the filter of the condition goes. The first row binds the variables that are given.
fn place_of(
    alloc: Global,
    stages: &[Stage],
    condition: &Expr,
    size: Size,
    given: &[usize],
) -> Result<usize, AllocError>
    ensures within { IfOk result (λ place. place ≤ length stages.now) }
    ensures firm { IfOk result (λ place. Firm size given.now condition.now place stages.now) }
{
    let mut variables = Vec::new(alloc);
    settle(alloc, condition, &mut variables)?;
    let place = all_steady_from(stages, variables.as_slice(), size, given);
    if takes_in(stages, place) {
        return Ok(place);
    }
    let first = past_first(stages, place, size, given);
    let last = past_filters(stages, first);
    Ok(last)
}

/// A condition, and the place among the stages of a group where its filter goes.
#[derive(Drop)]
struct Going {
    condition: Shared<Expr>,
    place: usize,
}

/// The conditions, each with the place where its filter goes.
fn all_going(
    alloc: Global,
    stages: &[Stage],
    conditions: &[Shared<Expr>],
    size: Size,
    given: &[usize],
) -> Result<Items<Going>, AllocError>
    ensures all { IfOk result (λ gs. map (λ g. g.condition) gs ≡ conditions.now) }
    ensures firm { IfOk result
        (λ gs. AllByRecursion (FirmAt size given.now stages.now) gs) }
{
    let mut all = Items::new(alloc);
    for condition in conditions {
        let place = place_of(alloc, stages, condition.get(), size, given)?;
        let condition = condition.share()?;
        all.push(Going { condition, place })?;
    }
    Ok(all)
}

/// The conditions whose filters go to this place.
fn going_to(alloc: Global, all: &[Going], place: usize) -> Result<Items<Shared<Expr>>, AllocError>
    ensures { IfOk result (λ es. es ≡ placed_at place all.now) }
{
    let mut found = Items::new(alloc);
    for going in all {
        if going.place == place {
            let condition = going.condition.share()?;
            found.push(condition)?;
        }
    }
    Ok(found)
}

/// Puts a filter for each condition after the stages.
fn put_filters(conditions: &[Shared<Expr>], done: &mut Items<Stage>) -> Result<(), AllocError>
    ensures { OnOk result (done.new ≡ done.old ++ map stage.Filter conditions.now) }
{
    for condition in conditions {
        let condition = condition.share()?;
        done.push(Stage::Filter(condition))?;
    }
    Ok(())
}

// ---- filters that a union or a group takes in

/// Puts the variables of the condition among the others.
fn add_variables(
    alloc: Global,
    condition: &Expr,
    variables: &mut Vec<usize>,
) -> Result<(), AllocError> {
    let mut own = Vec::new(alloc);
    settle(alloc, condition, &mut own)?;
    for at in 0..own.len() {
        let variable = own[at];
        if !is_among(variable, variables.as_slice()) {
            variables.push(variable)?;
        }
    }
    Ok(())
}

/// Those variables of the conditions that the rows after the stages bind.
fn known_after(
    alloc: Global,
    stages: &[Stage],
    conditions: &[Shared<Expr>],
    size: Size,
    given: &[usize],
) -> Result<Vec<usize>, AllocError>
    ensures { IfOk result
        (λ known. AllByRecursion (λ v. Binds size given.now v stages.now) known.items) }
{
    let mut variables = Vec::new(alloc);
    for condition in conditions {
        add_variables(alloc, condition.get(), &mut variables)?;
    }
    let known = known_before(
        alloc,
        stages,
        stages.len(),
        variables.as_slice(),
        size,
        given,
    )?;
    Ok(known)
}

/// Whether the rows after the stages bind each variable of the condition, and all of them are named.
fn is_inside(
    alloc: Global,
    stages: &[Stage],
    condition: &Expr,
    size: Size,
) -> Result<bool, AllocError>
    ensures { IfOk result (λ b. b ≡ true → Inside size stages.now condition.now) }
{
    let mut variables = Vec::new(alloc);
    settle(alloc, condition, &mut variables)?;
    let found = are_bound(stages, variables.as_slice(), size);
    Ok(found)
}

/// Conditions that a group takes in, and others that it doesn't.
#[derive(Drop)]
struct Parting {
    inside: Items<Shared<Expr>>,
    after: Items<Shared<Expr>>,
}

fn put_parted(
    is_in: bool,
    condition: Shared<Expr>,
    inside: &mut Items<Shared<Expr>>,
    after: &mut Items<Shared<Expr>>,
) -> Result<(), AllocError>
    ensures inside { OnOk result (is_in ≡ true
        → (inside.new ≡ inside.old ++ condition ∷ []) × (after.new ≡ after.old)) }
    ensures after { OnOk result (is_in ≡ false
        → (inside.new ≡ inside.old) × (after.new ≡ after.old ++ condition ∷ [])) }
{
    if is_in {
        inside.push(condition)
    } else {
        after.push(condition)
    }
}

/// The conditions, parted by whether the group of these stages takes them in.
fn parted(
    alloc: Global,
    stages: &[Stage],
    conditions: &[Shared<Expr>],
    size: Size,
) -> Result<Parting, AllocError>
    ensures same { IfOk result (λ p. SameFilters (p.inside ++ p.after) conditions.now) }
    ensures inside { IfOk result (λ p. AllByRecursion (Inside size stages.now) p.inside) }
{
    let mut inside = Items::new(alloc);
    let mut after = Items::new(alloc);
    for condition in conditions {
        let is_in = is_inside(alloc, stages, condition.get(), size)?;
        let condition = condition.share()?;
        put_parted(is_in, condition, &mut inside, &mut after)?;
    }
    Ok(Parting { inside, after })
}

/// The group with the filters of the conditions where they go, for rows that bind the variables that are given.
#[cycle(filtered)]
fn filtered_group(
    alloc: Global,
    group: &Group,
    conditions: &[Shared<Expr>],
    size: Size,
    given: &[usize],
) -> Result<Group, AllocError>
    ensures { IfOk result (λ g. SameFrom size given.now g.stages
        (group.now.stages ++ map stage.Filter conditions.now)) }
{
    let stages = filtered(alloc, group.stages.as_slice(), conditions, size, given)?;
    Ok(Group { stages })
}

/// The branches, each with the filters of the conditions where they go in it.
#[cycle(filtered)]
fn filtered_branches(
    alloc: Global,
    branches: &[Group],
    conditions: &[Shared<Expr>],
    size: Size,
    given: &[usize],
) -> Result<Items<Group>, AllocError>
    ensures { IfOk result (λ bs. SameFrom size given.now (stage.Union bs ∷ [])
        (stage.Union branches.now ∷ map stage.Filter conditions.now)) }
{
    let mut done = Items::new(alloc);
    for branch in branches {
        let group = filtered_group(alloc, branch, conditions, size, given)?;
        done.push(group)?;
    }
    Ok(done)
}

/// Puts the stage after those that are done, and the filters of the conditions into it or after it.
#[cycle(filtered)]
fn put_stage(
    alloc: Global,
    one: &Stage,
    conditions: &[Shared<Expr>],
    size: Size,
    given: &[usize],
    done: &mut Items<Stage>,
) -> Result<(), AllocError>
    ensures { OnOk result (SameFrom size given.now done.new
        (done.old ++ one.now ∷ map stage.Filter conditions.now)) }
{
    if conditions.is_empty() {
        let one = copied_stage(alloc, one)?;
        done.push(one)?;
        return Ok(());
    }
    match one {
        Stage::Union(branches) => {
            let known = known_after(alloc, done.as_slice(), conditions, size, given)?;
            let branches = filtered_branches(
                alloc,
                branches.as_slice(),
                conditions,
                size,
                known.as_slice(),
            )?;
            done.push(Stage::Union(branches))?;
            Ok(())
        }
        Stage::Apart(register, group) => {
            let two = parted(alloc, group.stages.as_slice(), conditions, size)?;
            let group = filtered_group(alloc, group, two.inside.as_slice(), size, &[])?;
            done.push(Stage::Apart(*register, group))?;
            put_filters(two.after.as_slice(), done)?;
            Ok(())
        }
        other => {
            let one = copied_stage(alloc, other)?;
            done.push(one)?;
            put_filters(conditions, done)?;
            Ok(())
        }
    }
}

/// The stages with the filter of each condition where it goes, for rows that bind the variables that are given. All filters are put in one pass
/// over the stages.
#[cycle(filtered)]
fn filtered(
    alloc: Global,
    stages: &[Stage],
    conditions: &[Shared<Expr>],
    size: Size,
    given: &[usize],
) -> Result<Items<Stage>, AllocError>
    ensures { IfOk result (λ ss. SameFrom size given.now ss
        (stages.now ++ map stage.Filter conditions.now)) }
{
    let found = all_going(alloc, stages, conditions, size, given)?;
    let all = found.as_slice();
    let mut done = Items::new(alloc);
    let here = going_to(alloc, all, 0)?;
    put_filters(here.as_slice(), &mut done)?;
    for at in 0..stages.len() {
        let here = going_to(alloc, all, at + 1)?;
        put_stage(alloc, &stages[at], here.as_slice(), size, given, &mut done)?;
    }
    Ok(done)
}

// ---- conjunctions

/// Puts the parts of a conjunction after the conditions.
#[cycle(parts)]
fn put_parts(
    alloc: Global,
    parts: &[Expr],
    waiting: &mut Items<Shared<Expr>>,
) -> Result<(), AllocError>
    ensures { OnOk result (SameFilters waiting.new (waiting.old ++ parts.now)) }
{
    for part in parts {
        put_part(alloc, part, waiting)?;
    }
    Ok(())
}

#[cycle(parts)]
fn put_part(alloc: Global, part: &Expr, waiting: &mut Items<Shared<Expr>>) -> Result<(), AllocError>
    ensures { OnOk result (SameFilters waiting.new (waiting.old ++ part.now ∷ [])) }
{
    match part {
        Expr::And(parts) => {
            put_parts(alloc, parts.as_slice(), waiting)?;
            Ok(())
        }
        part => {
            let condition = shared_expr(alloc, part)?;
            waiting.push(condition)?;
            Ok(())
        }
    }
}

/// Puts the condition, or each part of it if it is a conjunction, after the conditions.
fn put_condition(
    alloc: Global,
    condition: &Shared<Expr>,
    waiting: &mut Items<Shared<Expr>>,
) -> Result<(), AllocError>
    ensures { OnOk result (SameFilters waiting.new (waiting.old ++ condition.now ∷ [])) }
{
    match condition.get() {
        Expr::And(parts) => {
            put_parts(alloc, parts.as_slice(), waiting)?;
            Ok(())
        }
        _ => {
            let condition = condition.share()?;
            waiting.push(condition)?;
            Ok(())
        }
    }
}

// ---- groups

/// Puts the filters that wait where they go among the stages that are done.
fn put_waiting(
    alloc: Global,
    size: Size,
    waiting: &mut Items<Shared<Expr>>,
    done: &mut Items<Stage>,
) -> Result<(), AllocError>
    ensures none { OnOk result (waiting.new ≡ []) }
    ensures same { OnOk result
        (SameFrom size [] done.new (done.old ++ map stage.Filter waiting.old)) }
{
    if waiting.is_empty() {
        return Ok(());
    }
    let conditions = mem::replace(waiting, Items::new(alloc));
    let stages = filtered(alloc, done.as_slice(), conditions.as_slice(), size, &[])?;
    *done = stages;
    Ok(())
}

/// Puts the stage after those that are done. A filter waits until no filter follows: those that stand together are put where they go in one pass.
fn put_placed(
    alloc: Global,
    one: Stage,
    size: Size,
    waiting: &mut Items<Shared<Expr>>,
    done: &mut Items<Stage>,
) -> Result<(), AllocError>
    ensures { OnOk result (SameFrom size [] (done.new ++ map stage.Filter waiting.new)
        ((done.old ++ map stage.Filter waiting.old) ++ one ∷ [])) }
{
    match one {
        Stage::Filter(condition) => {
            put_condition(alloc, &condition, waiting)?;
            Ok(())
        }
        other => {
            put_waiting(alloc, size, waiting, done)?;
            done.push(other)?;
            Ok(())
        }
    }
}

/// The stages, with the filters of each group where they go.
#[cycle(placed)]
fn placed_stages(alloc: Global, stages: &[Stage], size: Size) -> Result<Items<Stage>, AllocError>
    ensures { IfOk result (λ ss. SameFrom size [] ss stages.now) }
{
    let mut done = Items::new(alloc);
    let mut waiting = Items::new(alloc);
    for stage in stages {
        let one = placed_stage(alloc, stage, size)?;
        put_placed(alloc, one, size, &mut waiting, &mut done)?;
    }
    put_waiting(alloc, size, &mut waiting, &mut done)?;
    Ok(done)
}

/// The stage, with the filters of its groups where they go.
#[cycle(placed)]
fn placed_stage(alloc: Global, stage: &Stage, size: Size) -> Result<Stage, AllocError>
    ensures { IfOk result (λ s. SameFrom size [] (s ∷ []) (stage.now ∷ [])) }
{
    match stage {
        Stage::Union(branches) => {
            let branches = placed_branches(alloc, branches.as_slice(), size)?;
            Ok(Stage::Union(branches))
        }
        Stage::Optional(register, group, conditions) => {
            let conditions = conditions.share()?;
            let group = placed_group(alloc, group, size)?;
            Ok(Stage::Optional(*register, group, conditions))
        }
        Stage::Fed(group, conditions) => {
            let conditions = conditions.share()?;
            let group = placed_group(alloc, group, size)?;
            Ok(Stage::Fed(group, conditions))
        }
        Stage::Minus(register, group) => {
            let group = placed_group(alloc, group, size)?;
            Ok(Stage::Minus(*register, group))
        }
        Stage::Apart(register, group) => {
            let group = placed_group(alloc, group, size)?;
            Ok(Stage::Apart(*register, group))
        }
        other => copied_stage(alloc, other),
    }
}

#[cycle(placed)]
fn placed_group(alloc: Global, group: &Group, size: Size) -> Result<Group, AllocError>
    ensures { IfOk result (λ g. SameFrom size [] g.stages group.now.stages) }
{
    let stages = placed_stages(alloc, group.stages.as_slice(), size)?;
    Ok(Group { stages })
}

#[cycle(placed)]
fn placed_branches(
    alloc: Global,
    branches: &[Group],
    size: Size,
) -> Result<Items<Group>, AllocError>
    ensures { IfOk result
        (λ bs. SameFrom size [] (stage.Union bs ∷ []) (stage.Union branches.now ∷ [])) }
{
    let mut done = Items::new(alloc);
    for branch in branches {
        let group = placed_group(alloc, branch, size)?;
        done.push(group)?;
    }
    Ok(done)
}

/// The plan with each filter, and each part of a conjunction, at the earliest place of its group from which on no stage changes what is
/// bound to a variable of it. Both plans have the same solutions.
///
/// # Errors
/// `AllocError` where memory runs out.
pub fn filter_order(alloc: Global, plan: &Plan) -> Result<Plan, AllocError>
    ensures { IfOk result (λ p. SamePlan p plan.now) }
{
    let size = Size {
        width: plan.width,
        cells: plan.cells,
    };
    let stages = placed_stages(alloc, plan.stages.as_slice(), size)?;
    Ok(Plan {
        width: plan.width,
        cells: plan.cells,
        stages,
    })
}
