//! The text's order: the stages of a pattern (SPARQL 1.1 Query, 18.5), as they stand in its text.
//!
//! A group with conditions is laid in line where they read what it is certain to bind. A merge of a solution with a row leaves
//! what the solution binds, so such a condition is true of both alike; another might read what the row alone binds.

ghost use Rattle.std.specs.Prelude.{◌≡◌, ◌≤◌, Bool, true, false, [], ◌∷◌, ◌++◌, map, take, drop, length, IfOk, IfSome};
ghost use Rattle.std.specs.List.{AllByRecursion};
ghost use Rattle.qs_algebra_patterns.specs.declared.pattern.PatternNode.TheVariants as pattern;
ghost use Rattle.qs_algebra_patterns.specs.declared.pattern.Step.TheVariants as a_step;
ghost use Rattle.qs_plan_meaning.specs.declared.stage.Look as places;
ghost use Rattle.qs_plan_meaning.specs.declared.stage.Stage.TheVariants as stage;
ghost use Rattle.qs_plan.specs.inner.Feeds.{Feeds, FeedsNext, LaysNext, LaysRest, after_steps, solutions_of};
ghost use Rattle.qs_plan.specs.inner.Lays.{Lays, LaysStep, Within, IsJoin, all_kept, all_stepped, joined_with};

use crate::certain::Size;
use crate::copies::{shared_expr, shared_table};
use crate::feed::{Feed, all_leave, are_looked_at, are_too_many, put_read, put_seen};
use crate::feedable::{are_in_line, is_feedable};
use crate::few::are_few;
use crate::fixes::{are_settled, put_tables};
use crate::laid::{
    Laid, alone, apart, bind, fed, if_exists, in_bound, in_each, look_named, minus, optional,
};
use crate::plain::{are_joins, are_plain_steps, is_filtered_plain, plain_front};
use crate::run::{lay_run, room_after};
use qs_algebra_patterns::{PatternNode, Step, Table};
use qs_expr_meaning::Expr;
use qs_plan_meaning::{Group, Look, Stage};
use qs_terms::Term;
use sqlite_items::Items;
use std::alloc::{AllocError, Global};

/// Whether there are no conditions.
fn are_none(conditions: &[Expr]) -> bool
    ensures { result ≡ true → conditions.now ≡ [] }
{
    conditions.is_empty()
}

/// Whether there are no stages.
fn are_no_stages(stages: &[Stage]) -> bool
    ensures { result ≡ true → stages.now ≡ [] }
{
    stages.is_empty()
}

/// Whether rows stand before the stages that come next as they stood before the first.
fn is_start(first: bool, stages: &Items<Stage>) -> bool
    ensures { result ≡ true → (first ≡ true) × (stages.now ≡ []) }
{
    first && stages.is_empty()
}

/// The stage of a table of VALUES.
fn lay_values(alloc: Global, table: &Table, from: usize) -> Result<Laid, AllocError>
    ensures { IfOk result (λ l. (l.stages ≡ stage.Values table.now ∷ []) × (l.next ≡ from)) }
{
    let table = shared_table(alloc, table)?;
    alone(alloc, Stage::Values(table), from)
}

/// The stages, and after them a filter for each condition.
fn lay_filters(alloc: Global, conditions: &[Expr], laid: Laid) -> Result<Laid, AllocError>
    ensures { IfOk result (λ l. (l.stages ≡ laid.stages ++ map stage.Filter conditions.now)
        × (l.next ≡ laid.next)) }
{
    let Laid { mut stages, next } = laid;
    for condition in conditions {
        let condition = shared_expr(alloc, condition)?;
        stages.push(Stage::Filter(condition))?;
    }
    Ok(Laid { stages, next })
}

/// The stages of a pattern, which looks in this graph and has the hidden cells from `from` on, for rows that are joined with its solutions.
/// Where it comes first, the rows bind no named variable. All is in line that a row may be put into before: runs, tables, and groups, unions
/// and named graphs of them; each other part that doesn't come first is evaluated by itself.
#[cycle(lay)]
pub fn lay(
    alloc: Global,
    width: usize,
    part: &PatternNode,
    look: &Look,
    from: usize,
    first: bool,
) -> Result<Laid, AllocError>
    requires named { width ≤ from }
    requires within { Within width from look.now }
    ensures { IfOk result (λ l. Lays first width look.now from l.next l.stages
        (joined_with width part.now)) }
{
    match part {
        PatternNode::Basic(basic) => {
            let laid = lay_run(alloc, width, basic, look, from)?;
            Ok(laid)
        }
        PatternNode::Group(steps, conditions) => {
            let laid = lay_group(
                alloc,
                width,
                steps.as_slice(),
                conditions.as_slice(),
                look,
                from,
                first,
            )?;
            Ok(laid)
        }
        PatternNode::Union(parts) => {
            let laid = lay_union(alloc, width, parts.as_slice(), look, from, first)?;
            Ok(laid)
        }
        PatternNode::Graph(name, part) => {
            let laid = lay_graph(alloc, width, name, part.get(), from, first)?;
            Ok(laid)
        }
        PatternNode::EachGraph(variable, part) => {
            let laid = lay_each(alloc, width, *variable, part.get(), look, from, first)?;
            Ok(laid)
        }
        PatternNode::Values(table) => {
            let laid = lay_values(alloc, table, from)?;
            Ok(laid)
        }
    }
}

/// The stages of a group: in line where it comes first, or where it only joins and its conditions read no variable that it may leave unbound.
#[cycle(lay)]
fn lay_group(
    alloc: Global,
    width: usize,
    steps: &[Step],
    conditions: &[Expr],
    look: &Look,
    from: usize,
    first: bool,
) -> Result<Laid, AllocError>
    requires named { width ≤ from }
    requires within { Within width from look.now }
    ensures { IfOk result (λ l. Lays first width look.now from l.next l.stages
        (joined_with width (pattern.Group steps.now conditions.now))) }
{
    if !first && are_none(conditions) && are_joins(steps) {
        let laid = lay_steps(alloc, width, steps, 0, steps.len(), look, from, false)?;
        return Ok(laid);
    }
    if !first && are_joins(steps) && are_plain_steps(steps) {
        let laid = lay_plain(alloc, width, steps, conditions, look, from)?;
        return Ok(laid);
    }
    let laid = lay_whole(alloc, width, steps, conditions, look, from)?;
    if first {
        return Ok(laid);
    }
    let laid = apart(alloc, look, laid)?;
    Ok(laid)
}

/// The stages of a group of plain parts that doesn't come first. What its stages are certain to bind stays when they are fed with a row, so
/// conditions on it may be asked in line; with others the group is evaluated by itself.
#[cycle(lay)]
fn lay_plain(
    alloc: Global,
    width: usize,
    steps: &[Step],
    conditions: &[Expr],
    look: &Look,
    from: usize,
) -> Result<Laid, AllocError>
    requires named { width ≤ from }
    requires within { Within width from look.now }
    requires joins { AllByRecursion IsJoin steps.now }
    ensures { IfOk result (λ l. Lays false width look.now from l.next l.stages
        (joined_with width (pattern.Group steps.now conditions.now))) }
{
    let laid = lay_steps(alloc, width, steps, 0, steps.len(), look, from, false)?;
    let Laid { mut stages, next } = laid;
    let size = Size { width, cells: next };
    put_tables(alloc, conditions, &[], size, &mut stages)?;
    let is_in_line = are_settled(alloc, conditions, stages.as_slice(), size)?;
    let laid = lay_filters(alloc, conditions, Laid { stages, next })?;
    if is_in_line {
        return Ok(laid);
    }
    let laid = apart(alloc, look, laid)?;
    Ok(laid)
}

/// The stages of a group that comes first. Its first steps that are plain have the same stages whatever a row binds, so that tables may come
/// before them: of the terms to which conditions fix variables.
#[cycle(lay)]
#[tactic(auto, using(crate::proofs::Laying::within_more))]
fn lay_whole(
    alloc: Global,
    width: usize,
    steps: &[Step],
    conditions: &[Expr],
    look: &Look,
    from: usize,
) -> Result<Laid, AllocError>
    requires named { width ≤ from }
    requires within { Within width from look.now }
    ensures { IfOk result (λ l. Lays true width look.now from l.next l.stages
        (joined_with width (pattern.Group steps.now conditions.now))) }
{
    let count = plain_front(steps);
    let laid = lay_steps(alloc, width, steps, 0, count, look, from, false)?;
    let Laid { mut stages, next } = laid;
    let size = Size { width, cells: next };
    put_tables(alloc, conditions, &steps[count..], size, &mut stages)?;
    let laid = lay_rest(alloc, width, steps, count, look, stages, next)?;
    let laid = lay_filters(alloc, conditions, laid)?;
    Ok(laid)
}

/// The stages of the steps of a group from one place up to another.
#[cycle(lay)]
fn lay_steps(
    alloc: Global,
    width: usize,
    steps: &[Step],
    start: usize,
    end: usize,
    look: &Look,
    from: usize,
    first: bool,
) -> Result<Laid, AllocError>
    requires named { width ≤ from }
    requires within { Within width from look.now }
    requires ordered { start ≤ end }
    requires inside { end ≤ length steps.now }
    ensures { IfOk result (λ l. Lays first width look.now from l.next l.stages
        (all_stepped width (drop start (take end steps.now)))) }
{
    let mut stages = Items::new(alloc);
    let mut next = from;
    for at in start..end {
        let second = is_start(first, &stages);
        let laid = lay_step(alloc, width, &steps[at], look, next, second)?;
        let Laid {
            stages: more,
            next: past,
        } = laid;
        stages.append(more)?;
        next = past;
    }
    Ok(Laid { stages, next })
}

/// The stages of a step of a group. What is optional or taken away is evaluated by itself.
#[cycle(lay)]
fn lay_step(
    alloc: Global,
    width: usize,
    one: &Step,
    look: &Look,
    from: usize,
    first: bool,
) -> Result<Laid, AllocError>
    requires named { width ≤ from }
    requires within { Within width from look.now }
    ensures { IfOk result (λ l. LaysStep first width look.now from l.next l.stages one.now) }
{
    match one {
        Step::Join(part) => {
            let laid = lay(alloc, width, part, look, from, first)?;
            Ok(laid)
        }
        Step::LeftJoin(part, conditions) => {
            let laid = lay(alloc, width, part, look, from, true)?;
            let laid = optional(alloc, look, conditions.as_slice(), laid)?;
            Ok(laid)
        }
        Step::Minus(part) => {
            let laid = lay(alloc, width, part, look, from, true)?;
            let laid = minus(alloc, look, laid)?;
            Ok(laid)
        }
        Step::Extend(variable, expr) => {
            let laid = bind(alloc, *variable, expr, from)?;
            Ok(laid)
        }
    }
}

/// The stages of a group that comes first, with those of its last steps.
#[cycle(lay)]
fn lay_rest(
    alloc: Global,
    width: usize,
    steps: &[Step],
    start: usize,
    look: &Look,
    front: Items<Stage>,
    from: usize,
) -> Result<Laid, AllocError>
    requires named { width ≤ from }
    requires within { Within width from look.now }
    requires inside { start ≤ length steps.now }
    ensures { IfOk result (λ l. LaysRest width look.now from l.next front l.stages
        (drop start steps.now)) }
{
    let mut stages = front;
    let mut next = from;
    for at in start..steps.len() {
        let laid = lay_next(alloc, width, &steps[at], look, next, stages.as_slice())?;
        let Laid {
            stages: more,
            next: past,
        } = laid;
        stages.append(more)?;
        next = past;
    }
    Ok(Laid { stages, next })
}

/// The stages of a step of a group that comes first, after those of the steps before it.
#[cycle(lay)]
fn lay_next(
    alloc: Global,
    width: usize,
    one: &Step,
    look: &Look,
    from: usize,
    before: &[Stage],
) -> Result<Laid, AllocError>
    requires named { width ≤ from }
    requires within { Within width from look.now }
    ensures { IfOk result (λ l. LaysNext width look.now from l.next before.now l.stages one.now) }
{
    if let Some(laid) = lay_fed(alloc, width, one, look, from, before)? {
        return Ok(laid);
    }
    let laid = lay_step(alloc, width, one, look, from, are_no_stages(before))?;
    Ok(laid)
}

/// The stage of an OPTIONAL whose group is fed each row: where few stand before it, and evaluating it again costs little.
#[cycle(lay)]
fn lay_fed(
    alloc: Global,
    width: usize,
    one: &Step,
    look: &Look,
    from: usize,
    before: &[Stage],
) -> Result<Option<Laid>, AllocError>
    requires named { width ≤ from }
    requires within { Within width from look.now }
    ensures { IfOk result
        (λ o. IfSome o (λ l. LaysNext width look.now from l.next before.now l.stages one.now)) }
{
    match one {
        Step::LeftJoin(part, conditions) => {
            if !are_few(true, before) || !is_feedable(part) {
                return Ok(None);
            }
            let laid = lay_optional(
                alloc,
                width,
                part,
                conditions.as_slice(),
                look,
                from,
                before,
            )?;
            Ok(laid)
        }
        _ => Ok(None),
    }
}

/// The stage of an OPTIONAL whose group is fed each row, if the rows bind none of what it needs.
#[cycle(lay)]
fn lay_optional(
    alloc: Global,
    width: usize,
    part: &PatternNode,
    conditions: &[Expr],
    look: &Look,
    from: usize,
    before: &[Stage],
) -> Result<Option<Laid>, AllocError>
    requires named { width ≤ from }
    requires within { Within width from look.now }
    ensures { IfOk result
        (λ o. IfSome o (λ l. LaysNext width look.now from l.next before.now l.stages
        (a_step.LeftJoin part.now conditions.now))) }
{
    if let Some(feed) = feed(alloc, width, part, look, from)? {
        let Feed {
            stages,
            next,
            needs,
        } = feed;
        if all_leave(before, needs.as_slice()) {
            let laid = fed(alloc, conditions, Laid { stages, next })?;
            return Ok(Some(laid));
        }
    }
    Ok(None)
}

// ---- groups that are fed

/// The stages of a pattern that is fed rows; none where it would be evaluated by itself for each of them.
#[cycle(lay)]
fn feed(
    alloc: Global,
    width: usize,
    part: &PatternNode,
    look: &Look,
    from: usize,
) -> Result<Option<Feed>, AllocError>
    requires named { width ≤ from }
    requires within { Within width from look.now }
    ensures { IfOk result
        (λ o. IfSome o (λ f. Feeds f.needs.items width look.now from f.next f.stages
        (solutions_of width part.now))) }
{
    match part {
        PatternNode::Group(steps, conditions) => {
            let feed = feed_group(
                alloc,
                width,
                steps.as_slice(),
                conditions.as_slice(),
                look,
                from,
            )?;
            Ok(feed)
        }
        _ => {
            let feed = feed_plain(alloc, width, part, look, from)?;
            Ok(feed)
        }
    }
}

/// The stages of a pattern that may be fed any row.
#[cycle(lay)]
fn feed_plain(
    alloc: Global,
    width: usize,
    part: &PatternNode,
    look: &Look,
    from: usize,
) -> Result<Option<Feed>, AllocError>
    requires named { width ≤ from }
    requires within { Within width from look.now }
    ensures { IfOk result
        (λ o. IfSome o (λ f. Feeds f.needs.items width look.now from f.next f.stages
        (solutions_of width part.now))) }
{
    let laid = lay(alloc, width, part, look, from, false)?;
    let Laid { stages, next } = laid;
    if !are_in_line(stages.as_slice()) {
        return Ok(None);
    }
    let needs = Vec::new(alloc);
    Ok(Some(Feed {
        stages,
        next,
        needs,
    }))
}

/// The stages of a group that is fed rows, its conditions after its steps.
#[cycle(lay)]
fn feed_group(
    alloc: Global,
    width: usize,
    steps: &[Step],
    conditions: &[Expr],
    look: &Look,
    from: usize,
) -> Result<Option<Feed>, AllocError>
    requires named { width ≤ from }
    requires within { Within width from look.now }
    ensures { IfOk result
        (λ o. IfSome o (λ f. Feeds f.needs.items width look.now from f.next f.stages
        (solutions_of width (pattern.Group steps.now conditions.now)))) }
{
    if let Some(feed) = feed_steps(alloc, width, steps, look, from)? {
        let Feed {
            stages,
            next,
            mut needs,
        } = feed;
        let size = Size { width, cells: next };
        put_read(alloc, conditions, stages.as_slice(), size, &mut needs)?;
        let laid = lay_filters(alloc, conditions, Laid { stages, next })?;
        let Laid { stages, next } = laid;
        return Ok(Some(Feed {
            stages,
            next,
            needs,
        }));
    }
    Ok(None)
}

/// The stages of the steps of a group that is fed rows.
#[cycle(lay)]
fn feed_steps(
    alloc: Global,
    width: usize,
    steps: &[Step],
    look: &Look,
    from: usize,
) -> Result<Option<Feed>, AllocError>
    requires named { width ≤ from }
    requires within { Within width from look.now }
    ensures { IfOk result
        (λ o. IfSome o (λ f. Feeds f.needs.items width look.now from f.next f.stages
        (after_steps width steps.now))) }
{
    if are_too_many(width, steps) {
        return Ok(None);
    }
    let mut stages = Items::new(alloc);
    let mut needs = Vec::new(alloc);
    let mut next = from;
    for one in steps {
        let before = stages.as_slice();
        if !are_looked_at(before) {
            return Ok(None);
        }
        let fed = feed_step(alloc, width, one, look, next, before, &mut needs)?;
        let Some(laid) = fed else {
            return Ok(None);
        };
        let Laid {
            stages: more,
            next: past,
        } = laid;
        stages.append(more)?;
        next = past;
    }
    Ok(Some(Feed {
        stages,
        next,
        needs,
    }))
}

/// The stages of a step of a group that is fed rows, after those of the steps before it. What it needs is put after the other needs.
#[cycle(lay)]
fn feed_step(
    alloc: Global,
    width: usize,
    one: &Step,
    look: &Look,
    from: usize,
    before: &[Stage],
    needs: &mut Vec<usize>,
) -> Result<Option<Laid>, AllocError>
    requires named { width ≤ from }
    requires within { Within width from look.now }
    ensures { IfOk result
        (λ o. IfSome o (λ l. FeedsNext needs.old.items needs.new.items width look.now from l.next
        before.now l.stages one.now)) }
{
    match one {
        Step::Join(part) => {
            let joined = lay(alloc, width, part, look, from, false)?;
            if !are_in_line(joined.stages.as_slice()) {
                return Ok(None);
            }
            Ok(Some(joined))
        }
        Step::LeftJoin(part, conditions) => {
            let laid = feed_optional(
                alloc,
                width,
                part,
                conditions.as_slice(),
                look,
                from,
                before,
                needs,
            )?;
            Ok(laid)
        }
        _ => Ok(None),
    }
}

/// The stage of an OPTIONAL in a group that is fed rows. Its own group is fed what comes of the stages before it.
#[cycle(lay)]
fn feed_optional(
    alloc: Global,
    width: usize,
    part: &PatternNode,
    conditions: &[Expr],
    look: &Look,
    from: usize,
    before: &[Stage],
    needs: &mut Vec<usize>,
) -> Result<Option<Laid>, AllocError>
    requires named { width ≤ from }
    requires within { Within width from look.now }
    ensures { IfOk result
        (λ o. IfSome o (λ l. FeedsNext needs.old.items needs.new.items width look.now from l.next
        before.now l.stages (a_step.LeftJoin part.now conditions.now))) }
{
    if let Some(feed) = feed(alloc, width, part, look, from)? {
        let Feed {
            stages,
            next,
            needs: inner,
        } = feed;
        let needed = inner.as_slice();
        let own = stages.as_slice();
        if all_leave(before, needed) {
            let size = Size { width, cells: from };
            put_seen(alloc, before, own, conditions, needed, size, needs)?;
            let laid = fed(alloc, conditions, Laid { stages, next })?;
            return Ok(Some(laid));
        }
    }
    Ok(None)
}

/// The stage of a union, whose branches begin with the same row.
#[cycle(lay)]
fn lay_union(
    alloc: Global,
    width: usize,
    parts: &[PatternNode],
    look: &Look,
    from: usize,
    first: bool,
) -> Result<Laid, AllocError>
    requires named { width ≤ from }
    requires within { Within width from look.now }
    ensures { IfOk result (λ l. Lays first width look.now from l.next l.stages
        (joined_with width (pattern.Union parts.now))) }
{
    let mut branches = Items::new(alloc);
    let mut next = from;
    for part in parts {
        let laid = lay(alloc, width, part, look, next, first)?;
        let Laid { stages, next: end } = laid;
        branches.push(Group { stages })?;
        next = end;
    }
    let laid = alone(alloc, Stage::Union(branches), next)?;
    Ok(laid)
}

/// The stages of a pattern in the graph of this name: none goes on where there is no such graph.
#[cycle(lay)]
fn lay_graph(
    alloc: Global,
    width: usize,
    name: &Term,
    part: &PatternNode,
    from: usize,
    first: bool,
) -> Result<Laid, AllocError>
    requires { width ≤ from }
    ensures { IfOk result (λ l. (place : places.Look) → Lays first width place from l.next l.stages
        (joined_with width (pattern.Graph name.now part.now))) }
{
    let look = look_named(alloc, name)?;
    let laid = lay(alloc, width, part, &look, from, first)?;
    let laid = if_exists(alloc, name, laid)?;
    Ok(laid)
}

/// The stages of a pattern in each named graph. Where all of it is in line whatever a row binds, the row is joined with the name before it, so
/// that a row which binds the variable looks in one graph.
#[cycle(lay)]
fn lay_each(
    alloc: Global,
    width: usize,
    variable: usize,
    part: &PatternNode,
    look: &Look,
    from: usize,
    first: bool,
) -> Result<Laid, AllocError>
    requires named { width ≤ from }
    requires within { Within width from look.now }
    ensures { IfOk result (λ l. Lays first width look.now from l.next l.stages
        (joined_with width (pattern.EachGraph variable part.now))) }
{
    if is_filtered_plain(part) {
        if let Some(laid) = lay_plain_each(alloc, width, variable, part, from)? {
            return Ok(laid);
        }
    }
    let laid = lay_seen_each(alloc, width, variable, part, from)?;
    if first {
        return Ok(laid);
    }
    let laid = apart(alloc, look, laid)?;
    Ok(laid)
}

/// The stages of a pattern in each named graph, with the name joined before it; none where a part of it would be evaluated by itself.
#[cycle(lay)]
fn lay_plain_each(
    alloc: Global,
    width: usize,
    variable: usize,
    part: &PatternNode,
    from: usize,
) -> Result<Option<Laid>, AllocError>
    requires { width ≤ from }
    ensures { IfOk result
        (λ o. IfSome o (λ l. (first : Bool) (place : places.Look)
        → Lays first width place from l.next l.stages
        (joined_with width (pattern.EachGraph variable part.now)))) }
{
    let next = room_after(from, 1)?;
    let register = Look::Register(from);
    let laid = lay(alloc, width, part, &register, next, false)?;
    if !are_in_line(laid.stages.as_slice()) {
        return Ok(None);
    }
    let laid = in_bound(alloc, variable, from, laid)?;
    Ok(Some(laid))
}

/// The stages of a pattern in each named graph that comes first. The variable is joined with the name after all stages of the pattern, so that
/// none of them sees it.
#[cycle(lay)]
fn lay_seen_each(
    alloc: Global,
    width: usize,
    variable: usize,
    part: &PatternNode,
    from: usize,
) -> Result<Laid, AllocError>
    requires { width ≤ from }
    ensures { IfOk result (λ l. (place : places.Look) → Lays true width place from l.next l.stages
        (joined_with width (pattern.EachGraph variable part.now))) }
{
    let next = room_after(from, 1)?;
    let register = Look::Register(from);
    let laid = lay(alloc, width, part, &register, next, true)?;
    let laid = in_each(alloc, variable, from, laid)?;
    Ok(laid)
}
