//! The stages of basic graph patterns (SPARQL 1.1 Query, 18.3.1).

ghost use Rattle.std.specs.Prelude.{◌≡◌, ◌≤◌, ◌<◌, ◌+◌, ◌^◌, Bool, nat_lt, [], ◌∷◌, ◌++◌, IfOk};
ghost use Rattle.qs_algebra_patterns.specs.Basic.{is_repeated};
ghost use Rattle.qs_algebra_patterns.specs.declared.pattern.PatternNode.TheVariants.{Basic};
ghost use Rattle.qs_plan_meaning.specs.declared.stage.Stage.TheVariants as stage;
ghost use Rattle.qs_plan.specs.inner.Below as below;
ghost use Rattle.qs_plan.specs.inner.Joins.{IsRun};
ghost use Rattle.qs_plan.specs.inner.Lays.{Lays, Within, joined_with};
ghost use Rattle.qs_plan.specs.inner.Numbers as spec;
ghost use Rattle.qs_plan.specs.inner.Numbers.{past};

use crate::joins::join_paths;
use crate::laid::{Laid, alone};
use qs_algebra_patterns::{BasicPattern, PathPattern, Slot, TriplePattern};
use qs_base::keep_beside;
use qs_plan_meaning::{Look, Stage};
use sqlite_items::Items;
use std::alloc::{AllocError, Global};

/// More cells than a row has.
pub const PAST: usize = 18446744073709551614;

/// Whether the number is one of those of the named and the hidden variables.
fn is_below(variable: usize, width: usize, hidden: usize) -> bool
    ensures { result ≡ nat_lt variable (width + hidden) }
{
    variable < width || variable - width < hidden
}

fn is_slot_below(slot: &Slot, width: usize, hidden: usize) -> bool
    ensures { result ≡ below.slot_below (width + hidden) slot.now }
{
    match slot {
        Slot::Term(_) => true,
        Slot::Variable(variable) => is_below(*variable, width, hidden),
    }
}

fn is_triple_below(pattern: &TriplePattern, width: usize, hidden: usize) -> bool
    ensures { result ≡ below.triple_below (width + hidden) pattern.now }
{
    is_slot_below(&pattern.subject, width, hidden)
        && is_slot_below(&pattern.predicate, width, hidden)
        && is_slot_below(&pattern.object, width, hidden)
}

fn are_below(triples: &[TriplePattern], width: usize, hidden: usize) -> bool
    ensures { result ≡ below.all_below (width + hidden) triples.now }
{
    triples
        .iter()
        .all(|pattern| is_triple_below(pattern, width, hidden))
}

/// Whether no triple of the pattern has a variable past the last.
fn has_all_below(pattern: &BasicPattern, width: usize) -> bool
    ensures { result ≡ below.all_below (width + pattern.now.hidden) pattern.now.triples }
{
    are_below(pattern.triples.as_slice(), width, pattern.hidden)
}

/// A stage that gives no row.
fn never(alloc: Global, next: usize) -> Result<Laid, AllocError>
    ensures { IfOk result (λ l. (l.stages ≡ stage.Union [] ∷ []) × (l.next ≡ next)) }
{
    alone(alloc, Stage::Union(Items::new(alloc)), next)
}

/// The cell of a variable: a named one has its own number, and the hidden ones stand from `from` on.
fn number(width: usize, hidden: usize, from: usize, none: usize, variable: usize) -> usize
    requires { from + hidden < 2 ^ 64 }
    ensures { result ≡ spec.number width hidden from none variable }
{
    if variable < width {
        return variable;
    }
    let place = variable - width;
    if place < hidden {
        return from + place;
    }
    none
}

fn slot_of(
    width: usize,
    hidden: usize,
    from: usize,
    none: usize,
    slot: &Slot,
) -> Result<Slot, AllocError>
    requires { from + hidden < 2 ^ 64 }
    ensures { IfOk result (λ s. s ≡ spec.slot_of width hidden from none slot.now) }
{
    match slot {
        Slot::Term(term) => Ok(Slot::Term(term.share()?)),
        Slot::Variable(variable) => Ok(Slot::Variable(number(
            width, hidden, from, none, *variable,
        ))),
    }
}

fn triple_of(
    width: usize,
    hidden: usize,
    from: usize,
    pattern: &TriplePattern,
) -> Result<TriplePattern, AllocError>
    requires { from + hidden < 2 ^ 64 }
    ensures { IfOk result (λ p. p ≡ spec.triple_of width hidden from pattern.now) }
{
    let subject = slot_of(width, hidden, from, PAST, &pattern.subject)?;
    let predicate = slot_of(width, hidden, from, PAST, &pattern.predicate)?;
    let object = slot_of(width, hidden, from, PAST, &pattern.object)?;
    Ok(TriplePattern {
        subject,
        predicate,
        object,
    })
}

/// Whether the same variable stands in both slots.
fn is_repeated(one: &Slot, other: &Slot) -> bool
    ensures { result ≡ is_repeated one.now other.now }
{
    match (one, other) {
        (Slot::Variable(one), Slot::Variable(other)) => *other == *one,
        _ => false,
    }
}

fn other_end(one: &Slot, other: &Slot) -> usize
    ensures { result ≡ spec.other_end one.now other.now }
{
    if is_repeated(one, other) {
        PAST
    } else {
        PAST + 1
    }
}

pub(crate) fn path_of(
    width: usize,
    hidden: usize,
    from: usize,
    pattern: &PathPattern,
) -> Result<PathPattern, AllocError>
    requires { from + hidden < 2 ^ 64 }
    ensures { IfOk result (λ p. p ≡ spec.path_of width hidden from pattern.now) }
{
    let subject = slot_of(width, hidden, from, PAST, &pattern.subject)?;
    let none = other_end(&pattern.subject, &pattern.object);
    let object = slot_of(width, hidden, from, none, &pattern.object)?;
    let path = pattern.path.share()?;
    Ok(PathPattern {
        subject,
        path,
        object,
    })
}

fn triple_stage(
    width: usize,
    hidden: usize,
    from: usize,
    look: &Look,
    pattern: &TriplePattern,
) -> Result<Stage, AllocError>
    requires { from + hidden < 2 ^ 64 }
    ensures { IfOk result
        (λ s. s ≡ stage.Triple look.now (spec.triple_of width hidden from pattern.now)) }
{
    let pattern = triple_of(width, hidden, from, pattern)?;
    let look = look.try_clone()?;
    Ok(Stage::Triple(look, pattern))
}

fn triple_stages(
    alloc: Global,
    width: usize,
    hidden: usize,
    from: usize,
    look: &Look,
    triples: &[TriplePattern],
) -> Result<Items<Stage>, AllocError>
    requires { from + hidden < 2 ^ 64 }
    ensures { IfOk result (λ ss. ss ≡ spec.triple_stages width hidden from look.now triples.now) }
{
    let mut stages = Items::new(alloc);
    for triple in triples {
        let stage = triple_stage(width, hidden, from, look, triple)?;
        stages.push(stage)?;
    }
    Ok(stages)
}

/// The triples of a basic graph pattern, and after them its paths. The number `next` is that of the first cell after its hidden variables.
fn run_stages(
    alloc: Global,
    width: usize,
    pattern: &BasicPattern,
    look: &Look,
    from: usize,
    next: usize,
) -> Result<Laid, AllocError>
    requires named { width ≤ from }
    requires room { next ≡ from + pattern.now.hidden }
    requires within { Within width from look.now }
    ensures { IfOk result (λ l. IsRun width from l.next look.now pattern.now l.stages) }
{
    let hidden = pattern.hidden;
    let paths = pattern.paths.as_slice();
    let paths = join_paths(alloc, width, hidden, from, look, paths, next)?;
    let Laid {
        stages: paths,
        next,
    } = paths;
    let (paths, mut stages) = keep_beside(
        paths,
        triple_stages(alloc, width, hidden, from, look, pattern.triples.as_slice()),
    )?;
    stages.append(paths)?;
    Ok(Laid { stages, next })
}

/// The number of the first cell after `count` from this one on. A row of more cells than there are numbers finds no memory.
pub fn room_after(from: usize, count: usize) -> Result<usize, AllocError>
    ensures { IfOk result (λ next. next ≡ from + count) }
{
    from.checked_add(count).ok_or(AllocError)
}

/// The stages of a basic graph pattern: its triples, and after them its paths. Where a triple has a variable past the last, there is no
/// solution, and the one stage gives none.
pub fn lay_run(
    alloc: Global,
    width: usize,
    pattern: &BasicPattern,
    look: &Look,
    from: usize,
) -> Result<Laid, AllocError>
    requires named { width ≤ from }
    requires within { Within width from look.now }
    ensures { IfOk result (λ l. (first : Bool) → Lays first width look.now from l.next l.stages
        (joined_with width (Basic pattern.now))) }
{
    let next = room_after(from, pattern.hidden)?;
    if has_all_below(pattern, width) {
        let laid = run_stages(alloc, width, pattern, look, from, next)?;
        return Ok(laid);
    }
    let laid = never(alloc, next)?;
    Ok(laid)
}
