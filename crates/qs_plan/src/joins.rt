//! Property paths as joins (SPARQL 1.1 Query, 18.2.2.4). A sequence becomes the stages of its parts, with a hidden variable between two of them,
//! an alternative a union, an inverse the path with its ends exchanged, and an IRI a triple. Closures and negated sets stay paths.
//!
//! The branches of a union have their hidden variables in common, so rows stay short. A hidden variable is an open end, so no
//! closure is given what is between two parts of a sequence. A path whose end has a number past the last stays one stage.

ghost use Rattle.std.specs.Prelude.{◌≡◌, ◌≤◌, ◌<◌, ◌+◌, ◌^◌, true, [], ◌∷◌, map, IfOk};
ghost use Rattle.qs_syntax_ast.specs.declared.path.Path.TheVariants as path;
ghost use Rattle.qs_plan_meaning.specs.inner.Stages.{register_of};
ghost use Rattle.qs_plan_meaning.specs.declared.stage.Stage.TheVariants as stage;
ghost use Rattle.qs_plan.specs.inner.Joins.{IsEnd, Joined, JoinedAll, Lower, Stands, Under, between, by_iri};
ghost use Rattle.qs_plan.specs.inner.Lays.{Within};
ghost use Rattle.qs_plan.specs.inner.Numbers as spec;

use crate::copies::{copied_slot, shared_path};
use crate::laid::{Laid, alone};
use crate::order::path_misses;
use crate::run::{path_of, room_after};
use qs_algebra_patterns::{PathPattern, Slot, TriplePattern};
use qs_base::Shared;
use qs_plan_meaning::{Group, Look, Stage};
use qs_syntax_ast::path::Path;
use qs_terms::{Iri, Term};
use sqlite_items::Items;
use std::alloc::{AllocError, Global};

// ---- which paths are joined

/// What stands at an end of a part of a path.
#[derive(Clone, Copy)]
enum End {
    /// A term.
    Fixed,
    /// A variable of the pattern.
    Open,
    /// What stands between two parts of a sequence.
    Middle,
}

fn end_of(slot: &Slot) -> End {
    match slot {
        Slot::Term(_) => End::Fixed,
        Slot::Variable(_) => End::Open,
    }
}

/// Whether a path that isn't joined costs no more between these ends than as a part of the whole path, whose walks go on from what stands
/// between the parts: by itself it is read with each end open that is no term.
fn stands_alone(left: End, right: End) -> bool {
    match (left, right) {
        (End::Fixed, _) => true,
        (_, End::Fixed) => true,
        (End::Open, End::Open) => true,
        _ => false,
    }
}

/// Whether each closure and each negated set that the path is joined of stands alone.
#[cycle(split)]
fn is_split(path: &Path, left: End, right: End) -> bool {
    match path {
        Path::Iri(_) => true,
        Path::NegatedSet(_) => stands_alone(left, right),
        Path::Repeated(_, _) => stands_alone(left, right),
        Path::Inverse(inner) => is_split(inner.get(), right, left),
        Path::Alternative(parts) => are_split(parts.as_slice(), left, right),
        Path::Sequence(parts) => is_split_between(parts.as_slice(), left, right),
    }
}

#[cycle(split)]
fn are_split(parts: &[Path], left: End, right: End) -> bool {
    for part in parts {
        if !is_split(part, left, right) {
            return false;
        }
    }
    true
}

#[cycle(split)]
fn is_split_between(parts: &[Path], left: End, right: End) -> bool {
    let mut before = left;
    let mut rest = parts.len();
    for part in parts {
        let after = if rest == 1 { right } else { End::Middle };
        if !is_split(part, before, after) {
            return false;
        }
        before = End::Middle;
        rest = rest.saturating_sub(1);
    }
    true
}

/// Whether it is a term, or a variable whose number is below `from`.
fn is_lower(slot: &Slot, from: usize) -> bool
    ensures { result ≡ true → Lower from slot.now }
{
    match slot {
        Slot::Term(_) => true,
        Slot::Variable(variable) => *variable < from,
    }
}

// ---- stages of paths

/// The greater of both.
fn greater(one: usize, other: usize) -> usize
    ensures first { one ≤ result }
    ensures second { other ≤ result }
{
    if one < other { other } else { one }
}

/// The triple of a path of one IRI.
fn triple(
    alloc: Global,
    look: &Look,
    subject: &Slot,
    iri: &Iri,
    object: &Slot,
    next: usize,
) -> Result<Laid, AllocError>
    ensures { IfOk result
        (λ l. (l.stages ≡ stage.Triple look.now (by_iri subject.now iri.now object.now) ∷ [])
        × (l.next ≡ next)) }
{
    let predicate = Term::Iri(iri.try_clone()?);
    let predicate = Slot::Term(Shared::new(alloc, predicate)?);
    let subject = copied_slot(subject)?;
    let object = copied_slot(object)?;
    let look = look.try_clone()?;
    let pattern = TriplePattern {
        subject,
        predicate,
        object,
    };
    alone(alloc, Stage::Triple(look, pattern), next)
}

/// The stage of a path that isn't joined.
fn whole(
    alloc: Global,
    look: &Look,
    subject: &Slot,
    path: &Path,
    object: &Slot,
    next: usize,
) -> Result<Laid, AllocError>
    ensures { IfOk result
        (λ l. (l.stages ≡ stage.Path look.now (between subject.now path.now object.now) ∷ [])
        × (l.next ≡ next)) }
{
    let path = shared_path(alloc, path)?;
    let subject = copied_slot(subject)?;
    let object = copied_slot(object)?;
    let look = look.try_clone()?;
    let pattern = PathPattern {
        subject,
        path,
        object,
    };
    alone(alloc, Stage::Path(look, pattern), next)
}

/// The stages of a path between two ends, with hidden variables from `from` on.
#[cycle(join)]
fn join(
    alloc: Global,
    look: &Look,
    subject: &Slot,
    path: &Path,
    object: &Slot,
    from: usize,
) -> Result<Laid, AllocError>
    requires left { IsEnd from look.now subject.now }
    requires right { IsEnd from look.now object.now }
    requires under { Under from (register_of look.now) }
    ensures { IfOk result
        (λ l. Joined look.now from l.next l.stages (between subject.now path.now object.now)) }
{
    match path {
        Path::Iri(iri) => {
            let laid = triple(alloc, look, subject, iri, object, from)?;
            Ok(laid)
        }
        Path::Inverse(inner) => {
            let laid = join(alloc, look, object, inner.get(), subject, from)?;
            Ok(laid)
        }
        Path::Alternative(parts) => {
            let laid = join_either(alloc, look, subject, parts.as_slice(), object, from)?;
            Ok(laid)
        }
        Path::Sequence(parts) => {
            let laid = join_each(alloc, look, subject, parts.as_slice(), object, from)?;
            Ok(laid)
        }
        other => {
            let laid = whole(alloc, look, subject, other, object, from)?;
            Ok(laid)
        }
    }
}

/// The union of the paths. A row goes through each branch by itself, so the branches have their hidden variables in common.
#[cycle(join)]
fn join_either(
    alloc: Global,
    look: &Look,
    subject: &Slot,
    parts: &[Path],
    object: &Slot,
    from: usize,
) -> Result<Laid, AllocError>
    requires left { IsEnd from look.now subject.now }
    requires right { IsEnd from look.now object.now }
    requires under { Under from (register_of look.now) }
    ensures { IfOk result
        (λ l. Joined look.now from l.next l.stages
        (between subject.now (path.Alternative parts.now) object.now)) }
{
    let mut branches = Items::new(alloc);
    let mut next = from;
    for part in parts {
        let laid = join(alloc, look, subject, part, object, from)?;
        let Laid { stages, next: end } = laid;
        branches.push(Group { stages })?;
        next = greater(next, end);
    }
    let laid = alone(alloc, Stage::Union(branches), next)?;
    Ok(laid)
}

/// The parts of a sequence, with a hidden variable between two of them.
#[cycle(join)]
fn join_each(
    alloc: Global,
    look: &Look,
    subject: &Slot,
    parts: &[Path],
    object: &Slot,
    from: usize,
) -> Result<Laid, AllocError>
    requires left { IsEnd from look.now subject.now }
    requires right { IsEnd from look.now object.now }
    requires under { Under from (register_of look.now) }
    ensures { IfOk result
        (λ l. Joined look.now from l.next l.stages
        (between subject.now (path.Sequence parts.now) object.now)) }
{
    let mut stages = Items::new(alloc);
    let mut left = copied_slot(subject)?;
    let mut next = from;
    let mut count = 0;
    for part in parts {
        count += 1;
        if count == parts.len() {
            let laid = join(alloc, look, &left, part, object, next)?;
            let Laid {
                stages: more,
                next: end,
            } = laid;
            stages.append(more)?;
            return Ok(Laid { stages, next: end });
        }
        let inner = room_after(next, 1)?;
        let middle = Slot::Variable(next);
        let laid = join(alloc, look, &left, part, &middle, inner)?;
        let Laid {
            stages: more,
            next: end,
        } = laid;
        stages.append(more)?;
        left = middle;
        next = end;
    }
    let laid = alone(alloc, Stage::Union(Items::new(alloc)), from)?;
    Ok(laid)
}

/// Whether the path is joined: its ends are such that it may be, and no closure or negated set of it is worse off by itself.
fn is_joined(look: &Look, pattern: &PathPattern, from: usize) -> bool
    ensures { result ≡ true → IsEnd from look.now pattern.now.subject
        × IsEnd from look.now pattern.now.object }
{
    is_lower(&pattern.subject, from)
        && is_lower(&pattern.object, from)
        && path_misses(pattern, look.register())
        && is_split(
            pattern.path.get(),
            end_of(&pattern.subject),
            end_of(&pattern.object),
        )
}

/// The stages of a path pattern, with hidden variables from `from` on.
fn join_path(
    alloc: Global,
    look: &Look,
    pattern: PathPattern,
    from: usize,
) -> Result<Laid, AllocError>
    requires under { Under from (register_of look.now) }
    requires left { Stands from pattern.subject }
    requires right { Stands from pattern.object }
    ensures { IfOk result (λ l. Joined look.now from l.next l.stages pattern) }
{
    if is_joined(look, &pattern, from) {
        let laid = join(
            alloc,
            look,
            &pattern.subject,
            pattern.path.get(),
            &pattern.object,
            from,
        )?;
        return Ok(laid);
    }
    let look = look.try_clone()?;
    let laid = alone(alloc, Stage::Path(look, pattern), from)?;
    Ok(laid)
}

/// The stages of the path patterns of a basic graph pattern whose cells stand from `start` on, one after another. Further hidden variables are
/// numbered from `from` on.
pub(crate) fn join_paths(
    alloc: Global,
    width: usize,
    hidden: usize,
    start: usize,
    look: &Look,
    paths: &[PathPattern],
    from: usize,
) -> Result<Laid, AllocError>
    requires named { width ≤ start }
    requires room { from ≡ start + hidden }
    requires within { Within width start look.now }
    ensures { IfOk result (λ l. JoinedAll look.now (start + hidden) l.next l.stages
        (map (spec.path_of width hidden start) paths.now)) }
{
    let mut stages = Items::new(alloc);
    let mut next = from;
    for path in paths {
        let pattern = path_of(width, hidden, start, path)?;
        let laid = join_path(alloc, look, pattern, next)?;
        let Laid {
            stages: more,
            next: end,
        } = laid;
        stages.append(more)?;
        next = end;
    }
    Ok(Laid { stages, next })
}
