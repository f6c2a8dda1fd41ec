//! The variables that stand in a basic graph pattern.

ghost use Rattle.std.specs.Prelude.{◌≡◌, IfOk};
ghost use Rattle.qs_algebra_patterns.specs.Basic.{mentions};
ghost use Rattle.qs_algebra_patterns.specs.inner.Basic.{is_end, occurs};
ghost use Rattle.qs_algebra.specs.inner.Flags.{flags_from};
ghost use Rattle.qs_algebra.specs.inner.Flags.{with_slot, with_triple, with_ends};

use crate::flags::{alike, either, flag};
use qs_algebra_patterns::{BasicPattern, PathPattern, Slot, TriplePattern};
use std::alloc::{AllocError, Global};

/// Flags the variable in the slot, if one of them stands there.
fn flag_slot(flags: &mut Vec<bool>, slot: &Slot)
    ensures { flags.new.items ≡ with_slot flags.old.items slot.now }
{
    match slot {
        Slot::Term(_) => {}
        Slot::Variable(variable) => flag(flags, *variable),
    }
}

/// Flags the variables of a triple pattern.
fn flag_triple(flags: &mut Vec<bool>, triple: &TriplePattern)
    ensures { flags.new.items ≡ with_triple flags.old.items triple.now }
{
    flag_slot(flags, &triple.subject);
    flag_slot(flags, &triple.predicate);
    flag_slot(flags, &triple.object);
}

/// Which of the named variables the triple patterns mention.
#[tactic(auto, using(crate::proofs::MentionLaws::mentions_more))]
fn in_triples(
    alloc: Global,
    width: usize,
    triples: &[TriplePattern],
) -> Result<Vec<bool>, AllocError>
    ensures { IfOk result (λ flags. flags.items ≡ flags_from (mentions triples.now) 0 width) }
{
    let mut flags = alike(alloc, width, false)?;
    for triple in triples {
        flag_triple(&mut flags, triple);
    }
    Ok(flags)
}

/// Flags the variables at the ends of a path pattern.
fn flag_ends(flags: &mut Vec<bool>, path: &PathPattern)
    ensures { flags.new.items ≡ with_ends flags.old.items path.now }
{
    flag_slot(flags, &path.subject);
    flag_slot(flags, &path.object);
}

/// Which of the named variables stand at ends of the path patterns.
#[tactic(auto, using(crate::proofs::MentionLaws::ends_more))]
fn at_ends(alloc: Global, width: usize, paths: &[PathPattern]) -> Result<Vec<bool>, AllocError>
    ensures { IfOk result (λ flags. flags.items ≡ flags_from (is_end paths.now) 0 width) }
{
    let mut flags = alike(alloc, width, false)?;
    for path in paths {
        flag_ends(&mut flags, path);
    }
    Ok(flags)
}

/// Which of the named variables stand in the pattern.
pub(crate) fn mentioned(
    alloc: Global,
    width: usize,
    pattern: &BasicPattern,
) -> Result<Vec<bool>, AllocError>
    ensures { IfOk result (λ flags. flags.items ≡ flags_from (occurs pattern.now) 0 width) }
{
    let in_triples = in_triples(alloc, width, pattern.triples.as_slice())?;
    let at_ends = at_ends(alloc, width, pattern.paths.as_slice())?;
    let flags = either(alloc, width, in_triples.as_slice(), at_ends.as_slice())?;
    Ok(flags)
}
