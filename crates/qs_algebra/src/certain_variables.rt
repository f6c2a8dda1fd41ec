//! The variables that each solution of a pattern binds.

ghost use Rattle.std.specs.Prelude.{◌≡◌, length, IfOk};
ghost use Rattle.std.specs.List.{list_any, list_all};
ghost use Rattle.qs_algebra.specs.inner.Flags.{flags_from};
ghost use Rattle.qs_algebra.specs.inner.Certain.{certain_in, is_certain, is_certain_step};

use crate::bound_columns::certain_of_table;
use crate::flags::{alike, both, either, flag};
use crate::mentioned::mentioned;
use qs_algebra_patterns::{Pattern, PatternNode, Step};
use std::alloc::{AllocError, Global};

/// Which variables each solution of the pattern binds, by their numbers, as far as the pattern alone tells it (SPARQL 1.1 Query, 18.5).
/// A triple mentions them or they stand at an end of a path, a joined step of a group binds them, or each part of a union, GRAPH has them as its
/// name, or a table of VALUES sets them in each row.
///
/// # Errors
/// `AllocError` where memory runs out.
pub fn certain(alloc: Global, pattern: &Pattern) -> Result<Vec<bool>, AllocError>
    ensures { IfOk result (λ flags. flags.items ≡ flags_from (certain_in pattern.now) 0
        (length pattern.now.names)) }
{
    certain_of_node(alloc, pattern.names.len(), &pattern.root)
}

/// Which of `width` named variables each solution of a node binds.
#[cycle(certain)]
fn certain_of_node(
    alloc: Global,
    width: usize,
    pattern: &PatternNode,
) -> Result<Vec<bool>, AllocError>
    ensures { IfOk result (λ flags. flags.items ≡ flags_from (is_certain width pattern.now) 0
        width) }
{
    match pattern {
        PatternNode::Basic(basic) => {
            let flags = mentioned(alloc, width, basic)?;
            Ok(flags)
        }
        PatternNode::Group(steps, _) => {
            let flags = certain_in_steps(alloc, width, steps.as_slice())?;
            Ok(flags)
        }
        PatternNode::Union(parts) => {
            let flags = certain_in_every(alloc, width, parts.as_slice())?;
            Ok(flags)
        }
        PatternNode::Graph(_, part) => {
            let flags = certain_of_node(alloc, width, part.get())?;
            Ok(flags)
        }
        PatternNode::EachGraph(variable, part) => {
            let mut flags = certain_of_node(alloc, width, part.get())?;
            flag(&mut flags, *variable);
            Ok(flags)
        }
        PatternNode::Values(table) => {
            let flags = certain_of_table(alloc, width, table)?;
            Ok(flags)
        }
    }
}

/// The variables that are certain in one of the steps.
#[cycle(certain)]
fn certain_in_steps(alloc: Global, width: usize, steps: &[Step]) -> Result<Vec<bool>, AllocError>
    ensures { IfOk result
        (λ flags. flags.items ≡ flags_from
        (λ v. list_any (λ s. is_certain_step width s v) steps.now) 0 width) }
{
    let mut flags = alike(alloc, width, false)?;
    for one in steps {
        let more = certain_of_step(alloc, width, one)?;
        flags = either(alloc, width, flags.as_slice(), more.as_slice())?;
    }
    Ok(flags)
}

/// The variables that the step makes certain.
#[cycle(certain)]
fn certain_of_step(alloc: Global, width: usize, one: &Step) -> Result<Vec<bool>, AllocError>
    ensures { IfOk result (λ flags. flags.items ≡ flags_from (is_certain_step width one.now) 0
        width) }
{
    match one {
        Step::Join(part) => {
            let flags = certain_of_node(alloc, width, part)?;
            Ok(flags)
        }
        Step::LeftJoin(_, _) => {
            let flags = alike(alloc, width, false)?;
            Ok(flags)
        }
        Step::Minus(_) => {
            let flags = alike(alloc, width, false)?;
            Ok(flags)
        }
        Step::Extend(_, _) => {
            let flags = alike(alloc, width, false)?;
            Ok(flags)
        }
    }
}

/// The variables that are certain in each of the patterns.
#[cycle(certain)]
fn certain_in_every(
    alloc: Global,
    width: usize,
    parts: &[PatternNode],
) -> Result<Vec<bool>, AllocError>
    ensures { IfOk result
        (λ flags. flags.items ≡ flags_from
        (λ v. list_all (λ part. is_certain width part v) parts.now) 0 width) }
{
    let mut flags = alike(alloc, width, true)?;
    for part in parts {
        let more = certain_of_node(alloc, width, part)?;
        flags = both(alloc, width, flags.as_slice(), more.as_slice())?;
    }
    Ok(flags)
}
