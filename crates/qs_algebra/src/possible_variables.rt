//! The variables that some solution of a pattern may bind.
//!
//! A variable of BIND is possible at every number, the others among the named ones alone. Whether a solution is long enough for
//! BIND's variable isn't known from the step.

ghost use Rattle.std.specs.Prelude.{◌≡◌, length, IfOk};
ghost use Rattle.std.specs.List.{list_any};
ghost use Rattle.qs_algebra.specs.inner.Flags.{flags_from};
ghost use Rattle.qs_algebra.specs.inner.Possible.{is_possible, is_possible_step, possible_in};

use crate::bound_columns::columns;
use crate::flags::{alike, either, flag};
use crate::mentioned::mentioned;
use qs_algebra_patterns::{Pattern, PatternNode, Step};
use std::alloc::{AllocError, Global};

/// Which variables some solution of the pattern may bind, by their numbers: those that are in scope of it (SPARQL 1.1 Query, 18.2.1).
///
/// # Errors
/// `AllocError` where memory runs out.
pub fn possible(alloc: Global, pattern: &Pattern) -> Result<Vec<bool>, AllocError>
    ensures { IfOk result (λ flags. flags.items ≡ flags_from (possible_in pattern.now) 0
        (length pattern.now.names)) }
{
    possible_of_node(alloc, pattern.names.len(), &pattern.root)
}

/// Which of `width` named variables a solution of a node may bind.
#[cycle(possible)]
fn possible_of_node(
    alloc: Global,
    width: usize,
    pattern: &PatternNode,
) -> Result<Vec<bool>, AllocError>
    ensures { IfOk result (λ flags. flags.items ≡ flags_from (is_possible width pattern.now) 0
        width) }
{
    match pattern {
        PatternNode::Basic(basic) => {
            let flags = mentioned(alloc, width, basic)?;
            Ok(flags)
        }
        PatternNode::Group(steps, _) => {
            let flags = possible_in_steps(alloc, width, steps.as_slice())?;
            Ok(flags)
        }
        PatternNode::Union(parts) => {
            let flags = possible_in_some(alloc, width, parts.as_slice())?;
            Ok(flags)
        }
        PatternNode::Graph(_, part) => {
            let flags = possible_of_node(alloc, width, part.get())?;
            Ok(flags)
        }
        PatternNode::EachGraph(variable, part) => {
            let mut flags = possible_of_node(alloc, width, part.get())?;
            flag(&mut flags, *variable);
            Ok(flags)
        }
        PatternNode::Values(table) => {
            let flags = columns(alloc, width, table.variables.as_slice())?;
            Ok(flags)
        }
    }
}

/// The variables that are possible in one of the steps.
#[cycle(possible)]
fn possible_in_steps(alloc: Global, width: usize, steps: &[Step]) -> Result<Vec<bool>, AllocError>
    ensures { IfOk result
        (λ flags. flags.items ≡ flags_from
        (λ v. list_any (λ s. is_possible_step width s v) steps.now) 0 width) }
{
    let mut flags = alike(alloc, width, false)?;
    for one in steps {
        let more = possible_of_step(alloc, width, one)?;
        flags = either(alloc, width, flags.as_slice(), more.as_slice())?;
    }
    Ok(flags)
}

/// The variables that the step may bind.
#[cycle(possible)]
fn possible_of_step(alloc: Global, width: usize, one: &Step) -> Result<Vec<bool>, AllocError>
    ensures { IfOk result (λ flags. flags.items ≡ flags_from (is_possible_step width one.now) 0
        width) }
{
    match one {
        Step::Join(part) => {
            let flags = possible_of_node(alloc, width, part)?;
            Ok(flags)
        }
        Step::LeftJoin(part, _) => {
            let flags = possible_of_node(alloc, width, part)?;
            Ok(flags)
        }
        Step::Minus(_) => {
            let flags = alike(alloc, width, false)?;
            Ok(flags)
        }
        Step::Extend(variable, _) => {
            let mut flags = alike(alloc, width, false)?;
            flag(&mut flags, *variable);
            Ok(flags)
        }
    }
}

/// The variables that are possible in one of the patterns.
#[cycle(possible)]
fn possible_in_some(
    alloc: Global,
    width: usize,
    parts: &[PatternNode],
) -> Result<Vec<bool>, AllocError>
    ensures { IfOk result
        (λ flags. flags.items ≡ flags_from
        (λ v. list_any (λ part. is_possible width part v) parts.now) 0 width) }
{
    let mut flags = alike(alloc, width, false)?;
    for part in parts {
        let more = possible_of_node(alloc, width, part)?;
        flags = either(alloc, width, flags.as_slice(), more.as_slice())?;
    }
    Ok(flags)
}
