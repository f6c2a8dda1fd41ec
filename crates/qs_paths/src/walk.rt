//! Closures from one end: a walk that goes on as far as it is asked for.

ghost use Rattle.std.specs.Prelude.{◌≡◌, ◌≢◌, ◌+◌, ◌<◌, ◌^◌, true, length, IfOk, OnOk};
ghost use Rattle.qs_syntax_tree.specs.declared.path.Repetition.TheVariants.{ZeroOrOne};
ghost use Rattle.qs_paths.specs.inner.State.{FindsNext, GivesWalked, Starts, walked_pair};

use crate::found::Found;
use crate::node::{NodePair, agrees};
use crate::paths::{begin, stepped};
use crate::source::Source;
use qs_syntax_ast::path::Path;
use qs_syntax_tree::path::Repetition;
use std::alloc::{AllocError, Global};

/// A closure under `*` or `+` from one end: what it led to, which of these were gone on from, and which were handed out. Backwards, it
/// follows the path from right to left.
#[derive(Drop)]
pub struct Walk<'a> {
    pub path: &'a Path,
    pub repetition: Repetition,
    pub backward: bool,
    pub start: u64,
    pub end: Option<u64>,
    pub found: Found,
    pub at: usize,
    pub given: usize,
}

/// A walk at its start.
pub fn started<'a, E: Source>(
    alloc: Global,
    edges: &E,
    path: &'a Path,
    repetition: Repetition,
    backward: bool,
    start: u64,
    end: Option<u64>,
) -> Result<Walk<'a>, AllocError>
    requires { repetition ≢ ZeroOrOne }
    ensures { IfOk result (λ w. Starts (E.known edges.now) (E.graph edges.now) path.now repetition
        backward start end w) }
{
    let mut found = Found::new(alloc);
    begin(alloc, edges, path, repetition, backward, start, &mut found)?;
    Ok(Walk {
        path,
        repetition,
        backward,
        start,
        end,
        found,
        at: 0,
        given: 0,
    })
}

/// Goes on from nodes that were found until there is one that wasn't handed out. Answers whether there is.
fn find_next<E: Source>(alloc: Global, edges: &E, walk: &mut Walk<'_>) -> Result<bool, AllocError>
    ensures goes { IfOk result (λ b. FindsNext (E.known edges.now) (E.graph edges.now) walk.old b
        walk.new) }
    ensures given { OnOk result (walk.new.given ≡ walk.old.given) }
    ensures ready { IfOk result
        (λ b. b ≡ true → walk.new.given < length walk.new.found.nodes.keys) }
    ensures small { IfOk result (λ b. b ≡ true → walk.new.given + 1 < 2 ^ 64) }
{
    'steps: while walk.given >= walk.found.len() {
        if walk.at >= walk.found.len() {
            return Ok(false);
        }
        let node = walk.found.node(walk.at);
        let next = stepped(alloc, edges, walk.path, walk.backward, node)?;
        walk.found.add_rights(next.as_slice())?;
        walk.at += 1;
    }
    Ok(true)
}

/// The pair of the walk with a node that it led to.
fn pair_with(walk: &Walk<'_>, node: u64) -> NodePair
    ensures { result ≡ walked_pair walk.now node }
{
    if walk.backward {
        NodePair {
            left: node,
            right: walk.start,
        }
    } else {
        NodePair {
            left: walk.start,
            right: node,
        }
    }
}

/// The next pair of the walk, each once.
#[inline(never)]
pub fn next_walked<E: Source>(
    alloc: Global,
    edges: &E,
    walk: &mut Walk<'_>,
) -> Result<Option<NodePair>, AllocError>
    ensures { IfOk result (λ o. GivesWalked (E.known edges.now) (E.graph edges.now) walk.old o
        walk.new) }
{
    'nodes: while find_next(alloc, edges, walk)? {
        let node = walk.found.node(walk.given);
        walk.given += 1;
        if agrees(walk.end, node) {
            return Ok(Some(pair_with(walk, node)));
        }
    }
    Ok(None)
}
