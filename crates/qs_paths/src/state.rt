//! The ways in which pairs are found: whole, as a scan finds them, or as a walk does. Paths are followed over the numbers of terms: no term of
//! a node is read.

ghost use Rattle.std.specs.Prelude.{◌≡◌, ◌≢◌, List, None, Some, drop, IfNone, IfOk, IfSome, IsErr};
ghost use Rattle.qs_terms.specs.declared.term.Term.{Term};
ghost use Rattle.qs_paths_meaning.specs.Steps.{Graph};
ghost use Rattle.qs_syntax_ast.specs.declared.path.Path.TheVariants as path_is;
ghost use Rattle.qs_syntax_tree.specs.declared.path.Repetition.TheVariants.{ZeroOrOne};
ghost use Rattle.qs_paths.specs.declared.state.State.TheVariants as state_is;
ghost use Rattle.qs_paths.specs.inner.Seen.{graph_in, known_in};
ghost use Rattle.qs_paths.specs.inner.State.{GivesLeft, GivesRow, Opens, OpensAt};

use crate::node::NodePair;
use crate::paths::pairs_of_nodes;
use crate::seen::Seen;
use crate::stretch::{Stretch, next_of_stretch, of_iri, of_set};
use crate::walk::{Walk, next_walked, started};
use qs_store::View;
use qs_syntax_ast::path::Path;
use qs_syntax_tree::path::Repetition;
use std::alloc::{AllocError, Global};

/// What was asked for.
#[derive(Drop)]
pub struct Request<'a> {
    pub path: &'a Path,
    pub left: Option<u64>,
    pub right: Option<u64>,
}

/// Pairs that were found whole, and how many of them were handed out.
#[derive(Drop)]
pub struct Rows {
    pub rows: Vec<NodePair>,
    pub at: usize,
}

/// Where the next pair comes from.
#[derive(Drop)]
pub enum State<'a> {
    Whole(Rows),
    Edges(Stretch<'a>),
    Walked(Walk<'a>),
    Failed,
}

/// A state, and whether its pairs are turned: for the inverse of a path.
#[derive(Drop)]
pub struct Opened<'a> {
    pub state: State<'a>,
    pub turned: bool,
}

/// The state at the start of what was asked for. The inverse of a path is read as the path, with its ends exchanged.
pub fn start_of<'a, V: View>(
    alloc: Global,
    edges: &Seen<'a, V>,
    request: &Request<'a>,
) -> Result<Opened<'a>, AllocError>
    ensures { IfOk result
        (λ o. Opens (known_in V.content edges.now) (graph_in V.content V.default_seen edges.now)
        request.now o.turned o.state) }
{
    match request.path {
        Path::Inverse(inner) => {
            let state = start_at(alloc, edges, inner.get(), request.right, request.left)?;
            Ok(Opened {
                state,
                turned: true,
            })
        }
        path => {
            let state = start_at(alloc, edges, path, request.left, request.right)?;
            Ok(Opened {
                state,
                turned: false,
            })
        }
    }
}

/// The state at the start of a path.
fn start_at<'a, V: View>(
    alloc: Global,
    edges: &Seen<'a, V>,
    path: &'a Path,
    left: Option<u64>,
    right: Option<u64>,
) -> Result<State<'a>, AllocError>
    ensures { IfOk result
        (λ s. OpensAt (known_in V.content edges.now) (graph_in V.content V.default_seen edges.now)
        path.now left right s) }
{
    match path {
        Path::Iri(iri) => {
            let stretch = of_iri(alloc, edges, iri, left, right)?;
            Ok(State::Edges(stretch))
        }
        Path::NegatedSet(members) => {
            let stretch = of_set(alloc, edges, members.as_slice(), left, right)?;
            Ok(State::Edges(stretch))
        }
        Path::Repeated(inner, Repetition::ZeroOrMore) => {
            closure_at(
                alloc,
                edges,
                path,
                inner.get(),
                Repetition::ZeroOrMore,
                left,
                right,
            )
        }
        Path::Repeated(inner, Repetition::OneOrMore) => {
            closure_at(
                alloc,
                edges,
                path,
                inner.get(),
                Repetition::OneOrMore,
                left,
                right,
            )
        }
        _ => whole(alloc, edges, path, left, right),
    }
}

/// The state at the start of a closure: a walk, where an end is given.
fn closure_at<'a, V: View>(
    alloc: Global,
    edges: &Seen<'a, V>,
    path: &'a Path,
    inner: &'a Path,
    repetition: Repetition,
    left: Option<u64>,
    right: Option<u64>,
) -> Result<State<'a>, AllocError>
    requires path { path.now ≡ path_is.Repeated inner.now repetition }
    requires closing { repetition ≢ ZeroOrOne }
    ensures { IfOk result
        (λ s. OpensAt (known_in V.content edges.now) (graph_in V.content V.default_seen edges.now)
        path.now left right s) }
{
    match (left, right) {
        (Some(start), _) => {
            let walk = started(alloc, edges, inner, repetition, false, start, right)?;
            Ok(State::Walked(walk))
        }
        (None, Some(start)) => {
            let walk = started(alloc, edges, inner, repetition, true, start, None)?;
            Ok(State::Walked(walk))
        }
        (None, None) => whole(alloc, edges, path, left, right),
    }
}

/// All pairs of a path.
fn whole<'a, V: View>(
    alloc: Global,
    edges: &Seen<'a, V>,
    path: &Path,
    left: Option<u64>,
    right: Option<u64>,
) -> Result<State<'a>, AllocError>
    ensures { IfOk result
        (λ s. OpensAt (known_in V.content edges.now) (graph_in V.content V.default_seen edges.now)
        path.now left right s) }
{
    let rows = pairs_of_nodes(alloc, edges, path, left, right)?;
    Ok(State::Whole(Rows { rows, at: 0 }))
}

/// Those of the pairs that weren't handed out yet.
pub fn rest_of(rows: &Rows) -> &[NodePair]
    ensures { result.now ≡ drop rows.now.at rows.now.rows.items }
{
    match rows.rows.as_slice().get(rows.at..) {
        Some(rest) => rest,
        None => &[],
    }
}

/// The next of the pairs that were found whole.
#[inline(always)]
fn next_row(rows: &mut Rows) -> Option<NodePair>
    ensures gives { GivesRow rows.old result rows.new }
    ensures none { IfNone result (rows.new ≡ rows.old) }
{
    let pair = *rows.rows.get(rows.at)?;
    rows.at += 1;
    Some(pair)
}

/// The next of the pairs that were found whole, where they were.
#[inline(always)]
fn next_whole(state: &mut State<'_>) -> Option<NodePair>
    ensures some { IfSome result (λ e. (known : List Term) (graph : Graph)
        → GivesLeft known graph state.old (Some e) state.new) }
    ensures whole { IfSome result (λ e. state.old ≢ state_is.Failed) }
    ensures none { IfNone result (state.new ≡ state.old) }
{
    match state {
        State::Whole(rows) => next_row(rows),
        _ => None,
    }
}

/// The next of the pairs that were found whole, where all was opened before.
#[inline(always)]
pub fn next_found(request: &Option<Request<'_>>, state: &mut State<'_>) -> Option<NodePair>
    ensures asked { IfSome result (λ e. request.now ≡ None) }
    ensures some { IfSome result (λ e. (known : List Term) (graph : Graph)
        → GivesLeft known graph state.old (Some e) state.new) }
    ensures whole { IfSome result (λ e. state.old ≢ state_is.Failed) }
    ensures none { IfNone result (state.new ≡ state.old) }
{
    match request {
        None => next_whole(state),
        Some(_) => None,
    }
}

/// The next pair. A state that failed fails again.
#[inline(always)]
pub fn next_of_state<'a, V: View>(
    alloc: Global,
    edges: &Seen<'a, V>,
    state: &mut State<'a>,
) -> Result<Option<NodePair>, AllocError>
    ensures gives { IfOk result
        (λ o. GivesLeft (known_in V.content edges.now) (graph_in V.content V.default_seen edges.now)
        state.old o state.new) }
    ensures failed { state.old ≡ state_is.Failed → IsErr result }
{
    match state {
        State::Whole(rows) => Ok(next_row(rows)),
        State::Edges(stretch) => next_of_stretch(alloc, edges, stretch),
        State::Walked(walk) => next_walked(alloc, edges, walk),
        State::Failed => Err(AllocError),
    }
}
