//! The pairs of a path that serve the rows with some cells at its ends.

ghost use Rattle.std.specs.Prelude.{◌≡◌, ◌↔◌, IsTrue, IfOk, Some};
ghost use Rattle.qs_store.specs.inner.ActiveGraph.{active_graph};
ghost use Rattle.qs_expr.specs.inner.Cell.{FitsIf};
ghost use Rattle.qs_expr.specs.inner.Scratch.{Grows, IsTable};
ghost use Rattle.qs_ops_scans.specs.inner.Paths.{Serve};
ghost use Rattle.qs_ops_scans.specs.inner.Given.{IsGiven};

use crate::bound::RowEnds;
use crate::ends::is_repeated;
use crate::kept::{PathPairs, all_collected, end_cell, unordered};
use crate::nodes::is_node;
use qs_algebra_patterns::PathPattern;
use qs_expr::{Cell, Scratch, is_same};
use qs_paths::pairs;
use qs_store::{Active, View};
use std::alloc::{AllocError, Global};

fn is_at(end: Option<Cell>, cell: Cell) -> bool
    ensures { IsTrue result ↔ (end ≡ Some cell) }
{
    match end {
        Some(other) => is_same(other, cell),
        None => false,
    }
}

/// The end that a path is given: what the text gives, or the row's cell where it is a node; none where no pair has that cell. A term that
/// is no node is never given to a path: no pair leads from it, but to itself where the text gives it at the other end. The end is left open
/// then.
fn given_end<V: View>(
    view: &V,
    graph: Active,
    text: Option<Cell>,
    other: Option<Cell>,
    bound: Option<Cell>,
) -> Option<Option<Cell>>
    ensures { IsGiven (V.content view.now).known
        (active_graph (V.content view.now) (V.default_seen view.now) graph) text other bound
        result }
{
    if text.is_some() {
        return Some(text);
    }
    let Some(cell) = bound else {
        return Some(text);
    };
    if is_node(view, graph, cell) {
        return Some(bound);
    }
    if is_at(other, cell) {
        return Some(text);
    }
    None
}

/// Pairs that serve the rows with these cells at the ends of the path pattern, in the graph (SPARQL 1.1 Query, 9 and 18.4): a walk from or
/// to them finds them, and no other part of the graph is looked at. The terms of the text at the ends have cells of the table.
///
/// # Errors
/// Out of memory. The table may then have a term more.
pub fn fed_pairs<V: View>(
    alloc: Global,
    view: &V,
    graph: Active,
    pattern: &PathPattern,
    ends: RowEnds,
    scratch: &mut Scratch,
) -> Result<PathPairs, AllocError>
    requires table { IsTable (V.content view.now).known scratch.old }
    requires subject { FitsIf (V.content view.now).known scratch.old ends.subject }
    requires object { FitsIf (V.content view.now).known scratch.old ends.object }
    ensures grows { Grows (V.content view.now).known scratch.old scratch.new }
    ensures serve { IfOk result (λ kept. Serve (V.content view.now).known scratch.new pattern.now
        (active_graph (V.content view.now) (V.default_seen view.now) graph) ends kept) }
{
    let left = end_cell(view, &pattern.subject, scratch)?;
    let right = end_cell(view, &pattern.object, scratch)?;
    let Some(subject) = given_end(view, graph, left, right, ends.subject) else {
        return Ok(unordered(Vec::new(alloc)));
    };
    let Some(object) = given_end(view, graph, right, left, ends.object) else {
        return Ok(unordered(Vec::new(alloc)));
    };
    let found = pairs(alloc, view, graph, pattern.path.get(), subject, object);
    let cells = all_collected(alloc, found, is_repeated(&pattern.subject, &pattern.object))?;
    Ok(unordered(cells))
}
