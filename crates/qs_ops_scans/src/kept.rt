//! The pairs of a path pattern, kept.

ghost use Rattle.std.specs.Prelude.{◌≡◌, ◌++◌, false, IfOk, IfSome};
ghost use Rattle.std.specs.List.Sorted.{IsNonDecreasingBy};
ghost use Rattle.qs_terms.specs.Bag.{SameBag};
ghost use Rattle.qs_store.specs.inner.ActiveGraph.{active_graph};
ghost use Rattle.qs_algebra_patterns.specs.Basic.{end_of};
ghost use Rattle.qs_expr.specs.inner.Cell.{FitsIf, denoted_if};
ghost use Rattle.qs_expr.specs.inner.Scratch.{Grows, IsTable};
ghost use Rattle.qs_paths.specs.inner.Coming.{AreAll};
ghost use Rattle.qs_plan_meaning.specs.inner.Scans.{path_pairs};
ghost use Rattle.qs_ops_scans.specs.inner.Paths.{ArePairs};
ghost use Rattle.qs_ops_scans.specs.inner.Kept.{AreCollected, IsTaken, kept_with};
ghost use Rattle.qs_ops_scans.specs.inner.Sides.{cell_key, end_at, side_key, IsSpan, IsSpanOf};

use crate::ends::{Ends, bound_cell, ends_of, is_repeated};
use qs_algebra_patterns::{PathPattern, Slot};
use qs_base::drop_value;
use qs_expr::{Cell, Row, Scratch, intern, is_same};
use qs_paths::{Pairs, pairs};
use qs_store::{Active, View};
use qs_terms::QFault;
use std::alloc::{AllocError, Global};
use std::marker::Model;

/// One end of a pair.
#[derive(Clone, Copy)]
pub enum Side {
    Subject,
    Object,
}

/// The pairs of cells of a path pattern, which may ascend by one end; contracts see their list.
#[derive(Drop)]
pub struct PathPairs {
    pub(crate) cells: Vec<(Cell, Cell)>,
    pub(crate) order: Option<Side>,
}

impl Model for PathPairs {
    ghost use Rattle.std.specs.Prelude.{List};
    ghost use Rattle.qs_expr.specs.declared.cell.Cell.{Cell};
    ghost use Rattle.qs_ops_scans.specs.inner.Sides.{IsInOrder};

    ghost Value = { List (Cell × Cell) };

    ghost view = { λ p. p.cells.items };

    ghost invariant = { λ p. IsInOrder p.order p.cells.items };
}

/// Puts the pair after the others; where both ends are to be one term, only if they are.
fn keep(kept: &mut Vec<(Cell, Cell)>, repeated: bool, cells: (Cell, Cell)) -> Result<(), AllocError>
    ensures { IfOk result (λ u. kept.new.items ≡ kept_with repeated kept.old.items cells) }
{
    if !repeated || is_same(cells.0, cells.1) {
        kept.push(cells)?;
    }
    Ok(())
}

/// Whether there was a next pair, which is put after the others as `keep` does.
fn take_next<V: View>(
    pairs: &mut Pairs<'_, V>,
    kept: &mut Vec<(Cell, Cell)>,
    repeated: bool,
) -> Result<bool, AllocError>
    ensures { IfOk result (λ taken. IsTaken V.content V.default_seen repeated pairs.old
        kept.old.items taken pairs.new kept.new.items) }
{
    match pairs.next() {
        None => Ok(false),
        Some(Ok(cells)) => {
            keep(kept, repeated, cells)?;
            Ok(true)
        }
        Some(Err(QFault::Memory)) => Err(AllocError),
        Some(Err(_)) => unreachable!(),
    }
}

/// All pairs that are still to come, where they were found whole, and both ends needn't be one term.
fn rest_if<V: View>(
    pairs: &Pairs<'_, V>,
    repeated: bool,
) -> Result<Option<Vec<(Cell, Cell)>>, AllocError>
    ensures any { IfOk result (λ o. IfSome o (λ rest. repeated ≡ false)) }
    ensures all { IfOk result
        (λ o. IfSome o (λ rest. AreAll V.content V.default_seen pairs.now rest.items)) }
{
    if repeated {
        return Ok(None);
    }
    pairs.rest_found()
}

/// The pairs of both lists.
fn joined(
    first: Vec<(Cell, Cell)>,
    second: Vec<(Cell, Cell)>,
) -> Result<Vec<(Cell, Cell)>, AllocError>
    ensures { IfOk result (λ both. both.items ≡ first.items ++ second.items) }
{
    let mut both = first;
    let mut second = second;
    both.append(&mut second)?;
    Ok(both)
}

/// The pairs that are still to come, of which those are kept whose ends are one term, where they are to be. So many pairs as there are
/// steps of the loop fit no memory.
fn collected<V: View>(
    alloc: Global,
    pairs: &mut Pairs<'_, V>,
    repeated: bool,
) -> Result<Vec<(Cell, Cell)>, AllocError>
    ensures { IfOk result (λ kept. AreCollected V.content V.default_seen pairs.old repeated
        kept.items) }
{
    let mut kept = Vec::new(alloc);
    'pairs: for _at in 0..u64::MAX {
        if !take_next(pairs, &mut kept, repeated)? {
            return Ok(kept);
        }
        if let Some(rest) = rest_if(pairs, repeated)? {
            return joined(rest, kept);
        }
    }
    Err(AllocError)
}

/// The pairs that are still to come, as `collected` keeps them.
pub(crate) fn all_collected<V: View>(
    alloc: Global,
    pairs: Pairs<'_, V>,
    repeated: bool,
) -> Result<Vec<(Cell, Cell)>, AllocError>
    ensures { IfOk result (λ kept. AreCollected V.content V.default_seen pairs.entry repeated
        kept.items) }
{
    let mut pairs = pairs;
    let kept = collected(alloc, &mut pairs, repeated);
    drop_value(pairs);
    kept
}

/// The cell of an end that is a term; none where it is a variable, which is open.
pub(crate) fn end_cell<V: View>(
    view: &V,
    slot: &Slot,
    scratch: &mut Scratch,
) -> Result<Option<Cell>, AllocError>
    requires { IsTable (V.content view.now).known scratch.old }
    ensures grows { Grows (V.content view.now).known scratch.old scratch.new }
    ensures is { IfOk result (λ o. denoted_if (V.content view.now).known scratch.new o
        ≡ end_of slot.now) }
    ensures fits { IfOk result (λ o. FitsIf (V.content view.now).known scratch.new o) }
{
    match slot {
        Slot::Term(term) => {
            let cell = intern(term.get(), view, scratch)?;
            Ok(Some(cell))
        }
        Slot::Variable(_) => Ok(None),
    }
}

fn cell_key(cell: Cell) -> u64
    ensures { result ≡ cell_key cell }
{
    match cell {
        Cell::Known(number) => number as u64,
        Cell::Scratch(place) => place,
    }
}

/// What pairs ascend by. Equal cells have equal keys.
fn side_key(side: Side, cells: &(Cell, Cell)) -> u64
    ensures { result ≡ side_key side cells.now }
{
    match side {
        Side::Subject => cell_key(cells.0),
        Side::Object => cell_key(cells.1),
    }
}

fn sort_by(cells: &mut [(Cell, Cell)], side: Side)
    ensures same { SameBag cells.old cells.new }
    ensures order { IsNonDecreasingBy (side_key side) cells.new }
{
    cells.sort_unstable_by_key(|cells| side_key(side, cells));
}

/// The pairs, so that they ascend by this end, if one is given.
fn in_order(mut cells: Vec<(Cell, Cell)>, order: Option<Side>) -> PathPairs
    ensures { SameBag cells.items result }
{
    if let Some(side) = order {
        sort_by(cells.as_mut_slice(), side);
    }
    PathPairs { cells, order }
}

/// The pairs, as they are.
pub(crate) fn unordered(cells: Vec<(Cell, Cell)>) -> PathPairs
    ensures { result ≡ cells.items }
{
    PathPairs { cells, order: None }
}

fn end_at(ends: &Ends, side: Side) -> Option<usize>
    ensures { result ≡ end_at ends.now side }
{
    match side {
        Side::Subject => ends.subject,
        Side::Object => ends.object,
    }
}

/// The end whose variable is bound in the row, if one is.
fn bound_side(ends: &Ends, row: &Row) -> Option<Side> {
    if bound_cell(row, ends.subject).is_some() {
        Some(Side::Subject)
    } else if bound_cell(row, ends.object).is_some() {
        Some(Side::Object)
    } else {
        None
    }
}

/// The places from `from` up to `to`.
#[derive(Clone, Copy)]
pub struct Span {
    pub from: usize,
    pub to: usize,
}

/// The places of the pairs with this key among pairs that ascend.
fn span_of(cells: &[(Cell, Cell)], side: Side, key: u64) -> Span
    requires { IsNonDecreasingBy (side_key side) cells.now }
    ensures { IsSpanOf side key cells.now result }
{
    let from = cells.partition_point(|cells| side_key(side, cells) < key);
    let to = cells.partition_point(|cells| side_key(side, cells) <= key);
    Span { from, to }
}

/// Places outside of which no pair agrees with the row.
pub(crate) fn span_for(pairs: &PathPairs, ends: &Ends, row: &Row) -> Span
    ensures { IsSpan ends.now row.now pairs.now result }
{
    let whole = Span {
        from: 0,
        to: pairs.cells.len(),
    };
    let Some(side) = pairs.order else {
        return whole;
    };
    match bound_cell(row, end_at(ends, side)) {
        Some(cell) => span_of(pairs.cells.as_slice(), side, cell_key(cell)),
        None => whole,
    }
}

/// The pairs of the path pattern in the graph; an end that is a variable is open, and the terms of the text at the ends have cells of the
/// table (SPARQL 1.1 Query, 9 and 18.4). They are soon found for rows that bind the end that this row binds.
///
/// # Errors
/// Out of memory. The table may then have a term more.
pub fn path_pairs<V: View>(
    alloc: Global,
    view: &V,
    graph: Active,
    pattern: &PathPattern,
    row: &Row,
    scratch: &mut Scratch,
) -> Result<PathPairs, AllocError>
    requires { IsTable (V.content view.now).known scratch.old }
    ensures grows { Grows (V.content view.now).known scratch.old scratch.new }
    ensures pairs { IfOk result (λ kept. ArePairs (V.content view.now).known scratch.new kept
        (path_pairs pattern.now (active_graph (V.content view.now) (V.default_seen view.now)
        graph))) }
{
    let left = end_cell(view, &pattern.subject, scratch)?;
    let right = end_cell(view, &pattern.object, scratch)?;
    let found = pairs(alloc, view, graph, pattern.path.get(), left, right);
    let cells = all_collected(alloc, found, is_repeated(&pattern.subject, &pattern.object))?;
    Ok(in_order(cells, bound_side(&ends_of(pattern), row)))
}
