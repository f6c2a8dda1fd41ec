//! Sources of rows.

ghost use Rattle.std.specs.Prelude.{◌≡◌, IfOk, map, take};
ghost use Rattle.std.specs.List.{AllByRecursion};
ghost use Rattle.qs_algebra_patterns.specs.Eval.{all_hold};
ghost use Rattle.qs_expr.specs.inner.Cell.{row_solution, FitsRow};
ghost use Rattle.qs_expr.specs.inner.Condition.{IsPreparedFor};
ghost use Rattle.qs_expr.specs.inner.Scratch.{IsTable};
ghost use Rattle.qs_ops_walk.specs.inner.Setting.{known_of};
ghost use Rattle.qs_ops_walk.specs.inner.Works.{expr_of};
ghost use Rattle.qs_ops_walk.specs.inner.Coming.{GivesBranch, GivesItem, GivesSolution, attempted, item_if, level_items, FitsAttempt, FitsLevel};

use crate::reader::Reader;
use crate::spare::{keep, keep_if};
use crate::work::{Conditions, Starts};
use qs_base::Shared;
use qs_expr::{Row, Scratch};
use qs_ops_scans::{NameRows, PathRows, QuadRows, TripleRows};
use qs_ops_tables::Probe;
use qs_store::View;
use std::alloc::AllocError;

/// The merges of a row with kept rows; where no merge meets the conditions the row alone.
#[derive(Drop)]
pub(crate) struct Attempt<'a> {
    pub(crate) probe: Probe,
    pub(crate) conditions: Shared<Conditions<'a>>,
    pub(crate) alone: Option<Row>,
}

/// A row that goes through branches, one after another.
#[derive(Drop)]
pub(crate) struct Fork {
    pub(crate) row: Row,
    pub(crate) starts: Shared<Starts>,
    pub(crate) at: usize,
}

/// Rows that are still to come.
#[derive(Drop)]
pub(crate) enum Source<'a> {
    Given(Option<Row>),
    Triple(TripleRows<'a>),
    Quads(QuadRows<'a>),
    Names(NameRows),
    Path(PathRows),
    Probe(Probe),
    Optional(Attempt<'a>),
    Fork(Fork),
}

/// A source, and the position where its rows go on.
#[derive(Drop)]
pub(crate) struct Level<'a> {
    pub(crate) next: usize,
    pub(crate) source: Source<'a>,
}

/// A row, and the position where it goes on.
#[derive(Drop)]
pub(crate) struct Item {
    pub(crate) next: usize,
    pub(crate) row: Row,
}

/// Whether the conditions are true of the row's named variables.
fn all_hold<V: View>(
    reader: &Reader<'_, V>,
    conditions: &Conditions<'_>,
    row: &Row,
    scratch: &Scratch,
    spare: &mut Vec<Row>,
) -> Result<bool, AllocError>
    requires prepared { AllByRecursion (IsPreparedFor (known_of reader.now))
        conditions.now.list.items }
    requires table { IsTable (known_of reader.now) scratch.now }
    requires row { FitsRow (known_of reader.now) scratch.now row.now }
    ensures { IfOk result (λ b. b ≡ all_hold (map expr_of conditions.now.list.items)
        (take reader.now.width (row_solution (known_of reader.now) scratch.now row.now))) }
{
    for condition in &conditions.list {
        if !reader.holds(condition, row, scratch, spare)? {
            return Ok(false);
        }
    }
    Ok(true)
}

/// The next merge that meets the conditions, or the row alone.
fn next_of_attempt<V: View>(
    reader: &Reader<'_, V>,
    scratch: &Scratch,
    attempt: &mut Attempt<'_>,
    spare: &mut Vec<Row>,
) -> Result<Option<Row>, AllocError>
    requires table { IsTable (known_of reader.now) scratch.now }
    requires fits { FitsAttempt (known_of reader.now) scratch.now attempt.old }
    ensures gives { IfOk result (λ o. GivesSolution (known_of reader.now) scratch.now
        (attempted reader.now scratch.now attempt.old) o
        (attempted reader.now scratch.now attempt.new)) }
    ensures fits { FitsAttempt (known_of reader.now) scratch.now attempt.new }
{
    loop {
        let Some(row) = attempt.probe.next(reader.alloc, spare)? else {
            return Ok(attempt.alone.take());
        };
        if all_hold(reader, attempt.conditions.get(), &row, scratch, spare)? {
            keep_if(spare, attempt.alone.take());
            return Ok(Some(row));
        }
        keep(spare, row);
    }
}

/// The row before its next branch.
fn next_of_fork<V: View>(
    reader: &Reader<'_, V>,
    fork: &mut Fork,
    spare: &mut Vec<Row>,
) -> Result<Option<Item>, AllocError>
    ensures gives { IfOk result (λ o. GivesBranch fork.old o fork.new) }
    ensures row { fork.new.row ≡ fork.old.row }
    ensures starts { fork.new.starts ≡ fork.old.starts }
{
    let Some(start) = fork.starts.get().list.get(fork.at) else {
        return Ok(None);
    };
    let next = *start;
    let row = fork.row.copy(reader.alloc, spare)?;
    fork.at += 1;
    Ok(Some(Item { next, row }))
}

fn going(next: usize, row: Option<Row>) -> Option<Item>
    ensures { result ≡ item_if next row }
{
    match row {
        Some(row) => Some(Item { next, row }),
        None => None,
    }
}

/// The next row of the level.
pub(crate) fn next_of<V: View>(
    reader: &Reader<'_, V>,
    scratch: &Scratch,
    level: &mut Level<'_>,
    spare: &mut Vec<Row>,
) -> Result<Option<Item>, AllocError>
    requires table { IsTable (known_of reader.now) scratch.now }
    requires fits { FitsLevel (known_of reader.now) scratch.now level.old }
    ensures gives { IfOk result
        (λ o. GivesItem reader.now scratch.now (level_items reader.now scratch.now level.old) o
        (level_items reader.now scratch.now level.new)) }
    ensures fits { IfOk result (λ o. FitsLevel (known_of reader.now) scratch.now level.new) }
{
    let row = match &mut level.source {
        Source::Given(row) => row.take(),
        Source::Triple(rows) => rows.next(reader.alloc, spare)?,
        Source::Quads(rows) => rows.next(reader.alloc, spare)?,
        Source::Names(rows) => rows.next(reader.alloc, spare)?,
        Source::Path(rows) => rows.next(reader.alloc, spare)?,
        Source::Probe(rows) => rows.next(reader.alloc, spare)?,
        Source::Optional(attempt) => next_of_attempt(reader, scratch, attempt, spare)?,
        Source::Fork(fork) => {
            let item = next_of_fork(reader, fork, spare)?;
            return Ok(item);
        }
    };
    Ok(going(level.next, row))
}

/// Keeps the memory of the rows of a source.
pub(crate) fn drop_source(source: Source<'_>, spare: &mut Vec<Row>) {
    match source {
        Source::Given(row) => keep_if(spare, row),
        Source::Triple(rows) => keep(spare, rows.into_row()),
        Source::Quads(rows) => keep(spare, rows.into_row()),
        Source::Names(rows) => keep(spare, rows.into_row()),
        Source::Path(rows) => keep(spare, rows.into_row()),
        Source::Probe(probe) => keep(spare, probe.into_row()),
        Source::Optional(attempt) => {
            keep_if(spare, attempt.alone);
            keep(spare, attempt.probe.into_row());
        }
        Source::Fork(fork) => keep(spare, fork.row),
    }
}
