//! Rows to come that are passed over: they have the same terms at some variables as a row that was given. A source binds what the row binds of
//! which it was opened, and no stage changes it. So where that row has the terms, all rows of the source have them, whatever comes of them.
//! Of a triple pattern's rows those that bind the terms are passed over by a search, where the triples that make them follow one another.

ghost use Rattle.std.specs.Prelude.{◌≡◌, ◌<◌, true, false, Some, IfSome};
ghost use Rattle.std.specs.List.{AllByRecursion};
ghost use Rattle.qs_ops_program.specs.inner.Flow.{is_union};
ghost use Rattle.qs_plan.specs.inner.Certain.{Keeps};
ghost use Rattle.qs_ops_walk.specs.declared.source.Source.TheVariants as origin;
ghost use Rattle.qs_ops_walk.specs.inner.Alike.{HasCommon, IsLastAlike, IsSourceAlike, KeepsAll, PassesLast, SharesCell, SkipsAlike};

use crate::source::{Attempt, Level, Source};
use crate::walk::{Walk, end_last};
use crate::work::Place;
use qs_expr::{Cell, Row, is_same};
use qs_plan_meaning::Stage;

// ---- what the rows of a source have in common

/// The cell, if both are this one.
fn if_both(a: Option<Cell>, b: Option<Cell>) -> Option<Cell>
    ensures first { IfSome result (λ c. a ≡ Some c) }
    ensures second { IfSome result (λ c. b ≡ Some c) }
{
    match (a, b) {
        (Some(cell), Some(other)) if is_same(cell, other) => Some(cell),
        _ => None,
    }
}

fn common_of_attempt(attempt: &Attempt<'_>, variable: usize) -> Option<Cell>
    ensures { IfSome result (HasCommon variable (origin.Optional attempt.now)) }
{
    let merged = attempt.probe.common_cell(variable);
    match &attempt.alone {
        Some(row) => if_both(row.cell(variable), merged),
        None => merged,
    }
}

/// The cell that all rows of the source have at the variable, as far as it is known.
fn common_cell(source: &Source<'_>, variable: usize) -> Option<Cell>
    ensures { IfSome result (HasCommon variable source.now) }
{
    match source {
        Source::Given(None) => None,
        Source::Given(Some(row)) => row.cell(variable),
        Source::Triple(rows) => rows.common_cell(variable),
        Source::Quads(rows) => rows.common_cell(variable),
        Source::Names(rows) => rows.common_cell(variable),
        Source::Path(rows) => rows.common_cell(variable),
        Source::Probe(rows) => rows.common_cell(variable),
        Source::Optional(attempt) => common_of_attempt(attempt, variable),
        Source::Fork(fork) => fork.row.cell(variable),
    }
}

/// Whether the variable is named, and all rows of the source have the row's cell there.
fn shares_cell(source: &Source<'_>, variable: usize, width: usize, row: &Row) -> bool
    ensures { result ≡ true → SharesCell width row.now source.now variable }
{
    if width <= variable {
        return false;
    }
    if_both(row.cell(variable), common_cell(source, variable)).is_some()
}

fn shares_cells(source: &Source<'_>, columns: &[usize], width: usize, row: &Row) -> bool
    ensures { result ≡ true → AllByRecursion (SharesCell width row.now source.now) columns.now }
{
    for column in columns {
        if !shares_cell(source, *column, width, row) {
            return false;
        }
    }
    true
}

/// Whether the source has no row, or all its rows have the row's cells at these named variables.
fn is_alike(source: &Source<'_>, columns: &[usize], width: usize, row: &Row) -> bool
    ensures { result ≡ true → IsSourceAlike width columns.now row.now source.now }
{
    match source {
        Source::Given(None) => true,
        _ => shares_cells(source, columns, width, row),
    }
}

fn is_last_alike(levels: &[Level<'_>], columns: &[usize], width: usize, row: &Row) -> bool
    ensures { result ≡ true → IsLastAlike width columns.now row.now levels.now }
{
    match levels.last() {
        Some(level) => is_alike(&level.source, columns, width, row),
        None => false,
    }
}

// ---- what stages keep

/// Whether the stage, if it isn't a union, keeps what a row binds to the variable.
fn keeps(stage: &Stage, variable: usize) -> bool
    ensures { result ≡ true → is_union stage.now ≡ false → Keeps variable stage.now }
{
    match stage {
        Stage::Triple(_, _) => true,
        Stage::Path(_, _) => true,
        Stage::Exists(_) => true,
        Stage::Names(register) => *register != variable,
        Stage::Name(_, _) => true,
        Stage::Filter(_) => true,
        Stage::Bind(other, _) => *other != variable,
        Stage::Values(_) => true,
        Stage::Union(_) => true,
        Stage::Optional(_, _, _) => true,
        Stage::Fed(_, _) => true,
        Stage::Minus(_, _) => true,
        Stage::Apart(_, _) => true,
    }
}

fn keeps_all(stage: &Stage, columns: &[usize]) -> bool
    ensures { result ≡ true → KeepsAll columns.now stage.now }
{
    for column in columns {
        if !keeps(stage, *column) {
            return false;
        }
    }
    true
}

/// Whether no stage of the program changes what a row binds to these variables.
fn are_kept(places: &[Place<'_>], columns: &[usize]) -> bool
    ensures { result ≡ true → AllByRecursion (λ p. KeepsAll columns.now p.instr.stage) places.now }
{
    for place in places {
        if !keeps_all(place.instr.stage(), columns) {
            return false;
        }
    }
    true
}

// ---- levels that are passed over

/// Takes the last levels away, as long as all rows of the last one have the row's cells at these named variables.
fn end_alike(walk: &mut Walk<'_>, columns: &[usize], width: usize, row: &Row)
    requires { AllByRecursion (λ p. KeepsAll columns.now p.instr.stage) walk.old.places.items }
    ensures places { walk.new.places ≡ walk.old.places }
    ensures skips { SkipsAlike width walk.old.places.items columns.now row.now walk.old.levels.items
        walk.new.levels.items }
{
    'levels: while is_last_alike(walk.levels.as_slice(), columns, width, row) {
        end_last(&mut walk.levels, &mut walk.spare);
    }
}

// ---- rows of the last level that are passed over

fn is_last_of_triples(levels: &[Level<'_>]) -> bool {
    match levels.last() {
        Some(level) => match &level.source {
            Source::Triple(_) => true,
            _ => false,
        },
        None => false,
    }
}

fn are_named(columns: &[usize], width: usize) -> bool
    ensures { result ≡ true → AllByRecursion (λ v. v < width) columns.now }
{
    for column in columns {
        if width <= *column {
            return false;
        }
    }
    true
}

/// Passes over rows that the last level gives, where it is of a triple pattern: some that have the row's cells at these variables.
fn pass_last(levels: &mut Vec<Level<'_>>, columns: &[usize], row: &Row)
    ensures { PassesLast columns.now row.now levels.old.items levels.new.items }
{
    let Some(level) = levels.last_mut() else {
        return;
    };
    if let Source::Triple(rows) = &mut level.source {
        rows.skip_alike(columns, row);
    }
}

/// Passes over rows that the last level gives and that have the row's cells at these variables, if these are named.
fn pass_alike(walk: &mut Walk<'_>, columns: &[usize], width: usize, row: &Row)
    requires { AllByRecursion (λ p. KeepsAll columns.now p.instr.stage) walk.old.places.items }
    ensures places { walk.new.places ≡ walk.old.places }
    ensures skips { SkipsAlike width walk.old.places.items columns.now row.now walk.old.levels.items
        walk.new.levels.items }
{
    if are_named(columns, width) {
        pass_last(&mut walk.levels, columns, row);
    }
}

/// Passes over rows to come that have the row's terms at these variables, where the sources tell so. No row is made.
pub(crate) fn skip_alike(walk: &mut Walk<'_>, columns: &[usize], width: usize, row: &Row)
    ensures places { walk.new.places ≡ walk.old.places }
    ensures skips { SkipsAlike width walk.old.places.items columns.now row.now walk.old.levels.items
        walk.new.levels.items }
{
    // The stages are looked at where rows can be passed over alone.
    let levels = walk.levels.as_slice();
    if !is_last_of_triples(levels) && !is_last_alike(levels, columns, width, row) {
        return;
    }
    if !are_kept(walk.places.as_slice(), columns) {
        return;
    }
    end_alike(walk, columns, width, row);
    pass_alike(walk, columns, width, row);
}
