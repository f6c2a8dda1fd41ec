//! The walk through a program: one loop over a stack of levels.

ghost use Rattle.std.specs.Prelude.{◌≡◌, ◌≤◌, ◌<◌, ◌-◌, true, List, None, Ok, IfOk, IfNone, IfSome, IsSome, false, length, map, suc, take, get_or, vec_len};
ghost use Rattle.qs_terms.specs.Bag.{SameBag};
ghost use Rattle.qs_terms.specs.declared.term.Term.{Term as TermValue};
ghost use Rattle.qs_expr.specs.inner.Cell.{row_solution, FitsRow};
ghost use Rattle.qs_expr.specs.inner.Scratch.{IsTable, Grows};
ghost use Rattle.qs_ops_program.specs.inner.Heights.{stages_height};
ghost use Rattle.qs_ops_tables.specs.inner.Tables.{FitRows, row_solutions};
ghost use Rattle.qs_plan_meaning.specs.inner.Stages.{fed_rows};
ghost use Rattle.qs_ops_walk.specs.inner.Setting.{known_of, through_in};
ghost use Rattle.qs_ops_walk.specs.inner.Works.{IsReady, IsRight, Serves, code_of, heights_of, only_cells, IsAside, name_at};
ghost use Rattle.qs_ops_walk.specs.inner.Coming.{coming};
ghost use Rattle.qs_ops_walk.specs.inner.Cursor.{GivesNamed};
ghost use Rattle.qs_ops_walk.specs.inner.Moves.{Finishes, GivesRow, IsOpened, IsStep, IsWalk, Opens, opens, is_triple, is_optional, Attempts, OpensAt, OpensName, given_unless};
ghost use Rattle.qs_ops_walk.specs.declared.work.Place.{Place as PlaceValue};
ghost use Rattle.qs_ops_walk.specs.declared.work.Work.TheVariants as variant;
ghost use Rattle.qs_ops_walk.specs.declared.source.Source.TheVariants as origin;

use crate::after_names::{AfterNames, after_names};
use crate::kept::{numbers_of, pairs_of_trail, rows_of_values};
use crate::levels::{open_given_level, open_joined_level, open_quads_level, open_triple_level};
use crate::reader::Reader;
use crate::right::{Aside, KEPT, Right, name_at};
use crate::settle::settle;
use crate::source::{Attempt, Fork, Item, Level, Source, drop_source, next_of};
use crate::spare::{LIMIT, keep};
use crate::work::{Choice, Conditions, Place, Work, places_of};
use qs_base::Shared;
use qs_expr::{Cell, Row, Scratch};
use qs_ops_program::compile;
use qs_ops_scans::{PreparedLook, PreparedTriple, path_rows};
use qs_ops_tables::{KeptTable, Probe};
use qs_plan_meaning::{Group, Stage};
use qs_store::View;
use std::alloc::{AllocError, Global};

/// The places and levels of a walk, and rows that were dropped, for their memory.
#[derive(Drop)]
pub(crate) struct Walk<'a> {
    pub(crate) places: Vec<Place<'a>>,
    pub(crate) levels: Vec<Level<'a>>,
    pub(crate) spare: Vec<Row>,
}

/// What one move of a walk did.
#[derive(Drop)]
pub(crate) enum Step {
    Done,
    Moved,
    Gave(Row),
}

/// The walk of a row through these stages.
pub(crate) fn start<'a, V: View>(
    reader: &Reader<'a, V>,
    stages: &'a [Stage],
    row: Row,
) -> Result<Walk<'a>, AllocError>
    ensures walk { IfOk result (λ w. (table : List TermValue)
        → FitsRow (known_of reader.now) table row → IsWalk reader.now table w.places.items
        w.levels.items) }
    ensures rows { IfOk result (λ w. (table : List TermValue)
        → coming reader.now (code_of w.places.items) table w.levels.items
        ≡ through_in reader.now stages.now (row_solution (known_of reader.now) table row)) }
    ensures low { IfOk result (λ w. heights_of w.places.items ≤ stages_height stages.now) }
{
    let spare = Vec::with_capacity(reader.alloc, LIMIT)?;
    let program = compile(reader.alloc, stages)?;
    let next = program.start;
    let places = places_of(reader, program.code)?;
    let mut levels = Vec::new(reader.alloc);
    levels.push(Level {
        next,
        source: Source::Given(Some(row)),
    })?;
    Ok(Walk {
        places,
        levels,
        spare,
    })
}

/// So many cells, of which none is bound but the register.
fn only(
    alloc: Global,
    register: Option<usize>,
    name: Option<Cell>,
    cells: usize,
) -> Result<Row, AllocError>
    ensures { IfOk result (λ r. r ≡ only_cells register cells name) }
{
    let mut row = Row::unbound(alloc, cells)?;
    if let Some(register) = register {
        row.set(register, name);
    }
    Ok(row)
}

/// Whether there are as many rows as may be.
fn is_full(most: Option<usize>, count: usize) -> bool
    ensures { most ≡ None → result ≡ false }
{
    match most {
        Some(most) => most <= count,
        None => false,
    }
}

/// The solutions of a group for this row, evaluated by itself; the named variables are left of each. None if there are more than may be.
#[cycle(next)]
fn rows_of_group<'a, V: View>(
    reader: &Reader<'a, V>,
    scratch: &mut Scratch,
    stages: &'a [Stage],
    row: Row,
    most: Option<usize>,
) -> Result<Option<Vec<Row>>, AllocError>
    requires table { IsTable (known_of reader.now) scratch.old }
    requires row { FitsRow (known_of reader.now) scratch.old row }
    ensures grows { Grows (known_of reader.now) scratch.old scratch.new }
    ensures rows { IfOk result
        (λ o. IfSome o (λ rows. SameBag (row_solutions (known_of reader.now) scratch.new rows.items)
        (map (take reader.now.width)
        (through_in reader.now stages.now
        (row_solution (known_of reader.now) scratch.old row))))) }
    ensures fit { IfOk result
        (λ o. IfSome o (λ rows. FitRows (known_of reader.now) scratch.new rows.items)) }
    ensures all { most ≡ None → IfOk result (λ o. IsSome o) }
{
    let mut walk = start(reader, stages, row)?;
    let mut rows = Vec::new(reader.alloc);
    loop {
        let Some(row) = next_named(reader, scratch, &mut walk)? else {
            return Ok(Some(rows));
        };
        if is_full(most, rows.len()) {
            return Ok(None);
        }
        rows.push(row)?;
    }
}

/// The rows of a right side for rows like this one, evaluated by itself. None if there are more than may be.
#[cycle(next)]
fn aside_of<'a, V: View>(
    reader: &Reader<'a, V>,
    scratch: &mut Scratch,
    right: &Right<'a>,
    row: &Row,
    most: Option<usize>,
) -> Result<Option<Aside>, AllocError>
    requires table { IsTable (known_of reader.now) scratch.old }
    requires row { FitsRow (known_of reader.now) scratch.old row.now }
    ensures grows { Grows (known_of reader.now) scratch.old scratch.new }
    ensures aside { IfOk result
        (λ o. IfSome o
        (λ a. IsAside reader.now scratch.new right.now.register right.now.group.now.stages a)) }
    ensures cells { IfOk result (λ o. IfSome o (λ a. a.cells ≡ length row.now)) }
    ensures name { IfOk result (λ o. IfSome o (λ a. a.name ≡ name_at right.now.register row.now)) }
    ensures all { most ≡ None → IfOk result (λ o. IsSome o) }
{
    let name = name_at(right.register, row);
    let alone = only(reader.alloc, right.register, name, row.width())?;
    let found = rows_of_group(reader, scratch, right.group.stages.as_slice(), alone, most)?;
    let Some(rows) = found else {
        return Ok(None);
    };
    let row_count = rows.len();
    let kept = KeptTable::new(reader.alloc, rows, row)?;
    let kept = Shared::new(reader.alloc, kept)?;
    Ok(Some(Aside {
        cells: row.width(),
        name,
        row_count,
        kept,
    }))
}

/// Evaluates a right side by itself and keeps its rows, if none are kept for rows like this one, and there are no more than `KEPT`. Returns whether
/// some are kept.
#[inline(never)]
#[cycle(next)]
fn keep_few<'a, V: View>(
    reader: &Reader<'a, V>,
    scratch: &mut Scratch,
    right: &mut Right<'a>,
    row: &Row,
) -> Result<bool, AllocError>
    requires table { IsTable (known_of reader.now) scratch.old }
    requires row { FitsRow (known_of reader.now) scratch.old row.now }
    requires right { IsRight reader.now scratch.old right.old }
    ensures grows { Grows (known_of reader.now) scratch.old scratch.new }
    ensures register { right.new.register ≡ right.old.register }
    ensures group { right.new.group.now ≡ right.old.group.now }
    ensures right { IfOk result (λ b. IsRight reader.now scratch.new right.new) }
{
    if right.kept_for(row).is_some() {
        return Ok(true);
    }
    let found = aside_of(reader, scratch, right, row, Some(KEPT))?;
    let Some(aside) = found else {
        return Ok(false);
    };
    right.kept.keep(aside)?;
    Ok(true)
}

/// The rows of a right side for rows like this one. They are evaluated where none are kept, and kept.
#[inline(never)]
#[cycle(next)]
fn rows_of_right<'a, V: View>(
    reader: &Reader<'a, V>,
    scratch: &mut Scratch,
    right: &mut Right<'a>,
    row: &Row,
) -> Result<Shared<KeptTable>, AllocError>
    requires table { IsTable (known_of reader.now) scratch.old }
    requires row { FitsRow (known_of reader.now) scratch.old row.now }
    requires right { IsRight reader.now scratch.old right.old }
    ensures grows { Grows (known_of reader.now) scratch.old scratch.new }
    ensures register { right.new.register ≡ right.old.register }
    ensures group { right.new.group.now ≡ right.old.group.now }
    ensures right { IfOk result (λ k. IsRight reader.now scratch.new right.new) }
    ensures kept { IfOk result (λ k. Serves right.new row.now k) }
{
    if let Some(kept) = right.kept_for(row) {
        let kept = kept.share()?;
        return Ok(kept);
    }
    let found = aside_of(reader, scratch, right, row, None)?;
    let Some(aside) = found else { unreachable!() };
    let own = right.kept.keep_shared(aside)?;
    Ok(own)
}

/// The solutions of a group that is fed the row, for this row alone.
#[inline(never)]
#[cycle(next)]
fn rows_of_feed<'a, V: View>(
    reader: &Reader<'a, V>,
    scratch: &mut Scratch,
    group: &'a Group,
    row: &Row,
    spare: &mut Vec<Row>,
) -> Result<Shared<KeptTable>, AllocError>
    requires table { IsTable (known_of reader.now) scratch.old }
    requires row { FitsRow (known_of reader.now) scratch.old row.now }
    ensures grows { Grows (known_of reader.now) scratch.old scratch.new }
    ensures rows { IfOk result
        (λ k. SameBag (row_solutions (known_of reader.now) scratch.new k.rows)
        (fed_rows reader.now.width (through_in reader.now group.now.stages)
        (row_solution (known_of reader.now) scratch.old row.now))) }
    ensures fit { IfOk result (λ k. FitRows (known_of reader.now) scratch.new k.rows) }
{
    let own = row.copy(reader.alloc, spare)?;
    let found = rows_of_group(reader, scratch, group.stages.as_slice(), own, None)?;
    let Some(rows) = found else { unreachable!() };
    let kept = KeptTable::new(reader.alloc, rows, row)?;
    let kept = Shared::new(reader.alloc, kept)?;
    Ok(kept)
}

fn attempt<'a>(
    alloc: Global,
    kept: Shared<KeptTable>,
    conditions: &Shared<Conditions<'a>>,
    row: Row,
    spare: &mut Vec<Row>,
) -> Result<Attempt<'a>, AllocError>
    ensures { IfOk result (λ a. Attempts kept conditions.now row a) }
{
    let conditions = conditions.share()?;
    let alone = row.copy(alloc, spare)?;
    Ok(Attempt {
        probe: Probe::new(kept, row),
        conditions,
        alone: Some(alone),
    })
}

fn given_unless<'a>(excluded: bool, row: Row, spare: &mut Vec<Row>) -> Source<'a>
    ensures { result ≡ given_unless excluded row }
{
    if excluded {
        keep(spare, row);
        return Source::Given(None);
    }
    Source::Given(Some(row))
}

/// The row merged with the name of a graph, if they are compatible.
#[inline(never)]
fn open_name<'a>(
    alloc: Global,
    width: usize,
    variable: usize,
    register: usize,
    row: Row,
) -> Result<Source<'a>, AllocError>
    ensures { IfOk result (λ s. OpensName width variable register row s) }
{
    let mut name = Row::unbound(alloc, width)?;
    name.set(variable, row.cell(register));
    if !row.is_compatible(&name) {
        return Ok(Source::Given(None));
    }
    let merged = row.merged(alloc, &name)?;
    Ok(Source::Given(Some(merged)))
}

/// Whether the group of an OPTIONAL is fed the row: the first rows are, so that a few don't cost an evaluation of the whole group. Then it is
/// evaluated by itself, and its rows are kept; where they are too many, further rows are fed.
#[cycle(next)]
fn is_fed_next<'a, V: View>(
    reader: &Reader<'a, V>,
    scratch: &mut Scratch,
    choice: &mut Choice<'a>,
    row: &Row,
) -> Result<bool, AllocError>
    requires table { IsTable (known_of reader.now) scratch.old }
    requires row { FitsRow (known_of reader.now) scratch.old row.now }
    requires right { IsRight reader.now scratch.old choice.old.right }
    ensures grows { Grows (known_of reader.now) scratch.old scratch.new }
    ensures register { choice.new.right.register ≡ choice.old.right.register }
    ensures group { choice.new.right.group.now ≡ choice.old.right.group.now }
    ensures conditions { choice.new.conditions ≡ choice.old.conditions }
    ensures alike { choice.new.is_alike ≡ choice.old.is_alike }
    ensures right { IfOk result (λ b. IsRight reader.now scratch.new choice.new.right) }
    ensures fed { result ≡ Ok true → (choice.old.is_alike ≡ true)
        × (reader.now.width ≤ length row.now) }
{
    if !choice.may_be_fed(row, reader.width) {
        return Ok(false);
    }
    if choice.left > 0 {
        choice.left -= 1;
        return Ok(true);
    }
    if keep_few(reader, scratch, &mut choice.right, row)? {
        return Ok(false);
    }
    choice.left = usize::MAX;
    Ok(true)
}

/// What the OPTIONAL of the place makes of the row.
#[cycle(next)]
fn open_optional<'a, V: View>(
    reader: &Reader<'a, V>,
    scratch: &mut Scratch,
    place: &mut Place<'a>,
    row: Row,
    spare: &mut Vec<Row>,
) -> Result<Attempt<'a>, AllocError>
    requires table { IsTable (known_of reader.now) scratch.old }
    requires row { FitsRow (known_of reader.now) scratch.old row }
    requires ready { IsReady reader.now scratch.old place.old }
    requires optional { is_optional place.old.work ≡ true }
    ensures grows { Grows (known_of reader.now) scratch.old scratch.new }
    ensures instr { place.new.instr ≡ place.old.instr }
    ensures ready { IfOk result (λ a. IsReady reader.now scratch.new place.new) }
    ensures opens { IfOk result (λ a. Opens reader.now place.old.instr scratch.old row scratch.new
        (origin.Optional a)) }
{
    match &mut place.work {
        Work::Optional(choice) => {
            if is_fed_next(reader, scratch, choice, &row)? {
                let kept = rows_of_feed(reader, scratch, choice.right.group, &row, spare)?;
                let found = attempt(reader.alloc, kept, &choice.conditions, row, spare)?;
                return Ok(found);
            }
            let kept = rows_of_right(reader, scratch, &mut choice.right, &row)?;
            let found = attempt(reader.alloc, kept, &choice.conditions, row, spare)?;
            Ok(found)
        }
        Work::Fed(feed) => {
            let kept = rows_of_feed(reader, scratch, feed.group, &row, spare)?;
            let found = attempt(reader.alloc, kept, &feed.conditions, row, spare)?;
            Ok(found)
        }
        _ => unreachable!(),
    }
}

/// What the stage of the place makes of the row, as a source, where it is neither a triple pattern nor an OPTIONAL.
#[cycle(next)]
fn open<'a, V: View>(
    reader: &Reader<'a, V>,
    scratch: &mut Scratch,
    place: &mut Place<'a>,
    row: Row,
    spare: &mut Vec<Row>,
) -> Result<Source<'a>, AllocError>
    requires table { IsTable (known_of reader.now) scratch.old }
    requires row { FitsRow (known_of reader.now) scratch.old row }
    requires ready { IsReady reader.now scratch.old place.old }
    requires opens { opens place.old.work ≡ true }
    requires other { is_triple place.old.work ≡ false }
    requires choice { is_optional place.old.work ≡ false }
    ensures grows { Grows (known_of reader.now) scratch.old scratch.new }
    ensures instr { place.new.instr ≡ place.old.instr }
    ensures ready { IfOk result (λ s. IsReady reader.now scratch.new place.new) }
    ensures opens { IfOk result (λ s. Opens reader.now place.old.instr scratch.old row scratch.new
        s) }
{
    match &mut place.work {
        Work::Path(trail) => {
            let pairs = pairs_of_trail(reader, scratch, trail, &row)?;
            Ok(Source::Path(path_rows(pairs, trail.pattern, row)))
        }
        Work::Names(naming) => {
            let numbers = numbers_of(reader, naming)?;
            Ok(Source::Names(reader.name_rows(numbers, naming.register, row)))
        }
        Work::Name(variable, register) => {
            let source = open_name(reader.alloc, reader.width, *variable, *register, row)?;
            Ok(source)
        }
        Work::Values(values) => {
            let kept = rows_of_values(reader, scratch, values, &row)?;
            Ok(Source::Probe(Probe::new(kept, row)))
        }
        Work::Union(starts) => {
            let starts = starts.share()?;
            Ok(Source::Fork(Fork { row, starts, at: 0 }))
        }
        Work::Minus(right) => {
            let kept = rows_of_right(reader, scratch, right, &row)?;
            let excluded = kept.get().is_excluded(&row, reader.width);
            Ok(given_unless(excluded, row, spare))
        }
        Work::Apart(right) => {
            let kept = rows_of_right(reader, scratch, right, &row)?;
            Ok(Source::Probe(Probe::new(kept, row)))
        }
        _ => unreachable!(),
    }
}

/// The triple pattern that is prepared, and where it looks, if the work is one.
fn triple_of<'w>(work: &'w Work<'_>) -> Option<(PreparedLook, &'w PreparedTriple)>
    ensures some { IfSome result (λ t. work.now ≡ variant.Triple t.0 t.1.now) }
    ensures none { IfNone result (is_triple work.now ≡ false) }
{
    match work {
        Work::Triple(look, pattern) => Some((*look, pattern)),
        _ => None,
    }
}

fn is_optional(work: &Work<'_>) -> bool
    ensures { result ≡ is_optional work.now }
{
    matches!(work, Work::Optional(_) | Work::Fed(_))
}

/// Puts a level for what the stage before the position makes of the row, where it is an OPTIONAL.
#[inline(never)]
#[cycle(next)]
fn open_optional_level<'a, V: View>(
    reader: &Reader<'a, V>,
    scratch: &mut Scratch,
    walk: &mut Walk<'a>,
    at: usize,
    row: Row,
) -> Result<(), AllocError>
    requires at { at < vec_len walk.old.places }
    requires table { IsTable (known_of reader.now) scratch.old }
    requires row { FitsRow (known_of reader.now) scratch.old row }
    requires walk { IsWalk reader.now scratch.old walk.old.places.items walk.old.levels.items }
    requires opens { OpensAt walk.old.places.items (Some (suc at)) }
    requires optional { (p : PlaceValue) → p ≡ get_or walk.old.places.items at p
        → is_optional p.work ≡ true }
    ensures grows { Grows (known_of reader.now) scratch.old scratch.new }
    ensures code { code_of walk.new.places.items ≡ code_of walk.old.places.items }
    ensures walk { IfOk result
        (λ _. IsWalk reader.now scratch.new walk.new.places.items walk.new.levels.items) }
    ensures opened { IfOk result (λ _. IsOpened reader.now (code_of walk.old.places.items) (suc at)
        scratch.old row walk.old.levels.items scratch.new walk.new.levels.items) }
{
    let place = &mut walk.places[at];
    let next = place.instr.next();
    let attempt = open_optional(reader, scratch, place, row, &mut walk.spare)?;
    walk.levels.reserve(1)?;
    walk.levels.push_reserved(Level {
        next,
        source: Source::Optional(attempt),
    });
    Ok(())
}

/// Puts a level for what the stage before the position makes of the row, where it is neither a triple pattern nor an
/// OPTIONAL.
#[inline(never)]
#[cycle(next)]
fn open_other_level<'a, V: View>(
    reader: &Reader<'a, V>,
    scratch: &mut Scratch,
    walk: &mut Walk<'a>,
    at: usize,
    row: Row,
) -> Result<(), AllocError>
    requires at { at < vec_len walk.old.places }
    requires table { IsTable (known_of reader.now) scratch.old }
    requires row { FitsRow (known_of reader.now) scratch.old row }
    requires walk { IsWalk reader.now scratch.old walk.old.places.items walk.old.levels.items }
    requires opens { OpensAt walk.old.places.items (Some (suc at)) }
    requires other { (p : PlaceValue) → p ≡ get_or walk.old.places.items at p
        → is_triple p.work ≡ false }
    requires choice { (p : PlaceValue) → p ≡ get_or walk.old.places.items at p
        → is_optional p.work ≡ false }
    ensures grows { Grows (known_of reader.now) scratch.old scratch.new }
    ensures code { code_of walk.new.places.items ≡ code_of walk.old.places.items }
    ensures walk { IfOk result
        (λ _. IsWalk reader.now scratch.new walk.new.places.items walk.new.levels.items) }
    ensures opened { IfOk result (λ _. IsOpened reader.now (code_of walk.old.places.items) (suc at)
        scratch.old row walk.old.levels.items scratch.new walk.new.levels.items) }
{
    let place = &mut walk.places[at];
    let next = place.instr.next();
    let source = open(reader, scratch, place, row, &mut walk.spare)?;
    walk.levels.push(Level { next, source })?;
    Ok(())
}

/// Puts a level for what the stage before the position makes of the row. A source is large: each kind of level is put by a function of its
/// own, so that no memory is cleared for the others.
#[cycle(next)]
fn open_level<'a, V: View>(
    reader: &Reader<'a, V>,
    scratch: &mut Scratch,
    walk: &mut Walk<'a>,
    at: usize,
    row: Row,
) -> Result<(), AllocError>
    requires at { at < vec_len walk.old.places }
    requires table { IsTable (known_of reader.now) scratch.old }
    requires row { FitsRow (known_of reader.now) scratch.old row }
    requires walk { IsWalk reader.now scratch.old walk.old.places.items walk.old.levels.items }
    requires opens { OpensAt walk.old.places.items (Some (suc at)) }
    ensures grows { Grows (known_of reader.now) scratch.old scratch.new }
    ensures code { code_of walk.new.places.items ≡ code_of walk.old.places.items }
    ensures walk { IfOk result
        (λ _. IsWalk reader.now scratch.new walk.new.places.items walk.new.levels.items) }
    ensures opened { IfOk result (λ _. IsOpened reader.now (code_of walk.old.places.items) (suc at)
        scratch.old row walk.old.levels.items scratch.new walk.new.levels.items) }
{
    let place = &walk.places[at];
    if let Some((look, pattern)) = triple_of(&place.work) {
        let next = place.instr.next();
        open_triple_level(reader, &mut walk.levels, next, look, pattern, row)?;
        return Ok(());
    }
    if is_optional(&place.work) {
        return open_optional_level(reader, scratch, walk, at, row);
    }
    match after_names(walk.places.as_slice(), place, &row, reader.width) {
        AfterNames::Given(joining, cell) => {
            open_given_level(
                reader,
                &mut walk.levels,
                joining,
                cell,
                row,
                &mut walk.spare,
            )?;
            Ok(())
        }
        AfterNames::Joined(joining, each) => {
            open_joined_level(reader, &mut walk.levels, joining.variable, each, row)?;
            Ok(())
        }
        AfterNames::InEach(each) => {
            open_quads_level(reader, &mut walk.levels, each, row)?;
            Ok(())
        }
        AfterNames::ByName => open_other_level(reader, scratch, walk, at, row),
    }
}

/// Takes the last level away, and keeps the memory of its rows.
#[inline(never)]
pub(crate) fn end_last<'a>(levels: &mut Vec<Level<'a>>, spare: &mut Vec<Row>)
    ensures { levels.new.items ≡ take (vec_len levels.old - 1) levels.old.items }
{
    let Some(level) = levels.pop() else {
        return;
    };
    drop_source(level.source, spare);
}

/// One move: the last level ends, or it gives a row, which is finished or opens the next level.
#[cycle(next)]
fn advance<'a, V: View>(
    reader: &Reader<'a, V>,
    scratch: &mut Scratch,
    walk: &mut Walk<'a>,
) -> Result<Step, AllocError>
    requires table { IsTable (known_of reader.now) scratch.old }
    requires walk { IsWalk reader.now scratch.old walk.old.places.items walk.old.levels.items }
    ensures grows { Grows (known_of reader.now) scratch.old scratch.new }
    ensures code { code_of walk.new.places.items ≡ code_of walk.old.places.items }
    ensures walk { IfOk result
        (λ _. IsWalk reader.now scratch.new walk.new.places.items walk.new.levels.items) }
    ensures step { IfOk result (λ step. IsStep reader.now (code_of walk.old.places.items)
        scratch.old walk.old.levels.items step scratch.new walk.new.levels.items) }
{
    let Some(level) = walk.levels.last_mut() else {
        return Ok(Step::Done);
    };
    let Some(item) = next_of(reader, scratch, level, &mut walk.spare)? else {
        end_last(&mut walk.levels, &mut walk.spare);
        return Ok(Step::Moved);
    };
    let Item { next, mut row } = item;
    let places = walk.places.as_slice();
    let Some(at) = settle(reader, scratch, places, next, &mut row, &mut walk.spare)? else {
        keep(&mut walk.spare, row);
        return Ok(Step::Moved);
    };
    if at == 0 {
        return Ok(Step::Gave(row));
    }
    open_level(reader, scratch, walk, at - 1, row)?;
    Ok(Step::Moved)
}

/// The next finished row of the walk, or none where none is left.
#[inline(never)]
#[cycle(next)]
fn next_of_walk<'a, V: View>(
    reader: &Reader<'a, V>,
    scratch: &mut Scratch,
    walk: &mut Walk<'a>,
) -> Result<Option<Row>, AllocError>
    requires table { IsTable (known_of reader.now) scratch.old }
    requires walk { IsWalk reader.now scratch.old walk.old.places.items walk.old.levels.items }
    ensures grows { Grows (known_of reader.now) scratch.old scratch.new }
    ensures code { code_of walk.new.places.items ≡ code_of walk.old.places.items }
    ensures walk { IfOk result
        (λ _. IsWalk reader.now scratch.new walk.new.places.items walk.new.levels.items) }
    ensures gives { IfOk result
        (λ o. GivesRow reader.now (code_of walk.old.places.items) scratch.old walk.old.levels.items
        o scratch.new walk.new.levels.items) }
{
    loop {
        match advance(reader, scratch, walk)? {
            Step::Done => return Ok(None),
            Step::Gave(row) => return Ok(Some(row)),
            Step::Moved => {}
        }
    }
}

/// The next row of the last level, where that is of a triple pattern and its rows are finished; none where it isn't, or has no more.
#[inline(always)]
fn next_finished(
    alloc: Global,
    levels: &mut Vec<Level<'_>>,
    spare: &mut Vec<Row>,
) -> Result<Option<Row>, AllocError>
    ensures { IfOk result (λ o. Finishes levels.old.items o levels.new.items) }
{
    let Some(level) = levels.last_mut() else {
        return Ok(None);
    };
    if level.next != 0 {
        return Ok(None);
    }
    match &mut level.source {
        Source::Triple(rows) => {
            let row = rows.next(alloc, spare)?;
            Ok(row)
        }
        _ => Ok(None),
    }
}

/// The next finished row of the walk, or none where none is left. Most rows are finished as the last level gives them.
#[inline(always)]
#[cycle(next)]
fn next_row<'a, V: View>(
    reader: &Reader<'a, V>,
    scratch: &mut Scratch,
    walk: &mut Walk<'a>,
) -> Result<Option<Row>, AllocError>
    requires table { IsTable (known_of reader.now) scratch.old }
    requires walk { IsWalk reader.now scratch.old walk.old.places.items walk.old.levels.items }
    ensures grows { Grows (known_of reader.now) scratch.old scratch.new }
    ensures code { code_of walk.new.places.items ≡ code_of walk.old.places.items }
    ensures walk { IfOk result
        (λ _. IsWalk reader.now scratch.new walk.new.places.items walk.new.levels.items) }
    ensures gives { IfOk result
        (λ o. GivesRow reader.now (code_of walk.old.places.items) scratch.old walk.old.levels.items
        o scratch.new walk.new.levels.items) }
{
    if let Some(row) = next_finished(reader.alloc, &mut walk.levels, &mut walk.spare)? {
        return Ok(Some(row));
    }
    let row = next_of_walk(reader, scratch, walk)?;
    Ok(row)
}

/// The next finished row of the walk, with its named variables alone.
#[inline(always)]
#[cycle(next)]
pub(crate) fn next_named<'a, V: View>(
    reader: &Reader<'a, V>,
    scratch: &mut Scratch,
    walk: &mut Walk<'a>,
) -> Result<Option<Row>, AllocError>
    requires table { IsTable (known_of reader.now) scratch.old }
    requires walk { IsWalk reader.now scratch.old walk.old.places.items walk.old.levels.items }
    ensures grows { Grows (known_of reader.now) scratch.old scratch.new }
    ensures code { code_of walk.new.places.items ≡ code_of walk.old.places.items }
    ensures walk { IfOk result
        (λ _. IsWalk reader.now scratch.new walk.new.places.items walk.new.levels.items) }
    ensures gives { IfOk result (λ o. GivesNamed reader.now (code_of walk.old.places.items)
        scratch.old walk.old.levels.items o scratch.new walk.new.levels.items) }
{
    let Some(mut row) = next_row(reader, scratch, walk)? else {
        return Ok(None);
    };
    row.truncate(reader.width);
    Ok(Some(row))
}
