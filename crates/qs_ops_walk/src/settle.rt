//! Rows that go through stages which make at most one row.

ghost use Rattle.std.specs.Prelude.{◌≡◌, ◌⊎◌, IfOk, OnOk, true, false};
ghost use Rattle.qs_ops_walk.specs.declared.settle.Passes.TheVariants.{Many, One};
ghost use Rattle.qs_expr.specs.inner.Cell.{FitsRow};
ghost use Rattle.qs_expr.specs.inner.Scratch.{IsTable, Grows};
ghost use Rattle.qs_ops_program.specs.inner.Flow.{IsForward, is_union};
ghost use Rattle.qs_ops_walk.specs.inner.Setting.{known_of};
ghost use Rattle.qs_ops_walk.specs.inner.Works.{AreReady, IsReady, code_of};
ghost use Rattle.qs_ops_walk.specs.inner.Moves.{IsPassed, IsSettled, PassesAlone, PassesMinus, OpensAt, bound_named, one_if, opens};
ghost use Rattle.qs_plan_meaning.specs.declared.stage.Stage.TheVariants as stage;

use crate::reader::Reader;
use crate::right::Right;
use crate::work::{Place, Work};
use qs_expr::{Cell, Row, Scratch, is_same};
use qs_expr_meaning::Expr;
use qs_store::View;
use std::alloc::AllocError;

/// What a stage makes of a row: nothing, one row, or as many as a source gives, which is to be opened.
#[derive(Clone, Copy)]
pub(crate) enum Passes {
    Nothing,
    One,
    Many,
}

fn one_if(holds: bool) -> Passes
    ensures { result ≡ one_if holds }
{
    if holds { Passes::One } else { Passes::Nothing }
}

/// Binds the variable, if it is named and the row has a cell for it.
fn bind(row: &mut Row, width: usize, variable: usize, cell: Cell)
    ensures { row.new ≡ bound_named width variable cell row.old }
{
    if variable < width {
        row.set(variable, Some(cell));
    }
}

/// Binds a named variable to the name that the register holds, where they agree.
fn pass_name(row: &mut Row, width: usize, variable: usize, register: usize) -> Passes
    ensures { PassesAlone width (stage.Name variable register) row.old row.new result }
{
    if row.width() < width || variable >= width {
        return Passes::Many;
    }
    let Some(name) = row.cell(register) else {
        return Passes::One;
    };
    match row.cell(variable) {
        Some(cell) => one_if(is_same(cell, name)),
        None => {
            row.set(variable, Some(name));
            Passes::One
        }
    }
}

fn pass_bind<V: View>(
    reader: &Reader<'_, V>,
    scratch: &mut Scratch,
    variable: usize,
    expr: &Expr,
    row: &mut Row,
    spare: &mut Vec<Row>,
) -> Result<(), AllocError>
    requires table { IsTable (known_of reader.now) scratch.old }
    requires row { FitsRow (known_of reader.now) scratch.old row.old }
    ensures grows { Grows (known_of reader.now) scratch.old scratch.new }
    ensures passed { OnOk result (IsPassed reader.now (stage.Bind variable expr.now) scratch.old
        row.old scratch.new row.new One) }
{
    if let Some(cell) = reader.value(expr, row, scratch, spare)? {
        bind(row, reader.width, variable, cell);
    }
    Ok(())
}

fn pass_minus(right: &Right<'_>, row: &Row, width: usize) -> Passes
    ensures { PassesMinus width right.now row.now result }
{
    match right.kept_for(row) {
        Some(kept) => one_if(!kept.get().is_excluded(row, width)),
        None => Passes::Many,
    }
}

/// Takes the row through a stage that makes at most one row of it.
pub(crate) fn pass<V: View>(
    reader: &Reader<'_, V>,
    scratch: &mut Scratch,
    place: &Place<'_>,
    row: &mut Row,
    spare: &mut Vec<Row>,
) -> Result<Passes, AllocError>
    requires table { IsTable (known_of reader.now) scratch.old }
    requires row { FitsRow (known_of reader.now) scratch.old row.old }
    requires ready { IsReady reader.now scratch.old place.now }
    ensures grows { Grows (known_of reader.now) scratch.old scratch.new }
    ensures passed { IfOk result (λ p. IsPassed reader.now place.now.instr.stage scratch.old row.old
        scratch.new row.new p) }
    ensures many { IfOk result (λ p. p ≡ Many → opens place.now.work ≡ true) }
    ensures alone { IfOk result (λ p. (p ≡ Many) ⊎ (is_union place.now.instr.stage ≡ false)) }
{
    match &place.work {
        Work::Filter(condition) => {
            let holds = reader.holds(condition, row, scratch, spare)?;
            Ok(one_if(holds))
        }
        Work::Bind(variable, expr) => {
            pass_bind(reader, scratch, *variable, expr, row, spare)?;
            Ok(Passes::One)
        }
        Work::Name(variable, register) => Ok(pass_name(row, reader.width, *variable, *register)),
        Work::Exists(found) => Ok(one_if(*found)),
        Work::Minus(right) => Ok(pass_minus(right, row, reader.width)),
        _ => Ok(Passes::Many),
    }
}

/// Takes the row through the stages that make at most one row of it, from the position `next` on. These need no source of rows of their own.
/// Returns the position where the row goes on.
pub(crate) fn settle<V: View>(
    reader: &Reader<'_, V>,
    scratch: &mut Scratch,
    places: &[Place<'_>],
    next: usize,
    row: &mut Row,
    spare: &mut Vec<Row>,
) -> Result<Option<usize>, AllocError>
    requires table { IsTable (known_of reader.now) scratch.old }
    requires row { FitsRow (known_of reader.now) scratch.old row.old }
    requires forward { IsForward (code_of places.now) }
    requires ready { AreReady reader.now scratch.old places.now }
    ensures grows { Grows (known_of reader.now) scratch.old scratch.new }
    ensures settled { IfOk result (λ o. IsSettled reader.now (code_of places.now) next scratch.old
        row.old scratch.new row.new o) }
    ensures opens { IfOk result (λ o. OpensAt places.now o) }
{
    let mut at = next;
    loop {
        if at == 0 {
            return Ok(Some(0));
        }
        let Some(place) = places.get(at - 1) else {
            return Ok(None);
        };
        match pass(reader, scratch, place, row, spare)? {
            Passes::Nothing => return Ok(None),
            Passes::One => at = place.instr.next(),
            Passes::Many => return Ok(Some(at)),
        }
    }
}
