//! Levels that are put on the stack of a walk.

ghost use Rattle.std.specs.Prelude.{◌≡◌, ◌≤◌, ◌<◌, true, None, IfOk, length};
ghost use Rattle.qs_expr.specs.inner.Cell.{cell_at};
ghost use Rattle.qs_ops_scans.specs.inner.Each.{misses};
ghost use Rattle.qs_ops_walk.specs.inner.After.{IsGivenOpened, IsJoinedOpened, named_if};
ghost use Rattle.qs_ops_walk.specs.inner.Moves.{IsQuadsOpened, IsTripleOpened};

use crate::after_names::{Each, Joining};
use crate::reader::Reader;
use crate::source::{Level, Source};
use crate::spare::keep;
use qs_expr::{Cell, Row};
use qs_ops_scans::{PreparedLook, PreparedTriple};
use qs_store::View;
use std::alloc::AllocError;

/// Puts a level for the rows that a triple pattern makes of the row.
#[inline(never)]
pub(crate) fn open_triple_level<'a, V: View>(
    reader: &Reader<'a, V>,
    levels: &mut Vec<Level<'a>>,
    next: usize,
    look: PreparedLook,
    pattern: &PreparedTriple,
    row: Row,
) -> Result<(), AllocError>
    ensures { IfOk result (λ _. IsTripleOpened reader.now next look pattern.now row levels.old.items
        levels.new.items) }
{
    levels.reserve(1)?;
    levels.push_reserved(Level {
        next,
        source: Source::Triple(reader.open_triple(look, pattern, row)),
    });
    Ok(())
}

/// The row with the register bound to the cell, if that names a graph.
fn named_if(
    named: bool,
    register: usize,
    cell: Cell,
    mut row: Row,
    spare: &mut Vec<Row>,
) -> Option<Row>
    requires { register < length row }
    ensures { result ≡ named_if named register cell row }
{
    if !named {
        keep(spare, row);
        return None;
    }
    row.bind(register, cell);
    Some(row)
}

/// Puts a level for the row with the register bound to the cell, if the cell's term is the name of a graph.
#[inline(never)]
pub(crate) fn open_given_level<'a, V: View>(
    reader: &Reader<'a, V>,
    levels: &mut Vec<Level<'a>>,
    joining: Joining,
    cell: Cell,
    row: Row,
    spare: &mut Vec<Row>,
) -> Result<(), AllocError>
    requires { joining.register < length row }
    ensures { IfOk result (λ _. IsGivenOpened reader.now joining cell row levels.old.items
        levels.new.items) }
{
    levels.reserve(1)?;
    let named = reader.names_graph(cell);
    levels.push_reserved(Level {
        next: joining.next,
        source: Source::Given(named_if(named, joining.register, cell, row, spare)),
    });
    Ok(())
}

/// Puts a level for the rows that a triple pattern makes, in each named graph, of the row merged with the graph's name.
#[inline(never)]
pub(crate) fn open_joined_level<'a, V: View>(
    reader: &Reader<'a, V>,
    levels: &mut Vec<Level<'a>>,
    variable: usize,
    each: Each<'_>,
    row: Row,
) -> Result<(), AllocError>
    requires apart { misses each.register each.pattern.now ≡ true }
    requires other { misses variable each.pattern.now ≡ true }
    requires cell { each.register < length row }
    requires named { variable < reader.now.width }
    requires wide { reader.now.width ≤ each.register }
    requires free { cell_at row variable ≡ None }
    ensures { IfOk result (λ _. IsJoinedOpened reader.now variable each.entry row levels.old.items
        levels.new.items) }
{
    levels.reserve(1)?;
    levels.push_reserved(Level {
        next: each.next,
        source: Source::Quads(reader.joined_quad_rows(variable, each.register, each.pattern, row)),
    });
    Ok(())
}

/// Puts a level for the rows that a triple pattern makes of the row in each named graph.
#[inline(never)]
pub(crate) fn open_quads_level<'a, V: View>(
    reader: &Reader<'a, V>,
    levels: &mut Vec<Level<'a>>,
    each: Each<'_>,
    row: Row,
) -> Result<(), AllocError>
    requires apart { misses each.register each.pattern.now ≡ true }
    requires cell { each.register < length row }
    ensures { IfOk result (λ _. IsQuadsOpened reader.now each.entry row levels.old.items
        levels.new.items) }
{
    levels.reserve(1)?;
    levels.push_reserved(Level {
        next: each.next,
        source: Source::Quads(reader.quad_rows(each.register, each.pattern, row)),
    });
    Ok(())
}
