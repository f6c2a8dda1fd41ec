//! Rows with the variables of a triple bound.

ghost use Rattle.std.specs.Prelude.{◌≡◌, Some, slice_set};
ghost use Rattle.qs_ops_scans.specs.inner.Opened.{act_bound, bound};

use crate::opened::{Act, Acts};
use qs_expr::{Cell, Row};

/// Binds the variable, if the row has a cell for it.
#[inline(always)]
pub(crate) fn bind_cell(row: &mut Row, variable: usize, cell: Cell)
    ensures { row.new ≡ slice_set row.old variable (Some cell) }
{
    if variable < row.width() {
        row.bind(variable, cell);
    }
}

#[inline(always)]
fn bind_act(row: &mut Row, act: Act, number: u32)
    ensures { row.new ≡ act_bound act number row.old }
{
    if let Act::Bind(variable) = act {
        bind_cell(row, variable, Cell::Known(number));
    }
}

/// Binds the variables of a triple that are not bound. Most patterns bind all three: their acts are tested once.
#[inline(always)]
pub(crate) fn bind_triple(row: &mut Row, acts: &Acts, triple: &[u32; 3])
    ensures { row.new ≡ bound acts.now triple.now row.old }
{
    if let (Act::Bind(subject), Act::Bind(predicate), Act::Bind(object)) = (
        acts.subject,
        acts.predicate,
        acts.object,
    ) {
        bind_cell(row, subject, Cell::Known(triple[0]));
        bind_cell(row, predicate, Cell::Known(triple[1]));
        bind_cell(row, object, Cell::Known(triple[2]));
        return;
    }
    bind_act(row, acts.subject, triple[0]);
    bind_act(row, acts.predicate, triple[1]);
    bind_act(row, acts.object, triple[2]);
}
