//! Cells as rows keep them: in half the memory of optional cells.

ghost use Rattle.std.specs.Prelude.{◌≡◌, take, Some, IfOk};
ghost use Rattle.qs_expr.specs.inner.Cell.{cell_at};
ghost use Rattle.qs_expr.specs.inner.Row.{agree, compatible_cells, first_cell, merged_cells, no_cells};
ghost use Rattle.qs_expr.specs.inner.Compact.{cell_of, cells_of};

use crate::cell::{Cell, is_same};
use std::alloc::{AllocError, Global};

/// How many numbers one half of a place has.
const HALF: u64 = 1 << 32;

/// A cell, or none, in twelve bytes. One word of 64 bits doesn't suffice: the numbers of terms and the places of the scratch table together
/// have more values. A place is in two halves, so that each part has four bytes.
#[derive(Clone, Copy)]
pub(crate) enum CompactCell {
    Unbound,
    Known(u32),
    /// The lower and the upper half of the place.
    Scratch(u32, u32),
}

/// The cell, or none.
pub(crate) fn cell_of(compact: CompactCell) -> Option<Cell>
    ensures { result ≡ cell_of compact }
{
    match compact {
        CompactCell::Unbound => None,
        CompactCell::Known(number) => Some(Cell::Known(number)),
        CompactCell::Scratch(low, high) => {
            Some(Cell::Scratch(u64::from(high) * HALF + u64::from(low)))
        }
    }
}

/// The compact form of a cell.
#[tactic(auto, using(crate::proofs::Compacts::halves))]
pub(crate) fn compact(cell: Cell) -> CompactCell
    ensures { cell_of result ≡ Some cell }
{
    match cell {
        Cell::Known(number) => CompactCell::Known(number),
        Cell::Scratch(place) => {
            CompactCell::Scratch((place % HALF) as u32, (place / HALF) as u32)
        }
    }
}

/// The compact form of a cell, or of none.
pub(crate) fn compact_if(cell: Option<Cell>) -> CompactCell
    ensures { cell_of result ≡ cell }
{
    match cell {
        Some(cell) => compact(cell),
        None => CompactCell::Unbound,
    }
}

/// Whether the cells are equal, if both are bound.
fn agree(a: Option<Cell>, b: Option<Cell>) -> bool
    ensures { result ≡ agree a b }
{
    match (a, b) {
        (Some(x), Some(y)) => is_same(x, y),
        _ => true,
    }
}

/// The first where it is a cell, and else the second.
fn first_of(a: CompactCell, b: CompactCell) -> CompactCell
    ensures { cell_of result ≡ first_cell (cell_of a) (cell_of b) }
{
    match a {
        CompactCell::Unbound => b,
        _ => a,
    }
}

/// So many variables, none of them bound.
#[tactic(auto, using(crate::proofs::Compacts::none_bound))]
pub(crate) fn no_cells(alloc: Global, width: usize) -> Result<Vec<CompactCell>, AllocError>
    ensures { IfOk result (λ v. cells_of v.items ≡ no_cells width) }
{
    let cells = vec![in alloc; CompactCell::Unbound; width]?;
    Ok(cells)
}

/// The cell of a variable; none for one past the last.
pub(crate) fn cell_at(cells: &[CompactCell], variable: usize) -> Option<Cell>
    ensures { result ≡ cell_at (cells_of cells.now) variable }
{
    match cells.get(variable) {
        Some(compact) => cell_of(*compact),
        None => None,
    }
}

/// The cells of the first `width` variables.
#[tactic(auto, using(crate::proofs::Compacts::front_is))]
pub(crate) fn front(cells: &[CompactCell], width: usize) -> &[CompactCell]
    ensures { cells_of result.now ≡ take width (cells_of cells.now) }
{
    &cells[..width.min(cells.len())]
}

/// Whether each variable that is bound in both has the same cell.
pub(crate) fn are_compatible(cells: &[CompactCell], others: &[CompactCell]) -> bool
    ensures { result ≡ compatible_cells (cells_of cells.now) (cells_of others.now) }
{
    for variable in 0..cells.len().min(others.len()) {
        if !agree(cell_of(cells[variable]), cell_of(others[variable])) {
            return false;
        }
    }
    true
}

/// The cells, and where there is none those of the other row.
pub(crate) fn filled(
    mut cells: Vec<CompactCell>,
    others: &[CompactCell],
) -> Result<Vec<CompactCell>, AllocError>
    ensures { IfOk result (λ v. cells_of v.items ≡ merged_cells (cells_of cells.items)
        (cells_of others.now)) }
{
    let common = cells.len().min(others.len());
    for variable in 0..common {
        cells[variable] = first_of(cells[variable], others[variable]);
    }
    cells.extend_from_slice(&others[common..])?;
    Ok(cells)
}
