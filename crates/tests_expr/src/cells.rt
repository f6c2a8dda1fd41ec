//! Rows by their cells.

use qs_expr::{Cell, Row, is_same};
use std::alloc::{AllocError, Global};

const ONE: Cell = Cell::Known(1);

const OTHER: Cell = Cell::Known(2);

const PLACE: Cell = Cell::Scratch(1);

/// A row that binds the first of three variables to the cell, and the last to the place.
fn row(alloc: Global, first: Cell) -> Result<Row, AllocError> {
    let mut row = Row::unbound(alloc, 3)?;
    row.bind(0, first);
    row.bind(2, PLACE);
    Ok(row)
}

fn is_row(row: &Row, first: Option<Cell>, second: Option<Cell>, third: Option<Cell>) -> bool {
    row.width() == 3
        && row.cell(0) == first
        && row.cell(1) == second
        && row.cell(2) == third
        && row.cell(3) == None
}

/// Whether a row is merged with one that binds the second variable alone.
fn is_merged(alloc: Global, one: &Row) -> Result<bool, AllocError> {
    let mut second = Row::unbound(alloc, 2)?;
    second.bind(1, OTHER);
    let merged = one.merged(alloc, &second)?;
    Ok(
        one.is_compatible(&second)
            && is_row(&merged, Some(ONE), Some(OTHER), Some(PLACE))
            && second.width() == 2,
    )
}

/// Whether copies of a row are equal, also in the memory of a spare one.
fn is_copied(alloc: Global, one: &Row) -> Result<bool, AllocError> {
    let own = one.try_clone(alloc)?;
    let mut spare = Vec::new(alloc);
    spare.push(own)?;
    let copy = one.copy(alloc, &mut spare)?;
    let again = one.copy(alloc, &mut spare)?;
    Ok(
        is_row(&copy, Some(ONE), None, Some(PLACE))
            && is_row(&again, Some(ONE), None, Some(PLACE))
            && spare.is_empty(),
    )
}

/// Whether rows are merged, compared and copied.
pub fn are_rows(alloc: Global) -> Result<bool, AllocError> {
    let one = row(alloc, ONE)?;
    let other = row(alloc, OTHER)?;
    let are_cells = is_same(ONE, ONE) && !is_same(ONE, OTHER) && !is_same(ONE, PLACE);
    let is_merged = is_merged(alloc, &one)?;
    let is_copied = is_copied(alloc, &one)?;
    Ok(are_cells && is_merged && is_copied && !one.is_compatible(&other))
}
