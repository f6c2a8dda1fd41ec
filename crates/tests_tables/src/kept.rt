//! Kept rows: twelve, of which the first binds the variables 0 and 1 to the cells 0 and 0, the next to 1 and 1, and so on, the sixth to 0
//! and 5 again.

use qs_base::Shared;
use qs_expr::{Cell, Row};
use qs_ops_tables::{KeptTable, Probe};
use std::alloc::{AllocError, Global};

fn row(alloc: Global, bound: &[(usize, u32)]) -> Result<Row, AllocError> {
    let mut row = Row::unbound(alloc, 3)?;
    for (variable, number) in bound {
        row.set(*variable, Some(Cell::Known(*number)));
    }
    Ok(row)
}

fn kept(alloc: Global, first: &Row) -> Result<KeptTable, AllocError> {
    let mut rows = Vec::new(alloc);
    for i in 0..12u32 {
        let one = row(alloc, &[(0, i % 5), (1, i)])?;
        rows.push(one)?;
    }
    KeptTable::new(alloc, rows, first)
}

/// Whether the row binds these variables, and no other.
fn binds(row: &Row, first: u32, second: u32, third: Option<u32>) -> bool {
    row.cell(0) == Some(Cell::Known(first))
        && row.cell(1) == Some(Cell::Known(second))
        && row.cell(2) == third.map(|number| Cell::Known(number))
}

/// Whether the next merge binds these variables.
fn gives(
    alloc: Global,
    probe: &mut Probe,
    spare: &mut Vec<Row>,
    first: u32,
    second: u32,
) -> Result<bool, AllocError> {
    match probe.next(alloc, spare)? {
        Some(row) => {
            let is_right = binds(&row, first, second, Some(9));
            spare.push(row)?;
            Ok(is_right)
        }
        None => Ok(false),
    }
}

/// Whether a row that binds the variable 0 to 3 meets the two rows that do.
fn meets_two(alloc: Global, kept: &Shared<KeptTable>) -> Result<bool, AllocError> {
    let mut spare = Vec::new(alloc);
    let third = row(alloc, &[(0, 3), (2, 9)])?;
    let mut probe = Probe::new(kept.share()?, third);
    let one = gives(alloc, &mut probe, &mut spare, 3, 3)?;
    let two = gives(alloc, &mut probe, &mut spare, 3, 8)?;
    let is_end = probe.next(alloc, &mut spare)?.is_none();
    let own = probe.into_row();
    Ok(one && two && is_end && own.cell(0) == Some(Cell::Known(3)) && own.cell(1) == None)
}

/// Whether a row that shares no variable with the kept rows meets all.
fn meets_all(alloc: Global, kept: &Shared<KeptTable>) -> Result<bool, AllocError> {
    let mut spare = Vec::new(alloc);
    let open = row(alloc, &[(2, 9)])?;
    let mut probe = Probe::new(kept.share()?, open);
    for i in 0..12u32 {
        if !gives(alloc, &mut probe, &mut spare, i % 5, i)? {
            return Ok(false);
        }
    }
    Ok(probe.next(alloc, &mut spare)?.is_none())
}

/// Whether a row of another key meets none.
fn meets_none(alloc: Global, kept: &Shared<KeptTable>) -> Result<bool, AllocError> {
    let mut spare = Vec::new(alloc);
    let apart = row(alloc, &[(0, 7)])?;
    let mut probe = Probe::new(kept.share()?, apart);
    Ok(probe.next(alloc, &mut spare)?.is_none())
}

/// Whether the row that binds these variables is excluded, by its first `width` variables.
fn excludes(
    alloc: Global,
    kept: &KeptTable,
    bound: &[(usize, u32)],
    width: usize,
) -> Result<bool, AllocError> {
    let row = row(alloc, bound)?;
    Ok(kept.is_excluded(&row, width))
}

/// Rows, how many of their variables are asked for, and whether they are excluded: where they are compatible with a kept row and share a
/// variable with it.
const EXCLUDED: &[(&[(usize, u32)], usize, bool)] = &[
    (&[(0, 3)], 3, true),
    (&[(0, 3)], 0, false),
    (&[(0, 3), (1, 4)], 3, false),
    (&[(0, 3), (1, 4)], 1, true),
    (&[(2, 9)], 3, false),
    (&[(1, 11), (2, 9)], 3, true),
];

fn are_excluded(alloc: Global, kept: &KeptTable) -> Result<bool, AllocError> {
    for (bound, width, due) in EXCLUDED {
        if excludes(alloc, kept, bound, *width)? != *due {
            return Ok(false);
        }
    }
    Ok(true)
}

/// Whether rows that are found as this first row has it are met, and exclude, as they ought to.
fn are_right_by(alloc: Global, first: &[(usize, u32)]) -> Result<bool, AllocError> {
    let first = row(alloc, first)?;
    let kept = Shared::new(alloc, kept(alloc, &first)?)?;
    Ok(
        are_excluded(alloc, kept.get())?
            && meets_two(alloc, &kept)?
            && meets_all(alloc, &kept)?
            && meets_none(alloc, &kept)?,
    )
}

/// Whether kept rows are right with a key of one variable, with one of two, and with none.
pub fn are_right(alloc: Global) -> Result<bool, AllocError> {
    Ok(
        are_right_by(alloc, &[(0, 1)])?
            && are_right_by(alloc, &[(0, 1), (1, 1)])?
            && are_right_by(alloc, &[(2, 9)])?,
    )
}
