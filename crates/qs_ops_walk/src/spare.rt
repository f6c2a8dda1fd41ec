//! Rows that were dropped, for their memory.

use qs_expr::Row;

/// So many rows are kept, for which a list has room from the beginning.
pub(crate) const LIMIT: usize = 32;

/// Keeps the memory of the row for a copy.
#[inline(always)]
pub(crate) fn keep(spare: &mut Vec<Row>, row: Row) {
    if spare.len() < LIMIT {
        let _ = spare.push(row);
    }
}

pub(crate) fn keep_if(spare: &mut Vec<Row>, row: Option<Row>) {
    if let Some(row) = row {
        keep(spare, row);
    }
}
