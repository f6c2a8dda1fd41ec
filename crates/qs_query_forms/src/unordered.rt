//! Rows of the answer alone, which are sliced in place. That takes no memory.

ghost use Rattle.std.specs.Prelude.{◌≡◌, drop};
ghost use Rattle.qs_query_forms.specs.inner.InOrder.{bounded};
ghost use Rattle.qs_query_forms.specs.Sequence as spec;
ghost use Rattle.qs_query_forms.specs.inner.Sequence as inner;

use crate::modifiers::Slice;
use qs_algebra_solutions::Row;
use qs_terms::QFault;
use sqlite_items::Items;

// drops so many rows at the front
fn leave_out(rows: &mut Vec<Row>, offset: u64)
    ensures { rows.new.items ≡ drop offset rows.old.items }
{
    let first = offset.min(rows.len() as u64) as usize;
    let left = rows.len() - first;
    rows.rotate_left(first);
    rows.truncate(left);
}

/// Drops the rows after so many.
pub fn limit(rows: &mut Vec<Row>, limit: Option<u64>)
    ensures { rows.new.items ≡ inner.limited limit rows.old.items }
{
    if let Some(limit) = limit {
        let end = limit.min(rows.len() as u64);
        rows.truncate(end as usize);
    }
}

/// The first rows up to the limit, unless they are too many.
pub fn first_of(
    mut rows: Vec<Row>,
    limit_of: Option<u64>,
    max_rows: u64,
) -> Result<Items<Row>, QFault>
    ensures { result ≡ bounded max_rows (inner.limited limit_of rows.items) }
{
    limit(&mut rows, limit_of);
    if rows.len() as u64 > max_rows {
        return Err(QFault::TooManyRows);
    }
    Ok(Items::from_vec(rows))
}

/// The part of the rows, unless it is too long.
pub fn part_of(mut rows: Vec<Row>, slice: Slice, max_rows: u64) -> Result<Items<Row>, QFault>
    ensures { result ≡ bounded max_rows (spec.sliced slice rows.items) }
{
    leave_out(&mut rows, slice.offset);
    first_of(rows, slice.limit, max_rows)
}
