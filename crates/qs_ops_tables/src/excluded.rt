//! The test of MINUS (SPARQL 1.1 Query, 18.5).

ghost use Rattle.std.specs.Prelude.{◌≡◌, take};
ghost use Rattle.std.specs.List.{list_any};
ghost use Rattle.qs_ops_tables.specs.inner.Tables.{excludes_cells};
ghost use Rattle.qs_ops_tables.specs.inner.Excluding as words;
ghost use Rattle.qs_ops_tables.specs.inner.Keys.{IsIndex};

use crate::index::{Index, first_for, hash_of, row_from};
use qs_expr::{Cell, Row, is_same};

/// Whether some variable is shared, with one more; none where its cells differ.
fn share_next(shared: bool, a: Option<Cell>, b: Option<Cell>) -> Option<bool>
    ensures { result ≡ words.share_next shared a b }
{
    match (a, b) {
        (Some(x), Some(y)) => { if is_same(x, y) { Some(true) } else { None } }
        _ => Some(shared),
    }
}

/// Whether the other row is compatible with the row's first `width` variables and shares a bound variable with them.
fn excludes(row: &Row, other: &Row, width: usize) -> bool
    ensures { result ≡ excludes_cells (take width row.now) other.now }
{
    let mut shared = false;
    for variable in 0..width.min(row.width()) {
        let Some(next) = share_next(shared, row.cell(variable), other.cell(variable)) else {
            return false;
        };
        shared = next;
    }
    shared
}

/// Whether one of the rows takes the row's first `width` variables away.
pub(crate) fn is_excluded(rows: &[Row], index: &Index, row: &Row, width: usize) -> bool
    requires { IsIndex index.now.key.items index.now.mask rows.now index.now.heads.items
        index.now.links.items }
    ensures { result ≡ list_any (excludes_cells (take width row.now)) rows.now }
{
    let hash = hash_of(index.key.as_slice(), row, width);
    let mut at = first_for(rows, index, hash);
    loop {
        let Some((other, next)) = row_from(rows, index, hash, at) else {
            return false;
        };
        if excludes(row, other, width) {
            return true;
        }
        at = next;
    }
}
