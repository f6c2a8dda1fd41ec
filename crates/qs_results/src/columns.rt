//! Columns in the order of their names, which is that of the members of an object.
//!
//! Columns are put in the order of their names once for all rows. A name that is twice among the variables is twice in `head`,
//! and the last of its terms counts; no query results in this.

ghost use Rattle.std.specs.Prelude.{◌≡◌, if◌then◌else◌, IfOk, OnOk};
ghost use Rattle.std.specs.BTreeMap.{insert_entry};
ghost use Rattle.std.specs.Cmp.Lexicographic.{slice_cmp};
ghost use Rattle.std.specs.Option.{ForSome};
ghost use Rattle.std.specs.Ordering.{nat_cmp};
ghost use Rattle.serde_json.specs.Data.{no_members};
ghost use Rattle.qs_results.specs.inner.Columns.{members_of, AreColumns};
ghost use Rattle.qs_results.specs.Json.{with_bindings};

use qs_algebra_solutions::Row;
use qs_terms::Text;
use std::alloc::{AllocError, Global};
use std::collections::BTreeMap;

fn listed(
    alloc: Global,
    mut columns: BTreeMap<Text, usize>,
) -> Result<Vec<(Text, usize)>, AllocError>
    ensures { IfOk result (λ list. list.items ≡ columns.entries) }
{
    let mut list = Vec::new(alloc);
    while let Some(column) = columns.pop_first() {
        list.push(column)?;
    }
    Ok(list)
}

/// The columns of all rows, unless two have the same name.
pub(crate) fn columns_of(
    alloc: Global,
    vars: &[Text],
) -> Result<Option<Vec<(Text, usize)>>, AllocError>
    ensures { IfOk result (λ o. ForSome o (λ columns. AreColumns vars.now columns.items)) }
{
    let mut columns = BTreeMap::new(alloc);
    for at in 0..vars.len() {
        let name = vars[at].try_clone(alloc)?;
        if columns.insert(name, at)?.is_some() {
            return Ok(None);
        }
    }
    let columns = listed(alloc, columns)?;
    Ok(Some(columns))
}

// Puts the column in, where it is bound.
fn put_bound(
    alloc: Global,
    columns: &mut BTreeMap<Text, usize>,
    name: &Text,
    at: usize,
    is_bound: bool,
) -> Result<(), AllocError>
    ensures { OnOk result
        (columns.new.entries
        ≡ (if is_bound then insert_entry (slice_cmp nat_cmp) columns.old.entries name.now at
        else columns.old.entries)) }
{
    if is_bound {
        let name = name.try_clone(alloc)?;
        columns.insert(name, at)?;
    }
    Ok(())
}

/// The columns that are bound in a row. Of two with the same name it is the later one.
pub(crate) fn bound_columns(
    alloc: Global,
    vars: &[Text],
    row: &Row,
) -> Result<Vec<(Text, usize)>, AllocError>
    ensures { IfOk result (λ columns. members_of columns.items row.now ≡ with_bindings vars.now
        row.now no_members) }
{
    let mut columns = BTreeMap::new(alloc);
    for at in 0..vars.len() {
        put_bound(alloc, &mut columns, &vars[at], at, row.term(at).is_some())?;
    }
    listed(alloc, columns)
}
