//! The sequence of a SELECT: its solutions in order, projected, without duplicates where that is asked for, and sliced (SPARQL 1.1
//! Query, 18.2.5).

ghost use Rattle.std.specs.Prelude.{◌≡◌, true, length, map, take, drop, min, IfOk, IfSome};
ghost use Rattle.qs_algebra_solutions.specs.Solution.{projected};
ghost use Rattle.qs_base.specs.inner.Lent.{lent};
ghost use Rattle.qs_query_forms.specs.inner.InOrder.{AllowsMore, ByLimit, Suffices};
ghost use Rattle.qs_query_forms.specs.Sequence as spec;
ghost use Rattle.qs_query_forms.specs.inner.Sequence as inner;

use crate::distinct::firsts;
use crate::modifiers::Slice;
use crate::selection::Selection;
use qs_algebra_solutions::Row;
use qs_query_order::OrderCondition;
use std::alloc::{AllocError, Global};

/// How many of the solutions in order suffice for the slice, where not all are needed.
pub fn needed_count(slice: Slice) -> Option<u64>
    ensures { Suffices slice result }
{
    match slice.limit {
        None => None,
        Some(limit) => slice.offset.checked_add(limit),
    }
}

fn allows_more(limit: Option<u64>, max_rows: u64) -> bool
    ensures { result ≡ true → AllowsMore limit max_rows }
{
    match limit {
        None => true,
        Some(limit) => max_rows < limit,
    }
}

/// How many of the solutions suffice for the slice in whichever order they are found, where not all are needed: one more than are allowed
/// after the OFFSET, or, where no conditions put them in order, those up to the end of the LIMIT.
pub fn enough_for_slice(slice: Slice, conditions: &[OrderCondition], max_rows: u64) -> Option<u64>
    ensures { IfSome result (ByLimit slice conditions.now max_rows) }
{
    if allows_more(slice.limit, max_rows) {
        return slice.offset.checked_add(max_rows)?.checked_add(1);
    }
    if !conditions.is_empty() {
        return None;
    }
    let limit = slice.limit?;
    slice.offset.checked_add(limit)
}

/// The rows, lent.
pub fn lent_rows<'a>(alloc: Global, rows: &'a [Row]) -> Result<Vec<&'a Row>, AllocError>
    ensures { IfOk result (λ all. lent all.items ≡ rows.now) }
{
    let mut all = Vec::with_capacity(alloc, rows.len())?;
    for row in rows {
        all.push(row)?;
    }
    Ok(all)
}

/// The rows that are listed of those in order: all, or without duplicates the first ones. They aren't projected yet.
pub fn listed_rows<'a>(
    alloc: Global,
    asked: &Selection,
    all: Vec<&'a Row>,
) -> Result<Vec<&'a Row>, AllocError>
    ensures { IfOk result (λ rows. map (projected asked.now.columns) (lent rows.items)
        ≡ spec.listed_rows asked.now (lent all.entry.items)) }
{
    if asked.is_distinct {
        return firsts(alloc, all.as_slice(), asked.columns.as_slice());
    }
    Ok(all)
}

fn limited<'r, 'a>(rows: &'r [&'a Row], limit: Option<u64>) -> &'r [&'a Row]
    ensures { result.now ≡ inner.limited limit rows.now }
{
    match limit {
        None => rows,
        Some(limit) => {
            let end = limit.min(rows.len() as u64);
            &rows[..end as usize]
        }
    }
}

/// The part of the rows: so many are left out at their front, and so many are left of the rest.
pub fn slice_rows<'r, 'a>(rows: &'r [&'a Row], slice: Slice) -> &'r [&'a Row]
    ensures { result.now ≡ spec.sliced slice rows.now }
{
    let first = slice.offset.min(rows.len() as u64);
    limited(&rows[first as usize..], slice.limit)
}

/// The rows with the terms of these variables alone.
pub fn project_rows(alloc: Global, rows: &[&Row], columns: &[usize]) -> Result<Vec<Row>, AllocError>
    ensures { IfOk result (λ all. all.items ≡ map (projected columns.now) (lent rows.now)) }
{
    let mut all = Vec::new(alloc);
    for &row in rows {
        let row = row.project(alloc, columns)?;
        all.push(row)?;
    }
    Ok(all)
}
