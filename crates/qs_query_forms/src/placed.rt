//! DISTINCT with ORDER BY, where each condition is a variable of the answer (SPARQL 1.1 Query, 15.1 and 15.3).
//!
//! All solutions that give the same row have the same keys then. So the distinct rows are put in order in place of the solutions.

ghost use Rattle.std.specs.Prelude.{◌≡◌, ◌<◌, length, slice_index_or, IfOk, IfSome};
ghost use Rattle.std.specs.List.{All};
ghost use Rattle.qs_algebra_solutions.specs.Solution.{Solution};
ghost use Rattle.qs_query_order.specs.inner.Order.{AreFirstIf};
ghost use Rattle.qs_query_order.specs.inner.Keyed.{solutions_of, AreKeptIf, IsKeyed};
ghost use Rattle.qs_query_forms.specs.inner.Placed.{itself, ArePlaced, IsPlaced};

use qs_algebra_solutions::Row;
use qs_expr_meaning::Expr;
use qs_query_order::{KeyedRow, OrderCondition, keep, keys_of, put_in_order};
use std::alloc::{AllocError, Global};

fn place_in(columns: &[usize], variable: usize) -> Option<usize>
    ensures { IfSome result (λ place. (place < length columns.now)
        × (slice_index_or columns.now place 0 ≡ variable)) }
{
    for place in 0..columns.len() {
        if columns[place] == variable {
            return Some(place);
        }
    }
    None
}

// the condition as one over rows of these columns, where it is a variable among them
fn placed_condition(columns: &[usize], condition: &OrderCondition) -> Option<OrderCondition>
    ensures { IfSome result (λ placed. IsPlaced columns.now condition.now placed) }
{
    match &condition.key {
        Expr::Variable(variable) => {
            let place = place_in(columns, *variable)?;
            Some(OrderCondition {
                direction: condition.direction,
                key: Expr::Variable(place),
            })
        }
        _ => None,
    }
}

/// The conditions as ones over rows of these columns, where each is a variable among them.
pub fn placed(
    alloc: Global,
    columns: &[usize],
    conditions: &[OrderCondition],
) -> Result<Option<Vec<OrderCondition>>, AllocError>
    ensures { IfOk result
        (λ all. IfSome all (λ placed. ArePlaced columns.now conditions.now placed.items)) }
{
    let mut all = Vec::with_capacity(alloc, conditions.len())?;
    for condition in conditions {
        let Some(one) = placed_condition(columns, condition) else {
            return Ok(None);
        };
        all.push(one)?;
    }
    Ok(Some(all))
}

fn kept_of(
    alloc: Global,
    conditions: &[OrderCondition],
    mut rows: Vec<Row>,
    count: Option<usize>,
) -> Result<Vec<KeyedRow<Row>>, AllocError>
    ensures keyed { IfOk result (λ kept. All (IsKeyed itself conditions.now) kept.items) }
    ensures kept { IfOk result (λ kept. AreKeptIf conditions.now count rows.items
        (solutions_of itself kept.items)) }
{
    let mut kept = Vec::new(alloc);
    while let Some(row) = rows.pop() {
        let keys = keys_of(alloc, conditions, &row)?;
        keep(conditions, &mut kept, count, KeyedRow { keys, row })?;
    }
    Ok(kept)
}

fn rows_of(alloc: Global, mut kept: Vec<KeyedRow<Row>>) -> Result<Vec<Row>, AllocError>
    ensures { IfOk result (λ rows. rows.items ≡ solutions_of itself kept.items) }
{
    let mut rows = Vec::with_capacity(alloc, kept.len())?;
    while let Some(one) = kept.pop() {
        rows.push(one.row)?;
    }
    rows.reverse();
    Ok(rows)
}

fn size_of(count: Option<u64>) -> Option<usize>
    ensures { result ≡ count }
{
    match count {
        None => None,
        Some(count) => Some(count as usize),
    }
}

/// The rows in an order of the conditions; where a count is given, only so many of the first.
pub fn sorted(
    alloc: Global,
    conditions: &[OrderCondition],
    rows: Vec<Row>,
    count: Option<u64>,
) -> Result<Vec<Row>, AllocError>
    ensures { IfOk result (λ first. AreFirstIf conditions.now count rows.items first.items) }
{
    let count = size_of(count);
    let mut kept = kept_of(alloc, conditions, rows, count)?;
    put_in_order(conditions, &mut kept, count);
    rows_of(alloc, kept)
}
