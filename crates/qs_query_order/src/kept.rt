//! Rows that are kept for an order while they come one after another.
//!
//! Where a count is given, so many of the lowest rows are kept, and some more: at most somewhat more than twice the count. A row that isn't below
//! the last of those in front is dropped at once. The contracts speak of a whole order: one that begins with these rows always exists.

ghost use Rattle.std.specs.Prelude.{◌≡◌, ◌⊎◌, ◌<◌, ◌≤◌, ◌++◌, [], ◌∷◌, true, OnOk, List, length};
ghost use Rattle.std.specs.List.{All};
ghost use Rattle.std.specs.List.Sorted.{IsPermutation, IsSortedBy};
ghost use Rattle.qs_algebra_solutions.specs.Solution.{Solution};
ghost use Rattle.qs_query_order.specs.inner.Keyed.{is_lower, solutions_of, AreInFront, AreInFrontIf, AreKept, AreKeptIf, ArePart, Covers, IsKeyed};
ghost use Rattle.qs_query_order.specs.inner.Order.{AreFirstIf};

use crate::condition::OrderCondition;
use crate::keyed::{KeyedRow, order_of, sort};
use qs_expr_values::laws::keys_are_ordered;
use std::alloc::AllocError;

// how many rows may be kept besides twice the count, before all but the first are dropped
const ROOM: usize = 256;

// sorts the rows, and drops all but so many of the first
fn cut<R: Drop>(conditions: &[OrderCondition], kept: &mut Vec<KeyedRow<R>>, count: usize)
    ensures part { ArePart kept.old.items kept.new.items }
    ensures kept { (f : R → Solution) (seen : List Solution)
        → All (IsKeyed f conditions.now) kept.old.items → AreKept conditions.now count seen
        (solutions_of f kept.old.items) → AreKept conditions.now count seen
        (solutions_of f kept.new.items) }
    ensures order { IsSortedBy (is_lower conditions.now) kept.new.items }
    ensures short { length kept.new.items ≤ count }
{
    keys_are_ordered();
    sort(conditions, kept);
    kept.truncate(count);
}

// whether so many of the rows that are kept, which are in order, aren't above this one
fn is_passed<R: Drop>(
    conditions: &[OrderCondition],
    kept: &[KeyedRow<R>],
    count: usize,
    one: &KeyedRow<R>,
) -> bool
    requires { AreInFront conditions.now count kept.now }
    ensures { result ≡ true → (f : R → Solution) → All (IsKeyed f conditions.now) kept.now
        → IsKeyed f conditions.now one.now → Covers conditions.now count (solutions_of f kept.now)
        (f one.now.row) }
{
    keys_are_ordered();
    if count == 0 || kept.len() < count {
        return false;
    }
    !order_of(conditions, one, &kept[count - 1]).is_lt()
}

// cuts the rows where they are so many for the first time, or somewhat more than twice so many
fn cut_where_full<R: Drop>(conditions: &[OrderCondition], kept: &mut Vec<KeyedRow<R>>, count: usize)
    requires { AreInFront conditions.now count kept.old.items ⊎ (length kept.old.items ≡ count) }
    ensures front { AreInFront conditions.now count kept.new.items }
    ensures part { ArePart kept.old.items kept.new.items }
    ensures kept { (f : R → Solution) (seen : List Solution)
        → All (IsKeyed f conditions.now) kept.old.items → AreKept conditions.now count seen
        (solutions_of f kept.old.items) → AreKept conditions.now count seen
        (solutions_of f kept.new.items) }
{
    let room = count.saturating_add(count).saturating_add(ROOM);
    if kept.len() == count || room < kept.len() {
        cut(conditions, kept, count);
    }
}

// takes the next row into account, where a count is given
fn put_first<R: Drop>(
    conditions: &[OrderCondition],
    kept: &mut Vec<KeyedRow<R>>,
    count: usize,
    one: KeyedRow<R>,
) -> Result<Option<R>, AllocError>
    requires { AreInFront conditions.now count kept.old.items }
    ensures front { OnOk result (AreInFront conditions.now count kept.new.items) }
    ensures part { OnOk result (ArePart (kept.old.items ++ one ∷ []) kept.new.items) }
    ensures kept { OnOk result ((f : R → Solution) (seen : List Solution)
        → All (IsKeyed f conditions.now) kept.old.items → IsKeyed f conditions.now one
        → AreKept conditions.now count seen (solutions_of f kept.old.items)
        → AreKept conditions.now count (seen ++ f one.row ∷ [])
        (solutions_of f kept.new.items)) }
{
    if is_passed(conditions, kept.as_slice(), count, &one) {
        return Ok(Some(one.row));
    }
    kept.push(one)?;
    cut_where_full(conditions, kept, count);
    Ok(None)
}

/// Takes the next row into account. Where a count is given, so many of the lowest rows are kept, and some more; else all are. The answer may be
/// a row that isn't kept, for its memory.
///
/// # Errors
/// Out of memory.
pub fn keep<R: Drop>(
    conditions: &[OrderCondition],
    kept: &mut Vec<KeyedRow<R>>,
    count: Option<usize>,
    one: KeyedRow<R>,
) -> Result<Option<R>, AllocError>
    requires { AreInFrontIf conditions.now count kept.old.items }
    ensures front { OnOk result (AreInFrontIf conditions.now count kept.new.items) }
    ensures part { OnOk result (ArePart (kept.old.items ++ one ∷ []) kept.new.items) }
    ensures kept { OnOk result ((f : R → Solution) (seen : List Solution)
        → All (IsKeyed f conditions.now) kept.old.items → IsKeyed f conditions.now one
        → AreKeptIf conditions.now count seen (solutions_of f kept.old.items)
        → AreKeptIf conditions.now count (seen ++ f one.row ∷ [])
        (solutions_of f kept.new.items)) }
{
    match count {
        None => {
            kept.push(one)?;
            Ok(None)
        }
        Some(count) => put_first(conditions, kept, count, one),
    }
}

/// Sorts the rows that are kept by the conditions; ties stand in any order. Where a count is given, only so many of the first are left.
pub fn put_in_order<R: Drop>(
    conditions: &[OrderCondition],
    kept: &mut Vec<KeyedRow<R>>,
    count: Option<usize>,
)
    ensures part { ArePart kept.old.items kept.new.items }
    ensures first { (f : R → Solution) (seen : List Solution)
        → All (IsKeyed f conditions.now) kept.old.items → AreKeptIf conditions.now count seen
        (solutions_of f kept.old.items) → AreFirstIf conditions.now count seen
        (solutions_of f kept.new.items) }
{
    keys_are_ordered();
    match count {
        None => sort(conditions, kept),
        Some(count) => cut(conditions, kept, count),
    }
}
