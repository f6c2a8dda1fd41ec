//! The keys of a solution, one for each condition.
//!
//! The keys of a row are computed once. The first condition that tells two rows apart decides; conditions are a list, so
//! comparing takes no stack.

ghost use Rattle.std.specs.Prelude.{◌≡◌, IfOk, map, drop, length};
ghost use Rattle.qs_query_order.specs.inner.Keys as spec;
ghost use Rattle.qs_query_order.specs.Order as order;

use crate::condition::OrderCondition;
use qs_expr_meaning::{Bindings, order_key_terms};
use qs_expr_values::Key;
use qs_syntax_tree::query::Direction;
use std::alloc::{AllocError, Global};
use std::cmp::Ordering;

/// The keys of the solution that the row denotes.
///
/// # Errors
/// Out of memory.
pub fn keys_of<B: Bindings>(
    alloc: Global,
    conditions: &[OrderCondition],
    row: &B,
) -> Result<Vec<Key>, AllocError>
    ensures { IfOk result (λ keys. keys.items ≡ spec.keys_of conditions.now (B.solution row.now)) }
{
    let mut keys = Vec::with_capacity(alloc, conditions.len())?;
    for condition in conditions {
        let key = order_key_terms(alloc, &condition.key, row)?;
        keys.push(key)?;
    }
    Ok(keys)
}

fn directed(direction: Direction, x: &Key, y: &Key) -> Ordering
    ensures { result ≡ order.directed direction x.now y.now }
{
    match direction {
        Direction::Ascending => x.order(y),
        Direction::Descending => y.order(x),
    }
}

fn first_order(direction: Direction, a: &[Key], b: &[Key]) -> Ordering
    ensures { result ≡ order.directed direction (spec.first_key a.now) (spec.first_key b.now) }
{
    let none = Key::Unbound;
    let x = a.first().unwrap_or(&none);
    let y = b.first().unwrap_or(&none);
    directed(direction, x, y)
}

fn behind_first(keys: &[Key]) -> &[Key]
    ensures { result.now ≡ spec.behind_first keys.now }
{
    match keys.split_first() {
        None => keys,
        Some((_, rest)) => rest,
    }
}

/// How the keys of two solutions stand to each other: by the first condition that tells them apart.
pub fn compared(conditions: &[OrderCondition], a: &[Key], b: &[Key]) -> Ordering
    ensures { result ≡ spec.compare_keys conditions.now a.now b.now }
{
    let mut a = a;
    let mut b = b;
    for condition in conditions {
        match first_order(condition.direction, a, b) {
            Ordering::Less => return Ordering::Less,
            Ordering::Greater => return Ordering::Greater,
            Ordering::Equal => {}
        }
        a = behind_first(a);
        b = behind_first(b);
    }
    Ordering::Equal
}
