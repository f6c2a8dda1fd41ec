//! Rows with their keys.

ghost use Rattle.std.specs.Prelude.{◌≡◌};
ghost use Rattle.std.specs.List.Sorted.{IsPermutation, IsSortedBy};
ghost use Rattle.qs_query_order.specs.inner.Keyed.{is_lower};
ghost use Rattle.qs_query_order.specs.inner.Keys.{compare_keys};

use crate::condition::OrderCondition;
use crate::keys::compared;
use qs_expr_values::Key;
use qs_expr_values::laws::keys_are_ordered;
use std::cmp::Ordering;

/// A row of any kind, with the keys of the solution that it denotes.
#[derive(Drop)]
pub struct KeyedRow<R: Drop> {
    pub keys: Vec<Key>,
    pub row: R,
}

pub(crate) fn order_of<R: Drop>(
    conditions: &[OrderCondition],
    a: &KeyedRow<R>,
    b: &KeyedRow<R>,
) -> Ordering
    ensures { result ≡ compare_keys conditions.now a.now.keys.items b.now.keys.items }
{
    compared(conditions, a.keys.as_slice(), b.keys.as_slice())
}

pub(crate) fn sort<R: Drop>(conditions: &[OrderCondition], keyed: &mut Vec<KeyedRow<R>>)
    ensures permutation { IsPermutation keyed.old.items keyed.new.items }
    ensures order { IsSortedBy (is_lower conditions.now) keyed.new.items }
{
    keys_are_ordered();
    keyed.sort_unstable_by(|a, b| order_of(conditions, a, b));
}
