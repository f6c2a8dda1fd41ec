//! Lists of entries that are put into an order or taken out of it, and the entries of named graphs among them.
//!
//! An order of all entries and one of those of named graphs are filled in turn where they agree but for the place of the graph: a list of one
//! graph stands sorted for the second already.
ghost use Rattle.std.specs.Prelude.{◌≡◌, ℕ, ◌+◌, ◌≤◌, List, [], true, false, IfOk, length, map, take, drop};
ghost use Rattle.std.specs.List.{All};
ghost use Rattle.std.specs.List.Sorted.{IsPermutation, IsNonDecreasingBy};
ghost use Rattle.qs_index.specs.inner.Entries.{IsUnion, IsDifference};
ghost use Rattle.qs_index.specs.inner.Entry.{IsEntry, number_of};
ghost use Rattle.qs_index.specs.inner.Graph.{is_named, named_entries};
ghost use Rattle.qs_index.specs.inner.OrderOf.{IsOrderOf};
ghost use Rattle.qs_index.specs.inner.Permutation.{turned};

use crate::entry::{is_named, key};
use crate::order::Order;
use crate::permutation::Permutation;
use std::alloc::{AllocError, Global};

/// Sorts the entries in the order GSPO, in which they are looked for fastest one after another. It takes no memory.
pub fn sort(entries: &mut [[u32; 4]])
    ensures permutation { IsPermutation entries.old entries.new }
    ensures ascending { IsNonDecreasingBy number_of entries.new }
{
    entries.sort_unstable_by_key(|entry| key(entry));
}

// Puts entries into an order, turned and sorted.
fn insert_turned(order: &mut Order, permutation: Permutation, entries: &mut [[u32; 4]])
    requires { length entries.old ≤ order.old.spare }
    ensures union { IsUnion order.old.entries (map (turned permutation) entries.old)
        order.new.entries }
    ensures entries { All IsEntry (map (turned permutation) entries.old) }
    ensures spare { order.old.spare ≤ order.new.spare + length entries.old }
    ensures permutation { IsPermutation entries.old entries.new }
{
    permutation.turn_all(entries);
    sort(entries);
    order.insert_all(entries);
    permutation.restore_all(entries);
}

// An order of entries, turned and sorted.
fn turned_order(
    alloc: Global,
    permutation: Permutation,
    entries: &mut [[u32; 4]],
) -> Result<Order, AllocError>
    ensures union { IfOk result (λ order. IsUnion [] (map (turned permutation) entries.old)
        order.entries) }
    ensures entries { All IsEntry (map (turned permutation) entries.old) }
    ensures permutation { IsPermutation entries.old entries.new }
{
    permutation.turn_all(entries);
    sort(entries);
    let order = Order::from_entries(alloc, entries);
    permutation.restore_all(entries);
    order
}

// Takes entries out of an order, turned and sorted.
fn remove_turned(order: &mut Order, permutation: Permutation, entries: &mut [[u32; 4]])
    ensures difference { IsDifference order.old.entries (map (turned permutation) entries.old)
        order.new.entries }
    ensures spare { order.old.spare ≤ order.new.spare }
    ensures permutation { IsPermutation entries.old entries.new }
{
    permutation.turn_all(entries);
    sort(entries);
    order.remove_all(entries);
    permutation.restore_all(entries);
}

// Moves the entries of the default graph to the front, and tells how many there are.
fn default_first(entries: &mut [[u32; 4]]) -> usize
    ensures within { result ≤ length entries.new }
    ensures default { All (λ entry. is_named entry ≡ false) (take result entries.new) }
    ensures named { All (λ entry. is_named entry ≡ true) (drop result entries.new) }
    ensures permutation { IsPermutation entries.old entries.new }
{
    let mut first = 0;
    for i in 0..entries.len() {
        if !is_named(&entries[i]) {
            entries.swap(first, i);
            first += 1;
        }
    }
    first
}

/// How many of the entries are of named graphs.
pub fn count_named(entries: &[[u32; 4]]) -> usize
    ensures { result ≡ length (named_entries entries.now) }
{
    let mut count = 0;
    for i in 0..entries.len() {
        if is_named(&entries[i]) {
            count += 1;
        }
    }
    count
}

// Puts those of the entries that are of named graphs into an order of such, and leaves all in some order.
fn insert_named(order: &mut Order, permutation: Permutation, entries: &mut [[u32; 4]])
    requires { length (named_entries entries.old) ≤ order.old.spare }
    ensures order { (xs ys : List (List ℕ)) → IsUnion xs entries.old ys
        → IsOrderOf permutation (named_entries xs) order.old.entries
        → IsOrderOf permutation (named_entries ys) order.new.entries }
    ensures spare { order.old.spare ≤ order.new.spare + length (named_entries entries.old) }
    ensures permutation { IsPermutation entries.old entries.new }
{
    let first = default_first(entries);
    let (_, named) = entries.split_at_mut(first);
    insert_turned(order, permutation, named);
}

// An order of those of the entries that are of named graphs. It leaves all in some order.
fn named_order(
    alloc: Global,
    permutation: Permutation,
    entries: &mut [[u32; 4]],
) -> Result<Order, AllocError>
    ensures order { IfOk result (λ order. (ys : List (List ℕ)) → IsUnion [] entries.old ys
        → IsOrderOf permutation (named_entries ys) order.entries) }
    ensures permutation { IsPermutation entries.old entries.new }
{
    let first = default_first(entries);
    let (_, named) = entries.split_at_mut(first);
    turned_order(alloc, permutation, named)
}

// Takes those of the entries that are of named graphs out of an order of such, and leaves all in some order.
fn remove_named(order: &mut Order, permutation: Permutation, entries: &mut [[u32; 4]])
    ensures order { (xs ys : List (List ℕ)) → IsDifference xs entries.old ys
        → IsOrderOf permutation (named_entries xs) order.old.entries
        → IsOrderOf permutation (named_entries ys) order.new.entries }
    ensures spare { order.old.spare ≤ order.new.spare }
    ensures permutation { IsPermutation entries.old entries.new }
{
    let first = default_first(entries);
    let (_, named) = entries.split_at_mut(first);
    remove_turned(order, permutation, named);
}

/// Puts entries into an order of all, and those of named graphs into an order of such. It leaves them in some order.
pub fn insert_both(
    order: &mut Order,
    permutation: Permutation,
    named: &mut Order,
    named_permutation: Permutation,
    entries: &mut [[u32; 4]],
)
    requires room { length entries.old ≤ order.old.spare }
    requires named_room { length (named_entries entries.old) ≤ named.old.spare }
    ensures union { IsUnion order.old.entries (map (turned permutation) entries.old)
        order.new.entries }
    ensures entries { All IsEntry (map (turned permutation) entries.old) }
    ensures named { (xs ys : List (List ℕ)) → IsUnion xs entries.old ys
        → IsOrderOf named_permutation (named_entries xs) named.old.entries
        → IsOrderOf named_permutation (named_entries ys) named.new.entries }
    ensures spare { order.old.spare ≤ order.new.spare + length entries.old }
    ensures named_spare { named.old.spare ≤ named.new.spare + length (named_entries entries.old) }
    ensures permutation { IsPermutation entries.old entries.new }
{
    insert_turned(order, permutation, entries);
    insert_named(named, named_permutation, entries);
}

/// An order of all entries, and one of those of named graphs.
#[derive(Drop)]
pub struct BothOrders {
    pub all: Order,
    pub named: Order,
}

/// An order of the entries, and one of those of named graphs among them. It leaves the entries in some order.
pub fn both_orders(
    alloc: Global,
    permutation: Permutation,
    named_permutation: Permutation,
    entries: &mut [[u32; 4]],
) -> Result<BothOrders, AllocError>
    ensures union { IfOk result (λ both. IsUnion [] (map (turned permutation) entries.old)
        both.all.entries) }
    ensures entries { All IsEntry (map (turned permutation) entries.old) }
    ensures named { IfOk result (λ both. (ys : List (List ℕ)) → IsUnion [] entries.old ys
        → IsOrderOf named_permutation (named_entries ys) both.named.entries) }
    ensures permutation { IsPermutation entries.old entries.new }
{
    let all = turned_order(alloc, permutation, entries)?;
    let named = named_order(alloc, named_permutation, entries)?;
    Ok(BothOrders { all, named })
}

/// Takes entries out of an order of all, and those of named graphs out of an order of such. It leaves them in some order.
pub fn remove_both(
    order: &mut Order,
    permutation: Permutation,
    named: &mut Order,
    named_permutation: Permutation,
    entries: &mut [[u32; 4]],
)
    ensures difference { IsDifference order.old.entries (map (turned permutation) entries.old)
        order.new.entries }
    ensures named { (xs ys : List (List ℕ)) → IsDifference xs entries.old ys
        → IsOrderOf named_permutation (named_entries xs) named.old.entries
        → IsOrderOf named_permutation (named_entries ys) named.new.entries }
    ensures spare { order.old.spare ≤ order.new.spare }
    ensures named_spare { named.old.spare ≤ named.new.spare }
    ensures permutation { IsPermutation entries.old entries.new }
{
    remove_turned(order, permutation, entries);
    remove_named(named, named_permutation, entries);
}
