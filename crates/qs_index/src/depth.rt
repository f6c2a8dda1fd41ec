//! What entries have in common that begin alike in an order.
ghost use Rattle.std.specs.Prelude.{◌≡◌};
ghost use Rattle.qs_index.specs.inner.Agreeing.{fits, agrees_anywhere};
ghost use Rattle.qs_index.specs.inner.Depth.{depth, depth_of};

use crate::permutation::Permutation;

fn depth_of(first: Option<u32>, second: Option<u32>, third: Option<u32>) -> usize
    ensures { result ≡ depth_of first second third }
{
    match (first, second, third) {
        (_, _, Some(_)) => 3,
        (_, Some(_), None) => 2,
        (Some(_), None, None) => 1,
        (None, None, None) => 0,
    }
}

/// How many places of the order come first, up to the last of those that are given.
pub fn depth(
    permutation: Permutation,
    subject: Option<u32>,
    predicate: Option<u32>,
    object: Option<u32>,
) -> usize
    ensures { result ≡ depth permutation subject predicate object }
{
    match permutation {
        Permutation::Gspo => 1 + depth_of(subject, predicate, object),
        Permutation::Gpos => 1 + depth_of(predicate, object, subject),
        Permutation::Gosp => 1 + depth_of(object, subject, predicate),
        Permutation::Spog => depth_of(subject, predicate, object),
        Permutation::Posg => depth_of(predicate, object, subject),
        Permutation::Ospg => depth_of(object, subject, predicate),
    }
}

fn fits(given: Option<u32>, number: u32) -> bool
    ensures { result ≡ fits given number }
{
    match given {
        None => true,
        Some(other) => number == other,
    }
}

/// Whether the entry has the subject, predicate and object that are given.
pub fn agrees(
    entry: [u32; 4],
    subject: Option<u32>,
    predicate: Option<u32>,
    object: Option<u32>,
) -> bool
    ensures { result ≡ agrees_anywhere subject predicate object entry }
{
    let [_, s, p, o] = entry;
    fits(subject, s) && fits(predicate, p) && fits(object, o)
}
