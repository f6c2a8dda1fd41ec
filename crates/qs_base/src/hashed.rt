//! Values with their hashes.
//!
//! The scratch table and the set of DISTINCT look their values up by the hash first, in ordered maps. A hash map needs a random
//! key, which these layers don't have: with a fixed one, whoever chooses texts with equal hashes makes each look-up walk all of
//! them.

ghost use Rattle.std.specs.Prelude.{◌≡◌, nat_eq, refl, Some};
ghost use Rattle.std.specs.Ordering.{nat_cmp, on, ordering_then, then_cmp, eq_of_both};
ghost use Rattle.std.specs.Cmp.{partial_equiv_from_equiv, nat_eq_equiv, nat_cmp_total, on_per, on_equiv, on_total, and_per, and_equiv, then_total, both_tied, unsigned_ties, partial_order_from_agreeing_total};
ghost use Rattle.qs_base.specs.inner.Hashed.{hash_of};

use std::cmp::Ordering;
use std::hash::{FoldHasher, Hash, Hasher};
use std::marker::Model;

/// A value with its hash, by which it is compared first. Contracts see the value alone.
#[derive(Drop)]
pub struct Hashed<T: Hash> {
    hash: u64,
    value: T,
}

impl<T: Hash> Model for Hashed<T> {
    ghost use Rattle.std.specs.Prelude.{◌≡◌};
    ghost use Rattle.qs_base.specs.inner.Hashed.{hash_of};

    ghost Value = { T };

    ghost coded = { T.code };

    ghost view = { λ h. h.value };

    ghost invariant = { λ h. h.hash ≡ hash_of (T.hash_input h.value) };
}

/// The hash of a value. It takes in no secret: who chooses values may choose some with equal hashes.
#[tactic(auto, unfolding(crate::specs::inner::Hashed::hash_of))]
pub fn hash_of<T: Hash>(value: &T) -> u64
    ensures { result ≡ hash_of (T.hash_input value.now) }
{
    let mut state = FoldHasher::default();
    value.hash(&mut state);
    state.finish()
}

impl<T: Hash> Hashed<T> {
    /// The value with its hash.
    pub fn new(value: T) -> Hashed<T>
        ensures { result ≡ value }
    {
        let hash = hash_of(&value);
        Hashed { hash, value }
    }

    /// The value.
    pub fn get(&self) -> &T
        ensures { result.now ≡ self.now }
    {
        &self.value
    }
}

impl<T: Hash> PartialEq for Hashed<T> {
    ghost eq = { eq_of_both (on (λ x. hash_of (T.hash_input x)) nat_eq) T.eq };

    ghost laws = { and_per (on_per (λ x. hash_of (T.hash_input x)) (partial_equiv_from_equiv nat_eq_equiv)) T.PartialEq.laws };

    fn eq(&self, other: &Hashed<T>) -> bool {
        self.hash == other.hash && self.value == other.value
    }
}

impl<T: Hash> Eq for Hashed<T> {
    ghost laws = { and_equiv (on_equiv (λ x. hash_of (T.hash_input x)) nat_eq_equiv) T.Eq.laws };
}

impl<T: Hash + Ord> PartialOrd for Hashed<T> {
    ghost partial_cmp = { λ x y. Some (ordering_then (nat_cmp (hash_of (T.hash_input x)) (hash_of (T.hash_input y))) (T.cmp x y)) };

    ghost laws = { partial_order_from_agreeing_total (λ x y. ordering_then (nat_cmp (hash_of (T.hash_input x)) (hash_of (T.hash_input y))) (T.cmp x y)) (then_total (on_total (λ x. hash_of (T.hash_input x)) nat_cmp_total) T.total) (λ x y. refl) (λ x y. both_tied (nat_eq (hash_of (T.hash_input x)) (hash_of (T.hash_input y))) (T.eq x y) (nat_cmp (hash_of (T.hash_input x)) (hash_of (T.hash_input y))) (T.cmp x y) (unsigned_ties (hash_of (T.hash_input x)) (hash_of (T.hash_input y))) (T.matches_eq x y)) };

    fn partial_cmp(&self, other: &Hashed<T>) -> Option<Ordering> {
        Some(self.cmp(other))
    }
}

impl<T: Hash + Ord> Ord for Hashed<T> {
    ghost cmp = { λ x y. ordering_then (nat_cmp (hash_of (T.hash_input x)) (hash_of (T.hash_input y))) (T.cmp x y) };

    ghost total = { then_total (on_total (λ x. hash_of (T.hash_input x)) nat_cmp_total) T.total };

    ghost matches_partial_cmp = { λ x y. refl };

    ghost matches_eq = { λ x y. both_tied (nat_eq (hash_of (T.hash_input x)) (hash_of (T.hash_input y))) (T.eq x y) (nat_cmp (hash_of (T.hash_input x)) (hash_of (T.hash_input y))) (T.cmp x y) (unsigned_ties (hash_of (T.hash_input x)) (hash_of (T.hash_input y))) (T.matches_eq x y) };

    fn cmp(&self, other: &Hashed<T>) -> Ordering {
        match self.hash.cmp(&other.hash) {
            Ordering::Equal => self.value.cmp(&other.value),
            apart => apart,
        }
    }
}
