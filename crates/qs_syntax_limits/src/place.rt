//! Places, and parts that stand side by side.

ghost use Rattle.std.specs.Prelude.{◌≡◌, ◌∷◌, ℕ, map, slice_get};
ghost use Rattle.qs_syntax_limits.specs.Large.{Part};
ghost use Rattle.qs_syntax_limits.specs.Large as spec;
ghost use Rattle.qs_syntax_limits.specs.inner.Parts as rows;

use qs_syntax_tree::expression::{Addend, Operand};
use qs_syntax_tree::path::{NegatedPredicate, PathOperand};
use qs_syntax_tree::pattern::{Element, Group};
use qs_syntax_tree::update::QuadElement;

/// The most elements of a group, and the most operands of a chain.
pub const LIMIT: usize = 256;

/// What begins at a place.
pub trait Placed {
    ghost part: { Self → Part };

    fn place(&self) -> usize
        ensures { result ≡ (part self.now).place };
}

impl Placed for NegatedPredicate {
    ghost part = { rows.negated };

    fn place(&self) -> usize {
        self.place
    }
}

impl Placed for PathOperand {
    ghost part = { rows.path_operand };

    fn place(&self) -> usize {
        self.place
    }
}

impl Placed for Operand {
    ghost part = { rows.operand };

    fn place(&self) -> usize {
        self.place
    }
}

impl Placed for Addend {
    ghost part = { rows.addend };

    fn place(&self) -> usize {
        self.operand.place
    }
}

impl Placed for Element {
    ghost part = { rows.element };

    fn place(&self) -> usize {
        self.place
    }
}

impl Placed for Group {
    ghost part = { rows.group };

    fn place(&self) -> usize {
        self.place
    }
}

impl Placed for QuadElement {
    ghost part = { rows.quad_element };

    fn place(&self) -> usize {
        self.place
    }
}

/// The lesser of two places, where None is no place.
#[tactic(auto, unfolding(crate::specs::inner::Parts::first))]
pub fn first(a: Option<usize>, b: Option<usize>) -> Option<usize>
    ensures { result ≡ rows.first a b }
{
    match (a, b) {
        (None, b) => b,
        (Some(a), None) => Some(a),
        (Some(a), Some(b)) => Some(a.min(b)),
    }
}

/// Where the part of that number begins.
fn place_at<T: Placed>(parts: &[T], number: usize) -> Option<usize>
    ensures { result ≡ slice_get (map (λ x. (T.part x).place) parts.now) number }
{
    match parts.get(number) {
        Some(part) => Some(part.place()),
        None => None,
    }
}

/// Where the part begins with which there are too many.
pub fn excess<T: Placed>(parts: &[T]) -> Option<usize>
    ensures { result ≡ slice_get (map (λ x. (T.part x).place) parts.now) spec.limit }
{
    place_at(parts, LIMIT)
}

/// Where the part begins with which there are too many, one part being before these.
pub fn excess_behind<T: Placed>(parts: &[T]) -> Option<usize>
    ensures { (place : ℕ) → result ≡ slice_get (place ∷ map (λ x. (T.part x).place) parts.now)
        spec.limit }
{
    place_at(parts, LIMIT - 1)
}
