//! Pairs of tests that run with each allocation refused in turn: the strict one wants the whole answer, the tolerant one takes running out
//! of memory for an answer.

use crate::outcome::Outcome;
use crate::stores;
use std::hash::RandomState;

#[test]
fn cells_strict(rt: HostRuntime) {
    assert!(rt; stores::outcome(rt.alloc(), RandomState::new(&rt).ok()) == Outcome::Whole);
}

#[test]
fn cells_tolerant(rt: HostRuntime) {
    assert!(rt; stores::outcome(rt.alloc(), RandomState::new(&rt).ok()) != Outcome::Wrong);
}
