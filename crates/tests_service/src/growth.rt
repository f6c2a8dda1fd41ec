//! Pairs of tests that run with each allocation refused in turn: the strict one expects the whole answer, the tolerant one takes
//! out of memory for the answer of one connection, and then the others have theirs and what is stored is as it was, or for a service that isn't
//! made, and then its store is as it was. Asked once more, they result in what they ought to.

use crate::handed_back::hands_back;
use crate::interleaved::interleaved;
use crate::outcome::Outcome;
use std::hash::RandomState;

#[test]
fn connections_strict(rt: HostRuntime) {
    assert!(rt; interleaved(rt.alloc(), RandomState::new(&rt).ok()) == Outcome::Whole);
}

#[test]
fn connections_tolerant(rt: HostRuntime) {
    assert!(rt; interleaved(rt.alloc(), RandomState::new(&rt).ok()) != Outcome::Wrong);
}

#[test]
fn hands_back_strict(rt: HostRuntime) {
    assert!(rt; hands_back(rt.alloc(), RandomState::new(&rt).ok()) == Outcome::Whole);
}

#[test]
fn hands_back_tolerant(rt: HostRuntime) {
    assert!(rt; hands_back(rt.alloc(), RandomState::new(&rt).ok()) != Outcome::Wrong);
}
