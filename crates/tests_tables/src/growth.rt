//! Each test once where memory is had, and once where an allocation may be refused.

use crate::outcome::Outcome;
use crate::{kept, values};
use std::hash::RandomState;
use std::rt::HostRuntime;

#[test]
fn kept_strict(rt: HostRuntime) {
    assert!(rt; Outcome::of(kept::are_right(rt.alloc())) == Outcome::Whole);
}

#[test]
fn kept_tolerant(rt: HostRuntime) {
    assert!(rt; Outcome::of(kept::are_right(rt.alloc())) != Outcome::Wrong);
}

#[test]
fn values_strict(rt: HostRuntime) {
    assert!(rt; values::outcome(rt.alloc(), RandomState::new(&rt).ok()) == Outcome::Whole);
}

#[test]
fn values_tolerant(rt: HostRuntime) {
    assert!(rt; values::outcome(rt.alloc(), RandomState::new(&rt).ok()) != Outcome::Wrong);
}
