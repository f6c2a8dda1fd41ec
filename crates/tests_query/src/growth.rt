//! Pairs of tests that run with each allocation refused in turn: the strict one expects the whole answer, the tolerant one takes
//! out of memory for an answer, but no other.

use crate::outcome::Outcome;
use crate::{answers, lines, operations, patterns, quads, queries, tokens, written};
use std::hash::RandomState;

#[test]
fn tokens_strict(rt: HostRuntime) {
    assert!(rt; tokens::outcome(rt.alloc()) == Outcome::Whole);
}

#[test]
fn tokens_tolerant(rt: HostRuntime) {
    assert!(rt; tokens::outcome(rt.alloc()) != Outcome::Wrong);
}

#[test]
fn quads_strict(rt: HostRuntime) {
    assert!(rt; quads::outcome(rt.alloc(), RandomState::new(&rt).ok()) == Outcome::Whole);
}

#[test]
fn quads_tolerant(rt: HostRuntime) {
    assert!(rt; quads::outcome(rt.alloc(), RandomState::new(&rt).ok()) != Outcome::Wrong);
}

#[test]
fn updates_strict(rt: HostRuntime) {
    assert!(rt; operations::outcome(rt.alloc()) == Outcome::Whole);
}

#[test]
fn updates_tolerant(rt: HostRuntime) {
    assert!(rt; operations::outcome(rt.alloc()) != Outcome::Wrong);
}

#[test]
fn flags_strict(rt: HostRuntime) {
    assert!(rt; patterns::outcome(rt.alloc()) == Outcome::Whole);
}

#[test]
fn flags_tolerant(rt: HostRuntime) {
    assert!(rt; patterns::outcome(rt.alloc()) != Outcome::Wrong);
}

#[test]
fn answers_strict(rt: HostRuntime) {
    assert!(rt; answers::outcome(rt.alloc(), RandomState::new(&rt).ok()) == Outcome::Whole);
}

#[test]
fn answers_tolerant(rt: HostRuntime) {
    assert!(rt; answers::outcome(rt.alloc(), RandomState::new(&rt).ok()) != Outcome::Wrong);
}

#[test]
fn lines_strict(rt: HostRuntime) {
    assert!(rt; lines::outcome(rt.alloc()) == Outcome::Whole);
}

#[test]
fn lines_tolerant(rt: HostRuntime) {
    assert!(rt; lines::outcome(rt.alloc()) != Outcome::Wrong);
}

#[test]
fn written_strict(rt: HostRuntime) {
    assert!(rt; written::outcome(rt.alloc(), RandomState::new(&rt).ok()) == Outcome::Whole);
}

#[test]
fn written_tolerant(rt: HostRuntime) {
    assert!(rt; written::outcome(rt.alloc(), RandomState::new(&rt).ok()) != Outcome::Wrong);
}

#[test]
fn queries_strict(rt: HostRuntime) {
    assert!(rt; queries::outcome(rt.alloc(), RandomState::new(&rt).ok()) == Outcome::Whole);
}

#[test]
fn queries_tolerant(rt: HostRuntime) {
    assert!(rt; queries::outcome(rt.alloc(), RandomState::new(&rt).ok()) != Outcome::Wrong);
}
