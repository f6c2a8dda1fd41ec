//! Pairs of tests that run with each allocation refused in turn: the strict one expects the whole answer, the tolerant one takes
//! out of memory for an answer, and then everything is as it was.

use crate::outcome::Outcome;
use crate::{dict, index, loads, requests, rows, store, terms, whole_graphs};
use qs_store::DefaultGraph;
use std::alloc::Global;
use std::hash::RandomState;

#[test]
fn terms_strict(rt: HostRuntime) {
    assert!(rt; terms::outcome(rt.alloc()) == Outcome::Whole);
}

#[test]
fn terms_tolerant(rt: HostRuntime) {
    assert!(rt; terms::outcome(rt.alloc()) != Outcome::Wrong);
}

#[test]
fn numbers_strict(rt: HostRuntime) {
    assert!(rt; dict::outcome(rt.alloc(), RandomState::new(&rt).ok()) == Outcome::Whole);
}

#[test]
fn numbers_tolerant(rt: HostRuntime) {
    assert!(rt; dict::outcome(rt.alloc(), RandomState::new(&rt).ok()) != Outcome::Wrong);
}

#[test]
fn entries_strict(rt: HostRuntime) {
    assert!(rt; index::outcome(rt.alloc()) == Outcome::Whole);
}

#[test]
fn entries_tolerant(rt: HostRuntime) {
    assert!(rt; index::outcome(rt.alloc()) != Outcome::Wrong);
}

#[test]
fn changes_strict(rt: HostRuntime) {
    assert!(rt; store::changes(rt.alloc(), RandomState::new(&rt).ok()) == Outcome::Whole);
}

#[test]
fn changes_tolerant(rt: HostRuntime) {
    assert!(rt; store::changes(rt.alloc(), RandomState::new(&rt).ok()) != Outcome::Wrong);
}

/// What comes of drafts under each default graph.
fn drafts(alloc: Global, hasher: Option<RandomState>) -> Outcome {
    match store::drafts(alloc, hasher, DefaultGraph::Stored) {
        Outcome::Whole => store::drafts(alloc, hasher, DefaultGraph::Union),
        other => other,
    }
}

#[test]
fn drafts_strict(rt: HostRuntime) {
    assert!(rt; drafts(rt.alloc(), RandomState::new(&rt).ok()) == Outcome::Whole);
}

#[test]
fn drafts_tolerant(rt: HostRuntime) {
    assert!(rt; drafts(rt.alloc(), RandomState::new(&rt).ok()) != Outcome::Wrong);
}

#[test]
fn requests_strict(rt: HostRuntime) {
    assert!(rt; requests::requests(rt.alloc(), RandomState::new(&rt).ok()) == Outcome::Whole);
}

#[test]
fn requests_tolerant(rt: HostRuntime) {
    assert!(rt; requests::requests(rt.alloc(), RandomState::new(&rt).ok()) != Outcome::Wrong);
}

#[test]
fn whole_graphs_strict(rt: HostRuntime) {
    assert!(rt; whole_graphs::outcome(rt.alloc(), RandomState::new(&rt).ok()) == Outcome::Whole);
}

#[test]
fn whole_graphs_tolerant(rt: HostRuntime) {
    assert!(rt; whole_graphs::outcome(rt.alloc(), RandomState::new(&rt).ok()) != Outcome::Wrong);
}

#[test]
fn loads_strict(rt: HostRuntime) {
    assert!(rt; loads::outcome(rt.alloc(), RandomState::new(&rt).ok()) == Outcome::Whole);
}

#[test]
fn loads_tolerant(rt: HostRuntime) {
    assert!(rt; loads::outcome(rt.alloc(), RandomState::new(&rt).ok()) != Outcome::Wrong);
}

#[test]
fn rows_strict(rt: HostRuntime) {
    assert!(rt; rows::outcome(rt.alloc(), RandomState::new(&rt).ok()) == Outcome::Whole);
}

#[test]
fn rows_tolerant(rt: HostRuntime) {
    assert!(rt; rows::outcome(rt.alloc(), RandomState::new(&rt).ok()) != Outcome::Wrong);
}
