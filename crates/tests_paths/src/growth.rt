//! Pairs of tests that run with each allocation refused in turn: the strict one expects the whole answer, the tolerant one takes
//! out of memory for an answer.

use crate::outcome::Outcome;
use crate::paths::Form;
use crate::read::{Question, outcome};
use qs_store::DefaultGraph;
use std::alloc::Global;
use std::hash::RandomState;

/// Over the stored default graph: each form with both ends open.
const OPEN: &[Question] = &[
    Question {
        form: Form::P,
        left: b'?',
        right: b'?',
        due: &[[b'a', b'b'], [b'b', b'c'], [b'c', b'b']],
    },
    Question {
        form: Form::InverseP,
        left: b'?',
        right: b'?',
        due: &[[b'b', b'a'], [b'c', b'b'], [b'b', b'c']],
    },
    Question {
        form: Form::NotQ,
        left: b'?',
        right: b'?',
        due: &[[b'a', b'b'], [b'b', b'c'], [b'c', b'b']],
    },
    Question {
        form: Form::NotInverseQ,
        left: b'?',
        right: b'?',
        due: &[[b'b', b'a'], [b'c', b'b'], [b'b', b'c']],
    },
    Question {
        form: Form::Either,
        left: b'?',
        right: b'?',
        due: &[[b'a', b'b'], [b'b', b'c'], [b'c', b'b'], [b'a', b'd']],
    },
    Question {
        form: Form::Twice,
        left: b'?',
        right: b'?',
        due: &[[b'a', b'c'], [b'b', b'b'], [b'c', b'c']],
    },
    Question {
        form: Form::PlusP,
        left: b'?',
        right: b'?',
        due: &[
            [b'a', b'b'],
            [b'a', b'c'],
            [b'b', b'b'],
            [b'b', b'c'],
            [b'c', b'b'],
            [b'c', b'c'],
        ],
    },
    Question {
        form: Form::StarP,
        left: b'?',
        right: b'?',
        due: &[
            [b'a', b'a'],
            [b'a', b'b'],
            [b'a', b'c'],
            [b'b', b'b'],
            [b'b', b'c'],
            [b'c', b'b'],
            [b'c', b'c'],
            [b'd', b'd'],
        ],
    },
    Question {
        form: Form::OptionP,
        left: b'?',
        right: b'?',
        due: &[
            [b'a', b'a'],
            [b'a', b'b'],
            [b'b', b'b'],
            [b'b', b'c'],
            [b'c', b'b'],
            [b'c', b'c'],
            [b'd', b'd'],
        ],
    },
    Question {
        form: Form::InversePlusP,
        left: b'?',
        right: b'?',
        due: &[
            [b'b', b'a'],
            [b'c', b'a'],
            [b'b', b'b'],
            [b'c', b'b'],
            [b'b', b'c'],
            [b'c', b'c'],
        ],
    },
];

/// Questions with an end given, among them ends that aren't nodes of the graph.
const GIVEN: &[Question] = &[
    Question {
        form: Form::P,
        left: b'a',
        right: b'?',
        due: &[[b'a', b'b']],
    },
    Question {
        form: Form::P,
        left: b's',
        right: b'?',
        due: &[],
    },
    Question {
        form: Form::NotQ,
        left: b'?',
        right: b'b',
        due: &[[b'a', b'b'], [b'c', b'b']],
    },
    Question {
        form: Form::PlusP,
        left: b'a',
        right: b'?',
        due: &[[b'a', b'b'], [b'a', b'c']],
    },
    Question {
        form: Form::PlusP,
        left: b'a',
        right: b'c',
        due: &[[b'a', b'c']],
    },
    Question {
        form: Form::StarP,
        left: b'a',
        right: b'?',
        due: &[[b'a', b'a'], [b'a', b'b'], [b'a', b'c']],
    },
    Question {
        form: Form::StarP,
        left: b'?',
        right: b'b',
        due: &[[b'a', b'b'], [b'b', b'b'], [b'c', b'b']],
    },
    Question {
        form: Form::StarP,
        left: b's',
        right: b'?',
        due: &[[b's', b's']],
    },
    Question {
        form: Form::StarP,
        left: b'?',
        right: b'g',
        due: &[[b'g', b'g']],
    },
    Question {
        form: Form::OptionP,
        left: b's',
        right: b's',
        due: &[[b's', b's']],
    },
    Question {
        form: Form::InversePlusP,
        left: b'c',
        right: b'?',
        due: &[[b'c', b'a'], [b'c', b'b'], [b'c', b'c']],
    },
    Question {
        form: Form::Twice,
        left: b'a',
        right: b'?',
        due: &[[b'a', b'c']],
    },
    Question {
        form: Form::Twice,
        left: b'?',
        right: b'c',
        due: &[[b'a', b'c'], [b'c', b'c']],
    },
    Question {
        form: Form::Stars,
        left: b's',
        right: b'?',
        due: &[],
    },
];

/// Over the graph `e:g`, and over the union of the named graphs.
const NAMED: &[Question] = &[
    Question {
        form: Form::P,
        left: b'?',
        right: b'?',
        due: &[[b'a', b'd'], [b'd', b'a']],
    },
    Question {
        form: Form::PlusP,
        left: b'a',
        right: b'?',
        due: &[[b'a', b'd'], [b'a', b'a']],
    },
    Question {
        form: Form::StarP,
        left: b'b',
        right: b'?',
        due: &[[b'b', b'b']],
    },
];

/// Over no graph.
const NONE: &[Question] = &[
    Question {
        form: Form::P,
        left: b'?',
        right: b'?',
        due: &[],
    },
    Question {
        form: Form::StarP,
        left: b'a',
        right: b'?',
        due: &[[b'a', b'a']],
    },
    Question {
        form: Form::StarP,
        left: b'?',
        right: b'?',
        due: &[],
    },
];

fn open(alloc: Global, hasher: Option<RandomState>) -> Outcome {
    outcome(alloc, hasher, DefaultGraph::Stored, b'?', OPEN)
}

fn given(alloc: Global, hasher: Option<RandomState>) -> Outcome {
    outcome(alloc, hasher, DefaultGraph::Stored, b'?', GIVEN)
}

fn named(alloc: Global, hasher: Option<RandomState>) -> Outcome {
    outcome(alloc, hasher, DefaultGraph::Stored, b'g', NAMED)
}

fn union(alloc: Global, hasher: Option<RandomState>) -> Outcome {
    outcome(alloc, hasher, DefaultGraph::Union, b'?', NAMED)
}

fn none(alloc: Global, hasher: Option<RandomState>) -> Outcome {
    outcome(alloc, hasher, DefaultGraph::Stored, b'-', NONE)
}

#[test]
fn open_strict(rt: HostRuntime) {
    assert!(rt; open(rt.alloc(), RandomState::new(&rt).ok()) == Outcome::Whole);
}

#[test]
fn open_tolerant(rt: HostRuntime) {
    assert!(rt; open(rt.alloc(), RandomState::new(&rt).ok()) != Outcome::Wrong);
}

#[test]
fn given_strict(rt: HostRuntime) {
    assert!(rt; given(rt.alloc(), RandomState::new(&rt).ok()) == Outcome::Whole);
}

#[test]
fn given_tolerant(rt: HostRuntime) {
    assert!(rt; given(rt.alloc(), RandomState::new(&rt).ok()) != Outcome::Wrong);
}

#[test]
fn named_strict(rt: HostRuntime) {
    assert!(rt; named(rt.alloc(), RandomState::new(&rt).ok()) == Outcome::Whole);
}

#[test]
fn named_tolerant(rt: HostRuntime) {
    assert!(rt; named(rt.alloc(), RandomState::new(&rt).ok()) != Outcome::Wrong);
}

#[test]
fn union_strict(rt: HostRuntime) {
    assert!(rt; union(rt.alloc(), RandomState::new(&rt).ok()) == Outcome::Whole);
}

#[test]
fn union_tolerant(rt: HostRuntime) {
    assert!(rt; union(rt.alloc(), RandomState::new(&rt).ok()) != Outcome::Wrong);
}

#[test]
fn none_strict(rt: HostRuntime) {
    assert!(rt; none(rt.alloc(), RandomState::new(&rt).ok()) == Outcome::Whole);
}

#[test]
fn none_tolerant(rt: HostRuntime) {
    assert!(rt; none(rt.alloc(), RandomState::new(&rt).ok()) != Outcome::Wrong);
}
