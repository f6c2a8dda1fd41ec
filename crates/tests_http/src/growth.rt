//! Pairs of tests that run with each allocation refused in turn: the strict one expects the whole answer, the tolerant one takes
//! out of memory too, and then that it stays.

use crate::outcome::Outcome;
use crate::replies;
use crate::requests::{End, feed, is_at};
use qs_http::{Fixed, Progress, Session};
use std::alloc::Global;

const FORM: &[u8] =
    b"POST /update HTTP/1.1\r\nHost: e\r\nContent-Type: application/x-www-form-urlencoded\r\nContent-Length: 25\r\n\r\nx=%41&update=CLEAR+%41%4C";

const GET: &[u8] = b"GET /query?query=ASK%7B%3Fs+%3Fp+%3Fo%7D HTTP/1.1\r\nHost: e\r\n\r\n";

/// Whether the bytes result in this in pieces of 50; where memory runs out, this stays, whatever more is fed.
fn outcome_of(alloc: Global, bytes: &[u8], end: End) -> Outcome {
    let mut session = Session::new(alloc);
    let progress = feed(&mut session, bytes, 50);
    let outcome = if progress == Progress::Refused(Fixed::Memory) {
        let later = session.feed(GET);
        if is_at(&session, later, End::Refused(Fixed::Memory)) {
            Outcome::Refused
        } else {
            Outcome::Wrong
        }
    } else {
        Outcome::of_answer(is_at(&session, progress, end))
    };
    drop(session);
    outcome
}

/// Whether a form and a query are read.
fn outcome(alloc: Global) -> Outcome {
    match outcome_of(alloc, FORM, End::Update("CLEAR AL")) {
        Outcome::Whole => outcome_of(alloc, GET, End::Query("ASK{?s ?p ?o}")),
        other => other,
    }
}

#[test]
fn requests_strict(rt: HostRuntime) {
    assert!(rt; outcome(rt.alloc()) == Outcome::Whole);
}

#[test]
fn requests_tolerant(rt: HostRuntime) {
    assert!(rt; outcome(rt.alloc()) != Outcome::Wrong);
}

#[test]
fn replies_strict(rt: HostRuntime) {
    assert!(rt; replies::outcome(rt.alloc()) == Outcome::Whole);
}

#[test]
fn replies_tolerant(rt: HostRuntime) {
    assert!(rt; replies::outcome(rt.alloc()) != Outcome::Wrong);
}
