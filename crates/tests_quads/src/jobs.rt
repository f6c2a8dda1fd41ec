//! Jobs that are run over a sink: what it took, and what is told of that.

use crate::sink::Sample;
use qs_store::DefaultGraph;
use quads::{Job, Ran, TextKind, run, run_owned};
use std::alloc::{AllocError, Global};
use std::hash::RandomState;
use std::test::Fail;

// A statement twice, and a tag in capitals.
const DATA: &[u8] = b"<http://e/s> <http://e/p> \"x\"^^<http://www.w3.org/2001/XMLSchema#string> .
<http://e/s> <http://e/p> \"a\"@EN-us .
<http://e/s> <http://e/p> \"x\"^^<http://www.w3.org/2001/XMLSchema#string> .
";

// Each statement once: lines of 38 and 32 bytes.
const CHECKED: &[u8] = b"<http://e/s> <http://e/p> \"a\"@en-us .
<http://e/s> <http://e/p> \"x\" .
";

fn bytes_of(alloc: Global, bytes: &[u8]) -> Result<Vec<u8>, AllocError> {
    let mut copy = Vec::new(alloc);
    copy.extend_from_slice(bytes)?;
    Ok(copy)
}

fn check(alloc: Global) -> Result<Job, AllocError> {
    Ok(Job::Check {
        data: bytes_of(alloc, DATA)?,
    })
}

fn query(alloc: Global, text: &[u8]) -> Result<Job, AllocError> {
    let data = bytes_of(alloc, DATA)?;
    Ok(Job::Query {
        data,
        text: bytes_of(alloc, text)?,
        default_graph: DefaultGraph::Stored,
    })
}

fn replay(alloc: Global, script: &[u8]) -> Result<Job, AllocError> {
    let data = bytes_of(alloc, DATA)?;
    Ok(Job::Replay {
        data,
        script: bytes_of(alloc, script)?,
        default_graph: DefaultGraph::Stored,
    })
}

fn update(alloc: Global, text: &[u8]) -> Result<Job, AllocError> {
    let data = bytes_of(alloc, DATA)?;
    Ok(Job::Update {
        data,
        text: bytes_of(alloc, text)?,
        default_graph: DefaultGraph::Stored,
    })
}

fn explain(alloc: Global, text: &[u8]) -> Result<Job, AllocError> {
    let data = bytes_of(alloc, DATA)?;
    Ok(Job::Explain {
        data,
        text: bytes_of(alloc, text)?,
        kind: TextKind::Query,
        default_graph: DefaultGraph::Stored,
    })
}

fn is_told(ran: Ran, status: u8, written: u128) -> bool {
    ran.status == status && ran.written == written
}

#[test]
fn check_writes_each_quad_once(rt: HostRuntime) -> Result<(), Fail> {
    let hasher = RandomState::new(&rt)?;
    let job = check(rt.alloc())?;
    let mut out = Sample::new(CHECKED, 1000);
    let ran = run(rt.alloc(), &job, hasher, &mut out);
    assert!(rt; is_told(ran, 0, 70));
    assert!(rt; out.is_left(0, 0));
    let mut again = Sample::new(CHECKED, 1000);
    let ran = run_owned(rt.alloc(), job, hasher, &mut again);
    assert!(rt; is_told(ran, 0, 70));
    assert!(rt; again.is_left(0, 0));
    Ok(())
}

#[test]
fn nothing_is_put_after_a_failure(rt: HostRuntime) -> Result<(), Fail> {
    let hasher = RandomState::new(&rt)?;
    let job = check(rt.alloc())?;
    let mut out = Sample::new(CHECKED, 41);
    let ran = run(rt.alloc(), &job, hasher, &mut out);
    assert!(rt; is_told(ran, 1, 41));
    assert!(rt; out.is_left(29, 1));
    Ok(())
}

#[test]
fn the_fault_of_a_query_is_written(rt: HostRuntime) -> Result<(), Fail> {
    let hasher = RandomState::new(&rt)?;
    let job = query(rt.alloc(), b"SELECT * WHERE { ?s ?p }")?;
    let mut out = Sample::new(b"F1 syntax at 23\n", 1000);
    let ran = run(rt.alloc(), &job, hasher, &mut out);
    assert!(rt; is_told(ran, 1, 16));
    assert!(rt; out.is_left(0, 0));
    Ok(())
}

#[test]
fn replies_and_refused_events_are_counted(rt: HostRuntime) -> Result<(), Fail> {
    let hasher = RandomState::new(&rt)?;
    let job = replay(rt.alloc(), b"end 1\njoin 1\njoin 1\n")?;
    let mut out = Sample::new(b"event 1 refused 3\nevent 3 refused 2\n", 1000);
    let ran = run_owned(rt.alloc(), job, hasher, &mut out);
    assert!(rt; is_told(ran, 0, 36));
    assert!(rt; out.is_left(0, 0));
    Ok(())
}

/// A job of each kind, by the place of what it prints below. The script asks for `/no`.
fn job_of(alloc: Global, number: usize) -> Result<Job, AllocError> {
    match number {
        0 => check(alloc),
        1 => query(alloc, b"ASK { ?s ?p 'x' }"),
        2 => update(alloc, b"DELETE DATA { <http://e/s> <http://e/p> 'x' }"),
        3 => replay(
            alloc,
            b"join 1\npiece 1 474554202f6e6f20485454502f312e310d0a486f73743a20650d0a0d0a\njoin 1\n",
        ),
        _ => explain(alloc, b"SELECT * { ?s ?p ?o }"),
    }
}

/// What each of these jobs prints.
const PRINTED: &[&[u8]] = &[
    CHECKED,
    b"{\"boolean\":true,\"head\":{}}\n",
    b"<http://e/s> <http://e/p> \"a\"@en-us .\n",
    b"reply 1 485454502f312e3120343034204e6f7420466f756e640d0a436f6e6e656374696f6e3a20636c6f73650d0a436f6e74656e742d547970653a20746578742f706c61696e3b20636861727365743d7574662d380d0a436f6e74656e742d4c656e6774683a2031300d0a0d0a4e6f7420466f756e640a\nevent 3 refused 2\n",
    b"triple ?s ?p ?o, order: GSPO, bound: none, count: 2\n",
];

/// Whether a sink that takes so many bytes, and fails then, has the job end with status 1 and these bytes told.
fn stops_at(alloc: Global, hasher: RandomState, job: &Job, due: &[u8], room: usize) -> bool {
    let mut out = Sample::new(due, room);
    let ran = run(alloc, job, hasher, &mut out);
    is_told(ran, 1, room as u128) && out.is_left(due.len().saturating_sub(room), 1)
}

fn stops_at_each(alloc: Global, hasher: RandomState, job: &Job, due: &[u8]) -> bool {
    for room in 0..due.len() {
        if !stops_at(alloc, hasher, job, due, room) {
            return false;
        }
    }
    true
}

#[test]
fn each_job_tells_what_was_taken(rt: HostRuntime) -> Result<(), Fail> {
    let hasher = RandomState::new(&rt)?;
    for (number, due) in PRINTED.iter().enumerate() {
        let job = job_of(rt.alloc(), number)?;
        let mut out = Sample::new(due, 1000);
        let ran = run(rt.alloc(), &job, hasher, &mut out);
        assert!(rt;
            is_told(ran, 0, due.len() as u128) && out.is_left(0, 0),
            "{number}"
        );
        assert!(rt; stops_at_each(rt.alloc(), hasher, &job, due), "{number}");
    }
    Ok(())
}
