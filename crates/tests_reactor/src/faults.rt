//! A fault at each call of the network in turn.

use crate::peers::{Peer, Peers};
use crate::run::{Outcome, run_with};
use crate::script::Fault;
use std::alloc::{AllocError, Global};
use std::io::ErrorKind;
use std::test::Fail;
use std::time::Duration;

/// The request of each client.
const REQUEST: &[u8; 8] = b"a line\n\n";

/// Three clients for two places, which take three bytes at a time.
fn three(alloc: Global) -> Result<Peers, AllocError> {
    let mut peers = Peers::new(alloc)?;
    for i in 0..3u64 {
        let mut peer = Peer::new(alloc, i, 3);
        peer.send(alloc, i * 10, b"a ")?;
        peer.send(alloc, i * 10 + 5, b"line\n\n")?;
        peer.send(alloc, 100, b"and more")?;
        peer.send(alloc, 101, b"")?;
        peers.peers.push(peer)?;
    }
    Ok(peers)
}

/// Whether each client got a front of its reply, and all of it if it was told so.
fn are_fronts(outcome: &Outcome) -> bool {
    outcome.script.peers.peers.iter().all(|peer| {
        let received = peer.received.as_slice();
        let is_whole = received == REQUEST.as_slice();
        REQUEST.starts_with(received) && (is_whole || peer.finished.is_none())
    })
}

/// How many clients got the whole reply.
fn whole_count(outcome: &Outcome) -> usize {
    let peers = &outcome.script.peers.peers;
    peers
        .iter()
        .filter(|peer| peer.received.as_slice() == REQUEST.as_slice())
        .count()
}

/// Whether a run with a fault is as it ought to be. A call that was interrupted is made again, unless it is a wait.
fn is_right(outcome: &Outcome, kind: ErrorKind) -> bool {
    let is_retried = kind == ErrorKind::Interrupted && outcome.result.is_ok();
    are_fronts(outcome) && (!is_retried || whole_count(outcome) == 3)
}

/// A fault at each call in turn, until a run meets none: how many runs met one, if all were right.
fn runs_with(alloc: Global, kind: ErrorKind) -> Result<Option<u64>, AllocError> {
    for call in 1..1_000u64 {
        let outcome = run_with(alloc, three(alloc)?, Fault { call, kind }, 2, 3)?;
        if !is_right(&outcome, kind) {
            return Ok(None);
        }
        if outcome.script.calls < call {
            let is_whole = outcome.result.is_ok() && outcome.echo.ended == 3;
            return Ok(if is_whole { Some(call - 1) } else { None });
        }
    }
    Ok(None)
}

#[test]
fn fault_at_each_call(rt: HostRuntime) -> Result<(), Fail> {
    for kind in [
        ErrorKind::Other,
        ErrorKind::Interrupted,
        ErrorKind::ConnectionAborted,
        ErrorKind::OutOfMemory,
    ] {
        let runs = runs_with(rt.alloc(), kind)?;
        assert!(rt; runs.is_some_and(|runs| runs > 20));
    }
    Ok(())
}

#[test]
fn accept_that_fails_first(rt: HostRuntime) -> Result<(), Fail> {
    for (kind, is_served) in [
        (ErrorKind::Other, false),
        (ErrorKind::OutOfMemory, true),
        (ErrorKind::Interrupted, true),
        (ErrorKind::ConnectionAborted, true),
    ] {
        let fault = Fault { call: 2, kind };
        let outcome = run_with(rt.alloc(), three(rt.alloc())?, fault, 2, 3)?;
        assert_eq!(rt; outcome.result.is_ok(), is_served);
        assert_eq!(rt; outcome.echo.joined, if is_served { 3 } else { 0 });
    }
    Ok(())
}

/// Serves a client alone, which is there from the beginning. The first accept, before which only a wait is called, runs out of memory.
fn serve_alone(alloc: Global) -> Result<Outcome, AllocError> {
    let mut peer = Peer::new(alloc, 0, 100);
    peer.send(alloc, 0, REQUEST)?;
    peer.send(alloc, 0, b"")?;
    let mut peers = Peers::new(alloc)?;
    peers.peers.push(peer)?;
    let kind = ErrorKind::OutOfMemory;
    run_with(alloc, peers, Fault { call: 2, kind }, 2, 1)
}

#[test]
fn accept_out_of_memory_is_tried_again_after_a_second(rt: HostRuntime) -> Result<(), Fail> {
    let outcome = serve_alone(rt.alloc())?;
    assert!(rt; outcome.result.is_ok());
    assert_eq!(rt; (whole_count(&outcome), outcome.echo.ended), (1, 1));
    let accepted = match outcome.script.peers.peers.get(0) {
        Some(peer) => peer.accepted,
        None => None,
    };
    assert_eq!(rt; accepted, Some(Duration::from_secs(1)));
    Ok(())
}
