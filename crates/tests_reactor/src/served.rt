//! Connections that are served.

use crate::peers::{Peer, Peers};
use crate::run::{Outcome, run};
use std::alloc::{AllocError, Global};
use std::test::Fail;

/// A client that sends this request in one piece, and ends at once.
pub fn simple(alloc: Global, arrives: u64, request: &[u8]) -> Result<Peer, AllocError> {
    let mut peer = Peer::new(alloc, arrives, 100);
    peer.send(alloc, arrives, request)?;
    peer.send(alloc, arrives, b"")?;
    Ok(peer)
}

/// 20 clients, whose requests arrive in pieces in turn, and which take four bytes at a time.
fn interleaved(alloc: Global) -> Result<Peers, AllocError> {
    let mut peers = Peers::new(alloc)?;
    for i in 0..20u8 {
        let mut peer = Peer::new(alloc, 0, 4);
        peer.send(alloc, i as u64, &[b'a' + i])?;
        peer.send(alloc, 100 - i as u64, b" of twenty")?;
        peer.send(alloc, 200 + i as u64, b"\n\n")?;
        peer.send(alloc, 300, b"")?;
        peers.peers.push(peer)?;
    }
    Ok(peers)
}

/// Whether each client got its own request back, and was told of the end.
fn are_answered(outcome: &Outcome) -> bool {
    let mut first = b'a';
    for peer in &outcome.script.peers.peers {
        let received = peer.received.as_slice();
        let is_own = received.first().copied() == Some(first);
        let is_rest = received.len() == 13 && received.ends_with(b" of twenty\n\n");
        if !is_own || !is_rest || peer.finished.is_none() {
            return false;
        }
        first = first.saturating_add(1);
    }
    true
}

#[test]
fn interleaved_connections_get_their_own_replies(rt: HostRuntime) -> Result<(), Fail> {
    for at_once in [20, 32, 64] {
        let outcome = run(rt.alloc(), interleaved(rt.alloc())?, at_once, 20)?;
        assert!(rt; outcome.result.is_ok());
        assert!(rt; are_answered(&outcome), "{at_once} at once");
        assert_eq!(rt; outcome.drops.dropped, 0);
        assert_eq!(rt; outcome.echo.joined, 20);
        assert_eq!(rt; outcome.echo.ended, 20);
    }
    Ok(())
}

#[test]
fn one_at_a_time_and_no_more_than_asked(rt: HostRuntime) -> Result<(), Fail> {
    for connections in [0u32, 1, 2, 3] {
        let mut peers = Peers::new(rt.alloc())?;
        for _ in 0..3 {
            peers.peers.push(simple(rt.alloc(), 0, b"one\n\n")?)?;
        }
        let outcome = run(rt.alloc(), peers, 1, connections)?;
        assert!(rt; outcome.result.is_ok());
        assert_eq!(rt; outcome.echo.joined, connections as u64);
        let mut served = 0u32;
        for peer in &outcome.script.peers.peers {
            if peer.received.as_slice() == b"one\n\n".as_slice() {
                served = served.saturating_add(1);
            }
        }
        assert_eq!(rt; served, connections);
    }
    Ok(())
}
