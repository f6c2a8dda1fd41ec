//! More clients than places. The expected times are those of the rules: with a client waiting, the loop looks every 25 ms.

use crate::peers::{Peer, Peers};
use crate::run::{Outcome, run};
use crate::served::simple;
use std::alloc::{AllocError, Global};
use std::test::Fail;
use std::time::Duration;

/// That many milliseconds.
fn millis(n: u64) -> Option<Duration> {
    Some(Duration::from_millis(n))
}

/// When the client of that number was accepted, and when dropped.
fn times(outcome: &Outcome, which: usize) -> (Option<Duration>, Option<Duration>) {
    match outcome.script.peers.peers.get(which) {
        Some(peer) => (peer.accepted, peer.closed),
        None => (None, None),
    }
}

/// Whether the client of that number got these bytes.
fn has(outcome: &Outcome, which: usize, bytes: &[u8]) -> bool {
    match outcome.script.peers.peers.get(which) {
        Some(peer) => peer.received.as_slice() == bytes,
        None => false,
    }
}

/// Two clients that send nothing for that long, and one that comes after 10 ms.
fn silent(alloc: Global, until: u64, is_third: bool) -> Result<Peers, AllocError> {
    let mut peers = Peers::new(alloc)?;
    for _ in 0..2 {
        let mut peer = Peer::new(alloc, 0, 100);
        peer.send(alloc, until, b"late\n\n")?;
        peer.send(alloc, until, b"")?;
        peers.peers.push(peer)?;
    }
    if is_third {
        peers.peers.push(simple(alloc, 10, b"third\n\n")?)?;
    }
    Ok(peers)
}

#[test]
fn silent_connections_make_room(rt: HostRuntime) -> Result<(), Fail> {
    let outcome = run(rt.alloc(), silent(rt.alloc(), 5_000, true)?, 2, 3)?;
    assert!(rt; outcome.result.is_ok());
    assert_eq!(rt; times(&outcome, 0), (millis(0), millis(60)));
    assert_eq!(rt; times(&outcome, 1), (millis(0), millis(60)));
    assert_eq!(rt; times(&outcome, 2).0, millis(60));
    assert!(rt; has(&outcome, 2, b"third\n\n"));
    assert_eq!(rt; (outcome.drops.rounds, outcome.drops.dropped), (1, 2));
    Ok(())
}

#[test]
fn silent_connections_stay_where_nobody_waits(rt: HostRuntime) -> Result<(), Fail> {
    let outcome = run(rt.alloc(), silent(rt.alloc(), 5_000, false)?, 2, 2)?;
    assert!(rt; outcome.result.is_ok());
    assert!(rt; has(&outcome, 0, b"late\n\n"));
    assert!(rt; has(&outcome, 1, b"late\n\n"));
    assert_eq!(rt; (outcome.drops.rounds, outcome.drops.dropped), (0, 0));
    Ok(())
}

#[test]
fn stalled_and_lingering_connections_make_room(rt: HostRuntime) -> Result<(), Fail> {
    let mut stalled = Peer::new(rt.alloc(), 0, 100);
    stalled.send(rt.alloc(), 0, b"a")?;
    stalled.send(rt.alloc(), 5_000, b"\n\n")?;
    let mut lingering = Peer::new(rt.alloc(), 100, 100);
    lingering.send(rt.alloc(), 100, b"b\n\n")?;
    let mut peers = Peers::new(rt.alloc())?;
    peers.peers.push(stalled)?;
    peers.peers.push(lingering)?;
    peers.peers.push(simple(rt.alloc(), 100, b"c\n\n")?)?;
    let outcome = run(rt.alloc(), peers, 1, 3)?;
    assert!(rt; outcome.result.is_ok());
    assert_eq!(rt; times(&outcome, 0), (millis(0), millis(2_000)));
    assert_eq!(rt; times(&outcome, 1), (millis(2_000), millis(2_050)));
    assert!(rt; has(&outcome, 0, b""));
    assert!(rt; has(&outcome, 1, b"b\n\n"));
    assert!(rt; has(&outcome, 2, b"c\n\n"));
    assert_eq!(rt; (outcome.drops.rounds, outcome.drops.dropped), (2, 2));
    Ok(())
}
