//! Limits of one connection, and its ends. The expected times are those of the limits, which are looked at every second.

use crate::peers::{Peer, Peers};
use crate::run::run;
use std::alloc::{AllocError, Global};
use std::test::Fail;
use std::time::Duration;

/// What became of a client: when it was dropped, in milliseconds, whether it was told of the end, and how many bytes it got.
type End = (Option<Duration>, bool, usize);

/// Serves that client alone.
fn end_of(alloc: Global, peer: Peer) -> Result<End, AllocError> {
    let mut peers = Peers::new(alloc)?;
    peers.peers.push(peer)?;
    let outcome = run(alloc, peers, 2, 1)?;
    match outcome.script.peers.peers.get(0) {
        Some(peer) => Ok((peer.closed, peer.finished.is_some(), peer.received.len())),
        None => Ok((None, false, 0)),
    }
}

/// That many milliseconds.
fn millis(n: u64) -> Option<Duration> {
    Some(Duration::from_millis(n))
}

#[test]
fn silent_connection_ends_after_the_pause(rt: HostRuntime) -> Result<(), Fail> {
    let silent = Peer::new(rt.alloc(), 0, 100);
    assert_eq!(rt; end_of(rt.alloc(), silent)?, (millis(30_000), false, 0));
    Ok(())
}

#[test]
fn slow_request_ends_after_its_time(rt: HostRuntime) -> Result<(), Fail> {
    let mut slow = Peer::new(rt.alloc(), 0, 100);
    for i in 0..10u64 {
        slow.send(rt.alloc(), i * 10_000, b"x")?;
    }
    assert_eq!(rt; end_of(rt.alloc(), slow)?, (millis(60_000), false, 0));
    Ok(())
}

#[test]
fn reply_ends_after_the_pause_alone(rt: HostRuntime) -> Result<(), Fail> {
    let mut deaf = Peer::new(rt.alloc(), 0, 0);
    deaf.send(rt.alloc(), 0, b"ab\n\n")?;
    assert_eq!(rt; end_of(rt.alloc(), deaf)?, (millis(30_000), false, 0));
    let mut lingering = Peer::new(rt.alloc(), 0, 1);
    lingering.send(rt.alloc(), 0, b"ab\n\n")?;
    assert_eq!(rt; end_of(rt.alloc(), lingering)?, (millis(1_000), true, 4));
    Ok(())
}

#[test]
fn lingering_connection_ends_though_bytes_come(rt: HostRuntime) -> Result<(), Fail> {
    let mut talking = Peer::new(rt.alloc(), 0, 100);
    talking.send(rt.alloc(), 0, b"ab\n\n")?;
    for i in 1..100u64 {
        talking.send(rt.alloc(), i * 500, b"more")?;
    }
    assert_eq!(rt; end_of(rt.alloc(), talking)?, (millis(30_000), true, 4));
    Ok(())
}

#[test]
fn peer_that_stops_sending(rt: HostRuntime) -> Result<(), Fail> {
    let mut early = Peer::new(rt.alloc(), 0, 100);
    early.send(rt.alloc(), 0, b"ab")?;
    early.send(rt.alloc(), 5, b"")?;
    assert_eq!(rt; end_of(rt.alloc(), early)?, (millis(5), false, 0));
    let mut half = Peer::new(rt.alloc(), 0, 1);
    half.send(rt.alloc(), 5, b"ab\n\n")?;
    half.send(rt.alloc(), 5, b"")?;
    assert_eq!(rt; end_of(rt.alloc(), half)?, (millis(5), true, 4));
    Ok(())
}
