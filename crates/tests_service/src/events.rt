//! Many connections at once, over a network in memory.

use crate::interleaved::{ASK, FALSE, INSERT, TRUE, service};
use qs_http::{Fixed, fixed};
use qs_service::Service;
use qs_service_endpoint::ConnectionsEndpoint;
use qs_service_reactor::{Limits, Observer, serve_events};
use std::alloc::{AllocError, Global};
use std::hash::RandomState;
use std::io::ErrorKind;
use std::test::Fail;
use std::time::Duration;
use tests_reactor::{Fault, Peer, Peers, Script};

/// Nobody is told of dropped connections.
#[derive(Drop)]
struct Nobody;

impl Observer for Nobody {
    fn table_full(&mut self, _dropped: u64) {}
}

/// A client that sends a byte a millisecond, but the last one at that time, and takes 50 bytes at a time.
fn byte_by_byte(alloc: Global, bytes: &[u8], last: u64) -> Result<Peer, AllocError> {
    let mut peer = Peer::new(alloc, 0, 50);
    let mut at = 0u64;
    for byte in bytes.chunks(1) {
        at = at.saturating_add(1);
        let is_last = at == bytes.len() as u64;
        peer.send(alloc, if is_last { last } else { at }, byte)?;
    }
    peer.send(alloc, last, b"")?;
    Ok(peer)
}

/// 63 clients that send a query, and one that sends an update, whose last byte comes between theirs.
fn clients(alloc: Global) -> Result<Peers, AllocError> {
    let mut peers = Peers::new(alloc)?;
    for i in 0..63u64 {
        let last = if i < 31 { 1_000 + i } else { 1_200 + i };
        peers.peers.push(byte_by_byte(alloc, ASK, last)?)?;
    }
    peers.peers.push(byte_by_byte(alloc, INSERT, 1_100)?)?;
    Ok(peers)
}

/// Whether the client of that number got this reply, and was told of its end.
fn is_answered(script: &Script, which: usize, due: &[u8]) -> bool {
    match script.peers.peers.get(which) {
        Some(peer) => peer.received.as_slice() == due && peer.finished.is_some(),
        None => false,
    }
}

/// Whether each reply is due for what is stored when the last byte of its own request comes.
fn are_answered(script: &Script) -> bool {
    for i in 0..63usize {
        if !is_answered(script, i, if i < 31 { FALSE } else { TRUE }) {
            return false;
        }
    }
    is_answered(script, 63, fixed(Fixed::NoContent))
}

/// Serves the clients, and returns the network after that, and whether all went well.
fn served(alloc: Global, peers: Peers, service: Service) -> (Script, bool) {
    let fault = Fault {
        call: 0,
        kind: ErrorKind::Other,
    };
    let limits = Limits {
        at_once: 64,
        idle: Duration::from_secs(30),
        request: Duration::from_secs(60),
        linger: Duration::from_secs(1),
    };
    let mut script = Script::new(alloc, peers, fault);
    let mut endpoint = ConnectionsEndpoint::new(service);
    let result = serve_events(
        alloc,
        &mut script,
        &limits,
        Some(64),
        &mut endpoint,
        &mut Nobody,
    );
    drop(endpoint);
    (script, result.is_ok())
}

/// Whether 63 clients and one with an update between them are answered.
fn is_served(alloc: Global, peers: Peers, service: Option<Service>) -> bool {
    match service {
        Some(service) => {
            let (script, is_ok) = served(alloc, peers, service);
            is_ok && are_answered(&script)
        }
        None => false,
    }
}

#[test]
fn sixty_three_and_an_update_between_them(rt: HostRuntime) -> Result<(), Fail> {
    let peers = clients(rt.alloc())?;
    let service = service(rt.alloc(), RandomState::new(&rt).ok());
    assert!(rt; is_served(rt.alloc(), peers, service));
    Ok(())
}
