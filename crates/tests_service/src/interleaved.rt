//! Connections whose pieces come in turn.

use crate::outcome::Outcome;
use qs_http::{Fixed, fixed};
use qs_service::{OverStore, Service};
use qs_store::Store;
use std::alloc::Global;
use std::hash::RandomState;

pub const ASK: &[u8] = b"GET /query?query=ASK%7B%3Fs+%3Fp+%3Fo%7D HTTP/1.1\r\nHost: e\r\n\r\n";

pub const INSERT: &[u8] =
    b"POST /update HTTP/1.1\r\nHost: e\r\nContent-Type: application/sparql-update\r\nContent-Length: 54\r\n\r\nINSERT DATA { <http://e/a> <http://e/p> <http://e/b> }";

const DUMP: &[u8] = b"GET /data HTTP/1.1\r\nHost: e\r\n\r\n";

pub const TRUE: &[u8] =
    b"HTTP/1.1 200 OK\r\nConnection: close\r\nContent-Type: application/sparql-results+json\r\nContent-Length: 26\r\n\r\n{\"boolean\":true,\"head\":{}}";

pub const FALSE: &[u8] =
    b"HTTP/1.1 200 OK\r\nConnection: close\r\nContent-Type: application/sparql-results+json\r\nContent-Length: 27\r\n\r\n{\"boolean\":false,\"head\":{}}";

const ONE_QUAD: &[u8] =
    b"HTTP/1.1 200 OK\r\nConnection: close\r\nContent-Type: application/n-quads\r\nContent-Length: 41\r\n\r\n<http://e/a> <http://e/p> <http://e/b> .\n";

const NO_QUAD: &[u8] =
    b"HTTP/1.1 200 OK\r\nConnection: close\r\nContent-Type: application/n-quads\r\nContent-Length: 0\r\n\r\n";

/// A service over an empty store.
pub fn service(alloc: Global, hasher: Option<RandomState>) -> Option<Service> {
    let store = Store::new(alloc, 100, hasher?);
    match Service::new(alloc, store, 10) {
        Ok(service) => Some(service),
        Err(store) => {
            drop(store);
            None
        }
    }
}

fn is_reply(service: &Service, id: u64, due: &[u8]) -> bool {
    match service.reply(id) {
        Some(reply) => reply.bytes() == due,
        None => false,
    }
}

fn is_wanting(service: &Service, id: u64) -> bool {
    is_reply(service, id, fixed(Fixed::Memory))
}

/// Whether the events are taken: a query whose last bytes come after an update of another connection, and then a dump.
fn is_told(service: &mut Service) -> bool {
    service.join_conn(1).is_ok()
        && service.join_conn(2).is_ok()
        && service.join_conn(3).is_ok()
        && service.piece(1, &ASK[..ASK.len() - 3]).is_ok()
        && service.piece(2, INSERT).is_ok()
        && service.piece(1, &ASK[ASK.len() - 3..]).is_ok()
        && service.piece(3, DUMP).is_ok()
}

/// Whether the store holds the quad of the update, or nothing.
pub fn is_kept(service: &Service, is_stored: bool) -> bool {
    let store = service.store();
    let (quads, terms) = if is_stored { (1, 3) } else { (0, 0) };
    store.count() == quads && store.terms() == terms && store.next_blank() == 0
}

/// Whether a request that was refused, sent again by another connection, has its reply, after which the quad of the update is stored.
fn is_answered_again(service: &mut Service, request: &[u8], due: &[u8]) -> bool {
    service.join_conn(4).is_ok()
        && service.piece(4, request).is_ok()
        && is_reply(&*service, 4, due)
        && is_kept(&*service, true)
}

fn replies(service: &mut Service) -> Outcome {
    let is_stored = is_reply(&*service, 2, fixed(Fixed::NoContent));
    let asked = is_reply(&*service, 1, if is_stored { TRUE } else { FALSE });
    let dumped = is_reply(&*service, 3, if is_stored { ONE_QUAD } else { NO_QUAD });
    if !is_kept(&*service, is_stored) {
        return Outcome::Wrong;
    }
    // (one growth is refused, so one connection is told of it, and the others have their replies)
    if is_stored && asked && dumped {
        Outcome::Whole
    } else if is_wanting(&*service, 2) && asked && dumped {
        Outcome::Refused.or_wrong(is_answered_again(service, INSERT, fixed(Fixed::NoContent)))
    } else if is_stored && is_wanting(&*service, 1) && dumped {
        Outcome::Refused.or_wrong(is_answered_again(service, ASK, TRUE))
    } else if is_stored && asked && is_wanting(&*service, 3) {
        Outcome::Refused.or_wrong(is_answered_again(service, DUMP, ONE_QUAD))
    } else {
        Outcome::Wrong
    }
}

/// What the replies and the store result in.
pub fn interleaved(alloc: Global, hasher: Option<RandomState>) -> Outcome {
    match service(alloc, hasher) {
        Some(mut service) => {
            let outcome = if is_told(&mut service) {
                replies(&mut service)
            } else {
                Outcome::Wrong
            };
            drop(service);
            outcome
        }
        None => Outcome::Refused,
    }
}

/// Sends the byte on the connections.
fn send(service: &mut Service, ids: std::ops::Range<u64>, byte: &[u8]) {
    for id in ids {
        let _ = service.piece(id, byte);
    }
}

/// Sends the bytes on the connections, byte by byte in turn.
fn send_all(service: &mut Service, from: u64, to: u64, bytes: &[u8]) {
    for byte in bytes.chunks(1) {
        send(service, from..to, byte);
    }
}

/// 63 connections send a query, byte by byte in turn, and another an update, whose last byte comes between their last bytes: each is
/// answered over what is stored when its own last byte comes.
fn are_answered_in_turn(service: &mut Service) -> bool {
    for id in 0..64u64 {
        if service.join_conn(id).is_err() {
            return false;
        }
    }
    send_all(service, 0, 63, &ASK[..ASK.len() - 1]);
    send_all(service, 63, 64, &INSERT[..INSERT.len() - 1]);
    send(service, 0..31, &ASK[ASK.len() - 1..]);
    send(service, 63..64, &INSERT[INSERT.len() - 1..]);
    send(service, 31..63, &ASK[ASK.len() - 1..]);
    for id in 0..63u64 {
        if !is_reply(service, id, if id < 31 { FALSE } else { TRUE }) {
            return false;
        }
    }
    is_reply(service, 63, fixed(Fixed::NoContent)) && is_kept(service, true)
}

#[test]
fn sixty_three_and_an_update_between_them(rt: HostRuntime) {
    let is = match service(rt.alloc(), RandomState::new(&rt).ok()) {
        Some(mut service) => {
            let is = are_answered_in_turn(&mut service);
            drop(service);
            is
        }
        None => false,
    };
    assert!(rt; is);
}
