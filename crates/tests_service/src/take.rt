//! Replies that are taken.

ghost use Rattle.std.specs.Prelude.{◌<◌};

use crate::interleaved::{TRUE, service};
use qs_service::{Service, ServiceFault};
use std::hash::RandomState;

const ASK: &[u8] = b"GET /query?query=ASK%7B+FILTER%28true%29+%7D HTTP/1.1\r\nHost: e\r\n\r\n";

/// Whether a query is sent on a connection that joins, which has nothing to take before.
fn is_asked(service: &mut Service, id: u64) -> bool {
    service.join_conn(id).is_ok()
        && matches!(service.take(id, 5), Ok(bytes) if bytes.is_empty())
        && service.piece(id, ASK).is_ok()
}

/// Whether each byte of the reply is taken once: n at a time, and at the end those that are left.
fn is_taken(service: &mut Service, id: u64, n: usize) -> bool
    requires { 0 < n }
{
    for due in TRUE.chunks(n) {
        match service.take(id, n) {
            Ok(bytes) if bytes == due => {}
            _ => return false,
        }
    }
    matches!(service.take(id, n), Ok(bytes) if bytes.is_empty())
}

/// Whether replies of 131 bytes, of which 26 are the body, are taken five bytes at a time, byte by byte, and in one call.
fn takes(service: &mut Service) -> bool {
    is_asked(service, 7)
        && is_taken(service, 7, 5)
        && is_asked(service, 8)
        && is_taken(service, 8, 1)
        && is_asked(service, 9)
        && is_taken(service, 9, 131)
        && is_asked(service, 10)
        && is_taken(service, 10, usize::MAX)
        && matches!(service.take(11, 5), Err(ServiceFault::UnknownId))
        && service.end_conn(7).is_ok()
        && matches!(service.take(7, 5), Err(ServiceFault::UnknownId))
        && service.end_conn(8).is_ok()
        && service.end_conn(9).is_ok()
        && service.end_conn(10).is_ok()
}

/// Whether 64 connections join, and the next is told that there are.
fn is_busy_at_65(service: &mut Service) -> bool {
    for id in 0..64u64 {
        if service.join_conn(id).is_err() {
            return false;
        }
    }
    service.join_conn(64) == Err(ServiceFault::Busy)
        && service.join_conn(63) == Err(ServiceFault::KnownId)
        && service.end_conn(64) == Err(ServiceFault::UnknownId)
        && service.end_conn(63) == Ok(())
        && service.join_conn(64) == Ok(())
}

#[test]
fn takes_each_byte_once(rt: HostRuntime) {
    let is = match service(rt.alloc(), RandomState::new(&rt).ok()) {
        Some(mut service) => {
            let is = takes(&mut service) && is_busy_at_65(&mut service);
            drop(service);
            is
        }
        None => false,
    };
    assert!(rt; is);
}
