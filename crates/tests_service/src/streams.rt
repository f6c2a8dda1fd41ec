//! One connection over a stream.

use crate::interleaved::{ASK, INSERT, TRUE, is_kept, service};
use crate::memory::{Memory, STEP};
use qs_http::{Fixed, fixed};
use qs_service::{ServeFault, Served, Service};
use std::alloc::Global;
use std::hash::RandomState;

pub const NOT_THERE: &[u8] = b"GET /no HTTP/1.1\r\nHost: e\r\n\r\n";

const MANY: u64 = 1000;

/// Whether the connection ends so, and this went out, where so many calls of the stream succeed.
fn is_served(
    alloc: Global,
    service: &mut Service,
    input: &[u8],
    calls: u64,
    served: Result<Served, ServeFault>,
    output: &[u8],
) -> bool {
    let mut stream = Memory::new(alloc, input, calls);
    let is = service.serve_one(&mut stream) == served && stream.output() == output;
    drop(stream);
    is
}

/// Each front of a request is silent, and the whole has its reply.
fn fronts_are_silent(alloc: Global, service: &mut Service) -> bool {
    for n in 0..NOT_THERE.len() {
        let front = &NOT_THERE[..n];
        if !is_served(alloc, service, front, MANY, Ok(Served::Silent), b"") {
            return false;
        }
    }
    let reply = fixed(Fixed::NotFound);
    is_served(
        alloc,
        service,
        NOT_THERE,
        MANY,
        Ok(Served::Answered(404)),
        reply,
    )
}

/// The update has 149 bytes, which are read in eight calls. Where one of these fails, nothing is carried out.
fn reads_fail(alloc: Global, service: &mut Service) -> bool {
    for calls in 0..8 {
        let is = is_served(alloc, service, INSERT, calls, Err(ServeFault::Read), b"");
        if !is || !is_kept(&*service, false) {
            return false;
        }
    }
    true
}

/// Whether the update ends so, and stands.
fn stands(
    alloc: Global,
    service: &mut Service,
    calls: u64,
    served: Result<Served, ServeFault>,
    output: &[u8],
) -> bool {
    is_kept(&*service, false)
        && is_served(alloc, service, INSERT, calls, served, output)
        && is_kept(&*service, true)
}

/// `stands` over a service of its own.
fn stands_alone(
    alloc: Global,
    hasher: Option<RandomState>,
    calls: u64,
    served: Result<Served, ServeFault>,
    output: &[u8],
) -> bool {
    match service(alloc, hasher) {
        Some(mut service) => {
            let is = stands(alloc, &mut service, calls, served, output);
            drop(service);
            is
        }
        None => false,
    }
}

/// Its reply of 46 bytes goes out in three. Where one of these fails, the update stands, and what went out is told.
fn writes_fail(alloc: Global, hasher: Option<RandomState>) -> bool {
    let reply = fixed(Fixed::NoContent);
    for calls in 0..3 {
        let written = calls * STEP;
        let front = reply.get(..written).unwrap_or(reply);
        let told = Err(ServeFault::Write { written });
        if !stands_alone(alloc, hasher, 8 + calls as u64, told, front) {
            return false;
        }
    }
    true
}

/// None of these fails.
fn all_goes_out(alloc: Global, service: &mut Service) -> bool {
    let reply = fixed(Fixed::NoContent);
    stands(alloc, service, 11, Ok(Served::Answered(204)), reply)
}

/// The query of 62 bytes is read in four calls, and its reply of 131 bytes goes out in seven. Where one of the last two fails, what went out is
/// told.
fn bodies_fail(alloc: Global, service: &mut Service) -> bool {
    let told = |written: usize| Err(ServeFault::Write { written });
    is_served(alloc, service, ASK, 9, told(100), &TRUE[..100])
        && is_served(alloc, service, ASK, 10, told(120), &TRUE[..120])
        && is_served(alloc, service, ASK, 11, Ok(Served::Answered(200)), TRUE)
}

#[test]
fn serves_one_over_a_stream(rt: HostRuntime) {
    let alloc = rt.alloc();
    let is = match service(alloc, RandomState::new(&rt).ok()) {
        Some(mut service) => {
            let is = fronts_are_silent(alloc, &mut service)
                && reads_fail(alloc, &mut service)
                && all_goes_out(alloc, &mut service)
                && bodies_fail(alloc, &mut service);
            drop(service);
            is
        }
        None => false,
    };
    assert!(rt; is);
}

#[test]
fn tells_what_went_out(rt: HostRuntime) {
    assert!(rt; writes_fail(rt.alloc(), RandomState::new(&rt).ok()));
}
