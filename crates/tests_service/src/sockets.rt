//! Connections that arrive at a listener.

use crate::interleaved::service;
use crate::streams::NOT_THERE;
use qs_http::{Fixed, fixed};
use qs_service::{Service, serve};
use std::hash::RandomState;
use std::io;
use std::io::{Read, Write};
use std::net::{TcpListener, TcpStream};

/// What the stream gives until its end.
fn is_answered(rt: &HostRuntime, stream: &mut TcpStream) -> io::Result<bool> {
    let mut reply = Vec::new(rt.alloc());
    stream.read_to_end(&mut reply)?;
    let is = reply.as_slice() == fixed(Fixed::NotFound);
    Ok(is)
}

/// Two clients write their requests, then both are served, and then both read.
fn are_served(rt: &HostRuntime, service: &mut Service) -> io::Result<bool> {
    let listener = TcpListener::bind(rt, "127.0.0.1:0")?;
    let address = listener.local_addr()?;
    let mut one = TcpStream::connect(rt, address)?;
    let mut other = TcpStream::connect(rt, address)?;
    one.write_all(NOT_THERE)?;
    other.write_all(NOT_THERE)?;
    serve(&listener, 2, service)?;
    Ok(is_answered(rt, &mut one)? && is_answered(rt, &mut other)?)
}

#[test]
fn serves_two_that_come(rt: HostRuntime) {
    let is = match service(rt.alloc(), RandomState::new(&rt).ok()) {
        Some(mut service) => {
            let is = matches!(are_served(&rt, &mut service), Ok(true));
            drop(service);
            is
        }
        None => false,
    };
    assert!(rt; is);
}
