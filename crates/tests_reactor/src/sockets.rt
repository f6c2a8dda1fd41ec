//! Connections over sockets.

use crate::echo::Echo;
use crate::run::Drops;
use qs_service_reactor::{Limits, Sockets, serve_events};
use std::io;
use std::io::{Read, Write};
use std::net::{TcpListener, TcpStream};
use std::test::Fail;
use std::time::Duration;

/// What the stream gives until its end.
fn is_answered(rt: &HostRuntime, stream: &mut TcpStream, reply: &[u8]) -> io::Result<bool> {
    let mut received = Vec::new(rt.alloc());
    stream.read_to_end(&mut received)?;
    let is = received.as_slice() == reply;
    Ok(is)
}

/// Two clients write their requests, then both are served, and then both read.
fn are_served(rt: &HostRuntime) -> io::Result<bool> {
    let listener = TcpListener::bind(rt, "127.0.0.1:0")?;
    let address = listener.local_addr()?;
    let mut one = TcpStream::connect(rt, address)?;
    let mut other = TcpStream::connect(rt, address)?;
    one.write_all(b"one\n\n")?;
    other.write_all(b"the other\n\n")?;
    let limits = Limits {
        at_once: 2,
        idle: Duration::from_secs(5),
        request: Duration::from_secs(5),
        linger: Duration::from_millis(10),
    };
    let mut drops = Drops {
        rounds: 0,
        dropped: 0,
    };
    let mut echo = Echo::new(rt.alloc())?;
    let mut sockets = Sockets::new(rt, rt, rt.alloc(), &listener)?;
    serve_events(
        rt.alloc(),
        &mut sockets,
        &limits,
        Some(2),
        &mut echo,
        &mut drops,
    )?;
    drop(sockets);
    Ok(is_answered(rt, &mut one, b"one\n\n")? && is_answered(rt, &mut other, b"the other\n\n")?)
}

#[test]
fn serves_two_that_come(rt: HostRuntime) -> Result<(), Fail> {
    assert!(rt; are_served(&rt)?);
    Ok(())
}
