//! The data of a file, served on a port.

use crate::dropped::Dropped;
use crate::files::{file, hasher, refuse_for_memory};
use crate::places::places_for;
use qs_base::drop_value;
use qs_service::Service;
use qs_service_endpoint::ConnectionsEndpoint;
use qs_service_reactor::{Limits, Sockets};
use qs_store::DefaultGraph;
use qs_terms::{Sink, put_all};
use quads::{ServiceEndpoint, load_owned_service, put_refusal, serve_events};
use quads_command::ServeOptions;
use std::alloc::Global;
use std::io;
use std::net::{Ipv4Addr, TcpListener};
use std::time::Duration;

/// How many seconds a peer has to end its side once its whole reply went out.
const LINGER: u64 = 1;

// A service over the data of the file, or the exit status where there is none.
fn service_of<S: Sink>(
    rt: &HostRuntime,
    out: &mut S,
    data: &str,
    default_graph: DefaultGraph,
) -> Result<Service, u8> {
    let data = file(rt, out, data)?;
    let hasher = hasher(rt, out)?;
    match load_owned_service(rt.alloc(), hasher, default_graph, data) {
        Ok(service) => Ok(service),
        Err(refusal) => Err(put_refusal(rt.alloc(), &refusal, out).status),
    }
}

// Prints a line of that text and the port, or of the fault for out of memory: whether it went out.
fn put_port<S: Sink>(alloc: Global, out: &mut S, text: &str, port: u16) -> bool {
    match format!(in alloc; "{text}{port}\n") {
        Ok(line) => put_all(out, line.as_bytes()) == line.len(),
        Err(_) => {
            refuse_for_memory(out);
            false
        }
    }
}

// The limits that the command line chose, with no more places than descriptors for them.
fn limits_of(rt: &HostRuntime, options: &ServeOptions) -> Limits {
    Limits {
        at_once: places_for(rt, (options.at_once as usize).clamp(1, 64)),
        idle: Duration::from_secs(options.idle as u64),
        request: Duration::from_secs(options.request as u64),
        linger: Duration::from_secs(LINGER),
    }
}

// Serves the connections of the listener, and tells on standard error how many were dropped because all places were taken.
fn serve_listener(
    rt: &HostRuntime,
    listener: &TcpListener,
    options: &ServeOptions,
    endpoint: &mut ServiceEndpoint,
) -> io::Result<()> {
    let limits = limits_of(rt, options);
    let mut sockets = Sockets::new(rt, rt, rt.alloc(), listener)?;
    let mut dropped = Dropped::new(rt, limits.at_once);
    let served = serve_events(
        rt.alloc(),
        &mut sockets,
        &limits,
        options.requests,
        endpoint,
        &mut dropped,
    );
    dropped.tell_sum();
    served
}

// Listens, says so, and serves: the exit status.
fn serve_on<S: Sink>(
    rt: &HostRuntime,
    out: &mut S,
    port: u16,
    options: &ServeOptions,
    endpoint: &mut ServiceEndpoint,
) -> u8 {
    let Ok(listener) = TcpListener::bind(rt, (Ipv4Addr::LOCALHOST, port)) else {
        put_port(rt.alloc(), out, "cannot listen on ", port);
        return 1;
    };
    if !put_port(rt.alloc(), out, "listening on 127.0.0.1:", port) {
        return 1;
    }
    match serve_listener(rt, &listener, options, endpoint) {
        Ok(()) => 0,
        Err(error) if error.kind() == io::ErrorKind::OutOfMemory => refuse_for_memory(out),
        Err(_) => {
            put_port(rt.alloc(), out, "cannot listen on ", port);
            1
        }
    }
}

/// Serves the data of the file on a port of 127.0.0.1, and returns the exit status. The file is read before the port is bound.
pub fn serve_data<S: Sink>(
    rt: &HostRuntime,
    out: &mut S,
    port: u16,
    options: &ServeOptions,
    data: &str,
    default_graph: DefaultGraph,
) -> u8 {
    match service_of(rt, out, data, default_graph) {
        Ok(service) => {
            let mut endpoint = ConnectionsEndpoint::new(service);
            let status = serve_on(rt, out, port, options, &mut endpoint);
            drop_value(endpoint);
            status
        }
        Err(status) => status,
    }
}
