//! Connections, as the event loop sees them.

ghost use Rattle.std.specs.Prelude.{◌≡◌, ◌<◌, ◌+◌, ◌^◌, List, Option, drop, length};

use qs_service_connections::{Connections, Meaning};
use qs_service_reactor::Endpoint;
use std::marker::Model;

/// Connections whose requests have that meaning, served by an event loop.
#[derive(Drop)]
pub struct ConnectionsEndpoint<M> {
    connections: Connections<M>,
}

impl<M> Model for ConnectionsEndpoint<M> {
    ghost use Rattle.qs_service_connections.specs.State.{State};

    ghost Value = { State M };

    ghost view = { λ e. e.connections };
}

impl<M: Meaning> ConnectionsEndpoint<M> {
    /// The endpoint of these connections.
    pub fn new(connections: Connections<M>) -> ConnectionsEndpoint<M>
        ensures { result ≡ connections }
    {
        ConnectionsEndpoint { connections }
    }
}

// The bytes of a reply from that place on.
fn rest(bytes: &[u8], sent: usize) -> &[u8]
    ensures rest { result.now ≡ drop sent bytes.now }
    ensures room { sent + length result.now < 2 ^ 64 }
{
    if sent < bytes.len() {
        &bytes[sent..]
    } else {
        &[]
    }
}

impl<M: Meaning> Endpoint for ConnectionsEndpoint<M> {
    ghost use Rattle.qs_service_endpoint.specs.Endpoint.{Steps, reply_bytes};

    ghost steps = { Steps M.carries };

    ghost reply_of = { reply_bytes };

    fn join(&mut self, id: u64) -> bool {
        self.connections.join_conn(id).is_ok()
    }

    fn piece(&mut self, id: u64, bytes: &[u8]) -> bool {
        self.connections.piece(id, bytes).is_ok()
    }

    fn end(&mut self, id: u64) -> bool {
        self.connections.end_conn(id).is_ok()
    }

    fn unsent(&self, id: u64, sent: usize) -> Option<&[u8]> {
        match self.connections.reply(id) {
            Some(reply) => Some(rest(reply.bytes(), sent)),
            None => None,
        }
    }
}
