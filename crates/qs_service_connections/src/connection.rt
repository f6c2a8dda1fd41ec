//! One joined connection.

ghost use Rattle.std.specs.Prelude.{◌≡◌, ◌≤◌, ◌+◌, ◌-◌, [], Some, min};
ghost use Rattle.qs_service_connections.specs.State as state;
ghost use Rattle.qs_service_connections.specs.State.{next_bytes, reply_in};
ghost use Rattle.qs_service_connections.specs.State.{with_taken};
ghost use Rattle.qs_service_connections.specs.Step.{Receives};
ghost use Rattle.qs_service_connections.specs.inner.Receive.{bytes_in, StandAt};

use crate::meaning::Meaning;
use crate::receive::{ConnectionState, receive};
use crate::reply::Reply;
use qs_http::{Fixed, Session};
use std::alloc::Global;
use std::marker::Model;
use std::mem;

/// A joined connection.
#[derive(Drop)]
pub struct Connection {
    id: u64,
    state: ConnectionState,
}

impl Model for Connection {
    ghost use Rattle.qs_service_connections.specs.State.{Joined};
    ghost use Rattle.qs_service_connections.specs.inner.Receive.{exchange_in, IsConnectionState};

    ghost Value = { Joined };

    ghost view = { λ c. record { id = c.id; exchange = exchange_in c.state } };

    ghost invariant = { λ c. IsConnectionState c.state };
}

// Where n bytes end that begin there, or all bytes.
fn end_of(from: usize, len: usize, n: usize) -> usize
    requires { from ≤ len }
    ensures { result ≡ from + min n (len - from) }
{
    if n < len - from { from + n } else { len }
}

impl Connection {
    ghost use Rattle.std.specs.Option.{option_copied};

    /// A connection that has read nothing. It takes no memory.
    pub fn new(alloc: Global, id: u64) -> Connection
        ensures { result ≡ record { id = id; exchange = state.Reading [] } }
    {
        Connection {
            id,
            state: ConnectionState::Reading(Session::new(alloc)),
        }
    }

    /// The id of the connection.
    pub fn id(&self) -> u64
        ensures { result ≡ self.now.id }
    {
        self.id
    }

    /// A piece of bytes arrives.
    pub fn receive<M: Meaning>(&mut self, alloc: Global, meaning: &mut M, piece: &[u8])
        ensures id { self.new.id ≡ self.old.id }
        ensures received { Receives M.carries meaning.old self.old.exchange piece.now meaning.new
            self.new.exchange }
    {
        let unset = ConnectionState::Answered {
            reply: Reply::fixed(Fixed::Memory),
            taken: 0,
        };
        let state = mem::replace(&mut self.state, unset);
        self.state = match state {
            ConnectionState::Reading(mut session) => {
                match receive(alloc, &mut session, meaning, piece) {
                    None => ConnectionState::Reading(session),
                    Some(reply) => ConnectionState::Answered { reply, taken: 0 },
                }
            }
            answered => answered,
        };
    }

    /// The next n bytes of the reply, or those that are left, are counted as taken: from the first number on, up to the second.
    pub fn count(&mut self, n: usize) -> (usize, usize)
        ensures bytes { StandAt self.old.exchange result.0 result.1
            (next_bytes n self.old.exchange) }
        ensures counts { self.new ≡ record self.old { exchange = with_taken n self.old.exchange } }
    {
        match &mut self.state {
            ConnectionState::Reading(_) => (0, 0),
            ConnectionState::Answered { reply, taken } => {
                let from = *taken;
                let to = end_of(from, reply.bytes().len(), n);
                *taken = to;
                (from, to)
            }
        }
    }

    /// The reply, where it stands.
    pub fn reply(&self) -> Option<&Reply>
        ensures { option_copied result ≡ reply_in (Some self.now.exchange) }
    {
        match &self.state {
            ConnectionState::Reading(_) => None,
            ConnectionState::Answered { reply, taken: _ } => Some(reply),
        }
    }

    /// The bytes of the reply, none while there is no reply.
    pub fn bytes(&self) -> &[u8]
        ensures { result.now ≡ bytes_in self.now.exchange }
    {
        match &self.state {
            ConnectionState::Reading(_) => &[],
            ConnectionState::Answered { reply, taken: _ } => reply.bytes(),
        }
    }
}
