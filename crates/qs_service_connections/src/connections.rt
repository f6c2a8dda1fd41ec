//! The joined connections, and what their requests do.
//!
//! `take(id, n)` lends the next n bytes in one slice, or those that are left where they are fewer.

ghost use Rattle.std.specs.Prelude.{◌≡◌, []};

use crate::connection::Connection;
use crate::fault::ServiceFault;
use crate::meaning::Meaning;
use crate::reply::Reply;
use crate::served::{ServeFault, Served};
use crate::stream::serve_stream;
use crate::table::{MOST, Table, place_of};
use qs_terms::Stream;
use std::alloc::Global;
use std::marker::Model;

/// Connections whose requests have that meaning. The event that brings the last byte of a request carries the whole request out, whatever
/// came on other connections between its first byte and its last; no other event touches what is stored.
#[derive(Drop)]
pub struct Connections<M> {
    alloc: Global,
    meaning: M,
    connections: Vec<Connection>,
}

impl<M> Model for Connections<M> {
    ghost use Rattle.qs_service_connections.specs.State.{State};
    ghost use Rattle.qs_service_connections.specs.inner.Table.{IsTable};

    ghost Value = { State M };

    ghost view = { λ s. record { stored = s.meaning; joined = s.connections.items } };

    ghost invariant = { λ s. IsTable s.connections };
}

impl<M: Meaning> Connections<M> {
    ghost use Rattle.std.specs.Borrow.{sem};
    ghost use Rattle.std.specs.Io.BufRead.{Rests};
    ghost use Rattle.std.specs.Option.{option_copied};
    ghost use Rattle.std.specs.Result.{result_err};
    ghost use Rattle.qs_service_connections.specs.Serve.{Serves, CountsFault};
    ghost use Rattle.qs_service_connections.specs.State.{State, reply_at};
    ghost use Rattle.qs_service_connections.specs.Step.{Step, Join, Piece, End, TakesBytes};
    ghost use Rattle.qs_service_connections.specs.Step.{TakesTo};
    ghost use Rattle.qs_service_connections.specs.contracts.connections.Connections.{the_row};

    /// The connections of the table, none yet, whose requests have that meaning. It takes no memory.
    pub fn with_table(table: Table, meaning: M) -> Connections<M>
        ensures { result ≡ record { stored = meaning; joined = [] } }
    {
        Connections {
            alloc: table.alloc,
            meaning,
            connections: table.connections,
        }
    }

    /// What is stored, as it stands.
    pub fn meaning(&self) -> &M
        ensures { result.now ≡ self.now.stored }
    {
        &self.meaning
    }

    /// Serves one connection apart from the joined ones. Pieces of at most 4,096 bytes are read until a reply stands, which is then
    /// written; out of memory has its own reply.
    ///
    /// # Errors
    /// `ServeFault::Read` where a read failed: nothing was carried out. `ServeFault::Write` where a write did: the request was carried
    /// out, or refused, and that many bytes of its reply went out.
    pub fn serve_one<S: Stream>(&mut self, stream: &mut S) -> Result<Served, ServeFault>
        ensures served { Serves M.carries self.old.stored (S.left stream.old) (S.sent stream.old)
            result self.new.stored (S.Sink.taken stream.new) }
        ensures apart { self.new.joined ≡ self.old.joined }
        ensures faults { CountsFault (S.Sink.faults stream.old) (S.Sink.faults stream.new) result }
    {
        serve_stream(self.alloc, stream, &mut self.meaning)
    }

    /// A connection joins. It takes no memory.
    ///
    /// # Errors
    /// `KnownId` where the id is joined, else `Busy` where 64 are.
    pub fn join_conn(&mut self, id: u64) -> Result<(), ServiceFault>
        ensures step { Step M.carries self.old (Join id) (result_err result) self.new }
    {
        if place_of(&self.connections, id) < self.connections.len() {
            return Err(ServiceFault::KnownId);
        }
        if self.connections.len() >= MOST {
            return Err(ServiceFault::Busy);
        }
        self.connections
            .push_reserved(Connection::new(self.alloc, id));
        Ok(())
    }

    /// A piece of bytes arrives. Where it brings the last byte of a request, the request is carried out and its reply stands; out of
    /// memory has its own reply. On a connection with a reply it changes nothing, and takes no memory.
    ///
    /// # Errors
    /// `UnknownId` where the id isn't joined.
    pub fn piece(&mut self, id: u64, bytes: &[u8]) -> Result<(), ServiceFault>
        ensures step { Step M.carries self.old (Piece id bytes.now) (result_err result) self.new }
    {
        let place = place_of(&self.connections, id);
        if place == self.connections.len() {
            return Err(ServiceFault::UnknownId);
        }
        self.connections[place].receive(self.alloc, &mut self.meaning, bytes);
        Ok(())
    }

    /// A connection ends, and is forgotten with what wasn't taken of its reply; the id may join again. It takes no memory.
    ///
    /// # Errors
    /// `UnknownId` where the id isn't joined.
    pub fn end_conn(&mut self, id: u64) -> Result<(), ServiceFault>
        ensures step { Step M.carries self.old (End id) (result_err result) self.new }
    {
        let place = place_of(&self.connections, id);
        if place == self.connections.len() {
            return Err(ServiceFault::UnknownId);
        }
        let _ = self.connections.remove(place);
        Ok(())
    }

    /// The reply of that connection, where it stands.
    pub fn reply(&self, id: u64) -> Option<&Reply>
        ensures { option_copied result ≡ reply_at id self.now.joined }
    {
        let place = place_of(&self.connections, id);
        if place == self.connections.len() {
            return None;
        }
        self.connections[place].reply()
    }

    /// The next n bytes of a connection's reply, or those that are left where they are fewer; none while there is no reply. They are lent
    /// from the reply, so that it takes no memory and copies nothing.
    ///
    /// # Errors
    /// `UnknownId` where the id isn't joined.
    pub fn take(&mut self, id: u64, n: usize) -> Result<&[u8], ServiceFault>
        ensures bytes { TakesBytes self.old id n result }
        ensures* counts { sem 𝓛 (Rests (the_row M.row) self.entry
            (λ new. TakesTo self.old id n new)) }
    {
        let place = place_of(&self.connections, id);
        if place == self.connections.len() {
            return Err(ServiceFault::UnknownId);
        }
        let (from, to) = self.connections[place].count(n);
        Ok(&self.connections[place].bytes()[from..to])
    }
}
