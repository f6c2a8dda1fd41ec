//! The places of the connections.
//!
//! Only time in which the loop waits counts against a connection. While a query is evaluated nobody's time runs, and a connection
//! on which bytes have arrived is read before it is judged.

ghost use Rattle.std.specs.Prelude.{◌≡◌, ◌≤◌, ◌<◌, ◌-◌, ◌+◌, ◌^◌, vec_len, IfOk, IsSome, IsTrue};
ghost use Rattle.std.specs.List.{list_all};
ghost use Rattle.qs_service_reactor.specs.inner.Shortage.{is_short};
ghost use Rattle.qs_service_reactor.specs.inner.Turn.{AllFree, Moves, is_free};

use crate::arrivals::{Arrivals, arrivals_after};
use crate::connection::{Cause, Connection};
use crate::endpoint::Endpoint;
use crate::limits::Limits;
use crate::network::{Network, WaitResult};
use std::alloc::{AllocError, Global};
use std::io;
use std::time::Duration;

/// How many bytes one read takes at most.
const PIECE: usize = 65_536;

/// After how many milliseconds the limits are looked at again.
const TICK: u64 = 1_000;

/// After how many they are where somebody waits for a place.
const FULL_TICK: u64 = 25;

/// The places of the connections.
#[derive(Drop)]
pub struct Table {
    pub connections: Vec<Connection>,
    /// Which connections may go on.
    pub ready: Vec<bool>,
    buf: Vec<u8>,
    /// How many connections were accepted.
    pub accepted: u64,
    arrivals: Arrivals,
    limits: Limits,
    /// How long the loop has waited so far. The time in which it works counts for nobody.
    clock: Duration,
    ghost sized: { vec_len ready ≡ vec_len connections },
}

/// So many places with no connection.
fn free_places(alloc: Global, n: usize) -> Result<Vec<Connection>, AllocError>
    ensures free { IfOk result (λ places. AllFree places.items) }
    ensures len { IfOk result (λ places. vec_len places ≡ n) }
{
    Vec::from_elem(alloc, Connection::free(), n)
}

impl Table {
    /// No connections.
    pub fn new(alloc: Global, limits: &Limits) -> Result<Table, AllocError>
        ensures accepted { IfOk result (λ table. table.accepted ≡ 0) }
        ensures free { IfOk result (λ table. AllFree table.connections.items) }
    {
        let connections = free_places(alloc, limits.at_once)?;
        Ok(Table {
            connections,
            ready: Vec::from_elem(alloc, false, limits.at_once)?,
            buf: Vec::from_elem(alloc, 0u8, PIECE)?,
            accepted: 0,
            arrivals: Arrivals::Pending,
            limits: *limits,
            clock: Duration::ZERO,
        })
    }

    /// Whether all places are taken.
    fn is_full(&self) -> bool {
        !self.connections.iter().any(|c| c.is_free())
    }

    /// Whether somebody may be waiting who is to be accepted.
    fn is_wanted(&self, most: u64) -> bool
        ensures { IsTrue result → self.now.accepted < most }
    {
        self.arrivals == Arrivals::Pending && self.accepted < most
    }

    /// Whether there are no connections.
    fn is_empty(&self) -> bool
        ensures { result ≡ list_all is_free self.now.connections.items }
    {
        self.connections.iter().all(|c| c.is_free())
    }

    /// Whether that many were accepted, and all have ended.
    pub fn is_done(&self, most: u64) -> bool
        ensures free { IsTrue result → AllFree self.now.connections.items }
        ensures accepted { IsTrue result → most ≤ self.now.accepted }
    {
        self.is_empty() && self.accepted >= most
    }

    /// Whether somebody may be waiting for whom the system had no descriptor or no memory left.
    fn is_short(&self) -> bool
        ensures { result ≡ is_short self.now.arrivals }
    {
        match self.arrivals {
            Arrivals::Short => true,
            Arrivals::None | Arrivals::Pending => false,
        }
    }

    /// How long to wait: not at all where something can go on at once, and for ever where no connection is open and nobody is to be accepted
    /// again.
    pub fn timeout(&self, most: u64) -> Option<Duration>
        ensures { IsTrue (is_short self.now.arrivals) → IsSome result }
    {
        let is_wanted = self.is_wanted(most);
        if self.ready.contains(&true) || (is_wanted && !self.is_full()) {
            Some(Duration::ZERO)
        } else if is_wanted {
            Some(Duration::from_millis(FULL_TICK))
        } else if self.is_empty() && !self.is_short() {
            None
        } else {
            Some(Duration::from_millis(TICK))
        }
    }

    /// Takes note of what a wait reported.
    pub fn note(&mut self, waited: WaitResult)
        ensures connections { self.new.connections.items ≡ self.old.connections.items }
        ensures accepted { self.new.accepted ≡ self.old.accepted }
    {
        self.clock = self.clock.saturating_add(waited.elapsed);
        if waited.arrival || self.arrivals == Arrivals::Short {
            self.arrivals = Arrivals::Pending;
        }
    }

    /// Each connection that is ready has one turn.
    pub fn take_turns<N: Network, E: Endpoint>(&mut self, net: &mut N, endpoint: &mut E)
        ensures moves { Moves E.steps E.reply_of 0
            self.old.connections.items self.new.connections.items
            endpoint.old endpoint.new (N.log net.old) (N.log net.new) }
        ensures accepted { self.new.accepted ≡ self.old.accepted }
    {
        let places = self.connections.len();
        for place in 0..places {
            self.turn_at(place, net, endpoint);
        }
    }

    /// The turn of the connection at that place, if it is ready.
    fn turn_at<N: Network, E: Endpoint>(&mut self, place: usize, net: &mut N, endpoint: &mut E)
        requires { place < vec_len self.old.connections }
        ensures moves { Moves E.steps E.reply_of 0
            self.old.connections.items self.new.connections.items
            endpoint.old endpoint.new (N.log net.old) (N.log net.new) }
        ensures len { vec_len self.new.connections ≡ vec_len self.old.connections }
        ensures accepted { self.new.accepted ≡ self.old.accepted }
    {
        if !self.ready[place] {
            return;
        }
        let mut connection = self.connections[place];
        let goes_on = connection.take_turn(place, net, endpoint, &mut self.buf, self.clock);
        self.connections[place] = connection;
        self.ready[place] = goes_on;
    }

    /// Drops the connections that wait for their peer and are due for that cause, and counts them.
    pub fn drop_due<N: Network, E: Endpoint>(
        &mut self,
        cause: Cause,
        net: &mut N,
        endpoint: &mut E,
    ) -> u64
        ensures moves { Moves E.steps E.reply_of 0
            self.old.connections.items self.new.connections.items
            endpoint.old endpoint.new (N.log net.old) (N.log net.new) }
        ensures accepted { self.new.accepted ≡ self.old.accepted }
    {
        let places = self.connections.len();
        let mut dropped = 0u64;
        for place in 0..places {
            dropped = dropped.saturating_add(self.drop_at(place, cause, net, endpoint));
        }
        dropped
    }

    /// Drops the connection at that place if it is due: 1, else 0.
    fn drop_at<N: Network, E: Endpoint>(
        &mut self,
        place: usize,
        cause: Cause,
        net: &mut N,
        endpoint: &mut E,
    ) -> u64
        requires { place < vec_len self.old.connections }
        ensures moves { Moves E.steps E.reply_of 0
            self.old.connections.items self.new.connections.items
            endpoint.old endpoint.new (N.log net.old) (N.log net.new) }
        ensures len { vec_len self.new.connections ≡ vec_len self.old.connections }
        ensures accepted { self.new.accepted ≡ self.old.accepted }
    {
        if self.ready[place] {
            return 0;
        }
        let mut connection = self.connections[place];
        if !connection.is_due(cause, &self.limits, self.clock) {
            return 0;
        }
        connection.leave(place, net, endpoint);
        self.connections[place] = connection;
        1
    }

    /// Where all places are taken and somebody waits: drops the silent connections, or if there are none the stalled ones, and counts them.
    ///
    /// # Errors
    /// That of an accept, if it won't pass.
    pub fn make_room<N: Network, E: Endpoint>(
        &mut self,
        most: u64,
        net: &mut N,
        endpoint: &mut E,
    ) -> io::Result<u64>
        ensures moves { Moves E.steps E.reply_of 0
            self.old.connections.items self.new.connections.items
            endpoint.old endpoint.new (N.log net.old) (N.log net.new) }
        ensures accepted { self.new.accepted ≡ self.old.accepted }
    {
        if !self.is_wanted(most) || !self.is_full() {
            return Ok(0);
        }
        match net.is_waiting() {
            Ok(true) => Ok(self.drop_silent(net, endpoint)),
            Ok(false) => {
                self.arrivals = Arrivals::None;
                Ok(0)
            }
            Err(fault) => {
                self.arrivals = arrivals_after(fault)?;
                Ok(0)
            }
        }
    }

    /// Drops the silent connections, or if there are none the stalled ones, and counts them.
    fn drop_silent<N: Network, E: Endpoint>(&mut self, net: &mut N, endpoint: &mut E) -> u64
        ensures moves { Moves E.steps E.reply_of 0
            self.old.connections.items self.new.connections.items
            endpoint.old endpoint.new (N.log net.old) (N.log net.new) }
        ensures accepted { self.new.accepted ≡ self.old.accepted }
    {
        let silent = self.drop_due(Cause::Silent, net, endpoint);
        if silent > 0 {
            return silent;
        }
        self.drop_due(Cause::Stalled, net, endpoint)
    }

    /// Accepts who waits, as far as places are free.
    ///
    /// # Errors
    /// That of an accept, if it won't pass.
    pub fn accept_all<N: Network, E: Endpoint>(
        &mut self,
        most: u64,
        net: &mut N,
        endpoint: &mut E,
    ) -> io::Result<()>
        requires { self.old.accepted ≤ most }
        ensures moves { Moves E.steps E.reply_of (self.new.accepted - self.old.accepted)
            self.old.connections.items self.new.connections.items
            endpoint.old endpoint.new (N.log net.old) (N.log net.new) }
        ensures more { self.old.accepted ≤ self.new.accepted }
        ensures most { self.new.accepted ≤ most }
    {
        let places = self.connections.len();
        for place in 0..places {
            if !self.is_wanted(most) {
                break;
            }
            self.accept_at(place, net, endpoint)?;
        }
        Ok(())
    }

    /// Accepts who waits next, if the place is free.
    ///
    /// # Errors
    /// That of the accept, if it won't pass.
    fn accept_at<N: Network, E: Endpoint>(
        &mut self,
        place: usize,
        net: &mut N,
        endpoint: &mut E,
    ) -> io::Result<()>
        requires place { place < vec_len self.old.connections }
        requires accepted { self.old.accepted + 1 < 2 ^ 64 }
        ensures moves { Moves E.steps E.reply_of (self.new.accepted - self.old.accepted)
            self.old.connections.items self.new.connections.items
            endpoint.old endpoint.new (N.log net.old) (N.log net.new) }
        ensures len { vec_len self.new.connections ≡ vec_len self.old.connections }
        ensures more { self.old.accepted ≤ self.new.accepted }
        ensures one { self.new.accepted ≤ self.old.accepted + 1 }
    {
        if !self.connections[place].is_free() {
            return Ok(());
        }
        match net.accept(place) {
            Ok(()) => {
                self.take_in(place, net, endpoint);
                Ok(())
            }
            Err(fault) => {
                self.arrivals = arrivals_after(fault)?;
                Ok(())
            }
        }
    }

    /// A new connection takes a place, unless the endpoint refuses it.
    fn take_in<N: Network, E: Endpoint>(&mut self, place: usize, net: &mut N, endpoint: &mut E)
        requires place { place < vec_len self.old.connections }
        requires accepted { self.old.accepted + 1 < 2 ^ 64 }
        ensures moves { Moves E.steps E.reply_of 1
            self.old.connections.items self.new.connections.items
            endpoint.old endpoint.new (N.log net.old) (N.log net.new) }
        ensures len { vec_len self.new.connections ≡ vec_len self.old.connections }
        ensures accepted { self.new.accepted ≡ self.old.accepted + 1 }
    {
        self.accepted += 1;
        if endpoint.join(place as u64) {
            self.connections[place] = Connection::new(self.clock);
            self.ready[place] = true;
        } else {
            net.close(place);
        }
    }
}
