//! Clients in memory, and the time that passes for them.

ghost use Rattle.std.specs.Prelude.{◌≤◌, length, IfOk};

use qs_service_reactor::WaitResult;
use std::alloc::{AllocError, Global};
use std::io;
use std::io::ErrorKind;
use std::time::Duration;

/// Bytes that a client sends at that time. None are the end of what it sends.
#[derive(Drop)]
pub struct Piece {
    at: Duration,
    bytes: Vec<u8>,
}

/// A client.
#[derive(Drop)]
pub struct Peer {
    /// When it connects.
    arrives: Duration,
    sends: Vec<Piece>,
    /// How many pieces were read.
    read: usize,
    /// How many bytes it takes at a time, if any. After each time it must be waited for.
    room: usize,
    /// Whether it takes bytes now.
    takes: bool,
    /// Whether a read, or a write, waits for it.
    awaits_piece: bool,
    awaits_room: bool,
    /// What it was sent.
    pub received: Vec<u8>,
    /// When it was accepted.
    pub accepted: Option<Duration>,
    /// When it was told that no more bytes come.
    pub finished: Option<Duration>,
    /// When it was dropped.
    pub closed: Option<Duration>,
}

impl Peer {
    /// A client that connects after so many milliseconds, and takes so many bytes at a time.
    pub fn new(alloc: Global, arrives: u64, room: usize) -> Peer {
        Peer {
            arrives: Duration::from_millis(arrives),
            sends: Vec::new(alloc),
            read: 0,
            room,
            takes: true,
            awaits_piece: false,
            awaits_room: false,
            received: Vec::new(alloc),
            accepted: None,
            finished: None,
            closed: None,
        }
    }

    /// It sends these bytes after so many milliseconds.
    pub fn send(&mut self, alloc: Global, at: u64, bytes: &[u8]) -> Result<(), AllocError> {
        let piece = Piece {
            at: Duration::from_millis(at),
            bytes: Vec::from_slice(alloc, bytes)?,
        };
        self.sends.push(piece)?;
        Ok(())
    }

    /// Whether it is connected.
    fn is_open(&self) -> bool {
        self.accepted.is_some() && self.closed.is_none()
    }

    /// When its next piece comes.
    fn next_at(&self) -> Option<Duration> {
        let piece = self.sends.get(self.read)?;
        Some(piece.at)
    }

    /// Reads its next piece, of which no more than the buffer takes is kept.
    fn get(&mut self, now: Duration, buf: &mut [u8]) -> io::Result<usize>
        ensures { IfOk result (λ n. n ≤ length buf.new) }
    {
        match self.sends.get(self.read) {
            Some(piece) if piece.at <= now => {
                let n = piece.bytes.len().min(buf.len());
                buf[..n].copy_from_slice(&piece.bytes[..n]);
                self.read = self.read.saturating_add(1);
                Ok(n)
            }
            _ => {
                self.awaits_piece = true;
                Err(io::Error::from(ErrorKind::WouldBlock))
            }
        }
    }

    /// It takes a front of the bytes.
    fn put(&mut self, bytes: &[u8]) -> io::Result<usize>
        ensures { IfOk result (λ n. n ≤ length bytes.now) }
    {
        if !self.takes || self.room == 0 {
            self.awaits_room = true;
            return Err(io::Error::from(ErrorKind::WouldBlock));
        }
        let n = self.room.min(bytes.len());
        self.received.extend_from_slice(&bytes[..n])?;
        self.takes = false;
        Ok(n)
    }

    /// Whether its connection can go on, which it is told once.
    fn wakes(&mut self, now: Duration) -> bool {
        let mut wakes = false;
        if self.awaits_room && self.room > 0 {
            self.awaits_room = false;
            self.takes = true;
            wakes = true;
        }
        let comes = self.next_at().is_some_and(|at| at <= now);
        if self.awaits_piece && comes {
            self.awaits_piece = false;
            wakes = true;
        }
        wakes
    }
}

/// Clients, in the order in which they connect, and the time.
#[derive(Drop)]
pub struct Peers {
    pub peers: Vec<Peer>,
    /// Which client has which place.
    places: Vec<Option<usize>>,
    /// How many were accepted, and how many were announced.
    accepted: usize,
    announced: usize,
    pub now: Duration,
}

impl Peers {
    /// No clients.
    pub fn new(alloc: Global) -> Result<Peers, AllocError> {
        let mut places = Vec::new(alloc);
        for _ in 0..64 {
            places.push(None)?;
        }
        Ok(Peers {
            peers: Vec::new(alloc),
            places,
            accepted: 0,
            announced: 0,
            now: Duration::ZERO,
        })
    }

    /// Whether somebody waits to be accepted.
    pub fn is_waiting(&self) -> bool {
        match self.peers.get(self.accepted) {
            Some(peer) => peer.arrives <= self.now,
            None => false,
        }
    }

    /// The next client takes that place.
    pub fn accept(&mut self, place: usize) -> io::Result<()> {
        let which = self.accepted;
        if !self.is_waiting() || which >= self.peers.len() || place >= self.places.len() {
            return Err(io::Error::from(ErrorKind::WouldBlock));
        }
        let now = self.now;
        self.peers[which].accepted = Some(now);
        self.places[place] = Some(which);
        self.accepted = which.saturating_add(1);
        Ok(())
    }

    /// The client at that place, if there is one: its number.
    fn at(&self, place: usize) -> Option<usize> {
        *self.places.get(place)?
    }

    /// Reads from the client at that place.
    pub fn get(&mut self, place: usize, buf: &mut [u8]) -> io::Result<usize>
        ensures { IfOk result (λ n. n ≤ length buf.new) }
    {
        match self.at(place) {
            Some(which) if which < self.peers.len() => self.peers[which].get(self.now, buf),
            _ => Err(io::Error::from(ErrorKind::NotConnected)),
        }
    }

    /// Writes to the client at that place.
    pub fn put(&mut self, place: usize, bytes: &[u8]) -> io::Result<usize>
        ensures { IfOk result (λ n. n ≤ length bytes.now) }
    {
        match self.at(place) {
            Some(which) if which < self.peers.len() => self.peers[which].put(bytes),
            _ => Err(io::Error::from(ErrorKind::NotConnected)),
        }
    }

    /// Tells the client at that place that no more bytes come.
    pub fn finish(&mut self, place: usize) {
        if let Some(which) = self.at(place) {
            if which < self.peers.len() {
                let now = self.now;
                self.peers[which].finished = Some(now);
            }
        }
    }

    /// Drops the connection at that place.
    pub fn close(&mut self, place: usize) {
        if let Some(which) = self.at(place) {
            if which < self.peers.len() {
                let now = self.now;
                self.peers[which].closed = Some(now);
            }
        }
        if place < self.places.len() {
            self.places[place] = None;
        }
    }

    /// When something happens next, after now.
    fn next_at(&self) -> Option<Duration> {
        let mut next: Option<Duration> = None;
        for peer in &self.peers {
            let at = if peer.accepted.is_none() {
                Some(peer.arrives)
            } else if peer.is_open() && peer.awaits_piece {
                peer.next_at()
            } else {
                None
            };
            if let Some(at) = at {
                if at > self.now && next.is_none_or(|known| at < known) {
                    next = Some(at);
                }
            }
        }
        next
    }

    /// Marks the places whose clients can go on: whether there are any.
    fn wake(&mut self, ready: &mut [bool]) -> bool {
        let mut any = false;
        for place in 0..ready.len() {
            if let Some(which) = self.at(place) {
                if which < self.peers.len() && self.peers[which].wakes(self.now) {
                    ready[place] = true;
                    any = true;
                }
            }
        }
        any
    }

    /// Announces the clients that arrived since the last time: whether there are any.
    fn announce(&mut self) -> bool {
        let now = self.now;
        let arrived = self.peers.iter().filter(|p| p.arrives <= now).count();
        let is_new = arrived > self.announced;
        self.announced = arrived;
        is_new
    }

    /// Waits.
    pub fn wait(
        &mut self,
        timeout: Option<Duration>,
        ready: &mut [bool],
    ) -> io::Result<WaitResult> {
        let before = self.now;
        let arrival = self.announce();
        let any = self.wake(ready);
        if arrival || any {
            let elapsed = Duration::ZERO;
            return Ok(WaitResult { arrival, elapsed });
        }
        self.now = match (timeout, self.next_at()) {
            (Some(time), Some(at)) => before.saturating_add(time).min(at),
            (Some(time), None) => before.saturating_add(time),
            (None, Some(at)) => at,
            (None, None) => return Err(io::Error::other("nothing happens any more")),
        };
        let arrival = self.announce();
        self.wake(ready);
        let elapsed = self.now.saturating_sub(before);
        Ok(WaitResult { arrival, elapsed })
    }
}
