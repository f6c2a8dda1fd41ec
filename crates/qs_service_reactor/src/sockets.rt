//! The network of the system: its sockets, and mio's `Poll`, which waits for them.

ghost use Rattle.std.specs.Prelude.{None};

use crate::network::{Network, WaitResult};
use mio::net::TcpStream;
use mio::unix::SourceFd;
use mio::{Events, Interest, Poll, Token};
use std::alloc::Global;
use std::io;
use std::io::{ErrorKind, Read, Write};
use std::net::{Net, Shutdown, TcpListener};
use std::os::fd::AsRawFd;
use std::time::{Clock, Duration, Instant};

/// The most events that one wait gives. Others come at the next.
const EVENTS: usize = 128;

/// How many places there are.
const PLACES: usize = 64;

/// The listener's token. A connection's is its place.
const LISTENER: usize = usize::MAX;

/// A listener and its connections.
#[derive(Drop)]
pub struct Sockets<'a, C> {
    clock: &'a C,
    listener: &'a TcpListener,
    poll: Poll,
    events: Events,
    /// Who was accepted to see whether anybody waits, and has no place yet.
    ahead: Option<std::net::TcpStream>,
    sockets: Vec<Option<TcpStream>>,
}

impl<'a, C: Clock> Sockets<'a, C> {
    /// The listener, which is made non-blocking, and no connections.
    ///
    /// # Errors
    /// That of the system; out of memory.
    pub fn new(
        net: &impl Net,
        clock: &'a C,
        alloc: Global,
        listener: &'a TcpListener,
    ) -> io::Result<Sockets<'a, C>> {
        listener.set_nonblocking(true)?;
        let poll = Poll::new(net)?;
        let fd = listener.as_raw_fd();
        poll.registry()
            .register(&mut SourceFd(&fd), Token(LISTENER), Interest::READABLE)?;
        let events = Events::with_capacity(alloc, EVENTS)?;
        let mut sockets = Vec::new(alloc);
        for _ in 0..PLACES {
            sockets.push(None)?;
        }
        Ok(Sockets {
            clock,
            listener,
            poll,
            events,
            ahead: None,
            sockets,
        })
    }

    fn socket(&self, place: usize) -> Option<&TcpStream> {
        self.sockets.get(place)?.as_ref()
    }

    /// The next connection, that which was accepted ahead first.
    fn next(&mut self) -> io::Result<std::net::TcpStream> {
        if let Some(stream) = self.ahead.take() {
            return Ok(stream);
        }
        let (stream, _) = self.listener.accept()?;
        Ok(stream)
    }

    /// The stream takes that place.
    fn place(&mut self, place: usize, stream: std::net::TcpStream) -> io::Result<()> {
        stream.set_nonblocking(true)?;
        let mut stream = TcpStream::from_std(stream);
        let both = Interest::READABLE | Interest::WRITABLE;
        self.poll
            .registry()
            .register(&mut stream, Token(place), both)?;
        if place < self.sockets.len() {
            self.sockets[place] = Some(stream);
        }
        Ok(())
    }
}

impl<C: Clock> Network for Sockets<'_, C> {
    ghost log = { λ _. None };

    fn is_waiting(&mut self) -> io::Result<bool> {
        if self.ahead.is_some() {
            return Ok(true);
        }
        match self.listener.accept() {
            Ok((stream, _)) => {
                self.ahead = Some(stream);
                Ok(true)
            }
            Err(error) if error.kind() == ErrorKind::WouldBlock => Ok(false),
            Err(error) => Err(error),
        }
    }

    fn accept(&mut self, place: usize) -> io::Result<()> {
        let stream = self.next()?;
        // (one that can't be set up is dropped: at its place no byte is read then)
        let _ = self.place(place, stream);
        Ok(())
    }

    fn get(&mut self, place: usize, buf: &mut [u8]) -> io::Result<usize> {
        match self.socket(place) {
            Some(mut socket) => socket.read(buf),
            None => Ok(0),
        }
    }

    fn put(&mut self, place: usize, bytes: &[u8]) -> io::Result<usize> {
        match self.socket(place) {
            Some(mut socket) => socket.write(bytes),
            None => Ok(0),
        }
    }

    fn finish(&mut self, place: usize) -> io::Result<()> {
        match self.socket(place) {
            Some(socket) => socket.shutdown(Shutdown::Write),
            None => Ok(()),
        }
    }

    fn close(&mut self, place: usize) {
        if place < self.sockets.len() {
            self.sockets[place] = None;
        }
    }

    fn wait(&mut self, timeout: Option<Duration>, ready: &mut [bool]) -> io::Result<WaitResult> {
        let before = Instant::now(self.clock)?;
        let polled = self.poll.poll(&mut self.events, timeout);
        let elapsed = before.elapsed(self.clock)?;
        match polled {
            Ok(()) => {}
            // (a signal ended the wait, and nothing is told)
            Err(error) if error.kind() == ErrorKind::Interrupted => {
                let arrival = false;
                return Ok(WaitResult { arrival, elapsed });
            }
            Err(error) => return Err(error),
        }
        let mut arrival = false;
        for event in &self.events {
            let place = event.token().0;
            if place < ready.len() {
                ready[place] = true;
            } else {
                arrival = true;
            }
        }
        Ok(WaitResult { arrival, elapsed })
    }
}
