//! A network in memory, whose log is known.

ghost use Rattle.std.specs.Prelude.{◌≡◌, Some, map};

use crate::entry::{Entry, add};
use crate::peers::Peers;
use qs_service_reactor::{Network, WaitResult};
use std::alloc::{AllocError, Global};
use std::io;
use std::io::ErrorKind;
use std::time::Duration;

/// The number of the call that fails, from 1 on, and how.
#[derive(Clone, Copy)]
pub struct Fault {
    pub call: u64,
    pub kind: ErrorKind,
}

/// Clients, what came and went, and the call that fails.
#[derive(Drop)]
pub struct Script {
    alloc: Global,
    pub peers: Peers,
    pub log: Vec<Entry>,
    /// How many calls were made.
    pub calls: u64,
    fault: Fault,
}

impl Script {
    /// These clients, and that fault.
    pub fn new(alloc: Global, peers: Peers, fault: Fault) -> Script {
        Script {
            alloc,
            peers,
            log: Vec::new(alloc),
            calls: 0,
            fault,
        }
    }

    /// A call is made.
    fn call(&mut self) -> io::Result<()>
        ensures { self.new.log ≡ self.old.log }
    {
        self.calls = self.calls.saturating_add(1);
        if self.calls == self.fault.call {
            Err(io::Error::from(self.fault.kind))
        } else {
            Ok(())
        }
    }
}

impl Network for Script {
    ghost use Rattle.tests_reactor.specs.Log.{io_of};

    ghost log = { λ s. Some (map io_of s.log.items) };

    fn is_waiting(&mut self) -> io::Result<bool> {
        self.call()?;
        Ok(self.peers.is_waiting())
    }

    fn accept(&mut self, place: usize) -> io::Result<()> {
        self.call()?;
        self.peers.accept(place)
    }

    fn get(&mut self, place: usize, buf: &mut [u8]) -> io::Result<usize> {
        self.call()?;
        let n = self.peers.get(place, buf)?;
        let bytes = Vec::from_slice(self.alloc, &buf[..n])?;
        add(&mut self.log, Entry::Got(place, bytes))?;
        Ok(n)
    }

    fn put(&mut self, place: usize, bytes: &[u8]) -> io::Result<usize> {
        self.call()?;
        let n = self.peers.put(place, bytes)?;
        let bytes = Vec::from_slice(self.alloc, &bytes[..n])?;
        add(&mut self.log, Entry::Put(place, bytes))?;
        Ok(n)
    }

    fn finish(&mut self, place: usize) -> io::Result<()> {
        self.call()?;
        self.peers.finish(place);
        add(&mut self.log, Entry::Fin(place))?;
        Ok(())
    }

    fn close(&mut self, place: usize) {
        self.peers.close(place);
    }

    fn wait(&mut self, timeout: Option<Duration>, ready: &mut [bool]) -> io::Result<WaitResult> {
        self.call()?;
        self.peers.wait(timeout, ready)
    }
}
