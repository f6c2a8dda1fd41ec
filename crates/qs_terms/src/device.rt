//! Devices that take and give bytes, and count their faults.

ghost use Rattle.std.specs.Prelude.{◌≡◌, ◌≤◌, ◌<◌, ℕ, List, Option, None, take, length};
ghost use Rattle.std.specs.Io.{ReadsAtMost, WritesAtMost};
ghost use Rattle.std.specs.Io.KnownBytes.{Appends, Keeps, ReadConsumes, WriteAppends};
ghost use Rattle.qs_terms.specs.Device.{one_more};
ghost use Rattle.qs_terms.specs.inner.Device.{CountsRead, CountsWrite};

use std::io;
use std::io::{Read, Write};

/// A device that takes bytes.
pub trait Sink {
    // The bytes that it has taken, where they are known.
    ghost taken: { Self → Option (List ℕ) };

    // How many calls failed, or took no byte of a buffer that was not empty.
    ghost faults: { Self → ℕ };

    /// Takes a front of the bytes, and answers how many: as std's `Write::write`. An interrupted call is a fault.
    fn put(&mut self, bytes: &[u8]) -> io::Result<usize>
        ensures bound { WritesAtMost result bytes.now }
        ensures bytes { WriteAppends (taken self.old) (taken self.new) result bytes.now }
        ensures faults { CountsWrite (faults self.old) (faults self.new) result bytes.now };
}

/// A device that takes and gives bytes.
pub trait Stream: Sink {
    // The bytes that it still has to give, where they are known.
    ghost left: { Self → Option (List ℕ) };

    // The bytes that it has taken, where they are known and reading leaves them: a queue that gives what it took has none.
    ghost sent: { Self → Option (List ℕ) } = { λ _. None };

    /// Puts the next bytes at the front of the buffer, and answers how many: as std's `Read::read`. No bytes in a
    /// buffer that isn't empty are the end of the input. An interrupted call is a fault.
    fn get(&mut self, buf: &mut [u8]) -> io::Result<usize>
        ensures bound { ReadsAtMost result buf.new }
        ensures bytes { ReadConsumes (left self.old) (left self.new) result buf.new }
        ensures sent { Keeps (sent self.old) (sent self.new) }
        ensures taken { Keeps (sent self.old) (Self.taken self.new) }
        ensures faults { CountsRead (Self.faults self.old) (Self.faults self.new) result };
}

/// A std writer, or a reader and writer, with the count of its failed calls. The count stays at `u64::MAX`.
#[derive(Debug, Drop)]
pub struct Counted<T> {
    device: T,
    faults: u64,
}

impl<T: Write> Counted<T> {
    /// The device, of which no call has failed yet.
    pub fn new(device: T) -> Counted<T>
        ensures taken { ⟦<Counted<T> as Sink>⟧.taken result ≡ T.contents device }
        ensures faults { ⟦<Counted<T> as Sink>⟧.faults result ≡ 0 }
    {
        Counted { device, faults: 0 }
    }

    /// How many calls failed, or took no byte of a buffer that wasn't empty.
    pub fn faults(&self) -> u64
        ensures { result ≡ ⟦<Counted<T> as Sink>⟧.faults self.now }
    {
        self.faults
    }

    /// The device itself.
    pub fn into_inner(self) -> T
        ensures { T.contents result ≡ ⟦<Counted<T> as Sink>⟧.taken self }
    {
        let Counted { device, faults: _ } = self;
        device
    }
}

impl<T: Write> Sink for Counted<T> {
    ghost taken = { λ s. T.contents s.device };

    ghost faults = { λ s. s.faults };

    fn put(&mut self, bytes: &[u8]) -> io::Result<usize> {
        let result = self.device.write(bytes);
        match result {
            Ok(0) if !bytes.is_empty() => self.faults = self.faults.saturating_add(1),
            Ok(_) => {}
            Err(_) => self.faults = self.faults.saturating_add(1),
        }
        result
    }
}

impl<T: Read + Write> Stream for Counted<T> {
    ghost left = { λ s. T.remaining s.device };

    fn get(&mut self, buf: &mut [u8]) -> io::Result<usize> {
        let result = self.device.read(buf);
        if result.is_err() {
            self.faults = self.faults.saturating_add(1);
        }
        result
    }
}

/// Puts the bytes, in as many calls as it takes, and answers how many went out. It stops at the first fault.
pub fn put_all<S: Sink>(sink: &mut S, bytes: &[u8]) -> usize
    ensures bound { result ≤ length bytes.now }
    ensures taken { Appends (S.taken sink.old) (S.taken sink.new) (take result bytes.now) }
    ensures whole { result ≡ length bytes.now → S.faults sink.new ≡ S.faults sink.old }
    ensures short { result < length bytes.now → S.faults sink.new ≡ one_more (S.faults sink.old) }
{
    let mut sent = 0;
    while sent < bytes.len() {
        match sink.put(&bytes[sent..]) {
            Ok(0) => return sent,
            Ok(n) => sent += n,
            Err(_) => return sent,
        }
    }
    sent
}
