//! The network of a reactor.

ghost use Rattle.std.specs.Prelude.{[], List, Option};
ghost use Rattle.std.specs.Io.{ReadsAtMost, WritesAtMost};
ghost use Rattle.qs_service_reactor.specs.Log.{Io, Logs};
ghost use Rattle.qs_service_reactor.specs.inner.Log.{LogsGot, LogsPut, LogsFin};

use std::io;
use std::time::Duration;

/// What a wait reports.
#[derive(Clone, Copy, Debug, PartialEq, Eq)]
pub struct WaitResult {
    /// Whether somebody may be waiting to be accepted.
    pub arrival: bool,
    /// How long the wait took.
    pub elapsed: Duration,
}

/// Connections, each at a place, whose calls don't wait.
pub trait Network {
    // What came and went, where it is known.
    ghost log: { Self → Option (List Io) };

    /// Whether somebody waits to be accepted.
    fn is_waiting(&mut self) -> io::Result<bool>
        ensures { Logs (log self.old) (log self.new) [] };

    /// Accepts the next connection that waits, at that place. One that can't be set up is at the end of its input.
    ///
    /// # Errors
    /// `WouldBlock` where nobody waits; that of the system.
    fn accept(&mut self, place: usize) -> io::Result<()>
        ensures { Logs (log self.old) (log self.new) [] };

    /// Reads from the peer into the front of the buffer: no bytes are the end of its input.
    ///
    /// # Errors
    /// `WouldBlock` where nothing has come; that of the system.
    fn get(&mut self, place: usize, buf: &mut [u8]) -> io::Result<usize>
        ensures bound { ReadsAtMost result buf.new }
        ensures log { LogsGot (log self.old) (log self.new) place result buf.new };

    /// Writes a front of the bytes to the peer.
    ///
    /// # Errors
    /// `WouldBlock` where the peer takes none now; that of the system.
    fn put(&mut self, place: usize, bytes: &[u8]) -> io::Result<usize>
        ensures bound { WritesAtMost result bytes.now }
        ensures log { LogsPut (log self.old) (log self.new) place result bytes.now };

    /// Tells the peer that no more bytes come.
    ///
    /// # Errors
    /// That of the system.
    fn finish(&mut self, place: usize) -> io::Result<()>
        ensures { LogsFin (log self.old) (log self.new) place result };

    /// Drops the connection at that place.
    fn close(&mut self, place: usize)
        ensures { Logs (log self.old) (log self.new) [] };

    /// Waits until something can go on, or the time is up: without a time, for ever. It marks the places whose connections may go on.
    ///
    /// # Errors
    /// That of the system, or of its clock.
    fn wait(&mut self, timeout: Option<Duration>, ready: &mut [bool]) -> io::Result<WaitResult>
        ensures { Logs (log self.old) (log self.new) [] };
}
