//! Whether somebody may be waiting to be accepted.
//!
//! The listener tells of each arrival once, so the loop must not wait for ever after an accept that lacked descriptors or memory.
//! Two clauses say so: `timeout` gives a time, and `arrivals_after` doesn't pass such a fault on.

ghost use Rattle.std.specs.Prelude.{◌≡◌, ◌↔◌, Ok, IsTrue};
ghost use Rattle.qs_service_reactor.specs.inner.Shortage.{IsShortage};

use std::io;
use std::io::ErrorKind;

/// Whether somebody may be waiting to be accepted.
#[derive(Clone, Copy, Debug, PartialEq, Eq)]
pub enum Arrivals {
    /// Nobody waits.
    None,
    /// Somebody may be waiting.
    Pending,
    /// Somebody may be waiting, but the system has no descriptor or no memory left for them now.
    Short,
}

/// The arrivals after an accept failed.
///
/// # Errors
/// The fault itself, if it won't pass. A lack of descriptors or memory may pass.
pub fn arrivals_after(fault: io::Error) -> io::Result<Arrivals>
    ensures { IsShortage fault → result ≡ Ok Arrivals.Short }
{
    if is_shortage(&fault) {
        return Ok(Arrivals::Short);
    }
    match fault.kind() {
        ErrorKind::WouldBlock => Ok(Arrivals::None),
        ErrorKind::Interrupted | ErrorKind::ConnectionAborted => Ok(Arrivals::Pending),
        _ => Err(fault),
    }
}

/// Whether the system had no descriptor or no memory left: ENOMEM, ENFILE, EMFILE or ENOBUFS.
fn is_shortage(fault: &io::Error) -> bool
    ensures { IsTrue result ↔ IsShortage fault.now }
{
    match fault.raw_os_error() {
        Some(code) => matches!(code, 12 | 23 | 24 | 105),
        None => fault.kind() == ErrorKind::OutOfMemory,
    }
}
