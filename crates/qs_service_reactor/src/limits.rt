//! How many connections there are at once, and how long a peer may take.
//!
//! While a peer sends without a pause the loop hardly waits. So no limit of time would end such a connection, and the count of
//! bytes that are dropped has a limit too.

ghost use Rattle.std.specs.Prelude.{◌<◌, ◌≤◌};

use std::time::Duration;

/// How many connections there are at once, and how long a peer may take. Only time in which the loop waits counts.
#[derive(Clone, Copy, Debug)]
pub struct Limits {
    /// How many connections there are at once at most, from 1 to 64.
    pub at_once: usize,
    /// How long no byte may be sent or taken.
    pub idle: Duration,
    /// How long a request may take, from the accept to its last byte.
    pub request: Duration,
    /// How long the peer may be silent once the whole reply went out.
    pub linger: Duration,
    ghost some: { 0 < at_once },
    ghost few: { at_once ≤ 64 },
}
