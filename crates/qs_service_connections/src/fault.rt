//! Why an event is refused.

use thiserror::Error;

/// Why an event is refused. It changes nothing.
#[derive(Clone, Copy, Debug, PartialEq, Eq, Error)]
pub enum ServiceFault {
    /// 64 connections are joined.
    #[error("64 connections are joined")]
    Busy,
    /// A connection of this id is joined.
    #[error("a connection of this id is joined")]
    KnownId,
    /// No connection of this id is joined.
    #[error("no connection of this id is joined")]
    UnknownId,
}
