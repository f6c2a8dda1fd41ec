//! How a connection over a stream was served.

use thiserror::Error;

/// How a connection was served.
#[derive(Clone, Copy, Debug, PartialEq, Eq)]
pub enum Served {
    /// The whole reply, of that status, went out.
    Answered(u16),
    /// The input ended before there was a reply.
    Silent,
}

/// Why a connection wasn't served.
#[derive(Clone, Copy, Debug, PartialEq, Eq, Error)]
pub enum ServeFault {
    /// A read failed, and nothing was carried out.
    #[error("a read failed")]
    Read,
    /// A write failed after that many bytes of the reply.
    #[error("a write failed after {written} bytes of the reply")]
    Write { written: usize },
}
