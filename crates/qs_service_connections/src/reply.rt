//! Replies.
//!
//! A reply has its status beside its bytes, so that nobody reads it back out of them.

ghost use Rattle.std.specs.Prelude.{◌≡◌};

use qs_http::{Fixed, ReplyBuffer, fixed};
use std::marker::Model;

/// The bytes of a reply: those of a fixed one take no memory.
#[derive(Drop)]
pub enum Bytes {
    Made { status: u16, reply: ReplyBuffer },
    Fixed(Fixed),
}

/// A reply of the endpoint: its status and its bytes.
#[derive(Drop)]
pub struct Reply {
    bytes: Bytes,
}

impl Model for Reply {
    ghost use Rattle.qs_service_connections.specs.Message.{Message};
    ghost use Rattle.qs_service_connections.specs.inner.Bytes.{message_in};

    ghost Value = { Message };

    ghost view = { λ r. message_in r.bytes };
}

impl Reply {
    ghost use Rattle.qs_service_connections.specs.Message.{fixed_message};

    /// A reply of that status and these bytes.
    pub fn from_buffer(status: u16, reply: ReplyBuffer) -> Reply
        ensures { result ≡ record { status = status; bytes = reply } }
    {
        Reply {
            bytes: Bytes::Made { status, reply },
        }
    }

    /// A fixed reply.
    pub fn fixed(which: Fixed) -> Reply
        ensures { result ≡ fixed_message which }
    {
        Reply {
            bytes: Bytes::Fixed(which),
        }
    }

    /// The status code (RFC 9110, 15).
    pub fn status(&self) -> u16
        ensures { result ≡ self.now.status }
    {
        match &self.bytes {
            Bytes::Made { status, .. } => *status,
            Bytes::Fixed(which) => which.status(),
        }
    }

    /// The bytes of the reply: its first line, its fields and the empty line after them, and its body.
    pub fn bytes(&self) -> &[u8]
        ensures { result.now ≡ self.now.bytes }
    {
        match &self.bytes {
            Bytes::Made { reply, .. } => reply.bytes(),
            Bytes::Fixed(which) => fixed(*which),
        }
    }
}
