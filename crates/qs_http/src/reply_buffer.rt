//! A reply in one buffer: its body is written after room for a head, and its head then directly before the body.
//!
//! The head of a reply has the body's length. So the body is written after 160 bytes of room, more than any head needs, and the
//! head then directly before it. A body of 100 MB isn't copied.

ghost use Rattle.std.specs.Prelude.{◌≡◌, ◌≤◌, ◌++◌, ◌-◌, IfOk, drop, length, vec_len};
ghost use Rattle.qs_http.specs.Reply.{reply_of};
ghost use Rattle.qs_http.specs.inner.Reply.{IsReplyStatus};

use crate::media::Media;
use crate::replies::reply_head;
use http::StatusCode;
use std::alloc::{AllocError, Global};
use std::marker::Model;

/// How many bytes stand before the body while it is written. The longest head has 142.
pub const HEAD_ROOM: usize = 160;

/// The room for a head, after which a body can be written: `HEAD_ROOM` bytes. The one error is running out of memory.
pub fn reply_room(alloc: Global) -> Result<Vec<u8>, AllocError>
    ensures { IfOk result (λ room. vec_len room ≡ HEAD_ROOM) }
{
    vec![in alloc; 0; HEAD_ROOM]
}

/// The whole bytes of a reply, in the buffer that its body was written to.
#[derive(Drop)]
pub struct ReplyBuffer {
    buffer: Vec<u8>,
    from: usize,
}

impl Model for ReplyBuffer {
    ghost use Rattle.std.specs.Prelude.{List, ℕ, ◌≤◌, drop, length};

    ghost Value = { List ℕ };

    ghost view = { λ r. drop r.from r.buffer.items };

    ghost invariant = { λ r. r.from ≤ length r.buffer.items };
}

impl ReplyBuffer {
    /// The reply with that status and type, whose body is what stands after the first `HEAD_ROOM` bytes of the buffer. The body stays where
    /// it stands, and memory is taken for the head alone. The one error is running out of memory.
    pub fn new(
        alloc: Global,
        status: StatusCode,
        media: Media,
        mut buffer: Vec<u8>,
    ) -> Result<ReplyBuffer, AllocError>
        requires status { IsReplyStatus status }
        requires room { HEAD_ROOM ≤ vec_len buffer }
        ensures { IfOk result
            (λ reply. reply ≡ reply_of status media (drop HEAD_ROOM buffer.items)) }
    {
        let head = reply_head(alloc, status, media, buffer.len() - HEAD_ROOM)?;
        put_before(buffer.as_mut_slice(), HEAD_ROOM, head.as_slice());
        Ok(ReplyBuffer {
            buffer,
            from: HEAD_ROOM - head.len(),
        })
    }

    /// The bytes of the reply.
    pub fn bytes(&self) -> &[u8]
        ensures { result.now ≡ self.now }
    {
        &self.buffer[self.from..]
    }
}

/// Writes these bytes directly before that place.
fn put_before(buffer: &mut [u8], place: usize, bytes: &[u8])
    requires fits { length bytes.now ≤ place }
    requires within { place ≤ length buffer.old }
    ensures { drop (place - length bytes.now) buffer.new ≡ bytes.now ++ drop place buffer.old }
{
    buffer[place - bytes.len()..place].copy_from_slice(bytes);
}
