//! An endpoint that replies with what it was sent, once a blank line came.

ghost use Rattle.std.specs.Prelude.{⊤, ◌≡◌, ◌+◌, ◌<◌, ◌^◌, length, drop};

use qs_service_reactor::Endpoint;
use std::alloc::{AllocError, Global};
use std::mem;

/// How many connections there can be.
const PLACES: usize = 64;

/// What came on each connection, and the replies that stand.
#[derive(Drop)]
pub struct Echo {
    alloc: Global,
    heard: Vec<Vec<u8>>,
    replies: Vec<Option<Vec<u8>>>,
    /// How many connections joined, and how many ended.
    pub joined: u64,
    pub ended: u64,
}

impl Echo {
    ghost use Rattle.qs_service_reactor.specs.inner.Keeps.{KeepsReplies};
    ghost use Rattle.tests_reactor.specs.Echo.{reply_at};

    /// No connections.
    pub fn new(alloc: Global) -> Result<Echo, AllocError> {
        let mut heard = Vec::new(alloc);
        let mut replies = Vec::new(alloc);
        for _ in 0..PLACES {
            heard.push(Vec::new(alloc))?;
            replies.push(None)?;
        }
        Ok(Echo {
            alloc,
            heard,
            replies,
            joined: 0,
            ended: 0,
        })
    }

    /// The reply takes its place, unless one stands there.
    fn answer(&mut self, place: usize, reply: Vec<u8>)
        ensures { KeepsReplies (reply_at self.old.replies.items) (reply_at self.new.replies.items) }
    {
        if place < self.replies.len() && self.replies[place].is_none() {
            self.replies[place] = Some(reply);
        }
    }
}

/// The bytes from that place on.
fn rest(bytes: &[u8], sent: usize) -> &[u8]
    ensures rest { result.now ≡ drop sent bytes.now }
    ensures room { sent + length result.now < 2 ^ 64 }
{
    if sent < bytes.len() {
        &bytes[sent..]
    } else {
        &[]
    }
}

impl Endpoint for Echo {
    ghost use Rattle.tests_reactor.specs.Echo.{reply_at};

    ghost steps = { λ _ _ _ _. ⊤ };

    ghost reply_of = { λ s id. reply_at s.replies.items id };

    fn join(&mut self, id: u64) -> bool {
        self.joined = self.joined.saturating_add(1);
        (id as usize) < PLACES
    }

    fn piece(&mut self, id: u64, bytes: &[u8]) -> bool {
        let place = id as usize;
        if place >= self.heard.len() {
            return false;
        }
        let mut heard = mem::replace(&mut self.heard[place], Vec::new(self.alloc));
        if heard.extend_from_slice(bytes).is_err() {
            return false;
        }
        if heard.as_slice().ends_with(b"\n\n") {
            self.answer(place, heard);
        } else {
            self.heard[place] = heard;
        }
        true
    }

    fn end(&mut self, id: u64) -> bool {
        let place = id as usize;
        self.ended = self.ended.saturating_add(1);
        if place < self.heard.len() {
            self.heard[place] = Vec::new(self.alloc);
        }
        if place < self.replies.len() {
            self.replies[place] = None;
        }
        true
    }

    fn unsent(&self, id: u64, sent: usize) -> Option<&[u8]> {
        let place = id as usize;
        if place >= self.replies.len() {
            return None;
        }
        match &self.replies[place] {
            Some(reply) => Some(rest(reply, sent)),
            None => None,
        }
    }
}
