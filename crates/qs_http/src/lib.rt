//! The wire of the endpoint: the request that the bytes of one connection ask, and the bytes of its reply.
//!
//! What a connection asks is a function of its joined bytes, however they are cut into pieces
//! (`specs/RequestOf.antt`; SPARQL 1.1 Protocol, 2). A head is what `httparse` reads, and a form's
//! pairs are what `form_urlencoded` reads. A reply is the exact bytes of `specs/Reply.antt`.
#![tactic(auto)]

mod advance;
mod bytes;
mod checks;
mod conclude;
mod fixed_reply;
mod head;
mod head_end;
mod laws;
mod media;
mod parameters;
mod replies;
mod reply_buffer;
mod request;
mod session;
mod stage;

pub use fixed_reply::Fixed;
pub use laws::{
    cuts_do_not_matter, requests_are_kept, requests_are_unique, unfinished_requests_are_short,
};
pub use media::Media;
pub use replies::{fixed, reply};
pub use reply_buffer::{HEAD_ROOM, ReplyBuffer, reply_room};
pub use request::Request;
pub use session::{Progress, Session};
