//! How far a request has been read.

use crate::fixed_reply::Fixed;
use crate::head_end::HeadState;
use crate::request::Request;

/// How far a request has been read.
#[derive(Drop)]
pub enum Stage {
    /// The head hasn't ended.
    Head {
        bytes: Vec<u8>,
        place: HeadState,
    },
    /// The head ends there, and a body of that size is due.
    Body {
        bytes: Vec<u8>,
        end: usize,
        size: usize,
    },
    /// The bytes ask this.
    Ready(Request),
    /// The bytes are refused.
    Refused(Fixed),
}

/// What the bytes up to the head's end or further result in; where more are wanted, the length of the body.
#[derive(Drop)]
pub enum Step {
    More(usize),
    Ready(Request),
    Refused(Fixed),
}
