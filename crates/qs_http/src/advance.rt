//! A stage of reading, one piece further.

ghost use Rattle.std.specs.Prelude.{◌≡◌, ◌<◌, ◌≤◌, ◌+◌, ◌++◌, length, Some, IfOk};
ghost use Rattle.qs_http.specs.HeadEnd.{head_end, head_limit};
ghost use Rattle.qs_http.specs.inner.Feeding.{Feeds, StandsAt};
ghost use Rattle.qs_http.specs.inner.Stage.{AwaitsBody, EndsAt, IsStage, seen_of};

use crate::bytes::front_of;
use crate::conclude::conclude;
use crate::fixed_reply::Fixed;
use crate::head_end::{HeadState, find_end};
use crate::stage::{Stage, Step};
use std::alloc::{AllocError, Global};

/// The longest head, the CR and LF bytes before it counted.
const HEAD_LIMIT: usize = 16384;

/// The stage after one piece more.
pub fn advance(alloc: Global, stage: Stage, piece: &[u8]) -> Stage
    requires { IsStage stage }
    ensures step { Feeds (seen_of stage) piece.now (seen_of result) }
    ensures sound { IsStage result }
{
    match stage {
        Stage::Head { bytes, place } => advance_head(alloc, bytes, place, piece),
        Stage::Body { bytes, end, size } => advance_body(alloc, bytes, end, size, piece),
        Stage::Ready(request) => Stage::Ready(request),
        Stage::Refused(fixed) => Stage::Refused(fixed),
    }
}

fn advance_head(alloc: Global, bytes: Vec<u8>, place: HeadState, piece: &[u8]) -> Stage
    requires { IsStage (Stage.Head bytes place) }
    ensures step { Feeds (seen_of (Stage.Head bytes place)) piece.now (seen_of result) }
    ensures sound { IsStage result }
{
    let room = HEAD_LIMIT - bytes.len();
    let mut place = place;
    match find_end(front_of(piece, room), &mut place) {
        Some(end) => {
            let (last, behind) = piece.split_at(end);
            match with_piece(bytes, last) {
                Ok(head) => advance_ended(alloc, head, behind),
                Err(_) => Stage::Refused(Fixed::Memory),
            }
        }
        None => {
            if room <= piece.len() {
                return Stage::Refused(Fixed::HeadTooLarge);
            }
            match with_piece(bytes, piece) {
                Ok(bytes) => Stage::Head { bytes, place },
                Err(_) => Stage::Refused(Fixed::Memory),
            }
        }
    }
}

/// The bytes with the piece after them.
fn with_piece(bytes: Vec<u8>, piece: &[u8]) -> Result<Vec<u8>, AllocError>
    ensures { IfOk result (λ joined. joined.items ≡ bytes.items ++ piece.now) }
{
    let mut bytes = bytes;
    bytes.extend_from_slice(piece)?;
    Ok(bytes)
}

/// The stage of a head that ends with the bytes, and of what came after it.
fn advance_ended(alloc: Global, bytes: Vec<u8>, behind: &[u8]) -> Stage
    requires { head_end bytes.items ≡ Some (length bytes.items) }
    ensures step { StandsAt (bytes.items ++ behind.now) (seen_of result) }
    ensures sound { IsStage result }
{
    let end = bytes.len();
    match conclude(alloc, &bytes, end) {
        Step::More(size) => advance_body(alloc, bytes, end, size, behind),
        Step::Ready(request) => Stage::Ready(request),
        Step::Refused(fixed) => Stage::Refused(fixed),
    }
}

fn advance_body(alloc: Global, bytes: Vec<u8>, end: usize, size: usize, piece: &[u8]) -> Stage
    requires { IsStage (Stage.Body bytes end size) }
    ensures step { Feeds (seen_of (Stage.Body bytes end size)) piece.now (seen_of result) }
    ensures sound { IsStage result }
{
    let room = end + size - bytes.len();
    let Ok(joined) = with_piece(bytes, front_of(piece, room)) else {
        return Stage::Refused(Fixed::Memory);
    };
    if piece.len() < room {
        return Stage::Body {
            bytes: joined,
            end,
            size,
        };
    }
    finish(alloc, &joined, end, size)
}

/// The stage of a request whose body is whole.
fn finish(alloc: Global, bytes: &[u8], end: usize, size: usize) -> Stage
    requires awaits { AwaitsBody bytes.now end size }
    requires whole { end + size ≤ length bytes.now }
    ensures step { EndsAt bytes.now (seen_of result) }
    ensures sound { IsStage result }
{
    match conclude(alloc, bytes, end) {
        Step::More(_) => unreachable!(),
        Step::Ready(request) => Stage::Ready(request),
        Step::Refused(fixed) => Stage::Refused(fixed),
    }
}
