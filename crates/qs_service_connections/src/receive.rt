//! How far a connection has come, and what it receives.

ghost use Rattle.qs_service_connections.specs.inner.Receive.{IsReading, bytes_read, ReceivesOn};

use crate::meaning::Meaning;
use crate::reply::Reply;
use qs_http::{Progress, Session};
use std::alloc::Global;

/// How far a connection has come.
#[derive(Drop)]
pub enum ConnectionState {
    Reading(Session),
    Answered { reply: Reply, taken: usize },
}

/// The reply, once the piece completes the request or makes it unlawful: a request that is complete is carried out.
#[tactic(auto, using(crate::proofs::Requests::ready_stands))]
pub fn receive<M: Meaning>(
    alloc: Global,
    session: &mut Session,
    meaning: &mut M,
    piece: &[u8],
) -> Option<Reply>
    requires { IsReading session.old }
    ensures { ReceivesOn M.carries meaning.old (bytes_read session.old) piece.now meaning.new
        session.new result }
{
    match session.feed(piece) {
        Progress::More => None,
        Progress::Refused(which) => Some(Reply::fixed(which)),
        Progress::Ready => match session.request() {
            Some(request) => Some(meaning.carry_out(alloc, request)),
            None => unreachable!(),
        },
    }
}
