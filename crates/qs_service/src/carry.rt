//! A request, carried out over the store.

ghost use Rattle.std.specs.Prelude.{◌≡◌, ◌≤◌, IfOk, drop, true, vec_len};
ghost use Rattle.serde_json.specs.Written.{compact_text};
ghost use Rattle.qs_http.specs.inner.Reply.{IsReplyStatus};
ghost use Rattle.qs_http.specs.declared.media.Media.TheVariants.{Results, NTriples};
ghost use Rattle.qs_http.specs.declared.request.Request.TheVariants.{Query, Update};
ghost use Rattle.qs_results.specs.Json.{json_of};
ghost use Rattle.qs_results.specs.inner.Json.{has_json};
ghost use Rattle.qs_results.specs.Triples.{ntriples_of};
ghost use Rattle.qs_results.specs.inner.Triples.{is_graph};
ghost use Rattle.qs_service.specs.Carried.{Carries, answer_reply, fault_reply};
ghost use Rattle.qs_service.specs.Language.{sparql};
ghost use Rattle.qs_service.specs.State.{stored_of};
ghost use Rattle.qs_service.specs.inner.Made.{MadeOf, CarriesDump};
ghost use Rattle.qs_update.specs.Request.{Bounds};
ghost use Rattle.qs_service_connections.specs.inner.Meaning.{CarriesOrMemory};
ghost use Rattle.qs_service_connections.specs.Message.{message};

use crate::text::{answer_over, dump_after, update_over};
use http::StatusCode;
use qs_algebra_solutions::Answer;
use qs_http::{Fixed, HEAD_ROOM, Media, ReplyBuffer, Request, reply_room};
use qs_results::{fault_line, fault_status, json_after, ntriples_after};
use qs_service_connections::Reply;
use qs_store::Store;
use qs_terms::QFault;
use std::alloc::{AllocError, Global};

/// A reply with that status and type, whose body is in the buffer after the room for a head.
fn made(alloc: Global, status: u16, media: Media, buffer: Vec<u8>) -> Result<Reply, AllocError>
    requires status { IsReplyStatus status }
    requires room { HEAD_ROOM ≤ vec_len buffer }
    ensures { IfOk result (λ reply. reply ≡ message status media (drop HEAD_ROOM buffer.items)) }
{
    let code = if status == 200 {
        StatusCode::OK
    } else if status == 400 {
        StatusCode::BAD_REQUEST
    } else {
        StatusCode::INTERNAL_SERVER_ERROR
    };
    let reply = ReplyBuffer::new(alloc, code, media, buffer)?;
    Ok(Reply::from_buffer(status, reply))
}

/// The reply of a fault.
fn refusal(alloc: Global, fault: &QFault) -> Result<Reply, AllocError>
    ensures { IfOk result (λ reply. reply ≡ fault_reply fault.now) }
{
    let line = fault_line(alloc, fault)?;
    let mut body = reply_room(alloc)?;
    body.extend_from_slice(line.as_bytes())?;
    body.push(b'\n')?;
    made(alloc, fault_status(fault), Media::Text, body)
}

fn json_reply(alloc: Global, answer: &Answer) -> Result<Reply, AllocError>
    requires { has_json answer.now ≡ true }
    ensures { IfOk result
        (λ reply. reply ≡ message 200 Results (compact_text (json_of answer.now))) }
{
    let room = reply_room(alloc)?;
    let body = json_after(alloc, room, answer)?;
    made(alloc, 200, Media::Results, body)
}

fn graph_reply(alloc: Global, answer: &Answer) -> Result<Reply, AllocError>
    requires { is_graph answer.now ≡ true }
    ensures { IfOk result (λ reply. reply ≡ message 200 NTriples (ntriples_of answer.now)) }
{
    let room = reply_room(alloc)?;
    let body = ntriples_after(alloc, room, answer)?;
    made(alloc, 200, Media::NTriples, body)
}

/// The reply of an answer.
fn answered(alloc: Global, answer: &Answer) -> Result<Reply, AllocError>
    ensures { IfOk result (λ reply. reply ≡ answer_reply answer.now) }
{
    match answer {
        Answer::Solutions { vars: _, rows: _ } => json_reply(alloc, answer),
        Answer::Truth(_) => json_reply(alloc, answer),
        Answer::Graph(_) => graph_reply(alloc, answer),
    }
}

/// A query's reply, as far as there is memory.
fn asked(alloc: Global, text: &str, store: &Store, max_rows: u64) -> Result<Reply, AllocError>
    ensures { IfOk result (Carries sparql (stored_of max_rows store.now) (Query text.now)
        (stored_of max_rows store.now)) }
{
    match answer_over(alloc, text, store, max_rows) {
        Ok(answer) => answered(alloc, &answer),
        Err(QFault::Memory) => Err(AllocError),
        Err(fault) => refusal(alloc, &fault),
    }
}

/// The reply with the whole dataset, as far as there is memory.
fn dumped(alloc: Global, store: &Store) -> Result<Reply, AllocError>
    ensures { IfOk result (λ reply. (bounds : Bounds) → CarriesDump sparql store.now.base bounds
        reply) }
{
    let room = reply_room(alloc)?;
    let body = dump_after(alloc, room, store)?;
    made(alloc, 200, Media::NQuads, body)
}

/// The reply, or that of out of memory, which takes none.
fn or_memory(made: Result<Reply, AllocError>) -> Reply
    ensures { MadeOf made result }
{
    match made {
        Ok(reply) => reply,
        Err(_) => Reply::fixed(Fixed::Memory),
    }
}

/// An update's reply. An accepted one has a fixed reply, so that out of memory never follows a change.
fn changed(alloc: Global, text: &str, store: &mut Store, max_rows: u64) -> Reply
    ensures { CarriesOrMemory (Carries sparql) (stored_of max_rows store.old) (Update text.now)
        (stored_of max_rows store.new) result }
{
    match update_over(alloc, text, store, max_rows) {
        Ok(()) => Reply::fixed(Fixed::NoContent),
        Err(QFault::Memory) => Reply::fixed(Fixed::Memory),
        Err(fault) => or_memory(refusal(alloc, &fault)),
    }
}

/// The reply of the request, which is carried out. Where it is out of memory, what is stored stays.
pub fn carry_out(alloc: Global, request: &Request, store: &mut Store, max_rows: u64) -> Reply
    ensures { CarriesOrMemory (Carries sparql) (stored_of max_rows store.old) request.now
        (stored_of max_rows store.new) result }
{
    match request {
        Request::Query(text) => or_memory(asked(alloc, text.as_str(), store, max_rows)),
        Request::Update(text) => changed(alloc, text.as_str(), store, max_rows),
        Request::Dump => or_memory(dumped(alloc, store)),
    }
}
