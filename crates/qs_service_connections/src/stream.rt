//! One connection over a stream.

ghost use Rattle.std.specs.Io.KnownBytes.{Keeps};
ghost use Rattle.qs_service_connections.specs.Serve.{Serves, CountsFault};
ghost use Rattle.qs_service_connections.specs.inner.Serve.{Listens, PutsReply};

use crate::meaning::Meaning;
use crate::receive::receive;
use crate::reply::Reply;
use crate::served::{ServeFault, Served};
use qs_http::{Session, unfinished_requests_are_short};
use qs_terms::{Stream, put_all};
use std::alloc::Global;

/// The most bytes that one read is asked for.
const PIECE: usize = 4096;

/// No request of which more bytes are wanted is as long: a head has at most 16,384 bytes, and a body 4,194,304.
const MOST_READS: u32 = 4_210_688;

/// The reply, once the bytes read have one, or none where the input ends first.
fn listen<M: Meaning, S: Stream>(
    alloc: Global,
    stream: &mut S,
    meaning: &mut M,
) -> Result<Option<Reply>, ServeFault>
    ensures results { Listens M.carries meaning.old (S.left stream.old) result meaning.new
        (S.left stream.new) }
    ensures taken { Keeps (S.sent stream.old) (S.Sink.taken stream.new) }
    ensures faults { CountsFault (S.Sink.faults stream.old) (S.Sink.faults stream.new) result }
{
    unfinished_requests_are_short();
    let mut session = Session::new(alloc);
    let mut buf = [0u8; PIECE];
    for _ in 0..MOST_READS {
        let n = match stream.get(&mut buf) {
            Ok(0) => return Ok(None),
            Ok(n) => n,
            Err(_) => return Err(ServeFault::Read),
        };
        if let Some(reply) = receive(alloc, &mut session, meaning, &buf[..n]) {
            return Ok(Some(reply));
        }
    }
    unreachable!()
}

/// Writes the reply.
fn put_reply<S: Stream>(stream: &mut S, reply: &Reply) -> Result<(), ServeFault>
    ensures bytes { PutsReply reply.now (S.Sink.taken stream.old) result (S.Sink.taken stream.new) }
    ensures faults { CountsFault (S.Sink.faults stream.old) (S.Sink.faults stream.new) result }
{
    let bytes = reply.bytes();
    let written = put_all(stream, bytes);
    if written < bytes.len() {
        return Err(ServeFault::Write { written });
    }
    Ok(())
}

/// Serves one connection: reads its request, carries it out and writes the reply.
pub fn serve_stream<M: Meaning, S: Stream>(
    alloc: Global,
    stream: &mut S,
    meaning: &mut M,
) -> Result<Served, ServeFault>
    ensures served { Serves M.carries meaning.old (S.left stream.old) (S.sent stream.old) result
        meaning.new (S.Sink.taken stream.new) }
    ensures faults { CountsFault (S.Sink.faults stream.old) (S.Sink.faults stream.new) result }
{
    let Some(reply) = listen(alloc, stream, meaning)? else {
        return Ok(Served::Silent);
    };
    match put_reply(stream, &reply) {
        Ok(()) => Ok(Served::Answered(reply.status())),
        Err(fault) => Err(fault),
    }
}
