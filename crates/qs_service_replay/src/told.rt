//! What is written of an event.

ghost use Rattle.std.specs.Prelude.{◌≡◌, ◌++◌, List, ℕ, IfOk, MatchResult, string_bytes};
ghost use Rattle.std.specs.Result.{result_err};
ghost use Rattle.hex.specs.Hex.{encode_lower};
ghost use Rattle.qs_service_connections.specs.Step.{Step};
ghost use Rattle.qs_service_replay.specs.inner.ScriptEvents.{event_of};
ghost use Rattle.qs_service_replay.specs.Replay as spec;
ghost use Rattle.qs_service_replay.specs.inner.Told.{HadReply};

use crate::script_event::ScriptEvent;
use qs_service_connections::{Connections, Meaning, Reply, ServiceFault};
use std::alloc::{AllocError, Global};

fn carry_out<M: Meaning>(
    connections: &mut Connections<M>,
    event: &ScriptEvent,
) -> Result<(), ServiceFault>
    ensures { Step M.carries connections.old (event_of event.now) (result_err result)
        connections.new }
{
    match event {
        ScriptEvent::Join(id) => connections.join_conn(*id),
        ScriptEvent::Piece(id, bytes) => connections.piece(*id, bytes.as_slice()),
        ScriptEvent::End(id) => connections.end_conn(*id),
    }
}

fn number_of(fault: ServiceFault) -> u32
    ensures { result ≡ spec.number_of fault }
{
    match fault {
        ServiceFault::Busy => 1,
        ServiceFault::KnownId => 2,
        ServiceFault::UnknownId => 3,
    }
}

fn refused_line(alloc: Global, line: usize, fault: ServiceFault) -> Result<String, AllocError>
    ensures { IfOk result (λ text. string_bytes text ≡ spec.refused_line line fault) }
{
    let number = number_of(fault);
    format!(in alloc; "event {line} refused {number}\n")
}

// How many bytes are written in hex at a time, so that the hex of a large part stands in memory but once.
const PIECE: usize = 65_536;

// Puts the bytes after the line, in hex.
fn push_hex(alloc: Global, line: &mut String, bytes: &[u8]) -> Result<(), AllocError>
    ensures { IfOk result (λ _. string_bytes line.new ≡ string_bytes line.old
        ++ encode_lower bytes.now) }
{
    line.reserve(bytes.len().saturating_mul(2))?;
    let mut rest = bytes;
    while !rest.is_empty() {
        let (piece, behind) = rest.split_at(rest.len().min(PIECE));
        let digits = hex::encode(alloc, piece)?;
        line.push_str(digits.as_str())?;
        rest = behind;
    }
    Ok(())
}

fn reply_line(alloc: Global, id: u64, reply: &Reply) -> Result<String, AllocError>
    ensures { IfOk result (λ text. string_bytes text ≡ spec.reply_line id reply.now) }
{
    let mut line = format!(in alloc; "reply {id} ")?;
    push_hex(alloc, &mut line, reply.bytes())?;
    line.push('\n')?;
    Ok(line)
}

// Whether the connection of a piece has its reply already.
fn has_reply<M: Meaning>(connections: &Connections<M>, event: &ScriptEvent) -> bool
    ensures { HadReply connections.now (event_of event.now) result }
{
    match event {
        ScriptEvent::Join(_) => false,
        ScriptEvent::Piece(id, _) => connections.reply(*id).is_some(),
        ScriptEvent::End(_) => false,
    }
}

/// What is written of the event of that line, which is carried out. Where it is out of memory for the text, the event is
/// carried out all the same.
pub(crate) fn told<M: Meaning>(
    alloc: Global,
    connections: &mut Connections<M>,
    line: usize,
    event: &ScriptEvent,
) -> Result<String, AllocError>
    ensures { MatchResult result (λ text. spec.Tells M.carries connections.old line
        (event_of event.now) connections.new (string_bytes text))
        (λ _. (text : List ℕ) × spec.Tells M.carries connections.old line (event_of event.now)
        connections.new text) }
{
    let had = has_reply(connections, event);
    match carry_out(connections, event) {
        Ok(()) => {}
        Err(fault) => return refused_line(alloc, line, fault),
    }
    match event {
        ScriptEvent::Piece(id, _) if !had => match connections.reply(*id) {
            Some(reply) => reply_line(alloc, *id, reply),
            None => Ok(String::new(alloc)),
        },
        _ => Ok(String::new(alloc)),
    }
}
