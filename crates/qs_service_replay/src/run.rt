//! The run of a script's events.
//!
//! A line goes out before the next event, and where the sink fails no later event is carried out. Out of memory for the line of a
//! reply comes after its event; its own line is put and the run stops. The data's faults come before the script's.

ghost use Rattle.std.specs.Prelude.{◌^◌, ◌<◌, map};
ghost use Rattle.qs_service_replay.specs.inner.ScriptEvents.{event_of};
ghost use Rattle.qs_service_replay.specs.inner.Replayed.{IsReplayed};

use crate::script_event::ScriptEvent;
use crate::told::told;
use qs_service_connections::{Connections, Meaning};
use qs_terms::{Sink, put_all};
use std::alloc::Global;

/// How a run of events ended.
#[derive(Clone, Copy, Debug, PartialEq, Eq)]
pub enum ReplayEnd {
    /// All events were carried out, and the sink took all that they write.
    All,
    /// The sink failed in the line of the last event that was carried out.
    SinkFailed,
    /// Out of memory for the line of the last event that was carried out.
    OutOfMemory,
}

/// How a run of events ended, and how many bytes the sink took.
#[derive(Clone, Copy)]
pub struct ReplayResult {
    pub end: ReplayEnd,
    pub written: u128,
}

/// How the run of the events ended: they are carried out, and a line is put for each reply, when it is made, and for each event that is
/// refused. It stops where the sink fails, and where it is out of memory for a line.
pub fn replay<M: Meaning, S: Sink>(
    alloc: Global,
    connections: &mut Connections<M>,
    events: &[ScriptEvent],
    out: &mut S,
) -> ReplayResult
    ensures replayed { IsReplayed M.carries connections.old (map event_of events.now)
        (S.taken out.old) (S.taken out.new) (S.faults out.old) (S.faults out.new) connections.new
        result.end result.written }
    ensures fits { result.written < 2 ^ 127 }
{
    let mut written: u128 = 0;
    for (i, event) in events.iter().enumerate() {
        let line = match told(alloc, connections, i + 1, event) {
            Ok(line) => line,
            Err(_) => return ReplayResult {
                end: ReplayEnd::OutOfMemory,
                written,
            },
        };
        let bytes = line.as_bytes();
        let taken = put_all(out, bytes);
        written += taken as u128;
        if taken < bytes.len() {
            return ReplayResult {
                end: ReplayEnd::SinkFailed,
                written,
            };
        }
    }
    ReplayResult {
        end: ReplayEnd::All,
        written,
    }
}
