//! The events of a script.

ghost use Rattle.std.specs.Prelude.{◌≡◌, map, MatchResult};
ghost use Rattle.qs_service_replay.specs.inner.ScriptEvents.{event_of};
ghost use Rattle.qs_service_replay.specs.Script.{IsScript};
ghost use Rattle.qs_service_replay.specs.inner.Script.{IsScriptFault};
ghost use Rattle.qs_service_replay.specs.inner.Told.{IsToldAt};
ghost use Rattle.qs_service_replay.specs.declared.script.ScriptFault.TheVariants.{Memory};

use crate::line::script_event_of;
use crate::parts::first_line;
use crate::script_event::ScriptEvent;
use std::alloc::{AllocError, AllocFailed, Global};
use thiserror::Error;

/// Why a text is no script.
#[derive(Clone, Copy, Debug, PartialEq, Eq, Error)]
pub enum ScriptFault {
    /// The line of this number, from 1, is the first that tells no event.
    #[error("script line {0}")]
    Line(usize),
    /// Running out of memory.
    #[error("out of memory")]
    Memory,
}

impl From<AllocError> for ScriptFault {
    ghost from_gives = { λ _ f. f ≡ Memory };

    fn from(_error: AllocError) -> ScriptFault {
        ScriptFault::Memory
    }
}

impl<T: Drop> From<AllocFailed<T>> for ScriptFault {
    ghost from_gives = { λ _ f. f ≡ Memory };

    fn from(_error: AllocFailed<T>) -> ScriptFault {
        ScriptFault::Memory
    }
}

// The event that the line of this number tells.
fn told(alloc: Global, line: &[u8], number: usize) -> Result<ScriptEvent, ScriptFault>
    ensures { IsToldAt line.now number result }
{
    match script_event_of(alloc, line) {
        Ok(Some(event)) => Ok(event),
        Ok(None) => Err(ScriptFault::Line(number)),
        Err(_) => Err(ScriptFault::Memory),
    }
}

/// The events that the lines of the text tell, in their order. A line is `join <id>`, `piece <id> <hex>` or `end <id>`.
///
/// # Errors
/// `Line` where a line tells no event, with the number of the first such line; `Memory` where memory runs out.
pub fn read_script(alloc: Global, text: &[u8]) -> Result<Vec<ScriptEvent>, ScriptFault>
    ensures { MatchResult result (λ events. IsScript text.now (map event_of events.items))
        (λ fault. IsScriptFault text.now fault) }
{
    let mut events = Vec::new(alloc);
    let mut rest = text;
    while !rest.is_empty() {
        let (line, behind) = first_line(rest);
        match told(alloc, line, events.len() + 1) {
            Ok(event) => events.push(event)?,
            Err(fault) => return Err(fault),
        }
        rest = behind;
    }
    Ok(events)
}
