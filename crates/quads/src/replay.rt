//! The run of a script over the data of a file.

ghost use Rattle.std.specs.Prelude.{map};
ghost use Rattle.qs_service_replay.specs.inner.ScriptEvents.{event_of};
ghost use Rattle.quads.specs.Due.{IsDueOfEvents};
ghost use Rattle.quads.specs.inner.Replay.{IsBegunOfEvents, IsScriptDue, IsScriptBegun, RunsReplay};
ghost use Rattle.quads.specs.inner.Run.{Runs};

use crate::job::Ran;
use crate::put::put;
use crate::refusal::{Refusal, put_refusal};
use qs_base::drop_value;
use qs_results::out_of_memory_line;
use qs_service::Service;
use qs_service_replay::{ReplayEnd, ScriptEvent, ScriptFault, read_script, replay};
use qs_terms::{QFault, Sink};
use std::alloc::Global;

// Carries the events out, and puts what they write; out of memory for that, the line of this fault follows what was put.
fn run_events<S: Sink>(
    alloc: Global,
    service: &mut Service,
    events: &[ScriptEvent],
    out: &mut S,
) -> Ran
    ensures { Runs (IsDueOfEvents service.old (map event_of events.now))
        (IsBegunOfEvents service.old (map event_of events.now)) (S.taken out.old) (S.taken out.new)
        (S.faults out.old) (S.faults out.new) result }
{
    let replayed = replay(alloc, service, events, out);
    let written = replayed.written;
    match replayed.end {
        ReplayEnd::All => Ran { status: 0, written },
        ReplayEnd::SinkFailed => Ran { status: 1, written },
        ReplayEnd::OutOfMemory => {
            let ran = put(out, out_of_memory_line().as_bytes(), 1);
            Ran {
                status: 1,
                written: written + ran.written,
            }
        }
    }
}

// Carries out the events of the script over the service.
fn run_script<S: Sink>(alloc: Global, service: &mut Service, script: &[u8], out: &mut S) -> Ran
    ensures { Runs (IsScriptDue service.old script.now) (IsScriptBegun service.old script.now)
        (S.taken out.old) (S.taken out.new) (S.faults out.old) (S.faults out.new) result }
{
    match read_script(alloc, script) {
        Ok(events) => run_events(alloc, service, events.as_slice(), out),
        Err(ScriptFault::Line(number)) => put_refusal(alloc, &Refusal::Script(number), out),
        Err(ScriptFault::Memory) => put_refusal(alloc, &Refusal::Fault(QFault::Memory), out),
    }
}

/// Returns the exit status of a script over what the data became, a service or a refusal, and how many bytes the sink took: what the events
/// write, or why nothing is run. The service is dropped.
pub fn replay_script<S: Sink>(
    alloc: Global,
    loaded: Result<Service, Refusal>,
    script: &[u8],
    out: &mut S,
) -> Ran
    ensures { RunsReplay loaded script.now (S.taken out.old) (S.taken out.new) (S.faults out.old)
        (S.faults out.new) result }
{
    match loaded {
        Ok(mut service) => {
            let ran = run_script(alloc, &mut service, script, out);
            drop_value(service);
            ran
        }
        Err(refusal) => put_refusal(alloc, &refusal, out),
    }
}
