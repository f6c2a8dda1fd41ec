//! From a job to the bytes that are printed of it.

ghost use Rattle.quads.specs.Run.{IsRun};

use crate::explain::explanation_result;
use crate::job::{Job, Ran};
use crate::load::{load_service, load_store};
use crate::print::put_result;
use crate::query::query_result;
use crate::replay::replay_script;
use crate::result::check_result;
use crate::update::update_result;
use qs_terms::Sink;
use std::alloc::Global;
use std::hash::RandomState;

/// Returns the exit status of the job, and how many bytes the sink took of what is printed: the data as N-Quads, the answer as a line of
/// JSON, a graph as N-Triples, the data after an update as N-Quads, a line for each reply and each refused event of a script, the plans of a
/// text, or the line of the fault that is due. The labels of the data and the terms of a store are hashed by `hasher`.
///
/// # Errors
///
/// The status is 1 where the job is refused, out of memory, or where the sink fails; nothing is put after a failure. Else it is 0.
pub fn run<S: Sink>(alloc: Global, job: &Job, hasher: RandomState, out: &mut S) -> Ran
    ensures { IsRun job.now (S.taken out.old) (S.taken out.new) (S.faults out.old)
        (S.faults out.new) result }
{
    match job {
        Job::Check { data } => {
            put_result(alloc, check_result(alloc, hasher, data.as_slice()), out)
        }
        Job::Query {
            data,
            text,
            default_graph,
        } => {
            let loaded = load_store(alloc, hasher, *default_graph, data.as_slice());
            let end = query_result(alloc, loaded, text.as_slice());
            put_result(alloc, end, out)
        }
        Job::Update {
            data,
            text,
            default_graph,
        } => {
            let loaded = load_store(alloc, hasher, *default_graph, data.as_slice());
            let end = update_result(alloc, loaded, text.as_slice());
            put_result(alloc, end, out)
        }
        Job::Replay {
            data,
            script,
            default_graph,
        } => {
            let loaded = load_service(alloc, hasher, *default_graph, data.as_slice());
            replay_script(alloc, loaded, script.as_slice(), out)
        }
        Job::Explain {
            data,
            text,
            kind,
            default_graph,
        } => {
            let loaded = load_store(alloc, hasher, *default_graph, data.as_slice());
            let end = explanation_result(alloc, loaded, *kind, text.as_slice());
            put_result(alloc, end, out)
        }
    }
}
