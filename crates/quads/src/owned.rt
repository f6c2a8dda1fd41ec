//! The run of a job whose bytes are dropped on the way.

ghost use Rattle.quads.specs.Run.{IsRun};

use crate::explain::explanation_result;
use crate::job::{Job, Ran};
use crate::load::{load_owned_service, load_owned_store};
use crate::print::put_result;
use crate::query::query_result;
use crate::replay::replay_script;
use crate::result::check_owned;
use crate::update::update_result;
use qs_terms::Sink;
use std::alloc::Global;
use std::hash::RandomState;

/// Returns what `run` returns. The bytes of the data are dropped once they are read, so that the job takes less memory.
///
/// # Errors
///
/// Those of `run`.
pub fn run_owned<S: Sink>(alloc: Global, job: Job, hasher: RandomState, out: &mut S) -> Ran
    ensures { IsRun job (S.taken out.old) (S.taken out.new) (S.faults out.old) (S.faults out.new)
        result }
{
    match job {
        Job::Check { data } => put_result(alloc, check_owned(alloc, hasher, data), out),
        Job::Query {
            data,
            text,
            default_graph,
        } => {
            let loaded = load_owned_store(alloc, hasher, default_graph, data);
            let end = query_result(alloc, loaded, text.as_slice());
            put_result(alloc, end, out)
        }
        Job::Update {
            data,
            text,
            default_graph,
        } => {
            let loaded = load_owned_store(alloc, hasher, default_graph, data);
            let end = update_result(alloc, loaded, text.as_slice());
            put_result(alloc, end, out)
        }
        Job::Replay {
            data,
            script,
            default_graph,
        } => {
            let loaded = load_owned_service(alloc, hasher, default_graph, data);
            replay_script(alloc, loaded, script.as_slice(), out)
        }
        Job::Explain {
            data,
            text,
            kind,
            default_graph,
        } => {
            let loaded = load_owned_store(alloc, hasher, default_graph, data);
            let end = explanation_result(alloc, loaded, kind, text.as_slice());
            put_result(alloc, end, out)
        }
    }
}
