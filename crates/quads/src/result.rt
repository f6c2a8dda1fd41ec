//! The result of a job, before anything is printed.

ghost use Rattle.std.specs.Prelude.{◌≡◌, Ok, Err, MatchResult};
ghost use Rattle.quads.specs.Due.{IsTextOf};
ghost use Rattle.quads.specs.inner.JobResult as spec;
ghost use Rattle.quads.specs.inner.JobResult.{IsCheckResult};

use crate::refusal::fault_of;
use qs_algebra_solutions::Answer;
use qs_nquads::laws::next_number_is_fresh;
use qs_nquads::{NqFault, read_hashed};
use qs_query_forms::laws::quads_are_a_dataset;
use qs_store_load::LoadFault;
use qs_terms::{QFault, Quad, Text};
use std::alloc::Global;
use std::hash::RandomState;

/// The most solutions that a query may have, after OFFSET and LIMIT, and a WHERE of an update.
pub const MAX_ROWS: u64 = 1_000_000;

/// The result of a job.
#[derive(Drop)]
pub enum JobResult {
    /// The query has this answer.
    Answered(Answer),
    /// The data are these quads, or these are what an update makes of them.
    Quads(Vec<Quad>),
    /// The plans of the text are these.
    Explained(Text),
    /// The data are no N-Quads.
    DataRefused(NqFault),
    /// The text is refused, or out of memory.
    Refused(QFault),
}

/// The text that bytes are, or the fault at the first that is no part of one.
pub fn text_of(bytes: &[u8]) -> Result<&str, QFault>
    ensures { MatchResult result (λ s. IsTextOf bytes.now (Ok s.now))
        (λ f. IsTextOf bytes.now (Err f)) }
{
    match std::str::from_utf8(bytes) {
        Ok(text) => Ok(text),
        Err(error) => Err(QFault::Syntax {
            place: error.valid_up_to(),
        }),
    }
}

/// Returns the result of a job whose data aren't put into a store.
pub fn load_refusal(fault: LoadFault) -> JobResult
    ensures { result ≡ spec.load_refusal fault }
{
    match fault {
        LoadFault::Text(fault) => JobResult::DataRefused(fault),
        LoadFault::Store(fault) => JobResult::Refused(fault_of(fault)),
    }
}

/// Returns the result of a check of the data, for which no store is made. The labels of blank nodes are hashed by `hasher`.
pub fn check_result(alloc: Global, hasher: RandomState, file: &[u8]) -> JobResult
    ensures { IsCheckResult file.now result }
{
    next_number_is_fresh();
    quads_are_a_dataset();
    match read_hashed(alloc, hasher, file, 0) {
        Ok((quads, _)) => JobResult::Quads(quads),
        Err(fault) => JobResult::DataRefused(fault),
    }
}

/// Returns the result of a check of the data, whose bytes are dropped.
pub fn check_owned(alloc: Global, hasher: RandomState, file: Vec<u8>) -> JobResult
    ensures { IsCheckResult file.items result }
{
    let checked = check_result(alloc, hasher, file.as_slice());
    drop(file);
    checked
}
