//! The result of a query over the data of a file.

ghost use Rattle.qs_terms.specs.Outcome.{OneOrOutOfMemory};
ghost use Rattle.quads.specs.inner.Outcomes.{IsQueryOutcome};
ghost use Rattle.quads.specs.inner.JobResult.{IsQueryResultOver};

use crate::result::{JobResult, MAX_ROWS, load_refusal, text_of};
use qs_algebra_solutions::Answer;
use qs_base::drop_value;
use qs_query::answer;
use qs_store::{Store, same_set_is_an_equivalence};
use qs_store_load::LoadFault;
use qs_terms::QFault;
use std::alloc::Global;

fn text_answer(alloc: Global, text: &[u8], store: &Store) -> Result<Answer, QFault>
    ensures { OneOrOutOfMemory (IsQueryOutcome store.now.default_graph text.now store.now.base)
        result }
{
    same_set_is_an_equivalence();
    match text_of(text) {
        Ok(text) => answer(alloc, text, store, MAX_ROWS),
        Err(fault) => Err(fault),
    }
}

/// Returns the result of a query over what the data became, a store or the fault of the data. The store is dropped.
pub fn query_result(alloc: Global, loaded: Result<Store, LoadFault>, text: &[u8]) -> JobResult
    ensures { IsQueryResultOver loaded text.now result }
{
    match loaded {
        Ok(store) => {
            let outcome = text_answer(alloc, text, &store);
            drop_value(store);
            match outcome {
                Ok(answer) => JobResult::Answered(answer),
                Err(fault) => JobResult::Refused(fault),
            }
        }
        Err(fault) => load_refusal(fault),
    }
}
