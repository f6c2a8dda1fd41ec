//! The result of an explanation over the data of a file.

ghost use Rattle.qs_terms.specs.Outcome.{OneOrOutOfMemory};
ghost use Rattle.quads.specs.Due.{IsExplained};
ghost use Rattle.quads.specs.inner.Outcomes.{IsExplanationOutcome};
ghost use Rattle.quads.specs.inner.JobResult.{IsExplanationResultOver};

use crate::job::TextKind;
use crate::result::{JobResult, load_refusal, text_of};
use qs_base::drop_value;
use qs_explain::{explain_query, explain_update};
use qs_store::Store;
use qs_store_load::LoadFault;
use qs_terms::{QFault, Text};
use std::alloc::Global;

fn explained(alloc: Global, kind: TextKind, text: &str, store: &Store) -> Result<Text, QFault>
    ensures { OneOrOutOfMemory (IsExplained kind text.now) result }
{
    match kind {
        TextKind::Query => explain_query(alloc, text, store),
        TextKind::Update => explain_update(alloc, text, store),
    }
}

fn text_explained(alloc: Global, kind: TextKind, text: &[u8], store: &Store) -> Result<Text, QFault>
    ensures { OneOrOutOfMemory (IsExplanationOutcome kind text.now store.now.base) result }
{
    match text_of(text) {
        Ok(text) => explained(alloc, kind, text, store),
        Err(fault) => Err(fault),
    }
}

/// Returns the plans of a text over what the data became, a store or the fault of the data. The store is dropped.
pub fn explanation_result(
    alloc: Global,
    loaded: Result<Store, LoadFault>,
    kind: TextKind,
    text: &[u8],
) -> JobResult
    ensures { IsExplanationResultOver kind loaded text.now result }
{
    match loaded {
        Ok(store) => {
            let outcome = text_explained(alloc, kind, text, &store);
            drop_value(store);
            match outcome {
                Ok(explanation) => JobResult::Explained(explanation),
                Err(fault) => JobResult::Refused(fault),
            }
        }
        Err(fault) => load_refusal(fault),
    }
}
