//! The result of an update of the data of a file.

ghost use Rattle.std.specs.Prelude.{◌≡◌, ◌≢◌, Err, IfOk, IfErr};
ghost use Rattle.qs_terms.specs.declared.fault.QFault.TheVariants.{Memory};
ghost use Rattle.qs_store.specs.Same.{SameSet};
ghost use Rattle.quads.specs.Due.{max_terms};
ghost use Rattle.quads.specs.inner.Outcomes.{IsUpdateOutcome};
ghost use Rattle.quads.specs.inner.JobResult.{IsUpdateResultOver};
ghost use Rattle.quads.specs.inner.Update.{BecomesUpdated, AreQuadsAfter};

use crate::result::{JobResult, MAX_ROWS, load_refusal, text_of};
use qs_base::drop_value;
use qs_store::{Store, StoreFault, same_set_is_an_equivalence};
use qs_store_load::LoadFault;
use qs_terms::{QFault, Quad};
use qs_update::update;
use std::alloc::Global;

fn text_update(alloc: Global, text: &[u8], store: &mut Store) -> Result<(), QFault>
    requires limit { store.old.limit ≡ max_terms }
    ensures { BecomesUpdated store.old.default_graph text.now store.old.base result store.new.base }
{
    match text_of(text) {
        Ok(text) => update(alloc, text, store, MAX_ROWS),
        Err(fault) => Err(fault),
    }
}

// The quads that the store holds.
fn quads_of(store: &Store) -> Result<Vec<Quad>, QFault>
    ensures same { IfOk result (λ quads. SameSet quads.items store.now.base.quads) }
    ensures memory { IfErr result (λ fault. fault ≡ Memory) }
{
    same_set_is_an_equivalence();
    match store.quads() {
        Ok(quads) => Ok(quads),
        Err(StoreFault::Memory) => Err(QFault::Memory),
        Err(StoreFault::Full) => unreachable!(),
    }
}

// The quads that the store holds after the update.
fn quads_after(alloc: Global, store: &mut Store, text: &[u8]) -> Result<Vec<Quad>, QFault>
    requires limit { store.old.limit ≡ max_terms }
    ensures done { IfOk result (λ all. AreQuadsAfter store.old.default_graph text.now store.old.base
        all.items) }
    ensures refused { IfErr result (λ fault. fault ≢ Memory
        → IsUpdateOutcome store.old.default_graph text.now store.old.base (Err fault)) }
{
    same_set_is_an_equivalence();
    match text_update(alloc, text, store) {
        Ok(()) => quads_of(store),
        Err(fault) => Err(fault),
    }
}

/// Returns the result of an update of what the data became, a store or the fault of the data. The store is dropped.
pub fn update_result(alloc: Global, loaded: Result<Store, LoadFault>, text: &[u8]) -> JobResult
    requires limit { IfOk loaded (λ store. store.limit ≡ max_terms) }
    ensures { IsUpdateResultOver loaded text.now result }
{
    match loaded {
        Ok(mut store) => {
            let outcome = quads_after(alloc, &mut store, text);
            drop_value(store);
            match outcome {
                Ok(quads) => JobResult::Quads(quads),
                Err(fault) => JobResult::Refused(fault),
            }
        }
        Err(fault) => load_refusal(fault),
    }
}
