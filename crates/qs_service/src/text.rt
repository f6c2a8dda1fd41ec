//! What the texts of requests mean, carried out over the store.

ghost use Rattle.std.specs.Prelude.{◌≡◌, ◌++◌, List, ℕ, IfOk};
ghost use Rattle.qs_service.specs.inner.Changes.{Changes};
ghost use Rattle.qs_service.specs.Language.{sparql};
ghost use Rattle.qs_store.specs.Same.{SameSet};
ghost use Rattle.qs_terms.specs.Outcome.{OneOrOutOfMemory};
ghost use Rattle.qs_update.specs.Request.{bounds_of};

use qs_algebra_solutions::Answer;
use qs_nquads::text_after;
use qs_query::answer;
use qs_store::{Store, StoreFault, same_set_is_an_equivalence};
use qs_terms::{QFault, Quad};
use qs_update::update;
use std::alloc::{AllocError, Global};

/// What a query's text is answered with over the store.
///
/// # Errors
/// Those of `qs_query::answer`.
pub fn answer_over(
    alloc: Global,
    text: &str,
    store: &Store,
    max_rows: u64,
) -> Result<Answer, QFault>
    ensures { OneOrOutOfMemory
        (sparql.answers (bounds_of max_rows store.now) text.now store.now.base) result }
{
    same_set_is_an_equivalence();
    answer(alloc, text, store, max_rows)
}

/// An update's text, carried out over the store.
///
/// # Errors
/// Those of `qs_update::update`.
pub fn update_over(
    alloc: Global,
    text: &str,
    store: &mut Store,
    max_rows: u64,
) -> Result<(), QFault>
    ensures changes { Changes
        (sparql.changes (bounds_of max_rows store.old) text.now store.old.base) store.old.base
        result store.new.base }
    ensures limit { store.new.limit ≡ store.old.limit }
    ensures default_graph { store.new.default_graph ≡ store.old.default_graph }
{
    update(alloc, text, store, max_rows)
}

// The quads of the store.
fn quads_of(store: &Store) -> Result<Vec<Quad>, AllocError>
    ensures { IfOk result (λ quads. SameSet quads.items store.now.base.quads) }
{
    same_set_is_an_equivalence();
    match store.quads() {
        Ok(quads) => Ok(quads),
        Err(StoreFault::Memory) => Err(AllocError),
        Err(StoreFault::Full) => unreachable!(),
    }
}

/// What was written before, and the stored quads as N-Quads. The one error is out of memory.
pub fn dump_after(alloc: Global, before: Vec<u8>, store: &Store) -> Result<Vec<u8>, AllocError>
    ensures { IfOk result (λ out. (text : List ℕ) × sparql.writes store.now.base text
        × (out.items ≡ before.items ++ text)) }
{
    let quads = quads_of(store)?;
    text_after(alloc, before, quads.as_slice())
}
