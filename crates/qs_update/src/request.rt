//! Requests over a store (SPARQL 1.1 Update, 3 and 4).

ghost use Rattle.std.specs.Prelude.{◌≡◌, ◌≢◌, IsTrue, Err, IfErr, OnOk, OnErr};
ghost use Rattle.qs_terms.specs.declared.fault.QFault.TheVariants.{Memory};
ghost use Rattle.qs_update_laws.specs.inner.Written.{update_values_have_no_blank};
ghost use Rattle.qs_update.specs.inner.Carried.{AreTaken};
ghost use Rattle.qs_update.specs.Outcome.{IsOutcomeOfText};
ghost use Rattle.qs_update.specs.inner.Outcome.{IsAccepted};
ghost use Rattle.qs_update.specs.Request.{bounds_of, AreOperations};

use crate::draft::operate_all;
use qs_store::Store;
use qs_syntax::{drop_update, parse_update};
use qs_syntax_ast::update::Update;
use qs_terms::QFault;
use qs_update_laws::laws::updates_write_no_blank_rows;
use std::alloc::Global;

// The operations of an update, all or none.
fn taken(alloc: Global, update: &Update, store: &mut Store, max_rows: u64) -> Result<(), QFault>
    requires { IsTrue (update_values_have_no_blank update.now) }
    ensures accepted { OnOk result (AreTaken (bounds_of max_rows store.old) update.now.operations
        store.old.base store.new.base) }
    ensures refused { OnErr result (store.new.base ≡ store.old.base) }
    ensures fault { IfErr result (λ f. f ≢ Memory → AreOperations (bounds_of max_rows store.old)
        update.now.operations store.old.base (Err f)) }
    ensures limit { store.new.limit ≡ store.old.limit }
    ensures default_graph { store.new.default_graph ≡ store.old.default_graph }
{
    let mut draft = store.draft();
    match operate_all(alloc, update, &mut draft, max_rows) {
        Ok(()) => {
            draft.commit();
            Ok(())
        }
        Err(fault) => {
            draft.abandon();
            Err(fault)
        }
    }
}

/// Carries the update of a text out over a store: each operation over what those before it left, all or none. A WHERE sees the default
/// graph of the store, and may have `max_rows` solutions. Where it is refused the store's quads, next blank node's number and known terms
/// stay as they were.
///
/// # Errors
/// The fault of the text, as of `parse_update`. Of a text without fault that of the first operation that is refused: `QFault::NoGraph`
/// where ADD, COPY or MOVE name a graph without quads and `QFault::GraphExists` where CREATE names one with quads, both without SILENT
/// (SPARQL 1.1 Update, 3.2); `QFault::TooManyRows` where a WHERE has more solutions; `QFault::Full` where the numbers of blank nodes
/// don't suffice, or where the known terms and those of the quads inserted so far in the request are more than the store's limit.
/// `QFault::Memory` where memory runs out, at any time.
pub fn update(alloc: Global, text: &str, store: &mut Store, max_rows: u64) -> Result<(), QFault>
    ensures accepted { OnOk result
        (IsAccepted (bounds_of max_rows store.old) text.now store.old.base store.new.base) }
    ensures refused { OnErr result (store.new.base ≡ store.old.base) }
    ensures fault { IfErr result (λ f. f ≢ Memory → IsOutcomeOfText (bounds_of max_rows store.old)
        text.now store.old.base (Err f)) }
    ensures limit { store.new.limit ≡ store.old.limit }
    ensures default_graph { store.new.default_graph ≡ store.old.default_graph }
{
    let update = parse_update(alloc, text)?;
    updates_write_no_blank_rows();
    let done = taken(alloc, &update, store, max_rows);
    drop_update(update);
    done
}
