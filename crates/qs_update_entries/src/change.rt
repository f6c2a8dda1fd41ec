//! The change of a draft under rows of cells (SPARQL 1.1 Update, 3.1.3).

ghost use Rattle.std.specs.Prelude.{◌≡◌, length, map, IsTrue, OnOk, OnErr};
ghost use Rattle.std.specs.List.{All};
ghost use Rattle.qs_terms.specs.Dataset.{is_above_blanks};
ghost use Rattle.qs_expr.specs.inner.Cell.{row_solution, FitsRow};
ghost use Rattle.qs_query_template.specs.Instances.{instances, next_after};
ghost use Rattle.qs_store.specs.Change.{with_terms_of, IsChanged};
ghost use Rattle.qs_store.specs.inner.Change.{IsFullExactly};

use crate::added::all_added;
use crate::removed::all_removed;
use qs_expr::{Row, Scratch};
use qs_query_template::Template;
use qs_store::{Draft, StoreFault};
use std::alloc::Global;

/// Removes from the draft the quads that one template makes of rows of cells, and then adds those that another makes of them, whose fresh
/// blank nodes have the numbers from the draft's next one on. `after` is the number after these. Numbers in the rows are of the draft's
/// terms. A term that a row gives by its number isn't looked up by its text.
///
/// # Errors
/// `StoreFault::Full` exactly where the known terms and the other terms of what is added are more than the store's limit, as far as there
/// is memory; `StoreFault::Memory` where memory runs out. Either may leave more terms known to the draft, and no quad changed.
pub fn change_under(
    alloc: Global,
    draft: &mut Draft<'_>,
    delete: &Template,
    insert: &Template,
    scratch: &Scratch,
    rows: &[Row],
    after: u64,
) -> Result<(), StoreFault>
    requires blanks { delete.now.blanks ≡ 0 }
    requires fits { All (FitsRow draft.old.store.now.draft.known scratch.now) rows.now }
    requires after { after ≡ next_after insert.now draft.old.store.now.draft.next
        (length rows.now) }
    requires above { IsTrue
        (is_above_blanks after (instances insert.now draft.old.store.now.draft.next
        (map (row_solution draft.old.store.now.draft.known scratch.now) rows.now))) }
    ensures same_reference { draft.new.store.ghost_name ≡ draft.old.store.ghost_name }
    ensures base { draft.new.store.now.base ≡ draft.old.store.now.base }
    ensures quads { OnOk result
        (let under = map (row_solution draft.old.store.now.draft.known scratch.now) rows.now
        in IsChanged draft.old.store.now.draft.quads
        (instances delete.now draft.old.store.now.draft.next under)
        (instances insert.now draft.old.store.now.draft.next under)
        draft.new.store.now.draft.quads) }
    ensures next { OnOk result (draft.new.store.now.draft.next ≡ after) }
    ensures in_turn { OnOk result
        (draft.new.store.now.draft.known ≡ with_terms_of draft.old.store.now.draft.known
        (instances insert.now draft.old.store.now.draft.next
        (map (row_solution draft.old.store.now.draft.known scratch.now) rows.now))) }
    ensures full { IsFullExactly draft.old.store.now.limit
        (length
        (with_terms_of draft.old.store.now.draft.known
        (instances insert.now draft.old.store.now.draft.next
        (map (row_solution draft.old.store.now.draft.known scratch.now) rows.now))))
        result }
    ensures refused { OnErr result
        (draft.new.store.now.draft.quads ≡ draft.old.store.now.draft.quads) }
    ensures limit { draft.new.store.now.limit ≡ draft.old.store.now.limit }
    ensures default_graph { draft.new.store.now.default_graph ≡ draft.old.store.now.default_graph }
{
    draft.terms();
    let next = draft.next_blank();
    let mut removed = all_removed(alloc, draft, delete, scratch, rows)?;
    let mut added = all_added(alloc, draft, insert, scratch, rows, next)?;
    let _count = draft.count();
    draft.change_entries(removed.as_mut_slice(), added.as_mut_slice(), after)
}
