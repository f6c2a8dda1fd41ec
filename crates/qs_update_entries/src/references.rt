//! What a template makes of a row of cells, by references.

ghost use Rattle.std.specs.Prelude.{ℕ, List};
ghost use Rattle.qs_terms.specs.declared.term.Term.{Term as TermValue};
ghost use Rattle.qs_expr.specs.inner.Cell.{denoted, row_solution, FitsCell, FitsRow};
ghost use Rattle.qs_query_template.specs.Instances.{slot_term, graph_term, instance};
ghost use Rattle.qs_update_entries.specs.inner.Refers.{AreFresh, Refers, RefersToGraph, RefersToQuad};

use qs_expr::{Cell, Row, Scratch};
use qs_query_template::{QuadTemplate, Slot};
use qs_store::{QuadRef, TermRef};
use qs_terms::Term;

/// The term of a cell.
fn cell_ref<'a>(scratch: &'a Scratch, cell: Cell) -> Option<TermRef<'a>>
    ensures { (known : List TermValue) → FitsCell known scratch.now cell
        → Refers known (denoted known scratch.now cell) result }
{
    match cell {
        Cell::Known(number) => Some(TermRef::Known(number)),
        Cell::Scratch(place) => match scratch.get(place) {
            None => None,
            Some(term) => Some(TermRef::Term(term)),
        },
    }
}

/// The term of a slot under a row; none where its variable is unbound. The fresh blank nodes are given.
fn slot_ref<'a>(
    blanks: &'a [Term],
    scratch: &'a Scratch,
    row: &Row,
    slot: &'a Slot,
) -> Option<TermRef<'a>>
    ensures { (known : List TermValue) (count first : ℕ) → AreFresh count first blanks.now
        → FitsRow known scratch.now row.now
        → Refers known (slot_term count first (row_solution known scratch.now row.now) slot.now)
        result }
{
    match slot {
        Slot::Variable(number) => match row.cell(*number) {
            None => None,
            Some(cell) => cell_ref(scratch, cell),
        },
        Slot::Term(term) => Some(TermRef::Term(term.get())),
        Slot::Blank(number) => match blanks.get(*number) {
            None => None,
            Some(term) => Some(TermRef::Term(term)),
        },
    }
}

/// The name of a graph under a row, where no slot is the default graph.
fn graph_ref<'a>(
    blanks: &'a [Term],
    scratch: &'a Scratch,
    row: &Row,
    graph: &'a Option<Slot>,
) -> Option<Option<TermRef<'a>>>
    ensures { (known : List TermValue) (count first : ℕ) → AreFresh count first blanks.now
        → FitsRow known scratch.now row.now
        → RefersToGraph known (graph_term count first (row_solution known scratch.now row.now)
        graph.now) result }
{
    match graph {
        None => Some(None),
        Some(slot) => match slot_ref(blanks, scratch, row, slot) {
            None => None,
            Some(name) => Some(Some(name)),
        },
    }
}

/// The quad of a template under a row, where each place has a term.
pub(crate) fn quad_ref<'a>(
    blanks: &'a [Term],
    scratch: &'a Scratch,
    row: &Row,
    quad: &'a QuadTemplate,
) -> Option<QuadRef<'a>>
    ensures { (known : List TermValue) (count first : ℕ) → AreFresh count first blanks.now
        → FitsRow known scratch.now row.now
        → RefersToQuad known (instance count first (row_solution known scratch.now row.now)
        quad.now) result }
{
    let graph = graph_ref(blanks, scratch, row, &quad.graph)?;
    let subject = slot_ref(blanks, scratch, row, &quad.subject)?;
    let predicate = slot_ref(blanks, scratch, row, &quad.predicate)?;
    let object = slot_ref(blanks, scratch, row, &quad.object)?;
    Some(QuadRef {
        graph,
        subject,
        predicate,
        object,
    })
}
