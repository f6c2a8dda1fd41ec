//! The names of graphs.

ghost use Rattle.std.specs.Prelude.{◌≡◌, Some, IfOk, IfSome, OnErr};
ghost use Rattle.std.specs.List.{AllByRecursion, list_any};
ghost use Rattle.qs_terms.specs.Dataset.{names_of};
ghost use Rattle.qs_terms.specs.Term.{same_term};
ghost use Rattle.qs_store.specs.inner.Graphs.{AreGraphs};
ghost use Rattle.qs_expr.specs.inner.Cell.{cell_at};
ghost use Rattle.qs_plan_meaning.specs.inner.Stages.{each_named};
ghost use Rattle.qs_ops_scans.specs.inner.Each.{NamesGraph};
ghost use Rattle.qs_ops_scans.specs.inner.Makes.{GivesFirst, Makes};
ghost use Rattle.qs_ops_scans.specs.inner.Names.{HasQuads};

use crate::bind::bind_cell;
use crate::lawful::content_is_lawful;
use qs_base::Shared;
use qs_expr::{Cell, Row};
use qs_store::{Active, StoreFault, View};
use qs_terms::Term;
use sqlite_items::at;
use std::alloc::{AllocError, Global};
use std::marker::Model;

/// Whether some quad is in the graph of this number.
fn has_quads<V: View>(view: &V, number: u32) -> bool
    ensures { HasQuads (V.content view.now) number result }
{
    let mut triples = view.scan(Active::Graph(number), None, None, None);
    triples.next().is_some()
}

/// Whether some quad names this graph (RDF 1.1 Concepts, 4).
pub fn is_named_graph<V: View>(view: &V, name: &Term) -> bool
    ensures { result ≡ list_any (same_term name.now) (names_of (V.content view.now).quads) }
{
    content_is_lawful(view);
    match view.find(name) {
        Some(number) => has_quads(view, number),
        None => false,
    }
}

/// Whether the cell's term is the name of a graph (RDF 1.1 Concepts, 4). The term of a scratch cell is not known, so it names none.
pub fn names_graph<V: View>(view: &V, cell: Cell) -> bool
    ensures { NamesGraph (V.content view.now) cell result }
{
    content_is_lawful(view);
    match cell {
        Cell::Known(number) => has_quads(view, number),
        Cell::Scratch(_) => false,
    }
}

/// The numbers of the names of all named graphs.
///
/// # Errors
/// Out of memory.
pub fn graph_numbers<V: View>(view: &V) -> Result<Vec<u32>, AllocError>
    ensures { IfOk result (λ numbers. AreGraphs (V.content view.now) numbers.items) }
{
    match view.graphs() {
        Ok(numbers) => Ok(numbers),
        Err(StoreFault::Memory) => Err(AllocError),
        Err(StoreFault::Full) => unreachable!(),
    }
}

/// The rows that have a register bound to the name of each graph in turn and that are still to come; contracts see their list.
#[derive(Drop)]
pub struct NameRows {
    numbers: Shared<Vec<u32>>,
    at: usize,
    register: usize,
    row: Row,
}

impl Model for NameRows {
    ghost use Rattle.std.specs.Prelude.{List, Option, drop};
    ghost use Rattle.qs_expr.specs.declared.cell.Cell.{Cell};
    ghost use Rattle.qs_ops_scans.specs.inner.Names.{rows_named};

    ghost Value = { List (List (Option Cell)) };

    ghost view = { λ n. rows_named n.register n.row (drop n.at n.numbers.items) };
}

impl NameRows {
    /// The next row, or none where none is left.
    ///
    /// # Errors
    /// Out of memory, which takes no row away.
    #[tactic(auto, using(crate::proofs::Named::none_named, crate::proofs::Named::first_named))]
    pub fn next(&mut self, alloc: Global, spare: &mut Vec<Row>) -> Result<Option<Row>, AllocError>
        ensures gives { GivesFirst self.old result self.new }
        ensures refused { OnErr result (self.new ≡ self.old) }
    {
        let Some(number) = at(self.numbers.get().as_slice(), self.at) else {
            return Ok(None);
        };
        let mut row = self.row.copy(alloc, spare)?;
        bind_cell(&mut row, self.register, Cell::Known(*number));
        self.at += 1;
        Ok(Some(row))
    }

    /// The cell that all rows have at the variable, if the row of which they are made has one there.
    pub fn common_cell(&self, variable: usize) -> Option<Cell>
        ensures { IfSome result (λ c. AllByRecursion (λ m. cell_at m variable ≡ Some c) self.now) }
    {
        if variable == self.register {
            return None;
        }
        self.row.cell(variable)
    }

    /// The row of which the others were made, for its memory.
    pub fn into_row(self) -> Row {
        let NameRows {
            numbers: _,
            at: _,
            register: _,
            row,
        } = self;
        row
    }
}

/// The rows that have the register bound to the name of each named graph in turn (SPARQL 1.1 Query, 18.6).
pub fn name_rows<V: View>(
    view: &V,
    numbers: Shared<Vec<u32>>,
    register: usize,
    row: Row,
) -> NameRows
    ensures { AreGraphs (V.content view.now) numbers.items → Makes (V.content view.now).known
        (each_named (V.content view.now).quads register) row result }
{
    content_is_lawful(view);
    NameRows {
        numbers,
        at: 0,
        register,
        row,
    }
}
