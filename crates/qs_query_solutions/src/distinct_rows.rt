//! Distinct rows of cells (SPARQL 1.1 Query, 18.5: Distinct). Cells of one evaluation are equal exactly where their terms are, so that rows are told
//! apart by their cells. Terms are made once, for the rows that are left at the end.

ghost use Rattle.std.specs.Prelude.{◌≡◌, [], length, map, IfOk, OnOk, None, Some};
ghost use Rattle.std.specs.List.{AllByRecursion};
ghost use Rattle.qs_terms.specs.Bag.{with_new};
ghost use Rattle.std.specs.Option.{option_copied};
ghost use Rattle.qs_expr.specs.inner.Cell.{cell_at, denoted_if, row_solution, FitsIf, FitsRow};
ghost use Rattle.qs_query_solutions.specs.inner.Distinct.{cell_of, same_cells};

use crate::terms::bind;
use indexmap::IndexSet;
use qs_algebra_solutions::Row as Solution;
use qs_expr::{Cell, Row};
use qs_ops::Op;
use qs_store::View;
use qs_terms::Term;
use std::alloc::{AllocError, Global};
use std::hash::RandomState;
use std::marker::Model;

/// A cell of a row, or none, as it is hashed.
#[derive(Clone, Copy, PartialEq, Eq, Hash)]
pub(crate) enum KeyCell {
    Unbound,
    Known(u32),
    Scratch(u64),
}

/// The cell, or none.
fn cell_of(key: KeyCell) -> Option<Cell>
    ensures { result ≡ cell_of key }
{
    match key {
        KeyCell::Unbound => None,
        KeyCell::Known(number) => Some(Cell::Known(number)),
        KeyCell::Scratch(place) => Some(Cell::Scratch(place)),
    }
}

/// The cell, or none, as it is hashed.
fn key_of(cell: Option<Cell>) -> KeyCell
    ensures { cell_of result ≡ cell }
{
    match cell {
        None => KeyCell::Unbound,
        Some(Cell::Known(number)) => KeyCell::Known(number),
        Some(Cell::Scratch(place)) => KeyCell::Scratch(place),
    }
}

/// The row's cells at these variables.
fn keys_of(alloc: Global, row: &Row, columns: &[usize]) -> Result<Vec<KeyCell>, AllocError>
    ensures { IfOk result (λ keys. map cell_of keys.items ≡ map (cell_at row.now) columns.now) }
{
    let mut keys = Vec::with_capacity(alloc, columns.len())?;
    for column in columns {
        keys.push(key_of(row.cell(*column)))?;
    }
    Ok(keys)
}

/// The term of a cell, if there is one.
fn term_of<'a, V: View>(op: &'a Op<'_, V>, cell: Option<Cell>) -> Option<&'a Term>
    requires { FitsIf op.now.known op.now.table cell }
    ensures { option_copied result ≡ denoted_if op.now.known op.now.table cell }
{
    match cell {
        Some(cell) => Some(op.term(cell)),
        None => None,
    }
}

/// The solution that the cells denote.
#[tactic(auto, using(crate::proofs::Fronts::front_more))]
fn made<V: View>(alloc: Global, op: &Op<'_, V>, keys: &[KeyCell]) -> Result<Solution, AllocError>
    requires { FitsRow op.now.known op.now.table (map cell_of keys.now) }
    ensures { IfOk result (λ m. m ≡ row_solution op.now.known op.now.table (map cell_of keys.now)) }
{
    let width = keys.len();
    let mut solution = Solution::unbound(alloc, width)?;
    for at in 0..width {
        bind(&mut solution, at, term_of(op, cell_of(keys[at])))?;
    }
    Ok(solution)
}

/// Rows of cells, of which no two are equal, in the order in which they came; contracts see their list. The cells are hashed by the view's
/// hasher: who chooses the data chooses the numbers of its terms.
#[derive(Drop)]
pub(crate) struct DistinctRows {
    keys: IndexSet<Vec<KeyCell>, RandomState>,
}

impl Model for DistinctRows {
    ghost use Rattle.std.specs.Prelude.{List, map};
    ghost use Rattle.qs_expr.specs.inner.Cell.{Cells};
    ghost use Rattle.qs_query_solutions.specs.inner.Distinct.{cells_of};

    ghost Value = { List Cells };

    ghost view = { λ d. map cells_of d.keys.keys };
}

impl DistinctRows {
    /// No rows. It takes no memory.
    pub fn new<V: View>(alloc: Global, view: &V) -> DistinctRows
        ensures { result ≡ [] }
    {
        DistinctRows {
            keys: IndexSet::with_hasher(alloc, view.hasher()),
        }
    }

    /// How many rows there are.
    pub fn len(&self) -> usize
        ensures { result ≡ length self.now }
    {
        self.keys.len()
    }

    /// Puts the row's cells at these variables after the others, unless they are there.
    pub fn put(&mut self, alloc: Global, row: &Row, columns: &[usize]) -> Result<(), AllocError>
        ensures { OnOk result
            (self.new ≡ with_new same_cells self.old (map (cell_at row.now) columns.now)) }
    {
        let keys = keys_of(alloc, row, columns)?;
        self.keys.insert(keys)?;
        Ok(())
    }

    /// The solutions that the rows denote, in their order.
    pub fn solutions<V: View>(
        &self,
        alloc: Global,
        op: &Op<'_, V>,
    ) -> Result<Vec<Solution>, AllocError>
        requires { AllByRecursion (FitsRow op.now.known op.now.table) self.now }
        ensures { IfOk result (λ rows. rows.items ≡ map (row_solution op.now.known op.now.table)
            self.now) }
    {
        let mut rows = Vec::with_capacity(alloc, self.keys.len())?;
        for keys in self.keys.as_slice() {
            let solution = made(alloc, op, keys.as_slice())?;
            rows.push(solution)?;
        }
        Ok(rows)
    }
}
