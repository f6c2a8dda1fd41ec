//! Rows of cells.

ghost use Rattle.std.specs.Prelude.{◌≡◌, ◌<◌, length, List, IfOk, Some, slice_set, take};
ghost use Rattle.qs_terms.specs.declared.term.Term.{Term as TermValue};
ghost use Rattle.qs_algebra_solutions.specs.Solution.{unbound};
ghost use Rattle.qs_expr.specs.inner.Cell.{cell_at, row_solution, FitsRow};
ghost use Rattle.qs_expr.specs.inner.Row.{BindsTerm, BindsTermIf, FitsAsBoth, FitsFront, FitsWith, FitsWithIf, HasFront, MergesSolutions, TellsCompatible, compatible_cells, merged_cells, no_cells};

use crate::cell::Cell;
use crate::compact::{
    CompactCell, are_compatible, cell_at, compact, compact_if, filled, front, no_cells,
};
use std::alloc::{AllocError, Global};
use std::marker::Model;

/// A solution mapping by cells: at each variable's number its cell, or none where it is not bound.
#[derive(Drop)]
pub struct Row {
    cells: Vec<CompactCell>,
}

impl Model for Row {
    ghost use Rattle.std.specs.Prelude.{List, Option};
    ghost use Rattle.qs_expr.specs.declared.cell.Cell.{Cell};

    ghost Value = { List (Option Cell) };

    ghost use Rattle.qs_expr.specs.inner.Compact.{cells_of};

    ghost view = { λ r. cells_of r.cells.items };
}

/// Equal cells, in the memory of a spare row where there is any.
#[inline(always)]
fn in_spare(
    alloc: Global,
    spare: &mut Vec<Row>,
    cells: &[CompactCell],
) -> Result<Vec<CompactCell>, AllocError>
    ensures { IfOk result (λ v. v.items ≡ cells.now) }
{
    let Some(Row { cells: mut own }) = spare.pop() else {
        let own = Vec::from_slice(alloc, cells)?;
        return Ok(own);
    };
    own.clear();
    own.extend_from_slice(cells)?;
    Ok(own)
}

impl Row {
    /// So many variables, none of them bound.
    ///
    /// # Errors
    /// Out of memory.
    #[tactic(auto, using(crate::proofs::Rows::no_cells_unbound, crate::proofs::Rows::no_cells_fit))]
    pub fn unbound(alloc: Global, width: usize) -> Result<Row, AllocError>
        ensures cells { IfOk result (λ r. r ≡ no_cells width) }
        ensures terms { IfOk result (λ r. (known table : List TermValue)
            → row_solution known table r ≡ unbound width) }
        ensures fits { IfOk result (λ r. (known table : List TermValue) → FitsRow known table r) }
    {
        let cells = no_cells(alloc, width)?;
        Ok(Row { cells })
    }

    /// The cell of a variable; none for one past the last.
    pub fn cell(&self, variable: usize) -> Option<Cell>
        ensures { result ≡ cell_at self.now variable }
    {
        cell_at(self.cells.as_slice(), variable)
    }

    /// How many variables it has, bound or not.
    pub fn width(&self) -> usize
        ensures { result ≡ length self.now }
    {
        self.cells.len()
    }

    /// Binds the variable to the cell.
    #[tactic(auto, using(crate::proofs::Rows::bound_terms, crate::proofs::Rows::bound_fits))]
    pub fn bind(&mut self, variable: usize, cell: Cell)
        requires { variable < length self.old }
        ensures cells { self.new ≡ slice_set self.old variable (Some cell) }
        ensures terms { BindsTerm self.old variable cell self.new }
        ensures fits { FitsWith self.old cell self.new }
    {
        self.cells[variable] = compact(cell);
    }

    /// Gives the variable this cell, or none; a variable past the last stays without.
    #[tactic(auto, using(crate::proofs::Rows::set_terms, crate::proofs::Rows::set_fits))]
    pub fn set(&mut self, variable: usize, cell: Option<Cell>)
        ensures cells { self.new ≡ slice_set self.old variable cell }
        ensures terms { BindsTermIf self.old variable cell self.new }
        ensures fits { FitsWithIf self.old cell self.new }
    {
        if variable < self.cells.len() {
            self.cells[variable] = compact_if(cell);
        }
    }

    /// Cuts the row to its first `width` variables, where it has more.
    #[tactic(auto, using(crate::proofs::Rows::front_terms, crate::proofs::Rows::front_fits))]
    pub fn truncate(&mut self, width: usize)
        ensures cells { self.new ≡ take width self.old }
        ensures terms { HasFront width self.old self.new }
        ensures fits { FitsFront self.old self.new }
    {
        self.cells.truncate(width);
    }

    /// An equal row of its own.
    ///
    /// # Errors
    /// Out of memory.
    pub fn try_clone(&self, alloc: Global) -> Result<Row, AllocError>
        ensures { IfOk result (λ r. r ≡ self.now) }
    {
        let cells = Vec::from_slice(alloc, self.cells.as_slice())?;
        Ok(Row { cells })
    }

    /// An equal row, in the memory of a spare one where there is any.
    ///
    /// # Errors
    /// Out of memory.
    #[inline(always)]
    pub fn copy(&self, alloc: Global, spare: &mut Vec<Row>) -> Result<Row, AllocError>
        ensures { IfOk result (λ r. r ≡ self.now) }
    {
        let cells = in_spare(alloc, spare, self.cells.as_slice())?;
        Ok(Row { cells })
    }

    /// The first `width` variables with their cells, in the memory of a spare row where there is any.
    ///
    /// # Errors
    /// Out of memory.
    pub fn copy_front(
        &self,
        alloc: Global,
        spare: &mut Vec<Row>,
        width: usize,
    ) -> Result<Row, AllocError>
        ensures cells { IfOk result (λ r. r ≡ take width self.now) }
        ensures terms { IfOk result (HasFront width self.now) }
        ensures fits { IfOk result (FitsFront self.now) }
    {
        let cells = in_spare(alloc, spare, front(self.cells.as_slice(), width))?;
        Ok(Row { cells })
    }

    /// Whether each variable that is bound in both has the same term (SPARQL 1.1 Query, 18.3).
    #[tactic(auto, using(crate::proofs::Rows::compatible_terms_of))]
    pub fn is_compatible(&self, other: &Row) -> bool
        ensures cells { result ≡ compatible_cells self.now other.now }
        ensures terms { TellsCompatible self.now other.now result }
    {
        are_compatible(self.cells.as_slice(), other.cells.as_slice())
    }

    /// The bindings of both (SPARQL 1.1 Query, 18.3).
    ///
    /// # Errors
    /// Out of memory.
    pub fn merged(&self, alloc: Global, other: &Row) -> Result<Row, AllocError>
        ensures cells { IfOk result (λ r. r ≡ merged_cells self.now other.now) }
        ensures terms { IfOk result (MergesSolutions self.now other.now) }
        ensures fits { IfOk result (FitsAsBoth self.now other.now) }
    {
        let cells = Vec::from_slice(alloc, self.cells.as_slice())?;
        let cells = filled(cells, other.cells.as_slice())?;
        Ok(Row { cells })
    }

    /// The bindings of both, in the memory of a spare row where there is any (SPARQL 1.1 Query, 18.3).
    ///
    /// # Errors
    /// Out of memory.
    pub fn merged_in(
        &self,
        alloc: Global,
        spare: &mut Vec<Row>,
        other: &Row,
    ) -> Result<Row, AllocError>
        ensures cells { IfOk result (λ r. r ≡ merged_cells self.now other.now) }
        ensures terms { IfOk result (MergesSolutions self.now other.now) }
        ensures fits { IfOk result (FitsAsBoth self.now other.now) }
    {
        let cells = in_spare(alloc, spare, self.cells.as_slice())?;
        let cells = filled(cells, other.cells.as_slice())?;
        Ok(Row { cells })
    }
}
