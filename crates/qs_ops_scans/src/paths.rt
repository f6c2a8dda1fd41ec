//! The rows that the pairs of a path make of a row. A path is followed from an end that the row binds, and its pairs serve the next row with
//! the same cells at its ends.

ghost use Rattle.std.specs.Prelude.{◌≡◌, List, Some, take, IfSome, OnErr};
ghost use Rattle.std.specs.List.{AllByRecursion};
ghost use Rattle.qs_terms.specs.declared.term.Term.{Term};
ghost use Rattle.qs_algebra_patterns.specs.Basic.{Graph};
ghost use Rattle.qs_expr.specs.inner.Cell.{Cells, cell_at, FitsRow};
ghost use Rattle.qs_expr.specs.inner.Scratch.{IsTable};
ghost use Rattle.qs_plan_meaning.specs.inner.Scans.{path_extensions, path_pairs};
ghost use Rattle.qs_ops_scans.specs.inner.Makes.{AreMade, GivesFirst};
ghost use Rattle.qs_ops_scans.specs.inner.Paths.{ArePairs, Serve, row_ends};
ghost use Rattle.qs_ops_scans.specs.inner.Ends.{IsNextPair};

use crate::ends::{EndActs, bind_pair, end_acts, ends_of, leaves, pair_agrees};
use crate::kept::{PathPairs, span_for};
use qs_algebra_patterns::PathPattern;
use qs_base::Shared;
use qs_expr::{Cell, Row};
use sqlite_items::at;
use std::alloc::{AllocError, Global};
use std::marker::Model;

/// The rows that the pairs of a path make of a row and that are still to come; contracts see their list.
#[derive(Drop)]
pub struct PathRows {
    pairs: Shared<PathPairs>,
    at: usize,
    to: usize,
    acts: EndActs,
    row: Row,
}

impl Model for PathRows {
    ghost use Rattle.std.specs.Prelude.{List, Option, drop, take};
    ghost use Rattle.std.specs.List.{filter_map};
    ghost use Rattle.qs_expr.specs.declared.cell.Cell.{Cell};
    ghost use Rattle.qs_ops_scans.specs.inner.Ends.{act_made};

    ghost Value = { List (List (Option Cell)) };

    ghost view = { λ p. filter_map (act_made p.acts p.row) (drop p.at (take p.to p.pairs)) };
}

/// The next pair from a place on, up to another, that agrees with a row, and the place after it.
#[tactic(auto, using(crate::proofs::Pairs::next_in, crate::proofs::Pairs::passed_in, crate::proofs::Pairs::none_in, crate::proofs::Pairs::past_in))]
fn next_pair(
    cells: &[(Cell, Cell)],
    from: usize,
    to: usize,
    acts: &EndActs,
) -> Option<(usize, (Cell, Cell))>
    ensures { (m : Cells) → IsNextPair acts.now m (take to cells.now) from result }
{
    for place in from..to {
        let Some(pair) = at(cells, place) else {
            return None;
        };
        if pair_agrees(acts, pair) {
            return Some((place + 1, *pair));
        }
    }
    None
}

impl PathRows {
    /// The next row, or none where none is left.
    ///
    /// # Errors
    /// Out of memory, which takes no row away.
    pub fn next(&mut self, alloc: Global, spare: &mut Vec<Row>) -> Result<Option<Row>, AllocError>
        ensures gives { GivesFirst self.old result self.new }
        ensures refused { OnErr result (self.new ≡ self.old) }
    {
        let pairs = self.pairs.get();
        let cells = pairs.cells.as_slice();
        let Some((after, pair)) = next_pair(cells, self.at, self.to, &self.acts) else {
            return Ok(None);
        };
        let mut row = self.row.copy(alloc, spare)?;
        bind_pair(&mut row, &self.acts, &pair);
        self.at = after;
        Ok(Some(row))
    }

    /// The cell that all rows have at the variable, if the row of which they are made has one there.
    pub fn common_cell(&self, variable: usize) -> Option<Cell>
        ensures { IfSome result (λ c. AllByRecursion (λ m. cell_at m variable ≡ Some c) self.now) }
    {
        if !leaves(&self.acts, variable) {
            return None;
        }
        self.row.cell(variable)
    }

    /// The row of which the others were made, for its memory.
    pub fn into_row(self) -> Row {
        let PathRows {
            pairs: _,
            at: _,
            to: _,
            acts: _,
            row,
        } = self;
        row
    }
}

/// The rows that the pairs of the path pattern make of the row (SPARQL 1.1 Query, 18.4). Pairs that serve rows with its cells at the ends
/// make the same rows as all pairs.
pub fn path_rows(pairs: Shared<PathPairs>, pattern: &PathPattern, row: Row) -> PathRows
    ensures pairs { (known table : List Term) (graph : Graph) → IsTable known table
        → FitsRow known table row
        → ArePairs known table pairs (path_pairs pattern.now graph)
        → AreMade known table (path_extensions pattern.now graph) row result }
    ensures serve { (known table : List Term) (graph : Graph) → IsTable known table
        → FitsRow known table row
        → Serve known table pattern.now graph (row_ends pattern.now row) pairs
        → AreMade known table (path_extensions pattern.now graph) row result }
{
    let ends = ends_of(pattern);
    let span = span_for(pairs.get(), &ends, &row);
    PathRows {
        pairs,
        at: span.from,
        to: span.to,
        acts: end_acts(&row, &ends),
        row,
    }
}
