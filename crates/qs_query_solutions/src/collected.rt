//! Solutions that are collected, whole or projected.

ghost use Rattle.std.specs.Prelude.{◌≡◌, [], ◌∷◌, ◌++◌, length, None, Some, OnOk};
ghost use Rattle.std.specs.Option.{option_copied};
ghost use Rattle.qs_algebra_solutions.specs.Solution.{projected};
ghost use Rattle.qs_algebra_solutions.specs.inner.Some.{is_enough};
ghost use Rattle.qs_expr.specs.inner.Cell.{row_solution, FitsRow};
ghost use Rattle.qs_query_solutions.specs.inner.Collected.{nothing, with_rows};

use crate::terms::{projected, solution};
use qs_algebra_solutions::Row as Solution;
use qs_expr::Row;
use qs_ops::Op;
use qs_store::View;
use std::alloc::{AllocError, Global};
use std::marker::Model;

/// Whether so many suffice.
pub(crate) fn is_enough(most: Option<u64>, count: usize) -> bool
    ensures { result ≡ is_enough most count }
{
    match most {
        None => false,
        Some(most) => most <= count as u64,
    }
}

/// The solutions so far. Where columns are given they are the terms at these alone: no others are made.
#[derive(Drop)]
pub(crate) struct Collected<'c> {
    rows: Vec<Solution>,
    columns: Option<&'c [usize]>,
    most: Option<u64>,
}

impl<'c> Model for Collected<'c> {
    ghost use Rattle.std.specs.Option.{option_copied};
    ghost use Rattle.qs_query_solutions.specs.inner.Collected.{Collection};

    ghost Value = { Collection };

    ghost view = { λ c. record { rows = c.rows.items; columns = option_copied c.columns; most = c.most } };
}

impl<'c> Collected<'c> {
    /// No solutions yet. Where `most` is given, so many suffice.
    pub fn new(alloc: Global, columns: Option<&'c [usize]>, most: Option<u64>) -> Collected<'c>
        ensures { result ≡ nothing (option_copied columns.entry) most }
    {
        Collected {
            rows: Vec::new(alloc),
            columns,
            most,
        }
    }

    /// Whether the solutions suffice.
    pub fn is_enough(&self) -> bool
        ensures { result ≡ is_enough self.now.most (length self.now.rows) }
    {
        is_enough(self.most, self.rows.len())
    }

    /// Puts the solution that the row denotes after the others; where columns are given, its terms at these.
    pub fn put<V: View>(
        &mut self,
        alloc: Global,
        op: &Op<'_, V>,
        row: &Row,
    ) -> Result<(), AllocError>
        requires { FitsRow op.now.known op.now.table row.now }
        ensures { OnOk result
            (self.new ≡ with_rows self.old (row_solution op.now.known op.now.table row.now ∷ [])) }
    {
        let solution = match self.columns {
            None => solution(alloc, op, row)?,
            Some(columns) => projected(alloc, op, row, columns)?,
        };
        self.rows.push(solution)?;
        Ok(())
    }

    /// The solutions.
    pub fn into_rows(self) -> Vec<Solution>
        ensures { result.items ≡ self.entry.rows }
    {
        self.rows
    }
}
