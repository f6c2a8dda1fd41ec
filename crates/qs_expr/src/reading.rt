//! Rows that give variables their terms.

ghost use Rattle.std.specs.Prelude.{◌≡◌};
ghost use Rattle.qs_expr.specs.inner.Cell.{row_solution, FitsRow};

use crate::row::Row;
use crate::scratch::{Scratch, term, value};
use qs_expr_meaning::Bindings;
use qs_expr_values::Value;
use qs_store::View;
use qs_terms::Term;
use std::marker::Model;

/// A row whose cells are read by a view and a scratch table; contracts see the solution that it denotes.
#[derive(Drop)]
pub(crate) struct Reading<'r, V: View> {
    row: &'r Row,
    view: &'r V,
    scratch: &'r Scratch,
}

impl<'r, V: View> Model for Reading<'r, V> {
    ghost use Rattle.qs_algebra_solutions.specs.Solution.{Solution};
    ghost use Rattle.qs_expr.specs.inner.Cell.{row_solution, FitsRow};

    ghost Value = { Solution };

    ghost view = { λ b. row_solution (V.content b.view.now).known b.scratch.now b.row.now };

    ghost invariant = { λ b. FitsRow (V.content b.view.now).known b.scratch.now b.row.now };
}

impl<'r, V: View> Reading<'r, V> {
    /// The row, read by a view and a table that its cells fit.
    pub(crate) fn new(row: &'r Row, view: &'r V, scratch: &'r Scratch) -> Reading<'r, V>
        requires { FitsRow (V.content view.now).known scratch.now row.now }
        ensures { result ≡ row_solution (V.content view.now).known scratch.now row.now }
    {
        Reading { row, view, scratch }
    }
}

impl<'r, V: View> Bindings for Reading<'r, V> {
    ghost solution = { λ m. m };

    #[tactic(auto, using(crate::proofs::RowTerms::term_read, crate::proofs::RowTerms::none_read))]
    fn term(&self, variable: usize) -> Option<&Term> {
        match self.row.cell(variable) {
            Some(cell) => Some(term(cell, self.view, self.scratch)),
            None => None,
        }
    }

    #[tactic(auto, using(crate::proofs::RowTerms::term_read, crate::proofs::RowTerms::none_read))]
    fn value(&self, variable: usize) -> Option<Value<'_>> {
        match self.row.cell(variable) {
            Some(cell) => Some(value(cell, self.view, self.scratch)),
            None => None,
        }
    }
}
