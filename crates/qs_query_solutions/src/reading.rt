//! Rows of an evaluation that give variables their terms.

ghost use Rattle.std.specs.Prelude.{◌≡◌};
ghost use Rattle.qs_expr.specs.inner.Cell.{row_solution, FitsRow};

use crate::terms::{term, value};
use qs_expr::Row;
use qs_expr_meaning::Bindings;
use qs_expr_values::Value;
use qs_ops::Op;
use qs_store::View;
use qs_terms::Term;
use std::marker::Model;

/// A row whose cells are read by an evaluation; contracts see the solution that it denotes.
#[derive(Drop)]
pub(crate) struct Reading<'r, 'a, V: View> {
    op: &'r Op<'a, V>,
    row: &'r Row,
}

impl<'r, 'a, V: View> Model for Reading<'r, 'a, V> {
    ghost use Rattle.qs_algebra_solutions.specs.Solution.{Solution};
    ghost use Rattle.qs_expr.specs.inner.Cell.{row_solution, FitsRow};

    ghost Value = { Solution };

    ghost view = { λ b. row_solution b.op.now.known b.op.now.table b.row.now };

    ghost invariant = { λ b. FitsRow b.op.now.known b.op.now.table b.row.now };
}

impl<'r, 'a, V: View> Reading<'r, 'a, V> {
    /// The row, whose cells the evaluation has.
    pub(crate) fn new(op: &'r Op<'a, V>, row: &'r Row) -> Reading<'r, 'a, V>
        requires { FitsRow op.now.known op.now.table row.now }
        ensures { result ≡ row_solution op.now.known op.now.table row.now }
    {
        Reading { op, row }
    }
}

impl<'r, 'a, V: View> Bindings for Reading<'r, 'a, V> {
    ghost solution = { λ m. m };

    fn term(&self, variable: usize) -> Option<&Term> {
        term(self.op, self.row, variable)
    }

    fn value(&self, variable: usize) -> Option<Value<'_>> {
        value(self.op, self.row, variable)
    }
}
