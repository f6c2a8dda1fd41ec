//! The evaluation of stages, row by row.

ghost use Rattle.std.specs.Prelude.{◌≡◌, None, Some, true, Ok, IfOk, IfErr, IfSome, OnErr, map, take};
ghost use Rattle.qs_terms.specs.declared.fault.QFault.TheVariants.{Memory};
ghost use Rattle.qs_store.specs.inner.ActiveGraph.{active_graph};
ghost use Rattle.qs_expr_values.specs.inner.Value.{term_of};
ghost use Rattle.qs_expr.specs.inner.Cell.{denoted, row_solution, FitsCell, FitsRow};
ghost use Rattle.qs_expr.specs.inner.Evaluated.{Evaluates};
ghost use Rattle.qs_expr.specs.inner.Scratch.{IsTable, Grows};
ghost use Rattle.qs_algebra_solutions.specs.Solution.{unbound};
ghost use Rattle.qs_plan_meaning.specs.inner.Stages.{through};
ghost use Rattle.qs_ops_walk.specs.inner.Stream.{AreToCome, GivesOne, PassesAlike, solution_if};

use crate::alike::skip_alike;
use crate::reader::Reader;
use crate::spare::keep;
use crate::walk::{Walk, next_named, start};
use qs_expr::{Cell, Row, Scratch};
use qs_expr_meaning::{Expr, ExprFault};
use qs_expr_values::Value;
use qs_plan_meaning::Stage;
use qs_store::{Active, View};
use qs_terms::{QFault, Term};
use std::alloc::Global;
use std::marker::Model;

/// The evaluation of stages over a view; contracts see the solutions that are still to come, whether the end was reached, the terms of the
/// dictionary, and those of the scratch table. A row that it answers has one cell for each named variable.
#[derive(Drop)]
pub struct Cursor<'a, V: View> {
    reader: Reader<'a, V>,
    walk: Walk<'a>,
    scratch: Scratch,
    failed: bool,
}

impl<'a, V: View> Model for Cursor<'a, V> {
    ghost use Rattle.qs_ops_walk.specs.inner.Stream.{Stream};
    ghost use Rattle.qs_ops_walk.specs.inner.Cursor.{IsOp, is_done, rows_left};
    ghost use Rattle.qs_ops_walk.specs.inner.Setting.{known_of};

    ghost Value = { Stream };

    ghost view = { λ o. record { rows = rows_left o.failed o.reader o.scratch o.walk.places.items o.walk.levels.items; is_over = is_done o.failed o.walk.levels.items; known = known_of o.reader; table = o.scratch } };

    ghost invariant = { λ o. IsOp o.failed o.reader o.scratch o.walk.places.items o.walk.levels.items };
}

impl<'a, V: View> Cursor<'a, V> {
    /// The evaluation of stages for a row of so many cells that binds none, where this graph is active (SPARQL 1.1 Query, 18.5 and 18.6). So
    /// many variables of a row are named. Rows with the same terms at the wanted variables follow one another where an order of the store has
    /// them so; nothing else depends on these.
    ///
    /// # Errors
    /// `QFault::Memory` where memory runs out.
    pub fn start(
        alloc: Global,
        stages: &'a [Stage],
        width: usize,
        cells: usize,
        view: &'a V,
        active: Active,
        wanted: &'a [usize],
    ) -> Result<Cursor<'a, V>, QFault>
        ensures rows { IfOk result
            (λ c. AreToCome
            (map (take width)
            (through width (V.content view.now).quads
            (active_graph (V.content view.now) (V.default_seen view.now) active) stages.now
            (unbound cells))) c.rows) }
        ensures known { IfOk result (λ c. c.known ≡ (V.content view.now).known) }
        ensures table { IfOk result (λ c. IsTable c.known c.table) }
        ensures fault { IfErr result (λ f. f ≡ Memory) }
    {
        let scratch = Scratch::new(alloc, view);
        let reader = Reader {
            alloc,
            view,
            active,
            width,
            wanted,
        };
        let row = Row::unbound(alloc, cells)?;
        let walk = start(&reader, stages, row)?;
        Ok(Cursor {
            reader,
            walk,
            scratch,
            failed: false,
        })
    }

    /// The next solution, as a row; none where no solution is left, and then each further call answers none. A row that was answered keeps its
    /// solution while the table grows.
    ///
    /// # Errors
    /// `QFault::Memory` where memory runs out; each further call answers the same.
    #[inline(always)]
    pub fn next(&mut self) -> Result<Option<Row>, QFault>
        ensures rows { IfOk result
            (λ o. GivesOne self.old.rows (solution_if self.new.known self.new.table o)
            self.new.rows) }
        ensures fits { IfOk result (λ o. IfSome o (λ m. FitsRow self.new.known self.new.table m)) }
        ensures fault { IfErr result (λ f. f ≡ Memory) }
        ensures failed { OnErr result (self.new.rows ≡ None) }
        ensures ends { result ≡ Ok None → self.new.is_over ≡ true }
        ensures over { self.old.is_over ≡ true → result ≡ Ok None }
        ensures known { self.new.known ≡ self.old.known }
        ensures grows { Grows self.old.known self.old.table self.new.table }
    {
        if self.failed {
            return Err(QFault::Memory);
        }
        if self.walk.levels.is_empty() {
            return Ok(None);
        }
        match next_named(&self.reader, &mut self.scratch, &mut self.walk) {
            Ok(row) => Ok(row),
            Err(_) => {
                self.failed = true;
                Err(QFault::Memory)
            }
        }
    }

    /// Passes over solutions to come that have the row's terms at these variables, as far as that is known without making them. No row is
    /// made, and none of another term is passed over.
    pub fn skip_alike(&mut self, columns: &[usize], row: &Row)
        requires { FitsRow self.old.known self.old.table row.now }
        ensures rows { PassesAlike columns.now (row_solution self.old.known self.old.table row.now)
            self.old.rows self.new.rows }
        ensures over { self.old.is_over ≡ true → self.new.is_over ≡ true }
        ensures known { self.new.known ≡ self.old.known }
        ensures table { self.new.table ≡ self.old.table }
    {
        if self.failed || self.walk.levels.is_empty() {
            return;
        }
        skip_alike(&mut self.walk, columns, self.reader.width, row);
    }

    /// The term of a cell that a row has.
    pub fn term(&self, cell: Cell) -> &Term
        requires { FitsCell self.now.known self.now.table cell }
        ensures { denoted self.now.known self.now.table cell ≡ Some result.now }
    {
        qs_expr::term(cell, self.reader.view, &self.scratch)
    }

    /// The term of a cell that a row has, as a value. What a term of the dictionary is worth was read when it was put there.
    pub fn value(&self, cell: Cell) -> Value<'_>
        requires { FitsCell self.now.known self.now.table cell }
        ensures { denoted self.now.known self.now.table cell ≡ Some (term_of result) }
    {
        qs_expr::value(cell, self.reader.view, &self.scratch)
    }

    /// The cell of the expression's value at the row (SPARQL 1.1 Query, 17). The solutions to come stay as they are.
    ///
    /// # Errors
    /// `TypeError` where the expression errs. `Memory` where memory runs out: for a value, and by CONCAT.
    pub fn eval(&mut self, expr: &Expr, row: &Row) -> Result<Cell, ExprFault>
        requires { FitsRow self.old.known self.old.table row.now }
        ensures value { Evaluates self.old.known self.old.table self.new.table row.now expr.now
            result }
        ensures rows { self.new.rows ≡ self.old.rows }
        ensures over { self.new.is_over ≡ self.old.is_over }
        ensures known { self.new.known ≡ self.old.known }
        ensures grows { Grows self.old.known self.old.table self.new.table }
    {
        self.reader.eval(expr, row, &mut self.scratch)
    }

    /// The scratch table, by which rows keep their solutions.
    pub fn into_scratch(self) -> Scratch
        ensures table { result ≡ self.entry.table }
        ensures lawful { IsTable self.entry.known result }
    {
        let Cursor { scratch, .. } = self;
        scratch
    }

    /// Takes back a row, for its memory.
    #[inline(always)]
    pub fn give_back(&mut self, row: Row)
        ensures { self.new ≡ self.old }
    {
        keep(&mut self.walk.spare, row);
    }

    /// Drops the evaluation. A crate that drops one in place proves the drop of each type in it once more.
    pub fn end(self) {
        drop(self);
    }
}
