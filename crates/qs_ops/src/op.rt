//! The evaluation of a plan, row by row.

ghost use Rattle.std.specs.Prelude.{◌≡◌, None, Some, true, Ok, IfOk, IfErr, IfSome, OnErr};
ghost use Rattle.qs_terms.specs.declared.fault.QFault.TheVariants.{Memory};
ghost use Rattle.qs_store.specs.inner.ActiveGraph.{active_graph};
ghost use Rattle.qs_store.specs.declared.active.Active.TheVariants.{Default};
ghost use Rattle.qs_expr_values.specs.inner.Value.{term_of};
ghost use Rattle.qs_expr.specs.inner.Cell.{denoted, row_solution, FitsCell, FitsRow};
ghost use Rattle.qs_expr.specs.inner.Evaluated.{Evaluates};
ghost use Rattle.qs_expr.specs.inner.Scratch.{IsTable, Grows};
ghost use Rattle.qs_ops_walk.specs.inner.Stream.{AreToCome, GivesOne, PassesAlike, solution_if};
ghost use Rattle.qs_plan.specs.inner.Plans.{plan_list};

use qs_expr::{Cell, Row, Scratch};
use qs_expr_meaning::{Expr, ExprFault};
use qs_expr_values::Value;
use qs_ops_walk::Cursor;
use qs_plan::Plan;
use qs_store::{Active, View};
use qs_terms::{QFault, Term};
use std::alloc::Global;
use std::marker::Model;

/// The evaluation of a plan over a view; contracts see the solutions that are still to come, whether the end was reached, the terms of the
/// dictionary, and those of the scratch table. A row that it answers has one cell for each named variable.
#[derive(Drop)]
pub struct Op<'a, V: View> {
    cursor: Cursor<'a, V>,
}

impl<'a, V: View> Model for Op<'a, V> {
    ghost use Rattle.qs_ops_walk.specs.inner.Stream.{Stream};

    ghost Value = { Stream };

    ghost view = { λ o. o.cursor };
}

impl<'a, V: View> Op<'a, V> {
    /// The evaluation of the plan where the default graph is active (SPARQL 1.1 Query, 18.5 and 18.6).
    ///
    /// # Errors
    /// `QFault::Memory` where memory runs out.
    pub fn start(alloc: Global, plan: &'a Plan, view: &'a V) -> Result<Op<'a, V>, QFault>
        ensures rows { IfOk result
            (λ o. AreToCome
            (plan_list plan.now (V.content view.now).quads
            (active_graph (V.content view.now) (V.default_seen view.now) Default)) o.rows) }
        ensures known { IfOk result (λ o. o.known ≡ (V.content view.now).known) }
        ensures table { IfOk result (λ o. IsTable o.known o.table) }
        ensures fault { IfErr result (λ f. f ≡ Memory) }
    {
        let op = Op::start_in(alloc, plan, view, Active::Default)?;
        Ok(op)
    }

    /// The evaluation of the plan where this graph is active (SPARQL 1.1 Query, 18.5 and 18.6).
    ///
    /// # Errors
    /// `QFault::Memory` where memory runs out.
    pub fn start_in(
        alloc: Global,
        plan: &'a Plan,
        view: &'a V,
        active: Active,
    ) -> Result<Op<'a, V>, QFault>
        ensures rows { IfOk result
            (λ o. AreToCome
            (plan_list plan.now (V.content view.now).quads
            (active_graph (V.content view.now) (V.default_seen view.now) active)) o.rows) }
        ensures known { IfOk result (λ o. o.known ≡ (V.content view.now).known) }
        ensures table { IfOk result (λ o. IsTable o.known o.table) }
        ensures fault { IfErr result (λ f. f ≡ Memory) }
    {
        let op = Op::start_led(alloc, plan, view, active, &[])?;
        Ok(op)
    }

    /// The evaluation of the plan where this graph is active, for a caller who asks for distinct terms of these variables: rows that have the same
    /// follow one another where an order of the store has them so, and `skip_alike` passes over them (SPARQL 1.1 Query, 18.5 and 18.6).
    ///
    /// # Errors
    /// `QFault::Memory` where memory runs out.
    pub fn start_led(
        alloc: Global,
        plan: &'a Plan,
        view: &'a V,
        active: Active,
        columns: &'a [usize],
    ) -> Result<Op<'a, V>, QFault>
        ensures rows { IfOk result
            (λ o. AreToCome
            (plan_list plan.now (V.content view.now).quads
            (active_graph (V.content view.now) (V.default_seen view.now) active)) o.rows) }
        ensures known { IfOk result (λ o. o.known ≡ (V.content view.now).known) }
        ensures table { IfOk result (λ o. IsTable o.known o.table) }
        ensures fault { IfErr result (λ f. f ≡ Memory) }
    {
        let stages = plan.stages.as_slice();
        let cursor = Cursor::start(alloc, stages, plan.width, plan.cells, view, active, columns)?;
        Ok(Op { cursor })
    }

    /// The next solution, as a row; none where no solution is left, and then each further call answers none. A row that was answered keeps its
    /// solution while the table grows.
    ///
    /// # Errors
    /// `QFault::Memory` where memory runs out; each further call answers the same.
    #[inline(always)]
    pub fn next(&mut self) -> Result<Option<Row>, QFault>
        ensures rows { IfOk result
            (λ o. GivesOne self.old.rows (solution_if self.new.known self.new.table o)
            self.new.rows) }
        ensures fits { IfOk result (λ o. IfSome o (λ m. FitsRow self.new.known self.new.table m)) }
        ensures fault { IfErr result (λ f. f ≡ Memory) }
        ensures failed { OnErr result (self.new.rows ≡ None) }
        ensures ends { result ≡ Ok None → self.new.is_over ≡ true }
        ensures over { self.old.is_over ≡ true → result ≡ Ok None }
        ensures known { self.new.known ≡ self.old.known }
        ensures grows { Grows self.old.known self.old.table self.new.table }
    {
        self.cursor.next()
    }

    /// Passes over solutions to come that have the row's terms at these variables, as far as that is known without making them. No row is
    /// made, and none of another term is passed over. So a caller who asks for distinct terms goes over fewer rows.
    pub fn skip_alike(&mut self, columns: &[usize], row: &Row)
        requires { FitsRow self.old.known self.old.table row.now }
        ensures rows { PassesAlike columns.now (row_solution self.old.known self.old.table row.now)
            self.old.rows self.new.rows }
        ensures over { self.old.is_over ≡ true → self.new.is_over ≡ true }
        ensures known { self.new.known ≡ self.old.known }
        ensures table { self.new.table ≡ self.old.table }
    {
        self.cursor.skip_alike(columns, row);
    }

    /// The term of a cell that a row has.
    pub fn term(&self, cell: Cell) -> &Term
        requires { FitsCell self.now.known self.now.table cell }
        ensures { denoted self.now.known self.now.table cell ≡ Some result.now }
    {
        self.cursor.term(cell)
    }

    /// The term of a cell that a row has, as a value. What a term of the dictionary is worth was read when it was put there.
    pub fn value(&self, cell: Cell) -> Value<'_>
        requires { FitsCell self.now.known self.now.table cell }
        ensures { denoted self.now.known self.now.table cell ≡ Some (term_of result) }
    {
        self.cursor.value(cell)
    }

    /// The cell of the expression's value at the row (SPARQL 1.1 Query, 17). The solutions to come stay as they are.
    ///
    /// # Errors
    /// `TypeError` where the expression errs. `Memory` where memory runs out: for a value, and by CONCAT.
    pub fn eval(&mut self, expr: &Expr, row: &Row) -> Result<Cell, ExprFault>
        requires { FitsRow self.old.known self.old.table row.now }
        ensures value { Evaluates self.old.known self.old.table self.new.table row.now expr.now
            result }
        ensures rows { self.new.rows ≡ self.old.rows }
        ensures over { self.new.is_over ≡ self.old.is_over }
        ensures known { self.new.known ≡ self.old.known }
        ensures grows { Grows self.old.known self.old.table self.new.table }
    {
        self.cursor.eval(expr, row)
    }

    /// The scratch table, by which rows keep their solutions.
    pub fn into_scratch(self) -> Scratch
        ensures table { result ≡ self.entry.table }
        ensures lawful { IsTable self.entry.known result }
    {
        let Op { cursor } = self;
        cursor.into_scratch()
    }

    /// Takes back a row, for its memory.
    #[inline(always)]
    pub fn give_back(&mut self, row: Row)
        ensures { self.new ≡ self.old }
    {
        self.cursor.give_back(row);
    }

    /// Drops the evaluation. A crate that drops one in place proves the drop of each type in it once more.
    pub fn end(self) {
        let Op { cursor } = self;
        cursor.end();
    }
}
