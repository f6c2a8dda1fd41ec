//! What a walk reads.

ghost use Rattle.std.specs.Prelude.{◌≡◌, ◌<◌, ◌≤◌, true, None, List, length, take, IfOk};
ghost use Rattle.qs_expr_meaning.specs.Meaning.{holds, meaning};
ghost use Rattle.qs_expr.specs.inner.Cell.{Cells, cell_at, denoted_if, row_solution, FitsIf, FitsRow};
ghost use Rattle.qs_expr.specs.inner.Evaluated.{Evaluates, value_at};
ghost use Rattle.qs_terms.specs.declared.term.Term.{Term as TermValue};
ghost use Rattle.qs_expr_meaning.specs.declared.expr.Expr.{Expr as ExprValue};
ghost use Rattle.qs_expr.specs.inner.Condition.{IsPreparedFor};
ghost use Rattle.qs_expr.specs.inner.Scratch.{IsTable, Grows};
ghost use Rattle.qs_algebra_patterns.specs.declared.pattern.TriplePattern.{TriplePattern};
ghost use Rattle.qs_plan_meaning.specs.declared.stage.Look.{Look};
ghost use Rattle.qs_plan_meaning.specs.inner.Scans.{extensions, path_pairs};
ghost use Rattle.qs_plan_meaning.specs.inner.Stages.{each_named, looked};
ghost use Rattle.qs_store.specs.inner.ActiveGraph.{active_graph};
ghost use Rattle.qs_store.specs.inner.Graphs.{AreGraphs};
ghost use Rattle.qs_ops_scans.specs.inner.Paths.{ArePairs, Serve};
ghost use Rattle.qs_ops_scans.specs.inner.Each.{NamesGraph, each_extension, each_joined, misses};
ghost use Rattle.qs_ops_scans.specs.inner.Makes.{Makes};
ghost use Rattle.qs_ops_scans.specs.inner.Prepared.{IsGraphOf, prepared_look, prepared_triple};
ghost use Rattle.qs_ops_walk.specs.inner.Setting.{graph_in, known_of};

use crate::spare::keep;
use qs_algebra_patterns::PathPattern;
use qs_base::Shared;
use qs_expr::{Cell, Condition, Row, Scratch, eval};
use qs_expr_meaning::{Expr, ExprFault};
use qs_ops_scans::{
    NameRows, PathPairs, PreparedLook, PreparedTriple, QuadRows, RowEnds, TripleRows, fed_pairs,
    graph_of_look, joined_quad_rows, name_rows, names_graph, open_triple, path_pairs, quad_rows,
};
use qs_store::{Active, View};
use std::alloc::{AllocError, Global};
use std::marker::Model;

/// A view, the graph that is active, and how many variables of a row are named; contracts see its content.
#[derive(Drop)]
pub(crate) struct Reader<'a, V: View> {
    pub(crate) alloc: Global,
    pub(crate) view: &'a V,
    pub(crate) active: Active,
    pub(crate) width: usize,
    // The variables whose distinct terms are asked for: a hint for the order of a scan.
    pub(crate) wanted: &'a [usize],
}

impl<'a, V: View> Model for Reader<'a, V> {
    ghost use Rattle.qs_ops_walk.specs.inner.Setting.{Setting};

    ghost Value = { Setting };

    ghost view = { λ r. record { width = r.width; content = V.content r.view.now; default = V.default_seen r.view.now; active = r.active } };
}

impl<'a, V: View> Reader<'a, V> {
    /// The rows that a triple pattern makes of the row.
    pub(crate) fn open_triple(
        &self,
        look: PreparedLook,
        pattern: &PreparedTriple,
        row: Row,
    ) -> TripleRows<'a>
        ensures { (place : Look) (p : TriplePattern) → look ≡ prepared_look (known_of self.now)
            place → pattern.now ≡ prepared_triple (known_of self.now) p
            → Makes (known_of self.now)
            (λ m. extensions p (looked self.now.content.quads (graph_in self.now) place m) m) row
            result }
    {
        open_triple(self.view, self.active, look, pattern, row, self.wanted)
    }

    /// The rows that a triple pattern makes of the row in each named graph, whose name the register holds.
    pub(crate) fn quad_rows(
        &self,
        register: usize,
        pattern: &PreparedTriple,
        row: Row,
    ) -> QuadRows<'a>
        requires apart { misses register pattern.now ≡ true }
        requires cell { register < length row }
        ensures { (p : TriplePattern) → pattern.now ≡ prepared_triple (known_of self.now) p
            → Makes (known_of self.now) (each_extension self.now.content.quads register p) row
            result }
    {
        quad_rows(self.view, register, pattern, row)
    }

    /// The rows that a triple pattern makes, in each named graph, of the row merged with a variable that holds the graph's name, as the
    /// register does.
    pub(crate) fn joined_quad_rows(
        &self,
        variable: usize,
        register: usize,
        pattern: &PreparedTriple,
        row: Row,
    ) -> QuadRows<'a>
        requires apart { misses register pattern.now ≡ true }
        requires other { misses variable pattern.now ≡ true }
        requires cell { register < length row }
        requires named { variable < self.now.width }
        requires wide { self.now.width ≤ register }
        requires free { cell_at row variable ≡ None }
        ensures { (p : TriplePattern) → pattern.now ≡ prepared_triple (known_of self.now) p
            → Makes (known_of self.now) (each_joined self.now.content.quads self.now.width variable
            register p) row result }
    {
        joined_quad_rows(self.view, self.width, variable, register, pattern, row)
    }

    /// Whether the cell's term is the name of a graph.
    pub(crate) fn names_graph(&self, cell: Cell) -> bool
        ensures { NamesGraph self.now.content cell result }
    {
        names_graph(self.view, cell)
    }

    /// The graph in which a stage looks for the row.
    pub(crate) fn graph_of_look(&self, look: PreparedLook, row: &Row) -> Active
        ensures { IsGraphOf self.now.content self.now.default look row.now self.now.active result }
    {
        graph_of_look(self.view, look, row, self.active)
    }

    /// The rows that have the register bound to the name of each named graph in turn.
    pub(crate) fn name_rows(&self, numbers: Shared<Vec<u32>>, register: usize, row: Row) -> NameRows
        ensures { AreGraphs self.now.content numbers.items
            → Makes (known_of self.now) (each_named self.now.content.quads register) row result }
    {
        name_rows(self.view, numbers, register, row)
    }

    /// The pairs of a path pattern in a graph.
    pub(crate) fn path_pairs(
        &self,
        graph: Active,
        pattern: &PathPattern,
        row: &Row,
        scratch: &mut Scratch,
    ) -> Result<PathPairs, AllocError>
        requires { IsTable (known_of self.now) scratch.old }
        ensures grows { Grows (known_of self.now) scratch.old scratch.new }
        ensures pairs { IfOk result
            (λ k. ArePairs (known_of self.now) scratch.new k
            (path_pairs pattern.now (active_graph self.now.content self.now.default graph))) }
    {
        path_pairs(self.alloc, self.view, graph, pattern, row, scratch)
    }

    /// Pairs that serve the rows with these cells at the ends of a path pattern, in a graph.
    pub(crate) fn fed_pairs(
        &self,
        graph: Active,
        pattern: &PathPattern,
        ends: RowEnds,
        scratch: &mut Scratch,
    ) -> Result<PathPairs, AllocError>
        requires table { IsTable (known_of self.now) scratch.old }
        requires subject { FitsIf (known_of self.now) scratch.old ends.subject }
        requires object { FitsIf (known_of self.now) scratch.old ends.object }
        ensures grows { Grows (known_of self.now) scratch.old scratch.new }
        ensures serve { IfOk result (λ k. Serve (known_of self.now) scratch.new pattern.now
            (active_graph self.now.content self.now.default graph) ends k) }
    {
        fed_pairs(self.alloc, self.view, graph, pattern, ends, scratch)
    }

    /// Whether the condition is true of the row's named variables.
    pub(crate) fn holds(
        &self,
        condition: &Condition<'_>,
        row: &Row,
        scratch: &Scratch,
        spare: &mut Vec<Row>,
    ) -> Result<bool, AllocError>
        requires prepared { IsPreparedFor (known_of self.now) condition.now }
        requires table { IsTable (known_of self.now) scratch.now }
        requires row { FitsRow (known_of self.now) scratch.now row.now }
        ensures { IfOk result
            (λ b. b
            ≡ holds (take self.now.width (row_solution (known_of self.now) scratch.now row.now))
            condition.now.expr) }
    {
        if row.width() <= self.width {
            return condition.holds(self.alloc, row, self.view, scratch);
        }
        let named = row.copy_front(self.alloc, spare, self.width)?;
        let holds = condition.holds(self.alloc, &named, self.view, scratch)?;
        keep(spare, named);
        Ok(holds)
    }

    /// The cell of the expression's value at the row.
    pub(crate) fn eval(
        &self,
        expr: &Expr,
        row: &Row,
        scratch: &mut Scratch,
    ) -> Result<Cell, ExprFault>
        requires table { IsTable (known_of self.now) scratch.old }
        requires row { FitsRow (known_of self.now) scratch.old row.now }
        ensures grows { Grows (known_of self.now) scratch.old scratch.new }
        ensures value { Evaluates (known_of self.now) scratch.old scratch.new row.now expr.now
            result }
    {
        eval(self.alloc, expr, row, self.view, scratch)
    }

    /// The cell of the expression's value at the row's named variables, where it has one.
    pub(crate) fn value(
        &self,
        expr: &Expr,
        row: &Row,
        scratch: &mut Scratch,
        spare: &mut Vec<Row>,
    ) -> Result<Option<Cell>, AllocError>
        requires table { IsTable (known_of self.now) scratch.old }
        requires row { FitsRow (known_of self.now) scratch.old row.now }
        ensures grows { Grows (known_of self.now) scratch.old scratch.new }
        ensures value { IfOk result (λ c. denoted_if (known_of self.now) scratch.new c
            ≡ meaning
            (take self.now.width (row_solution (known_of self.now) scratch.old row.now))
            expr.now) }
        ensures fits { IfOk result (λ c. FitsIf (known_of self.now) scratch.new c) }
    {
        if row.width() <= self.width {
            return cell_of(eval(self.alloc, expr, row, self.view, scratch));
        }
        let named = row.copy_front(self.alloc, spare, self.width)?;
        let value = eval(self.alloc, expr, &named, self.view, scratch);
        keep(spare, named);
        cell_of(value)
    }
}

/// The cell, or none where the expression errs.
fn cell_of(value: Result<Cell, ExprFault>) -> Result<Option<Cell>, AllocError>
    ensures { (known old new : List TermValue) (m : Cells) (e : ExprValue)
        → Evaluates known old new m e value
        → IfOk result (λ c. (denoted_if known new c ≡ value_at known old m e)
        × FitsIf known new c) }
{
    match value {
        Ok(cell) => Ok(Some(cell)),
        Err(ExprFault::TypeError) => Ok(None),
        Err(ExprFault::Memory) => Err(AllocError),
    }
}
