//! The rows that a triple pattern makes of a row.

ghost use Rattle.std.specs.Prelude.{◌≡◌, ℕ, List, Some, drop, IfSome, OnErr};
ghost use Rattle.std.specs.Iterator.{YieldsFirst};
ghost use Rattle.std.specs.List.{AllByRecursion, filter};
ghost use Rattle.qs_store.specs.inner.ActiveGraph.{active_graph};
ghost use Rattle.qs_algebra_patterns.specs.declared.pattern.TriplePattern.{TriplePattern};
ghost use Rattle.qs_expr.specs.inner.Cell.{cell_at};
ghost use Rattle.qs_plan_meaning.specs.declared.stage.Look.{Look};
ghost use Rattle.qs_plan_meaning.specs.inner.Scans.{extensions};
ghost use Rattle.qs_plan_meaning.specs.inner.Stages.{looked};
ghost use Rattle.qs_ops_scans.specs.inner.Makes.{GivesFirst, Makes};
ghost use Rattle.qs_ops_scans.specs.inner.Skipped.{SkipsRows};
ghost use Rattle.qs_ops_scans.specs.inner.Prepared.{prepared_look, prepared_triple};
ghost use Rattle.qs_store.specs.Content.{Content};
ghost use Rattle.qs_store.specs.declared.default_graph.DefaultGraph.{DefaultGraph};
ghost use Rattle.qs_ops_scans.specs.inner.Opened.{IsAsked, IsScanned, IsScannedBy, passes};

use crate::bind::bind_triple;
use crate::lawful::content_is_lawful;
use crate::look::{PreparedLook, graph_of_look};
use crate::opened::{Acts, Given, acts_of, givens, leaves, passes};
use crate::pattern::PreparedTriple;
use crate::skip::{all_tell, lead_of, wanted_of};
use qs_expr::{Cell, Row};
use qs_index::permutation::Lead;
use qs_store::{Active, Triples, View};
use std::alloc::{AllocError, Global};
use std::marker::Model;

const NOTHING_GIVEN: Given = Given {
    subject: None,
    predicate: None,
    object: None,
};

/// The rows that a triple pattern makes of a row and that are still to come; contracts see their list.
#[derive(Drop)]
pub struct TripleRows<'a> {
    scan: Triples<'a>,
    acts: Acts,
    row: Row,
}

impl<'a> Model for TripleRows<'a> {
    ghost use Rattle.std.specs.Prelude.{List, Option};
    ghost use Rattle.std.specs.List.{filter_map};
    ghost use Rattle.qs_expr.specs.declared.cell.Cell.{Cell};
    ghost use Rattle.qs_ops_scans.specs.inner.Opened.{row_made};

    ghost Value = { List (List (Option Cell)) };

    ghost view = { λ t. filter_map (row_made t.acts t.row) t.scan };
}

/// The next triple of the scan that passes.
#[inline(always)]
fn next_triple(scan: &mut Triples<'_>, acts: &Acts) -> Option<[u32; 3]>
    ensures { YieldsFirst (filter (passes acts.now)) scan.old result scan.new }
{
    'triples: while let Some(triple) = scan.next() {
        if passes(acts, &triple) {
            return Some(triple);
        }
    }
    None
}

impl<'a> TripleRows<'a> {
    /// The next row, or none where none is left.
    ///
    /// # Errors
    /// Out of memory, which takes one row away.
    #[inline(always)]
    #[tactic(auto, using(crate::proofs::Firsts::none_made, crate::proofs::Firsts::first_made, crate::proofs::Firsts::rest_made))]
    pub fn next(&mut self, alloc: Global, spare: &mut Vec<Row>) -> Result<Option<Row>, AllocError>
        ensures gives { GivesFirst self.old result self.new }
        ensures refused { OnErr result (self.new ≡ drop 1 self.old) }
    {
        let Some(triple) = next_triple(&mut self.scan, &self.acts) else {
            return Ok(None);
        };
        let mut row = self.row.copy(alloc, spare)?;
        bind_triple(&mut row, &self.acts, &triple);
        Ok(Some(row))
    }

    /// The cell that all rows have at the variable, if the row of which they are made has one there.
    pub fn common_cell(&self, variable: usize) -> Option<Cell>
        ensures { IfSome result (λ c. AllByRecursion (λ m. cell_at m variable ≡ Some c) self.now) }
    {
        if !leaves(&self.acts, variable) {
            return None;
        }
        self.row.cell(variable)
    }

    /// Skips rows that come next and have the row's cells at these variables, as far as one search finds their end
    /// (`Triples::skip_agreeing`). No other row is skipped, and none is made.
    #[tactic(auto, using(crate::proofs::Skipping::rows_skipped, crate::proofs::Skipping::none_skipped))]
    pub fn skip_alike(&mut self, columns: &[usize], row: &Row)
        ensures { SkipsRows columns.now row.now self.old self.new }
    {
        let wanted = wanted_of(&self.acts, columns, row);
        if !all_tell(&self.acts, &self.row, wanted, columns, row) {
            return;
        }
        self.scan
            .skip_agreeing(wanted.subject, wanted.predicate, wanted.object);
    }

    /// The row of which the others were made, for its memory.
    pub fn into_row(self) -> Row {
        let TripleRows {
            scan: _,
            acts: _,
            row,
        } = self;
        row
    }
}

/// The graph that a scan reads, and the numbers that are given to it; an empty graph where a place has a term that the dictionary lacks.
fn asked(graph: Active, given: Option<Given>) -> (Active, Given)
    ensures { (c : Content) (d : DefaultGraph) (triples : List (List ℕ))
        → IsAsked c d result.0 result.1 triples → IsScannedBy c d graph given triples }
{
    match given {
        Some(given) => (graph, given),
        None => (Active::Empty, NOTHING_GIVEN),
    }
}

/// The triples of the graph that agree with the pattern and the row, as far as their numbers tell.
fn scan_of<'a, V: View>(
    view: &'a V,
    graph: Active,
    pattern: &PreparedTriple,
    row: &Row,
    lead: Lead,
) -> Triples<'a>
    ensures { IsScanned (V.content view.now) (V.default_seen view.now) graph pattern.now row.now
        result }
{
    // One call, so that a scan, which is large, isn't moved where two branches meet.
    let (graph, given) = asked(graph, givens(pattern, row));
    view.scan_with_lead(lead, graph, given.subject, given.predicate, given.object)
}

/// The rows that the pattern makes of the row over the triples of the graph (SPARQL 1.1 Query, 18.3.1). Where no place is given to the scan, those
/// with the same terms at the wanted variables follow one another, as far as an order of the store has their places in front.
pub fn triple_rows<'a, V: View>(
    view: &'a V,
    graph: Active,
    pattern: &PreparedTriple,
    row: Row,
    wanted: &[usize],
) -> TripleRows<'a>
    ensures { (p : TriplePattern) → pattern.now ≡ prepared_triple (V.content view.now).known p
        → Makes (V.content view.now).known
        (extensions p (active_graph (V.content view.now) (V.default_seen view.now) graph)) row
        result }
{
    content_is_lawful(view);
    let acts = acts_of(pattern, &row);
    let scan = scan_of(view, graph, pattern, &row, lead_of(&acts, wanted));
    TripleRows { scan, acts, row }
}

/// The rows that the stage of a triple pattern makes of the row, where `active` is the graph that is active (SPARQL 1.1 Query, 18.5), as
/// `triple_rows` gives them.
pub fn open_triple<'a, V: View>(
    view: &'a V,
    active: Active,
    look: PreparedLook,
    pattern: &PreparedTriple,
    row: Row,
    wanted: &[usize],
) -> TripleRows<'a>
    ensures { (place : Look) (p : TriplePattern) → look ≡ prepared_look (V.content view.now).known
        place
        → pattern.now ≡ prepared_triple (V.content view.now).known p
        → Makes (V.content view.now).known
        (λ m. extensions p
        (looked (V.content view.now).quads
        (active_graph (V.content view.now) (V.default_seen view.now) active) place m) m) row
        result }
{
    let graph = graph_of_look(view, look, &row, active);
    triple_rows(view, graph, pattern, row, wanted)
}
