//! The rows that a triple pattern makes of a row in all named graphs.

ghost use Rattle.std.specs.Prelude.{◌≡◌, ◌<◌, ◌≤◌, ℕ, true, false, None, Some, drop, length, IfSome, OnErr};
ghost use Rattle.std.specs.Iterator.{YieldsFirst};
ghost use Rattle.std.specs.List.{AllByRecursion, filter};
ghost use Rattle.qs_algebra_patterns.specs.declared.pattern.TriplePattern.{TriplePattern};
ghost use Rattle.qs_expr.specs.inner.Cell.{cell_at};
ghost use Rattle.qs_ops_scans.specs.inner.Each.{each_extension, each_joined, misses, place_misses};
ghost use Rattle.qs_ops_scans.specs.inner.Makes.{GivesFirst, Makes};
ghost use Rattle.qs_ops_scans.specs.inner.Prepared.{prepared_triple};
ghost use Rattle.qs_ops_scans.specs.inner.Opened.{givens};
ghost use Rattle.qs_ops_scans.specs.inner.Quads.{AreScanned, also_bound, is_narrow, quad_passes, triple_in};

use crate::bind::{bind_cell, bind_triple};
use crate::lawful::content_is_lawful;
use crate::opened::{Acts, acts_of, givens, leaves, passes};
use crate::pattern::{Place, PreparedTriple};
use qs_expr::{Cell, Row};
use qs_store::{NamedQuads, View};
use std::alloc::{AllocError, Global};
use std::marker::Model;

/// The rows that a triple pattern makes of a row in all named graphs and that are still to come, with the register holding the graph's
/// name; contracts see their list.
#[derive(Drop)]
pub struct QuadRows<'a> {
    scan: NamedQuads<'a>,
    acts: Acts,
    register: usize,
    variable: Option<usize>,
    row: Row,
}

impl<'a> Model for QuadRows<'a> {
    ghost use Rattle.std.specs.Prelude.{List, Option};
    ghost use Rattle.std.specs.List.{filter_map};
    ghost use Rattle.qs_expr.specs.declared.cell.Cell.{Cell};
    ghost use Rattle.qs_ops_scans.specs.inner.Quads.{quad_made};

    ghost Value = { List (List (Option Cell)) };

    ghost view = { λ q. filter_map (quad_made q.acts q.register q.variable q.row) q.scan };
}

#[inline(always)]
fn triple_in(quad: &[u32; 4]) -> [u32; 3]
    ensures { result ≡ triple_in quad.now }
{
    [quad[1], quad[2], quad[3]]
}

/// Binds the variable, if there is one, to the term of this number.
#[inline(always)]
fn bind_also(row: &mut Row, variable: Option<usize>, number: u32)
    ensures { row.new ≡ also_bound variable number row.old }
{
    if let Some(variable) = variable {
        bind_cell(row, variable, Cell::Known(number));
    }
}

/// Whether this variable is bound as well.
fn is_also(also: Option<usize>, variable: usize) -> bool
    ensures { result ≡ false → also ≡ Some variable → ⊥ }
{
    match also {
        Some(other) => other == variable,
        None => false,
    }
}

/// The next quad of the scan whose triple passes.
#[inline(always)]
fn next_quad(scan: &mut NamedQuads<'_>, acts: &Acts) -> Option<[u32; 4]>
    ensures { YieldsFirst (filter (quad_passes acts.now)) scan.old result scan.new }
{
    'quads: while let Some(quad) = scan.next() {
        if passes(acts, &triple_in(&quad)) {
            return Some(quad);
        }
    }
    None
}

impl<'a> QuadRows<'a> {
    /// The next row, or none where none is left.
    ///
    /// # Errors
    /// Out of memory, which takes one row away.
    #[inline(always)]
    #[tactic(auto, using(crate::proofs::Firsts::none_of_quads, crate::proofs::Firsts::first_of_quads, crate::proofs::Firsts::rest_of_quads))]
    pub fn next(&mut self, alloc: Global, spare: &mut Vec<Row>) -> Result<Option<Row>, AllocError>
        ensures gives { GivesFirst self.old result self.new }
        ensures refused { OnErr result (self.new ≡ drop 1 self.old) }
    {
        let Some(quad) = next_quad(&mut self.scan, &self.acts) else {
            return Ok(None);
        };
        let mut row = self.row.copy(alloc, spare)?;
        bind_triple(&mut row, &self.acts, &triple_in(&quad));
        bind_cell(&mut row, self.register, Cell::Known(quad[0]));
        bind_also(&mut row, self.variable, quad[0]);
        Ok(Some(row))
    }

    /// The cell that all rows have at the variable, if the row of which they are made has one there.
    pub fn common_cell(&self, variable: usize) -> Option<Cell>
        ensures { IfSome result (λ c. AllByRecursion (λ m. cell_at m variable ≡ Some c) self.now) }
    {
        if variable == self.register || is_also(self.variable, variable) {
            return None;
        }
        if !leaves(&self.acts, variable) {
            return None;
        }
        self.row.cell(variable)
    }

    /// The row of which the others were made, for its memory.
    pub fn into_row(self) -> Row {
        let QuadRows {
            scan: _,
            acts: _,
            register: _,
            variable: _,
            row,
        } = self;
        row
    }
}

fn place_misses(place: Place, register: usize) -> bool
    ensures { result ≡ place_misses register place }
{
    match place {
        Place::Variable(variable) => variable != register,
        _ => true,
    }
}

/// Whether no place of the pattern is this variable.
pub fn misses(pattern: &PreparedTriple, register: usize) -> bool
    ensures { result ≡ misses register pattern.now }
{
    place_misses(pattern.subject, register)
        && place_misses(pattern.predicate, register)
        && place_misses(pattern.object, register)
}

/// Whether a term of the pattern or a variable that the row binds is given to the scan, or a place has a term that the dictionary lacks:
/// then nothing is scanned.
pub fn gives_number(pattern: &PreparedTriple, row: &Row) -> bool
    ensures { result ≡ is_narrow (givens pattern.now row.now) }
{
    let Some(given) = givens(pattern, row) else {
        return true;
    };
    given.subject.is_some() || given.predicate.is_some() || given.object.is_some()
}

/// The quads of all named graphs that agree with the pattern and the row, as far as their numbers tell.
fn quads_of<'a, V: View>(view: &'a V, pattern: &PreparedTriple, row: &Row) -> NamedQuads<'a>
    ensures { AreScanned (V.content view.now) pattern.now row.now result }
{
    match givens(pattern, row) {
        Some(given) => view.scan_named(given.subject, given.predicate, given.object),
        None => NamedQuads::nothing(),
    }
}

/// The rows that the pattern makes of the row in each named graph, with the register holding the graph's name (SPARQL 1.1 Query, 18.6).
/// One scan of the quads of all named graphs finds them.
pub fn quad_rows<'a, V: View>(
    view: &'a V,
    register: usize,
    pattern: &PreparedTriple,
    row: Row,
) -> QuadRows<'a>
    requires apart { misses register pattern.now ≡ true }
    requires cell { register < length row }
    ensures { (p : TriplePattern) → pattern.now ≡ prepared_triple (V.content view.now).known p
        → Makes (V.content view.now).known (each_extension (V.content view.now).quads register p)
        row result }
{
    content_is_lawful(view);
    let acts = acts_of(pattern, &row);
    let scan = quads_of(view, pattern, &row);
    QuadRows {
        scan,
        acts,
        register,
        variable: None,
        row,
    }
}

/// The rows that the pattern makes of the row in each named graph, with the register and the variable holding the graph's name (SPARQL 1.1
/// Query, 18.6). One scan of the quads of all named graphs finds them. The row must not bind the variable, which is one of the `width` that
/// are named.
pub fn joined_quad_rows<'a, V: View>(
    view: &'a V,
    width: usize,
    variable: usize,
    register: usize,
    pattern: &PreparedTriple,
    row: Row,
) -> QuadRows<'a>
    requires apart { misses register pattern.now ≡ true }
    requires other { misses variable pattern.now ≡ true }
    requires cell { register < length row }
    requires named { variable < width }
    requires wide { width ≤ register }
    requires open { cell_at row variable ≡ None }
    ensures { (p : TriplePattern) → pattern.now ≡ prepared_triple (V.content view.now).known p
        → Makes (V.content view.now).known
        (each_joined (V.content view.now).quads width variable register p) row result }
{
    content_is_lawful(view);
    let acts = acts_of(pattern, &row);
    let scan = quads_of(view, pattern, &row);
    QuadRows {
        scan,
        acts,
        register,
        variable: Some(variable),
        row,
    }
}
