//! The graph in which a triple pattern or a path looks.

ghost use Rattle.std.specs.Prelude.{◌≡◌};
ghost use Rattle.qs_ops_scans.specs.inner.Prepared.{graph_by, graph_of_cell, named_look, prepared_look, IsGraphOf};

use crate::lawful::content_is_lawful;
use qs_expr::{Cell, Row};
use qs_plan_meaning::Look;
use qs_store::{Active, View};

/// Where a triple pattern or a path looks, by the number of the graph's name.
#[derive(Clone, Copy)]
pub enum PreparedLook {
    /// In the graph that is active where the plan is evaluated.
    Active,
    /// In the graph whose name has this number. It has no triples where no quad is in it.
    Graph(u32),
    /// In a graph whose name the dictionary lacks: it has no triples.
    Unknown,
    /// In the graph whose name this register of the row holds.
    Register(usize),
}

fn named_look(number: Option<u32>) -> PreparedLook
    ensures { result ≡ named_look number }
{
    match number {
        Some(number) => PreparedLook::Graph(number),
        None => PreparedLook::Unknown,
    }
}

/// Where the stage looks, by the number that the dictionary of the view has for the graph's name.
pub fn prepare_look<V: View>(view: &V, look: &Look) -> PreparedLook
    ensures { result ≡ prepared_look (V.content view.now).known look.now }
{
    match look {
        Look::Active => PreparedLook::Active,
        Look::Named(name) => named_look(view.find(name.get())),
        Look::Register(register) => PreparedLook::Register(*register),
    }
}

/// The graph whose name the cell denotes.
fn graph_of_cell(cell: Option<Cell>) -> Active
    ensures { result ≡ graph_of_cell cell }
{
    match cell {
        Some(Cell::Known(number)) => Active::Graph(number),
        _ => Active::Empty,
    }
}

fn graph_by(look: PreparedLook, row: &Row, active: Active) -> Active
    ensures { result ≡ graph_by look row.now active }
{
    match look {
        PreparedLook::Active => active,
        PreparedLook::Graph(number) => Active::Graph(number),
        PreparedLook::Unknown => Active::Empty,
        PreparedLook::Register(register) => graph_of_cell(row.cell(register)),
    }
}

/// The graph in which the stage looks for the row, where `active` is the graph that is active (SPARQL 1.1 Query, 18.6).
pub fn graph_of_look<V: View>(view: &V, look: PreparedLook, row: &Row, active: Active) -> Active
    ensures { IsGraphOf (V.content view.now) (V.default_seen view.now) look row.now active result }
{
    content_is_lawful(view);
    graph_by(look, row, active)
}
