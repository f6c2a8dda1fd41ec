//! Whether a term is a node of a graph.

ghost use Rattle.std.specs.Prelude.{◌≡◌, ◌<◌, ◌^◌, length};
ghost use Rattle.qs_store.specs.inner.ActiveGraph.{active_graph};
ghost use Rattle.qs_expr.specs.declared.cell.Cell.TheVariants as cell_is;
ghost use Rattle.qs_ops_scans.specs.inner.Given.{TellsNode};

use crate::lawful::content_is_lawful;
use qs_expr::Cell;
use qs_store::{Active, View};

/// The numbers of terms fit 4 bytes.
fn numbers_are_few<V: View>(view: &V)
    ensures { length (V.content view.now).known < 2 ^ 32 }
{
    let _terms = view.terms();
}

/// Whether a triple begins or ends at the term with this number.
fn is_known_node<V: View>(view: &V, graph: Active, number: u32) -> bool
    ensures { TellsNode (V.content view.now).known
        (active_graph (V.content view.now) (V.default_seen view.now) graph) (cell_is.Known number)
        result }
{
    content_is_lawful(view);
    numbers_are_few(view);
    let mut from = view.scan(graph, Some(number), None, None);
    if from.next().is_some() {
        return true;
    }
    let mut to = view.scan(graph, None, None, Some(number));
    to.next().is_some()
}

/// Whether a triple of the graph begins or ends at the term of the cell. No triple has a term that the dictionary lacks.
pub(crate) fn is_node<V: View>(view: &V, graph: Active, cell: Cell) -> bool
    ensures { TellsNode (V.content view.now).known
        (active_graph (V.content view.now) (V.default_seen view.now) graph) cell result }
{
    content_is_lawful(view);
    match cell {
        Cell::Known(number) => is_known_node(view, graph, number),
        Cell::Scratch(_) => false,
    }
}
