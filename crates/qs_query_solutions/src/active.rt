//! The graph that is read.

ghost use Rattle.std.specs.Prelude.{◌≡◌};
ghost use Rattle.std.specs.Option.{option_copied};
ghost use Rattle.qs_terms.specs.Dataset.{graph_of};
ghost use Rattle.qs_store.specs.inner.ActiveGraph.{active_graph};
ghost use Rattle.qs_store.specs.inner.Visible.{visible_quads};

use qs_store::{Active, View};
use qs_terms::Term;

/// The graph of this name, or the default graph where none is given (SPARQL 1.1 Query, 13.3). The graph of an unknown name is empty.
pub fn active_of<V: View>(view: &V, name: Option<&Term>) -> Active
    ensures { active_graph (V.content view.now) (V.default_seen view.now) result ≡ graph_of
        (visible_quads (V.content view.now) (V.default_seen view.now)) (option_copied name.entry) }
{
    let _count = view.count();
    let _terms = view.terms();
    let Some(name) = name else {
        return Active::Default;
    };
    match view.find(name) {
        Some(number) => Active::Graph(number),
        None => Active::Empty,
    }
}
