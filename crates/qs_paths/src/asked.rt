//! What a path is asked for over a view.

ghost use Rattle.std.specs.Prelude.{◌≡◌, ◌⊎◌, List, IfNone, IfSome};
ghost use Rattle.std.specs.Option.{option_map};
ghost use Rattle.qs_terms.specs.declared.term.Term.{Term};
ghost use Rattle.qs_store.specs.inner.ActiveGraph.{active_graph};
ghost use Rattle.qs_paths_meaning.specs.Pairs as meaning;
ghost use Rattle.qs_expr.specs.inner.Cell.{FitsIf, denoted_if};
ghost use Rattle.qs_expr.specs.inner.Scratch.{IsTable};
ghost use Rattle.qs_paths.specs.inner.Coming.{HasFailed, IsEndTooFar, IsToCome};
ghost use Rattle.qs_paths.specs.inner.Nodes.{cell_of};
ghost use Rattle.qs_paths.specs.inner.Seen.{known_in};

use crate::node::node_of;
use crate::numbered::kept_numbers;
use crate::seen::{Seen, is_lawful};
use crate::state::{Request, State};
use crate::stream::Pairs;
use qs_expr::Cell;
use qs_store::{Active, View};
use qs_syntax_ast::path::Path;
use std::alloc::Global;

/// The number of an end, or none where it is past the greatest number.
fn number_of(end: Option<Cell>) -> Option<Option<u64>>
    ensures some { IfSome result (λ o. option_map cell_of o ≡ end) }
    ensures none { IfNone result (IsEndTooFar end) }
{
    match end {
        Some(cell) => {
            let node = node_of(cell)?;
            Some(Some(node))
        }
        None => Some(None),
    }
}

/// What is asked for of a path with these ends, or none where the number of an end is past the greatest.
fn requested<'a>(path: &'a Path, left: Option<Cell>, right: Option<Cell>) -> Option<Request<'a>>
    ensures none { IfNone result (IsEndTooFar left ⊎ IsEndTooFar right) }
    ensures some { IfSome result (λ q. (q.path.now ≡ path.now) × (option_map cell_of q.left ≡ left)
        × (option_map cell_of q.right ≡ right)) }
{
    let left = number_of(left)?;
    let right = number_of(right)?;
    Some(Request { path, left, right })
}

/// The pairs of nodes that the path leads between in the graph that is active over the view, each with these ends, in no promised order
/// (SPARQL 1.1 Query, 9 and 18.4). An end that is not given is open. Those of one IRI, of a negated set and of a closure with an end
/// given come as they are found. It takes no memory.
pub fn pairs<'a, V: View>(
    alloc: Global,
    view: &'a V,
    graph: Active,
    path: &'a Path,
    left: Option<Cell>,
    right: Option<Cell>,
) -> Pairs<'a, V>
    ensures asked { HasFailed result → IsEndTooFar left ⊎ IsEndTooFar right }
    ensures known { known_in V.content result.edges ≡ (V.content view.now).known }
    ensures pairs { (table : List Term) → IsTable (V.content view.now).known table
        → FitsIf (V.content view.now).known table left → FitsIf (V.content view.now).known table
        right
        → IsToCome V.content V.default_seen table result
        (meaning.pairs (active_graph (V.content view.now) (V.default_seen view.now) graph) path.now
        (denoted_if (V.content view.now).known table left)
        (denoted_if (V.content view.now).known table right)) }
{
    is_lawful(view);
    let kept = kept_numbers(view, path);
    let edges = Seen {
        view,
        active: graph,
        kept,
    };
    match requested(path, left, right) {
        Some(request) => Pairs {
            alloc,
            edges,
            request: Some(request),
            turned: false,
            state: State::Failed,
        },
        None => Pairs {
            alloc,
            edges,
            request: None,
            turned: false,
            state: State::Failed,
        },
    }
}
