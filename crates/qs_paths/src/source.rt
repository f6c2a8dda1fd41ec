//! Where the edges of a graph come from, by numbers.

ghost use Rattle.std.specs.Prelude.{List, IfNone, IfOk, IfSome};
ghost use Rattle.qs_terms.specs.Dataset.{Triple};
ghost use Rattle.qs_terms.specs.Term.{same_term};
ghost use Rattle.qs_terms.specs.declared.term.Term.{Term};
ghost use Rattle.qs_terms.specs.declared.term.Term.TheVariants as term_is;
ghost use Rattle.qs_paths_meaning.specs.Steps.{along, is_outside};
ghost use Rattle.qs_paths.specs.inner.Nodes.{ArePairs, IsApartFrom, IsNodeOrOpen, TellsNode};

use crate::node::NodePair;
use qs_syntax_ast::path::NegatedIri;
use qs_terms::Iri;
use std::alloc::{AllocError, Global};

/// A graph whose edges are found by the numbers of the nodes at their ends.
pub trait Source {
    ghost graph: { Self → List Triple };

    ghost known: { Self → List Term };

    /// One pair for each triple with this predicate and these ends, as far as they are given. They come in no promised order.
    fn along(
        &self,
        alloc: Global,
        predicate: &Iri,
        left: Option<u64>,
        right: Option<u64>,
    ) -> Result<Vec<NodePair>, AllocError>
        ensures { IfOk result
            (λ ps. ArePairs (known self.now)
            (along (same_term (term_is.Iri predicate.now)) (graph self.now)) left right
            ps.items) };

    /// One pair for each triple with these ends whose predicate none of the members of this direction names.
    fn outside(
        &self,
        alloc: Global,
        members: &[NegatedIri],
        inverse: bool,
        left: Option<u64>,
        right: Option<u64>,
    ) -> Result<Vec<NodePair>, AllocError>
        ensures { IfOk result
            (λ ps. ArePairs (known self.now)
            (along (is_outside inverse members.now) (graph self.now)) left right ps.items) };

    /// Whether the number names a node of the graph: the subject or the object of a triple.
    fn has_node(&self, node: u64) -> bool
        ensures { TellsNode (known self.now) (graph self.now) node result };
}

/// Returns the left end that a path to `end` is read with where it follows a pair that ends at `number`: the number, where it names a
/// node of the graph, else an open end. Returns none where no pair of the path begins at `number`: what isn't a node is led to itself
/// alone, by no step, and only where it is given as the end.
pub fn middle<E: Source>(edges: &E, number: u64, end: Option<u64>) -> Option<Option<u64>>
    ensures some { IfSome result
        (λ o. IsNodeOrOpen (E.known edges.now) (E.graph edges.now) number o) }
    ensures none { IfNone result
        (IsApartFrom (E.known edges.now) (E.graph edges.now) number end) }
{
    if edges.has_node(number) {
        return Some(Some(number));
    }
    if end == Some(number) {
        Some(None)
    } else {
        None
    }
}
