//! Triples, in patterns and in templates.

ghost use Rattle.std.specs.Prelude.{◌≡◌, map};
ghost use Rattle.std.specs.List.{flat_map};
ghost use Rattle.qs_syntax_limits.specs.Large as spec;
ghost use Rattle.qs_syntax_limits.specs.inner.Parts as part;

use crate::path::in_path;
use crate::place::first;
use qs_syntax_tree::path::Verb;
use qs_syntax_tree::triples::{GraphNode, Property, TriplesSameSubject};

#[tactic(auto, using(crate::proofs::Rows::excess_none))]
fn in_verb(verb: &Verb) -> Option<usize>
    ensures { result ≡ spec.excess (spec.verb verb.now) }
{
    match verb {
        Verb::Var(_) => None,
        Verb::Path(path) => in_path(path),
    }
}

#[cycle(triples)]
#[tactic(auto, using(crate::proofs::Rows::excess_none))]
fn in_graph_node(node: &GraphNode) -> Option<usize>
    ensures { result ≡ spec.excess (spec.graph_node node.now) }
{
    match node {
        GraphNode::Term(_) => None,
        GraphNode::BlankNodePropertyList(properties) => in_properties(properties.as_slice()),
    }
}

#[cycle(triples)]
#[tactic(auto, using(crate::proofs::Rows::of_each))]
fn in_graph_nodes(all: &[GraphNode]) -> Option<usize>
    ensures { result ≡ spec.excess (flat_map (λ rows. rows) (map spec.graph_node all.now)) }
{
    let mut found = None;
    for node in all {
        found = first(found, in_graph_node(node));
    }
    found
}

#[cycle(triples)]
#[tactic(auto, using(crate::proofs::Rows::excess_append))]
fn in_property(property: &Property) -> Option<usize>
    ensures { result ≡ spec.excess (spec.property property.now) }
{
    first(
        in_verb(&property.verb),
        in_graph_nodes(property.objects.as_slice()),
    )
}

#[cycle(triples)]
#[tactic(auto, using(crate::proofs::Rows::of_each))]
fn in_properties(all: &[Property]) -> Option<usize>
    ensures { result ≡ spec.excess (flat_map (λ rows. rows) (map spec.property all.now)) }
{
    let mut found = None;
    for property in all {
        found = first(found, in_property(property));
    }
    found
}

#[tactic(auto, using(crate::proofs::Rows::excess_append, crate::proofs::Rows::joined))]
fn in_same_subject(triples: &TriplesSameSubject) -> Option<usize>
    ensures { result ≡ spec.excess (part.same_subject triples.now) }
{
    first(
        in_graph_node(&triples.subject),
        in_properties(triples.properties.as_slice()),
    )
}

/// The first place in triples at which a path has too many operands.
#[tactic(auto, using(crate::proofs::Rows::from_none))]
pub fn in_triples(all: &[TriplesSameSubject]) -> Option<usize>
    ensures { result ≡ spec.excess (spec.triples all.now) }
{
    let mut found = None;
    for triples in all {
        found = first(found, in_same_subject(triples));
    }
    found
}
