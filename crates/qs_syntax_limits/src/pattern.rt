//! Group graph patterns.

ghost use Rattle.std.specs.Prelude.{◌≡◌, map};
ghost use Rattle.qs_syntax_limits.specs.Large as spec;
ghost use Rattle.qs_syntax_limits.specs.inner.Parts as part;

use crate::expression::in_expression;
use crate::place::{excess, first};
use crate::triples::in_triples;
use qs_syntax_tree::pattern::{Element, GraphPattern, Group};

/// The first place in a group at which there is too much.
#[cycle(group)]
pub fn in_group(group: &Group) -> Option<usize>
    ensures { result ≡ spec.excess (spec.group group.now) }
{
    in_elements(group.elements.as_slice())
}

#[cycle(group)]
#[tactic(auto, using(crate::proofs::Rows::of_row))]
fn in_elements(all: &[Element]) -> Option<usize>
    ensures { result ≡ spec.excess (spec.side_by_side (map part.element all.now)) }
{
    let mut found = excess(all);
    for element in all {
        found = first(found, in_graph_pattern(&element.pattern));
    }
    found
}

#[cycle(group)]
#[tactic(auto, using(crate::proofs::Rows::excess_none))]
fn in_graph_pattern(pattern: &GraphPattern) -> Option<usize>
    ensures { result ≡ spec.excess (part.graph_pattern pattern.now) }
{
    match pattern {
        GraphPattern::Triples(triples) => in_triples(triples.as_slice()),
        GraphPattern::Union(groups) => in_union(groups.as_slice()),
        GraphPattern::Optional(group)
        | GraphPattern::Minus(group)
        | GraphPattern::Graph(_, group) => { in_group(group) }
        GraphPattern::Filter(tree) | GraphPattern::Bind(tree, _) => in_expression(tree),
        GraphPattern::Values(_) => None,
    }
}

#[cycle(group)]
#[tactic(auto, using(crate::proofs::Rows::of_row))]
fn in_union(all: &[Group]) -> Option<usize>
    ensures { result ≡ spec.excess (spec.side_by_side (map part.group all.now)) }
{
    let mut found = excess(all);
    for group in all {
        found = first(found, in_group(group));
    }
    found
}
