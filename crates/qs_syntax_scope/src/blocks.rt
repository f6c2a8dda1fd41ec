//! Variables and blank nodes where none may stand.

ghost use Rattle.std.specs.Prelude.{◌≡◌, not};
ghost use Rattle.std.specs.List.{list_any};
ghost use Rattle.qs_syntax_scope.specs.KeepsScope as spec;
ghost use Rattle.qs_syntax_scope.specs.inner.Variables as variables;
ghost use Rattle.qs_syntax_scope.specs.inner.Labels as labels;

use qs_syntax_ast::pattern::{Triple, Verb};
use qs_syntax_ast::term::{TermPattern, VarOrIri};
use qs_syntax_ast::update::QuadBlock;

fn triple_has_variable(triple: &Triple) -> bool
    ensures { result ≡ variables.triple_has_variable triple.now }
{
    matches!(triple.subject, TermPattern::Variable(_))
        || matches!(triple.verb, Verb::Variable(_))
        || matches!(&triple.object, TermPattern::Variable(_))
}

fn graph_is_variable(graph: &Option<VarOrIri>) -> bool
    ensures { result ≡ variables.graph_is_variable graph.now }
{
    matches!(graph, Some(VarOrIri::Variable(_)))
}

fn triples_have_variable(triples: &[Triple]) -> bool
    ensures { result ≡ list_any variables.triple_has_variable triples.now }
{
    triples.iter().any(triple_has_variable)
}

fn block_has_variable(block: &QuadBlock) -> bool
    ensures { result ≡ variables.block_has_variable block.now }
{
    graph_is_variable(&block.graph) || triples_have_variable(block.triples.as_slice())
}

fn have_variable(blocks: &[QuadBlock]) -> bool
    ensures { result ≡ list_any variables.block_has_variable blocks.now }
{
    blocks.iter().any(block_has_variable)
}

/// Whether no variable stands in the blocks, also as the name of a graph.
#[tactic(auto, using(crate::proofs::NoVariable::none_stands))]
pub fn have_no_variable(blocks: &[QuadBlock]) -> bool
    ensures { result ≡ spec.have_no_variable blocks.now }
{
    !have_variable(blocks)
}

fn triple_has_blank(triple: &Triple) -> bool
    ensures { result ≡ labels.triple_has_blank triple.now }
{
    matches!(triple.subject, TermPattern::Blank(_))
        || matches!(&triple.object, TermPattern::Blank(_))
}

fn block_has_blank(block: &QuadBlock) -> bool
    ensures { result ≡ labels.block_has_blank block.now }
{
    block.triples.as_slice().iter().any(triple_has_blank)
}

fn have_blank(blocks: &[QuadBlock]) -> bool
    ensures { result ≡ list_any labels.block_has_blank blocks.now }
{
    blocks.iter().any(block_has_blank)
}

/// Whether no blank node stands in the blocks.
pub fn have_no_blank(blocks: &[QuadBlock]) -> bool
    ensures { result ≡ spec.have_no_blank blocks.now }
{
    !have_blank(blocks)
}
