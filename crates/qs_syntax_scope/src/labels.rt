//! The labels of blank nodes in triples.

ghost use Rattle.std.specs.Prelude.{◌≡◌, OnOk};
ghost use Rattle.std.specs.List.{fold, flat_map};
ghost use Rattle.qs_syntax_scope.specs.Labels as spec;
ghost use Rattle.qs_syntax_scope.specs.inner.Labels.{block_labels};
ghost use Rattle.qs_syntax_scope.specs.inner.Met.{add_run, add_label};

use crate::met::Met;
use qs_syntax_ast::pattern::Triple;
use qs_syntax_ast::term::{BlankNode, TermPattern};
use qs_syntax_ast::update::QuadBlock;
use std::alloc::AllocError;

fn add_term<'a>(met: &mut Met<'a>, start: usize, term: &'a TermPattern) -> Result<(), AllocError>
    ensures { OnOk result (met.new ≡ fold (add_label start) met.old (spec.term_labels term.now)) }
{
    match term {
        TermPattern::Blank(BlankNode::Label(label)) => met.add_label(start, label),
        _ => Ok(()),
    }
}

fn add_triple<'a>(met: &mut Met<'a>, start: usize, triple: &'a Triple) -> Result<(), AllocError>
    ensures { OnOk result
        (met.new ≡ fold (add_label start) met.old (spec.triple_labels triple.now)) }
{
    add_term(met, start, &triple.subject)?;
    add_term(met, start, &triple.object)
}

/// The labels of triples, in the run that began at the place.
fn add_triples<'a>(met: &mut Met<'a>, start: usize, triples: &'a [Triple]) -> Result<(), AllocError>
    ensures { OnOk result
        (met.new ≡ fold (add_label start) met.old (flat_map spec.triple_labels triples.now)) }
{
    for triple in triples {
        add_triple(met, start, triple)?;
    }
    Ok(())
}

/// The labels of a run of triples, of which none may stand in a run before it.
#[tactic(auto, using(crate::proofs::AddedLabels::labels_are_run))]
pub fn add_run<'a>(met: &mut Met<'a>, triples: &'a [Triple]) -> Result<(), AllocError>
    ensures { OnOk result (met.new ≡ add_run met.old (flat_map spec.triple_labels triples.now)) }
{
    let start = met.names.len();
    add_triples(met, start, triples)
}

fn add_block<'a>(met: &mut Met<'a>, start: usize, block: &'a QuadBlock) -> Result<(), AllocError>
    ensures { OnOk result (met.new ≡ fold (add_label start) met.old (block_labels block.now)) }
{
    add_triples(met, start, block.triples.as_slice())
}

fn add_each_block<'a>(
    met: &mut Met<'a>,
    start: usize,
    blocks: &'a [QuadBlock],
) -> Result<(), AllocError>
    ensures { OnOk result
        (met.new ≡ fold (add_label start) met.old (flat_map block_labels blocks.now)) }
{
    for block in blocks {
        add_block(met, start, block)?;
    }
    Ok(())
}

/// The labels of an INSERT DATA, of which none may stand in one before it.
#[tactic(auto, using(crate::proofs::AddedLabels::labels_are_run))]
pub fn add_blocks<'a>(met: &mut Met<'a>, blocks: &'a [QuadBlock]) -> Result<(), AllocError>
    ensures { OnOk result (met.new ≡ add_run met.old (flat_map block_labels blocks.now)) }
{
    let start = met.names.len();
    add_each_block(met, start, blocks)
}
