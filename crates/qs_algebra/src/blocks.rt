//! The patterns of DELETE WHERE (SPARQL 1.1 Update, 3.1.3.3).

ghost use Rattle.std.specs.Prelude.{◌≡◌, map, IfOk, IfErr};
ghost use Rattle.qs_terms.specs.declared.fault.QFault.TheVariants.{Memory};
ghost use Rattle.qs_syntax_scope.specs.Firsts as first;
ghost use Rattle.qs_algebra.specs.Translation as spec;

use crate::basic::basic_pattern;
use crate::query::named;
use crate::translation::{in_graph, unfiltered};
use qs_algebra_patterns::{Pattern, PatternNode, Step};
use qs_syntax_ast::term::{VarOrIri, Variable};
use qs_syntax_ast::update::QuadBlock;
use qs_syntax_scope::{NameList, number_names};
use qs_terms::QFault;
use sqlite_items::Items;
use std::alloc::{AllocError, Global};

fn in_block<'a>(
    alloc: Global,
    names: &NameList<'a>,
    graph: &'a Option<VarOrIri>,
    part: PatternNode,
) -> Result<PatternNode, AllocError>
    ensures { IfOk result (λ p. p ≡ spec.in_graph names.now graph.now part) }
{
    match graph {
        None => Ok(part),
        Some(name) => in_graph(alloc, names, name, part),
    }
}

fn block_step<'a>(
    alloc: Global,
    names: &NameList<'a>,
    block: &'a QuadBlock,
) -> Result<Step, AllocError>
    ensures { IfOk result (λ s. s ≡ spec.block_step names.now block.now) }
{
    let basic = basic_pattern(alloc, names, block.triples.as_slice())?;
    let part = in_block(alloc, names, &block.graph, PatternNode::Basic(basic))?;
    Ok(Step::Join(part))
}

fn block_steps<'a>(
    alloc: Global,
    names: &NameList<'a>,
    blocks: &'a [QuadBlock],
) -> Result<Items<Step>, AllocError>
    ensures { IfOk result (λ steps. steps ≡ map (spec.block_step names.now) blocks.now) }
{
    let mut steps = Items::new(alloc);
    for block in blocks {
        let step = block_step(alloc, names, block)?;
        steps.push(step)?;
    }
    Ok(steps)
}

fn blocks_pattern(
    alloc: Global,
    variables: &[Variable],
    blocks: &[QuadBlock],
) -> Result<PatternNode, AllocError>
    ensures { IfOk result
        (λ p. p ≡ spec.unfiltered
        (map (spec.block_step (first.names_of variables.now)) blocks.now)) }
{
    let names = number_names(alloc, variables)?;
    let steps = block_steps(alloc, &names, blocks)?;
    unfiltered(alloc, steps)
}

/// The pattern of a DELETE WHERE, whose blocks of triples are its template and its pattern, with the variables of the text.
///
/// # Errors
/// `QFault::Memory` where memory runs out; no other fault.
pub fn translate_blocks(
    alloc: Global,
    variables: &[Variable],
    blocks: &[QuadBlock],
) -> Result<Pattern, QFault>
    ensures pattern { IfOk result (λ p. p ≡ spec.translated_blocks variables.now blocks.now) }
    ensures memory { IfErr result (λ fault. fault ≡ Memory) }
{
    let pattern = blocks_pattern(alloc, variables, blocks)?;
    let named = named(alloc, variables, pattern)?;
    Ok(named)
}
