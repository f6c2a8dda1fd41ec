//! The quads of INSERT DATA and DELETE DATA (SPARQL 1.1 Update, 3.1.1 and 3.1.2).
//!
//! They are the instances of the template of the blocks under the one solution, which binds nothing. Here they are made of the blocks,
//! without a template, and put into a list that may have others.

ghost use Rattle.std.specs.Prelude.{◌≡◌, ◌+◌, ◌^◌, ◌<◌, ◌++◌, ℕ, length, IfOk, OnOk};
ghost use Rattle.std.specs.List.{flat_map};
ghost use Rattle.qs_terms.specs.inner.OrOutOf.{WithOrOutOfMemory};
ghost use Rattle.qs_terms.specs.declared.fault.QFault.TheVariants.{Memory};
ghost use Rattle.qs_query_template.specs.inner.Instances as instances;
ghost use Rattle.qs_query_template.specs.inner.DataBlocks as spec;

use crate::blanks::{Blanks, blanks_of_blocks};
use crate::made::{fresh, quad_of};
use qs_syntax_ast::pattern::{Triple, Verb};
use qs_syntax_ast::term::{BlankNode, TermPattern, VarOrIri};
use qs_syntax_ast::update::QuadBlock;
use qs_terms::{QFault, Quad, Term};
use sqlite_items::Items;
use std::alloc::{AllocError, Global};

fn blank_term<'a>(blanks: &Blanks<'a>, first: u64, blank: &'a BlankNode) -> Option<Term>
    requires { first + length blanks.now < 2 ^ 64 }
    ensures { result ≡ spec.blank_term blanks.now first blank.now }
{
    match blanks.number(blank) {
        Some(number) => fresh(blanks.len(), first, number),
        None => fresh(blanks.len(), first, blanks.len()),
    }
}

// a subject or an object
fn node_term<'a>(
    blanks: &Blanks<'a>,
    first: u64,
    term: &'a TermPattern,
) -> Result<Option<Term>, AllocError>
    requires { first + length blanks.now < 2 ^ 64 }
    ensures { IfOk result (λ t. t ≡ spec.node_term blanks.now first term.now) }
{
    match term {
        TermPattern::Variable(_) => Ok(None),
        TermPattern::Iri(iri) => Ok(Some(Term::Iri(iri.try_clone()?))),
        TermPattern::Literal(literal) => Ok(Some(Term::Literal(literal.try_clone()?))),
        TermPattern::Blank(blank) => Ok(blank_term(blanks, first, blank)),
    }
}

fn verb_term(verb: &Verb) -> Result<Option<Term>, AllocError>
    ensures { IfOk result (λ t. t ≡ spec.verb_term verb.now) }
{
    match verb {
        Verb::Variable(_) => Ok(None),
        Verb::Iri(iri) => Ok(Some(Term::Iri(iri.try_clone()?))),
        Verb::Path(_) => Ok(None),
    }
}

fn graph_name(graph: &Option<VarOrIri>) -> Result<Option<Option<Term>>, AllocError>
    ensures { IfOk result (λ g. g ≡ spec.graph_name graph.now) }
{
    match graph {
        None => Ok(Some(None)),
        Some(VarOrIri::Variable(_)) => Ok(None),
        Some(VarOrIri::Iri(iri)) => Ok(Some(Some(Term::Iri(iri.try_clone()?)))),
    }
}

fn put_triple<'a>(
    blanks: &Blanks<'a>,
    first: u64,
    graph: &Option<VarOrIri>,
    triple: &'a Triple,
    quads: &mut Items<Quad>,
) -> Result<(), AllocError>
    requires { first + length blanks.now < 2 ^ 64 }
    ensures { OnOk result (quads.new ≡ quads.old ++ spec.triple_quads blanks.now first graph.now
        triple.now) }
{
    let graph = graph_name(graph)?;
    let subject = node_term(blanks, first, &triple.subject)?;
    let predicate = verb_term(&triple.verb)?;
    let object = node_term(blanks, first, &triple.object)?;
    match quad_of(graph, subject, predicate, object) {
        None => Ok(()),
        Some(quad) => quads.push(quad),
    }
}

fn put_block<'a>(
    blanks: &Blanks<'a>,
    first: u64,
    block: &'a QuadBlock,
    quads: &mut Items<Quad>,
) -> Result<(), AllocError>
    requires { first + length blanks.now < 2 ^ 64 }
    ensures { OnOk result (quads.new ≡ quads.old ++ spec.block_quads blanks.now first block.now) }
{
    for triple in block.triples.as_slice() {
        put_triple(blanks, first, &block.graph, triple, quads)?;
    }
    Ok(())
}

// Puts the quads of blocks after the others.
fn put_blocks<'a>(
    blanks: &Blanks<'a>,
    first: u64,
    blocks: &'a [QuadBlock],
    quads: &mut Items<Quad>,
) -> Result<(), AllocError>
    requires { first + length blanks.now < 2 ^ 64 }
    ensures { OnOk result (quads.new ≡ quads.old ++ flat_map (spec.block_quads blanks.now first)
        blocks.now) }
{
    for block in blocks {
        put_block(blanks, first, block, quads)?;
    }
    Ok(())
}

fn after_blanks(next: u64, blanks: usize) -> Result<u64, QFault>
    ensures { result ≡ instances.within (next + blanks) (next + blanks) }
{
    match next.checked_add(blanks as u64) {
        Some(after) => Ok(after),
        None => Err(QFault::Full),
    }
}

/// Puts the quads of INSERT DATA (SPARQL 1.1 Update, 3.1.1) after the others, in the order of the text, and returns the number after those
/// of their fresh blank nodes, which have the numbers from `next_blank` on. They are the instances of the template of the blocks under the
/// solution that binds nothing. A quad may stand there more than once.
///
/// # Errors
/// `QFault::Full` where the numbers of blank nodes don't suffice; `QFault::Memory` where memory runs out, which may leave some of the quads
/// after the others.
#[tactic(auto, using(crate::proofs::DataBlocks::inserted_ok, crate::proofs::DataBlocks::inserted_err))]
pub fn put_quads_to_insert(
    alloc: Global,
    blocks: &[QuadBlock],
    next_blank: u64,
    quads: &mut Items<Quad>,
) -> Result<u64, QFault>
    ensures { WithOrOutOfMemory Memory (spec.inserted quads.old blocks.now next_blank) result
        quads.new }
{
    let blanks = blanks_of_blocks(alloc, blocks)?;
    let after = after_blanks(next_blank, blanks.len())?;
    put_blocks(&blanks, next_blank, blocks, quads)?;
    Ok(after)
}

/// Puts the quads of DELETE DATA (SPARQL 1.1 Update, 3.1.2) after the others, in the order of the text. A triple with a blank node is left
/// out: by the grammar there is none. They are the instances of the template of the blocks under the solution that binds nothing, where it
/// takes no fresh blank nodes, whichever number is the next.
///
/// # Errors
/// `AllocError` where memory runs out, which may leave some of the quads after the others.
pub fn put_quads_to_delete(
    alloc: Global,
    blocks: &[QuadBlock],
    quads: &mut Items<Quad>,
) -> Result<(), AllocError>
    ensures { OnOk result ((next : ℕ) → quads.new ≡ quads.old ++ spec.deleted blocks.now next) }
{
    let blanks = Blanks::new(alloc);
    put_blocks(&blanks, 0, blocks, quads)
}
