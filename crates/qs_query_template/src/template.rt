//! Templates of quads, with their variables and blank nodes as numbers.

ghost use Rattle.std.specs.Prelude.{◌≡◌, ◌++◌, IfOk, OnOk};
ghost use Rattle.std.specs.List.{flat_map};
ghost use Rattle.qs_query_template.specs.Template as spec;
ghost use Rattle.qs_query_template.specs.inner.Template as inner;
ghost use Rattle.qs_query_template.specs.declared.template.Slot.TheVariants as slot;
ghost use Rattle.qs_terms.specs.declared.term.Term.TheVariants as value;

use crate::blanks::{Blanks, blanks_of, blanks_of_blocks};
use qs_base::Shared;
use qs_syntax_ast::pattern::{Triple, Verb};
use qs_syntax_ast::term::{BlankNode, TermPattern, VarOrIri};
use qs_syntax_ast::update::QuadBlock;
use qs_syntax_scope::NameList;
use qs_terms::{Iri, Lit, Term};
use sqlite_items::Items;
use std::alloc::{AllocError, Global};

/// A place of a quad in a template.
#[derive(Drop)]
pub enum Slot {
    /// A variable, by its number.
    Variable(usize),
    Term(Shared<Term>),
    /// A blank node, by its number among those of the template: a fresh one for each solution.
    Blank(usize),
}

/// A quad with variables and blank nodes.
#[derive(Drop)]
pub struct QuadTemplate {
    /// None is the default graph.
    pub graph: Option<Slot>,
    pub subject: Slot,
    pub predicate: Slot,
    pub object: Slot,
}

/// Quads with variables and blank nodes.
#[derive(Drop)]
pub struct Template {
    /// In the order of the text.
    pub quads: Items<QuadTemplate>,
    /// How many fresh blank nodes each solution takes.
    pub blanks: usize,
}

impl Slot {
    // the same one; its term isn't copied
    pub(crate) fn share(&self) -> Result<Slot, AllocError>
        ensures { IfOk result (λ s. s ≡ self.now) }
    {
        match self {
            Slot::Variable(number) => Ok(Slot::Variable(*number)),
            Slot::Term(term) => Ok(Slot::Term(term.share()?)),
            Slot::Blank(number) => Ok(Slot::Blank(*number)),
        }
    }
}

pub(crate) fn iri_slot(alloc: Global, iri: &Iri) -> Result<Slot, AllocError>
    ensures { IfOk result (λ s. s ≡ slot.Term (value.Iri iri.now)) }
{
    let iri = Term::Iri(iri.try_clone()?);
    Ok(Slot::Term(Shared::new(alloc, iri)?))
}

fn literal_slot(alloc: Global, literal: &Lit) -> Result<Slot, AllocError>
    ensures { IfOk result (λ s. s ≡ slot.Term (value.Literal literal.now)) }
{
    let literal = Term::Literal(literal.try_clone()?);
    Ok(Slot::Term(Shared::new(alloc, literal)?))
}

fn blank_slot<'a>(blanks: &Blanks<'a>, blank: &'a BlankNode) -> Slot
    ensures { result ≡ inner.blank_slot blanks.now blank.now }
{
    match blanks.number(blank) {
        Some(number) => Slot::Blank(number),
        None => Slot::Blank(blanks.len()),
    }
}

fn term_slot<'a>(
    alloc: Global,
    names: &NameList<'a>,
    blanks: &Blanks<'a>,
    term: &'a TermPattern,
) -> Result<Slot, AllocError>
    ensures { IfOk result (λ s. s ≡ spec.term_slot names.now blanks.now term.now) }
{
    match term {
        TermPattern::Variable(variable) => Ok(Slot::Variable(names.place(variable.text()))),
        TermPattern::Iri(iri) => iri_slot(alloc, iri),
        TermPattern::Literal(literal) => literal_slot(alloc, literal),
        TermPattern::Blank(blank) => Ok(blank_slot(blanks, blank)),
    }
}

fn verb_slot<'a>(
    alloc: Global,
    names: &NameList<'a>,
    verb: &'a Verb,
) -> Result<Option<Slot>, AllocError>
    ensures { IfOk result (λ s. s ≡ spec.verb_slot names.now verb.now) }
{
    match verb {
        Verb::Variable(variable) => Ok(Some(Slot::Variable(names.place(variable.text())))),
        Verb::Iri(iri) => Ok(Some(iri_slot(alloc, iri)?)),
        Verb::Path(_) => Ok(None),
    }
}

fn graph_slot<'a>(
    alloc: Global,
    names: &NameList<'a>,
    graph: &'a Option<VarOrIri>,
) -> Result<Option<Slot>, AllocError>
    ensures { IfOk result (λ s. s ≡ spec.graph_slot names.now graph.now) }
{
    match graph {
        None => Ok(None),
        Some(VarOrIri::Variable(variable)) => {
            Ok(Some(Slot::Variable(names.place(variable.text()))))
        }
        Some(VarOrIri::Iri(iri)) => Ok(Some(iri_slot(alloc, iri)?)),
    }
}

fn shared_graph(graph: &Option<Slot>) -> Result<Option<Slot>, AllocError>
    ensures { IfOk result (λ g. g ≡ graph.now) }
{
    match graph {
        None => Ok(None),
        Some(slot) => Ok(Some(slot.share()?)),
    }
}

// a quad template with its predicate
fn quad_with<'a>(
    alloc: Global,
    names: &NameList<'a>,
    blanks: &Blanks<'a>,
    graph: &Option<Slot>,
    triple: &'a Triple,
    predicate: Slot,
) -> Result<QuadTemplate, AllocError>
    ensures { IfOk result
        (λ q. q ≡ record {
          graph = graph.now;
          subject = spec.term_slot names.now blanks.now
              triple.now.subject;
          predicate = predicate;
          object =
              spec.term_slot names.now blanks.now triple.now.object;
        }) }
{
    let graph = shared_graph(graph)?;
    let subject = term_slot(alloc, names, blanks, &triple.subject)?;
    let object = term_slot(alloc, names, blanks, &triple.object)?;
    Ok(QuadTemplate {
        graph,
        subject,
        predicate,
        object,
    })
}

// Puts the quad of a triple after the others.
fn put_triple<'a>(
    alloc: Global,
    names: &NameList<'a>,
    blanks: &Blanks<'a>,
    graph: &Option<Slot>,
    triple: &'a Triple,
    quads: &mut Items<QuadTemplate>,
) -> Result<(), AllocError>
    ensures { OnOk result (quads.new ≡ quads.old ++ spec.triple_quads names.now blanks.now graph.now
        triple.now) }
{
    match verb_slot(alloc, names, &triple.verb)? {
        None => Ok(()),
        Some(predicate) => {
            let quad = quad_with(alloc, names, blanks, graph, triple, predicate)?;
            quads.push(quad)
        }
    }
}

fn put_triples<'a>(
    alloc: Global,
    names: &NameList<'a>,
    blanks: &Blanks<'a>,
    graph: &Option<Slot>,
    triples: &'a [Triple],
    quads: &mut Items<QuadTemplate>,
) -> Result<(), AllocError>
    ensures { OnOk result
        (quads.new ≡ quads.old ++ flat_map (spec.triple_quads names.now blanks.now graph.now)
        triples.now) }
{
    for triple in triples {
        put_triple(alloc, names, blanks, graph, triple, quads)?;
    }
    Ok(())
}

fn put_block<'a>(
    alloc: Global,
    names: &NameList<'a>,
    blanks: &Blanks<'a>,
    block: &'a QuadBlock,
    quads: &mut Items<QuadTemplate>,
) -> Result<(), AllocError>
    ensures { OnOk result (quads.new ≡ quads.old ++ spec.block_quads names.now blanks.now
        block.now) }
{
    let graph = graph_slot(alloc, names, &block.graph)?;
    put_triples(
        alloc,
        names,
        blanks,
        &graph,
        block.triples.as_slice(),
        quads,
    )
}

fn put_blocks<'a>(
    alloc: Global,
    names: &NameList<'a>,
    blanks: &Blanks<'a>,
    blocks: &'a [QuadBlock],
    quads: &mut Items<QuadTemplate>,
) -> Result<(), AllocError>
    ensures { OnOk result (quads.new ≡ quads.old ++ flat_map (spec.block_quads names.now blanks.now)
        blocks.now) }
{
    for block in blocks {
        put_block(alloc, names, blanks, block, quads)?;
    }
    Ok(())
}

/// The template of a CONSTRUCT, by its triples (SPARQL 1.1 Query, 16.2). The number of a variable is its place among the names. Blank
/// nodes, with a label or without one, are numbered from 0 by first appearance. A triple whose verb is a path is left out.
#[tactic(auto, using(crate::proofs::OneBlock::one_block))]
pub fn template_of<'a>(
    alloc: Global,
    names: &NameList<'a>,
    triples: &'a [Triple],
) -> Result<Template, AllocError>
    ensures { IfOk result (λ t. t ≡ spec.template_of names.now triples.now) }
{
    let blanks = blanks_of(alloc, triples)?;
    let mut quads = Items::new(alloc);
    put_triples(alloc, names, &blanks, &None, triples, &mut quads)?;
    let blanks = blanks.len();
    Ok(Template { quads, blanks })
}

/// The template of an update, by its blocks of triples, each in a graph (SPARQL 1.1 Update, 3.1.3). Variables and blank nodes are
/// numbered as in `template_of`.
pub fn template_of_blocks<'a>(
    alloc: Global,
    names: &NameList<'a>,
    blocks: &'a [QuadBlock],
) -> Result<Template, AllocError>
    ensures { IfOk result (λ t. t ≡ spec.template_of_blocks names.now blocks.now) }
{
    let blanks = blanks_of_blocks(alloc, blocks)?;
    let mut quads = Items::new(alloc);
    put_blocks(alloc, names, &blanks, blocks, &mut quads)?;
    let blanks = blanks.len();
    Ok(Template { quads, blanks })
}
