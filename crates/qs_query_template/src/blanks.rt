//! The blank nodes of a template, numbered from 0 by first appearance.

ghost use Rattle.std.specs.Prelude.{◌≡◌, [], ◌∷◌, ◌++◌, length, None, IfOk, OnOk};
ghost use Rattle.std.specs.List.{fold};
ghost use Rattle.qs_syntax_ast.specs.declared.term.BlankNode.TheVariants.{Label, Anonymous};
ghost use Rattle.qs_query_template.specs.Blanks as spec;
ghost use Rattle.qs_query_template.specs.inner.Blanks.{triples_blanks, firsts};

use qs_syntax_ast::pattern::Triple;
use qs_syntax_ast::term::{BlankNode, TermPattern};
use qs_syntax_ast::update::QuadBlock;
use qs_terms::Text;
use std::alloc::{AllocError, Global};
use std::collections::BTreeMap;
use std::marker::Model;

/// Blank nodes in the order in which they first appeared, each once, and their numbers.
#[derive(Drop)]
pub struct Blanks<'a> {
    nodes: Vec<&'a BlankNode>,
    labels: BTreeMap<&'a Text, usize>,
    anonymous: BTreeMap<usize, usize>,
}

impl<'a> Model for Blanks<'a> {
    ghost use Rattle.std.specs.Prelude.{List};
    ghost use Rattle.std.specs.BTreeMap.{get};
    ghost use Rattle.std.specs.Ordering.{nat_cmp};
    ghost use Rattle.qs_syntax_ast.specs.declared.term.BlankNode.{BlankNode};
    ghost use Rattle.qs_query_template.specs.inner.Lent.{lent};
    ghost use Rattle.qs_query_template.specs.inner.Numbered.{by_text, AreNumbered};

    ghost Value = { List BlankNode };

    ghost view = { λ b. lent b.nodes.items };

    ghost invariant = { λ b. AreNumbered (lent b.nodes.items) (get by_text b.labels) (get nat_cmp b.anonymous) };
}

impl<'a> Blanks<'a> {
    pub fn new(alloc: Global) -> Blanks<'a>
        ensures { result ≡ [] }
    {
        Blanks {
            nodes: Vec::new(alloc),
            labels: BTreeMap::new(alloc),
            anonymous: BTreeMap::new(alloc),
        }
    }

    pub fn len(&self) -> usize
        ensures { result ≡ length self.now }
    {
        self.nodes.len()
    }

    /// The number of the blank node, where it appeared.
    pub fn number(&self, blank: &'a BlankNode) -> Option<usize>
        ensures { result ≡ spec.number_in self.now blank.now }
    {
        match blank {
            BlankNode::Label(label) => {
                let text = label.get();
                self.labels.get(&text).copied()
            }
            BlankNode::Anonymous(place) => self.anonymous.get(place).copied(),
        }
    }

    fn put_label(
        &mut self,
        blank: &'a BlankNode,
        label: &'a Text,
        number: usize,
    ) -> Result<(), AllocError>
        requires label { blank.now ≡ Label label.now }
        requires new { spec.number_in self.old blank.now ≡ None }
        requires number { number ≡ length self.old }
        ensures { OnOk result (self.new ≡ self.old ++ blank.now ∷ []) }
    {
        self.nodes.push(blank)?;
        match self.labels.insert(label, number) {
            Ok(_) => Ok(()),
            Err(_) => {
                self.nodes.pop();
                Err(AllocError)
            }
        }
    }

    fn put_anonymous(
        &mut self,
        blank: &'a BlankNode,
        place: usize,
        number: usize,
    ) -> Result<(), AllocError>
        requires place { blank.now ≡ Anonymous place }
        requires new { spec.number_in self.old blank.now ≡ None }
        requires number { number ≡ length self.old }
        ensures { OnOk result (self.new ≡ self.old ++ blank.now ∷ []) }
    {
        self.nodes.push(blank)?;
        match self.anonymous.insert(place, number) {
            Ok(_) => Ok(()),
            Err(_) => {
                self.nodes.pop();
                Err(AllocError)
            }
        }
    }

    // one more, which isn't among them
    fn put(&mut self, blank: &'a BlankNode) -> Result<(), AllocError>
        requires { spec.number_in self.old blank.now ≡ None }
        ensures { OnOk result (self.new ≡ self.old ++ blank.now ∷ []) }
    {
        let number = self.len();
        match blank {
            BlankNode::Label(label) => self.put_label(blank, label.get(), number),
            BlankNode::Anonymous(place) => self.put_anonymous(blank, *place, number),
        }
    }

    #[tactic(auto, unfolding(crate::specs::Blanks::add_blank))]
    fn add(&mut self, blank: &'a BlankNode) -> Result<(), AllocError>
        ensures { OnOk result (self.new ≡ spec.add_blank self.old blank.now) }
    {
        match self.number(blank) {
            Some(_) => Ok(()),
            None => self.put(blank),
        }
    }

    fn add_term(&mut self, term: &'a TermPattern) -> Result<(), AllocError>
        ensures { OnOk result
            (self.new ≡ fold spec.add_blank self.old (spec.term_blanks term.now)) }
    {
        match term {
            TermPattern::Blank(blank) => self.add(blank),
            _ => Ok(()),
        }
    }

    fn add_triple(&mut self, triple: &'a Triple) -> Result<(), AllocError>
        ensures { OnOk result
            (self.new ≡ fold spec.add_blank self.old (spec.triple_blanks triple.now)) }
    {
        self.add_term(&triple.subject)?;
        self.add_term(&triple.object)
    }

    fn add_triples(&mut self, triples: &'a [Triple]) -> Result<(), AllocError>
        ensures { OnOk result
            (self.new ≡ fold spec.add_blank self.old (triples_blanks triples.now)) }
    {
        for triple in triples {
            self.add_triple(triple)?;
        }
        Ok(())
    }
}

/// The blank nodes of the triples.
pub fn blanks_of<'a>(alloc: Global, triples: &'a [Triple]) -> Result<Blanks<'a>, AllocError>
    ensures { IfOk result (λ blanks. blanks ≡ firsts (triples_blanks triples.now)) }
{
    let mut blanks = Blanks::new(alloc);
    blanks.add_triples(triples)?;
    Ok(blanks)
}

/// The blank nodes of the blocks.
pub fn blanks_of_blocks<'a>(
    alloc: Global,
    blocks: &'a [QuadBlock],
) -> Result<Blanks<'a>, AllocError>
    ensures { IfOk result (λ blanks. blanks ≡ spec.blanks_of blocks.now) }
{
    let mut blanks = Blanks::new(alloc);
    for block in blocks {
        blanks.add_triples(block.triples.as_slice())?;
    }
    Ok(blanks)
}
