//! Terms of patterns and templates.

ghost use Rattle.std.specs.Prelude.{◌≡◌, IfOk};

use crate::shared::Shared;
use qs_terms::{Iri, Lit, Text};
use std::alloc::AllocError;

/// A variable, by its name without the `?` or `$`. Those of one name may have its text in common.
#[derive(Drop)]
pub struct Variable {
    pub name: Shared<Text>,
}

impl Variable {
    /// Its name.
    pub fn text(&self) -> &str
        ensures { result.now ≡ self.now.name }
    {
        self.name.get().as_str()
    }

    /// The variable once more. It takes no memory.
    pub fn share(&self) -> Result<Variable, AllocError>
        ensures { IfOk result (λ v. v ≡ self.now) }
    {
        let name = self.name.share()?;
        Ok(Variable { name })
    }
}

/// A blank node of a text (SPARQL 1.1 Query, 4.1.4).
#[derive(Drop)]
pub enum BlankNode {
    /// By its label, without the `_:`.
    Label(Shared<Text>),
    /// `[]` or `[ .. ]`, by the number of those that begin before it in the text.
    Anonymous(usize),
}

impl BlankNode {
    /// The blank node once more. It takes no memory.
    pub fn share(&self) -> Result<BlankNode, AllocError>
        ensures { IfOk result (λ b. b ≡ self.now) }
    {
        match self {
            BlankNode::Label(label) => Ok(BlankNode::Label(label.share()?)),
            BlankNode::Anonymous(number) => Ok(BlankNode::Anonymous(*number)),
        }
    }
}

/// A subject or an object.
#[derive(Drop)]
pub enum TermPattern {
    Variable(Variable),
    Iri(Iri),
    Literal(Lit),
    Blank(BlankNode),
}

impl TermPattern {
    /// The term once more. It takes no memory.
    pub fn share(&self) -> Result<TermPattern, AllocError>
        ensures { IfOk result (λ t. t ≡ self.now) }
    {
        match self {
            TermPattern::Variable(variable) => Ok(TermPattern::Variable(variable.share()?)),
            TermPattern::Iri(iri) => Ok(TermPattern::Iri(iri.try_clone()?)),
            TermPattern::Literal(literal) => Ok(TermPattern::Literal(literal.try_clone()?)),
            TermPattern::Blank(blank) => Ok(TermPattern::Blank(blank.share()?)),
        }
    }
}

/// The name of a graph.
#[derive(Drop)]
pub enum VarOrIri {
    Variable(Variable),
    Iri(Iri),
}
