//! Group graph patterns (SPARQL 1.1 Query, 5).

ghost use Rattle.std.specs.Prelude.{◌≡◌, IfOk};

use crate::expression::Expression;
use crate::path::Path;
use crate::shared::Shared;
use crate::term::{TermPattern, VarOrIri, Variable};
use qs_terms::{Iri, Term};
use sqlite_items::Items;
use std::alloc::AllocError;

/// What stands between a subject and an object.
#[derive(Drop)]
pub enum Verb {
    Variable(Variable),
    Iri(Iri),
    /// More than one IRI. It stands in no template.
    Path(Shared<Path>),
}

impl Verb {
    /// The verb once more. It takes no memory.
    pub fn share(&self) -> Result<Verb, AllocError>
        ensures { IfOk result (λ v. v ≡ self.now) }
    {
        match self {
            Verb::Variable(variable) => Ok(Verb::Variable(variable.share()?)),
            Verb::Iri(iri) => Ok(Verb::Iri(iri.try_clone()?)),
            Verb::Path(path) => Ok(Verb::Path(path.share()?)),
        }
    }
}

/// A triple. Those that are written with one subject, or with one verb, have its texts in common.
#[derive(Drop)]
pub struct Triple {
    pub subject: TermPattern,
    pub verb: Verb,
    pub object: TermPattern,
}

/// `{ .. }`: its patterns in the order of the text, and its filters, which apply to the whole group.
#[cycle(group)]
#[derive(Drop)]
pub struct Group {
    pub patterns: Items<GraphPattern>,
    pub filters: Items<Expression>,
}

#[cycle(group)]
#[derive(Drop)]
pub enum GraphPattern {
    /// The triples of a group that have nothing but filters between them, in the order of the text.
    Triples(Items<Triple>),
    /// One group, or the operands of UNION.
    Union(Items<Group>),
    Optional(Group),
    Minus(Group),
    Graph(VarOrIri, Group),
    Bind(Expression, Variable),
    Values(InlineData),
}

/// The table of VALUES.
#[derive(Drop)]
pub struct InlineData {
    pub variables: Items<Variable>,
    /// None is UNDEF.
    pub rows: Items<Items<Option<Term>>>,
}
