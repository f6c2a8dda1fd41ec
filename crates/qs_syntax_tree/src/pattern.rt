//! Group graph patterns.

use crate::expression::Expression;
use crate::term::{Iri, Literal, VarOrIri};
use crate::token::Span;
use crate::triples::TriplesSameSubject;
use sqlite_items::Items;

/// `{ .. }`
#[cycle(group)]
#[derive(Drop)]
pub struct Group {
    /// Where it begins.
    pub place: usize,
    pub elements: Items<Element>,
}

/// A block of triples or another pattern of a group, and where it begins.
#[cycle(group)]
#[derive(Drop)]
pub struct Element {
    pub place: usize,
    pub pattern: GraphPattern,
}

#[cycle(group)]
#[derive(Drop)]
pub enum GraphPattern {
    Triples(Items<TriplesSameSubject>),
    /// One group, or the operands of UNION.
    Union(Items<Group>),
    Optional(Group),
    Minus(Group),
    Graph(VarOrIri, Group),
    Filter(Expression),
    Bind(Expression, Span),
    Values(InlineData),
}

/// The table of VALUES.
#[derive(Drop)]
pub struct InlineData {
    pub variables: Items<Span>,
    pub rows: Items<Items<DataValue>>,
}

#[derive(Clone, Copy)]
pub enum DataValue {
    Iri(Iri),
    Literal(Literal),
    /// `UNDEF`
    Undefined,
}
