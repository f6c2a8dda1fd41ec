//! Updates.

use crate::pattern::Group;
use crate::query::PrefixDeclaration;
use crate::term::{Iri, VarOrIri};
use crate::triples::TriplesSameSubject;
use sqlite_items::Items;

#[derive(Drop)]
pub struct Update {
    /// Never empty.
    pub steps: Items<UpdateStep>,
}

/// A prologue and the operation after it: none only in the last step.
#[derive(Drop)]
pub struct UpdateStep {
    pub prologue: Items<PrefixDeclaration>,
    pub operation: Option<Operation>,
}

#[derive(Drop)]
pub enum Operation {
    InsertData(QuadPattern),
    DeleteData(QuadPattern),
    DeleteWhere(QuadPattern),
    Modify(Modify),
    Clear(OnMissing, GraphTarget),
    Drop(OnMissing, GraphTarget),
    Create(OnMissing, Iri),
    Add(Transfer),
    Move(Transfer),
    Copy(Transfer),
}

/// DELETE and INSERT with a WHERE.
#[derive(Drop)]
pub struct Modify {
    pub with: Option<Iri>,
    pub delete: Option<QuadPattern>,
    pub insert: Option<QuadPattern>,
    pub pattern: Group,
}

/// What a graph that is missing, or is there already, results in.
#[derive(Clone, Copy, PartialEq, Eq)]
pub enum OnMissing {
    Fault,
    /// `SILENT`
    Silent,
}

#[derive(Clone, Copy)]
pub enum GraphTarget {
    Graph(Iri),
    Default,
    Named,
    All,
}

#[derive(Clone, Copy)]
pub enum GraphOrDefault {
    Default,
    Graph(Iri),
}

#[derive(Clone, Copy)]
pub struct Transfer {
    pub on_missing: OnMissing,
    pub from: GraphOrDefault,
    pub to: GraphOrDefault,
}

/// `{ .. }` of triples and GRAPH blocks.
#[derive(Drop)]
pub struct QuadPattern {
    pub elements: Items<QuadElement>,
}

/// A run of triples or a GRAPH block, and where it begins.
#[derive(Drop)]
pub struct QuadElement {
    pub place: usize,
    pub quads: Quads,
}

#[derive(Drop)]
pub enum Quads {
    Triples(Items<TriplesSameSubject>),
    Graph(VarOrIri, Items<TriplesSameSubject>),
}
