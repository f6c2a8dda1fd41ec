//! Updates (SPARQL 1.1 Update, 3).

use crate::pattern::{Group, Triple};
use crate::term::{VarOrIri, Variable};
use qs_syntax_tree::update::OnMissing;
use qs_terms::Iri;
use sqlite_items::Items;

#[derive(Drop)]
pub struct Update {
    pub operations: Items<Operation>,
}

#[derive(Drop)]
pub enum Operation {
    InsertData(Items<QuadBlock>),
    DeleteData(Items<QuadBlock>),
    DeleteWhere(DeleteWhere),
    Modify(Modify),
    Clear(OnMissing, GraphTarget),
    Drop(OnMissing, GraphTarget),
    Create(OnMissing, Iri),
    Add(Transfer),
    Move(Transfer),
    Copy(Transfer),
}

/// Triples of the default graph, or of the graph that is named.
#[derive(Drop)]
pub struct QuadBlock {
    pub graph: Option<VarOrIri>,
    pub triples: Items<Triple>,
}

/// DELETE WHERE: the quads are the template and the pattern.
#[derive(Drop)]
pub struct DeleteWhere {
    pub quads: Items<QuadBlock>,
    /// The variables of the operation, as often as they stand in it, in the order of the text.
    pub variables: Items<Variable>,
}

/// DELETE and INSERT with a WHERE.
#[derive(Drop)]
pub struct Modify {
    pub with: Option<Iri>,
    pub delete: Items<QuadBlock>,
    pub insert: Items<QuadBlock>,
    pub pattern: Group,
    /// The variables of the operation, as often as they stand in it, in the order of the text.
    pub variables: Items<Variable>,
}

#[derive(Drop)]
pub enum GraphTarget {
    Graph(Iri),
    Default,
    Named,
    All,
}

#[derive(Drop)]
pub enum GraphOrDefault {
    Default,
    Graph(Iri),
}

#[derive(Drop)]
pub struct Transfer {
    pub on_missing: OnMissing,
    pub from: GraphOrDefault,
    pub to: GraphOrDefault,
}
