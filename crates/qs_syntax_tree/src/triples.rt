//! Triples as they are written, in patterns and in templates.

use crate::path::Verb;
use crate::term::Term;
use sqlite_items::Items;

/// Where triples stand: the verbs of a template are no paths.
#[derive(Clone, Copy, PartialEq, Eq)]
pub enum Form {
    Pattern,
    Template,
}

/// A subject or an object.
#[cycle(triples)]
#[derive(Drop)]
pub enum GraphNode {
    Term(Term),
    /// `[ .. ]`
    BlankNodePropertyList(Items<Property>),
}

/// A verb and its objects.
#[cycle(triples)]
#[derive(Drop)]
pub struct Property {
    pub verb: Verb,
    pub objects: Items<GraphNode>,
}

/// A subject and its properties: none only where the subject has its own in brackets.
#[derive(Drop)]
pub struct TriplesSameSubject {
    pub subject: GraphNode,
    pub properties: Items<Property>,
}
