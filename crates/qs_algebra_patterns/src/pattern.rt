//! Patterns of the algebra (SPARQL 1.1 Query, 18.2). Variables have numbers: those with a name come first, and after them the
//! hidden ones of each basic graph pattern, which its blank nodes are.

use crate::table::Table;
use qs_base::Shared;
use qs_expr_meaning::Expr;
use qs_syntax_ast::path::Path;
use qs_terms::Term;
use sqlite_items::{Boxed, Items};

/// What stands in one place of a triple pattern. A term that stands in the same place of one triple pattern after another is kept once,
/// and they have it in common: a long list of triples with one subject or predicate takes no copy of it for each.
#[derive(Drop)]
pub enum Slot {
    Term(Shared<Term>),
    Variable(usize),
}

/// A triple pattern (SPARQL 1.1 Query, 18.1.5).
#[derive(Drop)]
pub struct TriplePattern {
    pub subject: Slot,
    pub predicate: Slot,
    pub object: Slot,
}

/// A property path pattern (SPARQL 1.1 Query, 18.1.7). Patterns of one path after another have it in common.
#[derive(Drop)]
pub struct PathPattern {
    pub subject: Slot,
    pub path: Shared<Path>,
    pub object: Slot,
}

/// A basic graph pattern (SPARQL 1.1 Query, 18.1.6), and the property path patterns that stand among its triples.
#[derive(Drop)]
pub struct BasicPattern {
    pub triples: Items<TriplePattern>,
    /// Those that are no triple pattern, as a path of one IRI is.
    pub paths: Items<PathPattern>,
    /// How many numbers after those of the named variables are for hidden ones, which triples and paths have in common.
    pub hidden: usize,
}

/// A pattern (SPARQL 1.1 Query, 18.2).
#[cycle(pattern)]
#[derive(Drop)]
pub enum PatternNode {
    Basic(BasicPattern),
    /// A group: what its steps make of the one solution that binds nothing, in the order of the text, as far as all conditions hold. The
    /// steps are a list and no tree of pairs, so that a pattern is no deeper than the groups of its text are nested.
    Group(Items<Step>, Items<Expr>),
    /// Of any number.
    Union(Items<PatternNode>),
    /// In the graph of this name.
    Graph(Term, Boxed<PatternNode>),
    /// In each named graph, with the variable bound to its name.
    EachGraph(usize, Boxed<PatternNode>),
    Values(Table),
}

/// A step of a group: what it makes of the solutions of the steps before it (SPARQL 1.1 Query, 18.2.2.6).
#[cycle(pattern)]
#[derive(Drop)]
pub enum Step {
    Join(PatternNode),
    /// With the conditions that a merged solution must meet.
    LeftJoin(PatternNode, Items<Expr>),
    Minus(PatternNode),
    /// The variable is bound to the value of the expression, where it has one.
    Extend(usize, Expr),
}
