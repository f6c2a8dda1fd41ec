//! Property paths.

use crate::term::Iri;
use crate::token::Span;
use sqlite_items::{Boxed, Items};

#[derive(Clone, Copy)]
pub enum Predicate {
    Iri(Iri),
    /// `a`
    RdfType,
}

/// A member of a negated property set.
#[derive(Clone, Copy)]
pub struct NegatedPredicate {
    /// Where it begins.
    pub place: usize,
    /// Whether `^` stands before it.
    pub inverse: bool,
    pub predicate: Predicate,
}

#[derive(Clone, Copy, PartialEq, Eq)]
pub enum Repetition {
    /// `?`
    ZeroOrOne,
    /// `*`
    ZeroOrMore,
    /// `+`
    OneOrMore,
}

#[cycle(path)]
#[derive(Drop)]
pub enum Path {
    Predicate(Predicate),
    /// `!`
    NegatedSet(Items<NegatedPredicate>),
    /// `|`, of two or more
    Alternative(Items<PathOperand>),
    /// `/`, of two or more
    Sequence(Items<PathOperand>),
    /// `^`
    Inverse(Boxed<Path>),
    Repeated(Boxed<Path>, Repetition),
}

/// An operand of a chain, and where it begins.
#[cycle(path)]
#[derive(Drop)]
pub struct PathOperand {
    pub place: usize,
    pub path: Path,
}

#[derive(Drop)]
pub enum Verb {
    Var(Span),
    Path(Path),
}
