//! Terms as they are written.

use crate::token::Span;

#[derive(Clone, Copy)]
pub enum Iri {
    /// `<..>`
    Full(Span),
    /// `prefix:local`, and `prefix:` alone
    Prefixed(Span),
}

#[derive(Clone, Copy)]
pub enum VarOrIri {
    Var(Span),
    Iri(Iri),
}

/// What stands after a string.
#[derive(Clone, Copy)]
pub enum Annotation {
    /// With its `@`.
    Tag(Span),
    Datatype(Iri),
}

#[derive(Clone, Copy)]
pub enum Literal {
    String(Span, Option<Annotation>),
    /// With or without a sign.
    Integer(Span),
    Boolean(bool),
}

/// A subject or an object that is one term.
#[derive(Clone, Copy)]
pub enum Term {
    Var(Span),
    Iri(Iri),
    Literal(Literal),
    /// `_:label`
    Blank(Span),
    /// `[]`
    Anonymous,
}
