//! Subjects and names of graphs.

ghost use Rattle.std.specs.Prelude.{◌≡◌};
ghost use Rattle.qs_nquads.specs.inner.StatementState.{term_of};

use qs_terms::{Iri, Term};

/// An IRI or a blank node.
#[derive(Drop)]
pub enum Node {
    Iri(Iri),
    Blank(u64),
}

impl Node {
    /// The term.
    pub fn into_term(self) -> Term
        ensures { result ≡ term_of self }
    {
        match self {
            Node::Iri(iri) => Term::Iri(iri),
            Node::Blank(number) => Term::Blank(number),
        }
    }
}
