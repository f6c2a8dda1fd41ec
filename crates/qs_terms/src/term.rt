//! RDF terms.
//!
//! The total order has IRIs by their bytes, blank nodes by number, literals by form, datatype and tag. It is no order of
//! SPARQL's: ORDER BY has its own.

ghost use Rattle.std.specs.Prelude.{◌≡◌, ◌↔◌, IsTrue, IfOk};
ghost use Rattle.std.specs.declared.cmp.Ordering.TheVariants.{Equal};
ghost use Rattle.qs_terms.specs.Iri.{checked_iri};
ghost use Rattle.qs_terms.specs.Literal.{checked_tagged};
ghost use Rattle.qs_terms.specs.inner.Literal.{checked_parts};
ghost use Rattle.qs_terms.specs.inner.OrOutOf.{ValueOrOutOfMemory};
ghost use Rattle.qs_terms.specs.declared.fault.TermFault.TheVariants.{Memory};
ghost use Rattle.qs_terms.specs.Term.{same_term};
ghost use Rattle.qs_terms.specs.inner.Term.{iri_of, literal_of};

use crate::fault::TermFault;
use crate::iri::Iri;
use crate::literal::Lit;
use crate::text::Text;
use std::alloc::{AllocError, Global};
use std::cmp::Ordering;

/// An RDF term: an IRI, a blank node or a literal (RDF 1.1 Concepts, 3.1). Terms are the same where kind and texts
/// are; blank nodes where their numbers are.
#[derive(Debug, Drop, PartialEq, Eq, PartialOrd, Ord, Hash)]
pub enum Term {
    Iri(Iri),
    Blank(u64),
    Literal(Lit),
}

impl Term {
    /// The IRI of a text. A missing scheme is told before an excluded character; neither takes memory.
    pub fn iri(alloc: Global, text: &str) -> Result<Term, TermFault>
        ensures { ValueOrOutOfMemory Memory (iri_of (checked_iri text.now)) result }
    {
        let iri = Iri::parse(alloc, text)?;
        Ok(Term::Iri(iri))
    }

    /// The literal of a form and a datatype's IRI, which is lawful and not rdf:langString.
    pub fn literal(alloc: Global, form: &str, datatype: &str) -> Result<Term, TermFault>
        ensures { ValueOrOutOfMemory Memory
            (literal_of (checked_parts form.now (checked_iri datatype.now))) result }
    {
        let lit = Lit::parse(alloc, form, datatype)?;
        Ok(Term::Literal(lit))
    }

    /// The language-tagged string of a form and a tag without its `@`, which is put into lower case.
    pub fn tagged(alloc: Global, form: &str, tag: &str) -> Result<Term, TermFault>
        ensures { ValueOrOutOfMemory Memory (literal_of (checked_tagged form.now tag.now)) result }
    {
        let lit = Lit::parse_tagged(alloc, form, tag)?;
        Ok(Term::Literal(lit))
    }

    /// How the terms stand in the total order in which only the same terms are equal: IRIs by their text, then blank
    /// nodes by number, then literals by form, datatype and tag.
    pub fn order(&self, other: &Term) -> Ordering
        ensures equal { (result ≡ Equal) ↔ (self.now ≡ other.now) }
        ensures order { result ≡ ⟦<Term as Ord>⟧.cmp self.now other.now }
    {
        self.cmp(other)
    }

    /// Whether both are the same term (RDF 1.1 Concepts, 3.2 to 3.4).
    pub fn is_same(&self, other: &Term) -> bool
        ensures same { IsTrue result ↔ (self.now ≡ other.now) }
        ensures test { result ≡ same_term self.now other.now }
    {
        self == other
    }

    /// The term once more, which has its texts in common with it. It takes no memory.
    pub fn try_clone(&self) -> Result<Term, AllocError>
        ensures { IfOk result (λ t. t ≡ self.now) }
    {
        match self {
            Term::Iri(iri) => {
                let iri = iri.try_clone()?;
                Ok(Term::Iri(iri))
            }
            Term::Blank(number) => Ok(Term::Blank(*number)),
            Term::Literal(lit) => {
                let lit = lit.try_clone()?;
                Ok(Term::Literal(lit))
            }
        }
    }
}
