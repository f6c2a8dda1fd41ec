//! Datatypes: those that the recommendations' own rules name (RDF 1.1 Concepts, 3.3 and 5.1), and the others.
//!
//! A datatype that rules name is one of four tags and takes no copy of its IRI; contracts see the IRI. Which one a text is is
//! found before the text is checked as an IRI, since these four are lawful. The IRIs are written here alone.

ghost use Rattle.std.specs.Prelude.{◌≡◌, IfOk, IsTrue, Some, None, nat_eq, refl};
ghost use Rattle.std.proofs.Common.{rules};
ghost use Rattle.std.specs.Ordering.{nat_cmp};
ghost use Rattle.std.specs.Cmp.{partial_equiv_from_equiv};
ghost use Rattle.std.specs.Cmp.Lexicographic.{pointwise, slice_cmp, nat_list_eq_equiv, nat_list_cmp_total, texts_ties, texts_po};
ghost use Rattle.std.specs.Cmp.Rules.{hashing};
ghost use Rattle.std.specs.Str.{bytes_eq};
ghost use Rattle.qs_terms.specs.inner.Datatype.{iri_of, known_of, untagged, checked_untagged, code_of, hash_of};
ghost use Rattle.qs_terms.specs.Iri.{checked_iri};
ghost use Rattle.qs_terms.specs.Literal.{rdf_lang_string, xsd_string, xsd_integer, xsd_boolean};
ghost use Rattle.qs_terms.specs.inner.Literal.{fits_tag};
ghost use Rattle.qs_terms.specs.inner.OrOutOf.{ValueOrOutOfMemory};
ghost use Rattle.qs_terms.specs.declared.fault.TermFault.TheVariants.{Memory};

use crate::fault::TermFault;
use crate::iri::Iri;
use std::alloc::Global;
use std::cmp::Ordering;
use std::fmt;
use std::hash::{Hash, Hasher};
use std::marker::Model;

/// The datatype of the literals with a language tag, and of no other.
#[tactic(auto, unfolding(crate::specs::Literal::rdf_lang_string))]
pub fn lang_string() -> &'static str
    ensures { result.now ≡ rdf_lang_string }
{
    "http://www.w3.org/1999/02/22-rdf-syntax-ns#langString"
}

/// The datatype of strings.
#[tactic(auto, unfolding(crate::specs::Literal::xsd_string))]
pub fn string() -> &'static str
    ensures { result.now ≡ xsd_string }
{
    "http://www.w3.org/2001/XMLSchema#string"
}

/// The datatype of integers.
#[tactic(auto, unfolding(crate::specs::Literal::xsd_integer))]
pub fn integer() -> &'static str
    ensures { result.now ≡ xsd_integer }
{
    "http://www.w3.org/2001/XMLSchema#integer"
}

/// The datatype of booleans.
#[tactic(auto, unfolding(crate::specs::Literal::xsd_boolean))]
pub fn boolean() -> &'static str
    ensures { result.now ≡ xsd_boolean }
{
    "http://www.w3.org/2001/XMLSchema#boolean"
}

/// A datatype that the rules name.
#[derive(Clone, Copy, PartialEq, Eq)]
pub(crate) enum Known {
    String,
    Integer,
    Boolean,
    LangString,
}

impl Known {
    // The datatype of this IRI. Mostly no byte is compared, since `==` of texts tests the lengths first.
    #[tactic(auto, unfolding(crate::specs::inner::Datatype::known_of))]
    fn of(iri: &str) -> Option<Known>
        ensures { result ≡ known_of iri.now }
    {
        if iri == string() {
            Some(Known::String)
        } else if iri == integer() {
            Some(Known::Integer)
        } else if iri == boolean() {
            Some(Known::Boolean)
        } else if iri == lang_string() {
            Some(Known::LangString)
        } else {
            None
        }
    }

    fn iri(self) -> &'static str
        ensures { result.now ≡ iri_of self }
    {
        match self {
            Known::String => string(),
            Known::Integer => integer(),
            Known::Boolean => boolean(),
            Known::LangString => lang_string(),
        }
    }

    fn code(self) -> u8
        ensures { result ≡ code_of self }
    {
        match self {
            Known::String => 0,
            Known::Integer => 1,
            Known::Boolean => 2,
            Known::LangString => 3,
        }
    }
}

/// A datatype by its name, or the IRI of one that has none.
#[derive(Drop)]
enum Kind {
    Named(Known),
    Other(Iri),
}

/// A literal's datatype, which contracts see as its IRI. One that the rules name takes no memory.
#[derive(Drop)]
pub(crate) struct Datatype {
    kind: Kind,
}

impl Model for Datatype {
    ghost use Rattle.std.specs.Prelude.{List, ℕ, IsTrue};

    ghost Value = { List ℕ };

    ghost use Rattle.qs_terms.specs.inner.Datatype.{text_of, is_kept};

    ghost view = { λ d. text_of d.kind };

    ghost invariant = { λ d. IsTrue (is_kept d.kind) };
}

impl From<Known> for Datatype {
    ghost from_gives = { λ k d. d ≡ iri_of k };

    fn from(known: Known) -> Datatype {
        Datatype {
            kind: Kind::Named(known),
        }
    }
}

impl Datatype {
    // A datatype that the rules name, of a literal without a tag.
    #[tactic(auto, unfolding(crate::specs::Literal::xsd_string, crate::specs::Literal::xsd_integer, crate::specs::Literal::xsd_boolean, crate::specs::Literal::rdf_lang_string))]
    fn untagged(known: Known) -> Result<Datatype, TermFault>
        ensures answer { result ≡ untagged (iri_of known) }
        ensures lawful { IfOk result (λ d. IsTrue (fits_tag d None)) }
    {
        match known {
            Known::LangString => Err(TermFault::BadDatatype),
            Known::String | Known::Integer | Known::Boolean => Ok(Datatype::from(known)),
        }
    }

    /// The datatype of a literal without a tag, which is not rdf:langString. The IRI is dropped where the rules name the datatype.
    pub(crate) fn of_iri(iri: Iri) -> Result<Datatype, TermFault>
        ensures answer { result ≡ untagged iri }
        ensures lawful { IfOk result (λ d. IsTrue (fits_tag d None)) }
    {
        match Known::of(iri.text()) {
            Some(known) => Datatype::untagged(known),
            None => Ok(Datatype {
                kind: Kind::Other(iri),
            }),
        }
    }

    /// The datatype of a literal without a tag, of its IRI's text. A refusal of the text takes no memory.
    pub(crate) fn parse(alloc: Global, text: &str) -> Result<Datatype, TermFault>
        ensures answer { ValueOrOutOfMemory Memory (checked_untagged (checked_iri text.now))
            result }
        ensures lawful { IfOk result (λ d. IsTrue (fits_tag d None)) }
    {
        match Known::of(text) {
            Some(known) => Datatype::untagged(known),
            None => Ok(Datatype {
                kind: Kind::Other(Iri::parse(alloc, text)?),
            }),
        }
    }

    /// The datatype's IRI.
    pub(crate) fn text(&self) -> &str
        ensures { result.now ≡ self.now }
    {
        match &self.kind {
            Kind::Named(known) => known.iri(),
            Kind::Other(iri) => iri.text(),
        }
    }

    /// Whether this is the datatype that the rules name so.
    pub(crate) fn is(&self, name: Known) -> bool
        ensures { result ≡ bytes_eq self.now (iri_of name) }
    {
        match &self.kind {
            Kind::Named(known) => *known == name,
            Kind::Other(_) => false,
        }
    }
}

impl PartialEq for Datatype {
    ghost eq = { pointwise nat_eq };

    ghost laws = { partial_equiv_from_equiv nat_list_eq_equiv };

    fn eq(&self, other: &Datatype) -> bool {
        match (&self.kind, &other.kind) {
            (Kind::Named(known), _) => other.is(*known),
            (_, Kind::Named(known)) => self.is(*known),
            (Kind::Other(iri), Kind::Other(others)) => iri == others,
        }
    }
}

impl Eq for Datatype {
    ghost laws = { nat_list_eq_equiv };
}

impl PartialOrd for Datatype {
    ghost partial_cmp = { λ x y. Some (slice_cmp nat_cmp x y) };

    ghost laws = { texts_po };

    fn partial_cmp(&self, other: &Datatype) -> Option<Ordering> {
        Some(self.cmp(other))
    }
}

impl Ord for Datatype {
    ghost cmp = { slice_cmp nat_cmp };

    ghost total = { nat_list_cmp_total };

    ghost matches_partial_cmp = { λ x y. refl };

    ghost matches_eq = { texts_ties };

    fn cmp(&self, other: &Datatype) -> Ordering {
        self.text().cmp(other.text())
    }
}

impl Hash for Datatype {
    ghost hash_input = { hash_of };

    ghost respects_eq = { Prim.search (hashing, rules) };

    fn hash<H: Hasher>(&self, state: &mut H) {
        match &self.kind {
            Kind::Named(known) => known.code().hash(state),
            Kind::Other(iri) => iri.hash(state),
        }
    }
}

impl fmt::Debug for Datatype {
    fn fmt<W: fmt::Write>(&self, f: &mut fmt::Formatter<W>) -> fmt::Result {
        fmt::Debug::fmt(self.text(), f)
    }
}
