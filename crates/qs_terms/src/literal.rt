//! Literals.
//!
//! The datatype is an IRI before it is compared with rdf:langString, so one without a scheme is `NotAbsolute`. A text is refused
//! before any memory is taken.

ghost use Rattle.std.specs.Prelude.{◌≡◌, ◌↔◌, IfOk, IsTrue, Some, None};
ghost use Rattle.std.specs.Option.{option_copied};
ghost use Rattle.std.specs.Str.{bytes_eq};
ghost use Rattle.qs_terms.specs.inner.Datatype.{iri_of};
ghost use Rattle.qs_terms.specs.Literal.{xsd_string, xsd_integer, xsd_boolean, typed, checked_typed, checked_tagged};
ghost use Rattle.qs_terms.specs.inner.Literal.{checked_parts, is_literal, fits_tag};
ghost use Rattle.qs_terms.specs.Iri.{checked_iri};
ghost use Rattle.qs_terms.specs.inner.OrOutOf.{ValueOrOutOfMemory};
ghost use Rattle.qs_terms.specs.declared.fault.TermFault.TheVariants.{Memory};

use crate::datatype::{Datatype, Known};
use crate::fault::TermFault;
use crate::iri::Iri;
use crate::tag::is_tag;
use crate::text::Text;
use qs_base::Shared;
use std::alloc::{AllocError, Global};
use std::marker::Model;

/// The parts of a literal.
#[derive(Debug, Drop, PartialEq, Eq, PartialOrd, Ord, Hash)]
struct Parts {
    form: Text,
    datatype: Datatype,
    tag: Option<Text>,
}

impl Model for Parts {
    ghost use Rattle.std.specs.Prelude.{IsTrue};
    ghost use Rattle.qs_terms.specs.Literal.{Literal};
    ghost use Rattle.qs_terms.specs.inner.Literal.{fits_tag};

    ghost Value = { Literal };

    ghost view = { λ l. record { form = l.form; datatype = l.datatype; tag = l.tag } };

    ghost invariant = { λ l. IsTrue (fits_tag l.datatype l.tag) };

    ghost inverse = { λ l. record { form = l.form; datatype = l.datatype; tag = l.tag } };
}

/// A literal: its lexical form, its datatype and, if it is a language-tagged string, its tag in lower case
/// (RDF 1.1 Concepts, 3.3). Its datatype is rdf:langString exactly where it has a tag. The parts stand after a pointer, so
/// that a term of any kind is small, and a copy has them in common with the literal.
#[derive(Debug, Drop, PartialEq, Eq, PartialOrd, Ord, Hash)]
pub struct Lit {
    parts: Shared<Parts>,
}

impl Model for Lit {
    ghost use Rattle.qs_terms.specs.Literal.{Literal};

    ghost Value = { Literal };

    ghost view = { λ l. l.parts };

    ghost inverse = { λ l. record { parts = l } };
}

impl Lit {
    // The literal of its parts.
    fn of_parts(
        alloc: Global,
        form: Text,
        datatype: Datatype,
        tag: Option<Text>,
    ) -> Result<Lit, AllocError>
        requires { IsTrue (fits_tag datatype tag) }
        ensures { IfOk result (λ l. l ≡ record { form = form; datatype = datatype; tag = tag }) }
    {
        let parts = Shared::new(
            alloc,
            Parts {
                form,
                datatype,
                tag,
            },
        )?;
        Ok(Lit { parts })
    }

    // The literal of a form and a datatype that the rules name.
    fn of_known(alloc: Global, form: Text, datatype: Known) -> Result<Lit, AllocError>
        requires { IsTrue (fits_tag (iri_of datatype) None) }
        ensures { IfOk result (λ l. l ≡ typed form (iri_of datatype)) }
    {
        Lit::of_parts(alloc, form, Datatype::from(datatype), None)
    }

    /// The string of a form: its datatype is xsd:string (RDF 1.1 Concepts, 3.3, simple literals).
    #[tactic(auto, using(crate::proofs::Datatypes::string_fits))]
    pub fn string(alloc: Global, form: Text) -> Result<Lit, AllocError>
        ensures { IfOk result (λ l. l ≡ typed form xsd_string) }
    {
        Lit::of_known(alloc, form, Known::String)
    }

    /// The integer of a form: its datatype is xsd:integer.
    #[tactic(auto, using(crate::proofs::Datatypes::integer_fits))]
    pub fn integer(alloc: Global, form: Text) -> Result<Lit, AllocError>
        ensures { IfOk result (λ l. l ≡ typed form xsd_integer) }
    {
        Lit::of_known(alloc, form, Known::Integer)
    }

    /// The boolean of a form: its datatype is xsd:boolean.
    #[tactic(auto, using(crate::proofs::Datatypes::boolean_fits))]
    pub fn boolean(alloc: Global, form: Text) -> Result<Lit, AllocError>
        ensures { IfOk result (λ l. l ≡ typed form xsd_boolean) }
    {
        Lit::of_known(alloc, form, Known::Boolean)
    }

    /// The literal of a form and a datatype other than rdf:langString. A refusal takes no memory.
    pub fn with_datatype(alloc: Global, form: Text, datatype: Iri) -> Result<Lit, TermFault>
        ensures { ValueOrOutOfMemory Memory (checked_typed form datatype) result }
    {
        let datatype = Datatype::of_iri(datatype)?;
        Ok(Lit::of_parts(alloc, form, datatype, None)?)
    }

    /// The language-tagged string of a form and a tag, which is put into lower case.
    pub fn with_tag(alloc: Global, form: Text, tag: Text) -> Result<Lit, TermFault>
        ensures { ValueOrOutOfMemory Memory (checked_tagged form tag) result }
    {
        if !is_tag(tag.as_str().as_bytes()) {
            return Err(TermFault::BadTag);
        }
        let mut tag = tag;
        tag.make_ascii_lowercase();
        let datatype = Datatype::from(Known::LangString);
        Ok(Lit::of_parts(alloc, form, datatype, Some(tag))?)
    }

    /// The literal of copies of a form and of a datatype's IRI. A refusal of the texts takes no memory.
    pub fn parse(alloc: Global, form: &str, datatype: &str) -> Result<Lit, TermFault>
        ensures { ValueOrOutOfMemory Memory (checked_parts form.now (checked_iri datatype.now))
            result }
    {
        let datatype = Datatype::parse(alloc, datatype)?;
        let form = Text::new(alloc, form)?;
        Ok(Lit::of_parts(alloc, form, datatype, None)?)
    }

    /// The language-tagged string of copies of a form and a tag. A refusal of the tag takes no memory.
    pub fn parse_tagged(alloc: Global, form: &str, tag: &str) -> Result<Lit, TermFault>
        ensures { ValueOrOutOfMemory Memory (checked_tagged form.now tag.now) result }
    {
        if !is_tag(tag.as_bytes()) {
            return Err(TermFault::BadTag);
        }
        let form = Text::new(alloc, form)?;
        let tag = Text::new(alloc, tag)?;
        Lit::with_tag(alloc, form, tag)
    }

    /// The lexical form.
    pub fn form(&self) -> &str
        ensures form { result.now ≡ self.now.form }
        ensures lawful { IsTrue (is_literal self.now) }
    {
        self.parts.get().form.as_str()
    }

    /// The datatype's IRI.
    pub fn datatype(&self) -> &str
        ensures { result.now ≡ self.now.datatype }
    {
        self.parts.get().datatype.text()
    }

    /// Whether the datatype is xsd:string.
    pub fn is_string(&self) -> bool
        ensures { result ≡ bytes_eq self.now.datatype xsd_string }
    {
        self.parts.get().datatype.is(Known::String)
    }

    /// Whether the datatype is xsd:integer.
    pub fn is_integer(&self) -> bool
        ensures { result ≡ bytes_eq self.now.datatype xsd_integer }
    {
        self.parts.get().datatype.is(Known::Integer)
    }

    /// Whether the datatype is xsd:boolean.
    pub fn is_boolean(&self) -> bool
        ensures { result ≡ bytes_eq self.now.datatype xsd_boolean }
    {
        self.parts.get().datatype.is(Known::Boolean)
    }

    /// The language tag in lower case, without its `@`, if the literal has one.
    pub fn tag(&self) -> Option<&str>
        ensures { option_copied result ≡ self.now.tag }
    {
        match &self.parts.get().tag {
            None => None,
            Some(tag) => Some(tag.as_str()),
        }
    }

    /// Whether both are the same literal: form, datatype and tag are (RDF 1.1 Concepts, 3.3, literal term equality).
    pub fn is_same(&self, other: &Lit) -> bool
        ensures { IsTrue result ↔ (self.now ≡ other.now) }
    {
        self == other
    }

    /// The literal once more. It takes no memory.
    pub fn try_clone(&self) -> Result<Lit, AllocError>
        ensures { IfOk result (λ l. l ≡ self.now) }
    {
        let parts = self.parts.share()?;
        Ok(Lit { parts })
    }
}
