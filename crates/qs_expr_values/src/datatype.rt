//! Datatypes of values.

ghost use Rattle.std.specs.Prelude.{◌≡◌, IsTrue};
ghost use Rattle.qs_terms.specs.inner.Iri.{is_iri_text};
ghost use Rattle.qs_expr_values.specs.inner.Value.{datatype_text};

use qs_terms::{Lit, datatype};

/// The datatype of a literal that stands somewhere, or one of those that computed literals have.
#[derive(Clone, Copy)]
pub enum Datatype<'a> {
    Of(&'a Lit),
    String,
    Integer,
    Boolean,
    /// That of all literals with a language tag.
    LangString,
}

impl<'a> Datatype<'a> {
    /// The IRI's text, which is lawful.
    #[tactic(auto, using(crate::proofs::Lawful::datatype_is_iri, crate::proofs::Lawful::string_is_iri, crate::proofs::Lawful::integer_is_iri, crate::proofs::Lawful::boolean_is_iri, crate::proofs::Lawful::lang_string_is_iri))]
    pub fn text(&self) -> &'a str
        ensures text { result.now ≡ datatype_text self.now }
        ensures lawful { IsTrue (is_iri_text result.now) }
    {
        match self {
            // reading the form tells that the literal is lawful
            Datatype::Of(lit) => {
                let _form = lit.form();
                lit.datatype()
            }
            Datatype::String => datatype::string(),
            Datatype::Integer => datatype::integer(),
            Datatype::Boolean => datatype::boolean(),
            Datatype::LangString => datatype::lang_string(),
        }
    }
}
