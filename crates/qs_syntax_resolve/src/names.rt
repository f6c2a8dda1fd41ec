//! The names of a text.
//!
//! A prefix denotes what the last declaration before it says.

ghost use Rattle.std.specs.Prelude.{◌≡◌, IfOk, OnErr};
ghost use Rattle.qs_terms.specs.inner.OrOutOf.{BecomesOrOutOfMemory};
ghost use Rattle.qs_terms.specs.inner.Outcome.{OrOutOfMemory};
ghost use Rattle.qs_terms.specs.declared.fault.QFault.TheVariants.{Memory};
ghost use Rattle.qs_syntax_resolve.specs.inner.Names.{expanded as expanded_name};

use crate::declarations::Declarations;
use crate::iri::{expanded, full_iri, parted, rdf_type};
use crate::literal::{boolean, integer, plain, string, tagged, with_datatype};
use crate::name_cache::NameCache;
use crate::number::decimal;
use crate::piece::{before_end, behind, whole};
use qs_syntax_ast::shared::Shared;
use qs_syntax_ast::term::Variable;
use qs_syntax_tree::path::Predicate;
use qs_syntax_tree::query::PrefixDeclaration;
use qs_syntax_tree::term::{Annotation, Iri as WrittenIri, Literal};
use qs_syntax_tree::token::Span;
use qs_terms::{Iri, IriCache, Lit, QFault, Text};
use std::alloc::{AllocError, Global};
use std::marker::Model;

/// A text, and the prefixes that are declared so far with the IRIs that they denote.
#[derive(Drop)]
pub struct Names<'a> {
    alloc: Global,
    text: &'a str,
    prefixes: Declarations<'a>,
    recent: IriCache,
    recent_names: NameCache,
}

impl<'a> Model for Names<'a> {
    ghost use Rattle.qs_syntax_resolve.specs.Names.{Names};

    ghost Value = { Names };

    ghost view = { λ n. record { text = n.text.now; prefixes = n.prefixes } };
}

// The IRI of a name with a prefix.
fn with_prefix(
    alloc: Global,
    prefixes: &Declarations<'_>,
    recent: &mut IriCache,
    place: usize,
    name: &str,
) -> Result<Iri, QFault>
    ensures { OrOutOfMemory (expanded_name prefixes.now place name.now) result }
{
    let (prefix, local) = parted(name);
    let Some(start) = prefixes.get(prefix) else {
        return Err(QFault::Prefix { place });
    };
    expanded(alloc, recent, place, start, local)
}

impl<'a> Names<'a> {
    ghost use Rattle.qs_syntax_resolve.specs.Names.{variable, full, iri, prefixed, predicate, literal, annotated, declare, count, nothing_declared};
    ghost use Rattle.qs_syntax_resolve.specs.inner.Names.{label};

    /// The names of a text in which no prefix is declared yet. Takes no memory.
    pub fn new(alloc: Global, text: &'a str) -> Names<'a>
        ensures { result ≡ nothing_declared text.now }
    {
        Names {
            alloc,
            text,
            prefixes: Declarations::new(alloc),
            recent: IriCache::new(alloc),
            recent_names: NameCache::new(alloc),
        }
    }

    /// Lets the prefix of the declaration denote its IRI from here on, whatever it denoted before (SPARQL 1.1 Query, 4.1.1).
    ///
    /// # Errors
    /// `QFault::RelativeIri` with the place of an IRI that has no scheme, and `QFault::Memory`. The names are then as before.
    #[tactic(auto, unfolding(crate::specs::Names::declare))]
    pub fn declare(&mut self, declaration: &PrefixDeclaration) -> Result<(), QFault>
        ensures answer { BecomesOrOutOfMemory Memory (declare self.old declaration.now) result
            self.new }
        ensures refused { OnErr result (self.new ≡ self.old) }
    {
        let iri = full_iri(self.alloc, &mut self.recent, self.text, declaration.iri)?;
        let prefix = before_end(self.text, declaration.prefix, 1);
        self.prefixes.declare(prefix, iri)?;
        Ok(())
    }

    /// The variable, by its name without the `?` or `$`.
    #[tactic(auto, unfolding(crate::specs::Names::variable))]
    pub fn variable(&mut self, span: Span) -> Result<Variable, AllocError>
        ensures answer { IfOk result (λ v. v ≡ record { name = variable self.old span }) }
        ensures names { self.new ≡ self.old }
    {
        let name = behind(self.text, span, 1);
        let name = self.recent_names.text(self.alloc, name)?;
        Ok(Variable { name })
    }

    /// The label of a blank node, without the `_:`.
    pub fn label(&mut self, span: Span) -> Result<Shared<Text>, AllocError>
        ensures answer { IfOk result (λ t. t ≡ label self.old span) }
        ensures names { self.new ≡ self.old }
    {
        let label = behind(self.text, span, 2);
        self.recent_names.text(self.alloc, label)
    }

    /// The IRI that is written as `<..>` or with a prefix (SPARQL 1.1 Query, 4.1.1).
    ///
    /// # Errors
    /// `QFault::Prefix` with the place of a name whose prefix isn't declared, `QFault::RelativeIri` with that of an IRI without a
    /// scheme, and `QFault::Memory`.
    pub fn iri(&mut self, written: WrittenIri) -> Result<Iri, QFault>
        ensures answer { OrOutOfMemory (iri self.old written) result }
        ensures names { self.new ≡ self.old }
    {
        match written {
            WrittenIri::Full(span) => full_iri(self.alloc, &mut self.recent, self.text, span),
            WrittenIri::Prefixed(span) => self.prefixed(span),
        }
    }

    /// The IRI of a predicate: `a` is rdf:type (SPARQL 1.1 Query, 4.2.4).
    ///
    /// # Errors
    /// Those of `iri`.
    pub fn predicate(&mut self, written: Predicate) -> Result<Iri, QFault>
        ensures answer { OrOutOfMemory (predicate self.old written) result }
        ensures names { self.new ≡ self.old }
    {
        match written {
            Predicate::Iri(iri) => self.iri(iri),
            Predicate::RdfType => rdf_type(self.alloc, &mut self.recent),
        }
    }

    /// The literal that is written (SPARQL 1.1 Query, 4.1.2), or `None` where it has the datatype rdf:langString and no tag.
    ///
    /// # Errors
    /// Those of its datatype's IRI, and `QFault::Memory`.
    pub fn literal(&mut self, written: Literal) -> Result<Option<Lit>, QFault>
        ensures answer { OrOutOfMemory (literal self.old written) result }
        ensures names { self.new ≡ self.old }
    {
        match written {
            Literal::String(span, annotation) => {
                let form = string(self.alloc, self.text, span)?;
                self.annotated(form, annotation)
            }
            Literal::Integer(span) => { integer(self.alloc, whole(self.text, span)) }
            Literal::Boolean(value) => boolean(self.alloc, value),
        }
    }

    /// The number of a LIMIT or an OFFSET (SPARQL 1.1 Query, 15.4 and 15.5), or the greatest of 64 bits where it is greater.
    #[tactic(auto, unfolding(crate::specs::Names::count))]
    pub fn count(&self, span: Span) -> u64
        ensures { result ≡ count self.now span }
    {
        decimal(whole(self.text, span).as_bytes())
    }

    #[tactic(auto, unfolding(crate::specs::Names::prefixed))]
    fn prefixed(&mut self, span: Span) -> Result<Iri, QFault>
        ensures answer { OrOutOfMemory (prefixed self.old span) result }
        ensures names { self.new ≡ self.old }
    {
        let name = whole(self.text, span);
        with_prefix(
            self.alloc,
            &self.prefixes,
            &mut self.recent,
            span.start,
            name,
        )
    }

    fn annotated(
        &mut self,
        form: Text,
        annotation: Option<Annotation>,
    ) -> Result<Option<Lit>, QFault>
        ensures answer { OrOutOfMemory (annotated self.old form annotation) result }
        ensures names { self.new ≡ self.old }
    {
        match annotation {
            None => plain(self.alloc, form),
            Some(Annotation::Tag(span)) => { tagged(self.alloc, form, behind(self.text, span, 1)) }
            Some(Annotation::Datatype(iri)) => {
                let datatype = self.iri(iri)?;
                with_datatype(self.alloc, form, datatype)
            }
        }
    }
}
