//! Literals as they are written.
//!
//! A literal that isn't lawful, as one of rdf:langString without a tag, doesn't stop the resolving. What is in its place
//! meanwhile is never handed on.

ghost use Rattle.std.specs.Prelude.{◌≡◌, IfOk, Ok, Some};
ghost use Rattle.std.specs.Result.{result_ok};
ghost use Rattle.qs_terms.specs.Literal.{xsd_string, xsd_integer, xsd_boolean, typed, checked_typed, checked_tagged};
ghost use Rattle.qs_terms.specs.inner.Outcome.{OrOutOfMemory};
ghost use Rattle.qs_syntax_resolve.specs.inner.Refused.{unless_refused};
ghost use Rattle.qs_syntax_resolve.specs.Names.{marks};
ghost use Rattle.qs_syntax_resolve.specs.inner.Names as inner;

use crate::piece::{inside, whole};
use qs_lex_escapes::Escapes;
use qs_lex_escapes::decode::decode;
use qs_syntax_tree::token::Span;
use qs_terms::{Iri, Lit, QFault, TermFault, Text};
use std::alloc::{AllocError, Global};

fn marks(written: &str) -> usize
    ensures { result ≡ marks written.now }
{
    if written.starts_with("\"\"\"") || written.starts_with("'''") {
        3
    } else {
        1
    }
}

/// A string without its quotation marks, and with its escapes decoded.
#[tactic(auto, unfolding(crate::specs::Names::string))]
pub(crate) fn string(alloc: Global, text: &str, span: Span) -> Result<Text, AllocError>
    ensures { IfOk result (λ t. t ≡ Rattle.qs_syntax_resolve.specs.Names.string text.now span) }
{
    let marks = marks(whole(text, span));
    decode(alloc, inside(text, span, marks), Escapes::Strings)
}

// A literal, or none where its parts make none.
fn unless_refused(literal: Result<Lit, TermFault>) -> Result<Option<Lit>, QFault>
    ensures { result ≡ unless_refused literal }
{
    match literal {
        Ok(literal) => Ok(Some(literal)),
        Err(TermFault::Memory) => Err(QFault::Memory),
        Err(_) => Ok(None),
    }
}

/// The string of the form.
pub(crate) fn plain(alloc: Global, form: Text) -> Result<Option<Lit>, QFault>
    ensures { OrOutOfMemory (Ok (Some (typed form xsd_string))) result }
{
    Ok(Some(Lit::string(alloc, form)?))
}

/// The integer of the form.
pub(crate) fn integer(alloc: Global, form: &str) -> Result<Option<Lit>, QFault>
    ensures { OrOutOfMemory (Ok (Some (typed form.now xsd_integer))) result }
{
    let form = Text::new(alloc, form)?;
    Ok(Some(Lit::integer(alloc, form)?))
}

fn boolean_form(value: bool) -> &'static str
    ensures { result.now ≡ inner.boolean value }
{
    if value { "true" } else { "false" }
}

/// The boolean.
pub(crate) fn boolean(alloc: Global, value: bool) -> Result<Option<Lit>, QFault>
    ensures { OrOutOfMemory
        (Ok (Some (typed (inner.boolean value) xsd_boolean)))
        result }
{
    let form = Text::new(alloc, boolean_form(value))?;
    Ok(Some(Lit::boolean(alloc, form)?))
}

/// The literal of the form and the datatype, if that isn't rdf:langString.
#[tactic(auto, using(crate::proofs::Literals::made))]
pub(crate) fn with_datatype(alloc: Global, form: Text, datatype: Iri) -> Result<Option<Lit>, QFault>
    ensures { OrOutOfMemory (Ok (result_ok (checked_typed form datatype))) result }
{
    unless_refused(Lit::with_datatype(alloc, form, datatype))
}

/// The language-tagged string of the form, if the tag is one.
#[tactic(auto, using(crate::proofs::Literals::made))]
pub(crate) fn tagged(alloc: Global, form: Text, tag: &str) -> Result<Option<Lit>, QFault>
    ensures { OrOutOfMemory (Ok (result_ok (checked_tagged form tag.now))) result }
{
    let tag = Text::new(alloc, tag)?;
    unless_refused(Lit::with_tag(alloc, form, tag))
}
