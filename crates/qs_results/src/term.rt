//! Terms as JSON values (SPARQL 1.1 Query Results JSON Format, 3.2.2), a token at a time.

ghost use Rattle.std.specs.Prelude.{◌≡◌, ◌++◌, [], ◌∷◌, Some, None, OnOk, codes};
ghost use Rattle.std.specs.Option.{option_copied};
ghost use Rattle.json.specs.Token.{key, string};
ghost use Rattle.serde_json.specs.Data.{no_members, object};
ghost use Rattle.qs_results.specs.inner.Columns.{tokens_of, cell_tokens};
ghost use Rattle.qs_results.specs.Json.{literal_members, term_data, typed_value};

use json::Writer;
use qs_terms::{Lit, Term};
use std::alloc::{AllocError, Global};

/// A member whose value is a string.
fn put_text(out: &mut Writer, name: &str, value: &str) -> Result<(), AllocError>
    ensures tokens { OnOk result (out.new.tokens ≡ out.old.tokens ++ key name.now ∷ string value.now
        ∷ []) }
    ensures before { out.new.before ≡ out.old.before }
{
    out.key(name)?;
    out.string(value)
}

/// A type and a value.
fn put_typed_value(out: &mut Writer, kind: &str, value: &str) -> Result<(), AllocError>
    ensures tokens { OnOk result (out.new.tokens ≡ out.old.tokens ++ key (codes "type")
        ∷ string kind.now ∷ key (codes "value") ∷ string value.now ∷ []) }
    ensures before { out.new.before ≡ out.old.before }
{
    put_text(out, "type", kind)?;
    put_text(out, "value", value)
}

/// A literal with its tag.
fn put_tagged(out: &mut Writer, form: &str, tag: &str) -> Result<(), AllocError>
    ensures tokens { OnOk result
        (out.new.tokens ≡ out.old.tokens ++ tokens_of
        (object (literal_members form.now [] (Some tag.now)))) }
    ensures before { out.new.before ≡ out.old.before }
{
    out.begin_object()?;
    put_typed_value(out, "literal", form)?;
    put_text(out, "xml:lang", tag)?;
    out.end_object()?;
    Ok(())
}

/// A literal with its datatype, unless that is xsd:string.
fn put_typed(out: &mut Writer, literal: &Lit) -> Result<(), AllocError>
    ensures tokens { OnOk result
        (out.new.tokens ≡ out.old.tokens ++ tokens_of
        (object (literal_members literal.now.form literal.now.datatype None))) }
    ensures before { out.new.before ≡ out.old.before }
{
    out.begin_object()?;
    if !literal.is_string() {
        put_text(out, "datatype", literal.datatype())?;
    }
    put_typed_value(out, "literal", literal.form())?;
    out.end_object()
}

fn put_literal(out: &mut Writer, literal: &Lit) -> Result<(), AllocError>
    ensures tokens { OnOk result
        (out.new.tokens ≡ out.old.tokens ++ tokens_of
        (object (literal_members literal.now.form literal.now.datatype literal.now.tag))) }
    ensures before { out.new.before ≡ out.old.before }
{
    match literal.tag() {
        Some(tag) => put_tagged(out, literal.form(), tag),
        None => put_typed(out, literal),
    }
}

/// A node that is no literal: its type and what it is called.
fn put_node(out: &mut Writer, kind: &str, value: &str) -> Result<(), AllocError>
    ensures tokens { OnOk result
        (out.new.tokens ≡ out.old.tokens ++ tokens_of
        (object (typed_value kind.now value.now no_members))) }
    ensures before { out.new.before ≡ out.old.before }
{
    out.begin_object()?;
    put_typed_value(out, kind, value)?;
    out.end_object()
}

/// The term as an object: a blank node's label is `b` and its number.
fn put_term(alloc: Global, out: &mut Writer, term: &Term) -> Result<(), AllocError>
    ensures tokens { OnOk result
        (out.new.tokens ≡ out.old.tokens ++ tokens_of (term_data term.now)) }
    ensures before { out.new.before ≡ out.old.before }
{
    match term {
        Term::Iri(iri) => put_node(out, "uri", iri.text()),
        Term::Blank(number) => {
            let label = format!(in alloc; "b{number}")?;
            put_node(out, "bnode", label.as_str())
        }
        Term::Literal(literal) => put_literal(out, literal),
    }
}

/// A variable and what it is bound to, if it is bound.
pub(crate) fn put_cell(
    alloc: Global,
    out: &mut Writer,
    name: &str,
    cell: Option<&Term>,
) -> Result<(), AllocError>
    ensures tokens { OnOk result (out.new.tokens ≡ out.old.tokens ++ cell_tokens name.now
        (option_copied cell.entry)) }
    ensures before { out.new.before ≡ out.old.before }
{
    match cell {
        None => Ok(()),
        Some(term) => {
            out.key(name)?;
            put_term(alloc, out, term)
        }
    }
}
