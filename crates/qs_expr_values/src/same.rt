//! Whether values are the same term.

ghost use Rattle.std.specs.Prelude.{◌≡◌};
ghost use Rattle.std.specs.Option.{option_copied};
ghost use Rattle.qs_terms.specs.Term.{same_tag, same_term};
ghost use Rattle.qs_expr_values.specs.Values.{strung};
ghost use Rattle.qs_expr_values.specs.inner.Value.{term_of, parts_of};

use crate::value::{Value, boolean_form};
use itoa::Buffer;
use qs_terms::{Lit, Term, datatype};

/// The parts of a term, wherever they stand.
#[derive(Clone, Copy)]
pub(crate) enum Parts<'a> {
    Iri(&'a str),
    Blank(u64),
    /// Form, datatype and tag.
    Literal(&'a str, &'a str, Option<&'a str>),
}

fn parts_of_term(term: &Term) -> Parts<'_>
    ensures { parts_of result ≡ term.now }
{
    match term {
        Term::Iri(iri) => Parts::Iri(iri.text()),
        Term::Blank(number) => Parts::Blank(*number),
        Term::Literal(lit) => Parts::Literal(lit.form(), lit.datatype(), lit.tag()),
    }
}

fn parts_of_tagged<'a>(form: &'a str, lit: &'a Lit) -> Parts<'a>
    ensures { parts_of result ≡ strung lit.entry.now.tag form.entry.now }
{
    match lit.tag() {
        Some(tag) => Parts::Literal(form, datatype::lang_string(), Some(tag)),
        None => Parts::Literal(form, datatype::string(), None),
    }
}

/// The parts of a value. The form of a computed integer is written into the buffer.
#[tactic(auto, unfolding(crate::specs::Number::canonical))]
pub(crate) fn taken_apart<'a>(value: &'a Value<'_>, buffer: &'a mut Buffer) -> Parts<'a>
    ensures { parts_of result ≡ term_of value.entry.now }
{
    match value {
        Value::Term(term) => parts_of_term(term),
        Value::Known(known) => parts_of_term(known.term()),
        Value::Boolean(truth) => Parts::Literal(boolean_form(*truth), datatype::boolean(), None),
        Value::Integer(number) => Parts::Literal(buffer.format(*number), datatype::integer(), None),
        Value::Text(text) => Parts::Literal(text, datatype::string(), None),
        Value::Digits(text) => Parts::Literal(text.as_str(), datatype::string(), None),
        Value::Made(text) => Parts::Literal(text.as_str(), datatype::string(), None),
        Value::Tagged(text, lit) => parts_of_tagged(text.as_str(), lit),
        Value::Datatype(datatype) => Parts::Iri(datatype.text()),
    }
}

/// Whether both are the same tag, or none is there.
pub(crate) fn is_same_tag(a: Option<&str>, b: Option<&str>) -> bool
    ensures { result ≡ same_tag (option_copied a.entry) (option_copied b.entry) }
{
    match (a, b) {
        (Some(x), Some(y)) => x == y,
        (None, None) => true,
        _ => false,
    }
}

fn are_same(a: Parts<'_>, b: Parts<'_>) -> bool
    ensures { result ≡ same_term (parts_of a.entry) (parts_of b.entry) }
{
    match (a, b) {
        (Parts::Iri(x), Parts::Iri(y)) => x == y,
        (Parts::Blank(x), Parts::Blank(y)) => x == y,
        (Parts::Literal(form, datatype, tag), Parts::Literal(other, other_datatype, other_tag)) => {
            form == other && datatype == other_datatype && is_same_tag(tag, other_tag)
        }
        _ => false,
    }
}

/// Whether both are the same term (SPARQL 1.1 Query, 17.4.1.8).
pub fn is_same(a: &Value<'_>, b: &Value<'_>) -> bool
    ensures { result ≡ same_term (term_of a.entry.now) (term_of b.entry.now) }
{
    let mut own = Buffer::new();
    let mut other = Buffer::new();
    are_same(taken_apart(a, &mut own), taken_apart(b, &mut other))
}
