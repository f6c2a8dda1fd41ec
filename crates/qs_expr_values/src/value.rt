//! Values.

ghost use Rattle.std.specs.Prelude.{◌≡◌};
ghost use Rattle.std.specs.Option.{option_copied};
ghost use Rattle.qs_terms.specs.declared.term.Term.TheVariants as rdf;
ghost use Rattle.qs_expr_values.specs.Number.{canonical};
ghost use Rattle.qs_expr_values.specs.Values as spec;
ghost use Rattle.qs_expr_values.specs.Text as spec_text;
ghost use Rattle.qs_expr_values.specs.inner.Values as inner_spec;
ghost use Rattle.qs_expr_values.specs.inner.Value.{term_of};

use crate::datatype::Datatype;
use crate::known_term::KnownTerm;
use crate::number::{is_not_zero, is_other_than_zero};
use crate::same::is_same;
use crate::worth::{boolean_of, compare, worth_of};
use arrayvec::ArrayString;
use itoa::Buffer;
use qs_terms::{Lit, Term, Text as OwnedText};

/// A value: a term that stands somewhere, or a literal or an IRI that was computed.
#[derive(Drop)]
pub enum Value<'a> {
    Term(&'a Term),
    /// A term whose value was read before.
    Known(KnownTerm<'a>),
    Boolean(bool),
    /// An integer of the range.
    Integer(i128),
    /// A string without a language tag.
    Text(&'a str),
    /// A string without a language tag: the form of a computed integer, held in the value itself.
    Digits(ArrayString<40>),
    /// A string without a language tag, of a text that was made.
    Made(OwnedText),
    /// A text that was made, with the language tag of a literal; without one where that has none.
    Tagged(OwnedText, &'a Lit),
    /// The IRI of a datatype.
    Datatype(Datatype<'a>),
}

pub(crate) fn is_not_empty(text: &str) -> bool
    ensures { result ≡ spec_text.is_not_empty text.now }
{
    !text.is_empty()
}

fn ebv_of_literal(lit: &Lit) -> Option<bool>
    ensures { result ≡ spec.ebv (rdf.Literal lit.now) }
{
    if lit.is_boolean() {
        Some(boolean_of(lit.form()).unwrap_or(false))
    } else if lit.is_integer() {
        Some(is_not_zero(lit.form()))
    } else if lit.is_string() || lit.tag().is_some() {
        Some(is_not_empty(lit.form()))
    } else {
        None
    }
}

pub(crate) fn ebv_of_term(term: &Term) -> Option<bool>
    ensures { result ≡ spec.ebv term.now }
{
    match term {
        Term::Iri(_) => None,
        Term::Blank(_) => None,
        Term::Literal(lit) => ebv_of_literal(lit),
    }
}

/// The effective boolean value, if there is one (SPARQL 1.1 Query, 17.2.2).
#[tactic(auto, using(crate::proofs::Terms::ebv_integer, crate::proofs::Terms::ebv_boolean, crate::proofs::Terms::ebv_text, crate::proofs::Terms::ebv_strung))]
pub fn ebv(value: &Value<'_>) -> Option<bool>
    ensures { result ≡ spec.ebv (term_of value.entry.now) }
{
    match value {
        Value::Term(term) => ebv_of_term(term),
        Value::Known(known) => known.ebv(),
        Value::Boolean(truth) => Some(*truth),
        Value::Integer(number) => Some(is_other_than_zero(*number)),
        Value::Text(text) => Some(is_not_empty(text)),
        Value::Digits(text) => Some(is_not_empty(text.as_str())),
        Value::Made(text) => Some(is_not_empty(text.as_str())),
        Value::Tagged(text, _) => Some(is_not_empty(text.as_str())),
        Value::Datatype(_) => None,
    }
}

/// The form that a boolean is written in.
pub fn boolean_form(truth: bool) -> &'static str
    ensures { result.now ≡ inner_spec.boolean_form truth }
{
    if truth { "true" } else { "false" }
}

/// The form that an integer is written in, in place.
#[tactic(auto, unfolding(crate::specs::Number::canonical))]
pub fn digits(number: i128) -> ArrayString<40>
    ensures { result.bytes ≡ canonical number }
{
    let mut buffer = Buffer::new();
    let mut text = ArrayString::new();
    text.push_str(buffer.format(number));
    text
}

fn is_literal_term(term: &Term) -> bool
    ensures { result ≡ spec.is_literal term.now }
{
    match term {
        Term::Iri(_) => false,
        Term::Blank(_) => false,
        Term::Literal(_) => true,
    }
}

/// Whether the value is a literal.
pub fn is_literal(value: &Value<'_>) -> bool
    ensures { result ≡ spec.is_literal (term_of value.entry.now) }
{
    match value {
        Value::Term(term) => is_literal_term(term),
        Value::Known(known) => is_literal_term(known.term()),
        Value::Datatype(_) => false,
        _ => true,
    }
}

fn equal_terms(a: &Value<'_>, b: &Value<'_>) -> Option<bool>
    ensures { result ≡ spec.equal_terms (term_of a.entry.now) (term_of b.entry.now) }
{
    if is_same(a, b) {
        Some(true)
    } else if is_literal(a) && is_literal(b) {
        None
    } else {
        Some(false)
    }
}

/// `=`; none is an error (SPARQL 1.1 Query, 17.3 and 17.4.1.7).
pub fn equal(a: &Value<'_>, b: &Value<'_>) -> Option<bool>
    ensures { result ≡ spec.equal (term_of a.entry.now) (term_of b.entry.now) }
{
    match compare(worth_of(a), worth_of(b)) {
        Some(order) => Some(order.is_eq()),
        None => equal_terms(a, b),
    }
}
