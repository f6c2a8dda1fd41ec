//! What literals are worth, and how they compare.

ghost use Rattle.std.specs.Prelude.{◌≡◌};
ghost use Rattle.qs_terms.specs.declared.term.Term.TheVariants as rdf;
ghost use Rattle.qs_expr_values.specs.Values as spec;
ghost use Rattle.qs_expr_values.specs.inner.Value.{term_of, seen};

use crate::number::integer_of;
use crate::value::Value;
use qs_terms::{Lit, Term};
use std::cmp::Ordering;

/// What a literal is worth: an integer of the range, a boolean, a string without a tag, or nothing of these.
#[derive(Clone, Copy)]
pub enum Worth<'a> {
    Integer(i128),
    Boolean(bool),
    Text(&'a str),
    Other,
}

/// The value of the form of a boolean, if it has one.
pub(crate) fn boolean_of(form: &str) -> Option<bool>
    ensures { result ≡ spec.boolean_of form.now }
{
    if form == "true" || form == "1" {
        Some(true)
    } else if form == "false" || form == "0" {
        Some(false)
    } else {
        None
    }
}

/// What the literal is worth.
pub(crate) fn worth_of_lit(lit: &Lit) -> Worth<'_>
    ensures { seen result ≡ spec.worth (rdf.Literal lit.now) }
{
    if lit.is_integer() {
        match integer_of(lit.form()) {
            Some(number) => Worth::Integer(number),
            None => Worth::Other,
        }
    } else if lit.is_boolean() {
        match boolean_of(lit.form()) {
            Some(truth) => Worth::Boolean(truth),
            None => Worth::Other,
        }
    } else if lit.is_string() {
        Worth::Text(lit.form())
    } else {
        Worth::Other
    }
}

/// What the term is worth.
pub(crate) fn worth_of_term(term: &Term) -> Worth<'_>
    ensures { seen result ≡ spec.worth term.now }
{
    match term {
        Term::Iri(_) => Worth::Other,
        Term::Blank(_) => Worth::Other,
        Term::Literal(lit) => worth_of_lit(lit),
    }
}

// What a text with the tag of a literal is worth; it is a string where the literal has none.
#[tactic(auto, using(crate::proofs::Terms::worth_text, crate::proofs::Terms::worth_tagged))]
fn worth_of_tagged<'a>(form: &'a str, lit: &Lit) -> Worth<'a>
    ensures { seen result ≡ spec.worth (spec.strung lit.now.tag form.entry.now) }
{
    match lit.tag() {
        Some(_) => Worth::Other,
        None => Worth::Text(form),
    }
}

/// What the value is worth.
#[tactic(auto, using(crate::proofs::Terms::worth_integer, crate::proofs::Terms::worth_boolean, crate::proofs::Terms::worth_text))]
pub fn worth_of<'a>(value: &'a Value<'_>) -> Worth<'a>
    ensures { seen result ≡ spec.worth (term_of value.entry.now) }
{
    match value {
        Value::Term(term) => worth_of_term(term),
        Value::Known(known) => known.worth(),
        Value::Boolean(truth) => Worth::Boolean(*truth),
        Value::Integer(number) => Worth::Integer(*number),
        Value::Text(text) => Worth::Text(text),
        Value::Digits(text) => Worth::Text(text.as_str()),
        Value::Made(text) => Worth::Text(text.as_str()),
        Value::Tagged(text, lit) => worth_of_tagged(text.as_str(), lit),
        Value::Datatype(_) => Worth::Other,
    }
}

/// How two values of one kind stand to each other.
pub fn compare(a: Worth<'_>, b: Worth<'_>) -> Option<Ordering>
    ensures { result ≡ spec.compare (seen a.entry) (seen b.entry) }
{
    match (a, b) {
        (Worth::Integer(x), Worth::Integer(y)) => Some(x.cmp(&y)),
        (Worth::Boolean(x), Worth::Boolean(y)) => Some(x.cmp(&y)),
        (Worth::Text(x), Worth::Text(y)) => Some(x.cmp(y)),
        _ => None,
    }
}
