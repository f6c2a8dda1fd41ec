//! Functions of one and two arguments (SPARQL 1.1 Query, 17.4). They take no memory.

ghost use Rattle.std.specs.Prelude.{◌≡◌, []};
ghost use Rattle.std.specs.Option.{option_copied, option_map, unwrap_or};
ghost use Rattle.qs_terms.specs.declared.term.Term.TheVariants as rdf;
ghost use Rattle.qs_expr_values.specs.inner.Value.{term_of};
ghost use Rattle.qs_expr_values.specs.Values as of;
ghost use Rattle.qs_expr_meaning.specs.Calls as spec;
ghost use Rattle.qs_expr_meaning.specs.inner.Calls as inner_spec;
ghost use Rattle.qs_terms.specs.Statement as of_statement;
ghost use Rattle.qs_expr_meaning.specs.inner.Comes.{parts_seen, forms_seen, iri_of, tagged_datatype};
ghost use Rattle.qs_syntax_tree.specs.declared.expression.UnaryFunction.TheVariants as unary_function;
ghost use Rattle.qs_syntax_tree.specs.declared.expression.BinaryFunction.TheVariants as binary_function;

use crate::relation::number;
use qs_expr_values::{
    Datatype, Value, Worth, boolean_form, contains, count, digits, ends, is_literal, is_same,
    matches_range, starts, worth_of,
};
use qs_syntax_tree::expression::{BinaryFunction, UnaryFunction};
use qs_terms::{Lit, Term};

fn is_iri_term(term: &Term) -> bool
    ensures { result ≡ of_statement.is_iri term.now }
{
    match term {
        Term::Iri(_) => true,
        Term::Blank(_) => false,
        Term::Literal(_) => false,
    }
}

fn is_iri(value: &Value<'_>) -> bool
    ensures { result ≡ of_statement.is_iri (term_of value.entry.now) }
{
    match value {
        Value::Term(term) => is_iri_term(term),
        Value::Known(known) => is_iri_term(known.term()),
        Value::Datatype(_) => true,
        _ => false,
    }
}

fn is_blank_term(term: &Term) -> bool
    ensures { result ≡ spec.is_blank term.now }
{
    match term {
        Term::Iri(_) => false,
        Term::Blank(_) => true,
        Term::Literal(_) => false,
    }
}

fn is_blank(value: &Value<'_>) -> bool
    ensures { result ≡ spec.is_blank (term_of value.entry.now) }
{
    match value {
        Value::Term(term) => is_blank_term(term),
        Value::Known(known) => is_blank_term(known.term()),
        _ => false,
    }
}

fn is_numeric(value: &Value<'_>) -> bool
    ensures { result ≡ inner_spec.is_numeric (term_of value.entry.now) }
{
    number(value).is_some()
}

fn form_of_term(term: &Term) -> Option<&str>
    ensures { option_map of.text_term (option_copied result) ≡ inner_spec.form_of term.now }
{
    match term {
        Term::Iri(iri) => Some(iri.text()),
        Term::Blank(_) => None,
        Term::Literal(lit) => Some(lit.form()),
    }
}

fn text_value<'a>(text: Option<&'a str>) -> Option<Value<'a>>
    ensures { option_map term_of result ≡ option_map of.text_term (option_copied text.entry) }
{
    match text {
        Some(text) => Some(Value::Text(text)),
        None => None,
    }
}

/// STR
#[tactic(auto, using(crate::proofs::Strings::form_strung))]
fn form<'a>(value: Value<'a>) -> Option<Value<'a>>
    ensures { option_map term_of result ≡ inner_spec.form_of (term_of value.entry) }
{
    match value {
        Value::Term(term) => text_value(form_of_term(term)),
        Value::Known(known) => text_value(form_of_term(known.term())),
        Value::Boolean(truth) => Some(Value::Text(boolean_form(truth))),
        Value::Integer(number) => Some(Value::Digits(digits(number))),
        Value::Text(text) => Some(Value::Text(text)),
        Value::Digits(text) => Some(Value::Digits(text)),
        Value::Made(text) => Some(Value::Made(text)),
        Value::Tagged(text, _) => Some(Value::Made(text)),
        Value::Datatype(datatype) => Some(Value::Text(datatype.text())),
    }
}

fn tag_or_empty(lit: &Lit) -> &str
    ensures { result.now ≡ unwrap_or lit.now.tag [] }
{
    match lit.tag() {
        Some(tag) => tag,
        None => "",
    }
}

fn tag_of_term(term: &Term) -> Option<&str>
    ensures { option_map of.text_term (option_copied result) ≡ inner_spec.tag_of term.now }
{
    match term {
        Term::Iri(_) => None,
        Term::Blank(_) => None,
        Term::Literal(lit) => Some(tag_or_empty(lit)),
    }
}

/// LANG
#[tactic(auto, using(crate::proofs::Strings::tag_strung))]
fn tag<'a>(value: &Value<'a>) -> Option<Value<'a>>
    ensures { option_map term_of result ≡ inner_spec.tag_of (term_of value.entry.now) }
{
    match value {
        Value::Term(term) => text_value(tag_of_term(term)),
        Value::Known(known) => text_value(tag_of_term(known.term())),
        Value::Tagged(_, lit) => Some(Value::Text(tag_or_empty(lit))),
        Value::Datatype(_) => None,
        _ => Some(Value::Text("")),
    }
}

fn datatype_of_term(term: &Term) -> Option<Datatype<'_>>
    ensures { option_map iri_of result ≡ inner_spec.datatype_of term.now }
{
    match term {
        Term::Iri(_) => None,
        Term::Blank(_) => None,
        Term::Literal(lit) => Some(Datatype::Of(lit)),
    }
}

fn datatype_of_tagged<'a>(lit: &Lit) -> Datatype<'a>
    ensures { iri_of result ≡ tagged_datatype lit.now.tag }
{
    match lit.tag() {
        Some(_) => Datatype::LangString,
        None => Datatype::String,
    }
}

fn datatype_value<'a>(datatype: Option<Datatype<'a>>) -> Option<Value<'a>>
    ensures { option_map term_of result ≡ option_map iri_of datatype.entry }
{
    match datatype {
        Some(datatype) => Some(Value::Datatype(datatype)),
        None => None,
    }
}

/// DATATYPE
#[tactic(auto, using(crate::proofs::Strings::datatype_strung))]
fn datatype<'a>(value: &Value<'a>) -> Option<Value<'a>>
    ensures { option_map term_of result ≡ inner_spec.datatype_of (term_of value.entry.now) }
{
    match value {
        Value::Term(term) => datatype_value(datatype_of_term(term)),
        Value::Known(known) => datatype_value(datatype_of_term(known.term())),
        Value::Boolean(_) => Some(Value::Datatype(Datatype::Boolean)),
        Value::Integer(_) => Some(Value::Datatype(Datatype::Integer)),
        Value::Tagged(_, lit) => Some(Value::Datatype(datatype_of_tagged(lit))),
        Value::Datatype(_) => None,
        _ => Some(Value::Datatype(Datatype::String)),
    }
}

fn string_of_literal(lit: &Lit) -> Option<(&str, Option<&str>)>
    ensures { option_map parts_seen result ≡ inner_spec.string_parts (rdf.Literal lit.now) }
{
    if lit.is_string() || lit.tag().is_some() {
        Some((lit.form(), lit.tag()))
    } else {
        None
    }
}

fn string_of_term(term: &Term) -> Option<(&str, Option<&str>)>
    ensures { option_map parts_seen result ≡ inner_spec.string_parts term.now }
{
    match term {
        Term::Iri(_) => None,
        Term::Blank(_) => None,
        Term::Literal(lit) => string_of_literal(lit),
    }
}

/// The form and the tag of a string: an xsd:string or a literal with a tag.
#[tactic(auto, using(crate::proofs::Strings::string_boolean, crate::proofs::Strings::string_integer, crate::proofs::Strings::string_text, crate::proofs::Strings::string_strung))]
pub(crate) fn string_of<'a>(value: &'a Value<'_>) -> Option<(&'a str, Option<&'a str>)>
    ensures { option_map parts_seen result ≡ inner_spec.string_parts (term_of value.entry.now) }
{
    match value {
        Value::Term(term) => string_of_term(term),
        Value::Known(known) => string_of_term(known.term()),
        Value::Text(text) => Some((text, None)),
        Value::Digits(text) => Some((text.as_str(), None)),
        Value::Made(text) => Some((text.as_str(), None)),
        Value::Tagged(text, lit) => Some((text.as_str(), lit.tag())),
        _ => None,
    }
}

/// STRLEN
#[tactic(auto, using(crate::proofs::Strings::length_by_parts))]
fn length(value: &Value<'_>) -> Option<i128>
    ensures { option_map of.integer_term result ≡ spec.unary unary_function.StrLen
        (term_of value.entry.now) }
{
    match string_of(value) {
        Some((form, _)) => Some(count(form) as i128),
        None => None,
    }
}

/// The functions of one argument; none is an error.
pub(crate) fn unary<'a>(function: UnaryFunction, value: Value<'a>) -> Option<Value<'a>>
    ensures { option_map term_of result ≡ spec.unary function (term_of value.entry) }
{
    match function {
        UnaryFunction::IsIri => Some(Value::Boolean(is_iri(&value))),
        UnaryFunction::IsBlank => Some(Value::Boolean(is_blank(&value))),
        UnaryFunction::IsLiteral => Some(Value::Boolean(is_literal(&value))),
        UnaryFunction::IsNumeric => Some(Value::Boolean(is_numeric(&value))),
        UnaryFunction::Str => form(value),
        UnaryFunction::Lang => tag(&value),
        UnaryFunction::Datatype => datatype(&value),
        UnaryFunction::StrLen => match length(&value) {
            Some(length) => Some(Value::Integer(length)),
            None => None,
        },
    }
}

fn is_compatible(a: Option<&str>, b: Option<&str>) -> bool
    ensures { result ≡ spec.compatible (option_copied a.entry) (option_copied b.entry) }
{
    match b {
        None => true,
        Some(y) => match a {
            Some(x) => x == y,
            None => false,
        },
    }
}

#[tactic(auto, using(crate::proofs::Strings::forms_by_parts))]
fn both_forms<'a>(a: &'a Value<'_>, b: &'a Value<'_>) -> Option<(&'a str, &'a str)>
    ensures { option_map forms_seen result ≡ spec.both_forms (term_of a.entry.now)
        (term_of b.entry.now) }
{
    match (string_of(a), string_of(b)) {
        (Some((s, own)), Some((t, other))) => {
            if is_compatible(own, other) {
                Some((s, t))
            } else {
                None
            }
        }
        _ => None,
    }
}

fn plain_text<'a>(value: &'a Value<'_>) -> Option<&'a str>
    ensures { option_copied result ≡ spec.text_of_worth (of.worth (term_of value.entry.now)) }
{
    match worth_of(value) {
        Worth::Text(text) => Some(text),
        _ => None,
    }
}

/// LANGMATCHES
fn is_in_range(tag: &Value<'_>, range: &Value<'_>) -> Option<bool>
    ensures { option_map of.boolean_term result ≡ spec.binary binary_function.LangMatches
        (term_of tag.entry.now) (term_of range.entry.now) }
{
    match (plain_text(tag), plain_text(range)) {
        (Some(tag), Some(range)) => Some(matches_range(range, tag)),
        _ => None,
    }
}

/// The functions of two arguments; none is an error.
pub(crate) fn binary(function: BinaryFunction, a: &Value<'_>, b: &Value<'_>) -> Option<bool>
    ensures { option_map of.boolean_term result ≡ spec.binary function (term_of a.entry.now)
        (term_of b.entry.now) }
{
    match function {
        BinaryFunction::SameTerm => Some(is_same(a, b)),
        BinaryFunction::LangMatches => is_in_range(a, b),
        BinaryFunction::Contains => match both_forms(a, b) {
            Some((s, t)) => Some(contains(s, t)),
            None => None,
        },
        BinaryFunction::StrStarts => match both_forms(a, b) {
            Some((s, t)) => Some(starts(s, t)),
            None => None,
        },
        BinaryFunction::StrEnds => match both_forms(a, b) {
            Some((s, t)) => Some(ends(s, t)),
            None => None,
        },
    }
}
