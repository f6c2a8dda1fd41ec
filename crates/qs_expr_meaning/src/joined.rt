//! CONCAT (SPARQL 1.1 Query, 17.4.3.12), one string after another.

ghost use Rattle.std.specs.Prelude.{◌≡◌, string_bytes};
ghost use Rattle.std.specs.Option.{option_copied};
ghost use Rattle.qs_terms.specs.Term.{same_tag};
ghost use Rattle.qs_expr_values.specs.inner.Value.{term_of};
ghost use Rattle.qs_expr_meaning.specs.inner.Joined as spec;

use crate::call::string_of;
use crate::fault::ExprFault;
use qs_expr_values::Value;
use qs_terms::{Lit, Term, Text};

fn literal_of(term: &Term) -> Option<&Lit>
    ensures { spec.tag_in (option_copied result) ≡ spec.tag_of_term term.now }
{
    match term {
        Term::Iri(_) => None,
        Term::Blank(_) => None,
        Term::Literal(lit) => Some(lit),
    }
}

// The literal that a value's tag stands in, if it has one.
#[tactic(auto, using(crate::proofs::Strings::tag_of_strung))]
fn tag_of<'a>(value: &Value<'a>) -> Option<&'a Lit>
    ensures { spec.tag_in (option_copied result) ≡ spec.tag_of_term (term_of value.entry.now) }
{
    match value {
        Value::Term(term) => literal_of(term),
        Value::Known(known) => literal_of(known.term()),
        Value::Tagged(_, lit) => Some(lit),
        _ => None,
    }
}

fn tag_text<'a>(lit: Option<&'a Lit>) -> Option<&'a str>
    ensures { option_copied result ≡ spec.tag_in (option_copied lit.entry) }
{
    match lit {
        Some(lit) => lit.tag(),
        None => None,
    }
}

fn is_same_tag(a: Option<&str>, b: Option<&str>) -> bool
    ensures { result ≡ same_tag (option_copied a.entry) (option_copied b.entry) }
{
    match (a, b) {
        (Some(x), Some(y)) => x == y,
        (None, None) => true,
        _ => false,
    }
}

// The tag so far, if the next string has it too.
fn agreed<'a>(tag: Option<Option<&'a Lit>>, next: Option<&'a Lit>) -> Option<&'a Lit>
    ensures { spec.tag_in (option_copied result) ≡ spec.with_tag (spec.tag_seen tag.entry)
        (spec.tag_in (option_copied next.entry)) }
{
    match tag {
        None => next,
        Some(tag) => {
            if is_same_tag(tag_text(tag), tag_text(next)) {
                tag
            } else {
                None
            }
        }
    }
}

/// Adds a string to the form, and tells the literal whose tag all have, if they have one. `tag` is none before the first string.
#[tactic(auto, using(crate::proofs::Strings::tag_of_parts))]
pub(crate) fn add<'a>(
    form: &mut String,
    tag: Option<Option<&'a Lit>>,
    value: &Value<'a>,
) -> Result<Option<&'a Lit>, ExprFault>
    ensures { spec.JoinsTo (spec.with_value (string_bytes form.old, spec.tag_seen tag.entry)
        (term_of value.entry.now)) (string_bytes form.new) result }
{
    match string_of(value) {
        None => Err(ExprFault::TypeError),
        Some((text, _)) => {
            form.push_str(text)?;
            Ok(agreed(tag, tag_of(value)))
        }
    }
}

/// The string of all.
pub(crate) fn finish<'a>(form: String, tag: Option<Option<&'a Lit>>) -> Value<'a>
    ensures { term_of result ≡ spec.finished (string_bytes form, spec.tag_seen tag.entry) }
{
    match tag {
        Some(Some(lit)) => Value::Tagged(Text::from(form), lit),
        _ => Value::Made(Text::from(form)),
    }
}
