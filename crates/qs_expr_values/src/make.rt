//! Terms of values.

ghost use Rattle.std.specs.Prelude.{◌≡◌, IfErr, IfOk, IsTrue, ℕ, List, Ok, Some};
ghost use Rattle.std.specs.Option.{option_copied};
ghost use Rattle.qs_terms.specs.Tag.{is_tag, lowered};
ghost use Rattle.qs_terms.specs.declared.fault.TermFault.TheVariants.{Memory};
ghost use Rattle.qs_terms.specs.declared.term.Term.TheVariants as rdf;
ghost use Rattle.qs_expr_values.specs.Values as spec;
ghost use Rattle.qs_expr_values.specs.inner.Value.{term_of, datatype_text};

use crate::datatype::Datatype;
use crate::value::{Value, boolean_form};
use itoa::Buffer;
use qs_terms::{Lit, Term, TermFault, Text};
use std::alloc::{AllocError, Global};

fn boolean(alloc: Global, truth: bool) -> Result<Term, AllocError>
    ensures { IfOk result (λ t. t ≡ spec.boolean_term truth) }
{
    let form = Text::new(alloc, boolean_form(truth))?;
    let lit = Lit::boolean(alloc, form)?;
    Ok(Term::Literal(lit))
}

#[tactic(auto, unfolding(crate::specs::Number::canonical))]
fn integer(alloc: Global, number: i128) -> Result<Term, AllocError>
    ensures { IfOk result (λ t. t ≡ spec.integer_term number) }
{
    let mut buffer = Buffer::new();
    let form = Text::new(alloc, buffer.format(number))?;
    let lit = Lit::integer(alloc, form)?;
    Ok(Term::Literal(lit))
}

fn string(alloc: Global, form: Text) -> Result<Term, AllocError>
    ensures { IfOk result (λ t. t ≡ spec.text_term form) }
{
    let lit = Lit::string(alloc, form)?;
    Ok(Term::Literal(lit))
}

fn string_of_copy(alloc: Global, form: &str) -> Result<Term, AllocError>
    ensures { IfOk result (λ t. t ≡ spec.text_term form.now) }
{
    let form = Text::new(alloc, form)?;
    string(alloc, form)
}

// What was made of lawful parts: these have one fault, running out of memory.
fn of_lawful<T: Drop>(made: Result<T, TermFault>) -> Result<T, AllocError>
    requires { IfErr made (λ fault. fault ≡ Memory) }
    ensures { IfOk result (λ t. made ≡ Ok t) }
{
    match made {
        Ok(made) => Ok(made),
        Err(TermFault::Memory) => Err(AllocError),
        Err(_) => unreachable!(),
    }
}

// The tag of a literal. Reading the form tells that the literal is lawful, and so that its tag is one and in lower case.
#[tactic(auto, using(crate::proofs::Lawful::tag_as_kept, crate::proofs::Lawful::tag_is_tag))]
fn kept_tag(lit: &Lit) -> Option<&str>
    ensures tag { option_copied result ≡ lit.now.tag }
    ensures lawful { (t : List ℕ) → lit.now.tag ≡ Some t → IsTrue (is_tag t) }
    ensures kept { (t : List ℕ) → lit.now.tag ≡ Some t → lowered t ≡ t }
{
    let _form = lit.form();
    lit.tag()
}

#[tactic(auto, using(crate::proofs::Lawful::tagged_or_memory))]
fn tagged(alloc: Global, form: Text, lit: &Lit) -> Result<Term, AllocError>
    ensures { IfOk result (λ t. t ≡ spec.strung lit.now.tag form) }
{
    match kept_tag(lit) {
        None => string(alloc, form),
        Some(tag) => {
            let tag = Text::new(alloc, tag)?;
            let lit = of_lawful(Lit::with_tag(alloc, form, tag))?;
            Ok(Term::Literal(lit))
        }
    }
}

#[tactic(auto, using(crate::proofs::Lawful::iri_or_memory))]
fn datatype(alloc: Global, datatype: Datatype<'_>) -> Result<Term, AllocError>
    ensures { IfOk result (λ t. t ≡ rdf.Iri (datatype_text datatype.entry)) }
{
    of_lawful(Term::iri(alloc, datatype.text()))
}

/// The term of a value.
pub fn make_term(alloc: Global, value: Value<'_>) -> Result<Term, AllocError>
    ensures { IfOk result (λ t. t ≡ term_of value.entry) }
{
    match value {
        Value::Term(term) => term.try_clone(),
        Value::Known(known) => known.term().try_clone(),
        Value::Boolean(truth) => boolean(alloc, truth),
        Value::Integer(number) => integer(alloc, number),
        Value::Text(form) => string_of_copy(alloc, form),
        Value::Digits(form) => string_of_copy(alloc, form.as_str()),
        Value::Made(form) => string(alloc, form),
        Value::Tagged(form, lit) => tagged(alloc, form, lit),
        Value::Datatype(of) => datatype(alloc, of),
    }
}
