//! What ORDER BY sorts by.

ghost use Rattle.std.specs.Prelude.{◌≡◌, IfOk, OnErr, IsTrue};
ghost use Rattle.std.specs.Option.{option_copied, option_map};
ghost use Rattle.qs_expr_values.specs.Sorting as spec;
ghost use Rattle.qs_expr_values.specs.inner.Sorting as inner;
ghost use Rattle.qs_expr_values.specs.inner.Value.{term_of, parts_of};
ghost use Rattle.qs_expr_values.specs.Values.{worth};

use crate::same::{Parts, taken_apart};
use crate::value::Value;
use crate::worth::{Worth, worth_of};
use itoa::Buffer;
use qs_terms::Text;
use std::alloc::{AllocError, Global};
use std::cmp::Ordering;

/// The key of a term in ORDER BY, in ascending order of its kinds (SPARQL 1.1 Query, 15.1). Terms whose keys are equal tie.
#[derive(Drop, PartialEq, Eq, PartialOrd, Ord)]
pub enum Key {
    /// An unbound variable, or an error.
    Unbound,
    Blank(u64),
    Iri(Text),
    Boolean(bool),
    Integer(i128),
    String(Text),
    /// Any other literal: its datatype, its form and its tag.
    Other(Text, Text, Option<Text>),
}

impl Key {
    /// How the keys stand to each other in ascending order.
    #[tactic(auto, using(crate::proofs::Keys::cmp_is))]
    pub fn order(&self, other: &Key) -> Ordering
        ensures { result ≡ spec.compare_keys self.now other.now }
    {
        self.cmp(other)
    }
}

fn copied(alloc: Global, text: Option<&str>) -> Result<Option<Text>, AllocError>
    ensures { IfOk result (λ t. t ≡ option_copied text.entry) }
{
    match text {
        None => Ok(None),
        Some(text) => Ok(Some(Text::new(alloc, text)?)),
    }
}

// The key of a literal without a value.
fn other_key(
    alloc: Global,
    form: &str,
    datatype: &str,
    tag: Option<&str>,
) -> Result<Key, AllocError>
    ensures { IfOk result
        (λ k. k ≡ inner.other_key form.now datatype.now (option_copied tag.entry)) }
{
    let datatype = Text::new(alloc, datatype)?;
    let form = Text::new(alloc, form)?;
    let tag = copied(alloc, tag)?;
    Ok(Key::Other(datatype, form, tag))
}

// The key of a term of these parts that is worth nothing.
fn plain_key(alloc: Global, parts: Parts<'_>) -> Result<Key, AllocError>
    ensures key { IfOk result (λ k. k ≡ inner.plain_key (parts_of parts.entry)) }
    ensures memory { OnErr result
        (IsTrue (inner.has_text (inner.plain_key (parts_of parts.entry)))) }
{
    match parts {
        Parts::Iri(text) => Ok(Key::Iri(Text::new(alloc, text)?)),
        Parts::Blank(number) => Ok(Key::Blank(number)),
        Parts::Literal(form, datatype, tag) => other_key(alloc, form, datatype, tag),
    }
}

// The key of a value. Of a boolean and of an integer nothing but the worth is read.
fn key_of(alloc: Global, value: &Value<'_>) -> Result<Key, AllocError>
    ensures key { IfOk result (λ k. k ≡ spec.key_by_worth (worth (term_of value.entry.now))
        (term_of value.entry.now)) }
    ensures memory { OnErr result
        (IsTrue
        (inner.has_text (spec.key_by_worth (worth (term_of value.entry.now))
        (term_of value.entry.now)))) }
{
    match worth_of(value) {
        Worth::Boolean(truth) => Ok(Key::Boolean(truth)),
        Worth::Integer(number) => Ok(Key::Integer(number)),
        Worth::Text(form) => Ok(Key::String(Text::new(alloc, form)?)),
        Worth::Other => {
            let mut buffer = Buffer::new();
            plain_key(alloc, taken_apart(value, &mut buffer))
        }
    }
}

/// The key of a value, none being an unbound variable or an error. It takes memory for texts alone.
pub fn order_key(alloc: Global, value: Option<&Value<'_>>) -> Result<Key, AllocError>
    ensures key { IfOk result
        (λ k. k ≡ spec.key_of (option_map term_of (option_copied value.entry))) }
    ensures memory { OnErr result
        (IsTrue (inner.has_text (spec.key_of (option_map term_of (option_copied value.entry))))) }
{
    match value {
        None => Ok(Key::Unbound),
        Some(value) => key_of(alloc, value),
    }
}
