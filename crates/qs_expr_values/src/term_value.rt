//! Values of terms as a table keeps them.

ghost use Rattle.std.specs.Prelude.{◌≡◌};
ghost use Rattle.qs_expr_values.specs.inner.TermValue as spec;
ghost use Rattle.qs_expr_values.specs.inner.Value.{seen};

use crate::worth::{Worth, worth_of_term};
use qs_terms::Term;

/// What is kept of a term in 16 bytes, so that its text needn't be read for its value: a boolean, or an integer of 64 bits. Of a wider
/// integer and of a string the kind is kept, and the text is read.
#[derive(Clone, Copy, Debug, PartialEq, Eq)]
pub enum TermValue {
    Boolean(bool),
    Integer(i64),
    /// An integer of the range that doesn't fit in 64 bits.
    Wide,
    /// A string without a language tag.
    Text,
    /// Anything else: an IRI, a blank node, or a literal that is worth none of these.
    Other,
}

// The integer, where it fits in 64 bits.
#[tactic(auto, using(crate::proofs::Kept::narrowed, crate::proofs::Kept::too_wide))]
fn integer_or_wide(number: i128) -> TermValue
    ensures { result ≡ spec.integer_or_wide number }
{
    match i64::try_from(number) {
        Ok(number) => TermValue::Integer(number),
        Err(_) => TermValue::Wide,
    }
}

// What is kept of a term that is worth so much.
fn value_of_worth(worth: Worth<'_>) -> TermValue
    ensures { result ≡ spec.value_of_worth (seen worth.entry) }
{
    match worth {
        Worth::Integer(number) => integer_or_wide(number),
        Worth::Boolean(truth) => TermValue::Boolean(truth),
        Worth::Text(_) => TermValue::Text,
        Worth::Other => TermValue::Other,
    }
}

impl TermValue {
    /// What is kept of the term. It takes no memory.
    pub fn of(term: &Term) -> TermValue
        ensures { result ≡ spec.term_value term.now }
    {
        value_of_worth(worth_of_term(term))
    }
}
