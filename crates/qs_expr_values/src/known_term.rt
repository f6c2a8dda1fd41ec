//! Terms beside their values.

ghost use Rattle.std.specs.Prelude.{◌≡◌, Some};
ghost use Rattle.qs_expr_values.specs.inner.TermValue.{term_value};
ghost use Rattle.qs_expr_values.specs.inner.Value.{seen};
ghost use Rattle.qs_expr_values.specs.Values as spec;

use crate::number::is_other_than_zero;
use crate::term_value::TermValue;
use crate::value::ebv_of_term;
use crate::worth::{Worth, worth_of_term};
use qs_terms::Term;
use std::marker::Model;

/// A term that stands somewhere, and what a table keeps of it; contracts see the term. Booleans and integers of 64 bits are read from the
/// value, so that the term's text isn't read for them.
#[derive(Drop)]
pub struct KnownTerm<'a> {
    term: &'a Term,
    value: TermValue,
}

impl<'a> Model for KnownTerm<'a> {
    ghost use Rattle.std.specs.Prelude.{◌≡◌};
    ghost use Rattle.qs_terms.specs.declared.term.Term.{Term};
    ghost use Rattle.qs_expr_values.specs.inner.TermValue.{term_value};

    ghost Value = { Term };

    ghost view = { λ k. k.term.now };

    ghost invariant = { λ k. k.value ≡ term_value k.term.now };
}

// Whether the integer is other than 0.
fn is_true(number: i64) -> bool
    ensures { result ≡ spec.is_not_zero (Some number) }
{
    is_other_than_zero(i128::from(number))
}

impl<'a> KnownTerm<'a> {
    /// The term with its value.
    pub fn new(term: &'a Term, value: TermValue) -> KnownTerm<'a>
        requires { value ≡ term_value term.now }
        ensures { result ≡ term.now }
    {
        KnownTerm { term, value }
    }

    /// The term.
    pub fn term(&self) -> &'a Term
        ensures { result.now ≡ self.now }
    {
        self.term
    }

    /// What the term is worth.
    #[tactic(auto, using(crate::proofs::Kept::worth_of_integer, crate::proofs::Kept::worth_of_boolean, crate::proofs::Kept::worth_of_other))]
    pub fn worth(&self) -> Worth<'a>
        ensures { seen result ≡ spec.worth self.now }
    {
        match self.value {
            TermValue::Boolean(truth) => Worth::Boolean(truth),
            TermValue::Integer(number) => Worth::Integer(i128::from(number)),
            TermValue::Other => Worth::Other,
            TermValue::Wide | TermValue::Text => worth_of_term(self.term),
        }
    }

    /// The effective boolean value, if there is one (SPARQL 1.1 Query, 17.2.2).
    pub fn ebv(&self) -> Option<bool>
        ensures { result ≡ spec.ebv self.now }
    {
        match self.value {
            TermValue::Boolean(truth) => Some(truth),
            TermValue::Integer(number) => Some(is_true(number)),
            TermValue::Wide | TermValue::Text | TermValue::Other => ebv_of_term(self.term),
        }
    }
}
