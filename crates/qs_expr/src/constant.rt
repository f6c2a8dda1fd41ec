//! Comparisons with a constant, whose worth is read once.

ghost use Rattle.std.specs.Prelude.{◌≡◌, List, ℕ, Bool, Some};
ghost use Rattle.std.specs.declared.cmp.Ordering.{Ordering as OrderingValue};
ghost use Rattle.qs_terms.specs.declared.term.Term.{Term as TermValue};
ghost use Rattle.qs_algebra_solutions.specs.Solution.{Solution, term_at};
ghost use Rattle.qs_expr_meaning.specs.Meaning as spec;
ghost use Rattle.qs_expr_values.specs.inner.Value.{seen, term_of};
ghost use Rattle.qs_expr_values.specs.Values as of_terms;
ghost use Rattle.qs_expr.specs.inner.Against.{ordered, satisfies, with_constant};

use qs_expr_meaning::{Comparison, Expr};
use qs_expr_values::{Value, Worth, compare, worth_of};
use qs_terms::Term;
use std::cmp::Ordering;

/// The comparison of a variable with a literal, of which it keeps what the literal is worth.
#[derive(Drop)]
pub(crate) struct AgainstConstant<'e> {
    pub(crate) expr: &'e Expr,
    pub(crate) comparison: Comparison,
    pub(crate) variable: usize,
    pub(crate) worth: Worth<'e>,
    /// Whether the literal is the first operand.
    pub(crate) first: bool,
    ghost sound: { (m : Solution) (x : TermValue) (o : OrderingValue) → term_at m variable ≡ Some x → ordered first (seen worth) (of_terms.worth x) ≡ Some o → spec.holds m expr.now ≡ satisfies comparison o },
}

/// Whether the term is a literal.
pub(crate) fn is_literal(term: &Term) -> bool
    ensures { result ≡ of_terms.is_literal term.now }
{
    match term {
        Term::Iri(_) => false,
        Term::Blank(_) => false,
        Term::Literal(_) => true,
    }
}

/// The form of a literal, as what it is worth.
#[tactic(auto, using(crate::proofs::Said::text_is_form))]
fn form_of(term: &Term) -> Worth<'_>
    ensures { (s : List ℕ) → of_terms.worth term.now ≡ of_terms.text s
        → seen result ≡ of_terms.text s }
{
    match term {
        Term::Literal(lit) => Worth::Text(lit.form()),
        Term::Iri(_) => Worth::Other,
        Term::Blank(_) => Worth::Other,
    }
}

/// What the term is worth.
pub(crate) fn worth_of_constant(term: &Term) -> Worth<'_>
    ensures { seen result ≡ of_terms.worth term.now }
{
    let value = Value::Term(term);
    match worth_of(&value) {
        Worth::Integer(number) => Worth::Integer(number),
        Worth::Boolean(truth) => Worth::Boolean(truth),
        Worth::Text(_) => form_of(term),
        Worth::Other => Worth::Other,
    }
}

/// Whether the comparison is true of two values of one kind that compare so.
fn satisfies(comparison: Comparison, order: Ordering) -> bool
    ensures { result ≡ satisfies comparison order }
{
    match comparison {
        Comparison::Equal => order.is_eq(),
        Comparison::NotEqual => !order.is_eq(),
        Comparison::Less => order.is_lt(),
        Comparison::Greater => order.is_gt(),
        Comparison::LessOrEqual => order.is_le(),
        Comparison::GreaterOrEqual => order.is_ge(),
    }
}

impl<'e> AgainstConstant<'e> {
    /// The comparison of the variable with the literal, or of the literal with the variable where the literal is the first operand.
    #[tactic(auto, using(crate::proofs::Said::against_sound))]
    pub(crate) fn new(
        expr: &'e Expr,
        comparison: Comparison,
        variable: usize,
        constant: &'e Term,
        first: bool,
    ) -> AgainstConstant<'e>
        requires { expr.now ≡ with_constant first comparison variable constant.now }
        ensures { result.expr.now ≡ expr.now }
    {
        let worth = worth_of_constant(constant);
        AgainstConstant {
            expr,
            comparison,
            variable,
            worth,
            first,
        }
    }

    // How the value compares with the constant, or the constant with the value where the constant is the first operand.
    fn order(&self, value: &Value<'_>) -> Option<Ordering>
        ensures { result ≡ ordered self.now.first (seen self.now.worth)
            (of_terms.worth (term_of value.entry.now)) }
    {
        if self.first {
            compare(self.worth, worth_of(value))
        } else {
            compare(worth_of(value), self.worth)
        }
    }

    /// Whether the comparison is true of the value, where both are worth something of one kind.
    pub(crate) fn compare(&self, value: &Value<'_>) -> Option<bool>
        ensures { (m : Solution) (b : Bool) → term_at m self.now.variable
            ≡ Some (term_of value.entry.now) → result ≡ Some b → spec.holds m self.now.expr.now
            ≡ b }
    {
        match self.order(value) {
            Some(order) => Some(satisfies(self.comparison, order)),
            None => None,
        }
    }
}
