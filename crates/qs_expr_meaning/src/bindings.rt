//! Where the terms of variables come from.

ghost use Rattle.std.specs.Prelude.{◌≡◌};
ghost use Rattle.std.specs.Option.{option_copied, option_map};
ghost use Rattle.qs_algebra_solutions.specs.Solution.{Solution, term_at};
ghost use Rattle.qs_expr_values.specs.inner.Value.{term_of};

use qs_algebra_solutions::Row;
use qs_expr_values::Value;
use qs_terms::Term;

/// What gives variables their terms: a solution, or what denotes one.
pub trait Bindings {
    // The solution that it denotes.
    ghost solution: { Self → Solution };

    /// The term of a variable, if it is bound.
    fn term(&self, variable: usize) -> Option<&Term>
        ensures { option_copied result ≡ term_at (solution self.now) variable };

    /// The term of a variable as a value, if it is bound. What it is worth may have been read before.
    fn value(&self, variable: usize) -> Option<Value<'_>>
        ensures { option_map term_of result ≡ term_at (solution self.now) variable }
    {
        match self.term(variable) {
            Some(term) => Some(Value::Term(term)),
            None => None,
        }
    }
}

impl Bindings for Row {
    ghost solution = { λ r. r };

    fn term(&self, variable: usize) -> Option<&Term> {
        Row::term(self, variable)
    }
}
