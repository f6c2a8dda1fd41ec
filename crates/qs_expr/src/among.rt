//! IN and NOT IN of constants, which look values up.

ghost use Rattle.std.specs.Prelude.{◌≡◌, Some, IfOk, IfSome};
ghost use Rattle.qs_terms.specs.declared.term.Term.{Term as TermValue};
ghost use Rattle.qs_algebra_solutions.specs.Solution.{Solution, term_at};
ghost use Rattle.qs_expr_meaning.specs.Meaning as spec;
ghost use Rattle.qs_expr_values.specs.inner.Value.{term_of};
ghost use Rattle.qs_expr.specs.inner.Members.{among_by, decided, IsProper};

use crate::members::{Members, show_proper};
use qs_expr_meaning::Expr;
use qs_expr_values::Value;
use qs_store::View;
use qs_terms::Term;
use std::alloc::{AllocError, Global};

/// Whether a variable's value is among constants; where it is `denied`, whether it differs from each.
#[derive(Drop)]
pub(crate) struct AmongConstants<'e> {
    pub(crate) expr: &'e Expr,
    pub(crate) variable: usize,
    pub(crate) denied: bool,
    pub(crate) members: Members,
    ghost sound: { (m : Solution) (x : TermValue) → term_at m variable ≡ Some x → IsProper x → spec.holds m expr.now ≡ decided denied members x },
}

impl<'e> AmongConstants<'e> {
    /// The IN of the variable, or its NOT IN where it is `denied`, if all members are constants.
    ///
    /// # Errors
    /// Out of memory.
    pub(crate) fn new<V: View>(
        alloc: Global,
        expr: &'e Expr,
        denied: bool,
        variable: usize,
        exprs: &[Expr],
        view: &V,
    ) -> Result<Option<AmongConstants<'e>>, AllocError>
        requires { (m : Solution) → spec.holds m expr.now ≡ among_by denied m (term_at m variable)
            exprs.now }
        ensures { IfOk result (λ o. IfSome o (λ among. among.expr.now ≡ expr.now)) }
    {
        let mut members = Members::new(alloc, view.hasher(), view.hasher());
        if !members.put_all(exprs)? {
            return Ok(None);
        }
        Ok(Some(AmongConstants {
            expr,
            variable,
            denied,
            members,
        }))
    }

    /// Whether it is true of the term of the value.
    pub(crate) fn is_true(&self, term: &Term, value: &Value<'_>) -> bool
        requires { term.now ≡ term_of value.now }
        ensures { (m : Solution) → term_at m self.now.variable ≡ Some term.now
            → spec.holds m self.now.expr.now ≡ result }
    {
        show_proper(term);
        if self.denied {
            self.members.is_apart(term, value)
        } else {
            self.members.is_in(term, value)
        }
    }
}
