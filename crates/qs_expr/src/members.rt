//! Constants among which values are looked up.

ghost use Rattle.std.specs.Prelude.{◌≡◌, ◌&&◌, ◌||◌, Bool, List, ℕ, IfOk, OnOk, IsTrue};
ghost use Rattle.std.specs.List.{list_all, list_any};
ghost use Rattle.qs_algebra_solutions.specs.Solution.{Solution};
ghost use Rattle.qs_terms.specs.declared.term.Term.{Term as TermValue};
ghost use Rattle.qs_expr_values.specs.Values as of_terms;
ghost use Rattle.qs_expr_values.specs.inner.Value.{seen, term_of};
ghost use Rattle.qs_expr.specs.inner.Members.{clash_by, differs, differs_member, equals, equals_member, errs_by, hit_by, is_apart, is_in, is_in_by, others, IsEmpty, IsProper, IsTextOrOther};
ghost use Rattle.qs_terms.specs.Term.{same_term};

use crate::constant::{is_literal, worth_of_constant};
use indexmap::IndexSet;
use qs_expr_meaning::Expr;
use qs_expr_values::{Value, Worth, worth_of};
use qs_terms::Term;
use std::alloc::{AllocError, Global};
use std::hash::RandomState;

/// Of which kinds some member is. `other` is for literals without a value.
#[derive(Clone, Copy)]
pub(crate) struct Kinds {
    integer: bool,
    boolean: bool,
    text: bool,
    other: bool,
}

/// The members of a list of constants, in sets by what they are worth. A value is looked up in place of being compared with each.
#[derive(Drop)]
pub(crate) struct Members {
    integers: IndexSet<i128, RandomState>,
    /// The terms that are worth neither an integer nor a boolean.
    terms: IndexSet<Term, RandomState>,
    has_true: bool,
    has_false: bool,
    kinds: Kinds,
}

impl Kinds {
    // Whether some member is a literal of another kind than a literal of this worth.
    fn others(self, worth: Worth<'_>) -> bool
        ensures { result ≡ others self (seen worth.entry) }
    {
        match worth {
            Worth::Integer(_) => self.boolean || self.text || self.other,
            Worth::Boolean(_) => self.integer || self.text || self.other,
            Worth::Text(_) => self.integer || self.boolean || self.other,
            Worth::Other => self.integer || self.boolean || self.text || self.other,
        }
    }
}

/// Shows that a string without a tag is one term alone: no literal of xsd:string has a tag.
#[tactic(auto, using(crate::proofs::Hits::plain_proper, crate::proofs::Hits::literal_proper))]
pub(crate) fn show_proper(term: &Term)
    ensures { IsProper term.now }
{
    match term {
        Term::Iri(_) => {}
        Term::Blank(_) => {}
        Term::Literal(lit) => {
            let _form = lit.form();
        }
    }
}

impl Members {
    /// No members, in sets that hash by these.
    pub(crate) fn new(alloc: Global, hasher: RandomState, other: RandomState) -> Members
        ensures { IsEmpty result }
    {
        Members {
            integers: IndexSet::with_hasher(alloc, hasher),
            terms: IndexSet::with_hasher(alloc, other),
            has_true: false,
            has_false: false,
            kinds: Kinds {
                integer: false,
                boolean: false,
                text: false,
                other: false,
            },
        }
    }

    // Whether a member equals the term of this worth.
    fn has(&self, term: &Term, worth: Worth<'_>) -> bool
        ensures { result ≡ is_in_by self.now term.now (seen worth.entry) }
    {
        match worth {
            Worth::Integer(number) => self.integers.contains(&number),
            Worth::Boolean(truth) => { if truth { self.has_true } else { self.has_false } }
            Worth::Text(_) => self.terms.contains(term),
            Worth::Other => self.terms.contains(term),
        }
    }

    // Whether the comparison of a term of this worth with some member errs, or would if they weren't the same.
    fn errs(&self, term: &Term, worth: Worth<'_>) -> bool
        ensures { result ≡ errs_by self.now (of_terms.is_literal term.now) (seen worth.entry) }
    {
        match worth {
            Worth::Other => is_literal(term) && self.kinds.others(worth),
            _ => self.kinds.others(worth),
        }
    }

    fn put_integer(&mut self, number: i128) -> Result<(), AllocError>
        ensures hits { OnOk result ((x : TermValue) (w : of_terms.Worth) (s : Bool)
            → is_in_by self.new x w
            ≡ (is_in_by self.old x w || hit_by s w (of_terms.integer number))) }
        ensures errs { OnOk result ((l : Bool) (m : Bool) (w : of_terms.Worth)
            → errs_by self.new l w
            ≡ (errs_by self.old l w || clash_by l w m (of_terms.integer number))) }
    {
        self.integers.insert(number)?;
        self.kinds.integer = true;
        Ok(())
    }

    fn put_boolean(&mut self, truth: bool)
        ensures hits { (x : TermValue) (w : of_terms.Worth) (s : Bool) → is_in_by self.new x w
            ≡ (is_in_by self.old x w || hit_by s w (of_terms.boolean truth)) }
        ensures errs { (l : Bool) (m : Bool) (w : of_terms.Worth) → errs_by self.new l w
            ≡ (errs_by self.old l w || clash_by l w m (of_terms.boolean truth)) }
    {
        if truth {
            self.has_true = true;
        } else {
            self.has_false = true;
        }
        self.kinds.boolean = true;
    }

    // Puts the term that is worth a text or nothing into the set of terms.
    fn put_term(&mut self, term: &Term) -> Result<(), AllocError>
        ensures hits { OnOk result ((x : TermValue) (w : of_terms.Worth) (v : of_terms.Worth)
            → IsTextOrOther v → is_in_by self.new x w
            ≡ (is_in_by self.old x w || hit_by (same_term x term.now) w v)) }
        ensures errs { OnOk result ((l : Bool) (w : of_terms.Worth)
            → errs_by self.new l w ≡ errs_by self.old l w) }
    {
        let own = term.try_clone()?;
        self.terms.insert(own)?;
        Ok(())
    }

    fn put_other(&mut self, term: &Term) -> Result<(), AllocError>
        ensures hits { OnOk result ((x : TermValue) (w : of_terms.Worth) → is_in_by self.new x w
            ≡ (is_in_by self.old x w || hit_by (same_term x term.now) w of_terms.other)) }
        ensures errs { OnOk result ((l : Bool) (w : of_terms.Worth) → errs_by self.new l w
            ≡ (errs_by self.old l w
            || clash_by l w (of_terms.is_literal term.now) of_terms.other)) }
    {
        self.put_term(term)?;
        if is_literal(term) {
            self.kinds.other = true;
        }
        Ok(())
    }

    fn put_text(&mut self, term: &Term) -> Result<(), AllocError>
        ensures hits { OnOk result ((x : TermValue) (w : of_terms.Worth) (s : List ℕ)
            → is_in_by self.new x w
            ≡ (is_in_by self.old x w || hit_by (same_term x term.now) w (of_terms.text s))) }
        ensures errs { OnOk result ((l : Bool) (m : Bool) (w : of_terms.Worth) (s : List ℕ)
            → errs_by self.new l w
            ≡ (errs_by self.old l w || clash_by l w m (of_terms.text s))) }
    {
        self.put_term(term)?;
        self.kinds.text = true;
        Ok(())
    }

    // Puts the constant, which is worth this, among the members.
    fn put_by(&mut self, term: &Term, worth: Worth<'_>) -> Result<(), AllocError>
        ensures hits { OnOk result ((x : TermValue) (w : of_terms.Worth) → is_in_by self.new x w
            ≡ (is_in_by self.old x w || hit_by (same_term x term.now) w (seen worth.entry))) }
        ensures errs { OnOk result ((l : Bool) (w : of_terms.Worth) → errs_by self.new l w
            ≡ (errs_by self.old l w
            || clash_by l w (of_terms.is_literal term.now) (seen worth.entry))) }
    {
        match worth {
            Worth::Integer(number) => {
                self.put_integer(number)?;
                Ok(())
            }
            Worth::Boolean(truth) => {
                self.put_boolean(truth);
                Ok(())
            }
            Worth::Text(_) => {
                self.put_text(term)?;
                Ok(())
            }
            Worth::Other => {
                self.put_other(term)?;
                Ok(())
            }
        }
    }

    /// Puts the constant among the members.
    pub(crate) fn put(&mut self, term: &Term) -> Result<(), AllocError>
        ensures hits { OnOk result ((x : TermValue) → IsProper x → is_in self.new x
            ≡ (is_in self.old x || equals x term.now)) }
        ensures apart { OnOk result ((x : TermValue) → IsProper x → is_apart self.new x
            ≡ (is_apart self.old x && differs x term.now)) }
    {
        show_proper(term);
        self.put_by(term, worth_of_constant(term))?;
        Ok(())
    }

    /// Puts the expressions among the members where all of them are constants, and returns whether they are.
    pub(crate) fn put_all(&mut self, exprs: &[Expr]) -> Result<bool, AllocError>
        ensures hits { IfOk result (λ all. IsTrue all → (m : Solution) (x : TermValue) → IsProper x
            → is_in self.new x ≡ (is_in self.old x || list_any (equals_member m x) exprs.now)) }
        ensures apart { IfOk result (λ all. IsTrue all → (m : Solution) (x : TermValue) → IsProper x
            → is_apart self.new x
            ≡ (is_apart self.old x && list_all (differs_member m x) exprs.now)) }
    {
        for expr in exprs {
            let Expr::Term(term) = expr else {
                return Ok(false);
            };
            self.put(term)?;
        }
        Ok(true)
    }

    /// Whether the term of the value equals some member.
    pub(crate) fn is_in(&self, term: &Term, value: &Value<'_>) -> bool
        requires { term.now ≡ term_of value.now }
        ensures { result ≡ is_in self.now term.now }
    {
        self.has(term, worth_of(value))
    }

    /// Whether the term of the value differs from each member, so that no comparison errs.
    pub(crate) fn is_apart(&self, term: &Term, value: &Value<'_>) -> bool
        requires { term.now ≡ term_of value.now }
        ensures { result ≡ is_apart self.now term.now }
    {
        let worth = worth_of(value);
        !(self.has(term, worth) || self.errs(term, worth))
    }
}
