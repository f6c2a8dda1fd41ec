//! The parts of a prepared condition.

ghost use Rattle.std.specs.Prelude.{◌≡◌, ℕ, List, Bool, Some, true, false, not, is_some, slice_get, IfOk, IsTrue, OnErr};
ghost use Rattle.qs_terms.specs.Term.{same_term};
ghost use Rattle.qs_terms.specs.declared.term.Term.{Term as TermValue};
ghost use Rattle.qs_dict.specs.inner.Dict.{number_of};
ghost use Rattle.qs_algebra_solutions.specs.Solution.{Solution, term_at};
ghost use Rattle.qs_expr_meaning.specs.inner.Makes.{makes};
ghost use Rattle.qs_expr_meaning.specs.Meaning as spec;
ghost use Rattle.qs_expr.specs.inner.Cell.{denoted, FitsRow};
ghost use Rattle.qs_expr.specs.inner.Evaluated.{holds_at};
ghost use Rattle.qs_expr.specs.inner.Scratch.{IsTable};
ghost use Rattle.qs_expr.specs.declared.cell.Cell.TheVariants as cells;
ghost use Rattle.qs_expr.specs.inner.Against.{has_term};

use crate::among::AmongConstants;
use crate::cell::{Cell, is_same};
use crate::constant::AgainstConstant;
use crate::evaluate::holds;
use crate::row::Row;
use crate::scratch::{Scratch, term, value};
use qs_expr_meaning::Expr;
use qs_store::View;
use qs_terms::Term;
use std::alloc::{AllocError, Global};

/// Whether a variable has a term, by the number of the term; where it is `apart`, whether the variable has another one.
#[derive(Drop)]
pub(crate) struct HasTerm<'e> {
    pub(crate) expr: &'e Expr,
    pub(crate) variable: usize,
    pub(crate) term: &'e Term,
    /// The term's number, where the dictionary has it.
    pub(crate) number: Option<u32>,
    pub(crate) apart: bool,
    ghost sound: { (m : Solution) → spec.holds m expr.now ≡ has_term apart term.now (term_at m variable) },
}

/// A comparison of two variables that is known where their terms are the same.
#[derive(Drop)]
pub(crate) struct AreAlike<'e> {
    pub(crate) expr: &'e Expr,
    pub(crate) first: usize,
    pub(crate) second: usize,
    /// What it is where the terms are the same.
    pub(crate) truth: bool,
    /// Whether it is the other truth value where they aren't.
    pub(crate) exact: bool,
    ghost alike: { (m : Solution) (x : TermValue) → term_at m first ≡ Some x → term_at m second ≡ Some x → spec.holds m expr.now ≡ truth },
    ghost unlike: { exact ≡ true → (m : Solution) (x y : TermValue) → term_at m first ≡ Some x → term_at m second ≡ Some y → same_term x y ≡ false → spec.holds m expr.now ≡ not truth },
}

/// A part of a condition, which must be true for the condition to be.
#[derive(Drop)]
pub(crate) enum Part<'e> {
    Has(HasTerm<'e>),
    Alike(AreAlike<'e>),
    Against(AgainstConstant<'e>),
    Among(AmongConstants<'e>),
    Other(&'e Expr),
}

impl<'e> HasTerm<'e> {
    // Whether the term at the place is this one.
    fn is_at(&self, place: u64, scratch: &Scratch) -> bool
        requires { IsTrue (is_some (slice_get scratch.now place)) }
        ensures { (x : TermValue) → slice_get scratch.now place ≡ Some x
            → result ≡ same_term x self.now.term.now }
    {
        let Some(term) = scratch.get(place) else {
            unreachable!()
        };
        term.is_same(self.term)
    }

    // Whether the cell is the term's: by the numbers alone, where the dictionary has the term or the cell's.
    #[tactic(auto, using(crate::proofs::Numbered::known_is, crate::proofs::Numbered::known_is_not, crate::proofs::Numbered::scratch_is_not))]
    fn is_it(&self, cell: Cell, scratch: &Scratch) -> bool
        requires { (k : ℕ) → cell ≡ cells.Scratch k → IsTrue (is_some (slice_get scratch.now k)) }
        ensures { (known : List TermValue) (x : TermValue) → IsTable known scratch.now
            → self.now.number ≡ number_of known self.now.term.now → denoted known scratch.now cell
            ≡ Some x → result ≡ same_term x self.now.term.now }
    {
        match (cell, self.number) {
            (Cell::Known(number), Some(own)) => number == own,
            (Cell::Known(_), None) => false,
            (Cell::Scratch(_), Some(_)) => false,
            (Cell::Scratch(place), None) => self.is_at(place, scratch),
        }
    }

    /// Whether it is true of the row.
    #[tactic(auto, using(crate::proofs::Numbered::scratch_fits))]
    fn holds<V: View>(&self, row: &Row, view: &V, scratch: &Scratch) -> bool
        requires table { IsTable (V.content view.now).known scratch.now }
        requires row { FitsRow (V.content view.now).known scratch.now row.now }
        requires number { self.now.number ≡ number_of (V.content view.now).known self.now.term.now }
        ensures { result ≡ holds_at (V.content view.now).known scratch.now row.now
            self.now.expr.now }
    {
        match row.cell(self.variable) {
            Some(cell) => {
                if self.apart {
                    !self.is_it(cell, scratch)
                } else {
                    self.is_it(cell, scratch)
                }
            }
            None => false,
        }
    }
}

impl<'e> AreAlike<'e> {
    // What it is of two cells, where the cells tell.
    fn told(&self, a: Cell, other: Cell) -> Option<bool>
        ensures { (known table : List TermValue) (x y : TermValue) (m : Solution) (b : Bool)
            → IsTable known table → denoted known table a ≡ Some x → denoted known table other
            ≡ Some y → term_at m self.now.first ≡ Some x → term_at m self.now.second ≡ Some y
            → result ≡ Some b → spec.holds m self.now.expr.now ≡ b }
    {
        if is_same(a, other) {
            Some(self.truth)
        } else if self.exact {
            Some(!self.truth)
        } else {
            None
        }
    }

    /// Whether it is true of the row. Only where the cells don't tell are the terms looked at.
    fn holds<V: View>(
        &self,
        alloc: Global,
        row: &Row,
        view: &V,
        scratch: &Scratch,
    ) -> Result<bool, AllocError>
        requires table { IsTable (V.content view.now).known scratch.now }
        requires row { FitsRow (V.content view.now).known scratch.now row.now }
        ensures value { IfOk result
            (λ b. b ≡ holds_at (V.content view.now).known scratch.now row.now self.now.expr.now) }
        ensures memory { OnErr result (makes self.now.expr.now ≡ true) }
    {
        if let (Some(a), Some(b)) = (row.cell(self.first), row.cell(self.second)) {
            if let Some(truth) = self.told(a, b) {
                return Ok(truth);
            }
        }
        holds(alloc, self.expr, row, view, scratch)
    }
}

// Whether the comparison with a constant is true of the row.
fn is_against<V: View>(
    alloc: Global,
    against: &AgainstConstant<'_>,
    row: &Row,
    view: &V,
    scratch: &Scratch,
) -> Result<bool, AllocError>
    requires row { FitsRow (V.content view.now).known scratch.now row.now }
    ensures value { IfOk result (λ b. b ≡ holds_at (V.content view.now).known scratch.now row.now
        against.now.expr.now) }
    ensures memory { OnErr result (makes against.now.expr.now ≡ true) }
{
    if let Some(cell) = row.cell(against.variable) {
        if let Some(truth) = against.compare(&value(cell, view, scratch)) {
            return Ok(truth);
        }
    }
    holds(alloc, against.expr, row, view, scratch)
}

// Whether the IN or NOT IN of constants is true of the row.
fn is_among<V: View>(
    alloc: Global,
    among: &AmongConstants<'_>,
    row: &Row,
    view: &V,
    scratch: &Scratch,
) -> Result<bool, AllocError>
    requires row { FitsRow (V.content view.now).known scratch.now row.now }
    ensures value { IfOk result (λ b. b ≡ holds_at (V.content view.now).known scratch.now row.now
        among.now.expr.now) }
    ensures memory { OnErr result (makes among.now.expr.now ≡ true) }
{
    match row.cell(among.variable) {
        Some(cell) => {
            let own = value(cell, view, scratch);
            Ok(among.is_true(term(cell, view, scratch), &own))
        }
        None => holds(alloc, among.expr, row, view, scratch),
    }
}

impl<'e> Part<'e> {
    ghost use Rattle.std.specs.Prelude.{◌≡◌, true, IfOk, OnErr};
    ghost use Rattle.qs_expr_meaning.specs.inner.Makes.{makes};
    ghost use Rattle.qs_expr.specs.inner.Cell.{FitsRow};
    ghost use Rattle.qs_expr.specs.inner.Evaluated.{holds_at};
    ghost use Rattle.qs_expr.specs.inner.Scratch.{IsTable};
    ghost use Rattle.qs_expr.specs.inner.Parts.{asked, IsNumbered};

    /// Whether the part is true of the row.
    pub(crate) fn holds<V: View>(
        &self,
        alloc: Global,
        row: &Row,
        view: &V,
        scratch: &Scratch,
    ) -> Result<bool, AllocError>
        requires number { IsNumbered (V.content view.now).known self.now }
        requires table { IsTable (V.content view.now).known scratch.now }
        requires row { FitsRow (V.content view.now).known scratch.now row.now }
        ensures value { IfOk result
            (λ b. b ≡ holds_at (V.content view.now).known scratch.now row.now (asked self.now)) }
        ensures memory { OnErr result (makes (asked self.now) ≡ true) }
    {
        match self {
            Part::Has(part) => Ok(part.holds(row, view, scratch)),
            Part::Alike(part) => part.holds(alloc, row, view, scratch),
            Part::Against(part) => is_against(alloc, part, row, view, scratch),
            Part::Among(part) => is_among(alloc, part, row, view, scratch),
            Part::Other(expr) => holds(alloc, expr, row, view, scratch),
        }
    }
}
