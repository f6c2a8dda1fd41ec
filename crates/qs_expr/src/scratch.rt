//! The scratch table.

ghost use Rattle.std.specs.Prelude.{◌≡◌, ◌<◌, [], length, slice_get, Some, IfOk, OnOk, OnErr};
ghost use Rattle.std.specs.Option.{option_copied};
ghost use Rattle.qs_terms.specs.Bag.{with_new};
ghost use Rattle.qs_terms.specs.Term.{same_term};
ghost use Rattle.qs_expr_values.specs.inner.Value.{term_of};
ghost use Rattle.qs_dict.specs.inner.Dict.{IsInUse, term_at};
ghost use Rattle.qs_expr.specs.inner.Cell.{denoted, FitsCell};
ghost use Rattle.qs_expr.specs.inner.Scratch.{IsTable, Grows, with_term};

use crate::cell::Cell;
use indexmap::IndexSet;
use qs_base::drop_value;
use qs_expr_values::{KnownTerm, Value};
use qs_store::View;
use qs_terms::Term;
use std::alloc::{AllocError, Global};
use std::hash::RandomState;
use std::marker::Model;

/// Terms that the dictionary lacks, each once, in the order of their places. The table only grows. The terms are hashed by the view's
/// hasher, since strangers choose them.
#[derive(Drop)]
pub struct Scratch {
    terms: IndexSet<Term, RandomState>,
}

impl Model for Scratch {
    ghost use Rattle.std.specs.Prelude.{List};
    ghost use Rattle.qs_terms.specs.declared.term.Term.{Term};

    ghost Value = { List Term };

    ghost view = { λ s. s.terms.keys };
}

impl Scratch {
    /// A table of no terms, beside the dictionary of a view. It takes no memory.
    #[tactic(auto, using(crate::proofs::Finding::starts))]
    pub fn new<V: View>(alloc: Global, view: &V) -> Scratch
        ensures empty { result ≡ [] }
        ensures table { IsTable (V.content view.now).known result }
    {
        let _count = view.count();
        Scratch {
            terms: IndexSet::with_hasher(alloc, view.hasher()),
        }
    }

    /// The term at the place.
    fn term(&self, place: u64) -> &Term
        requires { place < length self.now }
        ensures { slice_get self.now place ≡ Some result.now }
    {
        &self.terms.as_slice()[place as usize]
    }

    /// The term at the place, if there is one.
    pub fn get(&self, place: u64) -> Option<&Term>
        ensures { option_copied result ≡ slice_get self.now place }
    {
        self.terms.get_index(place as usize)
    }

    // The place of the term, which is put at the end where it is new.
    pub(crate) fn place(&mut self, term: Term) -> Result<u64, AllocError>
        ensures terms { OnOk result (self.new ≡ with_new same_term self.old term) }
        ensures place { IfOk result (λ k. slice_get self.new k ≡ Some term) }
        ensures refused { OnErr result (self.new ≡ self.old) }
    {
        let (place, _) = self.terms.insert_full(term)?;
        Ok(place as u64)
    }
}

/// The term of a cell.
pub fn term<'a, V: View>(cell: Cell, view: &'a V, scratch: &'a Scratch) -> &'a Term
    requires { FitsCell (V.content view.now).known scratch.now cell }
    ensures { denoted (V.content view.now).known scratch.now cell ≡ Some result.now }
{
    match cell {
        Cell::Known(number) => view.term(number),
        Cell::Scratch(place) => scratch.term(place),
    }
}

// A term of the dictionary with what the view has read of it.
#[tactic(auto, using(crate::proofs::RowTerms::value_of_term))]
fn known<'a, V: View>(number: u32, view: &'a V) -> KnownTerm<'a>
    requires { IsInUse (V.content view.now).known number }
    ensures { term_at (V.content view.now).known number ≡ Some result }
{
    KnownTerm::new(view.term(number), view.value(number))
}

/// The term of a cell as a value. What a term of the dictionary is worth was read when it was put there.
pub fn value<'a, V: View>(cell: Cell, view: &'a V, scratch: &'a Scratch) -> Value<'a>
    requires { FitsCell (V.content view.now).known scratch.now cell }
    ensures { denoted (V.content view.now).known scratch.now cell ≡ Some (term_of result) }
{
    match cell {
        Cell::Known(number) => Value::Known(known(number, view)),
        Cell::Scratch(place) => Value::Term(scratch.term(place)),
    }
}

/// The cell of the term. The table gets the term where neither the dictionary nor the table has it, and is else left alone.
///
/// # Errors
/// Out of memory, which changes nothing.
pub fn intern_owned<V: View>(
    term: Term,
    view: &V,
    scratch: &mut Scratch,
) -> Result<Cell, AllocError>
    requires { IsTable (V.content view.now).known scratch.old }
    ensures cell { IfOk result (λ c. denoted (V.content view.now).known scratch.new c ≡ Some term) }
    ensures table { OnOk result (scratch.new ≡ with_term (V.content view.now).known scratch.old
        term) }
    ensures grows { Grows (V.content view.now).known scratch.old scratch.new }
    ensures refused { OnErr result (scratch.new ≡ scratch.old) }
{
    match view.find(&term) {
        Some(number) => {
            drop_value(term);
            Ok(Cell::Known(number))
        }
        None => {
            let place = scratch.place(term)?;
            Ok(Cell::Scratch(place))
        }
    }
}

/// The cell of the term, as `intern_owned` answers it; a new term in the table has its texts in common with this one.
///
/// # Errors
/// Out of memory, which changes nothing.
pub fn intern<V: View>(term: &Term, view: &V, scratch: &mut Scratch) -> Result<Cell, AllocError>
    requires { IsTable (V.content view.now).known scratch.old }
    ensures cell { IfOk result (λ c. denoted (V.content view.now).known scratch.new c
        ≡ Some term.now) }
    ensures table { OnOk result (scratch.new ≡ with_term (V.content view.now).known scratch.old
        term.now) }
    ensures grows { Grows (V.content view.now).known scratch.old scratch.new }
    ensures refused { OnErr result (scratch.new ≡ scratch.old) }
{
    match view.find(term) {
        Some(number) => Ok(Cell::Known(number)),
        None => {
            let own = term.try_clone()?;
            let place = scratch.place(own)?;
            Ok(Cell::Scratch(place))
        }
    }
}
