//! Solution mappings (SPARQL 1.1 Query, 18.1.8).

ghost use Rattle.std.specs.Prelude.{◌≡◌, length, take, IfOk, None, Some, slice_set, option_to_list};
ghost use Rattle.std.specs.Option.{option_copied};
ghost use Rattle.qs_algebra_solutions.specs.Solution.{term_at, unbound, binding, projected};

use qs_terms::Term;
use std::alloc::{AllocError, Global};
use std::marker::Model;

/// A solution: at each variable's number its term, or none where it is not bound.
#[derive(Debug, Drop)]
pub struct Row {
    cells: Vec<Option<Term>>,
}

impl Model for Row {
    ghost use Rattle.std.specs.Prelude.{List, Option};
    ghost use Rattle.qs_terms.specs.declared.term.Term.{Term};

    ghost Value = { List (Option Term) };

    ghost view = { λ r. r.cells.items };
}

fn copied(cell: Option<&Term>) -> Result<Option<Term>, AllocError>
    ensures { IfOk result (λ c. c ≡ option_copied cell.entry) }
{
    match cell {
        Some(term) => {
            let term = term.try_clone()?;
            Ok(Some(term))
        }
        None => Ok(None),
    }
}

impl Row {
    /// So many variables, none of them bound.
    #[tactic(auto, using(crate::proofs::Unbound::unbound_more))]
    pub fn unbound(alloc: Global, width: usize) -> Result<Row, AllocError>
        ensures { IfOk result (λ r. r ≡ unbound width) }
    {
        let mut cells = Vec::with_capacity(alloc, width)?;
        for _ in 0..width {
            cells.push(None)?;
        }
        Ok(Row { cells })
    }

    /// So many variables, of which these are bound to these terms, and no other. Where a term is none, its variable is unbound.
    #[tactic(auto, using(crate::proofs::Bindings::one_more, crate::proofs::Bindings::none_left))]
    pub fn binding(
        alloc: Global,
        width: usize,
        variables: &[usize],
        terms: &[Option<Term>],
    ) -> Result<Row, AllocError>
        ensures { IfOk result (λ r. r ≡ binding width variables.now terms.now) }
    {
        let mut row = Row::unbound(alloc, width)?;
        for at in 0..variables.len().min(terms.len()) {
            let cell = copied(terms[at].as_ref())?;
            row.set(variables[at], cell);
        }
        Ok(row)
    }

    /// How many variables it has, bound or not.
    pub fn len(&self) -> usize
        ensures { result ≡ length self.now }
    {
        self.cells.len()
    }

    /// The term of a variable; none for one past the last.
    pub fn term(&self, variable: usize) -> Option<&Term>
        ensures { option_copied result ≡ term_at self.now variable }
    {
        match self.cells.get(variable) {
            Some(cell) => cell.as_ref(),
            None => None,
        }
    }

    /// The terms of these variables alone, in their order (SPARQL 1.1 Query, 18.5: Project).
    pub fn project(&self, alloc: Global, columns: &[usize]) -> Result<Row, AllocError>
        ensures { IfOk result (λ r. r ≡ projected columns.now self.now) }
    {
        let mut cells = Vec::with_capacity(alloc, columns.len())?;
        for column in columns {
            let cell = copied(self.term(*column))?;
            cells.push(cell)?;
        }
        Ok(Row { cells })
    }

    // Binds the variable to the term, or to none; one past the last stays as it is.
    fn set(&mut self, variable: usize, term: Option<Term>)
        ensures { self.new ≡ slice_set self.old variable term }
    {
        if let Some(cell) = self.cells.get_mut(variable) {
            *cell = term;
        }
    }

    /// Binds the variable; one past the last stays as it is.
    pub fn bind(&mut self, variable: usize, term: Term)
        ensures { self.new ≡ slice_set self.old variable (Some term) }
    {
        self.set(variable, Some(term));
    }

    /// Leaves the first `width` variables.
    pub fn truncate(&mut self, width: usize)
        ensures { self.new ≡ take width self.old }
    {
        self.cells.truncate(width);
    }
}
