//! The tables of VALUES (SPARQL 1.1 Query, 18.2.2.7).

ghost use Rattle.std.specs.Prelude.{◌≡◌, IfOk};

use qs_terms::Term;
use sqlite_items::Items;
use std::alloc::{AllocError, Global};

/// The table of VALUES: its variables, of which none stands twice, and its rows. None is UNDEF.
#[derive(Drop)]
pub struct Table {
    pub variables: Items<usize>,
    pub rows: Items<Items<Option<Term>>>,
}

impl Table {
    /// An equal table of its own.
    ///
    /// # Errors
    ///
    /// `AllocError` if memory runs out.
    pub fn copy(&self, alloc: Global) -> Result<Table, AllocError>
        ensures { IfOk result (λ copy. copy ≡ self.now) }
    {
        let variables = Items::from_slice(alloc, self.variables.as_slice())?;
        let rows = rows_copy(alloc, self.rows.as_slice())?;
        Ok(Table { variables, rows })
    }
}

/// Equal rows of their own.
///
/// # Errors
///
/// `AllocError` if memory runs out.
pub fn rows_copy(
    alloc: Global,
    rows: &[Items<Option<Term>>],
) -> Result<Items<Items<Option<Term>>>, AllocError>
    ensures { IfOk result (λ copies. copies ≡ rows.now) }
{
    let mut copies = Items::new(alloc);
    for row in rows {
        let row = row_copy(alloc, row.as_slice())?;
        copies.push(row)?;
    }
    Ok(copies)
}

fn row_copy(alloc: Global, row: &[Option<Term>]) -> Result<Items<Option<Term>>, AllocError>
    ensures { IfOk result (λ copy. copy ≡ row.now) }
{
    let mut copy = Items::new(alloc);
    for term in row {
        let term = cell_copy(term)?;
        copy.push(term)?;
    }
    Ok(copy)
}

fn cell_copy(term: &Option<Term>) -> Result<Option<Term>, AllocError>
    ensures { IfOk result (λ copy. copy ≡ term.now) }
{
    match term {
        None => Ok(None),
        Some(term) => Ok(Some(term.try_clone()?)),
    }
}
