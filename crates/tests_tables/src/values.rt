//! The rows of `VALUES (?1 ?0) { (e:a 1) (UNDEF e:a) }`, of three variables each, over a store that has no terms.

use crate::outcome::Outcome;
use qs_algebra_patterns::Table;
use qs_expr::{Cell, Scratch};
use qs_ops_tables::table_rows;
use qs_store::Store;
use qs_terms::{Term, TermFault};
use sqlite_items::Items;
use std::alloc::{AllocError, Global};
use std::hash::RandomState;

const INTEGER: &str = "http://www.w3.org/2001/XMLSchema#integer";

fn had(term: Result<Term, TermFault>) -> Result<Term, AllocError> {
    match term {
        Ok(term) => Ok(term),
        Err(_) => Err(AllocError),
    }
}

fn table(alloc: Global) -> Result<Table, AllocError> {
    let mut first = Items::new(alloc);
    first.push(Some(had(Term::iri(alloc, "e:a"))?))?;
    first.push(Some(had(Term::literal(alloc, "1", INTEGER))?))?;
    let mut second = Items::new(alloc);
    second.push(None)?;
    second.push(Some(had(Term::iri(alloc, "e:a"))?))?;
    let mut rows = Items::new(alloc);
    rows.push(first)?;
    rows.push(second)?;
    let variables = Items::from_slice(alloc, &[1, 0])?;
    Ok(Table { variables, rows })
}

fn are_right(alloc: Global, store: &Store) -> Result<bool, AllocError> {
    let table = table(alloc)?;
    let mut scratch = Scratch::new(alloc, store);
    let rows = table_rows(alloc, store, &mut scratch, &table, 3)?;
    let a = Some(Cell::Scratch(0));
    let one = Some(Cell::Scratch(1));
    let are_rows = match rows.as_slice() {
        [first, second] => {
            first.cell(0) == one
                && first.cell(1) == a
                && first.cell(2) == None
                && second.cell(0) == a
                && second.cell(1) == None
                && second.width() == 3
        }
        _ => false,
    };
    drop(table);
    Ok(are_rows)
}

/// What comes of a table over an empty store.
pub fn outcome(alloc: Global, hasher: Option<RandomState>) -> Outcome {
    let Some(hasher) = hasher else {
        return Outcome::Wrong;
    };
    let store = Store::new(alloc, 100, hasher);
    let outcome = Outcome::of(are_right(alloc, &store));
    drop(store);
    outcome
}
