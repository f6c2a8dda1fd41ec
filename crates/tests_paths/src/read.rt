//! The pairs of a path over the store, held against those that are due.

use crate::outcome::Outcome;
use crate::paths::{Form, path};
use crate::stores::fill;
use qs_expr::Cell;
use qs_paths::{Pairs, pairs};
use qs_store::{Active, DefaultGraph, Store};
use qs_syntax_ast::path::Path;
use qs_terms::{Term, TermFault};
use std::alloc::Global;
use std::hash::RandomState;

/// What is asked: a path between two ends, each a letter, 's' for a scratch cell, or '?' where it is open; and the pairs that are due, two letters
/// each.
#[derive(Clone, Copy)]
pub struct Question {
    pub form: Form,
    pub left: u8,
    pub right: u8,
    pub due: &'static [[u8; 2]],
}

/// The term of a letter.
fn term_of(alloc: Global, letter: u8) -> Result<Term, TermFault> {
    match letter {
        b'a' => Term::iri(alloc, "e:a"),
        b'b' => Term::iri(alloc, "e:b"),
        b'c' => Term::iri(alloc, "e:c"),
        b'd' => Term::iri(alloc, "e:d"),
        _ => Term::iri(alloc, "e:g"),
    }
}

/// The cell of a letter: a known term's, or a place of a scratch table.
fn cell_of(alloc: Global, store: &Store, letter: u8) -> Result<Cell, TermFault> {
    if letter == b's' {
        return Ok(Cell::Scratch(7));
    }
    let term = term_of(alloc, letter)?;
    let number = store.find(&term);
    drop(term);
    match number {
        Some(number) => Ok(Cell::Known(number)),
        None => Err(TermFault::NotAbsolute),
    }
}

fn end_of(alloc: Global, store: &Store, letter: u8) -> Result<Option<Cell>, TermFault> {
    if letter == b'?' {
        return Ok(None);
    }
    let cell = cell_of(alloc, store, letter)?;
    Ok(Some(cell))
}

/// The pairs that are due, as cells.
fn cells_due(
    alloc: Global,
    store: &Store,
    due: &[[u8; 2]],
) -> Result<Vec<(Cell, Cell)>, TermFault> {
    let mut cells = Vec::new(alloc);
    for letters in due {
        let [left, right] = *letters;
        let left = cell_of(alloc, store, left)?;
        let right = cell_of(alloc, store, right)?;
        cells.push((left, right))?;
    }
    Ok(cells)
}

fn times(pairs: &[(Cell, Cell)], pair: (Cell, Cell)) -> usize {
    pairs.iter().filter(|other| **other == pair).count()
}

/// Whether two lists are the same bag.
fn are_same(found: &[(Cell, Cell)], due: &[(Cell, Cell)]) -> bool {
    found.len() == due.len()
        && due
            .iter()
            .all(|pair| times(found, *pair) == times(due, *pair))
}

/// Takes the next pair, and answers whether there is one.
fn takes_next(
    pairs: &mut Pairs<'_, Store>,
    found: &mut Vec<(Cell, Cell)>,
) -> Result<bool, TermFault> {
    match pairs.next() {
        Some(Ok(pair)) => {
            found.push(pair)?;
            Ok(true)
        }
        Some(Err(_)) => Err(TermFault::Memory),
        None => Ok(false),
    }
}

/// The pairs that are handed out, if they end.
fn handed_out(
    alloc: Global,
    store: &Store,
    active: Active,
    path: &Path,
    left: Option<Cell>,
    right: Option<Cell>,
) -> Result<Option<Vec<(Cell, Cell)>>, TermFault> {
    let mut found = Vec::new(alloc);
    let mut pairs = pairs(alloc, store, active, path, left, right);
    for _at in 0..32_u32 {
        if !takes_next(&mut pairs, &mut found)? {
            return Ok(Some(found));
        }
    }
    Ok(None)
}

/// The first pair and those that were found with it, if they were found whole.
fn found_whole(
    alloc: Global,
    store: &Store,
    active: Active,
    path: &Path,
    left: Option<Cell>,
    right: Option<Cell>,
) -> Result<Option<Vec<(Cell, Cell)>>, TermFault> {
    let mut found = Vec::new(alloc);
    let mut pairs = pairs(alloc, store, active, path, left, right);
    if !takes_next(&mut pairs, &mut found)? {
        return Ok(Some(found));
    }
    match pairs.rest_found()? {
        Some(mut rest) => {
            found.append(&mut rest)?;
            Ok(Some(found))
        }
        None => Ok(None),
    }
}

/// Whether the pairs that are asked for are found whole: those between open ends, but not those of one IRI or of a negated set.
fn comes_whole(question: &Question) -> bool {
    let is_scanned = matches!(
        question.form,
        Form::P | Form::InverseP | Form::NotQ | Form::NotInverseQ
    );
    question.left == b'?' && question.right == b'?' && !is_scanned
}

fn is_found_whole(
    alloc: Global,
    store: &Store,
    active: Active,
    path: &Path,
    question: &Question,
    due: &[(Cell, Cell)],
) -> Result<bool, TermFault> {
    let left = end_of(alloc, store, question.left)?;
    let right = end_of(alloc, store, question.right)?;
    match found_whole(alloc, store, active, path, left, right)? {
        Some(found) => Ok(are_same(found.as_slice(), due)),
        None => Ok(!comes_whole(question)),
    }
}

fn is_answered(
    alloc: Global,
    store: &Store,
    active: Active,
    path: &Path,
    question: &Question,
) -> Result<bool, TermFault> {
    let left = end_of(alloc, store, question.left)?;
    let right = end_of(alloc, store, question.right)?;
    let due = cells_due(alloc, store, question.due)?;
    match handed_out(alloc, store, active, path, left, right)? {
        Some(found) if are_same(found.as_slice(), due.as_slice()) => {
            is_found_whole(alloc, store, active, path, question, due.as_slice())
        }
        _ => Ok(false),
    }
}

fn answer(
    alloc: Global,
    store: &Store,
    active: Active,
    question: &Question,
) -> Result<bool, TermFault> {
    let path = path(alloc, question.form)?;
    let is_right = is_answered(alloc, store, active, &path, question);
    drop(path);
    is_right
}

/// The graph that is read, with the number of its name.
fn active_of(alloc: Global, store: &Store, graph: u8) -> Result<Active, TermFault> {
    match graph {
        b'?' => Ok(Active::Default),
        b'-' => Ok(Active::Empty),
        _ => match cell_of(alloc, store, b'g')? {
            Cell::Known(number) => Ok(Active::Graph(number)),
            Cell::Scratch(_) => Ok(Active::Empty),
        },
    }
}

fn are_answered(
    alloc: Global,
    store: &mut Store,
    graph: u8,
    questions: &[Question],
) -> Result<bool, TermFault> {
    if !fill(alloc, store)? {
        return Ok(false);
    }
    let active = active_of(alloc, store, graph)?;
    for question in questions {
        if !answer(alloc, store, active, question)? {
            return Ok(false);
        }
    }
    Ok(true)
}

/// What comes of the questions over a new store with this default graph; `graph` is '?' for it, '-' for no graph, or 'g'.
pub fn outcome(
    alloc: Global,
    hasher: Option<RandomState>,
    default: DefaultGraph,
    graph: u8,
    questions: &[Question],
) -> Outcome {
    let Some(hasher) = hasher else {
        return Outcome::Wrong;
    };
    let mut store = Store::with_default(alloc, 100, hasher, default);
    let is_right = are_answered(alloc, &mut store, graph, questions);
    drop(store);
    Outcome::of(is_right)
}
