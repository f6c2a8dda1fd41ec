//! What a scan leaves to be tested and bound for a row.

ghost use Rattle.std.specs.Prelude.{◌≡◌, ◌∷◌, [], ℕ, List, true};
ghost use Rattle.qs_expr.specs.inner.Cell.{Cells, cell_at};
ghost use Rattle.qs_ops_scans.specs.inner.Opened.{act_bound, act_passes, acts_of, binds, bound, given_cell, given_of, givens, if_open, object_act, passes, predicate_act, subject_act};

use crate::pattern::{Place, PreparedTriple};
use qs_expr::{Cell, Row};

/// What is left to do for one place of a triple of the scan.
#[derive(Clone, Copy)]
pub enum Act {
    /// Nothing: the scan gives only triples that agree.
    Pass,
    /// Bind the variable.
    Bind(usize),
    /// Test that the subject has the same number.
    AsSubject,
    /// Test that the predicate has the same number.
    AsPredicate,
}

/// What is left to do for a triple of the scan.
#[derive(Clone, Copy)]
pub struct Acts {
    pub subject: Act,
    pub predicate: Act,
    pub object: Act,
}

/// The numbers that are given to a scan.
#[derive(Clone, Copy)]
pub struct Given {
    pub subject: Option<u32>,
    pub predicate: Option<u32>,
    pub object: Option<u32>,
}

fn given_cell(cell: Option<Cell>) -> Option<Option<u32>>
    ensures { result ≡ given_cell cell }
{
    match cell {
        None => Some(None),
        Some(Cell::Known(number)) => Some(Some(number)),
        Some(Cell::Scratch(_)) => None,
    }
}

fn given_of(place: Place, row: &Row) -> Option<Option<u32>>
    ensures { result ≡ given_of place row.now }
{
    match place {
        Place::Absent => None,
        Place::Number(number) => Some(Some(number)),
        Place::Variable(variable) => given_cell(row.cell(variable)),
    }
}

/// The numbers that the pattern and the row give to a scan, or none where a place has a term that the dictionary lacks.
pub(crate) fn givens(pattern: &PreparedTriple, row: &Row) -> Option<Given>
    ensures { result ≡ givens pattern.now row.now }
{
    match (
        given_of(pattern.subject, row),
        given_of(pattern.predicate, row),
        given_of(pattern.object, row),
    ) {
        (Some(subject), Some(predicate), Some(object)) => Some(Given {
            subject,
            predicate,
            object,
        }),
        _ => None,
    }
}

fn binds(row: &Row, place: Place, variable: usize) -> bool
    ensures { result ≡ binds row.now place variable }
{
    match place {
        Place::Variable(other) => other == variable && variable < row.width(),
        _ => false,
    }
}

fn if_open(cell: Option<Cell>, act: Act) -> Act
    ensures { result ≡ if_open cell act }
{
    match cell {
        None => act,
        Some(_) => Act::Pass,
    }
}

fn subject_act(row: &Row, place: Place) -> Act
    ensures { result ≡ subject_act row.now place }
{
    match place {
        Place::Variable(variable) => if_open(row.cell(variable), Act::Bind(variable)),
        _ => Act::Pass,
    }
}

fn predicate_act(row: &Row, subject: Place, place: Place) -> Act
    ensures { result ≡ predicate_act row.now subject place }
{
    match place {
        Place::Variable(variable) => {
            let act = if binds(row, subject, variable) {
                Act::AsSubject
            } else {
                Act::Bind(variable)
            };
            if_open(row.cell(variable), act)
        }
        _ => Act::Pass,
    }
}

fn object_act(row: &Row, subject: Place, predicate: Place, place: Place) -> Act
    ensures { result ≡ object_act row.now subject predicate place }
{
    match place {
        Place::Variable(variable) => {
            let act = if binds(row, subject, variable) {
                Act::AsSubject
            } else if binds(row, predicate, variable) {
                Act::AsPredicate
            } else {
                Act::Bind(variable)
            };
            if_open(row.cell(variable), act)
        }
        _ => Act::Pass,
    }
}

/// What is left to do for each triple of a scan with the numbers that the pattern and the row give.
pub(crate) fn acts_of(pattern: &PreparedTriple, row: &Row) -> Acts
    ensures { result ≡ acts_of pattern.now row.now }
{
    Acts {
        subject: subject_act(row, pattern.subject),
        predicate: predicate_act(row, pattern.subject, pattern.predicate),
        object: object_act(row, pattern.subject, pattern.predicate, pattern.object),
    }
}

#[inline(always)]
fn act_passes(act: Act, triple: &[u32; 3], number: u32) -> bool
    ensures { result ≡ act_passes act triple.now number }
{
    match act {
        Act::AsSubject => triple[0] == number,
        Act::AsPredicate => triple[1] == number,
        _ => true,
    }
}

/// Whether places with the same variable have the same number.
#[inline(always)]
pub(crate) fn passes(acts: &Acts, triple: &[u32; 3]) -> bool
    ensures { result ≡ passes acts.now triple.now }
{
    act_passes(acts.predicate, triple, triple[1]) && act_passes(acts.object, triple, triple[2])
}

/// Whether the act leaves the variable as it is.
#[tactic(auto, using(crate::proofs::Common::set_other))]
fn act_leaves(act: Act, variable: usize) -> bool
    ensures { result ≡ true → (n : ℕ) (m : Cells) → cell_at (act_bound act n m) variable
        ≡ cell_at m variable }
{
    match act {
        Act::Bind(other) => other != variable,
        _ => true,
    }
}

/// Whether no triple binds the variable.
pub(crate) fn leaves(acts: &Acts, variable: usize) -> bool
    ensures { result ≡ true → (x : List ℕ) (m : Cells) → cell_at (bound acts.now x m) variable
        ≡ cell_at m variable }
{
    act_leaves(acts.subject, variable)
        && act_leaves(acts.predicate, variable)
        && act_leaves(acts.object, variable)
}
