//! Triples that make rows with the same cells at some variables: which numbers they have in common, and which place is to be in front so that they
//! follow one another.

ghost use Rattle.std.specs.Prelude.{◌≡◌, ℕ, List, true, false, Some};
ghost use Rattle.std.specs.List.{AllByRecursion};
ghost use Rattle.qs_store.specs.inner.Triples.{triple_fits};
ghost use Rattle.qs_expr.specs.inner.Cell.{Cells, cell_at};
ghost use Rattle.qs_ops_scans.specs.inner.Skipped.{SharesCellAt};
ghost use Rattle.qs_ops_scans.specs.declared.opened.Act.TheVariants as act_of;
ghost use Rattle.qs_ops_scans.specs.inner.Opened.{act_bound, bound};
ghost use Rattle.qs_ops_scans.specs.inner.Skipped.{IsNumberOf, Tells};

use crate::opened::{Act, Acts, Given};
use qs_expr::{Cell, Row, is_same};
use qs_index::permutation::Lead;

/// Whether the act binds one of these variables.
fn is_wanted(act: Act, columns: &[usize]) -> bool {
    match act {
        Act::Bind(variable) => columns.contains(&variable),
        _ => false,
    }
}

/// The place that is to be in front so that triples with the same terms at these variables follow one another, where no place is given to
/// the scan. It is a hint alone.
pub(crate) fn lead_of(acts: &Acts, columns: &[usize]) -> Lead {
    let subject = is_wanted(acts.subject, columns);
    let predicate = is_wanted(acts.predicate, columns);
    let object = is_wanted(acts.object, columns);
    if object && !predicate {
        return Lead::Object;
    }
    if predicate && !subject {
        return Lead::Predicate;
    }
    Lead::Subject
}

/// The number that the row has at the variable which the act binds, if that is one of these.
fn wanted_at(act: Act, columns: &[usize], row: &Row) -> Option<u32> {
    let Act::Bind(variable) = act else {
        return None;
    };
    if !columns.contains(&variable) {
        return None;
    }
    match row.cell(variable) {
        Some(Cell::Known(number)) => Some(number),
        _ => None,
    }
}

/// The numbers that triples have in common which make rows with the row's cells at these variables.
pub(crate) fn wanted_of(acts: &Acts, columns: &[usize], row: &Row) -> Given {
    Given {
        subject: wanted_at(acts.subject, columns, row),
        predicate: wanted_at(acts.predicate, columns, row),
        object: wanted_at(acts.object, columns, row),
    }
}

fn binds_it(act: Act, variable: usize) -> bool
    ensures bind { result ≡ true → act ≡ act_of.Bind variable }
    ensures leaves { result ≡ false → (n : ℕ) (m : Cells) → cell_at (act_bound act n m) variable
        ≡ cell_at m variable }
{
    match act {
        Act::Bind(other) => other == variable,
        _ => false,
    }
}

fn is_number_of(cell: Option<Cell>, number: Option<u32>) -> bool
    ensures { result ≡ true → IsNumberOf cell number }
{
    match (cell, number) {
        (Some(Cell::Known(own)), Some(number)) => own == number,
        _ => false,
    }
}

fn are_same(cell: Option<Cell>, other: Option<Cell>) -> bool
    ensures { result ≡ true → SharesCellAt cell other }
{
    match (cell, other) {
        (Some(cell), Some(other)) => is_same(cell, other),
        _ => false,
    }
}

/// Whether each triple with these numbers makes a row that has the row's cell at the variable.
#[tactic(auto, using(crate::proofs::Skipping::object_tells, crate::proofs::Skipping::predicate_tells, crate::proofs::Skipping::subject_tells, crate::proofs::Skipping::own_tells))]
fn tells(acts: &Acts, own: &Row, given: Given, variable: usize, row: &Row) -> bool
    ensures { result ≡ true → Tells acts.now own.now given row.now variable }
{
    if own.width() <= variable {
        return false;
    }
    let cell = row.cell(variable);
    if binds_it(acts.object, variable) {
        return is_number_of(cell, given.object);
    }
    if binds_it(acts.predicate, variable) {
        return is_number_of(cell, given.predicate);
    }
    if binds_it(acts.subject, variable) {
        return is_number_of(cell, given.subject);
    }
    are_same(cell, own.cell(variable))
}

/// Whether each triple with these numbers makes a row that has the row's cells at these variables.
pub(crate) fn all_tell(acts: &Acts, own: &Row, given: Given, columns: &[usize], row: &Row) -> bool
    ensures { result ≡ true → AllByRecursion (Tells acts.now own.now given row.now) columns.now }
{
    for column in columns {
        if !tells(acts, own, given, *column, row) {
            return false;
        }
    }
    true
}
