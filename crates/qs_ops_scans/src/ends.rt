//! The ends of a path pattern, and what a pair of cells makes of a row.

ghost use Rattle.std.specs.Prelude.{◌≡◌, true};
ghost use Rattle.qs_expr.specs.inner.Cell.{Cells, cell_at};
ghost use Rattle.qs_expr.specs.declared.cell.Cell.{Cell as CellValue};
ghost use Rattle.qs_algebra_patterns.specs.Basic.{is_repeated};
ghost use Rattle.qs_ops_scans.specs.inner.Ends.{act_agrees, act_bound, acts_agree, acts_bound, binds_end, bound_cell, end_acts, ends_of, object_act, open_act, subject_act, variable_of};

use crate::bind::bind_cell;
use qs_algebra_patterns::{PathPattern, Slot};
use qs_expr::{Cell, Row, is_same};

/// The variables at the ends of a path pattern.
#[derive(Clone, Copy)]
pub struct Ends {
    pub subject: Option<usize>,
    pub object: Option<usize>,
}

fn variable_of(slot: &Slot) -> Option<usize>
    ensures { result ≡ variable_of slot.now }
{
    match slot {
        Slot::Term(_) => None,
        Slot::Variable(variable) => Some(*variable),
    }
}

/// The variables at the ends of the pattern.
pub(crate) fn ends_of(pattern: &PathPattern) -> Ends
    ensures { result ≡ ends_of pattern.now }
{
    Ends {
        subject: variable_of(&pattern.subject),
        object: variable_of(&pattern.object),
    }
}

/// Whether both ends are the same variable.
pub(crate) fn is_repeated(subject: &Slot, object: &Slot) -> bool
    ensures { result ≡ is_repeated subject.now object.now }
{
    match (subject, object) {
        (Slot::Variable(one), Slot::Variable(other)) => *other == *one,
        _ => false,
    }
}

/// The cell that the row has for the variable of an end.
pub(crate) fn bound_cell(row: &Row, end: Option<usize>) -> Option<Cell>
    ensures { result ≡ bound_cell row.now end }
{
    match end {
        None => None,
        Some(variable) => row.cell(variable),
    }
}

/// What is left to do for one end of a pair.
#[derive(Clone, Copy)]
pub enum EndAct {
    /// Nothing: all pairs end at the term.
    Pass,
    /// Bind the variable.
    Bind(usize),
    /// Test that it is the cell of the row.
    Test(Cell),
    /// Test that it is the subject's cell.
    AsSubject,
}

/// What is left to do for the ends of a pair.
#[derive(Clone, Copy)]
pub struct EndActs {
    pub subject: EndAct,
    pub object: EndAct,
}

fn subject_act(row: &Row, subject: Option<usize>) -> EndAct
    ensures { result ≡ subject_act row.now subject }
{
    let Some(variable) = subject else {
        return EndAct::Pass;
    };
    match row.cell(variable) {
        None => EndAct::Bind(variable),
        Some(cell) => EndAct::Test(cell),
    }
}

/// Whether the end has this variable, and the row a cell for it.
fn binds_end(row: &Row, end: Option<usize>, variable: usize) -> bool
    ensures { result ≡ binds_end row.now end variable }
{
    match end {
        None => false,
        Some(other) => other == variable && variable < row.width(),
    }
}

fn open_act(binds: bool, variable: usize) -> EndAct
    ensures { result ≡ open_act binds variable }
{
    if binds {
        EndAct::AsSubject
    } else {
        EndAct::Bind(variable)
    }
}

fn object_act(row: &Row, subject: Option<usize>, object: Option<usize>) -> EndAct
    ensures { result ≡ object_act row.now subject object }
{
    let Some(variable) = object else {
        return EndAct::Pass;
    };
    match row.cell(variable) {
        None => open_act(binds_end(row, subject, variable), variable),
        Some(cell) => EndAct::Test(cell),
    }
}

/// What is left to do for each pair, for this row.
pub(crate) fn end_acts(row: &Row, ends: &Ends) -> EndActs
    ensures { result ≡ end_acts row.now ends.now }
{
    EndActs {
        subject: subject_act(row, ends.subject),
        object: object_act(row, ends.subject, ends.object),
    }
}

#[inline(always)]
fn act_agrees(act: EndAct, subject: Cell, cell: Cell) -> bool
    ensures { result ≡ act_agrees act subject cell }
{
    match act {
        EndAct::Test(bound) => is_same(bound, cell),
        EndAct::AsSubject => is_same(subject, cell),
        _ => true,
    }
}

/// Whether the cells agree with the row.
#[inline(always)]
pub(crate) fn pair_agrees(acts: &EndActs, cells: &(Cell, Cell)) -> bool
    ensures { result ≡ acts_agree acts.now cells.now }
{
    act_agrees(acts.subject, cells.0, cells.0) && act_agrees(acts.object, cells.0, cells.1)
}

#[inline(always)]
fn bind_end(row: &mut Row, act: EndAct, cell: Cell)
    ensures { row.new ≡ act_bound act cell row.old }
{
    if let EndAct::Bind(variable) = act {
        bind_cell(row, variable, cell);
    }
}

/// Binds the variables of the ends that are not bound.
#[inline(always)]
pub(crate) fn bind_pair(row: &mut Row, acts: &EndActs, cells: &(Cell, Cell))
    ensures { row.new ≡ acts_bound acts.now cells.now row.old }
{
    bind_end(row, acts.subject, cells.0);
    bind_end(row, acts.object, cells.1);
}

/// Whether the act leaves the variable as it is.
#[tactic(auto, using(crate::proofs::Common::set_other))]
fn act_leaves(act: EndAct, variable: usize) -> bool
    ensures { result ≡ true → (c : CellValue) (m : Cells) → cell_at (act_bound act c m) variable
        ≡ cell_at m variable }
{
    match act {
        EndAct::Bind(other) => other != variable,
        _ => true,
    }
}

/// Whether no pair binds the variable.
pub(crate) fn leaves(acts: &EndActs, variable: usize) -> bool
    ensures { result ≡ true → (cells : CellValue × CellValue) (m : Cells)
        → cell_at (acts_bound acts.now cells m) variable ≡ cell_at m variable }
{
    act_leaves(acts.subject, variable) && act_leaves(acts.object, variable)
}
