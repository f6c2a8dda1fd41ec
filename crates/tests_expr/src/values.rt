//! Cells of values: one for each term, the dictionary's where it has the term.

ghost use Rattle.std.specs.Prelude.{◌≡◌};
ghost use Rattle.qs_expr.specs.inner.Cell.{FitsRow};
ghost use Rattle.qs_expr.specs.inner.Scratch.{IsTable};

use crate::expressions::{Operand, expr_of, sum, term};
use qs_base::drop_value;
use qs_expr::{Cell, Row, Scratch, ebv, eval, laws, order_key, value};
use qs_expr_meaning::{Expr, ExprFault};
use qs_expr_values::{Key, Worth, worth_of};
use qs_store::View;
use qs_terms::{Term, TermFault};
use std::alloc::Global;

/// What is due of an expression.
#[derive(Clone, Copy)]
enum Due {
    /// The dictionary's cell of an operand.
    Known(Operand),
    /// A place of the scratch table.
    Scratch(u64),
    Error,
}

fn number<V: View>(alloc: Global, of: Operand, view: &V) -> Result<Option<u32>, TermFault> {
    match term(alloc, of) {
        Ok(term) => Ok(view.find(&term)),
        Err(fault) => Err(fault),
    }
}

fn is_due<V: View>(
    alloc: Global,
    cell: Result<Cell, ExprFault>,
    due: Due,
    view: &V,
) -> Result<bool, TermFault> {
    match (cell, due) {
        (Err(ExprFault::Memory), _) => Err(TermFault::Memory),
        (Err(ExprFault::TypeError), Due::Error) => Ok(true),
        (Ok(Cell::Scratch(place)), Due::Scratch(own)) => Ok(place == own),
        (Ok(Cell::Known(found)), Due::Known(operand)) => {
            let own = number(alloc, operand, view)?;
            Ok(own == Some(found))
        }
        _ => Ok(false),
    }
}

fn is_value<V: View>(
    alloc: Global,
    expr: Result<Expr, TermFault>,
    due: Due,
    row: &Row,
    view: &V,
    scratch: &mut Scratch,
) -> Result<bool, TermFault>
    requires table { IsTable (V.content view.now).known scratch.old }
    requires fits { FitsRow (V.content view.now).known scratch.old row.now }
    ensures table { IsTable (V.content view.now).known scratch.new }
    ensures fits { FitsRow (V.content view.now).known scratch.new row.now }
{
    laws::rows_keep_their_solutions();
    match expr {
        Ok(expr) => {
            let cell = eval(alloc, &expr, row, view, scratch);
            drop_value(expr);
            is_due(alloc, cell, due, view)
        }
        Err(fault) => Err(fault),
    }
}

/// Expressions, as an operand or the sum of two, each with the cell that is due. The table begins with the two terms that the row put there.
const VALUES: &[(Operand, Option<Operand>, Due)] = &[
    (
        Operand::Variable(2),
        None,
        Due::Known(Operand::Integer("01")),
    ),
    (Operand::Variable(6), None, Due::Error),
    (Operand::Iri("e:none"), None, Due::Scratch(0)),
    (
        Operand::Integer("2"),
        None,
        Due::Known(Operand::Integer("2")),
    ),
    // 1 + 1 is the dictionary's 2
    (
        Operand::Integer("1"),
        Some(Operand::Integer("1")),
        Due::Known(Operand::Integer("2")),
    ),
    // 2 + 2 is new, and is 4 again where it is 3 + 1
    (
        Operand::Variable(3),
        Some(Operand::Variable(3)),
        Due::Scratch(2),
    ),
    (
        Operand::Integer("3"),
        Some(Operand::Integer("1")),
        Due::Scratch(2),
    ),
    (
        Operand::Variable(0),
        Some(Operand::Integer("1")),
        Due::Error,
    ),
    (
        Operand::Variable(6),
        Some(Operand::Integer("1")),
        Due::Error,
    ),
];

fn expression(alloc: Global, a: Operand, b: Option<Operand>) -> Result<Expr, TermFault> {
    match b {
        Some(b) => sum(alloc, a, b),
        None => expr_of(alloc, a),
    }
}

/// Whether each expression has the cell that is due.
pub fn are_values<V: View>(
    alloc: Global,
    row: &Row,
    view: &V,
    scratch: &mut Scratch,
) -> Result<bool, TermFault>
    requires table { IsTable (V.content view.now).known scratch.old }
    requires fits { FitsRow (V.content view.now).known scratch.old row.now }
    ensures table { IsTable (V.content view.now).known scratch.new }
    ensures fits { FitsRow (V.content view.now).known scratch.new row.now }
{
    for (a, b, due) in VALUES {
        let expr = expression(alloc, *a, *b);
        if !is_value(alloc, expr, *due, row, view, scratch)? {
            return Ok(false);
        }
    }
    Ok(true)
}

/// Whether the variable's term is true, false or neither.
fn is_true<V: View>(
    variable: usize,
    due: Result<bool, ExprFault>,
    row: &Row,
    view: &V,
    scratch: &Scratch,
) -> bool
    requires { FitsRow (V.content view.now).known scratch.now row.now }
{
    match row.cell(variable) {
        Some(cell) => ebv(cell, view, scratch) == due,
        None => false,
    }
}

/// Whether the key of the variable's term is this one.
fn is_key<V: View>(
    alloc: Global,
    variable: usize,
    due: &Key,
    row: &Row,
    view: &V,
    scratch: &Scratch,
) -> Result<bool, TermFault>
    requires { FitsRow (V.content view.now).known scratch.now row.now }
{
    let key = order_key(alloc, row.cell(variable), view, scratch)?;
    Ok(key == *due)
}

/// Whether the variable's term is the operand.
fn is_term<V: View>(
    alloc: Global,
    variable: usize,
    due: Operand,
    row: &Row,
    view: &V,
    scratch: &Scratch,
) -> Result<bool, TermFault>
    requires { FitsRow (V.content view.now).known scratch.now row.now }
{
    let due = term(alloc, due)?;
    match row.cell(variable) {
        Some(cell) => Ok(qs_expr::term(cell, view, scratch).is_same(&due)),
        None => Ok(false),
    }
}

/// Whether the variable's term is worth the integer, or isn't worth any where none is due.
fn is_worth<V: View>(
    variable: usize,
    due: Option<i128>,
    row: &Row,
    view: &V,
    scratch: &Scratch,
) -> bool
    requires { FitsRow (V.content view.now).known scratch.now row.now }
{
    match row.cell(variable) {
        Some(cell) => match worth_of(&value(cell, view, scratch)) {
            Worth::Integer(number) => due == Some(number),
            _ => due.is_none(),
        },
        None => false,
    }
}

/// Whether the terms of the store and of the table are worth what they ought to be.
fn are_worth<V: View>(row: &Row, view: &V, scratch: &Scratch) -> bool
    requires { FitsRow (V.content view.now).known scratch.now row.now }
{
    is_worth(0, None, row, view, scratch)
        && is_worth(2, Some(1), row, view, scratch)
        && is_worth(3, Some(2), row, view, scratch)
        && is_worth(5, None, row, view, scratch)
}

/// Whether terms, values, truth and keys of the row's cells are right.
pub fn are_read<V: View>(
    alloc: Global,
    row: &Row,
    view: &V,
    scratch: &Scratch,
) -> Result<bool, TermFault>
    requires { FitsRow (V.content view.now).known scratch.now row.now }
{
    let true_or_not = is_true(3, Ok(true), row, view, scratch)
        && is_true(5, Ok(false), row, view, scratch)
        && is_true(0, Err(ExprFault::TypeError), row, view, scratch);
    let one = is_key(alloc, 2, &Key::Integer(1), row, view, scratch)?;
    let none = is_key(alloc, 6, &Key::Unbound, row, view, scratch)?;
    let known = is_term(alloc, 1, Operand::Iri("e:b"), row, view, scratch)?;
    let new = is_term(alloc, 5, Operand::Integer("abc"), row, view, scratch)?;
    Ok(true_or_not && one && none && known && new && are_worth(row, view, scratch))
}
