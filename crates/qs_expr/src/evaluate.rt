//! Values of expressions at rows of cells (SPARQL 1.1 Query, 17).

ghost use Rattle.std.specs.Prelude.{◌≡◌, false, true, IfOk, OnErr, IsTrue};
ghost use Rattle.qs_expr_meaning.specs.inner.Comes.{Comes};
ghost use Rattle.qs_expr_meaning.specs.inner.Makes.{makes};
ghost use Rattle.qs_expr_meaning.specs.Meaning as spec;
ghost use Rattle.qs_expr_values.specs.Sorting.{key_of};
ghost use Rattle.qs_expr_values.specs.inner.Sorting.{has_text};
ghost use Rattle.qs_expr.specs.inner.Cell.{denoted, denoted_if, FitsCell, FitsIf, FitsRow};
ghost use Rattle.qs_expr.specs.inner.Evaluated.{Evaluates, holds_at};
ghost use Rattle.qs_expr.specs.inner.Scratch.{IsTable, Grows};

use crate::cell::Cell;
use crate::reading::Reading;
use crate::row::Row;
use crate::scratch::{Scratch, intern_owned, term, value};
use qs_expr_meaning::{Expr, ExprFault, ebv_terms, eval_terms};
use qs_expr_values::Key;
use qs_store::View;
use std::alloc::{AllocError, Global};

// The cell of the value of any expression: the value is made, and interned.
#[inline(never)]
fn computed<V: View>(
    alloc: Global,
    expr: &Expr,
    row: &Row,
    view: &V,
    scratch: &mut Scratch,
) -> Result<Cell, ExprFault>
    requires table { IsTable (V.content view.now).known scratch.old }
    requires row { FitsRow (V.content view.now).known scratch.old row.now }
    ensures grows { Grows (V.content view.now).known scratch.old scratch.new }
    ensures value { Evaluates (V.content view.now).known scratch.old scratch.new row.now expr.now
        result }
{
    let value = eval_terms(alloc, expr, &Reading::new(row, view, scratch));
    match value {
        Ok(term) => match intern_owned(term, view, scratch) {
            Ok(cell) => Ok(cell),
            Err(_) => Err(ExprFault::Memory),
        },
        Err(fault) => Err(fault),
    }
}

/// The cell of the expression's value. A variable's cell is answered as it is; a value that neither the dictionary nor the table has
/// is put into the table.
///
/// # Errors
/// `TypeError` where the expression errs (SPARQL 1.1 Query, 17.2 and 17.3). `Memory` where memory runs out: for a value, and by CONCAT.
pub fn eval<V: View>(
    alloc: Global,
    expr: &Expr,
    row: &Row,
    view: &V,
    scratch: &mut Scratch,
) -> Result<Cell, ExprFault>
    requires table { IsTable (V.content view.now).known scratch.old }
    requires row { FitsRow (V.content view.now).known scratch.old row.now }
    ensures grows { Grows (V.content view.now).known scratch.old scratch.new }
    ensures value { Evaluates (V.content view.now).known scratch.old scratch.new row.now expr.now
        result }
{
    match expr {
        Expr::Variable(variable) => match row.cell(*variable) {
            Some(cell) => Ok(cell),
            None => Err(ExprFault::TypeError),
        },
        _ => computed(alloc, expr, row, view, scratch),
    }
}

/// The effective boolean value of the cell's term (SPARQL 1.1 Query, 17.2.2). It takes no memory.
///
/// # Errors
/// `TypeError` where the term has none.
pub fn ebv<V: View>(cell: Cell, view: &V, scratch: &Scratch) -> Result<bool, ExprFault>
    requires { FitsCell (V.content view.now).known scratch.now cell }
    ensures { Comes false (spec.truth (denoted (V.content view.now).known scratch.now cell))
        result }
{
    let term = term(cell, view, scratch);
    ebv_terms(term)
}

/// What ORDER BY sorts the cell's term by; none is an unbound variable or an error (SPARQL 1.1 Query, 15.1).
///
/// # Errors
/// Out of memory, which is taken for the texts of keys alone.
pub fn order_key<V: View>(
    alloc: Global,
    cell: Option<Cell>,
    view: &V,
    scratch: &Scratch,
) -> Result<Key, AllocError>
    requires { FitsIf (V.content view.now).known scratch.now cell }
    ensures key { IfOk result
        (λ k. k ≡ key_of (denoted_if (V.content view.now).known scratch.now cell)) }
    ensures memory { OnErr result
        (IsTrue (has_text (key_of (denoted_if (V.content view.now).known scratch.now cell)))) }
{
    match cell {
        Some(cell) => {
            let term = value(cell, view, scratch);
            qs_expr_values::order_key(alloc, Some(&term))
        }
        None => qs_expr_values::order_key(alloc, None),
    }
}

/// Whether the condition is true; an error isn't true (SPARQL 1.1 Query, 17.2 and 18.5, Filter). The table is only read.
///
/// # Errors
/// Out of memory, which is taken by CONCAT alone.
pub fn holds<V: View>(
    alloc: Global,
    expr: &Expr,
    row: &Row,
    view: &V,
    scratch: &Scratch,
) -> Result<bool, AllocError>
    requires { FitsRow (V.content view.now).known scratch.now row.now }
    ensures value { IfOk result (λ b. b ≡ holds_at (V.content view.now).known scratch.now row.now
        expr.now) }
    ensures memory { OnErr result (makes expr.now ≡ true) }
{
    qs_expr_meaning::holds(alloc, expr, &Reading::new(row, view, scratch))
}
