//! The rows of VALUES.

ghost use Rattle.std.specs.Prelude.{◌≡◌, IfOk};
ghost use Rattle.std.specs.Option.{option_copied};
ghost use Rattle.qs_algebra_solutions.specs.Solution.{binding};
ghost use Rattle.qs_algebra_patterns.specs.inner.Eval.{rows_of};
ghost use Rattle.qs_expr.specs.inner.Cell.{FitsIf, FitsRow, denoted_if, row_solution};
ghost use Rattle.qs_expr.specs.inner.Scratch.{IsTable, Grows};
ghost use Rattle.qs_ops_tables.specs.inner.Tables.{FitRows, row_solutions};

use qs_algebra_patterns::Table;
use qs_expr::{Cell, Row, Scratch, intern};
use qs_store::View;
use qs_terms::Term;
use std::alloc::{AllocError, Global};

/// The cell of a term, if there is one.
#[tactic(auto, using(crate::proofs::TableRows::no_term, crate::proofs::TableRows::one_term, crate::proofs::TableRows::same_table))]
fn cell_of<V: View>(
    term: Option<&Term>,
    view: &V,
    scratch: &mut Scratch,
) -> Result<Option<Cell>, AllocError>
    requires { IsTable (V.content view.now).known scratch.old }
    ensures term { IfOk result (λ x. denoted_if (V.content view.now).known scratch.new x
        ≡ option_copied term.entry) }
    ensures fits { IfOk result (λ x. FitsIf (V.content view.now).known scratch.new x) }
    ensures grows { Grows (V.content view.now).known scratch.old scratch.new }
{
    match term {
        Some(term) => {
            let cell = intern(term, view, scratch)?;
            Ok(Some(cell))
        }
        None => Ok(None),
    }
}

/// The row that binds these variables to these terms, of `width` variables.
fn binding_row<V: View>(
    alloc: Global,
    view: &V,
    scratch: &mut Scratch,
    width: usize,
    variables: &[usize],
    terms: &[Option<Term>],
) -> Result<Row, AllocError>
    requires { IsTable (V.content view.now).known scratch.old }
    ensures terms { IfOk result (λ r. row_solution (V.content view.now).known scratch.new r
        ≡ binding width variables.now terms.now) }
    ensures fits { IfOk result (λ r. FitsRow (V.content view.now).known scratch.new r) }
    ensures grows { Grows (V.content view.now).known scratch.old scratch.new }
{
    let mut row = Row::unbound(alloc, width)?;
    for at in 0..variables.len().min(terms.len()) {
        let cell = cell_of(terms[at].as_ref(), view, scratch)?;
        row.set(variables[at], cell);
    }
    Ok(row)
}

/// The rows of a VALUES table, of `width` variables each (SPARQL 1.1 Query, 18.2.2.7). The scratch table gets the terms that the
/// dictionary lacks.
///
/// # Errors
/// Out of memory. The scratch table may have got terms.
pub fn table_rows<V: View>(
    alloc: Global,
    view: &V,
    scratch: &mut Scratch,
    table: &Table,
    width: usize,
) -> Result<Vec<Row>, AllocError>
    requires { IsTable (V.content view.now).known scratch.old }
    ensures rows { IfOk result (λ rows. row_solutions (V.content view.now).known scratch.new
        rows.items ≡ rows_of width table.now) }
    ensures fits { IfOk result (λ rows. FitRows (V.content view.now).known scratch.new rows.items) }
    ensures grows { Grows (V.content view.now).known scratch.old scratch.new }
{
    let mut rows = Vec::new(alloc);
    for terms in table.rows.as_slice() {
        let row = binding_row(
            alloc,
            view,
            scratch,
            width,
            table.variables.as_slice(),
            terms.as_slice(),
        )?;
        rows.push(row)?;
    }
    Ok(rows)
}
