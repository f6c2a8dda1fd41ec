//! The variables of a table of VALUES.

ghost use Rattle.std.specs.Prelude.{◌≡◌, ◌==◌, ◌&&◌, IfOk};
ghost use Rattle.std.specs.List.{list_any, list_all};
ghost use Rattle.std.specs.Option.{is_some};
ghost use Rattle.qs_algebra_solutions.specs.Solution.{term_at, binding};
ghost use Rattle.qs_algebra.specs.inner.Certain.{is_column};
ghost use Rattle.qs_algebra.specs.inner.Flags.{flags_from};

use crate::flags::{alike, both, flag};
use qs_algebra_patterns::Table;
use qs_algebra_solutions::Row;
use qs_terms::Term;
use sqlite_items::Items;
use std::alloc::{AllocError, Global};

/// The variables that the table has a column for.
#[tactic(auto, using(crate::proofs::ColumnLaws::column_more))]
pub(crate) fn columns(
    alloc: Global,
    width: usize,
    variables: &[usize],
) -> Result<Vec<bool>, AllocError>
    ensures { IfOk result
        (λ flags. flags.items ≡ flags_from (λ v. list_any (λ w. w == v) variables.now) 0 width) }
{
    let mut flags = alike(alloc, width, false)?;
    for at in 0..variables.len() {
        flag(&mut flags, variables[at]);
    }
    Ok(flags)
}

fn is_bound(row: &Row, variable: usize) -> bool
    ensures { result ≡ is_some (term_at row.now variable) }
{
    match row.term(variable) {
        Some(_) => true,
        None => false,
    }
}

/// The variables that the row binds.
#[tactic(auto, using(crate::proofs::FlagLaws::flags_more))]
fn bound_in(alloc: Global, width: usize, row: &Row) -> Result<Vec<bool>, AllocError>
    ensures { IfOk result (λ flags. flags.items ≡ flags_from (λ v. is_some (term_at row.now v)) 0
        width) }
{
    let mut flags = Vec::new(alloc);
    for variable in 0..width {
        flags.push(is_bound(row, variable))?;
    }
    Ok(flags)
}

/// The variables that a row of terms binds.
fn bound_by(
    alloc: Global,
    width: usize,
    variables: &[usize],
    terms: &[Option<Term>],
) -> Result<Vec<bool>, AllocError>
    ensures { IfOk result
        (λ flags. flags.items ≡ flags_from
        (λ v. is_some (term_at (binding width variables.now terms.now) v)) 0 width) }
{
    let row = Row::binding(alloc, width, variables, terms)?;
    let flags = bound_in(alloc, width, &row)?;
    Ok(flags)
}

/// The variables that each of the rows binds.
fn bound_by_all(
    alloc: Global,
    width: usize,
    variables: &[usize],
    rows: &[Items<Option<Term>>],
) -> Result<Vec<bool>, AllocError>
    ensures { IfOk result
        (λ flags. flags.items ≡ flags_from
        (λ v. list_all (λ row. is_some (term_at (binding width variables.now row) v)) rows.now)
        0 width) }
{
    let mut flags = alike(alloc, width, true)?;
    for row in rows {
        let more = bound_by(alloc, width, variables, row.as_slice())?;
        flags = both(alloc, width, flags.as_slice(), more.as_slice())?;
    }
    Ok(flags)
}

/// The variables that the table binds in each row.
pub(crate) fn certain_of_table(
    alloc: Global,
    width: usize,
    table: &Table,
) -> Result<Vec<bool>, AllocError>
    ensures { IfOk result
        (λ flags. flags.items ≡ flags_from (λ v. is_column table.now v
        && list_all (λ row. is_some (term_at (binding width table.now.variables row) v))
        table.now.rows) 0 width) }
{
    let variables = table.variables.as_slice();
    let columns = columns(alloc, width, variables)?;
    let bound = bound_by_all(alloc, width, variables, table.rows.as_slice())?;
    let flags = both(alloc, width, columns.as_slice(), bound.as_slice())?;
    Ok(flags)
}
