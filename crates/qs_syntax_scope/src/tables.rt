//! The tables of VALUES.

ghost use Rattle.std.specs.Prelude.{◌≡◌, ◌==◌, [], IfOk, length};
ghost use Rattle.std.specs.List.{fold, list_all};
ghost use Rattle.qs_syntax_scope.specs.inner.Met.{after, add_new};
ghost use Rattle.qs_syntax_scope.specs.Tables as spec;
ghost use Rattle.qs_syntax_scope.specs.Variables.{column_names};

use crate::met::Met;
use qs_syntax_ast::pattern::InlineData;
use std::alloc::{AllocError, Global};

fn rows_fit(table: &InlineData) -> bool
    ensures { result ≡ list_all (λ row. length row == length table.now.variables) table.now.rows }
{
    let width = table.variables.len();
    table.rows.as_slice().iter().all(|row| row.len() == width)
}

fn columns_are_distinct(alloc: Global, table: &InlineData) -> Result<bool, AllocError>
    ensures { IfOk result (λ b. b ≡ (fold add_new (after []) (column_names table.now)).keeps) }
{
    let mut met = Met::new(alloc);
    for variable in table.variables.as_slice() {
        met.add_new(&variable.name)?;
    }
    Ok(met.keeps)
}

/// Whether each row has as many values as there are variables, and no variable stands twice.
#[tactic(auto, using(crate::proofs::Plain::distinct_kept))]
pub fn is_table(alloc: Global, table: &InlineData) -> Result<bool, AllocError>
    ensures { IfOk result (λ b. b ≡ spec.is_table table.now) }
{
    let fit = rows_fit(table);
    let distinct = columns_are_distinct(alloc, table)?;
    Ok(fit && distinct)
}
