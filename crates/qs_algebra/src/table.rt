//! The tables of VALUES (SPARQL 1.1 Query, 18.2.2.7).

ghost use Rattle.std.specs.Prelude.{◌≡◌, map, IfOk};
ghost use Rattle.qs_algebra.specs.Translation as spec;
ghost use Rattle.qs_algebra.specs.inner.Translation as inner;

use qs_algebra_patterns::{Table, rows_copy};
use qs_syntax_ast::pattern::InlineData;
use qs_syntax_ast::term::Variable;
use qs_syntax_scope::NameList;
use sqlite_items::Items;
use std::alloc::{AllocError, Global};

// the numbers of the variables
fn numbers<'a>(
    alloc: Global,
    names: &NameList<'a>,
    variables: &'a [Variable],
) -> Result<Items<usize>, AllocError>
    ensures { IfOk result (λ numbers. numbers ≡ map (inner.number_of names.now) variables.now) }
{
    let mut numbers = Items::new(alloc);
    for variable in variables {
        numbers.push(names.place(variable.text()))?;
    }
    Ok(numbers)
}

/// The table, its variables by their numbers.
pub fn table_of<'a>(
    alloc: Global,
    names: &NameList<'a>,
    table: &'a InlineData,
) -> Result<Table, AllocError>
    ensures { IfOk result (λ t. t ≡ spec.table_of names.now table.now) }
{
    let variables = numbers(alloc, names, table.variables.as_slice())?;
    let rows = rows_copy(alloc, table.rows.as_slice())?;
    Ok(Table { variables, rows })
}
