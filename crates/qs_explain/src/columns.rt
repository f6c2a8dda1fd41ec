//! The columns of a SELECT DISTINCT: its plan goes by them.

use qs_syntax_ast::expression::Expression;
use qs_syntax_ast::query::{OrderCondition, Projection, Query, QueryForm, Select, SelectItem};
use qs_syntax_ast::term::Variable;
use qs_syntax_scope::{NameList, number_names};
use qs_syntax_tree::query::Duplicates;
use std::alloc::{AllocError, Global};
use std::collections::BTreeSet;

fn variable_of(item: &SelectItem) -> &Variable {
    match item {
        SelectItem::Variable(variable) => variable,
        SelectItem::As(_, variable) => variable,
    }
}

/// The numbers of the columns; for `*` those of all variables.
fn columns_of<'a>(
    alloc: Global,
    names: &NameList<'a>,
    select: &'a Select,
) -> Result<Vec<usize>, AllocError> {
    let mut columns = Vec::new(alloc);
    match &select.projection {
        Projection::All => {
            for at in 0..names.len() {
                columns.push(at)?;
            }
        }
        Projection::Items(items) => {
            for item in items.as_slice() {
                columns.push(names.place(variable_of(item).text()))?;
            }
        }
    }
    Ok(columns)
}

/// Whether each condition is a column.
fn are_columns<'a>(
    alloc: Global,
    names: &NameList<'a>,
    conditions: &'a [OrderCondition],
    columns: &[usize],
) -> Result<bool, AllocError> {
    let mut set = BTreeSet::new(alloc);
    for column in columns {
        set.insert(*column)?;
    }
    for condition in conditions {
        let Expression::Variable(variable) = &condition.key else {
            return Ok(false);
        };
        if !set.contains(&names.place(variable.text())) {
            return Ok(false);
        }
    }
    Ok(true)
}

fn is_distinct(select: &Select) -> bool {
    matches!(select.duplicates, Duplicates::Distinct)
}

/// The numbers of the columns, if the query asks for their distinct terms, in any order or in one of these columns. In another order all
/// solutions are looked at, and the plan goes by no column.
pub(crate) fn distinct_columns(
    alloc: Global,
    query: &Query,
) -> Result<Option<Vec<usize>>, AllocError> {
    let QueryForm::Select(select) = &query.form else {
        return Ok(None);
    };
    if !is_distinct(select) {
        return Ok(None);
    }
    let names = number_names(alloc, query.variables.as_slice())?;
    let columns = columns_of(alloc, &names, select)?;
    let conditions = select.modifiers.order.as_slice();
    if !are_columns(alloc, &names, conditions, columns.as_slice())? {
        return Ok(None);
    }
    Ok(Some(columns))
}
