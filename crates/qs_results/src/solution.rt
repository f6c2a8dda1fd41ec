//! Solutions as texts of JSON (SPARQL 1.1 Query Results JSON Format, 3.2). The tokens of the rows are written one
//! by one; the rest is text.
//!
//! One writer of the kit's `json` writes all rows, a token at a time. A value of the whole answer would take several
//! times the memory of its text, and one of each row several times the time.

ghost use Rattle.std.specs.Prelude.{◌≡◌, ◌++◌, false, map, IfOk, IsUtf8, OnOk, string_bytes};
ghost use Rattle.std.specs.Option.{ForSome};
ghost use Rattle.serde_json.specs.Data.{object};
ghost use Rattle.serde_json.specs.View.{view, items_of};
ghost use Rattle.serde_json.specs.Written.{compact_text, items_text};
ghost use Rattle.qs_results.specs.inner.Columns.{members_of, tokens_of, AreColumns};
ghost use Rattle.qs_results.specs.Json.{binding_data};
ghost use Rattle.qs_results.specs.inner.Json.{names_data};

use crate::columns::{bound_columns, columns_of};
use crate::term::put_cell;
use json::Writer;
use qs_algebra_solutions::Row;
use qs_terms::Text;
use serde_json::Value;
use std::alloc::{AllocError, Global};

/// The names as a JSON array.
fn names_value(alloc: Global, vars: &[Text]) -> Result<Value, AllocError>
    ensures { IfOk result (λ v. view v ≡ names_data vars.now) }
{
    let mut names = Vec::new(alloc);
    for name in vars {
        let value = Value::try_from_str(alloc, name.as_str())?;
        names.push(value)?;
    }
    Ok(Value::Array(names))
}

/// The text of the names.
#[tactic(auto, using(crate::proofs::Floats::names_without_float))]
pub(crate) fn names_text(alloc: Global, vars: &[Text]) -> Result<String, AllocError>
    ensures { IfOk result (λ s. string_bytes s ≡ compact_text (names_data vars.now)) }
{
    let names = names_value(alloc, vars)?;
    names.to_string(alloc)
}

/// Appends the row as an object.
fn put_row(
    alloc: Global,
    out: &mut Writer,
    columns: &[(Text, usize)],
    row: &Row,
) -> Result<(), AllocError>
    ensures tokens { OnOk result (out.new.tokens
        ≡ out.old.tokens ++ tokens_of (object (members_of columns.now row.now))) }
    ensures before { out.new.before ≡ out.old.before }
{
    out.begin_object()?;
    for column in columns {
        put_cell(alloc, out, column.0.as_str(), row.term(column.1))?;
    }
    out.end_object()?;
    Ok(())
}

/// Appends the row as an object, by the columns of all rows, or by those of the row where there are none.
fn put_next(
    alloc: Global,
    out: &mut Writer,
    vars: &[Text],
    columns: &Option<Vec<(Text, usize)>>,
    row: &Row,
) -> Result<(), AllocError>
    requires { ForSome columns.now (λ all. AreColumns vars.now all.items) }
    ensures tokens { OnOk result (out.new.tokens
        ≡ out.old.tokens ++ tokens_of (binding_data vars.now row.now)) }
    ensures before { out.new.before ≡ out.old.before }
{
    match columns {
        Some(columns) => put_row(alloc, out, columns.as_slice(), row),
        None => {
            let columns = bound_columns(alloc, vars, row)?;
            put_row(alloc, out, columns.as_slice(), row)
        }
    }
}

/// Writes the rows after `before`, by the columns of all of them if there are such. One writer serves all rows: a new
/// one makes some kilobytes ready first, which is more work than a row.
fn with_each(
    alloc: Global,
    vars: &[Text],
    columns: &Option<Vec<(Text, usize)>>,
    rows: &[Row],
    before: Vec<u8>,
) -> Result<Vec<u8>, AllocError>
    requires { ForSome columns.now (λ all. AreColumns vars.now all.items) }
    ensures text { IfOk result (λ out. out.items
        ≡ before.items ++ items_text false (items_of (map (binding_data vars.now) rows.now))) }
    ensures utf8 { IfOk result (λ out. IsUtf8 before.items → IsUtf8 out.items) }
{
    let mut out = Writer::new(before);
    for row in rows {
        put_next(alloc, &mut out, vars, columns, row)?;
    }
    out.end_array()?;
    Ok(out.into_inner())
}

/// Writes the rows after `before`, with commas between them and a closing bracket after them.
pub(crate) fn with_rows(
    alloc: Global,
    vars: &[Text],
    rows: &[Row],
    before: Vec<u8>,
) -> Result<Vec<u8>, AllocError>
    ensures text { IfOk result (λ out. out.items
        ≡ before.items ++ items_text false (items_of (map (binding_data vars.now) rows.now))) }
    ensures utf8 { IfOk result (λ out. IsUtf8 before.items → IsUtf8 out.items) }
{
    let columns = columns_of(alloc, vars)?;
    with_each(alloc, vars, &columns, rows, before)
}
