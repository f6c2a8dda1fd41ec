//! From a text to the explanation of its plans.

ghost use Rattle.std.specs.Prelude.{◌≡◌, IfErr};
ghost use Rattle.qs_terms.specs.Outcome.{OneOrOutOfMemory};
ghost use Rattle.qs_terms.specs.declared.fault.QFault.TheVariants.{Memory};
ghost use Rattle.qs_explain.specs.Explained.{IsExplainedQuery, IsExplainedUpdate};

use crate::columns::distinct_columns;
use crate::lines::{Place, put_plan};
use crate::operation::operation_words;
use qs_algebra::{Pattern, drop_pattern, translate, translate_blocks, translate_where_with};
use qs_plan::{Plan, drop_plan};
use qs_query_solutions::{ViewCounts, active_of, distinct_plan_over, plan_over};
use qs_store::{Active, View};
use qs_syntax::{drop_query, drop_update, parse_query, parse_update};
use qs_syntax_ast::query::Query;
use qs_syntax_ast::term::Variable;
use qs_syntax_ast::update::{Modify, Operation, QuadBlock, Update};
use qs_syntax_scope::first_variables;
use qs_terms::{Iri, QFault, Term, Text};
use std::alloc::{AllocError, Global};

/// What is asked of a pattern.
#[derive(Clone, Copy)]
struct Asked<'q> {
    /// The name of the graph that is active, or none where that is the default graph.
    name: Option<&'q Term>,
    /// The columns whose distinct terms are asked for, if that is so.
    columns: Option<&'q [usize]>,
}

/// The plan that is run. It is proved that it has the solutions of its pattern. No clause says which plan it is, so none says what is printed.
fn plan_of<V: View>(
    alloc: Global,
    pattern: &Pattern,
    view: &V,
    active: Active,
    columns: Option<&[usize]>,
) -> Result<Plan, QFault>
    ensures { IfErr result (λ f. f ≡ Memory) }
{
    match columns {
        None => plan_over(alloc, pattern, view, active),
        Some(columns) => distinct_plan_over(alloc, pattern, view, active, columns),
    }
}

/// Writes the plan of the pattern over the view.
fn put_pattern<V: View>(
    alloc: Global,
    pattern: &Pattern,
    view: &V,
    asked: Asked<'_>,
    depth: usize,
    text: &mut String,
) -> Result<(), QFault>
    ensures { IfErr result (λ f. f ≡ Memory) }
{
    let active = active_of(view, asked.name);
    let plan = plan_of(alloc, pattern, view, active, asked.columns)?;
    let columns: &[usize] = match asked.columns {
        Some(columns) => columns,
        None => &[],
    };
    let place = Place {
        names: pattern.names.as_slice(),
        counts: ViewCounts { view, active },
        columns,
    };
    let outcome = put_plan(alloc, &place, &plan, depth, text);
    drop_plan(plan);
    outcome?;
    Ok(())
}

// ---- queries

fn query_text<V: View>(alloc: Global, query: &Query, view: &V) -> Result<Text, QFault>
    ensures { IfErr result (λ f. f ≡ Memory) }
{
    let columns = distinct_columns(alloc, query)?;
    let pattern = translate(alloc, query)?;
    let mut text = String::new(alloc);
    let asked = Asked {
        name: None,
        columns: columns.as_ref().map(|columns| columns.as_slice()),
    };
    let outcome = put_pattern(alloc, &pattern, view, asked, 0, &mut text);
    drop_pattern(pattern);
    outcome?;
    Ok(Text::from(text))
}

/// The plan that a query would run over the view, as text: a line a stage, in the order of evaluation. Of a triple it tells the order of the
/// index in which its scan finds triples, which of its variables are bound before it, and how many triples agree with its terms, up to
/// 4,096. Of a group that is evaluated by itself it tells why.
///
/// # Errors
/// The fault of the text, as of `parse_query`. `QFault::Memory` where memory runs out, at any time.
pub fn explain_query<V: View>(alloc: Global, text: &str, view: &V) -> Result<Text, QFault>
    ensures { OneOrOutOfMemory (IsExplainedQuery text.now) result }
{
    let query = parse_query(alloc, text)?;
    let explained = query_text(alloc, &query, view);
    drop_query(query);
    explained
}

// ---- updates

fn put_blocks<V: View>(
    alloc: Global,
    variables: &[Variable],
    blocks: &[QuadBlock],
    view: &V,
    text: &mut String,
) -> Result<(), QFault>
    ensures { IfErr result (λ f. f ≡ Memory) }
{
    let pattern = translate_blocks(alloc, variables, blocks)?;
    let asked = Asked {
        name: None,
        columns: None,
    };
    let outcome = put_pattern(alloc, &pattern, view, asked, 1, text);
    drop_pattern(pattern);
    outcome
}

fn with_term(with: &Option<Iri>) -> Result<Option<Term>, AllocError> {
    match with {
        None => Ok(None),
        Some(name) => Ok(Some(Term::Iri(name.try_clone()?))),
    }
}

fn put_modify<V: View>(
    alloc: Global,
    variables: &[Variable],
    modify: &Modify,
    view: &V,
    text: &mut String,
) -> Result<(), QFault>
    ensures { IfErr result (λ f. f ≡ Memory) }
{
    let with = with_term(&modify.with)?;
    let pattern = translate_where_with(alloc, variables, &modify.pattern)?;
    let asked = Asked {
        name: with.as_ref(),
        columns: None,
    };
    let outcome = put_pattern(alloc, &pattern, view, asked, 1, text);
    drop_pattern(pattern);
    outcome
}

/// Writes the line of the operation with this number.
fn put_operation_line(
    number: usize,
    operation: &Operation,
    text: &mut String,
) -> Result<(), AllocError> {
    let (words, is_without) = operation_words(operation);
    write!(text, "operation {number}: {words}")?;
    if is_without {
        text.push_str(", no WHERE")?;
    }
    text.push('\n')
}

/// Writes the operation with this number, and the plan of its WHERE, if it has one.
fn put_operation<V: View>(
    alloc: Global,
    number: usize,
    operation: &Operation,
    view: &V,
    text: &mut String,
) -> Result<(), QFault>
    ensures { IfErr result (λ f. f ≡ Memory) }
{
    put_operation_line(number, operation, text)?;
    match operation {
        Operation::DeleteWhere(delete) => {
            let variables = first_variables(alloc, delete.variables.as_slice())?;
            put_blocks(
                alloc,
                variables.as_slice(),
                delete.quads.as_slice(),
                view,
                text,
            )
        }
        Operation::Modify(modify) => {
            let variables = first_variables(alloc, modify.variables.as_slice())?;
            put_modify(alloc, variables.as_slice(), modify, view, text)
        }
        _ => Ok(()),
    }
}

fn update_text<V: View>(alloc: Global, update: &Update, view: &V) -> Result<Text, QFault>
    ensures { IfErr result (λ f. f ≡ Memory) }
{
    let mut text = String::new(alloc);
    let operations = update.operations.as_slice();
    for at in 0..operations.len() {
        put_operation(alloc, at + 1, &operations[at], view, &mut text)?;
    }
    Ok(Text::from(text))
}

/// The plan of the WHERE of each operation of an update, as `explain_query` writes one, over the view as it is: nothing is carried out.
///
/// # Errors
/// The fault of the text, as of `parse_update`. `QFault::Memory` where memory runs out, at any time.
pub fn explain_update<V: View>(alloc: Global, text: &str, view: &V) -> Result<Text, QFault>
    ensures { OneOrOutOfMemory (IsExplainedUpdate text.now) result }
{
    let update = parse_update(alloc, text)?;
    let explained = update_text(alloc, &update, view);
    drop_update(update);
    explained
}
