//! The patterns of queries (SPARQL 1.1 Query, 18.2).
//!
//! A WHERE is translated with its own variables, or with those of a text (`translate_where_with`). The templates of an update and
//! its WHERE have the numbers of the text's variables in common. By themselves the variables of filters are the last.

ghost use Rattle.std.specs.List.{flat_map};
ghost use Rattle.std.specs.Prelude.{◌≡◌, ◌∷◌, ◌++◌, IfOk, IfErr, OnOk};
ghost use Rattle.qs_terms.specs.declared.fault.QFault.TheVariants.{Memory};
ghost use Rattle.qs_syntax_scope.specs.Firsts as first;
ghost use Rattle.qs_syntax_scope.specs.inner.VariablesIn.{group_variables};
ghost use Rattle.qs_syntax_ast.specs.declared.query.QueryForm.TheVariants as written;
ghost use Rattle.qs_algebra_patterns.specs.declared.pattern.Step.TheVariants as made;
ghost use Rattle.qs_algebra.specs.Translation as spec;
ghost use Rattle.qs_algebra.specs.inner.Translation as inner;

use crate::basic::basic_pattern;
use crate::expression::expr_of;
use crate::table::table_of;
use crate::translation::{group_pattern, unfiltered};
use qs_algebra_patterns::{Pattern, PatternNode, Step};
use qs_base::keep_beside;
use qs_syntax_ast::pattern::{Group, InlineData};
use qs_syntax_ast::query::{Construct, Projection, Query, QueryForm, SelectItem};
use qs_syntax_ast::term::Variable;
use qs_syntax_scope::{NameList, group_variables, number_names};
use qs_terms::{QFault, Text};
use sqlite_items::Items;
use std::alloc::{AllocError, Global};

fn construct_pattern<'a>(
    alloc: Global,
    names: &NameList<'a>,
    construct: &'a Construct,
) -> Result<PatternNode, AllocError>
    ensures { IfOk result (λ p. p ≡ spec.form_pattern names.now (written.Construct construct.now)) }
{
    match &construct.pattern {
        None => {
            let basic = basic_pattern(alloc, names, construct.template.as_slice())?;
            Ok(PatternNode::Basic(basic))
        }
        Some(group) => group_pattern(alloc, names, group),
    }
}

fn form_pattern<'a>(
    alloc: Global,
    names: &NameList<'a>,
    form: &'a QueryForm,
) -> Result<PatternNode, AllocError>
    ensures { IfOk result (λ p. p ≡ spec.form_pattern names.now form.now) }
{
    match form {
        QueryForm::Select(select) => group_pattern(alloc, names, &select.pattern),
        QueryForm::Construct(construct) => construct_pattern(alloc, names, construct),
        QueryForm::Ask(ask) => group_pattern(alloc, names, &ask.pattern),
    }
}

/// The trailing VALUES, if there is one, after the steps.
fn put_trailing<'a>(
    alloc: Global,
    names: &NameList<'a>,
    values: &'a Option<InlineData>,
    steps: &mut Items<Step>,
) -> Result<(), AllocError>
    ensures { OnOk result (steps.new ≡ steps.old ++ spec.trailing_steps names.now values.now) }
{
    match values {
        None => Ok(()),
        Some(table) => {
            let table = table_of(alloc, names, table)?;
            steps.push(Step::Join(PatternNode::Values(table)))
        }
    }
}

/// The expression of an item of SELECT, if it is one, after the steps.
fn put_item<'a>(
    alloc: Global,
    names: &NameList<'a>,
    item: &'a SelectItem,
    steps: &mut Items<Step>,
) -> Result<(), AllocError>
    ensures { OnOk result (steps.new ≡ steps.old ++ spec.item_steps names.now item.now) }
{
    match item {
        SelectItem::Variable(_) => Ok(()),
        SelectItem::As(value, variable) => {
            let value = expr_of(alloc, names, value)?;
            steps.push(Step::Extend(names.place(variable.text()), value))
        }
    }
}

fn put_items<'a>(
    alloc: Global,
    names: &NameList<'a>,
    items: &'a [SelectItem],
    steps: &mut Items<Step>,
) -> Result<(), AllocError>
    ensures { OnOk result (steps.new ≡ steps.old ++ flat_map (spec.item_steps names.now)
        items.now) }
{
    for item in items {
        put_item(alloc, names, item, steps)?;
    }
    Ok(())
}

/// The select expressions of the form, from left to right, after the steps.
fn put_selected<'a>(
    alloc: Global,
    names: &NameList<'a>,
    form: &'a QueryForm,
    steps: &mut Items<Step>,
) -> Result<(), AllocError>
    ensures { OnOk result (steps.new ≡ steps.old ++ spec.selected_steps names.now form.now) }
{
    match form {
        QueryForm::Select(select) => match &select.projection {
            Projection::All => Ok(()),
            Projection::Items(items) => put_items(alloc, names, items.as_slice(), steps),
        },
        QueryForm::Construct(_) => Ok(()),
        QueryForm::Ask(_) => Ok(()),
    }
}

/// The pattern of the form with what stands after it.
fn with_steps<'a>(
    alloc: Global,
    names: &NameList<'a>,
    query: &'a Query,
    pattern: PatternNode,
) -> Result<PatternNode, AllocError>
    ensures { IfOk result
        (λ p. p ≡ spec.unfiltered (made.Join pattern
        ∷ (spec.trailing_steps names.now query.now.values
        ++ spec.selected_steps names.now query.now.form))) }
{
    let mut steps = Items::new(alloc);
    steps.push(Step::Join(pattern))?;
    put_trailing(alloc, names, &query.values, &mut steps)?;
    put_selected(alloc, names, &query.form, &mut steps)?;
    unfiltered(alloc, steps)
}

/// The names of the variables, as their own.
fn names_of(alloc: Global, variables: &[Variable]) -> Result<Items<Text>, AllocError>
    ensures { IfOk result (λ names. names ≡ first.names_of variables.now) }
{
    let mut names = Items::new(alloc);
    for variable in variables {
        let name = variable.name.get().try_clone(alloc)?;
        names.push(name)?;
    }
    Ok(names)
}

/// The pattern with the names of these variables.
pub fn named(
    alloc: Global,
    variables: &[Variable],
    pattern: PatternNode,
) -> Result<Pattern, AllocError>
    ensures { IfOk result (λ p. p ≡ inner.named variables.now pattern) }
{
    let (pattern, names) = keep_beside(pattern, names_of(alloc, variables))?;
    Ok(Pattern {
        names,
        root: pattern,
    })
}

fn query_pattern(alloc: Global, query: &Query) -> Result<PatternNode, AllocError>
    ensures { IfOk result (λ p. p ≡ spec.query_pattern query.now) }
{
    let names = number_names(alloc, query.variables.as_slice())?;
    let pattern = form_pattern(alloc, &names, &query.form)?;
    let pattern = with_steps(alloc, &names, query, pattern)?;
    Ok(pattern)
}

/// The pattern of a query with the variables of its text: the pattern of its WHERE, which in a short CONSTRUCT is its template, joined
/// with the trailing VALUES and extended by the select expressions (SPARQL 1.1 Query, 18.2).
///
/// # Errors
/// `QFault::Memory` where memory runs out; no other fault.
pub fn translate(alloc: Global, query: &Query) -> Result<Pattern, QFault>
    ensures pattern { IfOk result (λ p. p ≡ spec.translated query.now) }
    ensures memory { IfErr result (λ fault. fault ≡ Memory) }
{
    let pattern = query_pattern(alloc, query)?;
    let named = named(alloc, query.variables.as_slice(), pattern)?;
    Ok(named)
}

fn where_pattern(
    alloc: Global,
    variables: &[Variable],
    group: &Group,
) -> Result<PatternNode, AllocError>
    ensures { IfOk result (λ p. p ≡ spec.group_pattern (first.names_of variables.now) group.now) }
{
    let names = number_names(alloc, variables)?;
    let pattern = group_pattern(alloc, &names, group)?;
    Ok(pattern)
}

/// The pattern of a WHERE by itself, with the variables of its own: each once, in the order in which they first appear in it, those of its
/// filters last. `translate_where_with` takes those of a text of which the WHERE is a part.
///
/// # Errors
/// `QFault::Memory` where memory runs out; no other fault.
pub fn translate_where(alloc: Global, group: &Group) -> Result<Pattern, QFault>
    ensures pattern { IfOk result (λ p. p ≡ spec.translated_where (group_variables group.now)
        group.now) }
    ensures memory { IfErr result (λ fault. fault ≡ Memory) }
{
    let variables = group_variables(alloc, group)?;
    translate_where_with(alloc, variables.as_slice(), group)
}

/// The pattern of a WHERE by itself, as an update has it, with the variables of the text.
///
/// # Errors
/// `QFault::Memory` where memory runs out; no other fault.
pub fn translate_where_with(
    alloc: Global,
    variables: &[Variable],
    group: &Group,
) -> Result<Pattern, QFault>
    ensures pattern { IfOk result (λ p. p ≡ spec.translated_where variables.now group.now) }
    ensures memory { IfErr result (λ fault. fault ≡ Memory) }
{
    let pattern = where_pattern(alloc, variables, group)?;
    let named = named(alloc, variables, pattern)?;
    Ok(named)
}
