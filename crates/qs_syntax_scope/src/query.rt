//! The rules of queries.

ghost use Rattle.std.specs.Prelude.{◌≡◌, ◌++◌, ◌&&◌, true, unwrap_or, option_map, IfOk, OnOk};
ghost use Rattle.qs_syntax_scope.specs.Names.{are_apart};
ghost use Rattle.qs_syntax_scope.specs.Runs.{runs as runs_of};
ghost use Rattle.qs_syntax_scope.specs.Scope.{group_keeps, in_scope};
ghost use Rattle.qs_syntax_scope.specs.Tables.{is_table};
ghost use Rattle.qs_syntax_scope.specs.Selected.{selected_are_new as are_new};
ghost use Rattle.qs_syntax_scope.specs.KeepsScope as spec;

use crate::met::Met;
use crate::name_list::NameList;
use crate::selected::selected_are_new;
use crate::{runs, scope, tables};
use qs_syntax_ast::pattern::{Group, InlineData};
use qs_syntax_ast::query::{Query, QueryForm, Select};
use std::alloc::{AllocError, Global};

#[tactic(auto, using(crate::proofs::Plain::apart_kept))]
fn labels_are_apart(alloc: Global, group: &Group) -> Result<bool, AllocError>
    ensures { IfOk result (λ b. b ≡ are_apart (runs_of group.now)) }
{
    let mut met = Met::new(alloc);
    runs::group(&mut met, group)?;
    Ok(met.keeps)
}

fn pattern_keeps(alloc: Global, group: &Group) -> Result<bool, AllocError>
    ensures { IfOk result (λ b. b ≡ spec.pattern_keeps group.now) }
{
    let keeps = group_keeps(alloc, group)?;
    let labels = labels_are_apart(alloc, group)?;
    Ok(keeps && labels)
}

/// Whether every BIND and every VALUES in the group keeps its rule.
#[tactic(auto, using(crate::proofs::Kept::group_kept))]
pub fn group_keeps(alloc: Global, group: &Group) -> Result<bool, AllocError>
    ensures { IfOk result (λ b. b ≡ group_keeps group.now) }
{
    let mut names = NameList::new(alloc);
    scope::group(alloc, &mut names, group)
}

/// The variables of the trailing VALUES, if there is one.
fn push_trailing<'a>(
    names: &mut NameList<'a>,
    values: &'a Option<InlineData>,
) -> Result<(), AllocError>
    ensures { OnOk result (names.new ≡ names.old ++ spec.trailing_names values.now) }
{
    match values {
        Some(table) => scope::push_columns(names, table),
        None => Ok(()),
    }
}

fn trailing_is_table(alloc: Global, values: &Option<InlineData>) -> Result<bool, AllocError>
    ensures { IfOk result (λ b. b ≡ unwrap_or (option_map is_table values.now) true) }
{
    match values {
        Some(table) => tables::is_table(alloc, table),
        None => Ok(true),
    }
}

// BIND, VALUES and the items of a SELECT.
#[tactic(auto, using(crate::proofs::Kept::group_kept, crate::proofs::Kept::names_in_scope))]
fn names_keep(
    alloc: Global,
    select: &Select,
    values: &Option<InlineData>,
) -> Result<bool, AllocError>
    ensures { IfOk result
        (λ b. b ≡ (group_keeps select.now.pattern
        && are_new (in_scope select.now.pattern ++ spec.trailing_names values.now)
        select.now.projection)) }
{
    let mut names = NameList::new(alloc);
    let keeps = scope::group(alloc, &mut names, &select.pattern)?;
    push_trailing(&mut names, values)?;
    let items = selected_are_new(names, &select.projection)?;
    Ok(keeps && items)
}

fn select_keeps(
    alloc: Global,
    select: &Select,
    values: &Option<InlineData>,
) -> Result<bool, AllocError>
    ensures { IfOk result
        (λ b. b ≡ (spec.pattern_keeps select.now.pattern
        && are_new (in_scope select.now.pattern ++ spec.trailing_names values.now)
        select.now.projection)) }
{
    let names = names_keep(alloc, select, values)?;
    let labels = labels_are_apart(alloc, &select.pattern)?;
    Ok(names && labels)
}

fn construct_keeps(alloc: Global, pattern: &Option<Group>) -> Result<bool, AllocError>
    ensures { IfOk result (λ b. b ≡ unwrap_or (option_map spec.pattern_keeps pattern.now) true) }
{
    match pattern {
        Some(group) => pattern_keeps(alloc, group),
        None => Ok(true),
    }
}

fn form_keeps(
    alloc: Global,
    form: &QueryForm,
    values: &Option<InlineData>,
) -> Result<bool, AllocError>
    ensures { IfOk result (λ b. b ≡ spec.form_keeps (spec.trailing_names values.now) form.now) }
{
    match form {
        QueryForm::Select(select) => select_keeps(alloc, select, values),
        QueryForm::Construct(construct) => construct_keeps(alloc, &construct.pattern),
        QueryForm::Ask(ask) => pattern_keeps(alloc, &ask.pattern),
    }
}

/// Whether the query keeps the rules of scope beyond the grammar (SPARQL 1.1 Query, the notes on the grammar in 19.8): of BIND, of
/// AS in SELECT, of the labels of blank nodes, and of VALUES. The only error is running out of memory.
#[tactic(auto, unfolding(crate::specs::KeepsScope::query_keeps_scope))]
pub fn query_keeps_scope(alloc: Global, query: &Query) -> Result<bool, AllocError>
    ensures { IfOk result (λ b. b ≡ spec.query_keeps_scope query.now) }
{
    let trailing = trailing_is_table(alloc, &query.values)?;
    let form = form_keeps(alloc, &query.form, &query.values)?;
    Ok(trailing && form)
}
