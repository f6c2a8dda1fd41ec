//! What a SELECT asks for (SPARQL 1.1 Query, 15 and 18.2.4).

ghost use Rattle.std.specs.Prelude.{◌≡◌, ◌++◌, map, IfOk, IfErr, OnOk};
ghost use Rattle.std.specs.List.{filter};
ghost use Rattle.qs_terms.specs.declared.fault.QFault.TheVariants.{Memory};
ghost use Rattle.qs_syntax_scope.specs.Firsts.{names_of};
ghost use Rattle.qs_syntax_scope.specs.KeepsScope.{trailing_names};
ghost use Rattle.qs_syntax_scope.specs.Names.{contains};
ghost use Rattle.qs_syntax_scope.specs.Places.{place_of};
ghost use Rattle.qs_query_forms.specs.Selection as spec;
ghost use Rattle.qs_query_forms.specs.inner.Selection as inner;

use crate::modifiers::{Slice, order_of, slice_of};
use qs_algebra::{Pattern, translate};
use qs_query_order::OrderCondition;
use qs_syntax_ast::pattern::{Group, InlineData};
use qs_syntax_ast::query::{Projection, Query, Select, SelectItem};
use qs_syntax_ast::term::Variable;
use qs_syntax_scope::{NameList, first_variables, in_scope, number_names};
use qs_syntax_tree::query::Duplicates;
use qs_terms::{QFault, Text};
use sqlite_items::Items;
use std::alloc::{AllocError, Global};

/// What a SELECT asks for.
#[derive(Drop)]
pub struct Selection {
    /// The names of the variables of the answer.
    pub vars: Items<Text>,
    /// The numbers of these variables.
    pub columns: Items<usize>,
    pub pattern: Pattern,
    /// The conditions of ORDER BY.
    pub order: Items<OrderCondition>,
    /// Whether duplicates are eliminated.
    pub is_distinct: bool,
    pub slice: Slice,
}

// those of the variables that are among the names
fn those_among<'a>(
    alloc: Global,
    scope: &NameList<'a>,
    variables: &'a [Variable],
) -> Result<Items<Text>, AllocError>
    ensures { IfOk result (λ vars. vars ≡ filter (contains scope.now) (names_of variables.now)) }
{
    let mut vars = Items::new(alloc);
    for variable in variables {
        if scope.contains(variable.text()) {
            let name = variable.name.get().try_clone(alloc)?;
            vars.push(name)?;
        }
    }
    Ok(vars)
}

fn put_names<'a>(names: &mut NameList<'a>, variables: &'a [Variable]) -> Result<(), AllocError>
    ensures { OnOk result (names.new ≡ names.old ++ names_of variables.now) }
{
    for variable in variables {
        names.push(&variable.name)?;
    }
    Ok(())
}

// the variables of the trailing VALUES, if there is one, after the others
fn put_trailing<'a>(
    names: &mut NameList<'a>,
    values: &'a Option<InlineData>,
) -> Result<(), AllocError>
    ensures { OnOk result (names.new ≡ names.old ++ trailing_names values.now) }
{
    match values {
        None => Ok(()),
        Some(table) => put_names(names, table.variables.as_slice()),
    }
}

fn all_listed<'a>(
    alloc: Global,
    variables: &'a [Variable],
    group: &'a Group,
    values: &'a Option<InlineData>,
) -> Result<Items<Text>, AllocError>
    ensures { IfOk result (λ vars. vars ≡ inner.all_listed (names_of variables.now) group.now
        values.now) }
{
    let mut scope = in_scope(alloc, group)?;
    put_trailing(&mut scope, values)?;
    those_among(alloc, &scope, variables)
}

// the variable that an item lists
fn item_variable(item: &SelectItem) -> Result<Variable, AllocError>
    ensures { IfOk result (λ v. v ≡ spec.item_variable item.now) }
{
    match item {
        SelectItem::Variable(variable) => variable.share(),
        SelectItem::As(_, variable) => variable.share(),
    }
}

fn item_variables(alloc: Global, items: &[SelectItem]) -> Result<Items<Variable>, AllocError>
    ensures { IfOk result (λ variables. variables ≡ map spec.item_variable items.now) }
{
    let mut variables = Items::new(alloc);
    for item in items {
        let variable = item_variable(item)?;
        variables.push(variable)?;
    }
    Ok(variables)
}

// the names of the variables
fn names(alloc: Global, variables: &[Variable]) -> Result<Items<Text>, AllocError>
    ensures { IfOk result (λ names. names ≡ names_of variables.now) }
{
    let mut names = Items::new(alloc);
    for variable in variables {
        let name = variable.name.get().try_clone(alloc)?;
        names.push(name)?;
    }
    Ok(names)
}

fn items_listed(alloc: Global, items: &[SelectItem]) -> Result<Items<Text>, AllocError>
    ensures { IfOk result (λ vars. vars ≡ inner.items_listed items.now) }
{
    let variables = item_variables(alloc, items)?;
    let variables = first_variables(alloc, variables.as_slice())?;
    names(alloc, variables.as_slice())
}

fn listed<'a>(
    alloc: Global,
    variables: &'a [Variable],
    group: &'a Group,
    values: &'a Option<InlineData>,
    projection: &Projection,
) -> Result<Items<Text>, AllocError>
    ensures { IfOk result (λ vars. vars ≡ spec.listed (names_of variables.now) group.now values.now
        projection.now) }
{
    match projection {
        Projection::All => all_listed(alloc, variables, group, values),
        Projection::Items(items) => items_listed(alloc, items.as_slice()),
    }
}

// the numbers of the variables of these names
fn numbers<'a>(
    alloc: Global,
    names: &NameList<'a>,
    vars: &'a [Text],
) -> Result<Items<usize>, AllocError>
    ensures { IfOk result (λ columns. columns ≡ map (place_of names.now) vars.now) }
{
    let mut columns = Items::new(alloc);
    for name in vars {
        columns.push(names.place(name.as_str()))?;
    }
    Ok(columns)
}

fn columns<'a>(
    alloc: Global,
    variables: &'a [Variable],
    vars: &'a [Text],
) -> Result<Items<usize>, AllocError>
    ensures { IfOk result (λ columns. columns ≡ map (place_of (names_of variables.now)) vars.now) }
{
    let names = number_names(alloc, variables)?;
    numbers(alloc, &names, vars)
}

fn is_distinct(duplicates: Duplicates) -> bool
    ensures { result ≡ spec.is_distinct duplicates }
{
    match duplicates {
        Duplicates::Kept => false,
        Duplicates::Distinct => true,
        Duplicates::Reduced => false,
    }
}

/// What the SELECT of the query asks for.
///
/// # Errors
/// `QFault::Memory` where memory runs out; no other fault.
pub fn selection_of(alloc: Global, query: &Query, select: &Select) -> Result<Selection, QFault>
    ensures selection { IfOk result (λ s. s ≡ spec.selection query.now select.now) }
    ensures memory { IfErr result (λ fault. fault ≡ Memory) }
{
    let variables = query.variables.as_slice();
    let vars = listed(
        alloc,
        variables,
        &select.pattern,
        &query.values,
        &select.projection,
    )?;
    let columns = columns(alloc, variables, vars.as_slice())?;
    let order = order_of(alloc, variables, &select.modifiers)?;
    let pattern = translate(alloc, query)?;
    Ok(Selection {
        vars,
        columns,
        pattern,
        order,
        is_distinct: is_distinct(select.duplicates),
        slice: slice_of(&select.modifiers),
    })
}
