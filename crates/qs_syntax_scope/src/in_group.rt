//! The variables that stand anywhere in a group.

ghost use Rattle.std.specs.Prelude.{◌≡◌, ◌++◌, OnOk, IfOk};
ghost use Rattle.qs_syntax_scope.specs.inner.VariablesIn as spec;

use crate::first::first_of_names;
use crate::in_expression::{push_expression, push_expressions};
use crate::name_list::NameList;
use crate::scope::{push_columns, push_graph, push_triples, push_variable};
use qs_syntax_ast::pattern::{GraphPattern, Group};
use qs_syntax_ast::term::Variable;
use sqlite_items::Items;
use std::alloc::{AllocError, Global};

/// Adds the variables that stand in the group, in its filters and after MINUS too.
#[cycle(group)]
pub fn push_group<'a>(names: &mut NameList<'a>, group: &'a Group) -> Result<(), AllocError>
    ensures { OnOk result (names.new ≡ names.old ++ spec.in_group group.now) }
{
    push_patterns(names, group.patterns.as_slice())?;
    push_expressions(names, group.filters.as_slice())
}

#[cycle(group)]
fn push_patterns<'a>(names: &mut NameList<'a>, all: &'a [GraphPattern]) -> Result<(), AllocError>
    ensures { OnOk result (names.new ≡ names.old ++ spec.in_patterns all.now) }
{
    for one in all {
        push_pattern(names, one)?;
    }
    Ok(())
}

#[cycle(group)]
fn push_pattern<'a>(names: &mut NameList<'a>, pattern: &'a GraphPattern) -> Result<(), AllocError>
    ensures { OnOk result (names.new ≡ names.old ++ spec.in_pattern pattern.now) }
{
    match pattern {
        GraphPattern::Triples(triples) => push_triples(names, triples.as_slice()),
        GraphPattern::Union(groups) => push_groups(names, groups.as_slice()),
        GraphPattern::Optional(inner) | GraphPattern::Minus(inner) => push_group(names, inner),
        GraphPattern::Graph(graph, inner) => {
            push_graph(names, graph)?;
            push_group(names, inner)
        }
        GraphPattern::Bind(value, variable) => {
            push_expression(names, value)?;
            push_variable(names, variable)
        }
        GraphPattern::Values(table) => push_columns(names, table),
    }
}

#[cycle(group)]
fn push_groups<'a>(names: &mut NameList<'a>, all: &'a [Group]) -> Result<(), AllocError>
    ensures { OnOk result (names.new ≡ names.old ++ spec.in_groups all.now) }
{
    for one in all {
        push_group(names, one)?;
    }
    Ok(())
}

/// The variables that stand anywhere in the group, each once, in the order in which they first appear in it, those of its filters last
/// (SPARQL 1.1 Query, 4.1.3).
///
/// # Errors
/// `AllocError` where memory runs out.
#[tactic(auto, unfolding(crate::specs::inner::VariablesIn::group_variables))]
pub fn group_variables(alloc: Global, group: &Group) -> Result<Items<Variable>, AllocError>
    ensures { IfOk result (λ found. found ≡ spec.group_variables group.now) }
{
    let mut names = NameList::new(alloc);
    push_group(&mut names, group)?;
    first_of_names(alloc, &names)
}
