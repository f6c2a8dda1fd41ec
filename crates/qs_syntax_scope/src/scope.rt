//! The variables in scope of a group, and the rules that BIND and VALUES keep.

ghost use Rattle.std.specs.Prelude.{◌≡◌, ◌++◌, [], ◌∷◌, drop, OnOk, IfOk};
ghost use Rattle.std.specs.List.{fold, flat_map};
ghost use Rattle.qs_syntax_scope.specs.inner.Met.{after};
ghost use Rattle.qs_syntax_scope.specs.Scope as spec;
ghost use Rattle.qs_syntax_scope.specs.inner.Scope as inner_spec;
ghost use Rattle.qs_syntax_scope.specs.Variables as variables;

use crate::name_list::NameList;
use crate::tables::is_table;
use qs_syntax_ast::pattern::{GraphPattern, Group, InlineData, Triple, Verb};
use qs_syntax_ast::term::{TermPattern, VarOrIri, Variable};
use std::alloc::{AllocError, Global};

pub fn push_variable<'a>(names: &mut NameList<'a>, variable: &'a Variable) -> Result<(), AllocError>
    ensures { OnOk result (names.new ≡ names.old ++ variable.now.name ∷ []) }
{
    names.push(&variable.name)
}

fn push_term<'a>(names: &mut NameList<'a>, term: &'a TermPattern) -> Result<(), AllocError>
    ensures { OnOk result (names.new ≡ names.old ++ variables.term_variables term.now) }
{
    match term {
        TermPattern::Variable(variable) => push_variable(names, variable),
        _ => Ok(()),
    }
}

fn push_verb<'a>(names: &mut NameList<'a>, verb: &'a Verb) -> Result<(), AllocError>
    ensures { OnOk result (names.new ≡ names.old ++ variables.verb_variables verb.now) }
{
    match verb {
        Verb::Variable(variable) => push_variable(names, variable),
        _ => Ok(()),
    }
}

/// The variable that the name of a graph is.
pub fn push_graph<'a>(names: &mut NameList<'a>, graph: &'a VarOrIri) -> Result<(), AllocError>
    ensures { OnOk result (names.new ≡ names.old ++ variables.graph_variables graph.now) }
{
    match graph {
        VarOrIri::Variable(variable) => push_variable(names, variable),
        VarOrIri::Iri(_) => Ok(()),
    }
}

fn push_triple<'a>(names: &mut NameList<'a>, triple: &'a Triple) -> Result<(), AllocError>
    ensures { OnOk result (names.new ≡ names.old ++ variables.triple_variables triple.now) }
{
    push_term(names, &triple.subject)?;
    push_verb(names, &triple.verb)?;
    push_term(names, &triple.object)
}

/// The variables of triples.
pub fn push_triples<'a>(names: &mut NameList<'a>, triples: &'a [Triple]) -> Result<(), AllocError>
    ensures { OnOk result (names.new ≡ names.old ++ flat_map variables.triple_variables
        triples.now) }
{
    for triple in triples {
        push_triple(names, triple)?;
    }
    Ok(())
}

/// The variables of a VALUES.
pub fn push_columns<'a>(names: &mut NameList<'a>, table: &'a InlineData) -> Result<(), AllocError>
    ensures { OnOk result (names.new ≡ names.old ++ variables.column_names table.now) }
{
    for variable in table.variables.as_slice() {
        push_variable(names, variable)?;
    }
    Ok(())
}

/// The variables in scope of the group (SPARQL 1.1 Query, 18.2.1). One that several of its patterns bring stands several times.
#[tactic(auto, using(crate::proofs::Kept::names_in_scope))]
pub fn in_scope<'a>(alloc: Global, group: &'a Group) -> Result<NameList<'a>, AllocError>
    ensures { IfOk result (λ names. names ≡ spec.in_scope group.now) }
{
    let mut names = NameList::new(alloc);
    self::group(alloc, &mut names, group)?;
    Ok(names)
}

/// Adds the variables in scope of the group, and says whether every BIND and every VALUES in it keeps its rule.
#[cycle(scope)]
pub fn group<'a>(
    alloc: Global,
    names: &mut NameList<'a>,
    group: &'a Group,
) -> Result<bool, AllocError>
    ensures names { OnOk result (names.new ≡ names.old ++ (inner_spec.scope_of group.now).names) }
    ensures keeps { IfOk result (λ b. b ≡ (inner_spec.scope_of group.now).keeps) }
{
    patterns(alloc, names, group.patterns.as_slice())
}

#[cycle(scope)]
fn patterns<'a>(
    alloc: Global,
    names: &mut NameList<'a>,
    all: &'a [GraphPattern],
) -> Result<bool, AllocError>
    ensures names { OnOk result (names.new ≡ names.old ++ (inner_spec.parts all.now).names) }
    ensures keeps { IfOk result (λ b. b ≡ (inner_spec.parts all.now).keeps) }
{
    let start = names.len();
    let mut keeps = true;
    for one in all {
        let fits = pattern(alloc, names, start, one)?;
        keeps = keeps && fits;
    }
    Ok(keeps)
}

/// Adds the variables that the pattern brings into scope of the group that began at the place, and says whether it fits there.
#[cycle(scope)]
fn pattern<'a>(
    alloc: Global,
    names: &mut NameList<'a>,
    start: usize,
    pattern: &'a GraphPattern,
) -> Result<bool, AllocError>
    ensures names { OnOk result (names.new ≡ names.old ++ (inner_spec.part pattern.now).names) }
    ensures keeps { IfOk result
        (λ b. b ≡ inner_spec.fits (drop start names.old) (inner_spec.part pattern.now)) }
{
    match pattern {
        GraphPattern::Triples(triples) => {
            push_triples(names, triples.as_slice())?;
            Ok(true)
        }
        GraphPattern::Union(groups) => operands(alloc, names, groups.as_slice()),
        GraphPattern::Optional(inner) => group(alloc, names, inner),
        GraphPattern::Minus(inner) => group(alloc, &mut NameList::new(alloc), inner),
        GraphPattern::Graph(graph, inner) => {
            push_graph(names, graph)?;
            group(alloc, names, inner)
        }
        GraphPattern::Bind(_, variable) => {
            let taken = names.is_from(start, variable.text());
            push_variable(names, variable)?;
            Ok(!taken)
        }
        GraphPattern::Values(table) => {
            push_columns(names, table)?;
            is_table(alloc, table)
        }
    }
}

#[cycle(scope)]
fn operands<'a>(
    alloc: Global,
    names: &mut NameList<'a>,
    all: &'a [Group],
) -> Result<bool, AllocError>
    ensures names { OnOk result (names.new ≡ names.old ++ (inner_spec.operands all.now).names) }
    ensures keeps { IfOk result (λ b. b ≡ (inner_spec.operands all.now).keeps) }
{
    let mut keeps = true;
    for one in all {
        let fits = group(alloc, names, one)?;
        keeps = keeps && fits;
    }
    Ok(keeps)
}
