//! Groups as patterns of the algebra (SPARQL 1.1 Query, 18.2.2).

ghost use Rattle.std.specs.Prelude.{◌≡◌, map, Some, IfOk};
ghost use Rattle.qs_algebra_patterns.specs.declared.pattern.Step.TheVariants as made;
ghost use Rattle.qs_algebra.specs.Translation as spec;
ghost use Rattle.qs_algebra.specs.inner.Translation as inner;

use crate::basic::basic_pattern;
use crate::expression::{expr_of, exprs_of};
use crate::parts::GroupParts;
use crate::table::table_of;
use qs_algebra_patterns::{PatternNode, Step};
use qs_base::keep_beside;
use qs_syntax_ast::pattern::{GraphPattern, Group};
use qs_syntax_ast::term::VarOrIri;
use qs_syntax_scope::NameList;
use qs_terms::Term;
use sqlite_items::{Boxed, Items};
use std::alloc::{AllocError, Global};

/// The steps of a group without filters. One pattern that is joined to the empty solution alone is that pattern.
#[tactic(auto, using(crate::proofs::Alone::join, crate::proofs::Alone::left_join, crate::proofs::Alone::minus, crate::proofs::Alone::extend))]
pub fn unfiltered(alloc: Global, mut steps: Items<Step>) -> Result<PatternNode, AllocError>
    ensures { IfOk result (λ p. p ≡ spec.unfiltered steps) }
{
    let none = Items::new(alloc);
    if steps.len() != 1 {
        return Ok(PatternNode::Group(steps, none));
    }
    match steps.pop() {
        Some(Step::Join(part)) => Ok(part),
        Some(Step::LeftJoin(part, conditions)) => {
            steps.push(Step::LeftJoin(part, conditions))?;
            Ok(PatternNode::Group(steps, none))
        }
        Some(Step::Minus(part)) => {
            steps.push(Step::Minus(part))?;
            Ok(PatternNode::Group(steps, none))
        }
        Some(Step::Extend(variable, expr)) => {
            steps.push(Step::Extend(variable, expr))?;
            Ok(PatternNode::Group(steps, none))
        }
        None => Ok(PatternNode::Group(steps, none)),
    }
}

/// A group that is closed after its last step, with its filters.
fn closed(alloc: Global, group: GroupParts) -> Result<PatternNode, AllocError>
    ensures { IfOk result (λ p. p ≡ spec.closed group) }
{
    if group.conditions.is_empty() {
        unfiltered(alloc, group.steps)
    } else {
        Ok(PatternNode::Group(group.steps, group.conditions))
    }
}

/// An optional group, whose own filters are the condition.
fn optional(alloc: Global, group: GroupParts) -> Result<Step, AllocError>
    ensures { IfOk result (λ s. s ≡ made.LeftJoin (spec.unfiltered group.steps) group.conditions) }
{
    let (conditions, part) = keep_beside(group.conditions, unfiltered(alloc, group.steps))?;
    Ok(Step::LeftJoin(part, conditions))
}

fn one_or_union(mut parts: Items<PatternNode>) -> PatternNode
    ensures { result ≡ spec.one_or_union parts }
{
    if parts.len() == 1 {
        if let Some(part) = parts.pop() {
            return part;
        }
    }
    PatternNode::Union(parts)
}

/// The pattern in the graph of the name, or in each graph.
pub fn in_graph<'a>(
    alloc: Global,
    names: &NameList<'a>,
    name: &'a VarOrIri,
    part: PatternNode,
) -> Result<PatternNode, AllocError>
    ensures { IfOk result (λ p. p ≡ spec.in_graph names.now (Some name.now) part) }
{
    let part = Boxed::new(alloc, part)?;
    match name {
        VarOrIri::Variable(variable) => {
            Ok(PatternNode::EachGraph(names.place(variable.text()), part))
        }
        VarOrIri::Iri(iri) => {
            let name = iri.try_clone()?;
            Ok(PatternNode::Graph(Term::Iri(name), part))
        }
    }
}

/// The pattern of a group, where `names` are the names of the variables in the order of their numbers.
#[cycle(group)]
pub fn group_pattern<'a>(
    alloc: Global,
    names: &NameList<'a>,
    group: &'a Group,
) -> Result<PatternNode, AllocError>
    ensures { IfOk result (λ p. p ≡ spec.group_pattern names.now group.now) }
{
    let parts = group_parts(alloc, names, group)?;
    let pattern = closed(alloc, parts)?;
    Ok(pattern)
}

#[cycle(group)]
fn group_parts<'a>(
    alloc: Global,
    names: &NameList<'a>,
    group: &'a Group,
) -> Result<GroupParts, AllocError>
    ensures { IfOk result (λ parts. parts ≡ spec.group_parts names.now group.now) }
{
    let steps = steps(alloc, names, group.patterns.as_slice())?;
    let (steps, conditions) = keep_beside(steps, exprs_of(alloc, names, group.filters.as_slice()))?;
    Ok(GroupParts { steps, conditions })
}

#[cycle(group)]
fn steps<'a>(
    alloc: Global,
    names: &NameList<'a>,
    patterns: &'a [GraphPattern],
) -> Result<Items<Step>, AllocError>
    ensures { IfOk result (λ steps. steps ≡ map (inner.step_of names.now) patterns.now) }
{
    let mut steps = Items::new(alloc);
    for pattern in patterns {
        let step = step(alloc, names, pattern)?;
        steps.push(step)?;
    }
    Ok(steps)
}

#[cycle(group)]
fn step<'a>(
    alloc: Global,
    names: &NameList<'a>,
    pattern: &'a GraphPattern,
) -> Result<Step, AllocError>
    ensures { IfOk result (λ step. step ≡ inner.step_of names.now pattern.now) }
{
    match pattern {
        GraphPattern::Triples(triples) => {
            let basic = basic_pattern(alloc, names, triples.as_slice())?;
            Ok(Step::Join(PatternNode::Basic(basic)))
        }
        GraphPattern::Union(groups) => {
            let parts = operands(alloc, names, groups.as_slice())?;
            Ok(Step::Join(one_or_union(parts)))
        }
        GraphPattern::Optional(group) => {
            let parts = group_parts(alloc, names, group)?;
            let step = optional(alloc, parts)?;
            Ok(step)
        }
        GraphPattern::Minus(group) => {
            let part = group_pattern(alloc, names, group)?;
            Ok(Step::Minus(part))
        }
        GraphPattern::Graph(name, group) => {
            let part = group_pattern(alloc, names, group)?;
            let part = in_graph(alloc, names, name, part)?;
            Ok(Step::Join(part))
        }
        GraphPattern::Values(table) => {
            let table = table_of(alloc, names, table)?;
            Ok(Step::Join(PatternNode::Values(table)))
        }
        GraphPattern::Bind(value, variable) => {
            let expr = expr_of(alloc, names, value)?;
            Ok(Step::Extend(names.place(variable.text()), expr))
        }
    }
}

#[cycle(group)]
fn operands<'a>(
    alloc: Global,
    names: &NameList<'a>,
    groups: &'a [Group],
) -> Result<Items<PatternNode>, AllocError>
    ensures { IfOk result (λ parts. parts ≡ map (spec.group_pattern names.now) groups.now) }
{
    let mut parts = Items::new(alloc);
    for group in groups {
        let part = group_pattern(alloc, names, group)?;
        parts.push(part)?;
    }
    Ok(parts)
}
