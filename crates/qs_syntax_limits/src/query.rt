//! Queries.

ghost use Rattle.std.specs.Prelude.{◌≡◌};
ghost use Rattle.std.specs.List.{flat_map};
ghost use Rattle.qs_syntax_limits.specs.Large as spec;
ghost use Rattle.qs_syntax_limits.specs.inner.Parts as inner;
ghost use Rattle.qs_syntax_tree.specs.declared.query.QueryForm.TheVariants as form;

use crate::expression::in_expression;
use crate::pattern::in_group;
use crate::place::first;
use crate::triples::in_triples;
use qs_syntax_tree::pattern::Group;
use qs_syntax_tree::query::{
    Ask, Construct, OrderCondition, Projection, Query, QueryForm, Select, SelectItem,
};

#[tactic(auto, using(crate::proofs::Rows::excess_none))]
fn in_select_item(item: &SelectItem) -> Option<usize>
    ensures { result ≡ spec.excess (spec.select_item item.now) }
{
    match item {
        SelectItem::Var(_) => None,
        SelectItem::As(tree, _) => in_expression(tree),
    }
}

#[tactic(auto, using(crate::proofs::Rows::from_none))]
fn in_select_items(all: &[SelectItem]) -> Option<usize>
    ensures { result ≡ spec.excess (flat_map spec.select_item all.now) }
{
    let mut found = None;
    for item in all {
        found = first(found, in_select_item(item));
    }
    found
}

#[tactic(auto, using(crate::proofs::Rows::excess_none))]
fn in_projection(projection: &Projection) -> Option<usize>
    ensures { result ≡ spec.excess (spec.projection projection.now) }
{
    match projection {
        Projection::All => None,
        Projection::Items(items) => in_select_items(items.as_slice()),
    }
}

#[tactic(auto, using(crate::proofs::Rows::from_none))]
fn in_order(all: &[OrderCondition]) -> Option<usize>
    ensures { result ≡ spec.excess (flat_map (λ condition. spec.expression condition.key) all.now) }
{
    let mut found = None;
    for condition in all {
        found = first(found, in_expression(&condition.key));
    }
    found
}

#[tactic(auto, using(crate::proofs::Rows::excess_none))]
fn in_pattern(pattern: &Option<Group>) -> Option<usize>
    ensures { result ≡ spec.excess (inner.given spec.group pattern.now) }
{
    match pattern {
        None => None,
        Some(group) => in_group(group),
    }
}

#[tactic(auto, using(crate::proofs::Rows::excess_append))]
fn in_select(select: &Select) -> Option<usize>
    ensures { result ≡ spec.excess (spec.query_form (form.Select select.now)) }
{
    let pattern = in_group(&select.pattern);
    let order = in_order(select.modifiers.order.as_slice());
    first(in_projection(&select.projection), first(pattern, order))
}

#[tactic(auto, using(crate::proofs::Rows::excess_append))]
fn in_construct(construct: &Construct) -> Option<usize>
    ensures { result ≡ spec.excess (spec.query_form (form.Construct construct.now)) }
{
    let pattern = in_pattern(&construct.pattern);
    let order = in_order(construct.modifiers.order.as_slice());
    first(
        in_triples(construct.template.as_slice()),
        first(pattern, order),
    )
}

#[tactic(auto, using(crate::proofs::Rows::excess_append))]
fn in_ask(ask: &Ask) -> Option<usize>
    ensures { result ≡ spec.excess (spec.query_form (form.Ask ask.now)) }
{
    first(
        in_group(&ask.pattern),
        in_order(ask.modifiers.order.as_slice()),
    )
}

/// The place at which a query has a 257th element in a group, or a 257th operand in a chain; of several the least, and None where
/// there is none. Chains are those of UNION, `||`, `&&`, `+` and `-`, `*`, and in paths `|`, `/` and negated sets.
#[tactic(auto, unfolding(crate::specs::Large::query))]
pub fn large_query(query: &Query) -> Option<usize>
    ensures { result ≡ spec.query query.now }
{
    match &query.form {
        QueryForm::Select(select) => in_select(select),
        QueryForm::Construct(construct) => in_construct(construct),
        QueryForm::Ask(ask) => in_ask(ask),
    }
}
