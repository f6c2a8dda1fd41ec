//! The modifiers of a sequence: ORDER BY, OFFSET and LIMIT (SPARQL 1.1 Query, 15.1, 15.4 and 15.5).

ghost use Rattle.std.specs.Prelude.{◌≡◌, map, IfOk};
ghost use Rattle.qs_syntax_scope.specs.Firsts.{names_of};
ghost use Rattle.qs_query_forms.specs.Modifiers as spec;

use qs_algebra::expr_of;
use qs_query_order::OrderCondition;
use qs_syntax_ast::query::{OrderCondition as WrittenCondition, SolutionModifiers};
use qs_syntax_ast::term::Variable;
use qs_syntax_scope::{NameList, number_names};
use sqlite_items::Items;
use std::alloc::{AllocError, Global};

/// Which part of a list: so many are left out at its front, and so many are left of the rest.
#[derive(Clone, Copy)]
pub struct Slice {
    pub offset: u64,
    pub limit: Option<u64>,
}

/// OFFSET and LIMIT.
pub fn slice_of(modifiers: &SolutionModifiers) -> Slice
    ensures { result ≡ spec.slice_of modifiers.now }
{
    let offset = match modifiers.offset {
        None => 0,
        Some(offset) => offset,
    };
    Slice {
        offset,
        limit: modifiers.limit,
    }
}

fn condition_of<'a>(
    alloc: Global,
    names: &NameList<'a>,
    condition: &'a WrittenCondition,
) -> Result<OrderCondition, AllocError>
    ensures { IfOk result (λ c. c ≡ spec.condition_of names.now condition.now) }
{
    let key = expr_of(alloc, names, &condition.key)?;
    Ok(OrderCondition {
        direction: condition.direction,
        key,
    })
}

fn conditions_of<'a>(
    alloc: Global,
    names: &NameList<'a>,
    conditions: &'a [WrittenCondition],
) -> Result<Items<OrderCondition>, AllocError>
    ensures { IfOk result (λ all. all ≡ map (spec.condition_of names.now) conditions.now) }
{
    let mut all = Items::new(alloc);
    for condition in conditions {
        let condition = condition_of(alloc, names, condition)?;
        all.push(condition)?;
    }
    Ok(all)
}

/// The conditions of ORDER BY, where these are the variables of the text.
pub fn order_of<'a>(
    alloc: Global,
    variables: &'a [Variable],
    modifiers: &'a SolutionModifiers,
) -> Result<Items<OrderCondition>, AllocError>
    ensures { IfOk result
        (λ all. all ≡ map (spec.condition_of (names_of variables.now)) modifiers.now.order) }
{
    let names = number_names(alloc, variables)?;
    conditions_of(alloc, &names, modifiers.order.as_slice())
}
