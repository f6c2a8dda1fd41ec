//! What a CONSTRUCT asks for (SPARQL 1.1 Query, 16.2).

ghost use Rattle.std.specs.Prelude.{◌≡◌, IfOk, IfErr};
ghost use Rattle.qs_terms.specs.declared.fault.QFault.TheVariants.{Memory};
ghost use Rattle.qs_syntax_scope.specs.Firsts.{names_of};
ghost use Rattle.qs_query_template.specs.Template as made;
ghost use Rattle.qs_query_forms.specs.Construction as spec;

use crate::modifiers::{Slice, order_of, slice_of};
use qs_algebra::{Pattern, translate};
use qs_query_order::OrderCondition;
use qs_query_template::{Template, template_of};
use qs_syntax_ast::pattern::Triple;
use qs_syntax_ast::query::{Construct, Query};
use qs_syntax_ast::term::Variable;
use qs_syntax_scope::number_names;
use qs_terms::QFault;
use sqlite_items::Items;
use std::alloc::{AllocError, Global};

/// What a CONSTRUCT asks for.
#[derive(Drop)]
pub struct Construction {
    pub template: Template,
    pub pattern: Pattern,
    /// The conditions of ORDER BY.
    pub order: Items<OrderCondition>,
    pub slice: Slice,
}

fn template(
    alloc: Global,
    variables: &[Variable],
    triples: &[Triple],
) -> Result<Template, AllocError>
    ensures { IfOk result (λ t. t ≡ made.template_of (names_of variables.now) triples.now) }
{
    let names = number_names(alloc, variables)?;
    template_of(alloc, &names, triples)
}

/// What the CONSTRUCT of the query asks for.
///
/// # Errors
/// `QFault::Memory` where memory runs out; no other fault.
pub fn construction_of(
    alloc: Global,
    query: &Query,
    construct: &Construct,
) -> Result<Construction, QFault>
    ensures construction { IfOk result (λ c. c ≡ spec.construction query.now construct.now) }
    ensures memory { IfErr result (λ fault. fault ≡ Memory) }
{
    let variables = query.variables.as_slice();
    let template = template(alloc, variables, construct.template.as_slice())?;
    let order = order_of(alloc, variables, &construct.modifiers)?;
    let pattern = translate(alloc, query)?;
    Ok(Construction {
        template,
        pattern,
        order,
        slice: slice_of(&construct.modifiers),
    })
}
