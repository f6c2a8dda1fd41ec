//! What a query asks for, by its form (SPARQL 1.1 Query, 16).

ghost use Rattle.std.specs.Prelude.{◌≡◌, IfOk, IfErr};
ghost use Rattle.qs_terms.specs.declared.fault.QFault.TheVariants.{Memory};
ghost use Rattle.qs_query_forms.specs.inner.Request as spec;

use crate::construction::{Construction, construction_of};
use crate::selection::{Selection, selection_of};
use qs_algebra::{Pattern, translate};
use qs_syntax_ast::query::{Query, QueryForm};
use qs_terms::QFault;
use std::alloc::Global;

/// What a query asks for.
#[derive(Drop)]
pub enum Request {
    Select(Selection),
    Construct(Construction),
    /// Whether the pattern has a solution.
    Ask(Pattern),
}

/// What the query asks for.
///
/// # Errors
/// `QFault::Memory` where memory runs out; no other fault.
pub fn request_of(alloc: Global, query: &Query) -> Result<Request, QFault>
    ensures request { IfOk result (λ r. r ≡ spec.request query.now) }
    ensures memory { IfErr result (λ fault. fault ≡ Memory) }
{
    match &query.form {
        QueryForm::Select(select) => {
            let asked = selection_of(alloc, query, select)?;
            Ok(Request::Select(asked))
        }
        QueryForm::Construct(construct) => {
            let asked = construction_of(alloc, query, construct)?;
            Ok(Request::Construct(asked))
        }
        QueryForm::Ask(_) => {
            let pattern = translate(alloc, query)?;
            Ok(Request::Ask(pattern))
        }
    }
}
