//! Whole queries and updates.

ghost use Rattle.std.specs.Prelude.{◌≡◌, IfOk, IfErr, Ok, Err, Some, None, if◌then◌else◌};
ghost use Rattle.qs_terms.specs.inner.Outcome.{OrOutOfMemory};
ghost use Rattle.qs_syntax_resolve.specs.Resolved as spec;

use crate::names::Names;
use crate::resolver::Resolver;
use qs_syntax_ast::query::Query;
use qs_syntax_ast::update::Update;
use qs_syntax_tree::query::Query as WrittenQuery;
use qs_syntax_tree::update::Update as WrittenUpdate;
use qs_terms::QFault;
use std::alloc::Global;

// what was resolved, where its literals are lawful
fn where_lawful<T: Drop>(resolved: Result<T, QFault>, lawful: bool) -> Result<Option<T>, QFault>
    ensures found { IfOk resolved (λ tree. result ≡ Ok (if lawful then Some tree else None)) }
    ensures fault { IfErr resolved (λ fault. result ≡ Err fault) }
{
    match (resolved, lawful) {
        (Ok(found), true) => Ok(Some(found)),
        (Ok(_found), false) => Ok(None),
        (Err(fault), _) => Err(fault),
    }
}

/// The query of a text with its names resolved, with its variables as often as they stand in it; `None` where a literal of it isn't lawful,
/// since its datatype is rdf:langString and it has no tag (RDF 1.1 Concepts, 3.3). Anonymous blank nodes are numbered from 0.
///
/// # Errors
/// The first that the text has of: `QFault::Prefix` with the place of a name whose prefix isn't declared, `QFault::RelativeIri` with
/// that of an IRI without a scheme. `QFault::Memory` where memory runs out.
#[tactic(auto, unfolding(crate::specs::Resolved::resolved_query))]
pub fn resolve_query(
    alloc: Global,
    text: &str,
    query: &WrittenQuery,
) -> Result<Option<Query>, QFault>
    ensures { OrOutOfMemory (spec.resolved_query text.now query.now) result }
{
    let mut resolver = Resolver::new(alloc, Names::new(alloc, text));
    let query = resolver.query(alloc, query);
    where_lawful(query, resolver.lawful)
}

/// The update of a text with its names resolved, in the same way. Prefixes of a later prologue are added to the earlier ones, and a
/// later declaration of a prefix replaces the earlier from there on. The tree is dropped part by part, each once it is resolved.
///
/// # Errors
/// As of `resolve_query`.
#[tactic(auto, unfolding(crate::specs::Resolved::resolved_update))]
pub fn resolve_update(
    alloc: Global,
    text: &str,
    update: WrittenUpdate,
) -> Result<Option<Update>, QFault>
    ensures { OrOutOfMemory (spec.resolved_update text.now update) result }
{
    let mut resolver = Resolver::new(alloc, Names::new(alloc, text));
    let update = resolver.update(alloc, update);
    where_lawful(update, resolver.lawful)
}
