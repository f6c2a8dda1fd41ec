//! The query or the update of a tree, or the fault of the tree that is due.
//!
//! Limits are looked at before names are resolved: it takes no memory, and an update's tree is dropped while it is resolved. Where a
//! limit is passed names are resolved all the same, since a fault of a name that stands before that place is due in its stead.

ghost use Rattle.std.specs.Prelude.{◌≡◌, ℕ, List, IfOk, IfErr, Ok, Err, if◌then◌else◌};
ghost use Rattle.qs_terms.specs.declared.fault.QFault.TheVariants.{Memory, Scope};
ghost use Rattle.qs_syntax_limits.specs.Large as large;
ghost use Rattle.qs_syntax_resolve.specs.Resolved.{resolved_query, resolved_update};
ghost use Rattle.qs_syntax_scope.specs.KeepsScope as rule;
ghost use Rattle.qs_terms.specs.inner.Outcome.{OrOutOfMemory};
ghost use Rattle.qs_syntax.specs.Outcome as spec;
ghost use Rattle.qs_syntax.specs.inner.Outcome as inner;

use qs_base::keep_beside;
use qs_syntax_ast::query::Query;
use qs_syntax_ast::update::Update;
use qs_syntax_limits::{large_query, large_update};
use qs_syntax_resolve::{resolve_query, resolve_update};
use qs_syntax_scope::{first_variables, query_keeps_scope, update_keeps_scope};
use qs_syntax_tree::query::Query as WrittenQuery;
use qs_syntax_tree::update::Update as WrittenUpdate;
use qs_terms::QFault;
use sqlite_items::Items;
use std::alloc::{AllocError, Global};

fn nearer(fault: QFault, at: usize, large: Option<usize>) -> QFault
    ensures { result ≡ spec.nearer fault at large }
{
    match large {
        None => fault,
        Some(place) => {
            if place < at {
                return QFault::TooLarge { place };
            }
            fault
        }
    }
}

fn earlier(fault: QFault, large: Option<usize>) -> QFault
    ensures { result ≡ spec.earlier fault large }
{
    match fault {
        QFault::Prefix { place } => nearer(QFault::Prefix { place }, place, large),
        QFault::RelativeIri { place } => nearer(QFault::RelativeIri { place }, place, large),
        other => other,
    }
}

fn by_place<T: Drop>(resolved: Result<Option<T>, QFault>, large: Option<usize>) -> Result<T, QFault>
    ensures { result ≡ spec.by_place resolved large }
{
    match (resolved, large) {
        (Err(fault), large) => Err(earlier(fault, large)),
        (Ok(_found), Some(place)) => Err(QFault::TooLarge { place }),
        (Ok(None), None) => Err(QFault::Scope),
        (Ok(Some(tree)), None) => Ok(tree),
    }
}

// the tree, where it keeps the rules of scope
fn where_kept<T: Drop>(keeps: Result<bool, AllocError>, tree: T) -> Result<T, QFault>
    ensures kept { IfOk keeps (λ holds. result ≡ (if holds then Ok tree else Err Scope)) }
    ensures unknown { IfErr keeps (λ _. result ≡ Err Memory) }
{
    match keeps {
        Ok(true) => Ok(tree),
        Ok(false) => Err(QFault::Scope),
        Err(_) => Err(QFault::Memory),
    }
}

fn scoped_query(alloc: Global, query: Query) -> Result<Query, QFault>
    ensures { OrOutOfMemory (spec.in_scope rule.query_keeps_scope query) result }
{
    let keeps = query_keeps_scope(alloc, &query);
    where_kept(keeps, query)
}

fn scoped_update(alloc: Global, update: Update) -> Result<Update, QFault>
    ensures { OrOutOfMemory (spec.in_scope rule.update_keeps_scope update) result }
{
    let keeps = update_keeps_scope(alloc, &update);
    where_kept(keeps, update)
}

// the query, with its variables listed once each
fn listed_query(alloc: Global, query: Query) -> Result<Query, AllocError>
    ensures { IfOk result (λ q. q ≡ inner.listed_query query) }
{
    let variables = first_variables(alloc, query.variables.as_slice());
    let (query, variables) = keep_beside(query, variables)?;
    let Query {
        form,
        values,
        variables: _,
    } = query;
    Ok(Query {
        form,
        values,
        variables,
    })
}

#[tactic(auto, using(crate::proofs::Places::placed))]
fn query_within(alloc: Global, text: &str, tree: &WrittenQuery) -> Result<Query, QFault>
    ensures { OrOutOfMemory
        (spec.by_place (resolved_query text.now tree.now) (large.query tree.now)) result }
{
    let large = large_query(tree);
    let resolved = resolve_query(alloc, text, tree);
    by_place(resolved, large)
}

/// The query of a tree that the text's tokens spell, with its variables listed once each.
#[tactic(auto, unfolding(crate::specs::Outcome::query_outcome))]
pub(crate) fn resolve_and_check_query(
    alloc: Global,
    text: &str,
    tree: &WrittenQuery,
) -> Result<Query, QFault>
    ensures { OrOutOfMemory (spec.query_outcome text.now tree.now) result }
{
    let query = query_within(alloc, text, tree)?;
    let query = scoped_query(alloc, query)?;
    Ok(listed_query(alloc, query)?)
}

#[tactic(auto, using(crate::proofs::Places::placed))]
fn update_within(alloc: Global, text: &str, tree: WrittenUpdate) -> Result<Update, QFault>
    ensures { OrOutOfMemory (spec.by_place (resolved_update text.now tree) (large.update tree))
        result }
{
    let large = large_update(&tree);
    let resolved = resolve_update(alloc, text, tree);
    by_place(resolved, large)
}

/// The update of a tree that the text's tokens spell.
#[tactic(auto, unfolding(crate::specs::Outcome::update_outcome))]
pub(crate) fn resolve_and_check_update(
    alloc: Global,
    text: &str,
    tree: WrittenUpdate,
) -> Result<Update, QFault>
    ensures { OrOutOfMemory (spec.update_outcome text.now tree) result }
{
    let update = update_within(alloc, text, tree)?;
    scoped_update(alloc, update)
}

/// The update that no token spells. It takes no memory.
pub(crate) fn settle_nothing(alloc: Global) -> Update
    ensures { (text : List ℕ) → spec.update_outcome text inner.no_operation ≡ Ok result }
{
    Update {
        operations: Items::new(alloc),
    }
}
