//! Operations on whole graphs over a draft of a store (SPARQL 1.1 Update, 3.1.5 and 3.2). They copy no terms: the draft changes its entries. A
//! transfer makes the name of its target known only where a quad is copied.

ghost use Rattle.std.specs.Prelude.{◌≡◌, ◌≤◌, [], false, length, Ok, IsTrue, IfOk, IfErr, OnOk};
ghost use Rattle.std.specs.List.{filter};
ghost use Rattle.std.specs.Option.{option_copied};
ghost use Rattle.qs_terms.specs.inner.Dataset.{is_graph_below, is_graph};
ghost use Rattle.qs_terms.specs.inner.Outcome.{OrOutOfMemory};
ghost use Rattle.qs_terms.specs.Statement.{same_graph};
ghost use Rattle.qs_store.specs.Change.{IsChanged};
ghost use Rattle.qs_store.specs.declared.fault.StoreFault.TheVariants.{Memory};
ghost use Rattle.qs_update.specs.inner.Carried.{BecomesOne};
ghost use Rattle.qs_update.specs.Effect as effect;
ghost use Rattle.qs_update.specs.Graphs as spec;
ghost use Rattle.qs_update.specs.inner.Lawful.{IsLawful};
ghost use Rattle.qs_update.specs.Request.{IsCarriedOut};

use crate::carried::{apply_operation, fault_of};
use crate::effect::{Effect, fault_or_nothing, nothing};
use crate::graphs::{graph_name, iri_term, is_same};
use qs_store::{Draft, Removal, StoreFault};
use qs_syntax_ast::update::{GraphTarget, Transfer};
use qs_syntax_tree::update::OnMissing;
use qs_terms::{Iri, QFault, Term};
use std::alloc::Global;

fn empty(target: &GraphTarget, draft: &mut Draft<'_>) -> Result<(), StoreFault>
    ensures same_reference { draft.new.store.ghost_name ≡ draft.old.store.ghost_name }
    ensures base { draft.new.store.now.base ≡ draft.old.store.now.base }
    ensures quads { OnOk result
        (IsChanged draft.old.store.now.draft.quads
        (filter (spec.is_target target.now) draft.old.store.now.draft.quads) []
        draft.new.store.now.draft.quads) }
    ensures next { draft.new.store.now.draft.next ≡ draft.old.store.now.draft.next }
    ensures known { draft.new.store.now.draft.known ≡ draft.old.store.now.draft.known }
    ensures room { OnOk result (length draft.old.store.now.draft.known
        ≤ draft.old.store.now.limit) }
    ensures memory { IfErr result (λ fault. fault ≡ Memory) }
    ensures limit { draft.new.store.now.limit ≡ draft.old.store.now.limit }
    ensures default_graph { draft.new.store.now.default_graph ≡ draft.old.store.now.default_graph }
{
    match target {
        GraphTarget::Graph(name) => {
            let name = iri_term(name)?;
            draft.clear_graph(Some(&name))
        }
        GraphTarget::Default => draft.clear_graph(None),
        GraphTarget::Named => draft.clear_named(),
        GraphTarget::All => draft.clear_all(),
    }
}

/// CLEAR and DROP.
pub fn clear(target: &GraphTarget, draft: &mut Draft<'_>) -> Result<(), QFault>
    ensures same_reference { draft.new.store.ghost_name ≡ draft.old.store.ghost_name }
    ensures base { draft.new.store.now.base ≡ draft.old.store.now.base }
    ensures limit { draft.new.store.now.limit ≡ draft.old.store.now.limit }
    ensures default_graph { draft.new.store.now.default_graph ≡ draft.old.store.now.default_graph }
    ensures outcome { BecomesOne (IsCarriedOut draft.old.store.now.limit draft.old.store.now.draft
        (Ok (effect.cleared target.now draft.old.store.now.draft.quads
        draft.old.store.now.draft.next))) result draft.new.store.now.draft }
{
    match empty(target, draft) {
        Ok(()) => Ok(()),
        Err(fault) => Err(fault_of(fault)),
    }
}

fn created(
    alloc: Global,
    on_exists: OnMissing,
    name: &Iri,
    draft: &Draft<'_>,
) -> Result<Effect, QFault>
    ensures effect { OrOutOfMemory
        (effect.created on_exists name.now draft.now.store.now.draft.quads
        draft.now.store.now.draft.next) result }
    ensures lawful { IfOk result (IsLawful draft.now.store.now.draft.next) }
{
    let next = draft.next_blank();
    let name = iri_term(name)?;
    if draft.has_graph(&name) {
        return fault_or_nothing(alloc, on_exists, QFault::GraphExists, next);
    }
    Ok(nothing(alloc, next))
}

/// CREATE.
pub fn create(
    alloc: Global,
    on_exists: OnMissing,
    name: &Iri,
    draft: &mut Draft<'_>,
) -> Result<(), QFault>
    ensures same_reference { draft.new.store.ghost_name ≡ draft.old.store.ghost_name }
    ensures base { draft.new.store.now.base ≡ draft.old.store.now.base }
    ensures limit { draft.new.store.now.limit ≡ draft.old.store.now.limit }
    ensures default_graph { draft.new.store.now.default_graph ≡ draft.old.store.now.default_graph }
    ensures outcome { BecomesOne (IsCarriedOut draft.old.store.now.limit draft.old.store.now.draft
        (effect.created on_exists name.now draft.old.store.now.draft.quads
        draft.old.store.now.draft.next)) result draft.new.store.now.draft }
{
    let effect = created(alloc, on_exists, name, draft)?;
    apply_operation(draft, &effect)
}

fn exists(draft: &Draft<'_>, name: Option<&Term>) -> bool
    ensures { result ≡ spec.exists (option_copied name.entry) draft.now.store.now.draft.quads }
{
    match name {
        None => true,
        Some(name) => draft.has_graph(name),
    }
}

fn put_over(
    removal: Removal,
    from: Option<&Term>,
    to: Option<&Term>,
    draft: &mut Draft<'_>,
) -> Result<(), QFault>
    requires lawful { IsTrue (is_graph (option_copied to)) }
    requires above { IsTrue (is_graph_below draft.old.store.now.draft.next (option_copied to)) }
    requires differ { same_graph (option_copied from) (option_copied to) ≡ false }
    ensures same_reference { draft.new.store.ghost_name ≡ draft.old.store.ghost_name }
    ensures base { draft.new.store.now.base ≡ draft.old.store.now.base }
    ensures limit { draft.new.store.now.limit ≡ draft.old.store.now.limit }
    ensures default_graph { draft.new.store.now.default_graph ≡ draft.old.store.now.default_graph }
    ensures outcome { BecomesOne (IsCarriedOut draft.old.store.now.limit draft.old.store.now.draft
        (Ok
        (effect.put_over (effect.removed_by removal (option_copied from.entry)
        (option_copied to.entry) draft.old.store.now.draft.quads) (option_copied from.entry)
        (option_copied to.entry) draft.old.store.now.draft.quads
        draft.old.store.now.draft.next))) result draft.new.store.now.draft }
{
    match draft.transfer(removal, from, to) {
        Ok(()) => Ok(()),
        Err(fault) => Err(fault_of(fault)),
    }
}

fn put_over_other(
    alloc: Global,
    removal: Removal,
    from: Option<&Term>,
    to: Option<&Term>,
    draft: &mut Draft<'_>,
) -> Result<(), QFault>
    requires lawful { IsTrue (is_graph (option_copied to)) }
    requires above { IsTrue (is_graph_below draft.old.store.now.draft.next (option_copied to)) }
    ensures same_reference { draft.new.store.ghost_name ≡ draft.old.store.ghost_name }
    ensures base { draft.new.store.now.base ≡ draft.old.store.now.base }
    ensures limit { draft.new.store.now.limit ≡ draft.old.store.now.limit }
    ensures default_graph { draft.new.store.now.default_graph ≡ draft.old.store.now.default_graph }
    ensures outcome { BecomesOne (IsCarriedOut draft.old.store.now.limit draft.old.store.now.draft
        (Ok
        (effect.put_over (effect.removed_by removal (option_copied from.entry)
        (option_copied to.entry) draft.old.store.now.draft.quads) (option_copied from.entry)
        (option_copied to.entry) draft.old.store.now.draft.quads
        draft.old.store.now.draft.next))) result draft.new.store.now.draft }
{
    if is_same(from, to) {
        let effect = nothing(alloc, draft.next_blank());
        return apply_operation(draft, &effect);
    }
    put_over(removal, from, to, draft)
}

/// ADD, COPY and MOVE.
pub fn transfer(
    alloc: Global,
    removal: Removal,
    transfer: &Transfer,
    draft: &mut Draft<'_>,
) -> Result<(), QFault>
    ensures same_reference { draft.new.store.ghost_name ≡ draft.old.store.ghost_name }
    ensures base { draft.new.store.now.base ≡ draft.old.store.now.base }
    ensures limit { draft.new.store.now.limit ≡ draft.old.store.now.limit }
    ensures default_graph { draft.new.store.now.default_graph ≡ draft.old.store.now.default_graph }
    ensures outcome { BecomesOne (IsCarriedOut draft.old.store.now.limit draft.old.store.now.draft
        (effect.transferred removal transfer.now draft.old.store.now.draft.quads
        draft.old.store.now.draft.next)) result draft.new.store.now.draft }
{
    let from = graph_name(&transfer.from)?;
    let to = graph_name(&transfer.to)?;
    if exists(draft, from.as_ref()) {
        return put_over_other(alloc, removal, from.as_ref(), to.as_ref(), draft);
    }
    let next = draft.next_blank();
    let effect = fault_or_nothing(alloc, transfer.on_missing, QFault::NoGraph, next)?;
    apply_operation(draft, &effect)
}
