//! Operations over a draft of a store (SPARQL 1.1 Update, 3 and 4.3).

ghost use Rattle.std.specs.Prelude.{◌≡◌, ◌<◌, ◌≤◌, false, length, IsTrue, IfOk};
ghost use Rattle.std.specs.List.{list_all};
ghost use Rattle.qs_terms.specs.Dataset.{is_above_blanks};
ghost use Rattle.qs_syntax_ast.specs.declared.update.Operation.TheVariants as operation;
ghost use Rattle.qs_syntax_scope.specs.Firsts.{firsts};
ghost use Rattle.qs_update_laws.specs.inner.Below.{have_iri_predicates};
ghost use Rattle.qs_update_laws.specs.inner.Written.{operation_values_have_no_blank, update_values_have_no_blank, values_have_no_blank};
ghost use Rattle.qs_update.specs.inner.Carried.{BecomesOne, BecomesFirst};
ghost use Rattle.qs_update.specs.inner.DataRun.{is_data};
ghost use Rattle.qs_update.specs.Request.{bounds_of, IsOperation, AreOperations};

use crate::carried::apply_operation;
use crate::data::data_run;
use crate::lawful::effects_are_lawful;
use crate::modified::{change_by, deleted_rows, where_rows};
use crate::whole_graphs::{clear, create, transfer};
use qs_store::{Draft, Removal};
use qs_syntax_ast::term::Variable;
use qs_syntax_ast::update::{DeleteWhere, Modify, Operation, Update};
use qs_syntax_scope::first_variables;
use qs_terms::QFault;
use qs_update_laws::laws::quads_are_told_one_by_one;
use std::alloc::Global;

// The next blank node's number of the draft. The predicates of its quads are IRIs. An operation is defined over some list of the quads, each
// once, since the bag of a WHERE's solutions doesn't depend on their order: here it is the draft's own list.
fn next_blank(draft: &Draft<'_>) -> u64
    ensures next { result ≡ draft.now.store.now.draft.next }
    ensures above { IsTrue (is_above_blanks result draft.now.store.now.draft.quads) }
    ensures predicates { IsTrue (have_iri_predicates draft.now.store.now.draft.quads) }
{
    quads_are_told_one_by_one();
    draft.terms();
    draft.next_blank()
}

// DELETE WHERE, with its variables, each once.
fn delete_where(
    alloc: Global,
    variables: &[Variable],
    delete: &DeleteWhere,
    draft: &mut Draft<'_>,
    max_rows: u64,
) -> Result<(), QFault>
    requires { variables.now ≡ firsts delete.now.variables }
    ensures same_reference { draft.new.store.ghost_name ≡ draft.old.store.ghost_name }
    ensures base { draft.new.store.now.base ≡ draft.old.store.now.base }
    ensures limit { draft.new.store.now.limit ≡ draft.old.store.now.limit }
    ensures default_graph { draft.new.store.now.default_graph ≡ draft.old.store.now.default_graph }
    ensures outcome { BecomesOne (IsOperation (bounds_of max_rows draft.old.store.now)
        (operation.DeleteWhere delete.now) draft.old.store.now.draft) result
        draft.new.store.now.draft }
{
    effects_are_lawful();
    next_blank(draft);
    let blocks = delete.quads.as_slice();
    let found = deleted_rows(alloc, variables, blocks, draft, max_rows)?;
    change_by(alloc, variables, &None, blocks, &[], draft, &found)
}

// DELETE and INSERT with a WHERE, and their variables, each once.
fn modify_where(
    alloc: Global,
    variables: &[Variable],
    modify: &Modify,
    draft: &mut Draft<'_>,
    max_rows: u64,
) -> Result<(), QFault>
    requires variables { variables.now ≡ firsts modify.now.variables }
    requires values { IsTrue (values_have_no_blank modify.now.pattern) }
    ensures same_reference { draft.new.store.ghost_name ≡ draft.old.store.ghost_name }
    ensures base { draft.new.store.now.base ≡ draft.old.store.now.base }
    ensures limit { draft.new.store.now.limit ≡ draft.old.store.now.limit }
    ensures default_graph { draft.new.store.now.default_graph ≡ draft.old.store.now.default_graph }
    ensures outcome { BecomesOne (IsOperation (bounds_of max_rows draft.old.store.now)
        (operation.Modify modify.now) draft.old.store.now.draft) result
        draft.new.store.now.draft }
{
    effects_are_lawful();
    next_blank(draft);
    let found = where_rows(alloc, variables, modify, draft, max_rows)?;
    change_by(
        alloc,
        variables,
        &modify.with,
        modify.delete.as_slice(),
        modify.insert.as_slice(),
        draft,
        &found,
    )
}

// An operation that isn't INSERT DATA or DELETE DATA. Only one with a WHERE has variables, so they are listed for no other.
fn operate(
    alloc: Global,
    operation: &Operation,
    draft: &mut Draft<'_>,
    max_rows: u64,
) -> Result<(), QFault>
    requires values { IsTrue (operation_values_have_no_blank operation.now) }
    requires no_data { is_data operation.now ≡ false }
    ensures same_reference { draft.new.store.ghost_name ≡ draft.old.store.ghost_name }
    ensures base { draft.new.store.now.base ≡ draft.old.store.now.base }
    ensures limit { draft.new.store.now.limit ≡ draft.old.store.now.limit }
    ensures default_graph { draft.new.store.now.default_graph ≡ draft.old.store.now.default_graph }
    ensures outcome { BecomesOne (IsOperation (bounds_of max_rows draft.old.store.now) operation.now
        draft.old.store.now.draft) result draft.new.store.now.draft }
{
    match operation {
        Operation::InsertData(_) => unreachable!(),
        Operation::DeleteData(_) => unreachable!(),
        Operation::DeleteWhere(delete) => {
            let variables = first_variables(alloc, delete.variables.as_slice())?;
            delete_where(alloc, variables.as_slice(), delete, draft, max_rows)
        }
        Operation::Modify(modify) => {
            let variables = first_variables(alloc, modify.variables.as_slice())?;
            modify_where(alloc, variables.as_slice(), modify, draft, max_rows)
        }
        Operation::Clear(_, target) => clear(target, draft),
        Operation::Drop(_, target) => clear(target, draft),
        Operation::Create(on_exists, name) => create(alloc, *on_exists, name, draft),
        Operation::Add(it) => transfer(alloc, Removal::Nothing, it, draft),
        Operation::Move(it) => transfer(alloc, Removal::Both, it, draft),
        Operation::Copy(it) => transfer(alloc, Removal::Target, it, draft),
    }
}

// Carries the first operations out that one change can make, and says how many: a run of INSERT DATA and DELETE DATA, or one other.
fn operate_first(
    alloc: Global,
    operations: &[Operation],
    draft: &mut Draft<'_>,
    max_rows: u64,
) -> Result<usize, QFault>
    requires some { 0 < length operations.now }
    requires values { IsTrue (list_all operation_values_have_no_blank operations.now) }
    ensures same_reference { draft.new.store.ghost_name ≡ draft.old.store.ghost_name }
    ensures base { draft.new.store.now.base ≡ draft.old.store.now.base }
    ensures limit { draft.new.store.now.limit ≡ draft.old.store.now.limit }
    ensures default_graph { draft.new.store.now.default_graph ≡ draft.old.store.now.default_graph }
    ensures count { IfOk result (λ count. (0 < count) × (count ≤ length operations.now)) }
    ensures outcome { BecomesFirst (bounds_of max_rows draft.old.store.now) operations.now
        draft.old.store.now.draft result draft.new.store.now.draft }
{
    let run = data_run(alloc, operations, draft.next_blank())?;
    if run.count > 0 {
        apply_operation(draft, &run.effect)?;
        return Ok(run.count);
    }
    operate(alloc, &operations[0], draft, max_rows)?;
    Ok(1)
}

/// Carries the operations of an update out, each over what those before it left, up to the first that is refused. No row of a VALUES in
/// it has a blank node. The store below the draft stays as it was.
///
/// # Errors
/// That of the first operation that is refused: `QFault::NoGraph` where ADD, COPY or MOVE name a graph without quads, `QFault::GraphExists`
/// where CREATE names one with quads, both without SILENT; `QFault::TooManyRows` where a WHERE has more solutions; `QFault::Full` where
/// the numbers of blank nodes don't suffice, or where more terms would be known than the store's limit. `QFault::Memory` where
/// memory runs out.
pub fn operate_all(
    alloc: Global,
    update: &Update,
    draft: &mut Draft<'_>,
    max_rows: u64,
) -> Result<(), QFault>
    requires { IsTrue (update_values_have_no_blank update.now) }
    ensures same_reference { draft.new.store.ghost_name ≡ draft.old.store.ghost_name }
    ensures base { draft.new.store.now.base ≡ draft.old.store.now.base }
    ensures limit { draft.new.store.now.limit ≡ draft.old.store.now.limit }
    ensures default_graph { draft.new.store.now.default_graph ≡ draft.old.store.now.default_graph }
    ensures outcome { BecomesOne
        (AreOperations (bounds_of max_rows draft.old.store.now) update.now.operations
        draft.old.store.now.draft) result draft.new.store.now.draft }
{
    let mut rest = update.operations.as_slice();
    while !rest.is_empty() {
        let count = operate_first(alloc, rest, draft, max_rows)?;
        rest = rest.split_at(count).1;
    }
    Ok(())
}
