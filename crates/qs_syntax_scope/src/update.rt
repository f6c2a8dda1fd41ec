//! The rules of updates.

ghost use Rattle.std.specs.Prelude.{◌≡◌, ◌&&◌, [], IfOk, OnOk, map};
ghost use Rattle.std.specs.List.{fold, flat_map, list_all};
ghost use Rattle.qs_syntax_scope.specs.Scope.{group_keeps};
ghost use Rattle.qs_syntax_scope.specs.inner.Met.{after, add_run};
ghost use Rattle.qs_syntax_scope.specs.KeepsScope as spec;

use crate::blocks::{have_no_blank, have_no_variable};
use crate::met::Met;
use crate::query::group_keeps;
use crate::{labels, runs};
use qs_syntax_ast::update::{Modify, Operation, QuadBlock, Update};
use std::alloc::{AllocError, Global};

fn data_can_be_removed(blocks: &[QuadBlock]) -> bool
    ensures { result ≡ (spec.have_no_variable blocks.now && spec.have_no_blank blocks.now) }
{
    have_no_variable(blocks) && have_no_blank(blocks)
}

fn modify_keeps(alloc: Global, modify: &Modify) -> Result<bool, AllocError>
    ensures { IfOk result
        (λ b. b ≡ (spec.have_no_blank modify.now.delete && group_keeps modify.now.pattern)) }
{
    let blanks = have_no_blank(modify.delete.as_slice());
    let pattern = group_keeps(alloc, &modify.pattern)?;
    Ok(blanks && pattern)
}

fn operation_keeps(alloc: Global, operation: &Operation) -> Result<bool, AllocError>
    ensures { IfOk result (λ b. b ≡ spec.operation_keeps operation.now) }
{
    match operation {
        Operation::InsertData(blocks) => Ok(have_no_variable(blocks.as_slice())),
        Operation::DeleteData(blocks) => Ok(data_can_be_removed(blocks.as_slice())),
        Operation::DeleteWhere(delete) => Ok(have_no_blank(delete.quads.as_slice())),
        Operation::Modify(modify) => modify_keeps(alloc, modify),
        _ => Ok(true),
    }
}

fn operations_keep(alloc: Global, operations: &[Operation]) -> Result<bool, AllocError>
    ensures { IfOk result (λ b. b ≡ list_all spec.operation_keeps operations.now) }
{
    let mut keeps = true;
    for operation in operations {
        let fits = operation_keeps(alloc, operation)?;
        keeps = keeps && fits;
    }
    Ok(keeps)
}

fn add_runs<'a>(met: &mut Met<'a>, operation: &'a Operation) -> Result<(), AllocError>
    ensures { OnOk result (met.new ≡ fold add_run met.old (spec.operation_runs operation.now)) }
{
    match operation {
        Operation::Modify(modify) => runs::group(met, &modify.pattern),
        _ => Ok(()),
    }
}

// Whether no label stands in two runs of the operations' WHERE.
fn runs_are_apart(alloc: Global, operations: &[Operation]) -> Result<bool, AllocError>
    ensures { IfOk result
        (λ b. b ≡ (fold add_run (after []) (flat_map spec.operation_runs operations.now)).keeps) }
{
    let mut met = Met::new(alloc);
    for operation in operations {
        add_runs(&mut met, operation)?;
    }
    Ok(met.keeps)
}

fn add_inserted<'a>(met: &mut Met<'a>, operation: &'a Operation) -> Result<(), AllocError>
    ensures { OnOk result (met.new ≡ add_run met.old (spec.inserted_labels operation.now)) }
{
    match operation {
        Operation::InsertData(blocks) => labels::add_blocks(met, blocks.as_slice()),
        _ => Ok(()),
    }
}

// Whether no label stands in two INSERT DATA.
fn inserted_are_apart(alloc: Global, operations: &[Operation]) -> Result<bool, AllocError>
    ensures { IfOk result
        (λ b. b ≡ (fold add_run (after []) (map spec.inserted_labels operations.now)).keeps) }
{
    let mut met = Met::new(alloc);
    for operation in operations {
        add_inserted(&mut met, operation)?;
    }
    Ok(met.keeps)
}

/// Whether the update keeps the rules of scope beyond the grammar (SPARQL 1.1 Query, the notes on the grammar in 19.8): those of
/// queries in its WHERE clauses, no variable in data, no blank node in what it deletes, and labels of blank nodes in one run and in
/// one INSERT DATA. The only error is running out of memory.
#[tactic(auto, using(crate::proofs::Plain::apart_kept), unfolding(crate::specs::KeepsScope::update_keeps_scope))]
pub fn update_keeps_scope(alloc: Global, update: &Update) -> Result<bool, AllocError>
    ensures { IfOk result (λ b. b ≡ spec.update_keeps_scope update.now) }
{
    let operations = update.operations.as_slice();
    let each = operations_keep(alloc, operations)?;
    let runs = runs_are_apart(alloc, operations)?;
    let inserted = inserted_are_apart(alloc, operations)?;
    Ok(each && runs && inserted)
}
