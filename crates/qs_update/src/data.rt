//! INSERT DATA and DELETE DATA (SPARQL 1.1 Update, 3.1.1 and 3.1.2). A request may have many of them one after another, and a run of
//! them is one effect. They read no quads, so that their time doesn't grow with the store.

ghost use Rattle.std.specs.Prelude.{◌≡◌, ◌≢◌, ◌<◌, ◌≤◌, ℕ, true, length, take, IfOk, IfErr, OnOk};
ghost use Rattle.qs_terms.specs.inner.OrOutOf.{BecomesOrOutOfMemory};
ghost use Rattle.qs_terms.specs.declared.fault.QFault.TheVariants.{Memory};
ghost use Rattle.qs_update.specs.inner.DataRun as spec;
ghost use Rattle.qs_update.specs.inner.Lawful.{IsLawful};

use crate::effect::{Effect, nothing};
use crate::lawful::effects_are_lawful;
use qs_query_template::{put_quads_to_delete, put_quads_to_insert};
use qs_store::quads_make_their_terms_known;
use qs_syntax_ast::update::{Operation, QuadBlock};
use qs_terms::QFault;
use qs_update_laws::laws::quads_are_told_one_by_one;
use std::alloc::Global;

/// The effect of the first operations of a list, and how many these are.
#[derive(Drop)]
pub struct DataRun {
    pub effect: Effect,
    pub count: usize,
}

fn put_insertion(alloc: Global, blocks: &[QuadBlock], effect: &mut Effect) -> Result<(), QFault>
    ensures effect { BecomesOrOutOfMemory Memory (spec.with_insertion effect.old blocks.now) result
        effect.new }
    ensures lawful { OnOk result ((first : ℕ) → IsLawful first effect.old
        → IsLawful first effect.new) }
{
    effects_are_lawful();
    quads_are_told_one_by_one();
    let next = put_quads_to_insert(alloc, blocks, effect.next, &mut effect.added)?;
    effect.next = next;
    Ok(())
}

fn put_deletion(alloc: Global, blocks: &[QuadBlock], effect: &mut Effect) -> Result<(), QFault>
    ensures effect { BecomesOrOutOfMemory Memory (spec.with_deletion effect.old blocks.now) result
        effect.new }
    ensures lawful { OnOk result ((first : ℕ) → IsLawful first effect.old
        → IsLawful first effect.new) }
{
    let _in_range = effect.next;
    put_quads_to_delete(alloc, blocks, &mut effect.removed)?;
    Ok(())
}

// Adds what the operation does to the effect, and says whether it could. An effect removes quads before it adds others, so it takes a
// DELETE DATA only while it adds nothing.
fn put_data(alloc: Global, operation: &Operation, effect: &mut Effect) -> Result<bool, QFault>
    ensures effect { spec.IsPut operation.now effect.old result effect.new }
    ensures lawful { OnOk result ((first : ℕ) → IsLawful first effect.old
        → IsLawful first effect.new) }
{
    match operation {
        Operation::InsertData(blocks) => {
            put_insertion(alloc, blocks.as_slice(), effect)?;
            Ok(true)
        }
        Operation::DeleteData(blocks) if effect.added.is_empty() => {
            put_deletion(alloc, blocks.as_slice(), effect)?;
            Ok(true)
        }
        _ => Ok(false),
    }
}

/// The effect of a run at the front of the operations: DELETE DATA as often as it stands there, and then INSERT DATA.
///
/// # Errors
/// `QFault::Full` where the numbers of blank nodes don't suffice for an operation of the run. It is due also where an earlier one makes more
/// terms known than a store has room for, since its fault is `QFault::Full` too. `QFault::Memory` where memory runs out.
pub fn data_run(alloc: Global, operations: &[Operation], next: u64) -> Result<DataRun, QFault>
    ensures count { IfOk result (λ run. run.count ≤ length operations.now) }
    ensures some { IfOk result (λ run. spec.begins_with_data operations.now ≡ true
        → 0 < run.count) }
    ensures effect { IfOk result (λ run. 0 < run.count
        → spec.IsEffectOf (take run.count operations.now) next run.effect) }
    ensures lawful { IfOk result (λ run. IsLawful next run.effect) }
    ensures refused { IfErr result (λ f. f ≢ Memory → spec.AreRefused operations.now next f) }
{
    quads_make_their_terms_known();
    let mut effect = nothing(alloc, next);
    for (count, operation) in operations.iter().enumerate() {
        if !put_data(alloc, operation, &mut effect)? {
            return Ok(DataRun { effect, count });
        }
    }
    let count = operations.len();
    Ok(DataRun { effect, count })
}
