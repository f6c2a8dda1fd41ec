//! From stages to instructions: the last stage first, so that an instruction names none that is still to be emitted.

ghost use Rattle.std.specs.Prelude.{◌≡◌, ◌≤◌, [], ◌∷◌, ◌++◌, ◌+◌, length, IfOk, OnOk};
ghost use Rattle.std.specs.List.{AllByRecursion};
ghost use Rattle.qs_ops_program.specs.inner.Flow.{IsForward};
ghost use Rattle.qs_ops_program.specs.inner.Heights.{IsLow, stages_height};
ghost use Rattle.qs_ops_program.specs.inner.Emitted.{Carries, Emitted, Forked};

use crate::program::{Instr, Program};
use qs_plan_meaning::{Group, Stage};
use std::alloc::{AllocError, Global};

/// Puts the instructions of the stages after the others. Returns the position where they begin; their rows go on at `next`.
#[cycle(emit)]
fn emit_stages<'a>(
    alloc: Global,
    stages: &'a [Stage],
    next: usize,
    code: &mut Vec<Instr<'a>>,
) -> Result<usize, AllocError>
    requires next { next ≤ length code.old.items }
    requires forward { IsForward code.old.items }
    ensures { IfOk result (λ at. Emitted code.old.items code.new.items at next stages.now) }
{
    let mut at = next;
    for left in (0..stages.len()).rev() {
        at = emit_stage(alloc, &stages[left], at, code)?;
    }
    Ok(at)
}

/// Puts the instruction after the others. Returns its position.
fn put<'a>(code: &mut Vec<Instr<'a>>, instr: Instr<'a>) -> Result<usize, AllocError>
    ensures code { OnOk result (code.new.items ≡ code.old.items ++ instr.entry ∷ []) }
    ensures at { IfOk result (λ at. at ≡ length code.old.items + 1) }
{
    code.push(instr)?;
    Ok(code.len())
}

/// Puts the instruction of the stage after the others, and before it those of the branches of a union.
#[cycle(emit)]
fn emit_stage<'a>(
    alloc: Global,
    stage: &'a Stage,
    next: usize,
    code: &mut Vec<Instr<'a>>,
) -> Result<usize, AllocError>
    requires next { next ≤ length code.old.items }
    requires forward { IsForward code.old.items }
    ensures { IfOk result (λ at. Emitted code.old.items code.new.items at next (stage.now ∷ [])) }
{
    if let Stage::Union(branches) = stage {
        let starts = emit_branches(alloc, branches.as_slice(), next, code)?;
        let at = put(code, Instr::new(stage, next, starts))?;
        return Ok(at);
    }
    let at = put(code, Instr::new(stage, next, Vec::new(alloc)))?;
    Ok(at)
}

/// Puts the instructions of the branches after the others. Returns the positions where they begin.
#[cycle(emit)]
fn emit_branches<'a>(
    alloc: Global,
    branches: &'a [Group],
    next: usize,
    code: &mut Vec<Instr<'a>>,
) -> Result<Vec<usize>, AllocError>
    requires next { next ≤ length code.old.items }
    requires forward { IsForward code.old.items }
    ensures { IfOk result (λ starts. Forked code.old.items code.new.items starts.items next
        branches.now) }
{
    let mut starts = Vec::new(alloc);
    for branch in branches {
        let start = emit_stages(alloc, branch.stages.as_slice(), next, code)?;
        starts.push(start)?;
    }
    Ok(starts)
}

/// The program of the stages: its flow from its start is what the stages make of a row, one after another.
///
/// # Errors
/// `AllocError` where memory runs out.
pub fn compile<'a>(alloc: Global, stages: &'a [Stage]) -> Result<Program<'a>, AllocError>
    ensures start { IfOk result (λ p. p.start ≤ length p.code.items) }
    ensures forward { IfOk result (λ p. IsForward p.code.items) }
    ensures makes { IfOk result (λ p. Carries p.code.items p.start stages.now) }
    ensures low { IfOk result
        (λ p. AllByRecursion (IsLow (stages_height stages.now)) p.code.items) }
{
    let mut code = Vec::new(alloc);
    let start = emit_stages(alloc, stages, 0, &mut code)?;
    Ok(Program { code, start })
}
