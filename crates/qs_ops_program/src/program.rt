//! Instructions and programs.
//!
//! Positions are counted from the end, and the last stage is emitted first. So an instruction names none that is still to be
//! emitted.

ghost use Rattle.std.specs.Prelude.{◌≡◌};
ghost use Rattle.qs_ops_program.specs.inner.Flow as flow;

use qs_plan_meaning::Stage;
use std::marker::Model;

/// A stage in a program, and where its rows go on. Positions are counted from the end: position 0 is the end, where a row is finished, and
/// position `k + 1` is the instruction `code[k]`.
#[derive(Drop)]
pub struct Instr<'a> {
    stage: &'a Stage,
    next: usize,
    starts: Vec<usize>,
}

impl<'a> Model for Instr<'a> {
    ghost use Rattle.qs_ops_program.specs.inner.Flow.{Instruction};
    ghost use Rattle.qs_plan_meaning.specs.contracts.stage.Stage as stage_type;
    ghost use Rattle.std.specs.Coded.{codes};

    ghost Value = { Instruction };

    ghost coded = { Prim.hlevel (codes, stage_type.the_row.coded) };

    ghost view = { λ i. record { stage = i.stage.now; next = i.next; starts = i.starts.items } };
}

impl<'a> Instr<'a> {
    pub(crate) fn new(stage: &'a Stage, next: usize, starts: Vec<usize>) -> Instr<'a>
        ensures { result ≡ record { stage = stage.now; next = next; starts = starts.items } }
    {
        Instr {
            stage,
            next,
            starts,
        }
    }

    /// The stage that is carried out here.
    pub fn stage(&self) -> &'a Stage
        ensures { result.now ≡ self.now.stage }
    {
        self.stage
    }

    /// The position where the rows of the stage go on.
    pub fn next(&self) -> usize
        ensures { result ≡ self.now.next }
    {
        self.next
    }

    /// The positions where the branches of a union begin.
    pub fn starts(&self) -> &[usize]
        ensures { result.now ≡ self.now.starts }
    {
        self.starts.as_slice()
    }
}

/// Stages as instructions, the last first.
#[derive(Drop)]
pub struct Program<'a> {
    pub code: Vec<Instr<'a>>,
    /// The position of the first instruction.
    pub start: usize,
}

/// Whether the stage is a union.
pub fn is_union(stage: &Stage) -> bool
    ensures { result ≡ flow.is_union stage.now }
{
    matches!(stage, Stage::Union(_))
}
