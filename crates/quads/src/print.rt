//! The text that is printed of a job's result.

ghost use Rattle.std.specs.Prelude.{◌≡◌, ◌⊎◌, IfOk, string_bytes, true};
ghost use Rattle.qs_terms.specs.declared.fault.QFault.TheVariants.{Memory};
ghost use Rattle.serde_json.specs.Written.{compact_text};
ghost use Rattle.qs_results.specs.Lines as lines;
ghost use Rattle.qs_results.specs.Json.{json_of};
ghost use Rattle.qs_results.specs.inner.Json.{has_json};
ghost use Rattle.quads.specs.Due as due;
ghost use Rattle.quads.specs.Due.{line};
ghost use Rattle.quads.specs.inner.Run.{Prints};
ghost use Rattle.quads.specs.inner.JobResult as spec;

use crate::job::Ran;
use crate::put::put;
use crate::result::JobResult;
use qs_algebra_solutions::Answer;
use qs_nquads::{NqFault, text};
use qs_results::{data_fault_line, fault_line, json, ntriples, out_of_memory_line};
use qs_terms::{QFault, Sink, Text};
use std::alloc::{AllocError, Global};

/// The line of a fault of the data.
pub fn data_fault_text(alloc: Global, fault: &NqFault) -> Result<String, AllocError>
    ensures { IfOk result (λ s. string_bytes s ≡ line (lines.data_fault_line fault.now)) }
{
    let mut text = data_fault_line(alloc, fault)?;
    text.push('\n')?;
    Ok(text)
}

/// The line of a fault.
pub fn fault_text(alloc: Global, fault: &QFault) -> Result<String, AllocError>
    ensures { IfOk result (λ s. string_bytes s ≡ line (lines.fault_line fault.now)) }
{
    let mut text = fault_line(alloc, fault)?;
    text.push('\n')?;
    Ok(text)
}

fn json_line(alloc: Global, answer: &Answer) -> Result<String, AllocError>
    requires { has_json answer.now ≡ true }
    ensures { IfOk result (λ s. string_bytes s ≡ line (compact_text (json_of answer.now))) }
{
    let mut text = json(alloc, answer)?;
    text.push('\n')?;
    Ok(text)
}

fn answer_text(alloc: Global, answer: &Answer) -> Result<String, AllocError>
    ensures { IfOk result (λ s. string_bytes s ≡ due.answer_text answer.now) }
{
    match answer {
        Answer::Solutions { vars: _, rows: _ } => json_line(alloc, answer),
        Answer::Truth(_) => json_line(alloc, answer),
        Answer::Graph(_) => ntriples(alloc, answer),
    }
}

fn explanation_text(alloc: Global, explanation: &Text) -> Result<String, AllocError>
    ensures { IfOk result (λ s. string_bytes s ≡ explanation.now) }
{
    String::from_str(alloc, explanation.as_str())
}

/// Returns the text that is printed of the result. Quads are printed from any list of them: lines ascend and occur once, so each list of the
/// same quads has the same text.
///
/// # Errors
///
/// Out of memory.
pub fn result_text(alloc: Global, end: &JobResult) -> Result<String, AllocError>
    ensures { IfOk result (λ s. string_bytes s ≡ spec.printed end.now) }
{
    match end {
        JobResult::Answered(answer) => answer_text(alloc, answer),
        JobResult::Quads(quads) => text(alloc, quads.as_slice()),
        JobResult::Explained(explanation) => explanation_text(alloc, explanation),
        JobResult::DataRefused(fault) => data_fault_text(alloc, fault),
        JobResult::Refused(fault) => fault_text(alloc, fault),
    }
}

/// Returns the exit status.
pub fn status(end: &JobResult) -> u8
    ensures { result ≡ spec.status end.now }
{
    match end {
        JobResult::Answered(_) => 0,
        JobResult::Quads(_) => 0,
        JobResult::Explained(_) => 0,
        JobResult::DataRefused(_) => 1,
        JobResult::Refused(_) => 1,
    }
}

/// Returns the exit status, and how many bytes the sink took of what is printed of the result, or of the line of the fault for out of memory
/// where that can't be made.
pub fn put_result<S: Sink>(alloc: Global, end: JobResult, out: &mut S) -> Ran
    ensures { Prints (spec.printed end) (spec.status end) (S.taken out.old) (S.taken out.new)
        (S.faults out.old) (S.faults out.new) result
        ⊎ Prints (line (lines.fault_line Memory)) 1 (S.taken out.old) (S.taken out.new)
        (S.faults out.old) (S.faults out.new) result }
{
    // (The whole text is made before it is printed, so out of memory is never told after a part of it.)
    match result_text(alloc, &end) {
        Ok(line) => put(out, line.as_bytes(), status(&end)),
        Err(_) => put(out, out_of_memory_line().as_bytes(), 1),
    }
}
