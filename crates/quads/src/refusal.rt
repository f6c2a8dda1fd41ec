//! Why nothing is run.

ghost use Rattle.std.specs.Prelude.{◌≡◌, ◌⊎◌, IfOk, string_bytes};
ghost use Rattle.qs_terms.specs.declared.fault.QFault.TheVariants.{Memory};
ghost use Rattle.qs_results.specs.Lines.{fault_line};
ghost use Rattle.quads.specs.Due.{line};
ghost use Rattle.quads.specs.inner.Outcomes.{script_line};
ghost use Rattle.quads.specs.inner.Refusal as spec;
ghost use Rattle.quads.specs.inner.Run.{Prints};

use crate::job::Ran;
use crate::print::{data_fault_text, fault_text};
use crate::put::put;
use qs_nquads::NqFault;
use qs_results::out_of_memory_line;
use qs_store::StoreFault;
use qs_store_load::LoadFault;
use qs_terms::{QFault, Sink};
use std::alloc::{AllocError, Global};

/// Why nothing is run over the data of a file.
#[derive(Drop)]
pub enum Refusal {
    /// The data are no N-Quads.
    Data(NqFault),
    /// The script's line of this number, from 1, is the first that tells no event.
    Script(usize),
    /// The terms of the data find no room, or out of memory.
    Fault(QFault),
}

/// The store's fault, as a job tells it.
pub fn fault_of(fault: StoreFault) -> QFault
    ensures { result ≡ spec.fault_of fault }
{
    match fault {
        StoreFault::Full => QFault::Full,
        StoreFault::Memory => QFault::Memory,
    }
}

/// Why nothing is run where the data aren't put into a store.
pub fn refusal_of(fault: LoadFault) -> Refusal
    ensures { result ≡ spec.refusal_of fault }
{
    match fault {
        LoadFault::Text(fault) => Refusal::Data(fault),
        LoadFault::Store(fault) => Refusal::Fault(fault_of(fault)),
    }
}

fn script_text(alloc: Global, number: usize) -> Result<String, AllocError>
    ensures { IfOk result (λ s. string_bytes s ≡ line (script_line number)) }
{
    format!(in alloc; "script line {number}\n")
}

fn refusal_text(alloc: Global, refusal: &Refusal) -> Result<String, AllocError>
    ensures { IfOk result (λ s. string_bytes s ≡ spec.refusal_text refusal.now) }
{
    match refusal {
        Refusal::Data(fault) => data_fault_text(alloc, fault),
        Refusal::Script(number) => script_text(alloc, *number),
        Refusal::Fault(fault) => fault_text(alloc, fault),
    }
}

/// Returns the exit status of a refusal, 1, and how many bytes the sink took of its line, or of the line of the fault for out of memory where
/// that one can't be made.
pub fn put_refusal<S: Sink>(alloc: Global, refusal: &Refusal, out: &mut S) -> Ran
    ensures { Prints (spec.refusal_text refusal.now) 1 (S.taken out.old) (S.taken out.new)
        (S.faults out.old) (S.faults out.new) result
        ⊎ Prints (line (fault_line Memory)) 1 (S.taken out.old) (S.taken out.new) (S.faults out.old)
        (S.faults out.new) result }
{
    match refusal_text(alloc, refusal) {
        Ok(text) => put(out, text.as_bytes(), 1),
        Err(_) => put(out, out_of_memory_line().as_bytes(), 1),
    }
}
