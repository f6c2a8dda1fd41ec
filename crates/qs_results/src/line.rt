//! Faults as lines, without the line's end.
//!
//! The line for out of memory is a constant, so that it can be written where no memory is left.

ghost use Rattle.std.specs.Prelude.{◌≡◌, ◌++◌, ◌∷◌, [], IfOk, string_bytes};
ghost use Rattle.qs_terms.specs.declared.fault.QFault.TheVariants.{Memory};
ghost use Rattle.qs_results.specs.Lines as spec;

use qs_nquads::{NqFault, NqFaultKind};
use qs_terms::QFault;
use std::alloc::{AllocError, Global};

/// The line of the fault of a query or an update, without the line's end. Places are bytes of the text from 0.
pub fn fault_line(alloc: Global, fault: &QFault) -> Result<String, AllocError>
    ensures { IfOk result (λ s. string_bytes s ≡ spec.fault_line fault.now) }
{
    match fault {
        QFault::Syntax { place } => format!(in alloc; "F1 syntax at {place}"),
        QFault::Prefix { place } => format!(in alloc; "F2 undeclared prefix at {place}"),
        QFault::RelativeIri { place } => format!(in alloc; "F3 relative IRI at {place}"),
        QFault::LeftOut { word } => format!(in alloc; "F4 left out: {}", word.as_str()),
        QFault::Scope => String::from_str(alloc, "F5 scope"),
        QFault::TooLarge { place } => format!(in alloc; "F6 too large at {place}"),
        QFault::NoGraph => String::from_str(alloc, "F7 no such graph"),
        QFault::GraphExists => String::from_str(alloc, "F7 graph exists"),
        QFault::TooManyRows => String::from_str(alloc, "F8 too many rows"),
        QFault::Memory => String::from_str(alloc, "F9 out of memory"),
        QFault::Full => String::from_str(alloc, "F10 full"),
    }
}

/// The status of a reply that tells of the fault: 400 where the request is at fault, 500 where the server or what it holds is.
pub fn fault_status(fault: &QFault) -> u16
    ensures { result ≡ spec.fault_status fault.now }
{
    match fault {
        QFault::Syntax { .. } => 400,
        QFault::Prefix { .. } => 400,
        QFault::RelativeIri { .. } => 400,
        QFault::LeftOut { .. } => 400,
        QFault::Scope => 400,
        QFault::TooLarge { .. } => 400,
        QFault::NoGraph => 500,
        QFault::GraphExists => 500,
        QFault::TooManyRows => 500,
        QFault::Memory => 500,
        QFault::Full => 500,
    }
}

/// The line of running out of memory with its LF. It takes no memory.
pub fn out_of_memory_line() -> &'static str
    ensures { result.now ≡ spec.fault_line Memory ++ 10 ∷ [] }
{
    "F9 out of memory\n"
}

fn kind_text(kind: NqFaultKind) -> &'static str
    ensures { result.now ≡ spec.kind_text kind }
{
    match kind {
        NqFaultKind::Utf8 => "N1 utf8",
        NqFaultKind::Token => "N2 token",
        NqFaultKind::Shape => "N3 shape",
        NqFaultKind::Iri => "N4 iri",
        NqFaultKind::Escape => "N5 escape",
        NqFaultKind::Literal => "N6 literal",
        NqFaultKind::Memory => "N7 memory",
        NqFaultKind::Full => "N8 full",
    }
}

/// The line of a fault in data, without the line's end. Lines of the data are counted from 1.
pub fn data_fault_line(alloc: Global, fault: &NqFault) -> Result<String, AllocError>
    ensures { IfOk result (λ s. string_bytes s ≡ spec.data_fault_line fault.now) }
{
    let kind = kind_text(fault.kind);
    let line = fault.line;
    format!(in alloc; "{kind} at line {line}")
}
