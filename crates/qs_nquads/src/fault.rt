//! Why bytes are no N-Quads.

ghost use Rattle.std.specs.Prelude.{◌≡◌};
ghost use Rattle.qs_nquads.specs.declared.fault.NqFaultKind.TheVariants as fault;

use std::alloc::{AllocError, AllocFailed};
use std::fmt;
use std::fmt::{Display, Formatter, Write};
use thiserror::Error;

/// What is wrong.
#[derive(Clone, Copy, Debug, PartialEq, Eq)]
pub enum NqFaultKind {
    /// The bytes are not UTF-8.
    Utf8,
    /// No token can be read.
    Token,
    /// A token has no place in its statement, or a statement ends too early.
    Shape,
    /// An IRI has no scheme, or an escape in it gives a character that IRIs exclude.
    Iri,
    /// No lawful escape begins at a backslash in an IRI or a string.
    Escape,
    /// A literal has the datatype rdf:langString and no tag.
    Literal,
    /// Running out of memory.
    Memory,
    /// No number is left for a blank node.
    Full,
}

impl Display for NqFaultKind {
    fn fmt<W: Write>(&self, f: &mut Formatter<W>) -> fmt::Result {
        f.write_str(match self {
            NqFaultKind::Utf8 => "N1 utf8",
            NqFaultKind::Token => "N2 token",
            NqFaultKind::Shape => "N3 shape",
            NqFaultKind::Iri => "N4 iri",
            NqFaultKind::Escape => "N5 escape",
            NqFaultKind::Literal => "N6 literal",
            NqFaultKind::Memory => "N7 memory",
            NqFaultKind::Full => "N8 full",
        })
    }
}

impl From<AllocError> for NqFaultKind {
    ghost from_gives = { λ _ f. f ≡ fault.Memory };

    fn from(_error: AllocError) -> NqFaultKind {
        NqFaultKind::Memory
    }
}

impl<T: Drop> From<AllocFailed<T>> for NqFaultKind {
    ghost from_gives = { λ _ f. f ≡ fault.Memory };

    fn from(_error: AllocFailed<T>) -> NqFaultKind {
        NqFaultKind::Memory
    }
}

/// What is wrong, and where: the line is 1 and the count of LF before the first faulty place.
#[derive(Clone, Copy, Debug, PartialEq, Eq, Error)]
#[error("{kind} at line {line}")]
pub struct NqFault {
    pub line: usize,
    pub kind: NqFaultKind,
}
