//! Why a term, or the text of a query or an update, is refused.

ghost use Rattle.std.specs.Prelude.{◌≡◌};
ghost use Rattle.qs_terms.specs.declared.fault.TermFault.TheVariants as term_fault;
ghost use Rattle.qs_terms.specs.declared.fault.QFault.TheVariants as fault;

use crate::text::Text;
use std::alloc::{AllocError, AllocFailed};
use thiserror::Error;

/// Why texts make no lawful term.
#[derive(Clone, Copy, Debug, PartialEq, Eq, Error)]
pub enum TermFault {
    /// An IRI that begins with no scheme (RFC 3987, 2.2).
    #[error("the IRI has no scheme")]
    NotAbsolute,
    /// An IRI with a character that IRIs exclude (SPARQL 1.1 Query, 19.8, IRIREF).
    #[error("the IRI has a character that IRIs exclude")]
    BadChar,
    /// A language tag of another form (SPARQL 1.1 Query, 19.8, LANGTAG).
    #[error("the language tag has another form")]
    BadTag,
    /// The datatype rdf:langString of a literal without a tag (RDF 1.1 Concepts, 3.3).
    #[error("a literal without a language tag can't be an rdf:langString")]
    BadDatatype,
    /// Running out of memory.
    #[error("out of memory")]
    Memory,
}

impl From<AllocError> for TermFault {
    ghost from_gives = { λ _ f. f ≡ term_fault.Memory };

    fn from(_error: AllocError) -> TermFault {
        TermFault::Memory
    }
}

impl<T: Drop> From<AllocFailed<T>> for TermFault {
    ghost from_gives = { λ _ f. f ≡ term_fault.Memory };

    fn from(_error: AllocFailed<T>) -> TermFault {
        TermFault::Memory
    }
}

/// Why a query or an update is refused. Places are bytes from 0, in the text of the request.
#[derive(Debug, Drop, PartialEq, Eq, Error)]
pub enum QFault {
    /// No tree is spelt, or the text isn't a list of tokens.
    #[error("F1 syntax at {place}")]
    Syntax { place: usize },
    /// A prefix that isn't declared.
    #[error("F2 undeclared prefix at {place}")]
    Prefix { place: usize },
    /// An IRI without a scheme.
    #[error("F3 relative IRI at {place}")]
    RelativeIri { place: usize },
    /// A word of SPARQL that is left out by name, a decimal or a double, as it was written.
    #[error("F4 left out: {}", .word.as_str())]
    LeftOut { word: Text },
    /// A rule of scope is broken (SPARQL 1.1 Query, 19).
    #[error("F5 scope")]
    Scope,
    /// A limit on nesting, elements or operands is passed.
    #[error("F6 too large at {place}")]
    TooLarge { place: usize },
    /// A graph that an operation needs holds no quad (SPARQL 1.1 Update, 3.2).
    #[error("F7 no such graph")]
    NoGraph,
    /// A graph that is to be created holds quads (SPARQL 1.1 Update, 3.2.1).
    #[error("F7 graph exists")]
    GraphExists,
    /// More solutions than the caller allows.
    #[error("F8 too many rows")]
    TooManyRows,
    /// Running out of memory.
    #[error("F9 out of memory")]
    Memory,
    /// A limit on terms or blank node numbers would be passed.
    #[error("F10 full")]
    Full,
}

impl From<AllocError> for QFault {
    ghost from_gives = { λ _ f. f ≡ fault.Memory };

    fn from(_error: AllocError) -> QFault {
        QFault::Memory
    }
}

impl<T: Drop> From<AllocFailed<T>> for QFault {
    ghost from_gives = { λ _ f. f ≡ fault.Memory };

    fn from(_error: AllocFailed<T>) -> QFault {
        QFault::Memory
    }
}
