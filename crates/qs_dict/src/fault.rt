//! Why a term gets no number.

ghost use Rattle.std.specs.Prelude.{◌≡◌};
ghost use Rattle.qs_dict.specs.declared.fault.DictFault.TheVariants as dict_fault;

use std::alloc::{AllocError, AllocFailed};
use thiserror::Error;

/// Why a term gets no number.
#[derive(Clone, Copy, Debug, PartialEq, Eq, Error)]
pub enum DictFault {
    /// The term is new, and there are as many terms as the limit allows.
    #[error("the dictionary is full")]
    Full,
    /// Running out of memory.
    #[error("out of memory")]
    Memory,
}

impl From<AllocError> for DictFault {
    ghost from_gives = { λ _ f. f ≡ dict_fault.Memory };

    fn from(_error: AllocError) -> DictFault {
        DictFault::Memory
    }
}

impl<T: Drop> From<AllocFailed<T>> for DictFault {
    ghost from_gives = { λ _ f. f ≡ dict_fault.Memory };

    fn from(_error: AllocFailed<T>) -> DictFault {
        DictFault::Memory
    }
}
