//! Why a store refuses a change.

ghost use Rattle.std.specs.Prelude.{◌≡◌};
ghost use Rattle.qs_store.specs.inner.Fault.{store_fault_of};
ghost use Rattle.qs_store.specs.declared.fault.StoreFault.TheVariants as store_fault;

use qs_dict::DictFault;
use std::alloc::{AllocError, AllocFailed};
use thiserror::Error;

/// Why a store refuses a change.
#[derive(Clone, Copy, Debug, PartialEq, Eq, Error)]
pub enum StoreFault {
    /// The known terms and the new ones are more than the limit.
    #[error("the store is full")]
    Full,
    /// Running out of memory.
    #[error("out of memory")]
    Memory,
}

impl From<AllocError> for StoreFault {
    ghost from_gives = { λ _ f. f ≡ store_fault.Memory };

    fn from(_error: AllocError) -> StoreFault {
        StoreFault::Memory
    }
}

impl<T: Drop> From<AllocFailed<T>> for StoreFault {
    ghost from_gives = { λ _ f. f ≡ store_fault.Memory };

    fn from(_error: AllocFailed<T>) -> StoreFault {
        StoreFault::Memory
    }
}

impl From<DictFault> for StoreFault {
    ghost from_gives = { λ e f. f ≡ store_fault_of e };

    fn from(fault: DictFault) -> StoreFault {
        match fault {
            DictFault::Full => StoreFault::Full,
            DictFault::Memory => StoreFault::Memory,
        }
    }
}
