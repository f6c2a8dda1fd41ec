//! Why bytes aren't put into a store.

use qs_nquads::NqFault;
use qs_store::StoreFault;
use thiserror::Error;

/// Why bytes aren't put into a store.
#[derive(Clone, Copy, Debug, PartialEq, Eq, Error)]
pub enum LoadFault {
    /// They are no N-Quads, or memory ran out while they were read.
    #[error("{0}")]
    Text(NqFault),
    /// The store refuses their quads.
    #[error("{0}")]
    Store(StoreFault),
}
