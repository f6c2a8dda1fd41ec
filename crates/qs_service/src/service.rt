//! The joined connections over one store.

ghost use Rattle.std.specs.Prelude.{◌≡◌, [], MatchResult};
ghost use Rattle.qs_service.specs.State.{stored_of};

use crate::store_meaning::StoreMeaning;
use qs_service_connections::{Connections, Table};
use qs_store::Store;
use std::alloc::Global;

/// Connections over one store. The event that brings the last byte of a request carries the whole request out on the store, whatever came on
/// other connections between its first byte and its last; no other event touches the store.
pub type Service = Connections<StoreMeaning>;

/// The calls of a service that name its store.
pub trait OverStore: Sized {
    fn new(alloc: Global, store: Store, max_rows: u64) -> Result<Self, Store>;

    fn store(&self) -> &Store;
}

impl OverStore for Service {
    /// A service over the store, with no connection. Queries, after OFFSET and LIMIT, and the WHERE of an update may have `max_rows`
    /// solutions. Out of memory for the table of connections hands the store back.
    fn new(alloc: Global, store: Store, max_rows: u64) -> Result<Service, Store>
        ensures { MatchResult result
            (λ s. s ≡ record { stored = stored_of max_rows store; joined = [] })
            (λ back. back ≡ store) }
    {
        match Table::new(alloc) {
            Ok(table) => Ok(Connections::with_table(table, StoreMeaning::new(store, max_rows))),
            Err(_) => Err(store),
        }
    }

    /// The store as it is.
    fn store(&self) -> &Store
        ensures { stored_of self.now.stored.bounds.rows result.now ≡ self.now.stored }
    {
        self.meaning().store()
    }
}
