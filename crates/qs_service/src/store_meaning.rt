//! What requests do over a store.

ghost use Rattle.std.specs.Prelude.{◌≡◌};

use crate::carry::carry_out;
use qs_http::Request;
use qs_service_connections::{Meaning, Reply};
use qs_store::Store;
use std::alloc::Global;
use std::marker::Model;

/// A store, over which requests mean what SPARQL says. Queries, after OFFSET and LIMIT, and the WHERE of an update may have `max_rows`
/// solutions.
#[derive(Drop)]
pub struct StoreMeaning {
    store: Store,
    max_rows: u64,
}

impl Model for StoreMeaning {
    ghost use Rattle.qs_service.specs.State.{Stored, stored_of};

    ghost Value = { Stored };

    ghost view = { λ s. stored_of s.max_rows s.store };
}

impl StoreMeaning {
    ghost use Rattle.qs_service.specs.State.{stored_of};

    /// The meaning of requests over the store.
    pub fn new(store: Store, max_rows: u64) -> StoreMeaning
        ensures { result ≡ stored_of max_rows store }
    {
        StoreMeaning { store, max_rows }
    }

    /// The store as it is.
    pub fn store(&self) -> &Store
        ensures { stored_of self.now.bounds.rows result.now ≡ self.now }
    {
        &self.store
    }
}

impl Meaning for StoreMeaning {
    ghost use Rattle.qs_service.specs.Carried.{Carries};
    ghost use Rattle.qs_service.specs.Language.{sparql};

    ghost carries = { Carries sparql };

    fn carry_out(&mut self, alloc: Global, request: &Request) -> Reply {
        carry_out(alloc, request, &mut self.store, self.max_rows)
    }
}
