//! The store that a service is made over, and that is handed back where the service can't be made.

use crate::outcome::Outcome;
use qs_service::{OverStore, Service};
use qs_store::Store;
use std::alloc::Global;
use std::hash::RandomState;

/// An empty store with the next number 7.
fn marked(alloc: Global, hasher: Option<RandomState>) -> Option<Store> {
    let mut store = Store::new(alloc, 100, hasher?);
    if store.next_blank() <= 7 && store.change(&[], &[], 7).is_ok() {
        Some(store)
    } else {
        drop(store);
        None
    }
}

fn is_marked(store: &Store) -> bool {
    store.count() == 0 && store.terms() == 0 && store.next_blank() == 7
}

/// Whether the service is over that store.
fn is_over_it(service: Service) -> bool {
    let is = is_marked(service.store());
    drop(service);
    is
}

/// Whether a service is made over the store that was handed back, which is as it was.
fn is_made_over(alloc: Global, store: Store) -> bool {
    let is = is_marked(&store);
    match Service::new(alloc, store, 10) {
        Ok(service) => is_over_it(service) && is,
        Err(store) => {
            drop(store);
            false
        }
    }
}

fn made_over(alloc: Global, store: Store) -> Outcome {
    match Service::new(alloc, store, 10) {
        Ok(service) => Outcome::Whole.or_wrong(is_over_it(service)),
        Err(store) => Outcome::Refused.or_wrong(is_made_over(alloc, store)),
    }
}

/// Whether a service is made over the store, or hands it back as it was.
pub fn hands_back(alloc: Global, hasher: Option<RandomState>) -> Outcome {
    match marked(alloc, hasher) {
        Some(store) => made_over(alloc, store),
        None => Outcome::Refused,
    }
}
