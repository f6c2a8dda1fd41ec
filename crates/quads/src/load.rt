//! A store of the data of a file, and a service over it.

ghost use Rattle.std.specs.Prelude.{◌≡◌, Ok, Err, IfOk, MatchResult};
ghost use Rattle.qs_terms.specs.declared.fault.QFault.TheVariants.{Memory};
ghost use Rattle.quads.specs.Due as spec;
ghost use Rattle.quads.specs.Due.{empty, max_terms};
ghost use Rattle.quads.specs.inner.Service.{BecomesService};
ghost use Rattle.quads.specs.declared.refusal.Refusal.TheVariants.{Fault};
ghost use Rattle.quads.specs.inner.Load.{BecomesStored};

use crate::refusal::{Refusal, refusal_of};
use crate::result::MAX_ROWS;
use qs_base::drop_value;
use qs_service::{OverStore, Service};
use qs_store::{DefaultGraph, Store};
use qs_store_load::{LoadFault, load, load_owned};
use qs_terms::QFault;
use std::alloc::Global;
use std::hash::RandomState;

/// The most terms that the store knows: as many as there are numbers for them. Data with more are refused as full, before a fault of the text
/// of the job.
const MAX_TERMS: u32 = 4_294_967_295;

// A store without quads.
fn new_store(alloc: Global, hasher: RandomState, default_graph: DefaultGraph) -> Store
    ensures base { result.base ≡ empty }
    ensures limit { result.limit ≡ max_terms }
    ensures default_graph { result.default_graph ≡ default_graph }
{
    Store::with_default(alloc, MAX_TERMS, hasher, default_graph)
}

// The store where its load succeeded, or the fault of the load.
fn loaded_store(store: Store, loaded: Result<(), LoadFault>) -> Result<Store, LoadFault>
    ensures { MatchResult loaded (λ _. result ≡ Ok store) (λ fault. result ≡ Err fault) }
{
    match loaded {
        Ok(()) => Ok(store),
        Err(fault) => {
            drop_value(store);
            Err(fault)
        }
    }
}

/// Returns a store of the quads of the file with this default graph.
///
/// # Errors
///
/// Why the data aren't put into a store.
pub fn load_store(
    alloc: Global,
    hasher: RandomState,
    default_graph: DefaultGraph,
    file: &[u8],
) -> Result<Store, LoadFault>
    ensures becomes { BecomesStored default_graph file.now result }
    ensures limit { IfOk result (λ store. store.limit ≡ max_terms) }
{
    let mut store = new_store(alloc, hasher, default_graph);
    let loaded = load(alloc, hasher, &mut store, file);
    loaded_store(store, loaded)
}

/// Returns a store of the quads of the file. Its bytes are dropped once they are read, before the store takes the memory that it needs
/// for their quads.
///
/// # Errors
///
/// Those of `load_store`.
pub fn load_owned_store(
    alloc: Global,
    hasher: RandomState,
    default_graph: DefaultGraph,
    file: Vec<u8>,
) -> Result<Store, LoadFault>
    ensures becomes { BecomesStored default_graph file.items result }
    ensures limit { IfOk result (λ store. store.limit ≡ max_terms) }
{
    let mut store = new_store(alloc, hasher, default_graph);
    let loaded = load_owned(alloc, hasher, &mut store, file);
    loaded_store(store, loaded)
}

// A service over the store, with no connection.
fn service_over(alloc: Global, store: Store) -> Result<Service, Refusal>
    requires limit { store.limit ≡ max_terms }
    ensures { MatchResult result (λ state. state ≡ spec.service_over store.default_graph store.base)
        (λ refusal. refusal ≡ Fault Memory) }
{
    match Service::new(alloc, store, MAX_ROWS) {
        Ok(service) => Ok(service),
        Err(store) => {
            drop_value(store);
            Err(Refusal::Fault(QFault::Memory))
        }
    }
}

/// Returns a service over a store of the quads of the file with this default graph, with no connection.
///
/// # Errors
///
/// Why the data aren't put into a store, or out of memory.
pub fn load_service(
    alloc: Global,
    hasher: RandomState,
    default_graph: DefaultGraph,
    file: &[u8],
) -> Result<Service, Refusal>
    ensures { BecomesService default_graph file.now result }
{
    match load_store(alloc, hasher, default_graph, file) {
        Ok(store) => service_over(alloc, store),
        Err(fault) => Err(refusal_of(fault)),
    }
}

/// Returns a service over a store of the quads of the file, whose bytes are dropped.
///
/// # Errors
///
/// Those of `load_service`.
pub fn load_owned_service(
    alloc: Global,
    hasher: RandomState,
    default_graph: DefaultGraph,
    file: Vec<u8>,
) -> Result<Service, Refusal>
    ensures { BecomesService default_graph file.items result }
{
    match load_owned_store(alloc, hasher, default_graph, file) {
        Ok(store) => service_over(alloc, store),
        Err(fault) => Err(refusal_of(fault)),
    }
}
