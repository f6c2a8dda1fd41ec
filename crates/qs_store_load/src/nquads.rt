//! Bytes put into a store.
//!
//! The load is in a crate above the store and N-Quads, so the store depends on no text. It numbers the terms of each quad in a draft, and
//! commits the entries of these numbers.

ghost use Rattle.std.specs.Prelude.{◌≡◌, ◌∷◌, ◌++◌, ℕ, List, [], length, IfOk, IfErr, OnOk, OnErr};
ghost use Rattle.qs_terms.specs.Statement.{Statement};
ghost use Rattle.qs_terms.specs.declared.term.Term.{Term};
ghost use Rattle.qs_nquads.specs.inner.Unread.{HasRead};
ghost use Rattle.qs_store.specs.Change.{with_terms_of};
ghost use Rattle.qs_store.specs.inner.Change.{IsFullAt};
ghost use Rattle.qs_store_load.specs.inner.Load.{IsLoaded, IsLoadFault};
ghost use Rattle.qs_store_load.specs.inner.Loading.{Learns, Say, IsTold, IsToldFor, AreNumbered, IsNumbered};

use crate::fault::LoadFault;
use qs_nquads::Reader;
use qs_nquads::laws::next_number_is_fresh;
use qs_store::{Draft, Store, StoreFault, quads_make_their_terms_known};
use qs_terms::Quad;
use std::alloc::{AllocError, Global};
use std::hash::RandomState;

fn push(entries: &mut Vec<[u32; 4]>, entry: [u32; 4]) -> Result<(), AllocError>
    ensures { OnOk result (entries.new.items ≡ entries.old.items ++ entry ∷ []) }
{
    entries.push(entry)?;
    Ok(())
}

// Numbers the terms of a quad, and keeps its entry.
fn put(draft: &mut Draft<'_>, entries: &mut Vec<[u32; 4]>, quad: &Quad) -> Result<(), StoreFault>
    ensures same_reference { draft.new.store.ghost_name ≡ draft.old.store.ghost_name }
    ensures learns { Learns draft.old.store.now draft.new.store.now }
    ensures say { OnOk result ((first : List Term) (quads : List Statement)
        → Say first draft.old.store.now.draft.known entries.old.items quads
        → Say first draft.new.store.now.draft.known entries.new.items
        (quads ++ quad.now ∷ [])) }
    ensures full { IfErr result (λ fault. (first : List Term) (quads more : List Statement)
        → Say first draft.old.store.now.draft.known entries.old.items quads
        → IsFullAt fault draft.old.store.now.limit
        (length (with_terms_of first (quads ++ quad.now ∷ more)))) }
{
    match draft.number(quad) {
        Ok(entry) => match push(entries, entry) {
            Ok(()) => Ok(()),
            Err(_) => Err(StoreFault::Memory),
        },
        Err(fault) => Err(fault),
    }
}

// The fault of a text whose terms find no room: a fault in the rest of the text comes first.
fn full(reader: &mut Reader<'_>) -> LoadFault
    ensures { (first : ℕ) (quads : List Statement) → HasRead first quads reader.old
        → IsTold reader.old.bytes first quads result }
{
    'statements: loop {
        match reader.next() {
            Ok(Some(quad)) => drop(quad),
            Ok(None) => return LoadFault::Store(StoreFault::Full),
            Err(fault) => return LoadFault::Text(fault),
        }
    }
}

// The fault of a text of which the store refuses a statement.
fn refused(reader: &mut Reader<'_>, fault: StoreFault) -> LoadFault
    ensures { (first : ℕ) (quads : List Statement) → HasRead first quads reader.old
        → IsToldFor fault reader.old.bytes first quads result }
{
    match fault {
        StoreFault::Full => full(reader),
        StoreFault::Memory => LoadFault::Store(fault),
    }
}

// Numbers the statements of a text, and tells the number that the next new label would get.
fn put_all(
    reader: &mut Reader<'_>,
    draft: &mut Draft<'_>,
    entries: &mut Vec<[u32; 4]>,
) -> Result<u64, LoadFault>
    requires none { entries.old.items ≡ [] }
    ensures same_reference { draft.new.store.ghost_name ≡ draft.old.store.ghost_name }
    ensures learns { Learns draft.old.store.now draft.new.store.now }
    ensures numbered { IfOk result (λ next. (first : ℕ) → HasRead first [] reader.old
        → AreNumbered reader.old.bytes first next draft.old.store.now.draft.known
        draft.new.store.now.draft.known entries.new.items) }
    ensures fault { IfErr result (λ fault. (first : ℕ) → HasRead first [] reader.old
        → IsLoadFault draft.old.store.now.limit reader.old.bytes first
        draft.old.store.now.draft.known fault) }
{
    'statements: loop {
        match reader.next() {
            Ok(Some(quad)) => {
                let outcome = put(draft, entries, &quad);
                drop(quad);
                if let Err(fault) = outcome {
                    return Err(refused(reader, fault));
                }
            }
            Ok(None) => return Ok(reader.next_blank()),
            Err(fault) => return Err(LoadFault::Text(fault)),
        }
    }
}

// Numbers the statements of bytes in a draft that has just begun, and tells the number that the next new label would get. What reading
// them took is dropped.
fn number_all(
    alloc: Global,
    hasher: RandomState,
    bytes: &[u8],
    draft: &mut Draft<'_>,
    entries: &mut Vec<[u32; 4]>,
) -> Result<u64, LoadFault>
    requires begun { draft.old.store.now.draft ≡ draft.old.store.now.base }
    requires none { entries.old.items ≡ [] }
    ensures same_reference { draft.new.store.ghost_name ≡ draft.old.store.ghost_name }
    ensures learns { Learns draft.old.store.now draft.new.store.now }
    ensures numbered { IfOk result
        (λ next. IsNumbered bytes.now next draft.new.store.now entries.new.items) }
    ensures fault { IfErr result
        (λ fault. IsLoadFault draft.old.store.now.limit bytes.now draft.old.store.now.base.next
        draft.old.store.now.base.known fault) }
{
    let first = draft.next_blank();
    match Reader::new(alloc, hasher, bytes, first) {
        Ok(mut reader) => put_all(&mut reader, draft, entries),
        Err(fault) => Err(LoadFault::Text(fault)),
    }
}

// Puts the entries of the statements that were numbered into the store, or leaves it as it was.
fn finish(
    draft: Draft<'_>,
    mut entries: Vec<[u32; 4]>,
    numbered: Result<u64, LoadFault>,
) -> Result<(), LoadFault>
    requires { IfOk numbered (λ next. (bytes : List ℕ) × IsNumbered bytes next draft.store.now
        entries.items) }
    ensures loaded { OnOk result
        ((bytes : List ℕ)
        → IfOk numbered (λ next. IsNumbered bytes next draft.entry.store.now entries.items)
        → IsLoaded draft.entry.store.now.limit bytes draft.entry.store.now.base
        draft.exit.0.now.base) }
    ensures fault { (limit : ℕ) (bytes : List ℕ) (first : ℕ) (known : List Term)
        → IfErr numbered (λ fault. IsLoadFault limit bytes first known fault)
        → IfErr result (λ fault. IsLoadFault limit bytes first known fault) }
    ensures refused { OnErr result (draft.exit.0.now.base ≡ draft.entry.store.now.base) }
    ensures limit { draft.exit.0.now.limit ≡ draft.entry.store.now.limit }
    ensures default_graph { draft.exit.0.now.default_graph ≡ draft.entry.store.now.default_graph }
{
    next_number_is_fresh();
    quads_make_their_terms_known();
    match numbered {
        Ok(next) => match draft.commit_with(entries.as_mut_slice(), next) {
            Ok(()) => Ok(()),
            Err(fault) => Err(LoadFault::Store(fault)),
        },
        Err(fault) => {
            draft.abandon();
            Err(fault)
        }
    }
}

/// Adds the quads of N-Quads to the store, as one change that adds them all. Labels of blank nodes are numbered from the store's next
/// number in the order in which they first appear (RDF 1.1 N-Quads, 3 and 4). Beside what the store holds after it, it takes 16 bytes for
/// each statement, and some for each label, which are hashed by `hasher`, since strangers choose them.
///
/// # Errors
/// `LoadFault::Text` with the first fault from left to right, and its line; `StoreFault::Full` where the text has none, and its terms
/// and the known ones are more than the limit; and running out of memory, in either form, at any time. A refusal leaves the store as it was, its
/// next number and its known terms included.
pub fn load(
    alloc: Global,
    hasher: RandomState,
    store: &mut Store,
    bytes: &[u8],
) -> Result<(), LoadFault>
    ensures loaded { OnOk result
        (IsLoaded store.old.limit bytes.now store.old.base store.new.base) }
    ensures fault { IfErr result (λ fault. IsLoadFault store.old.limit bytes.now store.old.base.next
        store.old.base.known fault) }
    ensures refused { OnErr result (store.new.base ≡ store.old.base) }
    ensures limit { store.new.limit ≡ store.old.limit }
    ensures default_graph { store.new.default_graph ≡ store.old.default_graph }
{
    let mut draft = store.draft();
    let mut entries = Vec::new(alloc);
    let numbered = number_all(alloc, hasher, bytes, &mut draft, &mut entries);
    finish(draft, entries, numbered)
}

/// Adds the quads of a file of N-Quads to the store, as `load` does those of bytes. The file is dropped once its statements are read, before
/// the store takes the memory that it needs for their quads.
///
/// # Errors
/// Those of `load`.
pub fn load_owned(
    alloc: Global,
    hasher: RandomState,
    store: &mut Store,
    file: Vec<u8>,
) -> Result<(), LoadFault>
    ensures loaded { OnOk result
        (IsLoaded store.old.limit file.items store.old.base store.new.base) }
    ensures fault { IfErr result
        (λ fault. IsLoadFault store.old.limit file.items store.old.base.next store.old.base.known
        fault) }
    ensures refused { OnErr result (store.new.base ≡ store.old.base) }
    ensures limit { store.new.limit ≡ store.old.limit }
    ensures default_graph { store.new.default_graph ≡ store.old.default_graph }
{
    let mut draft = store.draft();
    let mut entries = Vec::new(alloc);
    let numbered = number_all(alloc, hasher, file.as_slice(), &mut draft, &mut entries);
    drop(file);
    finish(draft, entries, numbered)
}
