//! From bytes to quads.

ghost use Rattle.std.specs.Prelude.{◌≡◌, ◌∷◌, ◌++◌, ℕ, [], MatchResult, OnOk};
ghost use Rattle.qs_nquads.specs.Labels.{from};
ghost use Rattle.qs_nquads.specs.Nquads.{IsNquads, IsFault};
ghost use Rattle.qs_nquads.specs.inner.Unread.{HasRead};

use crate::fault::NqFault;
use crate::labels::Labels;
use crate::reader::Reader;
use qs_terms::Quad;
use std::alloc::{AllocError, Global};
use std::hash::RandomState;

fn push<T: Drop>(items: &mut Vec<T>, item: T) -> Result<(), AllocError>
    ensures { OnOk result (items.new.items ≡ items.old.items ++ item ∷ []) }
{
    items.push(item)?;
    Ok(())
}

// Puts the statements that are left after the quads, and tells the number that the next new label would get.
fn read_into(reader: &mut Reader<'_>, quads: &mut Vec<Quad>) -> Result<u64, NqFault>
    ensures { (first : ℕ) → HasRead first quads.old.items reader.old
        → MatchResult result (λ next. IsNquads reader.old.bytes first quads.new.items next)
        (λ fault. IsFault reader.old.bytes first fault.kind fault.line) }
{
    'statements: loop {
        match reader.next() {
            Ok(Some(quad)) => {
                if push(quads, quad).is_err() {
                    return Err(reader.out_of_memory());
                }
            }
            Ok(None) => return Ok(reader.next_blank()),
            Err(fault) => return Err(fault),
        }
    }
}

// The quads of the bytes, and the number that the next new label would get, from these labels.
fn read_with(alloc: Global, labels: Labels, bytes: &[u8]) -> Result<(Vec<Quad>, u64), NqFault>
    ensures { (first : ℕ) → labels ≡ from first
        → MatchResult result (λ r. IsNquads bytes.now first r.0.items r.1)
        (λ fault. IsFault bytes.now first fault.kind fault.line) }
{
    let mut reader = match Reader::with_labels(alloc, labels, bytes) {
        Ok(reader) => reader,
        Err(fault) => return Err(fault),
    };
    let mut quads = Vec::new(alloc);
    let outcome = read_into(&mut reader, &mut quads);
    drop(reader);
    match outcome {
        Ok(next) => Ok((quads, next)),
        Err(fault) => {
            drop(quads);
            Err(fault)
        }
    }
}

/// The quads of N-Quads in the order of their statements, repeats kept, and the number that the next new label would get. Labels
/// of blank nodes are numbered from `first_blank` in the order in which they first appear (RDF 1.1 N-Quads, 3 and 4). They are kept in
/// an ordered map, which needs no hasher; `read_hashed` is faster.
///
/// # Errors
/// The first fault from left to right, with its line: `NqFaultKind::Utf8` before all others. `NqFaultKind::Memory` may come at
/// any token, with the line of that token.
pub fn read(alloc: Global, bytes: &[u8], first_blank: u64) -> Result<(Vec<Quad>, u64), NqFault>
    ensures { MatchResult result (λ r. IsNquads bytes.now first_blank r.0.items r.1)
        (λ fault. IsFault bytes.now first_blank fault.kind fault.line) }
{
    read_with(alloc, Labels::ordered(alloc, first_blank), bytes)
}

/// The quads of N-Quads in the order of their statements, repeats kept, and the number that the next new label would get. Labels
/// of blank nodes are numbered from `first_blank` in the order in which they first appear (RDF 1.1 N-Quads, 3 and 4). They are hashed by
/// `hasher`, since strangers choose them.
///
/// # Errors
/// The first fault from left to right, with its line: `NqFaultKind::Utf8` before all others. `NqFaultKind::Memory` may come at
/// any token, with the line of that token.
pub fn read_hashed(
    alloc: Global,
    hasher: RandomState,
    bytes: &[u8],
    first_blank: u64,
) -> Result<(Vec<Quad>, u64), NqFault>
    ensures { MatchResult result (λ r. IsNquads bytes.now first_blank r.0.items r.1)
        (λ fault. IsFault bytes.now first_blank fault.kind fault.line) }
{
    read_with(alloc, Labels::hashed(alloc, hasher, first_blank), bytes)
}
