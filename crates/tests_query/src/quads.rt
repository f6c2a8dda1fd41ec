//! Quads as the data say them: of three quads the first and the last stand in a named graph, and the second in the default graph.

use crate::outcome::Outcome;
use qs_nquads::{NqFault, NqFaultKind, read_hashed};
use qs_terms::{Quad, dataset};
use std::alloc::{AllocError, Global};
use std::cmp::Ordering;
use std::hash::RandomState;

const DATA: &[u8] = b"_:a <u:p> \"o\"@en <u:g> .\n_:b <u:p> \"o\"@en .\n_:c <u:p> \"o\"@en <u:g> .";

/// Numbers for the first label, and the next one after the last label, or the fault: three numbers are wanted.
const NUMBERED: &[(u64, Result<u64, NqFault>)] = &[
    (18446744073709551612, Ok(18446744073709551615)),
    (
        18446744073709551613,
        Err(NqFault {
            line: 3,
            kind: NqFaultKind::Full,
        }),
    ),
    (
        18446744073709551615,
        Err(NqFault {
            line: 1,
            kind: NqFaultKind::Full,
        }),
    ),
];

/// The number after the last label.
fn next_of(alloc: Global, hasher: RandomState, first: u64) -> Result<u64, NqFault> {
    let (quads, next) = read_hashed(alloc, hasher, DATA, first)?;
    drop(quads);
    Ok(next)
}

/// Whether the number after the last label, or the fault, is the one that is wanted.
fn are_numbered(
    alloc: Global,
    hasher: Option<RandomState>,
    first: u64,
    want: &Result<u64, NqFault>,
) -> bool {
    match hasher {
        Some(hasher) => next_of(alloc, hasher, first) == *want,
        None => false,
    }
}

#[test]
fn numbers_labels(rt: HostRuntime) {
    let hasher = RandomState::new(&rt).ok();
    for (first, want) in NUMBERED {
        assert!(rt; are_numbered(rt.alloc(), hasher, *first, want), "{first}");
    }
}

/// Whether the default graph comes first, then the named one by its subjects; and the next number is above those of the blank nodes.
fn are_ordered(first: &Quad, second: &Quad, third: &Quad, last: &[Quad]) -> bool {
    second.order(first) == Ordering::Less
        && third.order(first) == Ordering::Greater
        && third.order(third) == Ordering::Equal
        && dataset::is_above_blanks(4, last)
        && !dataset::is_above_blanks(3, last)
}

fn compare(quads: &[Quad]) -> bool {
    match quads {
        [first, second, third] => are_ordered(first, second, third, &quads[2..]),
        _ => false,
    }
}

fn is_copied(alloc: Global, quad: &Quad) -> Result<bool, AllocError> {
    let copy = quad.try_clone()?;
    let is_same = copy.is_same(quad);
    drop(copy);
    Ok(is_same)
}

/// Whether each quad is copied, and no copy differs.
fn are_copied(alloc: Global, quads: &[Quad]) -> Result<bool, AllocError> {
    for quad in quads {
        if !is_copied(alloc, quad)? {
            return Ok(false);
        }
    }
    Ok(true)
}

/// Whether the quads are read, compared and copied.
pub fn outcome(alloc: Global, hasher: Option<RandomState>) -> Outcome {
    dataset::same_bag_by_counts();
    let Some(hasher) = hasher else {
        return Outcome::Refused;
    };
    match read_hashed(alloc, hasher, DATA, 1) {
        Ok((quads, _)) => {
            let are_compared = compare(quads.as_slice());
            let are_copied = are_copied(alloc, quads.as_slice());
            drop(quads);
            match are_copied {
                Ok(are_copied) => Outcome::of_answer(are_compared && are_copied),
                Err(_) => Outcome::Refused,
            }
        }
        Err(fault) if fault.kind == NqFaultKind::Memory => Outcome::Refused,
        Err(_) => Outcome::Wrong,
    }
}
