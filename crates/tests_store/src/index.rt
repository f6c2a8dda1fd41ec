//! The index: five entries, of the default graph, of graph 1 and of the last graph.

use crate::outcome::Outcome;
use qs_index::permutation::Lead;
use qs_index::{Index, PagePosition, Scan, count_named};
use std::alloc::{AllocError, Global};

const A: [u32; 4] = [1, 2, 3, 4];

const B: [u32; 4] = [1, 1, 3, 5];

const C: [u32; 4] = [1, 1, 2, 4];

const D: [u32; 4] = [4294967295, 1, 2, 4];

const E: [u32; 4] = [0, 1, 2, 4];

/// Makes room twice, and puts in the entry of the last graph and then the others.
fn fill(index: &mut Index) -> Result<(), AllocError> {
    index.reserve(1)?;
    index.insert(D);
    let mut entries = [A, E, B, C];
    index.reserve_for(300, count_named(&entries) as u64)?;
    index.insert_all(&mut entries);
    Ok(())
}

/// Places that are given, and the entries of graph 1 that agree with them, in the order that is used.
const SCANS: &[(Option<u32>, Option<u32>, Option<u32>, &[[u32; 4]])] = &[
    (None, None, None, &[C, B, A]),
    (None, Some(3), None, &[A, B]),
    (None, None, Some(4), &[C, A]),
    (Some(1), None, Some(4), &[C]),
    (Some(2), Some(3), Some(4), &[A]),
    (Some(2), Some(2), None, &[]),
];

/// Places that are given, and the entries of all named graphs that agree with them, in the order that is used.
const NAMED_SCANS: &[(Option<u32>, Option<u32>, Option<u32>, &[[u32; 4]])] = &[
    (None, None, None, &[C, D, B, A]),
    (Some(1), Some(2), None, &[C, D]),
    (None, Some(3), None, &[A, B]),
    (None, None, Some(4), &[C, D, A]),
    (Some(1), None, Some(4), &[C, D]),
    (Some(2), Some(3), Some(4), &[A]),
    (Some(2), Some(2), None, &[]),
];

/// Whether the scan hands out these entries, and looks at few more.
fn hands_out(mut scan: Scan<'_>, wanted: &[[u32; 4]]) -> bool {
    for entry in wanted {
        if scan.next() != Some(*entry) {
            return false;
        }
    }
    scan.next().is_none() && scan.looked() <= 13
}

fn are_found(index: &Index) -> bool {
    for (subject, predicate, object, wanted) in SCANS {
        if !hands_out(index.scan(1, *subject, *predicate, *object), wanted) {
            return false;
        }
    }
    true
}

/// Places from which scans are looked for: of an entry, of the one that is looked for, and none.
const PLACES: &[(usize, usize)] = &[(0, 0), (0, 2), (0, 5), (7, 0)];

/// Whether the same is found from a place.
fn is_found_from(index: &Index, place: PagePosition) -> bool {
    hands_out(index.scan_from(place, 1, None, Some(3), None), &[A, B])
        && hands_out(
            index.scan_named_from(place, Some(1), Some(2), None),
            &[C, D],
        )
}

/// Whether the same is found from each place.
fn are_found_from(index: &Index) -> bool {
    for (page, at) in PLACES {
        let place = PagePosition {
            page: *page,
            at: *at,
        };
        if !is_found_from(index, place) {
            return false;
        }
    }
    true
}

fn are_named_found(index: &Index) -> bool {
    for (subject, predicate, object, wanted) in NAMED_SCANS {
        if !hands_out(index.scan_named(*subject, *predicate, *object), wanted) {
            return false;
        }
    }
    true
}

/// Graph numbers, and the next one that an entry has.
const NEXT: &[(u32, Option<u32>)] = &[
    (0, Some(1)),
    (1, Some(4294967295)),
    (4294967294, Some(4294967295)),
    (4294967295, None),
];

fn are_graphs_found(index: &Index) -> bool {
    for (after, next) in NEXT {
        if index.next_graph(*after) != *next {
            return false;
        }
    }
    true
}

/// Whether the entries are counted and known.
fn are_known(index: &Index) -> bool {
    index.len() == 5
        && index.named_len() == 4
        && index.contains(&A)
        && !index.contains(&[1, 2, 3, 5])
}

/// Whether two entries, and one that isn't there, are taken out at once.
fn are_removed(index: &mut Index) -> bool {
    index.remove_all(&mut [A, C, [7, 7, 7, 7]]);
    index.len() == 3 && hands_out(index.entries(), &[E, B, D])
}

/// Whether all entries are found, and one is taken out, and then more.
fn is_whole(index: &mut Index) -> bool {
    are_found(index)
        && are_named_found(index)
        && are_found_from(index)
        && are_graphs_found(index)
        && are_known(index)
        && are_skipped(index)
        && hands_out(index.entries(), &[E, C, B, A, D])
        && are_removed(index)
        && index.remove(D)
        && !index.remove(D)
        && index.next_graph(1).is_none()
        && index.named_len() == 1
        && hands_out(index.scan_named(None, None, None), &[B])
}

fn if_asked(asked: bool, number: u32) -> Option<u32> {
    if asked { Some(number) } else { None }
}

/// Whether the scan hands out these entries, where after each all are skipped that have the same subject, predicate and object, as far as
/// these are asked for.
fn goes_over(mut scan: Scan<'_>, asked: [bool; 3], wanted: &[[u32; 4]]) -> bool {
    for entry in wanted {
        let Some(next) = scan.next() else {
            return false;
        };
        if next != *entry {
            return false;
        }
        let [_, s, p, o] = next;
        scan.skip_agreeing(
            if_asked(asked[0], s),
            if_asked(asked[1], p),
            if_asked(asked[2], o),
        );
    }
    scan.next().is_none()
}

/// Whether each subject, predicate and object is found once, by a scan that has it in front.
fn are_skipped(index: &Index) -> bool {
    goes_over(
        index.scan_with_lead(Lead::Subject, 1, None, None, None),
        [true, false, false],
        &[C, A],
    ) && goes_over(
        index.scan_with_lead(Lead::Predicate, 1, None, None, None),
        [false, true, false],
        &[C, A],
    ) && goes_over(
        index.scan_with_lead(Lead::Object, 1, None, None, None),
        [false, false, true],
        &[C, B],
    ) && goes_over(
        index.scan_with_lead(Lead::Object, 1, None, Some(3), None),
        [false, true, true],
        &[A, B],
    ) && goes_over(
        index.scan_named_with_lead(Lead::Predicate, None, None, None),
        [false, true, false],
        &[C, A],
    )
}

/// Whether the index is filled; where memory runs out it has no entry of graph 1.
pub fn outcome(alloc: Global) -> Outcome {
    let mut index = Index::new(alloc);
    let outcome = if fill(&mut index).is_err() {
        Outcome::Refused.or_wrong(hands_out(index.scan(1, None, None, None), &[]))
    } else {
        Outcome::Whole.or_wrong(is_whole(&mut index))
    };
    drop(index);
    outcome
}
