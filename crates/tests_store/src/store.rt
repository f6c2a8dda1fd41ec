//! The store and its drafts: seven quads in a default graph and in three named ones.

use crate::outcome::Outcome;
use crate::quads::quads;
use crate::seen::{Seen, changed, is_seen, reads_back};
use qs_store::{DefaultGraph, Draft, NamedQuads, Store, StoreFault, View};
use qs_terms::Quad;
use qs_terms::dataset::is_above_blanks;
use std::alloc::Global;
use std::hash::RandomState;

/// Quads to remove and quads to add, both from one place of the list up to another, and the next blank node's number.
#[derive(Clone, Copy)]
struct Change {
    remove: (usize, usize),
    add: (usize, usize),
    next: u64,
}

fn part(quads: &[Quad], places: (usize, usize)) -> &[Quad] {
    let (from, to) = places;
    if from <= to && to <= quads.len() {
        &quads[from..to]
    } else {
        &[]
    }
}

/// Makes the change of the store, where it is a lawful one.
fn change_store(
    store: &mut Store,
    quads: &[Quad],
    change: &Change,
) -> Option<Result<(), StoreFault>> {
    let (remove, add) = (part(quads, change.remove), part(quads, change.add));
    if store.next_blank() <= change.next && is_above_blanks(change.next, add) {
        Some(store.change(remove, add, change.next))
    } else {
        None
    }
}

/// Changes a draft by a change that is lawful for it; `None` where it is not.
fn change_draft(
    draft: &mut Draft<'_>,
    quads: &[Quad],
    change: &Change,
) -> Option<Result<(), StoreFault>> {
    let (remove, add) = (part(quads, change.remove), part(quads, change.add));
    if draft.next_blank() <= change.next && is_above_blanks(change.next, add) {
        Some(draft.change(remove, add, change.next))
    } else {
        None
    }
}

const NOTHING: Seen = Seen {
    quads: &[],
    union: &[],
    graphs: &[(0, &[]), (1, &[])],
    names: 0,
    terms: 0,
    next: 0,
};

const TO_BASE: Change = Change {
    remove: (0, 0),
    add: (0, 4),
    next: 8,
};

const BASE: Seen = Seen {
    quads: &[0, 1, 2, 3],
    union: &[1, 2],
    graphs: &[(0, &[0]), (1, &[1, 2]), (3, &[3]), (5, &[])],
    names: 2,
    terms: 6,
    next: 8,
};

const TO_HALF: Change = Change {
    remove: (1, 3),
    add: (4, 6),
    next: 9,
};

const HALF: Seen = Seen {
    quads: &[0, 3, 4, 5],
    union: &[3, 4],
    graphs: &[(0, &[0]), (1, &[]), (3, &[3, 4]), (5, &[5])],
    names: 2,
    terms: 7,
    next: 9,
};

/// Takes out a quad that was just put in, and puts in again one that was just taken out.
const TO_WHOLE: Change = Change {
    remove: (4, 5),
    add: (1, 2),
    next: 9,
};

/// Over `BASE` quads 0 and 3 are kept, 2 is removed, 5 added, 4 added and removed, and 1 removed and added.
const WHOLE: Seen = Seen {
    quads: &[0, 1, 3, 5],
    union: &[1, 5],
    graphs: &[(0, &[0]), (1, &[1]), (3, &[3]), (5, &[5])],
    names: 3,
    terms: 7,
    next: 9,
};

/// Takes a triple out of one of the two named graphs that have it.
const TO_LEFT: Change = Change {
    remove: (1, 2),
    add: (0, 0),
    next: 9,
};

const LEFT: Seen = Seen {
    quads: &[0, 3, 5],
    union: &[3, 5],
    graphs: &[(0, &[0]), (1, &[]), (3, &[3]), (5, &[5])],
    names: 2,
    terms: 7,
    next: 9,
};

/// Changes, each with what is to be seen before it and after it.
const STEPS: &[(Change, Seen, Seen)] = &[
    (TO_BASE, NOTHING, BASE),
    (TO_HALF, BASE, HALF),
    (TO_WHOLE, HALF, WHOLE),
    (TO_LEFT, WHOLE, LEFT),
];

fn change_all(store: &mut Store, quads: &[Quad]) -> Outcome {
    for (step, before, after) in STEPS {
        let change = change_store(store, quads, step);
        let outcome = changed(&*store, quads, change, before, after);
        if outcome != Outcome::Whole {
            return outcome;
        }
    }
    let has_three = store.count() == 3;
    reads_back(&*store, quads, &LEFT).or_wrong(has_three)
}

fn draft_all(draft: &mut Draft<'_>, quads: &[Quad]) -> Outcome {
    let to_half = change_draft(draft, quads, &TO_HALF);
    let outcome = changed(&*draft, quads, to_half, &BASE, &HALF);
    if outcome != Outcome::Whole {
        return outcome;
    }
    let to_whole = change_draft(draft, quads, &TO_WHOLE);
    let outcome = changed(&*draft, quads, to_whole, &HALF, &WHOLE);
    if outcome != Outcome::Whole {
        return outcome;
    }
    reads_back(&*draft, quads, &WHOLE)
}

/// Makes a draft of the store, and commits it if it is whole and to be kept.
fn draft_once(store: &mut Store, quads: &[Quad], is_kept: bool) -> Outcome {
    let mut draft = store.draft();
    let outcome = draft_all(&mut draft, quads);
    if is_kept && outcome == Outcome::Whole {
        draft.commit();
        outcome.or_wrong(is_seen(&*store, quads, &WHOLE))
    } else {
        draft.abandon();
        outcome.or_wrong(is_seen(&*store, quads, &BASE))
    }
}

/// A draft by `draft_once`; where memory ran out, another draft is whole.
fn draft_again(store: &mut Store, quads: &[Quad], is_kept: bool) -> Outcome {
    match draft_once(store, quads, is_kept) {
        Outcome::Refused => {
            let is_whole = draft_once(store, quads, is_kept) == Outcome::Whole;
            Outcome::Refused.or_wrong(is_whole)
        }
        outcome => outcome,
    }
}

fn draft_twice(store: &mut Store, quads: &[Quad]) -> Outcome {
    let to_base = change_store(store, quads, &TO_BASE);
    let outcome = changed(&*store, quads, to_base, &NOTHING, &BASE);
    if outcome != Outcome::Whole {
        return outcome;
    }
    let outcome = draft_again(store, quads, false);
    if outcome != Outcome::Whole {
        return outcome;
    }
    draft_again(store, quads, true)
}

/// What comes of changes of a store, each of which is refused where memory runs out or else done.
pub fn changes(alloc: Global, hasher: Option<RandomState>) -> Outcome {
    match (quads(alloc), hasher) {
        (Ok(quads), Some(hasher)) => {
            let mut store = Store::with_default(alloc, 7, hasher, DefaultGraph::Union);
            let outcome = change_all(&mut store, &quads);
            drop(store);
            outcome
        }
        _ => Outcome::Refused,
    }
}

/// What comes of a draft that is abandoned, and of one that is committed.
pub fn drafts(alloc: Global, hasher: Option<RandomState>, default_graph: DefaultGraph) -> Outcome {
    match (quads(alloc), hasher) {
        (Ok(quads), Some(hasher)) => {
            let mut store = Store::with_default(alloc, 7, hasher, default_graph);
            let outcome = draft_twice(&mut store, &quads);
            drop(store);
            outcome
        }
        _ => Outcome::Refused,
    }
}

const TO_ONE: Change = Change {
    remove: (0, 0),
    add: (0, 1),
    next: 3,
};

const ONE: Seen = Seen {
    quads: &[0],
    union: &[],
    graphs: &[(0, &[0]), (1, &[])],
    names: 0,
    terms: 3,
    next: 3,
};

/// Takes out the one quad, and puts in another one that needs a fourth term.
const TO_FOUR: Change = Change {
    remove: (0, 1),
    add: (6, 7),
    next: 4,
};

fn refuses_a_fourth(store: &mut Store, quads: &[Quad]) -> bool {
    change_store(store, quads, &TO_ONE) == Some(Ok(()))
        && change_store(store, quads, &TO_FOUR) == Some(Err(StoreFault::Full))
        && store.count() == 1
        && is_seen(&*store, quads, &ONE)
}

fn drafts_refuse_a_fourth(store: &mut Store, quads: &[Quad]) -> bool {
    let mut draft = store.draft();
    let is_refused = change_draft(&mut draft, quads, &TO_FOUR) == Some(Err(StoreFault::Full))
        && is_seen(&draft, quads, &ONE);
    draft.abandon();
    is_refused && is_seen(&*store, quads, &ONE)
}

fn keeps_its_limit(alloc: Global, hasher: Option<RandomState>) -> bool {
    match (quads(alloc), hasher) {
        (Ok(quads), Some(hasher)) => {
            let mut store = Store::new(alloc, 3, hasher);
            let keeps = refuses_a_fourth(&mut store, &quads)
                && drafts_refuse_a_fourth(&mut store, &quads);
            drop(store);
            keeps
        }
        _ => false,
    }
}

#[test]
fn refuses_a_fourth_term(rt: HostRuntime) {
    assert!(rt; keeps_its_limit(rt.alloc(), RandomState::new(&rt).ok()));
}

/// Places that are given, and the quads of named graphs that agree with them, in the order that is used.
type NamedScan = (Option<u32>, Option<u32>, Option<u32>, &'static [[u32; 4]]);

/// Of quads 1, 2 and 3. A term's number tells when it was first met: e:a is 1, e:p 2, e:b 3, e:g 4, the blank node 5, and e:h 6.
const NAMED_BASE: &[NamedScan] = &[
    (
        None,
        None,
        None,
        &[[4, 1, 2, 3], [6, 1, 2, 3], [4, 1, 2, 5]],
    ),
    (None, None, Some(3), &[[4, 1, 2, 3], [6, 1, 2, 3]]),
    (Some(1), Some(2), Some(5), &[[4, 1, 2, 5]]),
    (Some(3), None, None, &[]),
];

/// Of quads 3, 4 and 5, whose e:k is 7.
const NAMED_HALF: &[NamedScan] = &[
    (
        None,
        None,
        None,
        &[[6, 1, 2, 3], [6, 3, 2, 1], [7, 3, 2, 1]],
    ),
    (
        None,
        Some(2),
        None,
        &[[6, 3, 2, 1], [7, 3, 2, 1], [6, 1, 2, 3]],
    ),
    (Some(3), None, Some(1), &[[6, 3, 2, 1], [7, 3, 2, 1]]),
    (None, None, Some(5), &[]),
];

fn hands_out(mut scan: NamedQuads<'_>, wanted: &[[u32; 4]]) -> bool {
    for quad in wanted {
        if scan.next() != Some(*quad) {
            return false;
        }
    }
    scan.next().is_none()
}

fn are_named<V: View>(view: &V, scans: &[NamedScan]) -> bool {
    for (subject, predicate, object, wanted) in scans {
        if !hands_out(view.scan_named(*subject, *predicate, *object), wanted) {
            return false;
        }
    }
    true
}

fn is_named_half(draft: &mut Draft<'_>, quads: &[Quad]) -> bool {
    change_draft(draft, quads, &TO_HALF) == Some(Ok(()))
        && are_named(&*draft, NAMED_HALF)
        && hands_out(draft.scan_named(Some(1), None, None), &[[6, 1, 2, 3]])
}

fn drafts_named(store: &mut Store, quads: &[Quad]) -> bool {
    let mut draft = store.draft();
    let is_half = is_named_half(&mut draft, quads);
    draft.abandon();
    is_half
}

fn scans_named(store: &mut Store, quads: &[Quad]) -> bool {
    change_store(store, quads, &TO_BASE) == Some(Ok(()))
        && drafts_named(store, quads)
        && are_named(&*store, NAMED_BASE)
        && hands_out(store.scan_named(None, Some(3), None), &[])
        && hands_out(NamedQuads::nothing(), &[])
}

fn finds_named(alloc: Global, hasher: Option<RandomState>) -> bool {
    match (quads(alloc), hasher) {
        (Ok(quads), Some(hasher)) => {
            let mut store = Store::new(alloc, 7, hasher);
            let finds = scans_named(&mut store, &quads);
            drop(store);
            finds
        }
        _ => false,
    }
}

#[test]
fn finds_quads_of_all_named_graphs(rt: HostRuntime) {
    assert!(rt; finds_named(rt.alloc(), RandomState::new(&rt).ok()));
}
