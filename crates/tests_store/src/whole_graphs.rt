//! Operations of a draft on whole graphs, worked out by hand by SPARQL 1.1 Update, 3.1.5 and 3.2.

use crate::outcome::Outcome;
use crate::quads::quads;
use crate::requests::{BEFORE, is_filled};
use crate::seen::{Seen, changed, is_seen};
use qs_store::{Draft, Removal, Store, StoreFault};
use qs_terms::{Quad, Term};
use std::alloc::Global;
use std::hash::RandomState;

/// Operations on graphs, each of which is told by the place of a quad in it.
#[derive(Clone, Copy)]
enum Step {
    Clear(usize),
    ClearNamed,
    ClearAll,
    Transfer(Removal, usize, usize),
}

const COPIED: Seen = Seen {
    quads: &[0, 1, 3],
    union: &[],
    graphs: &[(0, &[0]), (1, &[1]), (3, &[3]), (5, &[])],
    names: 2,
    terms: 6,
    next: 8,
};

const MOVED: Seen = Seen {
    quads: &[0, 1],
    union: &[],
    graphs: &[(0, &[0]), (1, &[1]), (3, &[]), (5, &[])],
    names: 1,
    terms: 6,
    next: 8,
};

const CLEARED: Seen = Seen {
    quads: &[0, 3],
    union: &[],
    graphs: &[(0, &[0]), (1, &[]), (3, &[3]), (5, &[])],
    names: 1,
    terms: 6,
    next: 8,
};

const UNNAMED: Seen = Seen {
    quads: &[0],
    union: &[],
    graphs: &[(0, &[0]), (1, &[]), (3, &[]), (5, &[])],
    names: 0,
    terms: 6,
    next: 8,
};

const EMPTY: Seen = Seen {
    quads: &[],
    union: &[],
    graphs: &[(0, &[]), (1, &[]), (3, &[]), (5, &[])],
    names: 0,
    terms: 6,
    next: 8,
};

/// Steps, each with what is to be seen before it and after it: the default graph is copied over another one, the third is moved over the
/// default graph, the second is added to the third; then one graph, the named ones and all are cleared.
const STEPS: &[(Step, Seen, Seen)] = &[
    (Step::Transfer(Removal::Target, 0, 1), BEFORE, COPIED),
    (Step::Transfer(Removal::Both, 3, 0), COPIED, MOVED),
    (Step::Transfer(Removal::Nothing, 1, 3), MOVED, COPIED),
    (Step::Clear(1), COPIED, CLEARED),
    (Step::ClearNamed, CLEARED, UNNAMED),
    (Step::ClearAll, UNNAMED, EMPTY),
];

fn transferred(
    draft: &mut Draft<'_>,
    removal: Removal,
    from: Option<&Term>,
    to: Option<&Term>,
) -> Option<Result<(), StoreFault>> {
    match to {
        None => Some(draft.transfer(removal, from, None)),
        Some(Term::Iri(_)) => Some(draft.transfer(removal, from, to)),
        Some(_) => None,
    }
}

fn taken(draft: &mut Draft<'_>, quads: &[Quad], step: Step) -> Option<Result<(), StoreFault>> {
    match step {
        Step::Clear(at) => Some(draft.clear_graph(quads.get(at)?.graph())),
        Step::ClearNamed => Some(draft.clear_named()),
        Step::ClearAll => Some(draft.clear_all()),
        Step::Transfer(removal, from, to) => {
            let from = quads.get(from)?.graph();
            transferred(draft, removal, from, quads.get(to)?.graph())
        }
    }
}

/// Whether the draft has the named graph of one quad, and not that of another one.
fn tells_its_graphs(draft: &Draft<'_>, one: Option<&Term>, other: Option<&Term>) -> bool {
    match (one, other) {
        (Some(one), Some(other)) => draft.has_graph(one) && !draft.has_graph(other),
        _ => false,
    }
}

fn take_all(draft: &mut Draft<'_>, quads: &[Quad]) -> Outcome {
    for (step, before, behind) in STEPS {
        let change = taken(draft, quads, *step);
        let outcome = changed(&*draft, quads, change, before, behind);
        if outcome != Outcome::Whole {
            return outcome;
        }
    }
    Outcome::Whole
}

fn drafted(store: &mut Store, quads: &[Quad]) -> Outcome {
    let (Some(one), Some(other)) = (quads.get(1), quads.get(5)) else {
        return Outcome::Wrong;
    };
    let mut draft = store.draft();
    let tells = tells_its_graphs(&draft, one.graph(), other.graph());
    let outcome = take_all(&mut draft, quads).or_wrong(tells);
    draft.abandon();
    outcome.or_wrong(is_seen(&*store, quads, &BEFORE))
}

/// What comes of a draft of a store of four quads, which is abandoned.
pub fn outcome(alloc: Global, hasher: Option<RandomState>) -> Outcome {
    match (quads(alloc), hasher) {
        (Ok(quads), Some(hasher)) => {
            let mut store = Store::new(alloc, 7, hasher);
            let outcome = match is_filled(&mut store, &quads) {
                Some(true) => drafted(&mut store, &quads),
                Some(false) => Outcome::Refused,
                None => Outcome::Wrong,
            };
            drop(store);
            outcome
        }
        _ => Outcome::Refused,
    }
}
