//! Loads and requests over small stores, worked out by hand: where memory runs out all is as before, and the same once more results in what
//! it ought to.

use crate::loads::is_out_of_memory;
use crate::outcome::Outcome;
use qs_nquads::text;
use qs_store::{Store, StoreFault};
use qs_store_load::{LoadFault, load};
use qs_terms::QFault;
use qs_update::update;
use std::alloc::{AllocError, Global};
use std::hash::RandomState;

/// N-Quads that are put into a store, or an update of it.
#[derive(Clone, Copy)]
enum Step {
    Load(&'static str),
    Update(&'static str),
}

/// What a store holds: quads, by their text, which is one of these; how many terms it knows; and its next number.
struct Held {
    texts: &'static [&'static str],
    terms: u32,
    next: u64,
}

const NOTHING: Held = Held {
    texts: &[""],
    terms: 0,
    next: 0,
};

/// Six subjects, of which all but the first have a value: a blank node, an IRI, two integers and a string.
const SORTED: Held = Held {
    texts: &[
        "<http://e/r1> <http://e/k> <http://e/k> .
<http://e/r2> <http://e/k> <http://e/k> .
<http://e/r2> <http://e/v> _:b0 .
<http://e/r3> <http://e/k> <http://e/k> .
<http://e/r3> <http://e/v> <http://e/i> .
<http://e/r4> <http://e/k> <http://e/k> .
<http://e/r4> <http://e/v> \"10\"^^<http://www.w3.org/2001/XMLSchema#integer> .
<http://e/r5> <http://e/k> <http://e/k> .
<http://e/r5> <http://e/v> \"9\"^^<http://www.w3.org/2001/XMLSchema#integer> .
<http://e/r6> <http://e/k> <http://e/k> .
<http://e/r6> <http://e/v> \"10\" .
",
    ],
    terms: 13,
    next: 1,
};

const TO_SORTED: Step = Step::Load(
    "<http://e/r1> <http://e/k> <http://e/k> .
<http://e/r2> <http://e/k> <http://e/k> .
<http://e/r3> <http://e/k> <http://e/k> .
<http://e/r4> <http://e/k> <http://e/k> .
<http://e/r5> <http://e/k> <http://e/k> .
<http://e/r6> <http://e/k> <http://e/k> .
<http://e/r2> <http://e/v> _:b .
<http://e/r3> <http://e/v> <http://e/i> .
<http://e/r4> <http://e/v> \"10\"^^<http://www.w3.org/2001/XMLSchema#integer> .
<http://e/r5> <http://e/v> \"9\"^^<http://www.w3.org/2001/XMLSchema#integer> .
<http://e/r6> <http://e/v> \"10\" .",
);

const CHAIN: Held = Held {
    texts: &["<u:a> <u:p> <u:b> .\n<u:b> <u:p> <u:c> .\n<u:c> <u:p> <u:d> .\n"],
    terms: 5,
    next: 0,
};

const TO_CHAIN: Step = Step::Load(
    "<u:a> <u:p> <u:b> .\n<u:b> <u:p> <u:c> .\n<u:c> <u:p> <u:d> .\n",
);

/// Takes out what it puts in.
const TO_THE_SAME: Step = Step::Update(
    "DELETE { ?s ?p ?o } INSERT { ?s ?p ?o } WHERE { ?s ?p ?o }",
);

const TO_MARKED: Step = Step::Update("INSERT { ?s <u:q> _:n } WHERE { ?s <u:p> ?o }");

/// Each subject has a node of its own, whichever.
const MARKED: Held = Held {
    texts: &[
        "<u:a> <u:p> <u:b> .\n<u:a> <u:q> _:b0 .\n<u:b> <u:p> <u:c> .\n<u:b> <u:q> _:b1 .\n<u:c> <u:p> <u:d> .\n<u:c> <u:q> _:b2 .\n",
        "<u:a> <u:p> <u:b> .\n<u:a> <u:q> _:b0 .\n<u:b> <u:p> <u:c> .\n<u:b> <u:q> _:b2 .\n<u:c> <u:p> <u:d> .\n<u:c> <u:q> _:b1 .\n",
        "<u:a> <u:p> <u:b> .\n<u:a> <u:q> _:b1 .\n<u:b> <u:p> <u:c> .\n<u:b> <u:q> _:b0 .\n<u:c> <u:p> <u:d> .\n<u:c> <u:q> _:b2 .\n",
        "<u:a> <u:p> <u:b> .\n<u:a> <u:q> _:b1 .\n<u:b> <u:p> <u:c> .\n<u:b> <u:q> _:b2 .\n<u:c> <u:p> <u:d> .\n<u:c> <u:q> _:b0 .\n",
        "<u:a> <u:p> <u:b> .\n<u:a> <u:q> _:b2 .\n<u:b> <u:p> <u:c> .\n<u:b> <u:q> _:b0 .\n<u:c> <u:p> <u:d> .\n<u:c> <u:q> _:b1 .\n",
        "<u:a> <u:p> <u:b> .\n<u:a> <u:q> _:b2 .\n<u:b> <u:p> <u:c> .\n<u:b> <u:q> _:b1 .\n<u:c> <u:p> <u:d> .\n<u:c> <u:q> _:b0 .\n",
    ],
    terms: 9,
    next: 3,
};

/// The graph that is copied isn't there, and its name isn't known after it.
const TO_ONE: Step = Step::Update(
    "INSERT DATA { <u:a> <u:p> <u:b> } ; COPY SILENT <u:none> TO DEFAULT",
);

const ONE: Held = Held {
    texts: &["<u:a> <u:p> <u:b> .\n"],
    terms: 3,
    next: 0,
};

/// Needs four terms, of which the third is in no quad after it.
const TO_OTHER: Step = Step::Update(
    "INSERT DATA { <u:a> <u:p> <u:b> } ; DELETE DATA { <u:a> <u:p> <u:b> } ; INSERT DATA { <u:a> <u:p> <u:c> }",
);

const OTHER: Held = Held {
    texts: &["<u:a> <u:p> <u:c> .\n"],
    terms: 4,
    next: 0,
};

/// What is done to an empty store one after another, with what it holds after each; it knows no more terms than it must.
struct Row {
    limit: u32,
    steps: &'static [(Step, Held)],
}

const ROWS: &[Row] = &[
    Row {
        limit: 13,
        steps: &[(TO_SORTED, SORTED)],
    },
    Row {
        limit: 9,
        steps: &[(TO_CHAIN, CHAIN), (TO_THE_SAME, CHAIN), (TO_MARKED, MARKED)],
    },
    Row {
        limit: 3,
        steps: &[(TO_ONE, ONE)],
    },
    Row {
        limit: 4,
        steps: &[(TO_OTHER, OTHER)],
    },
];

fn is_one_of(text: &str, texts: &[&str]) -> bool {
    for it in texts {
        if text == *it {
            return true;
        }
    }
    false
}

fn is_written(made: Result<String, AllocError>, texts: &[&str]) -> Outcome {
    match made {
        Ok(text) => {
            let is = is_one_of(text.as_str(), texts);
            drop(text);
            Outcome::Whole.or_wrong(is)
        }
        Err(_) => Outcome::Refused,
    }
}

fn has_text(alloc: Global, store: &Store, texts: &[&str]) -> Outcome {
    match store.quads() {
        Ok(quads) => {
            let outcome = is_written(text(alloc, &quads), texts);
            drop(quads);
            outcome
        }
        Err(StoreFault::Memory) => Outcome::Refused,
        Err(StoreFault::Full) => Outcome::Wrong,
    }
}

/// Whether the store holds this.
fn holds(alloc: Global, store: &Store, held: &Held) -> Outcome {
    let is = store.terms() == held.terms && store.next_blank() == held.next;
    has_text(alloc, store, held.texts).or_wrong(is)
}

fn of_load(loaded: Result<(), LoadFault>) -> Outcome {
    if is_out_of_memory(&loaded) {
        Outcome::Refused
    } else {
        Outcome::Whole.or_wrong(loaded.is_ok())
    }
}

fn of_update(updated: Result<(), QFault>) -> Outcome {
    match updated {
        Ok(()) => Outcome::Whole,
        Err(QFault::Memory) => Outcome::Refused,
        Err(_) => Outcome::Wrong,
    }
}

fn taken(alloc: Global, hasher: RandomState, store: &mut Store, step: Step) -> Outcome {
    match step {
        Step::Load(text) => of_load(load(alloc, hasher, store, text.as_bytes())),
        Step::Update(text) => of_update(update(alloc, text, store, 3)),
    }
}

/// Whether a step that was refused has changed nothing, and once more results in what it ought to.
fn succeeds_again(
    alloc: Global,
    hasher: RandomState,
    store: &mut Store,
    before: &Held,
    step: Step,
    behind: &Held,
) -> bool {
    holds(alloc, &*store, before) == Outcome::Whole
        && taken(alloc, hasher, store, step) == Outcome::Whole
        && holds(alloc, &*store, behind) == Outcome::Whole
}

fn outcome_of(
    alloc: Global,
    hasher: RandomState,
    store: &mut Store,
    before: &Held,
    step: Step,
    behind: &Held,
) -> Outcome {
    match taken(alloc, hasher, store, step) {
        Outcome::Whole => holds(alloc, &*store, behind),
        Outcome::Refused => {
            let is = succeeds_again(alloc, hasher, store, before, step, behind);
            Outcome::Refused.or_wrong(is)
        }
        Outcome::Wrong => Outcome::Wrong,
    }
}

fn steps_outcome(
    alloc: Global,
    hasher: RandomState,
    store: &mut Store,
    steps: &[(Step, Held)],
) -> Outcome {
    let mut before = &NOTHING;
    for (step, behind) in steps {
        let outcome = outcome_of(alloc, hasher, store, before, *step, behind);
        if outcome != Outcome::Whole {
            return outcome;
        }
        before = behind;
    }
    Outcome::Whole
}

fn row_outcome(alloc: Global, hasher: RandomState, row: &Row) -> Outcome {
    let mut store = Store::new(alloc, row.limit, hasher);
    let outcome = steps_outcome(alloc, hasher, &mut store, row.steps);
    drop(store);
    outcome
}

/// Whether each row results in what it ought to.
pub fn outcome(alloc: Global, hasher: Option<RandomState>) -> Outcome {
    let Some(hasher) = hasher else {
        return Outcome::Refused;
    };
    for row in ROWS {
        let outcome = row_outcome(alloc, hasher, row);
        if outcome != Outcome::Whole {
            return outcome;
        }
    }
    Outcome::Whole
}
