//! In which order the triples, paths, tables and unions of a run come.

use crate::counts::{Counts, counts_of};
use crate::known::{Known, no_flags, variables_of};
use qs_plan_meaning::Stage;
use std::alloc::{AllocError, Global};
use std::collections::BTreeSet;

/// A stage of a run, as far as the choice goes by it.
#[derive(Clone, Copy)]
struct Candidate {
    /// How many of its places hold neither a term nor a variable that is bound.
    free: u64,
    /// About how many rows it has by itself.
    count: u64,
    /// Whether it makes no product of its rows and those before: it has a variable that is bound, or none, or it has one row at most.
    is_joined: bool,
    /// Whether it makes a product wherever it comes, which belongs at the end: what comes after it is done again for each of its rows.
    is_apart: bool,
}

/// What decides between candidates: the least comes next.
#[derive(Clone, Copy, PartialEq, Eq, PartialOrd, Ord)]
struct Rank {
    is_product: bool,
    /// The places free; in a product the count.
    first: u64,
    /// The count; in a product the places free.
    second: u64,
    at: usize,
}

/// A variable that stands in a stage of the run.
#[derive(Clone, Copy)]
struct Use {
    variable: usize,
    at: usize,
}

/// The candidates of a run, their variables in ascending order, and the ranks of those that are left.
#[derive(Drop)]
struct Choice {
    candidates: Vec<Candidate>,
    uses: Vec<Use>,
    ranks: BTreeSet<Rank>,
}

// ---- candidates

/// How many of the variables aren't bound.
fn free_places(known: &Known, variables: &[usize]) -> u64 {
    let mut free: u64 = 0;
    for variable in variables {
        if !known.has(*variable) {
            free = free.saturating_add(1);
        }
    }
    free
}

/// Whether one of the variables is bound.
fn is_any_known(known: &Known, variables: &[usize]) -> bool {
    for variable in variables {
        if known.has(*variable) {
            return true;
        }
    }
    false
}

/// A stage with these variables as a candidate. Where it has no row, none is left: it comes as one whose places are all bound. It is apart if
/// it may be and none of its variables is bound.
fn candidate_of(known: &Known, variables: &[usize], count: u64, may_be_apart: bool) -> Candidate {
    let free = free_places(known, variables);
    let is_bound = free == 0 || is_any_known(known, variables);
    Candidate {
        free: if count == 0 { 0 } else { free },
        count,
        is_joined: is_bound || count <= 1,
        is_apart: may_be_apart && !is_bound && count > 0,
    }
}

fn rank_of(at: usize, one: Candidate) -> Rank {
    if one.is_apart {
        return Rank {
            is_product: true,
            first: u64::MAX,
            second: one.count,
            at,
        };
    }
    if one.is_joined {
        return Rank {
            is_product: false,
            first: one.free,
            second: one.count,
            at,
        };
    }
    Rank {
        is_product: true,
        first: one.count,
        second: one.free,
        at,
    }
}

/// Whether the stage is a table or a union.
fn is_whole(stage: &Stage) -> bool {
    match stage {
        Stage::Values(_) => true,
        Stage::Union(_) => true,
        _ => false,
    }
}

/// Whether the stage at the place is a table or a union.
fn is_whole_at(stages: &[Stage], at: usize) -> bool {
    match stages.get(at) {
        Some(stage) => is_whole(stage),
        None => false,
    }
}

fn count_at(counts: &[u64], at: usize) -> u64 {
    match counts.get(at) {
        Some(count) => *count,
        None => 0,
    }
}

/// The candidates, by the counts of their stages, the variables in their places, and whether they have a variable of another stage.
fn candidates_of(
    alloc: Global,
    stages: &[Stage],
    known: &Known,
    counts: &[u64],
    places: &[Vec<usize>],
    shared: &[bool],
) -> Result<Vec<Candidate>, AllocError> {
    let mut candidates = Vec::with_capacity(alloc, places.len())?;
    for at in 0..places.len() {
        let may_be_apart = is_whole_at(stages, at) && !is_set(shared, at);
        let count = count_at(counts, at);
        candidates.push(candidate_of(known, places[at].as_slice(), count, may_be_apart))?;
    }
    Ok(candidates)
}

fn ranks_of(alloc: Global, candidates: &[Candidate]) -> Result<BTreeSet<Rank>, AllocError> {
    let mut ranks = BTreeSet::new(alloc);
    for at in 0..candidates.len() {
        ranks.insert(rank_of(at, candidates[at]))?;
    }
    Ok(ranks)
}

// ---- variables

fn is_set(flags: &[bool], at: usize) -> bool {
    match flags.get(at) {
        Some(flag) => *flag,
        None => false,
    }
}

fn set_flag(flags: &mut Vec<bool>, at: usize) {
    if let Some(flag) = flags.get_mut(at) {
        *flag = true;
    }
}

/// The variables in the places of each stage.
fn places_of(alloc: Global, stages: &[Stage]) -> Result<Vec<Vec<usize>>, AllocError> {
    let mut places = Vec::with_capacity(alloc, stages.len())?;
    for stage in stages {
        places.push(variables_of(alloc, stage)?)?;
    }
    Ok(places)
}

fn push_uses(uses: &mut Vec<Use>, variables: &[usize], at: usize) -> Result<(), AllocError> {
    for variable in variables {
        uses.push(Use {
            variable: *variable,
            at,
        })?;
    }
    Ok(())
}

/// Where each variable stands, in ascending order of the variables.
fn uses_of(alloc: Global, places: &[Vec<usize>]) -> Result<Vec<Use>, AllocError> {
    let mut uses = Vec::new(alloc);
    for at in 0..places.len() {
        push_uses(&mut uses, places[at].as_slice(), at)?;
    }
    uses.sort_unstable_by_key(|one| one.variable);
    Ok(uses)
}

/// Flags the stages, of so many, that have a variable of another stage. The uses are in ascending order of the variables.
fn shared_of(alloc: Global, uses: &[Use], count: usize) -> Result<Vec<bool>, AllocError> {
    let mut shared = no_flags(alloc, count)?;
    for at in 1..uses.len() {
        let one = uses[at - 1];
        let other = uses[at];
        if one.variable == other.variable && one.at != other.at {
            set_flag(&mut shared, one.at);
            set_flag(&mut shared, other.at);
        }
    }
    Ok(shared)
}

/// The candidate at the place has one more place bound, if it is left.
fn bind_place(
    candidates: &mut [Candidate],
    ranks: &mut BTreeSet<Rank>,
    at: usize,
) -> Result<(), AllocError> {
    if candidates.len() <= at || !ranks.remove(&rank_of(at, candidates[at])) {
        return Ok(());
    }
    let one = candidates[at];
    let bound = Candidate {
        free: one.free.saturating_sub(1),
        count: one.count,
        is_joined: true,
        is_apart: false,
    };
    candidates[at] = bound;
    ranks.insert(rank_of(at, bound))?;
    Ok(())
}

/// The variable is bound at each place where it stands.
fn bind_places(
    uses: &[Use],
    candidates: &mut [Candidate],
    ranks: &mut BTreeSet<Rank>,
    variable: usize,
) -> Result<(), AllocError> {
    let from = uses.partition_point(|one| one.variable < variable);
    for at in from..uses.len() {
        let one = uses[at];
        if one.variable != variable {
            return Ok(());
        }
        bind_place(candidates, ranks, one.at)?;
    }
    Ok(())
}

impl Choice {
    /// All candidates of a run are left.
    fn new<C: Counts>(
        alloc: Global,
        counts: &C,
        stages: &[Stage],
        places: &[Vec<usize>],
        known: &Known,
    ) -> Result<Choice, AllocError> {
        let counts = counts_of(alloc, counts, stages)?;
        let uses = uses_of(alloc, places)?;
        let shared = shared_of(alloc, uses.as_slice(), places.len())?;
        let candidates = candidates_of(
            alloc,
            stages,
            known,
            counts.as_slice(),
            places,
            shared.as_slice(),
        )?;
        let ranks = ranks_of(alloc, candidates.as_slice())?;
        Ok(Choice {
            candidates,
            uses,
            ranks,
        })
    }

    /// The place of the next one, which is left no more.
    fn next(&mut self) -> Option<usize> {
        match self.ranks.pop_first() {
            Some(rank) => Some(rank.at),
            None => None,
        }
    }

    /// The variable is bound, if it wasn't before.
    fn bind(&mut self, known: &mut Known, variable: usize) -> Result<(), AllocError> {
        if !known.add(variable)? {
            return Ok(());
        }
        bind_places(
            self.uses.as_slice(),
            self.candidates.as_mut_slice(),
            &mut self.ranks,
            variable,
        )
    }

    /// The variables are bound.
    fn bind_all(&mut self, known: &mut Known, variables: &[usize]) -> Result<(), AllocError> {
        for variable in variables {
            self.bind(known, *variable)?;
        }
        Ok(())
    }
}

// ---- the order

/// Adds the variables of the stages to those that are bound.
fn add_stages(alloc: Global, known: &mut Known, stages: &[Stage]) -> Result<(), AllocError> {
    for stage in stages {
        known.add_stage(alloc, stage)?;
    }
    Ok(())
}

/// The places of the stages of a run in the order that `plan_for` tells, or none of a single stage. Their variables are bound then.
pub(crate) fn order_of<C: Counts>(
    alloc: Global,
    counts: &C,
    stages: &[Stage],
    known: &mut Known,
) -> Result<Vec<usize>, AllocError> {
    if stages.len() < 2 {
        add_stages(alloc, known, stages)?;
        return Ok(Vec::new(alloc));
    }
    let places = places_of(alloc, stages)?;
    let mut choice = Choice::new(alloc, counts, stages, places.as_slice(), known)?;
    let mut order = Vec::with_capacity(alloc, stages.len())?;
    for _ in 0..stages.len() {
        let Some(at) = choice.next() else {
            return Ok(order);
        };
        order.push(at)?;
        if let Some(variables) = places.get(at) {
            choice.bind_all(known, variables.as_slice())?;
        }
    }
    Ok(order)
}
