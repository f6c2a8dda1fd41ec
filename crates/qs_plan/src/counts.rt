//! About how many triples of a store agree with a triple pattern: what the order of a run goes by.

use crate::path_counts::path_count;
use qs_algebra_patterns::TriplePattern;
use qs_plan_meaning::{Group, Look, Stage};
use std::alloc::{AllocError, Global};

/// What a planner asks a store. An answer decides the order of triples, and never which solutions a plan has. So any answer is allowed.
pub trait Counts {
    /// About how many triples agree with the terms of the pattern, in the graph where the pattern looks.
    fn about(&self, look: &Look, pattern: &TriplePattern) -> u64;
}

/// Where nothing is counted there are as many as may be.
pub(crate) const MANY: u64 = u64::MAX;

/// Knows no store: of each triple there are as many as may be.
pub(crate) struct NoCounts;

impl Counts for NoCounts {
    fn about(&self, _look: &Look, _pattern: &TriplePattern) -> u64 {
        MANY
    }
}

/// About how many rows the stage has by itself. A table has as many as its rows, a path as many as pairs (`path_count`), and a union as many as
/// its branches together.
#[cycle(counted)]
fn count_of<C: Counts>(alloc: Global, counts: &C, stage: &Stage) -> Result<u64, AllocError> {
    match stage {
        Stage::Triple(look, pattern) => Ok(counts.about(look, pattern)),
        Stage::Path(look, pattern) => path_count(alloc, counts, look, pattern),
        Stage::Values(table) => Ok(table.get().rows.len() as u64),
        Stage::Union(branches) => sum_of(alloc, counts, branches.as_slice()),
        _ => Ok(MANY),
    }
}

/// The least count of the stages, or one where there is none.
#[cycle(counted)]
fn least_of<C: Counts>(alloc: Global, counts: &C, stages: &[Stage]) -> Result<u64, AllocError> {
    if stages.is_empty() {
        return Ok(1);
    }
    let mut least = MANY;
    for stage in stages {
        least = count_of(alloc, counts, stage)?.min(least);
    }
    Ok(least)
}

/// The sum of the least counts of the branches.
#[cycle(counted)]
fn sum_of<C: Counts>(alloc: Global, counts: &C, branches: &[Group]) -> Result<u64, AllocError> {
    let mut sum: u64 = 0;
    for branch in branches {
        sum = sum.saturating_add(least_of(alloc, counts, branch.stages.as_slice())?);
    }
    Ok(sum)
}

/// The count of each stage of a run.
pub(crate) fn counts_of<C: Counts>(
    alloc: Global,
    counts: &C,
    stages: &[Stage],
) -> Result<Vec<u64>, AllocError> {
    let mut found = Vec::with_capacity(alloc, stages.len())?;
    for stage in stages {
        found.push(count_of(alloc, counts, stage)?)?;
    }
    Ok(found)
}
