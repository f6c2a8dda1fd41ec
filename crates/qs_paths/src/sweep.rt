//! The order in which walks along links begin: that in which links lead from start to start. So a walk goes mostly over what the last one went
//! over: at 1,000,000 quads that saves a third of the time. The order costs or saves time alone: any would do.

ghost use Rattle.std.specs.Prelude.{◌≡◌, All, length, OnOk};
ghost use Rattle.std.specs.List.Sorted.{IsPermutation};
ghost use Rattle.qs_paths_meaning.specs.inner.Links.{AreBelow, IsMarked, rows_of};
ghost use Rattle.qs_paths.specs.inner.Links.{IsWeb, StandsAt};

use crate::links::{Links, Placed};
use crate::reached::Reached;
use std::alloc::{AllocError, Global};

/// Goes on along the links from each number that was reached, from this place on.
fn spread(links: &Links, from: usize, found: &mut Reached) -> Result<(), AllocError>
    requires next { length links.now.next.items ≡ length found.old.rounds.items }
    requires below { All (AreBelow (length found.old.rounds.items)) (rows_of links.now.next.items) }
    requires marked { IsMarked found.old.round found.old.rounds.items found.old.numbers.items }
    ensures long { OnOk result (length found.new.rounds.items ≡ length found.old.rounds.items) }
    ensures marked { OnOk result
        (IsMarked found.new.round found.new.rounds.items found.new.numbers.items) }
{
    let mut at = from;
    for _step in 0..links.next.as_slice().len() {
        if at >= found.len() {
            return Ok(());
        }
        let number = found.number(at);
        links.lead_on(number, found)?;
        at += 1;
    }
    Ok(())
}

/// The starts' numbers and those that links lead to from them, each once, in the order in which they are led to.
fn swept(alloc: Global, links: &Links, starts: &[Placed]) -> Result<Reached, AllocError>
    requires web { IsWeb links.now.nodes.keys (rows_of links.now.next.items) }
    requires at { All (λ s. StandsAt links.now.nodes.keys s.place s.node) starts.now }
{
    let mut found = Reached::new(alloc, links.nodes.as_slice().len())?;
    for start in starts {
        let from = found.len();
        found.add(start.place)?;
        spread(links, from, &mut found)?;
    }
    Ok(found)
}

/// For each of so many numbers its place among these.
fn ranks_of(alloc: Global, count: usize, numbers: &[usize]) -> Result<Vec<usize>, AllocError> {
    let mut ranks = Vec::new(alloc);
    ranks.resize(count, 0)?;
    for (rank, number) in numbers.iter().enumerate() {
        if let Some(place) = ranks.get_mut(*number) {
            *place = rank;
        }
    }
    Ok(ranks)
}

fn rank_of(ranks: &[usize], start: &Placed) -> usize {
    match ranks.get(start.place) {
        Some(rank) => *rank,
        None => 0,
    }
}

/// Puts the starts in the order in which links lead from one to the next.
pub fn put_in_order(
    alloc: Global,
    links: &Links,
    starts: &mut Vec<Placed>,
) -> Result<(), AllocError>
    requires web { IsWeb links.now.nodes.keys (rows_of links.now.next.items) }
    requires at { All (λ s. StandsAt links.now.nodes.keys s.place s.node) starts.old.items }
    ensures { OnOk result (IsPermutation starts.old.items starts.new.items) }
{
    let found = swept(alloc, links, starts.as_slice())?;
    let count = links.nodes.as_slice().len();
    let ranks = ranks_of(alloc, count, found.numbers.as_slice())?;
    starts.sort_unstable_by_key(|start| rank_of(ranks.as_slice(), start));
    Ok(())
}
