//! Numbers that a walk along links reached, each once.

ghost use Rattle.std.specs.Prelude.{◌≡◌, ◌<◌, ◌++◌, [], true, length, map, slice_index_or, IfOk, IfSome, OnOk};
ghost use Rattle.std.specs.List.{list_any};
ghost use Rattle.qs_terms.specs.Bag.{with_new};
ghost use Rattle.qs_paths_meaning.specs.inner.Links.{AreBelow, IsMarked, same_number, with_numbers};
ghost use Rattle.qs_paths.specs.inner.Nodes.{node_pair};
ghost use Rattle.qs_paths.specs.inner.Links.{nodes_at};

use crate::node::NodePair;
use std::alloc::{AllocError, Global};

/// Numbers in the order in which they were reached, and for each number the last round in which it was. Each walk is a round of its own, so
/// no mark is taken back before the next walk.
#[derive(Drop)]
pub struct Reached {
    pub numbers: Vec<usize>,
    pub rounds: Vec<usize>,
    pub round: usize,
}

impl Reached {
    /// None of so many numbers.
    pub fn new(alloc: Global, count: usize) -> Result<Reached, AllocError>
        ensures none { IfOk result (λ r. r.numbers.items ≡ []) }
        ensures long { IfOk result (λ r. length r.rounds.items ≡ count) }
        ensures marked { IfOk result (λ r. IsMarked r.round r.rounds.items r.numbers.items) }
    {
        let mut rounds = Vec::new(alloc);
        rounds.resize(count, 0)?;
        Ok(Reached {
            numbers: Vec::new(alloc),
            rounds,
            round: 1,
        })
    }

    /// Begins the next round, with none reached.
    pub fn clear(&mut self) -> Result<(), AllocError>
        requires { IsMarked self.old.round self.old.rounds.items self.old.numbers.items }
        ensures numbers { OnOk result (self.new.numbers.items ≡ []) }
        ensures long { OnOk result (length self.new.rounds.items ≡ length self.old.rounds.items) }
        ensures marked { OnOk result
            (IsMarked self.new.round self.new.rounds.items self.new.numbers.items) }
    {
        self.round = self.round.checked_add(1).ok_or(AllocError)?;
        self.numbers.clear();
        Ok(())
    }

    pub fn len(&self) -> usize
        ensures { result ≡ length self.now.numbers.items }
    {
        self.numbers.as_slice().len()
    }

    pub fn number(&self, at: usize) -> usize
        requires { at < length self.now.numbers.items }
        ensures { result ≡ slice_index_or self.now.numbers.items at result }
    {
        self.numbers[at]
    }

    /// Whether the number was reached.
    pub fn has(&self, number: usize) -> bool
        requires below { number < length self.now.rounds.items }
        requires marked { IsMarked self.now.round self.now.rounds.items self.now.numbers.items }
        ensures { result ≡ list_any (same_number number) self.now.numbers.items }
    {
        self.rounds[number] == self.round
    }

    /// One of the numbers that was reached, if any was.
    pub fn any_of(&self, numbers: &[usize]) -> Option<usize>
        requires below { AreBelow (length self.now.rounds.items) numbers.now }
        requires marked { IsMarked self.now.round self.now.rounds.items self.now.numbers.items }
        ensures one { IfSome result (λ n. list_any (same_number n) numbers.now ≡ true) }
        ensures reached { IfSome result (λ n. list_any (same_number n) self.now.numbers.items
            ≡ true) }
    {
        for number in numbers {
            if self.has(*number) {
                return Some(*number);
            }
        }
        None
    }

    /// Puts the number at the end, if it isn't there yet.
    pub fn add(&mut self, number: usize) -> Result<(), AllocError>
        requires below { number < length self.old.rounds.items }
        requires marked { IsMarked self.old.round self.old.rounds.items self.old.numbers.items }
        ensures numbers { OnOk result
            (self.new.numbers.items ≡ with_new same_number self.old.numbers.items number) }
        ensures long { OnOk result (length self.new.rounds.items ≡ length self.old.rounds.items) }
        ensures marked { OnOk result
            (IsMarked self.new.round self.new.rounds.items self.new.numbers.items) }
    {
        if self.rounds[number] == self.round {
            return Ok(());
        }
        self.numbers.push(number)?;
        self.rounds[number] = self.round;
        Ok(())
    }

    #[tactic(auto, using(crate::proofs::Names::numbers_more))]
    /// Puts the numbers at the end, each if it isn't there yet.
    pub fn add_all(&mut self, numbers: &[usize]) -> Result<(), AllocError>
        requires below { AreBelow (length self.old.rounds.items) numbers.now }
        requires marked { IsMarked self.old.round self.old.rounds.items self.old.numbers.items }
        ensures numbers { OnOk result (self.new.numbers.items ≡ with_numbers self.old.numbers.items
            numbers.now) }
        ensures long { OnOk result (length self.new.rounds.items ≡ length self.old.rounds.items) }
        ensures marked { OnOk result
            (IsMarked self.new.round self.new.rounds.items self.new.numbers.items) }
    {
        for number in numbers {
            self.add(*number)?;
        }
        Ok(())
    }
}

/// Puts the pairs from a node to those of the numbers.
#[tactic(auto, using(crate::proofs::Names::reached_more))]
pub fn put_reached(
    pairs: &mut Vec<NodePair>,
    nodes: &[u64],
    start: u64,
    numbers: &[usize],
) -> Result<(), AllocError>
    requires { AreBelow (length nodes.now) numbers.now }
    ensures { OnOk result (pairs.new.items ≡ pairs.old.items ++ map (node_pair start)
        (nodes_at start nodes.now numbers.now)) }
{
    pairs.reserve(numbers.len())?;
    for number in numbers {
        pairs.push_reserved(NodePair {
            left: start,
            right: nodes[*number],
        });
    }
    Ok(())
}
