//! The numbers of blank nodes, by their labels.
//!
//! The last blank node's number is 2^64 - 2, so that the next number has 64 bits.

ghost use Rattle.std.specs.Prelude.{◌≡◌, ℕ, [], Ok, Some, OnErr};
ghost use Rattle.std.specs.Map.{lookup};
ghost use Rattle.std.specs.Str.{bytes_eq};
ghost use Rattle.qs_terms.specs.inner.OrOutOf.{WithOrOutOfMemory};
ghost use Rattle.qs_nquads.specs.declared.fault.NqFaultKind.TheVariants.{Memory};
ghost use Rattle.qs_nquads.specs.Labels.{from, number};
ghost use Rattle.qs_nquads.specs.inner.LabelMap.{numbers_of};

use crate::fault::NqFaultKind;
use crate::hashed_labels::HashedLabels;
use crate::label_map::LabelMap;
use crate::ordered_labels::OrderedLabels;
use std::alloc::Global;
use std::hash::RandomState;
use std::marker::Model;

/// The labels that were met, each with its number, and the number that the next new label gets.
#[derive(Drop)]
pub struct Labels {
    numbers: LabelMap,
    next: u64,
}

impl Model for Labels {
    ghost use Rattle.qs_nquads.specs.Labels.{Numbering};

    ghost Value = { Numbering };

    ghost use Rattle.qs_nquads.specs.inner.Entries.{AreBelow};
    ghost use Rattle.qs_nquads.specs.inner.LabelMap.{numbers_of};

    ghost view = { λ l. record { numbers = numbers_of l.numbers; next = l.next } };

    ghost invariant = { λ l. AreBelow l.next (numbers_of l.numbers) };
}

impl Labels {
    // No label was met, and the next one gets this number.
    fn new(numbers: LabelMap, first: u64) -> Labels
        requires { numbers_of numbers ≡ [] }
        ensures { result ≡ from first }
    {
        Labels {
            numbers,
            next: first,
        }
    }

    /// No label was met, and the next one gets this number. Labels are hashed by `hasher`, since strangers choose them. Takes no memory.
    pub fn hashed(alloc: Global, hasher: RandomState, first: u64) -> Labels
        ensures { result ≡ from first }
    {
        Labels::new(LabelMap::Hashed(HashedLabels::new(alloc, hasher)), first)
    }

    /// No label was met, and the next one gets this number. Labels are kept in their order, with no hasher. Takes no memory.
    pub fn ordered(alloc: Global, first: u64) -> Labels
        ensures { result ≡ from first }
    {
        Labels::new(LabelMap::Ordered(OrderedLabels::new(alloc)), first)
    }

    /// The number that the next new label gets.
    pub fn next(&self) -> u64
        ensures { result ≡ self.now.next }
    {
        self.next
    }

    /// The number of the label, which gets the next one where it is new. Only a new label takes memory: a copy of it is kept. A refusal
    /// leaves the labels as they were.
    ///
    /// # Errors
    /// `NqFaultKind::Full` where it is new and no number would be left after it, and `NqFaultKind::Memory`.
    pub fn number(&mut self, alloc: Global, label: &str) -> Result<u64, NqFaultKind>
        ensures number { WithOrOutOfMemory Memory (number self.old label.now) result self.new }
        ensures known { (k : ℕ) → lookup (bytes_eq label.now) self.old.numbers ≡ Some k
            → result ≡ Ok k }
        ensures refused { OnErr result (self.new ≡ self.old) }
    {
        if let Some(number) = self.numbers.get(label) {
            return Ok(number);
        }
        let number = self.next;
        let Some(next) = number.checked_add(1) else {
            return Err(NqFaultKind::Full);
        };
        let own = String::from_str(alloc, label)?;
        self.numbers.put(own, number)?;
        self.next = next;
        Ok(number)
    }
}
