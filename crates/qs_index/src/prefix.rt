//! What the entries of a scan begin with.
ghost use Rattle.std.specs.Prelude.{◌≡◌, ℕ, ◌≤◌, ◌==◌, List, length, take, IfSome, IfNone};
ghost use Rattle.qs_index.specs.inner.Entry.{is_before, begins, run_of};
ghost use Rattle.qs_index.specs.inner.Prefix.{IsFilled, IsAfter, HasAfter};

use crate::entry::{begins, is_less};
use std::marker::Model;

/// Up to four numbers, with which entries begin. Contracts see the list of them.
#[derive(Drop)]
pub struct Prefix {
    // Filled up with zeros: an entry is before the prefix exactly where it is less than this.
    filled: [u32; 4],
    given: usize,
}

impl Model for Prefix {
    ghost Value = { List ℕ };

    ghost view = { λ p. take p.given p.filled };

    ghost invariant = { λ p. IsFilled p.filled p.given };
}

impl Prefix {
    /// The first `given` of these numbers.
    pub fn new(numbers: [u32; 4], given: usize) -> Prefix
        requires { given ≤ 4 }
        ensures { result ≡ take given numbers }
    {
        let [a, b, c, _] = numbers;
        match given {
            0 => Prefix {
                filled: [0, 0, 0, 0],
                given,
            },
            1 => Prefix {
                filled: [a, 0, 0, 0],
                given,
            },
            2 => Prefix {
                filled: [a, b, 0, 0],
                given,
            },
            3 => Prefix {
                filled: [a, b, c, 0],
                given,
            },
            _ => Prefix {
                filled: numbers,
                given,
            },
        }
    }

    /// The prefix after all entries that begin with the first `given` numbers of `entry`: the last of them is raised by one. None where
    /// `given` isn't 1 to 3, or that number is the greatest.
    pub fn after(entry: [u32; 4], given: usize) -> Option<Prefix>
        ensures after { IfSome result (IsAfter (take given entry)) }
        ensures some { IfSome result (λ _. HasAfter entry given) }
        ensures none { IfNone result (¬ HasAfter entry given) }
    {
        if given == 0 || given > 3 {
            return None;
        }
        let last = given - 1;
        let mut numbers = entry;
        numbers[last] = entry[last].checked_add(1)?;
        Some(Prefix::new(numbers, given))
    }

    /// Whether there are four numbers, so that one entry at most begins with them.
    #[inline(always)]
    pub fn is_whole(&self) -> bool
        ensures { result ≡ (length self.now == 4) }
    {
        self.given == 4
    }

    /// Whether `entry` stands before every entry that begins with the prefix.
    #[inline(always)]
    pub fn is_after(&self, entry: &[u32; 4]) -> bool
        ensures { result ≡ is_before entry.now self.now }
    {
        is_less(entry, &self.filled)
    }

    /// Whether `entry` begins with the prefix.
    #[inline(always)]
    pub fn begins(&self, entry: &[u32; 4]) -> bool
        ensures { result ≡ begins self.now entry.now }
    {
        begins(&self.filled[..self.given], entry)
    }

    /// How many entries at the front of a list begin with the prefix.
    pub fn run_len(&self, entries: &[[u32; 4]]) -> usize
        ensures { result ≡ length (run_of self.now entries.now) }
    {
        for i in 0..entries.len() {
            if !self.begins(&entries[i]) {
                return i;
            }
        }
        entries.len()
    }
}
