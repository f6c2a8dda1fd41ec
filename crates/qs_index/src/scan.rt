//! A scan of the index.
ghost use Rattle.std.specs.Prelude.{◌≡◌, ◌+◌, ◌≤◌, length, map};
ghost use Rattle.std.specs.Iterator.{item_count};
ghost use Rattle.qs_index.specs.inner.Permutation.{restored};
ghost use Rattle.qs_index.specs.inner.Scan.{ScanState, NextOfScan, most_looks};
ghost use Rattle.qs_index.specs.inner.Skipped.{SkipsAgreeing};

use crate::depth::{agrees, depth};
use crate::order_scan::OrderScan;
use crate::pages::PagePosition;
use crate::permutation::Permutation;
use crate::prefix::Prefix;
use std::marker::Model;

/// The entries of an index that agree with the places that are given, ascending in the order used, each once. It takes no memory.
#[derive(Drop)]
pub struct Scan<'a> {
    inner: OrderScan<'a>,
    permutation: Permutation,
}

impl<'a> Model for Scan<'a> {
    ghost Value = { ScanState };

    ghost view = { λ s. record s.inner { rest = map (restored s.permutation) s.inner.rest } };
}

impl<'a> Scan<'a> {
    pub(crate) fn new(inner: OrderScan<'a>, permutation: Permutation) -> Scan<'a>
        ensures { result
            ≡ record inner.entry { rest = map (restored permutation) inner.entry.rest } }
    {
        Scan { inner, permutation }
    }

    /// The place of the entry that is looked at next. At the end it is where the scan stood last, or where its search was told to begin. A
    /// later scan of the same order whose entries begin near after it finds the first of them from there with few looks.
    pub fn place(&self) -> PagePosition {
        self.inner.place()
    }

    /// Skips entries that come next and have the subject, predicate and object that are given, by one search. Where these places are in
    /// front in the order, all such entries are skipped; elsewhere those that begin as the next one does, up to the last given place. None
    /// is skipped where the last given place is the fourth of the order, where the number there is the greatest `u32`, or, over all named
    /// graphs, where no place is given.
    pub fn skip_agreeing(
        &mut self,
        subject: Option<u32>,
        predicate: Option<u32>,
        object: Option<u32>,
    )
        ensures skipped { SkipsAgreeing subject predicate object self.old.rest self.new.rest }
        ensures handed { self.new.handed ≡ self.old.handed }
        ensures skips { self.new.skips ≤ self.old.skips + 1 }
        ensures counted { self.new.skips + length self.new.rest ≤ self.old.skips
            + length self.old.rest }
        ensures size { self.new.size ≡ self.old.size }
        ensures rises { self.old.looked ≤ self.new.looked }
    {
        let Some(next) = self.inner.peek() else {
            return;
        };
        if !agrees(self.permutation.restore(next), subject, predicate, object) {
            return;
        }
        let front = depth(self.permutation, subject, predicate, object);
        let Some(to) = Prefix::after(next, front) else {
            return;
        };
        self.inner.seek(&to);
    }

    /// How many entries were looked at since the scan began: compared or handed out. At every moment they are at least those handed out.
    /// They are at most these, and two for each binary digit of the number of entries, and two. Each call of `skip_agreeing` that skipped
    /// some may add two for each digit, and one.
    pub fn looked(&self) -> u128
        ensures count { result ≡ self.now.looked }
        ensures enough { self.now.handed ≤ result }
        ensures few { result ≤ most_looks self.now.handed self.now.skips self.now.size }
    {
        self.inner.looked()
    }
}

impl<'a> Iterator for Scan<'a> {
    type Item = [u32; 4];

    ghost next_gives = { NextOfScan };

    ghost remaining = { item_count (λ s. s.rest) };

    #[inline(always)]
    fn next(&mut self) -> Option<[u32; 4]> {
        let entry = self.inner.next()?;
        Some(self.permutation.restore(entry))
    }
}
