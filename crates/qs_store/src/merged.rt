//! The entries of a draft.

ghost use Rattle.std.specs.Prelude.{◌≡◌, None, Some};
ghost use Rattle.std.specs.Iterator.{YieldsFirst};
ghost use Rattle.qs_index.specs.inner.Entry.{is_before};
ghost use Rattle.qs_index.specs.inner.Permutation.{turned};
ghost use Rattle.qs_store.specs.inner.Scans.{without, merged};

use crate::kept::Kept;
use qs_index::Scan;
use qs_index::permutation::Permutation;
use qs_index::prefix::Prefix;
use std::marker::Model;

/// Whether an entry comes before another one in an order.
#[inline(always)]
fn is_before(order: Permutation, entry: [u32; 4], other: [u32; 4]) -> bool
    ensures { result ≡ is_before (turned order entry) (turned order other) }
{
    let other = Prefix::new(order.turn(other), 4);
    other.is_after(&order.turn(entry))
}

/// The entries of a draft in an order: those of the store that aren't removed, and those that are added.
#[derive(Drop)]
pub struct Merged<'a> {
    order: Permutation,
    kept: Kept<'a>,
    next_kept: Option<[u32; 4]>,
    added: Scan<'a>,
    next_added: Option<[u32; 4]>,
}

impl<'a> Model for Merged<'a> {
    ghost use Rattle.std.specs.Prelude.{ℕ, List};
    ghost use Rattle.qs_index.specs.inner.Permutation.{turned};
    ghost use Rattle.qs_store.specs.inner.Scans.{led, merged};

    ghost Value = { List (List ℕ) };

    ghost view = { λ m. merged (turned m.order) (led m.next_kept m.kept) (led m.next_added m.added.rest) };
}

impl<'a> Merged<'a> {
    /// The entries of a store's scan without those of `removed` and with those of `added`, all of which have this order.
    pub fn new(
        order: Permutation,
        entries: Scan<'a>,
        removed: Scan<'a>,
        added: Scan<'a>,
    ) -> Merged<'a>
        ensures { result ≡ merged (turned order) (without entries.entry.rest removed.entry.rest)
            added.entry.rest }
    {
        let mut kept = Kept::new(entries, removed);
        let next_kept = kept.next();
        let mut added = added;
        let next_added = added.next();
        Merged {
            order,
            kept,
            next_kept,
            added,
            next_added,
        }
    }

    /// The next entry.
    #[inline(always)]
    pub fn next(&mut self) -> Option<[u32; 4]>
        ensures { YieldsFirst (λ rest. rest) self.old result self.new }
    {
        let Some(kept) = self.next_kept else {
            let added = self.next_added?;
            self.next_added = self.added.next();
            return Some(added);
        };
        if let Some(added) = self.next_added {
            if !is_before(self.order, kept, added) {
                self.next_added = self.added.next();
                return Some(added);
            }
        }
        self.next_kept = self.kept.next();
        Some(kept)
    }
}
