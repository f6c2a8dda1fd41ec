//! The entries of a scan that aren't removed.

ghost use Rattle.std.specs.Prelude.{◌≡◌, None, Some};
ghost use Rattle.std.specs.Iterator.{YieldsFirst};
ghost use Rattle.qs_store.specs.inner.Scans.{without, is_last};

use qs_index::Scan;
use std::marker::Model;

/// Whether the entry is the other one, if there is one.
#[inline(always)]
fn is_entry(other: &Option<[u32; 4]>, entry: &[u32; 4]) -> bool
    ensures { result ≡ is_last other.now entry.now }
{
    match other {
        None => false,
        Some(other) => *other == *entry,
    }
}

/// The entries of a scan without those of another scan of the same order, each of which is among them.
#[derive(Drop)]
pub struct Kept<'a> {
    entries: Scan<'a>,
    removed: Scan<'a>,
    // The first entry of `removed` that hasn't been met.
    next_removed: Option<[u32; 4]>,
}

impl<'a> Model for Kept<'a> {
    ghost use Rattle.std.specs.Prelude.{ℕ, List};
    ghost use Rattle.qs_store.specs.inner.Scans.{led, without};

    ghost Value = { List (List ℕ) };

    ghost view = { λ k. without k.entries.rest (led k.next_removed k.removed.rest) };
}

impl<'a> Kept<'a> {
    pub fn new(entries: Scan<'a>, removed: Scan<'a>) -> Kept<'a>
        ensures { result ≡ without entries.entry.rest removed.entry.rest }
    {
        let mut removed = removed;
        let next_removed = removed.next();
        Kept {
            entries,
            removed,
            next_removed,
        }
    }

    /// The next entry.
    #[inline(always)]
    pub fn next(&mut self) -> Option<[u32; 4]>
        ensures { YieldsFirst (λ rest. rest) self.old result self.new }
    {
        'entries: while let Some(entry) = self.entries.next() {
            if !is_entry(&self.next_removed, &entry) {
                return Some(entry);
            }
            self.next_removed = self.removed.next();
        }
        None
    }
}
