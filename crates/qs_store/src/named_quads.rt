//! A scan of the quads of all named graphs of a store or of a draft.

ghost use Rattle.std.specs.Prelude.{◌≡◌, []};
ghost use Rattle.std.specs.Iterator.{YieldsFirst, item_count};
ghost use Rattle.qs_store.specs.inner.Layers.{IsDraft, drafted};
ghost use Rattle.qs_store.specs.inner.Scans.{AreNamedQuadsOf};
ghost use Rattle.qs_store.specs.inner.Sources.{entries_left};

use crate::merged::Merged;
use crate::triples::{Source, next_entry};
use qs_index::Index;
use qs_index::permutation::Lookup;
use std::marker::Model;

/// The quads `[graph, subject, predicate, object]` of all named graphs that have the numbers that are given, ascending in the order
/// used, each once. It takes no memory.
#[derive(Drop)]
pub struct NamedQuads<'a> {
    source: Source<'a>,
}

impl<'a> Model for NamedQuads<'a> {
    ghost use Rattle.std.specs.Prelude.{ℕ, List};
    ghost use Rattle.qs_store.specs.inner.Sources.{entries_left};

    ghost Value = { List (List ℕ) };

    ghost view = { λ q. entries_left q.source };
}

impl<'a> NamedQuads<'a> {
    /// No quads.
    pub fn nothing() -> NamedQuads<'a>
        ensures { result ≡ [] }
    {
        NamedQuads {
            source: Source::Nothing,
        }
    }

    /// The quads of an index.
    pub(crate) fn of_store(
        index: &'a Index,
        subject: Option<u32>,
        predicate: Option<u32>,
        object: Option<u32>,
    ) -> NamedQuads<'a>
        ensures { AreNamedQuadsOf subject predicate object index.now.entries result }
    {
        let scan = index.scan_named(subject, predicate, object);
        NamedQuads {
            source: Source::Stored(scan),
        }
    }

    /// The quads of an index without the removed, and with the added.
    pub(crate) fn of_draft(
        index: &'a Index,
        removed: &'a Index,
        added: &'a Index,
        subject: Option<u32>,
        predicate: Option<u32>,
        object: Option<u32>,
    ) -> NamedQuads<'a>
        requires draft { IsDraft index.now.entries removed.now.entries added.now.entries }
        ensures { AreNamedQuadsOf subject predicate object
            (drafted index.now.entries removed.now.entries added.now.entries) result }
    {
        let lookup = Lookup::of_named(subject, predicate, object);
        let entries = Merged::new(
            lookup.permutation,
            index.scan_named(subject, predicate, object),
            removed.scan_named(subject, predicate, object),
            added.scan_named(subject, predicate, object),
        );
        NamedQuads {
            source: Source::Drafted(entries),
        }
    }
}

impl<'a> Iterator for NamedQuads<'a> {
    type Item = [u32; 4];

    ghost next_gives = { YieldsFirst (λ rest. rest) };

    ghost remaining = { item_count (λ rest. rest) };

    #[inline(always)]
    fn next(&mut self) -> Option<[u32; 4]> {
        next_entry(&mut self.source)
    }
}
