//! Labels with their numbers, in the order of the labels.

ghost use Rattle.std.specs.Prelude.{◌≡◌, ◌∷◌, ◌++◌, [], None, OnOk, OnErr, string_bytes};
ghost use Rattle.std.specs.Map.{lookup};
ghost use Rattle.std.specs.Str.{bytes_eq};
ghost use Rattle.qs_nquads.specs.inner.Entries.{AreBelow};

use std::alloc::{AllocFailed, Global};
use std::collections::BTreeMap;
use std::marker::Model;

/// Labels with their numbers, in an ordered map, which needs no hasher. Contracts see them in the order of their numbers.
#[derive(Drop)]
pub struct OrderedLabels {
    map: BTreeMap<String, u64>,
}

impl Model for OrderedLabels {
    ghost use Rattle.std.specs.Prelude.{ℕ, List, string_bytes};
    ghost use Rattle.std.specs.BTreeMap.{get_by_text};
    ghost use Rattle.qs_nquads.specs.inner.Entries.{seen, by_number, FindsAmong};

    ghost Value = { List (List ℕ × ℕ) };

    ghost view = { λ n. by_number (seen string_bytes n.map.entries) };

    ghost invariant = { λ n. FindsAmong (get_by_text n.map) (by_number (seen string_bytes n.map.entries)) };
}

impl OrderedLabels {
    /// No labels. Takes no memory.
    pub fn new(alloc: Global) -> OrderedLabels
        ensures { result ≡ [] }
    {
        OrderedLabels {
            map: BTreeMap::new(alloc),
        }
    }

    /// The number of the label, if it has one.
    pub fn get(&self, label: &str) -> Option<u64>
        ensures { result ≡ lookup (bytes_eq label.now) self.now }
    {
        self.map.get(label).copied()
    }

    /// Puts a new label with a number above all others.
    ///
    /// # Errors
    /// Out of memory, which changes nothing.
    pub fn put(&mut self, label: String, number: u64) -> Result<(), AllocFailed<(String, u64)>>
        requires new { lookup (bytes_eq (string_bytes label)) self.old ≡ None }
        requires last { AreBelow number self.old }
        ensures put { OnOk result (self.new ≡ self.old ++ (string_bytes label, number) ∷ []) }
        ensures refused { OnErr result (self.new ≡ self.old) }
    {
        self.map.insert(label, number)?;
        Ok(())
    }
}
