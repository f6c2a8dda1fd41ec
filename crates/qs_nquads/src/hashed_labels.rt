//! Labels with their numbers, by the hashes of the labels.

ghost use Rattle.std.specs.Prelude.{◌≡◌, ◌∷◌, ◌++◌, [], None, OnOk, OnErr, string_bytes};
ghost use Rattle.std.specs.Map.{lookup};
ghost use Rattle.std.specs.Str.{bytes_eq};

use indexmap::IndexMap;
use std::alloc::{AllocFailed, Global};
use std::hash::RandomState;
use std::marker::Model;

/// Labels with their numbers, in the order in which they were put. Labels are hashed.
#[derive(Drop)]
pub struct HashedLabels {
    map: IndexMap<String, u64, RandomState>,
}

impl Model for HashedLabels {
    ghost use Rattle.std.specs.Prelude.{ℕ, List, string_bytes};
    ghost use Rattle.qs_nquads.specs.inner.Entries.{seen};

    ghost Value = { List (List ℕ × ℕ) };

    ghost view = { λ n. seen string_bytes n.map.entries };
}

impl HashedLabels {
    /// No labels. Takes no memory.
    pub fn new(alloc: Global, hasher: RandomState) -> HashedLabels
        ensures { result ≡ [] }
    {
        HashedLabels {
            map: IndexMap::with_hasher(alloc, hasher),
        }
    }

    /// The number of the label, if it has one.
    pub fn get(&self, label: &str) -> Option<u64>
        ensures { result ≡ lookup (bytes_eq label.now) self.now }
    {
        self.map.get(label).copied()
    }

    /// Puts a new label last, with a number.
    ///
    /// # Errors
    /// Out of memory, which changes nothing.
    pub fn put(&mut self, label: String, number: u64) -> Result<(), AllocFailed<(String, u64)>>
        requires { lookup (bytes_eq (string_bytes label)) self.old ≡ None }
        ensures put { OnOk result (self.new ≡ self.old ++ (string_bytes label, number) ∷ []) }
        ensures refused { OnErr result (self.new ≡ self.old) }
    {
        self.map.insert(label, number)?;
        Ok(())
    }
}
