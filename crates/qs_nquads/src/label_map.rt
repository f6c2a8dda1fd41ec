//! Labels with their numbers, whichever map has them.
//!
//! Labels are in a map with random keys, since strangers choose them, or in std's ordered map where there is no hasher. Both are
//! one enum, so that what reads tokens is proved once; it costs a branch a label. A label that was met before is found without a
//! copy. Contracts see the labels in the order of first appearance.

ghost use Rattle.std.specs.Prelude.{◌≡◌, ◌∷◌, ◌++◌, [], None, OnOk, OnErr, string_bytes};
ghost use Rattle.std.specs.Map.{lookup};
ghost use Rattle.std.specs.Str.{bytes_eq};
ghost use Rattle.qs_nquads.specs.inner.Entries.{AreBelow};
ghost use Rattle.qs_nquads.specs.inner.LabelMap.{numbers_of};

use crate::hashed_labels::HashedLabels;
use crate::ordered_labels::OrderedLabels;
use std::alloc::AllocFailed;

/// Labels with their numbers.
#[derive(Drop)]
pub enum LabelMap {
    /// By the hashes of the labels.
    Hashed(HashedLabels),
    /// In the order of the labels.
    Ordered(OrderedLabels),
}

impl LabelMap {
    /// The number of the label, if it has one.
    pub fn get(&self, label: &str) -> Option<u64>
        ensures { result ≡ lookup (bytes_eq label.now) (numbers_of self.now) }
    {
        match self {
            LabelMap::Hashed(numbers) => numbers.get(label),
            LabelMap::Ordered(numbers) => numbers.get(label),
        }
    }

    /// Puts a new label with a number above all others.
    ///
    /// # Errors
    /// Out of memory, which changes nothing.
    pub fn put(&mut self, label: String, number: u64) -> Result<(), AllocFailed<(String, u64)>>
        requires new { lookup (bytes_eq (string_bytes label)) (numbers_of self.old) ≡ None }
        requires last { AreBelow number (numbers_of self.old) }
        ensures put { OnOk result (numbers_of self.new ≡ numbers_of self.old
            ++ (string_bytes label, number) ∷ []) }
        ensures refused { OnErr result (self.new ≡ self.old) }
    {
        match self {
            LabelMap::Hashed(numbers) => numbers.put(label, number),
            LabelMap::Ordered(numbers) => numbers.put(label, number),
        }
    }
}
