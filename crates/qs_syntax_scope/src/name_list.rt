//! The names that were met so far.
//!
//! Names are kept in order, with an index of the first place and the last of each. To be met before a place, or since, is one
//! look-up, so no set is built for a group and no two sets are merged.

ghost use Rattle.std.specs.Prelude.{◌≡◌, ◌≤◌, [], ◌∷◌, ◌++◌, length, take, drop, Some, OnOk, OnErr};
ghost use Rattle.std.specs.Ordering.{nat_cmp};
ghost use Rattle.std.specs.Cmp.Lexicographic.{slice_cmp};
ghost use Rattle.std.specs.BTreeMap.{get, Updates, IsUnchanged};
ghost use Rattle.qs_syntax_scope.specs.Names.{contains};
ghost use Rattle.qs_syntax_scope.specs.Places.{place_of};
ghost use Rattle.qs_syntax_scope.specs.inner.Places.{first_with};

use crate::key::{Key, key_of};
use crate::name::Name;
use qs_syntax_ast::shared::Shared;
use qs_terms::Text;
use std::alloc::{AllocError, Global};
use std::collections::BTreeMap;
use std::marker::Model;

/// The first place and the last at which a name was met.
#[derive(Clone, Copy)]
struct Places {
    first: usize,
    last: usize,
}

/// Names in the order in which they were met, with an index of their places.
#[derive(Drop)]
pub struct NameList<'a> {
    names: Vec<Name<'a>>,
    index: BTreeMap<Key<'a>, Places>,
}

impl<'a> Model for NameList<'a> {
    ghost use Rattle.std.specs.Prelude.{List, ℕ};
    ghost use Rattle.std.specs.Ordering.{nat_cmp};
    ghost use Rattle.std.specs.Cmp.Lexicographic.{slice_cmp};
    ghost use Rattle.std.specs.BTreeMap.{get};

    ghost Value = { List (List ℕ) };

    ghost use Rattle.qs_syntax_scope.specs.inner.Places.{IsIndex};

    ghost view = { λ s. s.names.items };

    ghost invariant = { λ s. IsIndex s.names.items (get (slice_cmp nat_cmp) s.index) };
}

// The first place of the name, or the one that is given where it has none.
fn first_place<'a>(index: &BTreeMap<Key<'a>, Places>, name: &Key<'a>, last: usize) -> usize
    ensures { result ≡ first_with last (get (slice_cmp nat_cmp) index.now name.now) }
{
    match index.get(name) {
        Some(places) => places.first,
        None => last,
    }
}

// The name stands at the place too: it is its last, and where it has none before also its first.
fn meet<'a>(
    index: &mut BTreeMap<Key<'a>, Places>,
    name: Key<'a>,
    place: usize,
) -> Result<(), AllocError>
    ensures met { OnOk result (Updates (slice_cmp nat_cmp) index.old index.new name.entry
        (Some
        (record {
          first = first_with place (get (slice_cmp nat_cmp) index.old name.entry);
          last = place;
        }))) }
    ensures unmet { OnErr result (IsUnchanged index.old index.new) }
{
    let fresh = Places {
        first: place,
        last: place,
    };
    match index.entry(name) {
        Ok(entry) => {
            let places = entry.or_insert(fresh);
            places.last = place;
            Ok(())
        }
        Err(_) => Err(AllocError),
    }
}

impl<'a> NameList<'a> {
    pub fn new(alloc: Global) -> NameList<'a>
        ensures { result ≡ [] }
    {
        NameList {
            names: Vec::new(alloc),
            index: BTreeMap::new(alloc),
        }
    }

    pub fn len(&self) -> usize
        ensures { result ≡ length self.now }
    {
        self.names.len()
    }

    pub fn as_slice(&self) -> &[Name<'a>]
        ensures { result.now ≡ self.now }
    {
        self.names.as_slice()
    }

    pub fn push(&mut self, name: &'a Shared<Text>) -> Result<(), AllocError>
        ensures { OnOk result (self.new ≡ self.old ++ name.now ∷ []) }
    {
        let place = self.names.len();
        self.names.push(Name::new(name))?;
        match meet(&mut self.index, key_of(name), place) {
            Ok(()) => Ok(()),
            Err(_) => {
                self.names.pop();
                Err(AllocError)
            }
        }
    }

    /// The place at which the name was first met; the count of all where it wasn't.
    pub fn place(&self, name: &'a str) -> usize
        ensures { result ≡ place_of self.now name.now }
    {
        let last = self.names.len();
        first_place(&self.index, &Key::new(name), last)
    }

    /// Whether the name was met.
    #[tactic(auto, using(crate::proofs::FirstsKept::whole))]
    pub fn contains(&self, name: &'a str) -> bool
        ensures { result ≡ Rattle.qs_syntax_scope.specs.Names.contains self.now name.now }
    {
        self.is_before(self.len(), name)
    }

    /// Whether the name was met before the place.
    pub fn is_before(&self, place: usize, name: &'a str) -> bool
        ensures { result ≡ contains (take place self.now) name.now }
    {
        match self.index.get(&Key::new(name)) {
            Some(places) => places.first < place,
            None => false,
        }
    }

    /// Whether the name was met at the place or later.
    pub fn is_from(&self, place: usize, name: &'a str) -> bool
        ensures { result ≡ contains (drop place self.now) name.now }
    {
        match self.index.get(&Key::new(name)) {
            Some(places) => place <= places.last,
            None => false,
        }
    }
}
