//! The declarations of prefixes.
//!
//! They are kept in the order of the text, with an index of the last one of each prefix in std's ordered map. Prefixes are slices of
//! the text: a look-up takes no memory, and a declaration copies no prefix.

ghost use Rattle.std.specs.Prelude.{◌≡◌, ◌∷◌, [], IfOk, OnOk, OnErr, Some, if◌then◌else◌, List, ℕ};
ghost use Rattle.std.specs.Map.{lookup};
ghost use Rattle.std.specs.Option.{option_copied};
ghost use Rattle.std.specs.Str.{bytes_eq};
ghost use Rattle.qs_syntax_resolve.specs.inner.Declarations.{place_of};

use qs_terms::Iri;
use std::alloc::{AllocError, Global};
use std::collections::BTreeMap;
use std::marker::Model;

/// Prefixes with the IRIs that they are declared to denote, the last declaration first.
#[derive(Drop)]
pub struct Declarations<'a> {
    all: Vec<(&'a str, Iri)>,
    last: BTreeMap<&'a str, usize>,
}

impl<'a> Model for Declarations<'a> {
    ghost use Rattle.std.specs.Prelude.{List, ℕ};
    ghost use Rattle.qs_syntax_resolve.specs.inner.Declarations.{last_first, IsIndex};

    ghost Value = { List (List ℕ × List ℕ) };

    ghost view = { λ d. last_first d.all.items };

    ghost invariant = { λ d. IsIndex d.all.items d.last.entries };
}

// The place of the last declaration of the prefix.
fn last_place(index: &BTreeMap<&str, usize>, prefix: &str) -> Option<usize>
    ensures { result ≡ place_of index.now.entries prefix.now }
{
    index.get(prefix).copied()
}

// The last declaration of the prefix has the place from here on.
#[tactic(auto, using(crate::proofs::Declared::put))]
fn put_place<'a>(
    index: &mut BTreeMap<&'a str, usize>,
    prefix: &'a str,
    place: usize,
) -> Result<(), AllocError>
    ensures put { OnOk result ((p : List ℕ) → place_of index.new.entries p
        ≡ (if bytes_eq p prefix.now then Some place else place_of index.old.entries p)) }
    ensures refused { OnErr result (index.new.entries ≡ index.old.entries) }
{
    index.insert(prefix, place)?;
    Ok(())
}

impl<'a> Declarations<'a> {
    /// No declaration. Takes no memory.
    pub fn new(alloc: Global) -> Declarations<'a>
        ensures { result ≡ [] }
    {
        Declarations {
            all: Vec::new(alloc),
            last: BTreeMap::new(alloc),
        }
    }

    /// The IRI that the last declaration of the prefix gives it, if there is one.
    pub fn get(&self, prefix: &str) -> Option<&Iri>
        ensures { option_copied result ≡ lookup (bytes_eq prefix.now) self.now }
    {
        let place = last_place(&self.last, prefix)?;
        let (_prefix, iri) = self.all.get(place)?;
        Some(iri)
    }

    /// The prefix denotes the IRI from here on, whatever it denoted before.
    #[tactic(auto, using(crate::proofs::Declared::index_more, crate::proofs::Declared::last_first_more))]
    pub fn declare(&mut self, prefix: &'a str, iri: Iri) -> Result<(), AllocError>
        ensures declared { OnOk result (self.new ≡ (prefix.now, iri) ∷ self.old) }
        ensures refused { OnErr result (self.new ≡ self.old) }
    {
        let place = self.all.len();
        self.all.push((prefix, iri))?;
        match put_place(&mut self.last, prefix, place) {
            Ok(()) => Ok(()),
            Err(_) => {
                self.all.pop();
                Err(AllocError)
            }
        }
    }
}
