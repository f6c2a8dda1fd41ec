//! The quads that entries say.

ghost use Rattle.std.specs.Prelude.{◌≡◌, ◌≤◌, length, IfOk};
ghost use Rattle.std.specs.List.Sorted.{IsSorted};
ghost use Rattle.qs_terms.specs.Bag.{SameBag};
ghost use Rattle.qs_dict.specs.inner.Dict.{IsInUse, term_at};
ghost use Rattle.qs_store.specs.inner.Entries.{said, statement_of, term_or, AreEntries, IsEntryOf};

use qs_dict::Dict;
use qs_terms::{Quad, Term};
use std::alloc::{AllocError, Global};

/// A copy of the term with the number, or none for number 0.
fn name_of(dict: &Dict, number: u32) -> Result<Option<Term>, AllocError>
    requires { number ≤ length dict.now.terms }
    ensures { IfOk result (λ name. name ≡ term_at dict.now.terms number) }
{
    if number == 0 {
        return Ok(None);
    }
    let name = dict.term(number).try_clone()?;
    Ok(Some(name))
}

/// A copy of the term with the number, which is in use.
fn term_of(dict: &Dict, number: u32) -> Result<Term, AllocError>
    requires { IsInUse dict.now.terms number }
    ensures { IfOk result (λ term. term ≡ term_or dict.now.terms number) }
{
    dict.term(number).try_clone()
}

/// The quad that an entry says.
fn quad_of(dict: &Dict, entry: [u32; 4]) -> Result<Quad, AllocError>
    requires { IsEntryOf dict.now.terms entry }
    ensures { IfOk result (λ quad. quad ≡ statement_of dict.now.terms entry) }
{
    let [g, s, p, o] = entry;
    let graph = name_of(dict, g)?;
    let subject = term_of(dict, s)?;
    let predicate = term_of(dict, p)?;
    let object = term_of(dict, o)?;
    Ok(Quad::new(graph, subject, predicate, object))
}

/// The quads that the entries say, in the order of quads.
pub fn quads_of(alloc: Global, dict: &Dict, entries: &[[u32; 4]]) -> Result<Vec<Quad>, AllocError>
    requires { AreEntries dict.now.terms entries.now }
    ensures same { IfOk result (λ quads. SameBag (said dict.now.terms entries.now) quads.items) }
    ensures ascending { IfOk result (λ quads. IsSorted ⟦<Quad as Ord>⟧.cmp quads.items) }
{
    let mut quads = Vec::new(alloc);
    for entry in entries {
        let quad = quad_of(dict, *entry)?;
        quads.push(quad)?;
    }
    quads.sort_unstable();
    Ok(quads)
}
