//! Property paths (SPARQL 1.1 Query, 9).

ghost use Rattle.std.specs.Prelude.{◌≡◌, IfOk};

use qs_syntax_tree::path::Repetition;
use qs_terms::Iri;
use sqlite_items::{Boxed, Items};
use std::alloc::{AllocError, Global};

/// A member of a negated property set.
#[derive(Drop)]
pub struct NegatedIri {
    /// Whether `^` stands before it.
    pub inverse: bool,
    pub iri: Iri,
}

#[derive(Drop)]
pub enum Path {
    Iri(Iri),
    /// `!`
    NegatedSet(Items<NegatedIri>),
    /// `|`, of two or more
    Alternative(Items<Path>),
    /// `/`, of two or more
    Sequence(Items<Path>),
    /// `^`
    Inverse(Boxed<Path>),
    Repeated(Boxed<Path>, Repetition),
}

impl Path {
    /// An equal path of its own.
    ///
    /// # Errors
    ///
    /// `AllocError` if memory runs out.
    pub fn copy(&self, alloc: Global) -> Result<Path, AllocError>
        ensures { IfOk result (λ copy. copy ≡ self.now) }
    {
        copied(alloc, self)
    }
}

fn copied_members(alloc: Global, members: &[NegatedIri]) -> Result<Items<NegatedIri>, AllocError>
    ensures { IfOk result (λ copies. copies ≡ members.now) }
{
    let mut copies = Items::new(alloc);
    for member in members {
        let iri = member.iri.try_clone()?;
        copies.push(NegatedIri {
            inverse: member.inverse,
            iri,
        })?;
    }
    Ok(copies)
}

#[cycle(path)]
fn copied(alloc: Global, path: &Path) -> Result<Path, AllocError>
    ensures { IfOk result (λ copy. copy ≡ path.now) }
{
    match path {
        Path::Iri(iri) => Ok(Path::Iri(iri.try_clone()?)),
        Path::NegatedSet(members) => {
            let members = copied_members(alloc, members.as_slice())?;
            Ok(Path::NegatedSet(members))
        }
        Path::Alternative(parts) => {
            let parts = copied_parts(alloc, parts.as_slice())?;
            Ok(Path::Alternative(parts))
        }
        Path::Sequence(parts) => {
            let parts = copied_parts(alloc, parts.as_slice())?;
            Ok(Path::Sequence(parts))
        }
        Path::Inverse(inner) => {
            let inner = boxed(alloc, inner.get())?;
            Ok(Path::Inverse(inner))
        }
        Path::Repeated(inner, repetition) => {
            let inner = boxed(alloc, inner.get())?;
            Ok(Path::Repeated(inner, *repetition))
        }
    }
}

#[cycle(path)]
fn boxed(alloc: Global, path: &Path) -> Result<Boxed<Path>, AllocError>
    ensures { IfOk result (λ copy. copy ≡ path.now) }
{
    let copy = copied(alloc, path)?;
    Boxed::new(alloc, copy)
}

#[cycle(path)]
fn copied_parts(alloc: Global, parts: &[Path]) -> Result<Items<Path>, AllocError>
    ensures { IfOk result (λ copies. copies ≡ parts.now) }
{
    let mut copies = Items::new(alloc);
    for part in parts {
        let copy = copied(alloc, part)?;
        copies.push(copy)?;
    }
    Ok(copies)
}
