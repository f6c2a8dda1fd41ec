//! The numbers of the IRIs of a path, which are looked up once for all its scans.

ghost use Rattle.std.specs.Prelude.{◌≡◌, Some, IfOk, IfSome, IsTrue};
ghost use Rattle.qs_terms.specs.declared.term.Term.TheVariants as term_is;
ghost use Rattle.qs_dict.specs.inner.Dict.{number_of};

use qs_store::View;
use qs_syntax_ast::path::{NegatedIri, Path};
use qs_terms::{Iri, Term};
use std::alloc::AllocError;

/// How many numbers are kept. An IRI of a path that has more of them is looked up for each scan: so a search among these stays short.
const KEPT: usize = 8;

/// The number of the IRI, where the view knows it, by its hash.
fn looked_up<V: View>(view: &V, iri: &Iri) -> Result<Option<u32>, AllocError>
    ensures { IfOk result (λ o. o ≡ number_of (V.content view.now).known (term_is.Iri iri.now)) }
{
    let term = Term::Iri(iri.try_clone()?);
    let number = view.find(&term);
    drop(term);
    Ok(number)
}

/// Whether the number is that of the IRI.
fn is_of<V: View>(view: &V, number: u32, iri: &Iri) -> bool
    ensures { IsTrue result → number_of (V.content view.now).known (term_is.Iri iri.now)
        ≡ Some number }
{
    let _count = view.count();
    if number == 0 || number > view.terms() {
        return false;
    }
    match view.term(number) {
        Term::Iri(own) => own.is_same(iri),
        _ => false,
    }
}

/// The number of the IRI, where it is among these. It is compared with the terms of the numbers, so these need no invariant.
fn number_among<V: View>(view: &V, kept: &[u32], iri: &Iri) -> Option<u32>
    ensures { IfSome result (λ n. number_of (V.content view.now).known (term_is.Iri iri.now)
        ≡ Some n) }
{
    for number in kept {
        if is_of(view, *number, iri) {
            return Some(*number);
        }
    }
    None
}

/// The number of the IRI, where the view knows it. Where it is among those that are kept, nothing is hashed.
pub fn number_of_iri<V: View>(view: &V, kept: &[u32], iri: &Iri) -> Result<Option<u32>, AllocError>
    ensures { IfOk result (λ o. o ≡ number_of (V.content view.now).known (term_is.Iri iri.now)) }
{
    match number_among(view, kept, iri) {
        Some(number) => Ok(Some(number)),
        None => looked_up(view, iri),
    }
}

/// Numbers of IRIs of a path that may be asked for again. They save time alone: any numbers would do.
#[derive(Drop)]
pub struct Kept {
    numbers: [u32; KEPT],
    count: usize,
}

impl Kept {
    /// The numbers that are kept.
    pub fn as_slice(&self) -> &[u32] {
        match self.numbers.get(..self.count) {
            Some(numbers) => numbers,
            None => &[],
        }
    }

    /// Keeps the number, where there is room.
    fn put(&mut self, number: u32) {
        if let Some(place) = self.numbers.get_mut(self.count) {
            *place = number;
            self.count += 1;
        }
    }
}

/// Keeps the number of the IRI, where it is known, and there is room.
fn keep_iri<V: View>(view: &V, iri: &Iri, kept: &mut Kept) {
    if kept.count >= KEPT {
        return;
    }
    if number_among(view, kept.as_slice(), iri).is_some() {
        return;
    }
    if let Ok(Some(number)) = looked_up(view, iri) {
        kept.put(number);
    }
}

fn keep_members<V: View>(view: &V, members: &[NegatedIri], kept: &mut Kept) {
    for member in members {
        keep_iri(view, &member.iri, kept);
    }
}

#[cycle(iris)]
fn keep_parts<V: View>(view: &V, parts: &[Path], kept: &mut Kept) {
    for part in parts {
        keep_path(view, part, kept);
    }
}

/// Keeps the numbers of the IRIs of the path, as far as there is room.
#[cycle(iris)]
fn keep_path<V: View>(view: &V, path: &Path, kept: &mut Kept) {
    match path {
        Path::Iri(iri) => keep_iri(view, iri, kept),
        Path::NegatedSet(members) => keep_members(view, members.as_slice(), kept),
        Path::Alternative(parts) => keep_parts(view, parts.as_slice(), kept),
        Path::Sequence(parts) => keep_parts(view, parts.as_slice(), kept),
        Path::Inverse(inner) => keep_path(view, inner.get(), kept),
        Path::Repeated(inner, _) => keep_path(view, inner.get(), kept),
    }
}

/// The numbers that are kept of the path: none where it is one IRI or a negated set. It takes no memory.
pub fn kept_numbers<V: View>(view: &V, path: &Path) -> Kept {
    let mut kept = Kept {
        numbers: [0; KEPT],
        count: 0,
    };
    match path {
        Path::Iri(_) => {}
        Path::NegatedSet(_) => {}
        _ => keep_path(view, path, &mut kept),
    }
    kept
}
