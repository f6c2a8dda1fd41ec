//! IRIs that were read not long ago.
//!
//! A reader keeps the last IRI of each of 64 slots and compares a token with it as it is written. A lawful IRI has no backslash,
//! so equal bytes say the IRI, which is neither checked nor copied again. Neighbouring statements share their subject, graph or
//! predicate.

ghost use Rattle.std.specs.Prelude.{◌≡◌, ◌<◌, ◌++◌, true, IfOk, IfSome, IsTrue};
ghost use Rattle.qs_terms.specs.inner.Iri.{is_iri_text};

use crate::iri::Iri;
use std::alloc::{AllocError, Global};

const SLOTS: usize = 64;

/// For each of some slots the IRI that was read there last: statements that stand side by side often have their subject, their graph or
/// one of few predicates in common, and a query names few IRIs with prefixes again and again. Such an IRI is neither checked nor copied
/// again. A text is given as two pieces, of which the first may be empty.
#[derive(Drop)]
pub struct IriCache {
    iris: Vec<Option<Iri>>,
}

// A slot by the end of the second piece and the length of both.
fn slot_of(front: &str, rest: &str) -> usize
    ensures { result < 64 }
{
    let bytes = rest.as_bytes();
    let Some((last, before)) = bytes.split_last() else {
        return 0;
    };
    let before = before.last().copied().unwrap_or(0);
    let end = usize::from(*last) + 7 * usize::from(before);
    (end + bytes.len() % SLOTS + front.len() % SLOTS) % SLOTS
}

// Whether the text is the two pieces.
#[tactic(auto, using(crate::proofs::Behind::joined))]
fn is_joined(text: &[u8], front: &[u8], rest: &[u8]) -> bool
    ensures { result ≡ true → text.now ≡ front.now ++ rest.now }
{
    match text.strip_prefix(front) {
        Some(behind) => behind == rest,
        None => false,
    }
}

impl IriCache {
    /// None was read. Takes no memory.
    pub fn new(alloc: Global) -> IriCache {
        IriCache {
            iris: Vec::new(alloc),
        }
    }

    fn at(&self, front: &str, rest: &str) -> Option<&Iri>
        ensures { IfSome result (λ iri. iri.now ≡ front.now ++ rest.now) }
    {
        let iri = self.iris.get(slot_of(front, rest))?.as_ref()?;
        if is_joined(iri.text().as_bytes(), front.as_bytes(), rest.as_bytes()) {
            Some(iri)
        } else {
            None
        }
    }

    /// The IRI of the text of the two pieces, where it was read not long ago. Takes no memory.
    pub fn iri(&self, front: &str, rest: &str) -> Result<Option<Iri>, AllocError>
        ensures text { IfOk result (λ found. IfSome found (λ iri. iri ≡ front.now ++ rest.now)) }
        ensures lawful { IfOk result (λ found. IfSome found (λ iri. IsTrue (is_iri_text iri))) }
    {
        match self.at(front, rest) {
            Some(iri) => {
                let _lawful = iri.text();
                Ok(Some(iri.try_clone()?))
            }
            None => Ok(None),
        }
    }

    // Has a place for each slot.
    fn open(&mut self) -> Result<(), AllocError> {
        for _ in self.iris.len()..SLOTS {
            self.iris.push(None)?;
        }
        Ok(())
    }

    /// Notes an IRI that was read as the two pieces.
    pub fn note(&mut self, front: &str, rest: &str, iri: &Iri) -> Result<(), AllocError> {
        self.open()?;
        if let Some(slot) = self.iris.get_mut(slot_of(front, rest)) {
            *slot = Some(iri.try_clone()?);
        }
        Ok(())
    }
}
