//! IRIs as they are written.

ghost use Rattle.std.specs.Prelude.{◌≡◌, Some, Ok};
ghost use Rattle.std.specs.List.{before_first, after_first};
ghost use Rattle.qs_terms.specs.Iri.{checked_iri};
ghost use Rattle.qs_terms.specs.inner.Outcome.{OrOutOfMemory};
ghost use Rattle.qs_lex_escapes.specs.Decoded.{decoded as decoded_text};
ghost use Rattle.qs_lex_escapes.specs.Escape.{uchar};
ghost use Rattle.qs_syntax_resolve.specs.Names.{full};
ghost use Rattle.qs_syntax_resolve.specs.inner.Names as inner;
ghost use Rattle.qs_syntax_resolve.specs.inner.Names.{is_colon};

use crate::piece::inside;
use qs_lex_escapes::Escapes;
use qs_lex_escapes::decode::{decode, join};
use qs_syntax_tree::token::Span;
use qs_terms::{Iri, IriCache, QFault, TermFault, Text};
use std::alloc::Global;

const RDF_TYPE: &str = "http://www.w3.org/1999/02/22-rdf-syntax-ns#type";

/// The IRI of the text.
pub(crate) fn absolute(alloc: Global, place: usize, text: Text) -> Result<Iri, QFault>
    ensures { OrOutOfMemory (inner.absolute place (checked_iri text))
        result }
{
    match Iri::new(alloc, text) {
        Ok(iri) => Ok(iri),
        Err(TermFault::Memory) => Err(QFault::Memory),
        Err(_) => Err(QFault::RelativeIri { place }),
    }
}

// The IRI of a text that begins with an IRI, or a fault at that place.
fn absolute_behind(alloc: Global, place: usize, front: &Iri, text: Text) -> Result<Iri, QFault>
    ensures { OrOutOfMemory (inner.absolute place (checked_iri text))
        result }
{
    match Iri::behind(alloc, front, text) {
        Ok(iri) => Ok(iri),
        Err(TermFault::Memory) => Err(QFault::Memory),
        Err(_) => Err(QFault::RelativeIri { place }),
    }
}

// The IRI that stands between `<` and `>`, which is noted.
fn new_full_iri(
    alloc: Global,
    recent: &mut IriCache,
    place: usize,
    written: &str,
) -> Result<Iri, QFault>
    ensures { OrOutOfMemory (inner.absolute place
        (checked_iri (decoded_text uchar written.now))) result }
{
    let text = decode(alloc, written, Escapes::Codepoints)?;
    let iri = absolute(alloc, place, text)?;
    recent.note("", written, &iri)?;
    Ok(iri)
}

/// The IRI that is written as `<..>`. One that was read not long ago is neither checked nor copied.
#[tactic(auto, using(crate::proofs::Again::full_again), unfolding(crate::specs::Names::full))]
pub(crate) fn full_iri(
    alloc: Global,
    recent: &mut IriCache,
    text: &str,
    span: Span,
) -> Result<Iri, QFault>
    ensures { OrOutOfMemory (full text.now span) result }
{
    let written = inside(text, span, 1);
    match recent.iri("", written)? {
        Some(known) => Ok(known),
        None => new_full_iri(alloc, recent, span.start, written),
    }
}

// The IRI that a prefix denotes, and a local name after it, which is noted.
fn new_expanded(
    alloc: Global,
    recent: &mut IriCache,
    place: usize,
    start: &Iri,
    local: &str,
) -> Result<Iri, QFault>
    ensures { OrOutOfMemory (inner.joined place (Some start.now)
        local.now) result }
{
    let text = join(alloc, start.text(), local)?;
    let iri = absolute_behind(alloc, place, start, text)?;
    recent.note(start.text(), local, &iri)?;
    Ok(iri)
}

/// The IRI that a prefix denotes, and a local name after it. One that was read not long ago is neither joined nor checked.
#[tactic(auto, using(crate::proofs::Again::joined_again))]
pub(crate) fn expanded(
    alloc: Global,
    recent: &mut IriCache,
    place: usize,
    start: &Iri,
    local: &str,
) -> Result<Iri, QFault>
    ensures { OrOutOfMemory (inner.joined place (Some start.now)
        local.now) result }
{
    match recent.iri(start.text(), local)? {
        Some(known) => Ok(known),
        None => new_expanded(alloc, recent, place, start, local),
    }
}

/// The parts before and after the first colon.
pub(crate) fn parted(name: &str) -> (&str, &str)
    ensures prefix { result.0.now ≡ before_first is_colon name.now }
    ensures local { result.1.now ≡ after_first is_colon name.now }
{
    match name.split_once(':') {
        Some(parts) => parts,
        None => (name, ""),
    }
}

// The IRI rdf:type, which is noted.
#[tactic(auto, unfolding(crate::specs::Names::rdf_type))]
fn new_rdf_type(alloc: Global, recent: &mut IriCache) -> Result<Iri, QFault>
    ensures { OrOutOfMemory (Ok Rattle.qs_syntax_resolve.specs.Names.rdf_type) result }
{
    let text = Text::new(alloc, RDF_TYPE)?;
    let iri = absolute(alloc, 0, text)?;
    recent.note("", RDF_TYPE, &iri)?;
    Ok(iri)
}

/// The IRI rdf:type.
#[tactic(auto, unfolding(crate::specs::Names::rdf_type))]
pub(crate) fn rdf_type(alloc: Global, recent: &mut IriCache) -> Result<Iri, QFault>
    ensures { OrOutOfMemory (Ok Rattle.qs_syntax_resolve.specs.Names.rdf_type) result }
{
    match recent.iri("", RDF_TYPE)? {
        Some(known) => Ok(known),
        None => new_rdf_type(alloc, recent),
    }
}
