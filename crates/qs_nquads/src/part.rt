//! What tokens say in a statement.

ghost use Rattle.std.specs.Prelude.{◌≡◌, ◌-◌, length};
ghost use Rattle.qs_terms.specs.inner.OrOutOf.{OrOutOf, WithOrOutOfMemory};
ghost use Rattle.qs_nquads.specs.declared.fault.NqFaultKind.TheVariants.{Memory};
ghost use Rattle.qs_lex_escapes.specs.Decoded.{decoded as decoded_text};
ghost use Rattle.qs_lex_escapes.specs.Escape.{uchar};
ghost use Rattle.qs_nquads.specs.Part as spec;
ghost use Rattle.qs_nquads.specs.inner.Part.{iri_part};
ghost use Rattle.qs_nquads.specs.inner.PartAt.{takes_label, label_part, part_of};
ghost use Rattle.qs_nquads.specs.Labels.{Numbering};
ghost use Rattle.qs_terms.specs.Iri.{checked_iri};

use crate::class::Class;
use crate::fault::NqFaultKind;
use crate::labels::Labels;
use crate::statement_state::StatementState;
use qs_lex_escapes::Escapes;
use qs_lex_escapes::decode::decode;
use qs_lex_escapes::piece::piece;
use qs_terms::{Iri, IriCache, TermFault, Text};
use std::alloc::Global;

/// A part of a statement.
#[derive(Drop)]
pub enum Part {
    /// An IRI.
    Iri(Iri),
    /// A blank node.
    Blank(u64),
    /// The form of a literal.
    Form(Text),
    /// A language tag, without its `@`.
    Tag(Text),
    /// `^^`
    Carets,
    /// `.`
    Dot,
    /// The end of a line.
    LineEnd,
}

fn inside(token: &str) -> &str
    ensures { result.now ≡ spec.inside token.now }
{
    piece(token, 1, token.len().saturating_sub(1))
}

fn behind(token: &str, front: usize) -> &str
    ensures { result.now ≡ Rattle.qs_nquads.specs.inner.Part.behind token.now front }
{
    piece(token, front, token.len())
}

fn takes_label(place: &StatementState) -> bool
    ensures { result ≡ takes_label place.now }
{
    match place {
        StatementState::Start => true,
        StatementState::Subject(_) => false,
        StatementState::Predicate(_, _) => true,
        StatementState::Form(_, _, _) => true,
        StatementState::Typed(_, _, _) => false,
        StatementState::Object(_, _, _) => true,
        StatementState::Label(_, _, _, _) => false,
        StatementState::Done => false,
    }
}

fn blank(
    alloc: Global,
    place: &StatementState,
    labels: &mut Labels,
    label: &str,
) -> Result<Part, NqFaultKind>
    ensures { WithOrOutOfMemory Memory (label_part labels.old (takes_label place.now) label.now)
        result labels.new }
{
    if !takes_label(place) {
        return Err(NqFaultKind::Shape);
    }
    let number = labels.number(alloc, label)?;
    Ok(Part::Blank(number))
}

// The IRI of a text that wasn't read not long ago, which is noted.
fn new_iri(alloc: Global, recent: &mut IriCache, text: &str) -> Result<Part, NqFaultKind>
    ensures { (n : Numbering)
        → WithOrOutOfMemory Memory (iri_part n (checked_iri (decoded_text uchar text.now))) result
        n }
{
    let text = decode(alloc, text, Escapes::Codepoints)?;
    match Iri::new(alloc, text) {
        Ok(iri) => {
            recent.note("", iri.text(), &iri)?;
            Ok(Part::Iri(iri))
        }
        Err(TermFault::Memory) => Err(NqFaultKind::Memory),
        Err(_) => Err(NqFaultKind::Iri),
    }
}

// The IRI of a text, which is neither checked nor copied where it was read not long ago.
#[tactic(auto, using(crate::proofs::WrittenTokens::iri_again))]
fn iri(alloc: Global, recent: &mut IriCache, text: &str) -> Result<Part, NqFaultKind>
    ensures { (n : Numbering)
        → WithOrOutOfMemory Memory (iri_part n (checked_iri (decoded_text uchar text.now))) result
        n }
{
    match recent.iri("", text)? {
        Some(known) => Ok(Part::Iri(known)),
        None => new_iri(alloc, recent, text),
    }
}

/// What the front of a class, of these bytes, says at a place of a statement.
///
/// # Errors
/// The fault of a front that is no token, of a relative IRI, or of a label that has no place or no number; and running out of memory.
pub fn part_of(
    alloc: Global,
    place: &StatementState,
    labels: &mut Labels,
    recent: &mut IriCache,
    class: Class,
    token: &str,
) -> Result<Part, NqFaultKind>
    ensures { WithOrOutOfMemory Memory (part_of place.now labels.old class token.now) result
        labels.new }
{
    match class {
        Class::Iri => iri(alloc, recent, inside(token)),
        Class::String => {
            let form = decode(alloc, inside(token), Escapes::Strings)?;
            Ok(Part::Form(form))
        }
        Class::Tag => {
            let tag = Text::new(alloc, behind(token, 1))?;
            Ok(Part::Tag(tag))
        }
        Class::Label => blank(alloc, place, labels, behind(token, 2)),
        Class::Carets => Ok(Part::Carets),
        Class::Dot => Ok(Part::Dot),
        Class::LineEnd => Ok(Part::LineEnd),
        Class::Open => Err(NqFaultKind::Token),
        Class::Broken => Err(NqFaultKind::Escape),
    }
}
