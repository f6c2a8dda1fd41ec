//! Absolute IRIs.
//!
//! `Iri::text`, `Lit::form` and `Quad::graph` carry the invariant of their type as a clause, so that a caller learns it where it
//! reads. An IRI made of a text costs a second piece of memory, a copy of it none.

ghost use Rattle.std.specs.Prelude.{◌≡◌, ◌↔◌, IfOk, OnOk, MatchResult, IsTrue};
ghost use Rattle.std.specs.List.{list_any};
ghost use Rattle.qs_terms.specs.inner.OrOutOf.{ValueOrOutOfMemory};
ghost use Rattle.qs_terms.specs.declared.fault.TermFault.TheVariants.{Memory};
ghost use Rattle.qs_terms.specs.Iri.{is_scheme_char, reaches_colon, has_scheme, is_excluded, checked_iri};
ghost use Rattle.qs_terms.specs.inner.Iri.{is_iri_text};

use crate::fault::TermFault;
use crate::text::Text;
use qs_base::Shared;
use std::alloc::{AllocError, Global};
use std::marker::Model;

/// An absolute IRI: a scheme, a colon, and no character that IRIs exclude (RDF 1.1 Concepts, 3.2).
/// A copy has its text in common with it.
#[derive(Debug, Drop, PartialEq, Eq, PartialOrd, Ord, Hash)]
pub struct Iri {
    text: Shared<Text>,
}

impl Model for Iri {
    ghost use Rattle.std.specs.Prelude.{List, ℕ, IsTrue};
    ghost use Rattle.qs_terms.specs.inner.Iri.{is_iri_text};

    ghost Value = { List ℕ };

    ghost view = { λ i. i.text };

    ghost invariant = { λ i. IsTrue (is_iri_text i.text) };

    ghost inverse = { λ bytes. record { text = bytes } };
}

fn is_scheme_char(byte: u8) -> bool
    ensures { result ≡ Rattle.qs_terms.specs.Iri.is_scheme_char byte }
{
    byte.is_ascii_alphanumeric() || byte == b'+' || byte == b'-' || byte == b'.'
}

fn reaches_colon(bytes: &[u8]) -> bool
    ensures { result ≡ Rattle.qs_terms.specs.Iri.reaches_colon bytes.now }
{
    for &byte in bytes {
        if byte == b':' {
            return true;
        }
        if !is_scheme_char(byte) {
            return false;
        }
    }
    false
}

fn has_scheme(bytes: &[u8]) -> bool
    ensures { result ≡ Rattle.qs_terms.specs.Iri.has_scheme bytes.now }
{
    let Some((first, rest)) = bytes.split_first() else {
        return false;
    };
    first.is_ascii_alphabetic() && reaches_colon(rest)
}

fn is_excluded(byte: u8) -> bool
    ensures { result ≡ Rattle.qs_terms.specs.Iri.is_excluded byte }
{
    byte <= b' '
        || byte == b'"'
        || byte == b'<'
        || byte == b'>'
        || byte == b'\\'
        || byte == b'^'
        || byte == b'`'
        || byte == b'{'
        || byte == b'|'
        || byte == b'}'
}

fn has_excluded(bytes: &[u8]) -> bool
    ensures { result ≡ list_any Rattle.qs_terms.specs.Iri.is_excluded bytes.now }
{
    bytes.iter().any(|byte| is_excluded(*byte))
}

// Tells what is wrong with the bytes as an IRI, if anything is.
fn check(bytes: &[u8]) -> Result<(), TermFault>
    ensures answer { MatchResult result (λ _. checked_iri bytes.now ≡ Ok bytes.now)
        (λ f. checked_iri bytes.now ≡ Err f) }
    ensures lawful { OnOk result (IsTrue (is_iri_text bytes.now)) }
{
    if !has_scheme(bytes) {
        return Err(TermFault::NotAbsolute);
    }
    if has_excluded(bytes) {
        return Err(TermFault::BadChar);
    }
    Ok(())
}

// As `check`, where the bytes may begin with an IRI: then only what stands after it is looked through.
#[tactic(auto, using(crate::proofs::Behind::behind_scheme, crate::proofs::Behind::behind_excluded))]
fn check_behind(front: &Iri, bytes: &[u8]) -> Result<(), TermFault>
    ensures answer { MatchResult result (λ _. checked_iri bytes.now ≡ Ok bytes.now)
        (λ f. checked_iri bytes.now ≡ Err f) }
    ensures lawful { OnOk result (IsTrue (is_iri_text bytes.now)) }
{
    let Some(rest) = bytes.strip_prefix(front.text().as_bytes()) else {
        return check(bytes);
    };
    if has_excluded(rest) {
        return Err(TermFault::BadChar);
    }
    Ok(())
}

impl Iri {
    /// The IRI of a text. A missing scheme is told before an excluded character; neither takes memory.
    pub fn new(alloc: Global, text: Text) -> Result<Iri, TermFault>
        ensures { ValueOrOutOfMemory Memory (checked_iri text) result }
    {
        check(text.as_str().as_bytes())?;
        let text = Shared::new(alloc, text)?;
        Ok(Iri { text })
    }

    /// The IRI of a text, as by `new`. Where the text begins with the given IRI, as that of a prefixed name does, only what stands
    /// after is looked through.
    pub fn behind(alloc: Global, front: &Iri, text: Text) -> Result<Iri, TermFault>
        ensures { ValueOrOutOfMemory Memory (checked_iri text) result }
    {
        check_behind(front, text.as_str().as_bytes())?;
        let text = Shared::new(alloc, text)?;
        Ok(Iri { text })
    }

    /// The IRI of a copy of the text. A refusal of the text takes no memory.
    pub fn parse(alloc: Global, text: &str) -> Result<Iri, TermFault>
        ensures { ValueOrOutOfMemory Memory (checked_iri text.now) result }
    {
        check(text.as_bytes())?;
        let text = Text::new(alloc, text)?;
        let text = Shared::new(alloc, text)?;
        Ok(Iri { text })
    }

    /// The IRI's text.
    pub fn text(&self) -> &str
        ensures text { result.now ≡ self.now }
        ensures lawful { IsTrue (is_iri_text self.now) }
    {
        self.text.get().as_str()
    }

    /// Whether both are the same IRI: character by character (RDF 1.1 Concepts, 3.2).
    pub fn is_same(&self, other: &Iri) -> bool
        ensures { IsTrue result ↔ (self.now ≡ other.now) }
    {
        self == other
    }

    /// The IRI once more. It takes no memory.
    pub fn try_clone(&self) -> Result<Iri, AllocError>
        ensures { IfOk result (λ i. i ≡ self.now) }
    {
        let text = self.text.share()?;
        Ok(Iri { text })
    }
}
