//! Numbers of terms that were asked for not long ago.
//!
//! The last number of each of 64 slots is a hint that no contract sees. A term that has it isn't hashed. Literals take no slot,
//! as they are seldom repeated.

ghost use Rattle.std.specs.Prelude.{◌<◌, IfSome};

use qs_terms::Term;

const SLOTS: usize = 64;

/// For each of some slots the number of a term that was asked for there last, or 0. A number is a hint, and whoever takes one looks
/// whether the term has it: statements that stand side by side often have their subject, their graph or one of few predicates in common.
#[derive(Drop)]
pub(crate) struct NumberCache {
    numbers: [u32; SLOTS],
}

// A slot by the end and the length of a text.
fn slot_of_text(text: &str) -> Option<usize>
    ensures { IfSome result (λ slot. slot < 64) }
{
    let bytes = text.as_bytes();
    let (last, front) = bytes.split_last()?;
    let (before, _) = front.split_last()?;
    let end = usize::from(*last) + 7 * usize::from(*before);
    Some((end + bytes.len() % SLOTS) % SLOTS)
}

// The slot of a term. Literals have none: they are seldom repeated, and would take the slots of what is.
fn slot(term: &Term) -> Option<usize>
    ensures { IfSome result (λ slot. slot < 64) }
{
    match term {
        Term::Iri(iri) => slot_of_text(iri.text()),
        Term::Blank(number) => Some((*number % 64) as usize),
        Term::Literal(_) => None,
    }
}

impl NumberCache {
    /// No term was asked for.
    pub(crate) fn new() -> NumberCache {
        NumberCache {
            numbers: [0; SLOTS],
        }
    }

    /// What may be the number of the term.
    pub(crate) fn number(&self, term: &Term) -> u32 {
        match slot(term) {
            Some(slot) => self.numbers[slot],
            None => 0,
        }
    }

    /// Notes the number of a term.
    pub(crate) fn note(&mut self, term: &Term, number: u32) {
        if let Some(slot) = slot(term) {
            self.numbers[slot] = number;
        }
    }
}
