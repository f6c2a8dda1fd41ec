//! Triple patterns by the numbers of their terms.

ghost use Rattle.std.specs.Prelude.{◌≡◌};
ghost use Rattle.qs_ops_scans.specs.inner.Prepared.{number_place, place_of, prepared_triple};

use qs_algebra_patterns::{Slot, TriplePattern};
use qs_store::View;

/// What is in one place of a triple pattern.
#[derive(Clone, Copy)]
pub enum Place {
    /// A term that the dictionary lacks: no triple has it, and no scan is begun.
    Absent,
    /// The term with this number.
    Number(u32),
    Variable(usize),
}

/// A triple pattern by the numbers of its terms (SPARQL 1.1 Query, 18.1.5).
#[derive(Clone, Copy)]
pub struct PreparedTriple {
    pub subject: Place,
    pub predicate: Place,
    pub object: Place,
}

fn number_place(number: Option<u32>) -> Place
    ensures { result ≡ number_place number }
{
    match number {
        Some(number) => Place::Number(number),
        None => Place::Absent,
    }
}

fn place_of<V: View>(view: &V, slot: &Slot) -> Place
    ensures { result ≡ place_of (V.content view.now).known slot.now }
{
    match slot {
        Slot::Term(term) => number_place(view.find(term.get())),
        Slot::Variable(variable) => Place::Variable(*variable),
    }
}

/// The triple pattern by the numbers that the dictionary of the view has for its terms.
pub fn prepare_triple<V: View>(view: &V, pattern: &TriplePattern) -> PreparedTriple
    ensures { result ≡ prepared_triple (V.content view.now).known pattern.now }
{
    PreparedTriple {
        subject: place_of(view, &pattern.subject),
        predicate: place_of(view, &pattern.predicate),
        object: place_of(view, &pattern.object),
    }
}
