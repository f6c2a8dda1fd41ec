//! Datasets as lists of quads that are read as sets: what stands in them, by plain loops.

ghost use Rattle.std.specs.Prelude.{◌≡◌, ◌↔◌, List};
ghost use Rattle.qs_terms.specs.Bag.{SameBag};
ghost use Rattle.qs_terms.specs.inner.Bag.{times};
ghost use Rattle.qs_terms.specs.Dataset.{is_term_below, is_statement_below, is_above_blanks};
ghost use Rattle.qs_terms.specs.inner.Dataset.{is_graph_below};
ghost use Rattle.qs_terms.specs.Statement.{Statement, same_statement};

use crate::quad::Quad;
use crate::term::Term;

fn is_term_below(next: u64, term: &Term) -> bool
    ensures { result ≡ Rattle.qs_terms.specs.Dataset.is_term_below next term.now }
{
    match term {
        Term::Iri(_) => true,
        Term::Blank(number) => *number < next,
        Term::Literal(_) => true,
    }
}

fn is_quad_below(next: u64, quad: &Quad) -> bool
    ensures { result ≡ is_statement_below next quad.now }
{
    let is_graph_below = match quad.graph() {
        None => true,
        Some(name) => is_term_below(next, name),
    };
    is_graph_below && is_term_below(next, quad.subject()) && is_term_below(next, quad.object())
}

/// Whether the number is above those of all blank nodes of the quads, so that it may be their dataset's next one.
pub fn is_above_blanks(next: u64, quads: &[Quad]) -> bool
    ensures { result ≡ Rattle.qs_terms.specs.Dataset.is_above_blanks next quads.now }
{
    quads.iter().all(|quad| is_quad_below(next, quad))
}

/// A law: two lists of quads are the same bag exactly where each quad stands equally often in both.
pub fn same_bag_by_counts()
    ensures { (a b : List Statement) → SameBag a b
        ↔ ((q : Statement) → times same_statement q a ≡ times same_statement q b) }
{}
