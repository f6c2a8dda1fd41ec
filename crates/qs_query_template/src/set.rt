//! Quads as a set: they are sorted in place by the total order.

ghost use Rattle.qs_terms.specs.Bag.{SameBag, once};
ghost use Rattle.qs_terms.specs.Statement.{same_statement};

use qs_terms::Quad;

/// The quads, each once, in their order (`Quad::order`). It takes no memory, and time by their count and its logarithm.
pub fn each_once(mut quads: Vec<Quad>) -> Vec<Quad>
    ensures { SameBag result.items (once same_statement quads.items) }
{
    quads.sort_unstable();
    quads.dedup();
    quads
}
