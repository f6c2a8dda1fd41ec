//! What holds of the content of each view.

ghost use Rattle.qs_store.specs.inner.ActiveGraph.{IsSeen};

use qs_store::View;

/// The quads of the view occur once each, and their terms are known.
pub fn content_is_lawful<V: View>(view: &V)
    ensures { IsSeen (V.content view.now) }
{
    let _count = view.count();
    let _terms = view.terms();
}
