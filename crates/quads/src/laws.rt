//! What holds of the refusals of explanations.

ghost use Rattle.std.specs.Prelude.{ℕ, List, Err};
ghost use Rattle.qs_terms.specs.declared.fault.QFault.{QFault};
ghost use Rattle.qs_store.specs.declared.default_graph.DefaultGraph.{DefaultGraph};
ghost use Rattle.quads.specs.inner.Outcomes.{IsQueryOfData, IsUpdateOfData, IsExplanationOfData};
ghost use Rattle.quads.specs.declared.job.TextKind.TheVariants as kind;

use qs_explain::laws::explanations_are_refused_alike;
use qs_store::same_set_is_an_equivalence;

/// Where an explanation of a text over data is refused with a fault, the query of the text over these data is refused with it, or the update,
/// whichever default graph it sees.
pub fn explanations_are_refused_as_their_texts()
    ensures query { (choice : DefaultGraph) (file text : List ℕ) (f : QFault)
        → IsExplanationOfData kind.Query file text (Err f) → IsQueryOfData choice file text
        (Err f) }
    ensures update { (choice : DefaultGraph) (file text : List ℕ) (f : QFault)
        → IsExplanationOfData kind.Update file text (Err f) → IsUpdateOfData choice file text
        (Err f) }
{
    same_set_is_an_equivalence();
    explanations_are_refused_alike();
}
