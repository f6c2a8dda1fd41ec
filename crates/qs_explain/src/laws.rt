//! What holds of the refusals of explanations.

ghost use Rattle.std.specs.Prelude.{◌↔◌, ℕ, List, Err};
ghost use Rattle.qs_terms.specs.declared.fault.QFault.{QFault};
ghost use Rattle.qs_syntax.specs.Outcome.{IsQueryOutcome, IsUpdateOutcome};
ghost use Rattle.qs_explain.specs.Explained.{IsExplainedQuery, IsExplainedUpdate};

/// The explanation of a text is refused with a fault just where its query is, or its update, for its text.
pub fn explanations_are_refused_alike()
    ensures query { (text : List ℕ) (f : QFault) → IsExplainedQuery text (Err f)
        ↔ IsQueryOutcome text (Err f) }
    ensures update { (text : List ℕ) (f : QFault) → IsExplainedUpdate text (Err f)
        ↔ IsUpdateOutcome text (Err f) }
{}
