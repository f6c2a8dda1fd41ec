//! What holds of truth with errors.

ghost use Rattle.std.specs.Prelude.{◌≡◌, Bool, List, Option};
ghost use Rattle.qs_expr_meaning.specs.Truth.{any, every};
ghost use Rattle.qs_expr_meaning.specs.inner.Words.{any_said, every_said};

/// The chains of `||` and `&&` in the words of SPARQL 1.1 Query, 17.2.
#[tactic(auto, using(crate::proofs::Words::any_in_words, crate::proofs::Words::every_in_words))]
pub fn in_words()
    ensures any { (xs : List (Option Bool)) → any xs ≡ any_said xs }
    ensures every { (xs : List (Option Bool)) → every xs ≡ every_said xs }
{}
