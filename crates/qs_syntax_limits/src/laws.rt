//! What holds of the definitions.

ghost use Rattle.std.specs.Prelude.{◌≡◌, map};
ghost use Rattle.qs_syntax_limits.specs.LeftOut.{words};
ghost use Rattle.qs_syntax_tree.specs.Words.{word_kind};
ghost use Rattle.qs_syntax_tree.specs.declared.kind.Kind.TheVariants as k;

/// None of the words that are left out is a keyword of the grammar, so each is a token of the kind `Word`.
#[tactic(auto, unfolding(qs_syntax_tree::specs::Words::word_kind))]
pub fn left_out_words_are_no_keywords()
    ensures { map word_kind words ≡ map (λ word. k.Word) words }
{}
