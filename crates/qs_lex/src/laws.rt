//! The laws of token lists.

ghost use Rattle.std.specs.Prelude.{◌≡◌, ◌⊎◌, List, ℕ, []};
ghost use Rattle.std.specs.List.{AllByRecursion};
ghost use Rattle.std.specs.Str.{IsUtf8};
ghost use Rattle.qs_lex.specs.inner.Fault.{HasToken};
ghost use Rattle.qs_lex.specs.Lexes.{Lexeme, Lexes, StopsAt};
ghost use Rattle.qs_lex.specs.inner.Parts.{IsSound};

/// A text has at most one token list, none where it stops, and stops at one place at most. The empty text has no token.
pub fn one_token_list()
    ensures lists { (text : List ℕ) (ts us : List Lexeme) → Lexes text ts → Lexes text us
        → ts ≡ us }
    ensures apart { (text : List ℕ) (ts : List Lexeme) (place : ℕ) → Lexes text ts
        → StopsAt text place → ⊥ }
    ensures places { (text : List ℕ) (place other : ℕ) → StopsAt text place → StopsAt text other
        → place ≡ other }
    ensures nothing { HasToken [] → ⊥ }
{}

/// A text has a token list, or stops at a place.
pub fn some_token_list()
    ensures { (text : List ℕ) → IsUtf8 text → ((ts : List Lexeme) × Lexes text ts)
        ⊎ ((place : ℕ) × StopsAt text place) }
{}

/// Each token of a text stands in it at its place, and is made of the parts of its class: of IRIs, names and strings with lawful parts,
/// and of tags that the terms take.
pub fn tokens_are_sound()
    ensures { (text : List ℕ) (ts : List Lexeme) → IsUtf8 text → Lexes text ts
        → AllByRecursion (IsSound text) ts }
{}
