//! What holds of all that the forms of tokens spell.
//!
//! What an escape, a tag or an IRI is as characters of a token is one for N-Quads and SPARQL, and is proved once. N-Quads depends
//! on no tree.

ghost use Rattle.std.specs.Prelude.{◌≡◌, ◌+◌, ◌++◌, ℕ, List, Option, IsTrue, length, false};
ghost use Rattle.std.specs.List.{list_any};
ghost use Rattle.std.specs.Str.{IsUtf8, encode_utf8_all};
ghost use Rattle.qs_lex_escapes.specs.Decoded.{decoded};
ghost use Rattle.qs_lex_escapes.specs.Escape.{uchar};
ghost use Rattle.qs_lex_escapes.specs.Piece.{piece};
ghost use Rattle.qs_lex_escapes.specs.declared.escape.Escape.{Escape};
ghost use Rattle.qs_lex_regular.specs.Character.{is_iri_char, is_iri_scalar, is_letter, is_letter_or_digit};
ghost use Rattle.qs_lex_regular.specs.Form as form;
ghost use Rattle.qs_lex_regular.specs.Form.{Spells, ◌⨾◌, ◌∣◌, one, many, plus, char};
ghost use Rattle.qs_terms.specs.Iri.{is_excluded};
ghost use Rattle.qs_terms.specs.Tag.{is_tag};
ghost use Rattle.qs_lex_escapes.specs.inner.Backslashes.{escapes_begin};
ghost use Rattle.qs_lex_escapes.specs.inner.StandsFor.{StandsFor};

/// What stands in a text is the piece of it from where it begins to where it ends.
pub fn parts_are_pieces()
    ensures { (text before found after : List ℕ) → IsUtf8 text → IsUtf8 found
        → text ≡ before ++ (found ++ after)
        → piece text (length before) (length before + length found) ≡ found }
{}

/// Characters that denote others have an escape at each backslash, and decoded they are those others.
pub fn escapes_stand_for_characters()
    ensures begin { (escape : List ℕ → Option Escape) (x y : List ℕ) → StandsFor escape x y
        → IsTrue (escapes_begin escape (encode_utf8_all x)) }
    ensures decoded { (escape : List ℕ → Option Escape) (x y : List ℕ) → StandsFor escape x y
        → decoded escape (encode_utf8_all x) ≡ encode_utf8_all y }
{}

/// What is spelled as an IRI, with escapes for characters of IRIs alone, has an escape at each backslash and, decoded, no character
/// that IRIs exclude; and what is spelled as a language tag is one in the eyes of the terms.
pub fn spelled_texts_are_lawful()
    ensures escapes { (x : List ℕ) → Spells (many (one is_iri_char ∣ form.uchar is_iri_scalar)) x
        → IsTrue (escapes_begin uchar (encode_utf8_all x)) }
    ensures iri { (x : List ℕ) → Spells (many (one is_iri_char ∣ form.uchar is_iri_scalar)) x
        → list_any is_excluded (decoded uchar (encode_utf8_all x)) ≡ false }
    ensures tag { (x : List ℕ)
        → Spells (plus (one is_letter) ⨾ many (char 45 ⨾ plus (one is_letter_or_digit))) x
        → IsTrue (is_tag (encode_utf8_all x)) }
{}
