//! Laws of the tables of keywords, of marks and of characters: each holds a table against another one, so that a row that is wrong
//! in one of them can't be proved.

ghost use Rattle.std.specs.Prelude.{◌≡◌, List, ℕ, Some, true, not, codes};
ghost use Rattle.std.specs.Option.{is_some};
ghost use Rattle.std.specs.Str.{encode_utf8_all, str_eq_ignore_ascii_case};
ghost use Rattle.qs_lex.specs.inner.Table.{IsToken};
ghost use Rattle.qs_lex.specs.declared.token.Class.{Class};
ghost use Rattle.qs_lex.specs.declared.token.Class.TheVariants as class;
ghost use Rattle.qs_lex_escapes.specs.Escape.{echar_of};
ghost use Rattle.qs_lex_regular.specs.Character.{is_iri_char, is_escaped};
ghost use Rattle.qs_syntax.specs.Kinds.{kind_of};
ghost use Rattle.qs_syntax_tree.specs.Words.{word_kind, mark_kind};
ghost use Rattle.qs_syntax_tree.specs.declared.kind.Kind.{Kind};
ghost use Rattle.qs_syntax_tree.specs.declared.kind.Kind.TheVariants as k;
ghost use Rattle.qs_terms.specs.Iri.{is_excluded};
ghost use Rattle.qs_syntax_laws.specs.inner.Spelling.{word_of, mark_of};

/// Each keyword and each mark has the kind that is named after it, and no other word or mark has that kind. Each kind is that of some
/// token.
pub fn kinds_are_spelled_one_way()
    ensures keywords { (kind : Kind) (text : List ℕ)
        → word_of kind ≡ Some text → word_kind text ≡ kind }
    ensures marks { (kind : Kind) (text : List ℕ)
        → mark_of kind ≡ Some text → mark_kind text ≡ kind }
    ensures no_other_keyword { (text : List ℕ) → (word_kind text ≡ k.Word → ⊥)
        → (word : List ℕ) × (word_of (word_kind text) ≡ Some word)
        × (str_eq_ignore_ascii_case text word ≡ true) }
    ensures no_other_mark { (text : List ℕ) → (mark_kind text ≡ k.Word → ⊥)
        → mark_of (mark_kind text) ≡ Some text }
    ensures as_written { word_kind (codes "A") ≡ k.Word }
    ensures all { (kind : Kind)
        → (class : Class) × (text : List ℕ) × (kind_of class text ≡ kind) }
{}

/// No token of the class of marks has the kind of words that are no keywords.
pub fn marks_are_no_words()
    ensures { (x : List ℕ) → IsToken class.Mark x → mark_kind (encode_utf8_all x) ≡ k.Word → ⊥ }
{}

/// An IRI in a text may hold the characters that terms don't exclude from IRIs, and those alone.
pub fn iris_hold_what_is_not_excluded()
    ensures { (c : ℕ) → is_iri_char c ≡ not (is_excluded c) }
{}

/// The letters that a backslash may stand before in a string are those that denote a character.
pub fn escaped_letters_denote_characters()
    ensures { (c : ℕ) → is_escaped c ≡ is_some (echar_of c) }
{}
