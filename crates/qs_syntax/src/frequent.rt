//! The kinds of the words and marks that texts have most of. They are told by their bytes, before the tables of all words and marks are searched.

ghost use Rattle.std.specs.Prelude.{◌≡◌, ℕ, List, [], ◌∷◌, IfSome, codes, true};
ghost use Rattle.std.specs.Str.{bytes_eq};
ghost use Rattle.qs_syntax_tree.specs.Words as spec;

use qs_syntax_tree::kind::Kind;
use qs_syntax_tree::words;

// The kind of a mark of one byte, where it is a frequent one.
#[tactic(auto, unfolding(qs_syntax_tree::specs::Words::mark_kind))]
fn frequent_mark(byte: u8) -> Option<Kind>
    ensures { IfSome result (λ kind. spec.mark_kind (byte ∷ []) ≡ kind) }
{
    match byte {
        b'.' => Some(Kind::Dot),
        b';' => Some(Kind::Semicolon),
        b',' => Some(Kind::Comma),
        b'{' => Some(Kind::LeftBrace),
        b'}' => Some(Kind::RightBrace),
        b'(' => Some(Kind::LeftParen),
        b')' => Some(Kind::RightParen),
        _ => None,
    }
}

/// The kind of a mark.
pub(crate) fn mark_kind(mark: &str) -> Kind
    ensures { result ≡ spec.mark_kind mark.now }
{
    if let [byte] = mark.as_bytes() {
        if let Some(kind) = frequent_mark(*byte) {
            return kind;
        }
    }
    words::mark_kind(mark)
}

fn is_same(a: &str, b: &str) -> bool
    ensures { result ≡ true → a.now ≡ b.now }
{
    a == b
}

// The kind of a word, where it is a frequent one and is written in capital letters.
#[tactic(auto, unfolding(qs_syntax_tree::specs::Words::word_kind))]
fn frequent_word(word: &str) -> Option<Kind>
    ensures { IfSome result (λ kind. spec.word_kind word.now ≡ kind) }
{
    match word.len() {
        4 if is_same(word, "DATA") => Some(Kind::Data),
        5 if is_same(word, "WHERE") => Some(Kind::Where),
        5 if is_same(word, "GRAPH") => Some(Kind::Graph),
        6 if is_same(word, "INSERT") => Some(Kind::Insert),
        6 if is_same(word, "DELETE") => Some(Kind::Delete),
        6 if is_same(word, "SELECT") => Some(Kind::Select),
        _ => None,
    }
}

/// The kind of a word.
pub(crate) fn word_kind(word: &str) -> Kind
    ensures { result ≡ spec.word_kind word.now }
{
    match frequent_word(word) {
        Some(kind) => kind,
        None => words::word_kind(word),
    }
}
