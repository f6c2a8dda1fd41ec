//! Classes of characters: those of SPARQL alone, and those of names and IRIs with ASCII or letters first, which most are.

ghost use Rattle.std.specs.Prelude.{◌≡◌};
ghost use Rattle.std.specs.Int.{is_in_range};
ghost use Rattle.qs_lex_regular.specs.Character.{is_base, is_pn_chars, is_iri_char, is_pn_chars_u};
ghost use Rattle.qs_lex.specs.Table.{is_escapable, is_exponent, is_sign, is_word_char};

use qs_lex_regular::character;

/// `e` or `E`.
#[tactic(auto, unfolding(crate::specs::Table::is_exponent))]
pub fn is_exponent(c: char) -> bool
    ensures { result ≡ is_exponent c }
{
    c == 'e' || c == 'E'
}

/// `+` or `-`.
#[tactic(auto, unfolding(crate::specs::Table::is_sign))]
pub fn is_sign(c: char) -> bool
    ensures { result ≡ is_sign c }
{
    c == '+' || c == '-'
}

/// What a word may hold: a letter, a digit or `_`.
#[tactic(auto, unfolding(crate::specs::Table::is_word_char))]
pub fn is_word_char(c: char) -> bool
    ensures { result ≡ is_word_char c }
{
    c.is_ascii_alphanumeric() || c == '_'
}

/// What a backslash in a local name may stand before (PN_LOCAL_ESC of SPARQL 1.1 Query, 19.8).
#[tactic(auto, unfolding(crate::specs::Table::is_escapable))]
pub fn is_escapable(c: char) -> bool
    ensures { result ≡ is_escapable c }
{
    matches!(
        c,
        '_' | '~'
            | '.'
            | '-'
            | '!'
            | '$'
            | '&'
            | '\''
            | '('
            | ')'
            | '*'
            | '+'
            | ','
            | ';'
            | '='
            | '/'
            | '?'
            | '#'
            | '@'
            | '%'
    )
}

/// What a name may begin with.
#[tactic(auto, using(crate::proofs::Ascii::ascii_base))]
pub fn is_base(c: char) -> bool
    ensures { result ≡ is_base c }
{
    if (c as u32) < 0x80 {
        character::is_letter(c)
    } else {
        character::is_base(c)
    }
}

/// One of PN_CHARS_BASE, or `_`.
#[tactic(auto, unfolding(qs_lex_regular::specs::Character::is_pn_chars_u))]
pub fn is_pn_chars_u(c: char) -> bool
    ensures { result ≡ is_pn_chars_u c }
{
    is_base(c) || c == '_'
}

/// What a name may hold.
#[tactic(auto, using(crate::proofs::Ascii::ascii_chars))]
pub fn is_pn_chars(c: char) -> bool
    ensures { result ≡ is_pn_chars c }
{
    if (c as u32) < 0x80 {
        is_word_char(c) || c == '-'
    } else {
        character::is_pn_chars(c)
    }
}

/// A character from `#` to `;`: digits, and most of the marks of IRIs.
fn is_from_hash_to_semicolon(c: char) -> bool
    ensures { result ≡ is_in_range 35 59 c }
{
    c >= '#' && c <= ';'
}

/// What an IRI may hold.
#[tactic(auto, using(crate::proofs::Ascii::word_iri, crate::proofs::Ascii::middle_iri))]
pub fn is_iri_char(c: char) -> bool
    ensures { result ≡ is_iri_char c }
{
    is_from_hash_to_semicolon(c) || is_word_char(c) || character::is_iri_char(c)
}
