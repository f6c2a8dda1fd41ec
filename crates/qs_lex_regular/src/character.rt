//! Classes of characters that N-Quads and SPARQL share.

ghost use Rattle.std.specs.Prelude.{◌≡◌};
ghost use Rattle.qs_lex_regular.specs.Character.{is_base, is_pn_chars, is_digit, is_escaped, is_hex, is_iri_char, is_iri_scalar, is_letter, is_letter_or_digit, is_mark_in_name, is_scalar, is_pn_chars_u};
ghost use Rattle.std.specs.Int.{is_in_range};

fn within(low: u32, high: u32, c: char) -> bool
    ensures { result ≡ is_in_range low high c }
{
    let code = c as u32;
    low <= code && code <= high
}

/// A digit, `0` to `9`.
#[tactic(auto, unfolding(crate::specs::Character::is_digit))]
pub fn is_digit(c: char) -> bool
    ensures { result ≡ is_digit c }
{
    c.is_ascii_digit()
}

/// A hexadecimal digit (HEX of SPARQL 1.1 Query, 19.8).
#[tactic(auto, unfolding(crate::specs::Character::is_hex))]
pub fn is_hex(c: char) -> bool
    ensures { result ≡ is_hex c }
{
    c.is_ascii_hexdigit()
}

/// A letter, `A` to `Z` or `a` to `z`.
#[tactic(auto, unfolding(crate::specs::Character::is_letter))]
pub fn is_letter(c: char) -> bool
    ensures { result ≡ is_letter c }
{
    c.is_ascii_alphabetic()
}

/// A letter or a digit.
#[tactic(auto, unfolding(crate::specs::Character::is_letter_or_digit))]
pub fn is_letter_or_digit(c: char) -> bool
    ensures { result ≡ is_letter_or_digit c }
{
    c.is_ascii_alphanumeric()
}

/// What a name may begin with (PN_CHARS_BASE of SPARQL 1.1 Query, 19.8).
#[tactic(auto, unfolding(crate::specs::Character::is_base))]
pub fn is_base(c: char) -> bool
    ensures { result ≡ is_base c }
{
    c.is_ascii_alphabetic()
        || within(0xC0, 0xD6, c)
        || within(0xD8, 0xF6, c)
        || within(0xF8, 0x2FF, c)
        || within(0x370, 0x37D, c)
        || within(0x37F, 0x1FFF, c)
        || within(0x200C, 0x200D, c)
        || within(0x2070, 0x218F, c)
        || within(0x2C00, 0x2FEF, c)
        || within(0x3001, 0xD7FF, c)
        || within(0xF900, 0xFDCF, c)
        || within(0xFDF0, 0xFFFD, c)
        || within(0x1_0000, 0xE_FFFF, c)
}

/// One of PN_CHARS_BASE, or `_` (PN_CHARS_U of SPARQL 1.1 Query, 19.8).
#[tactic(auto, unfolding(crate::specs::Character::is_pn_chars_u))]
pub fn is_pn_chars_u(c: char) -> bool
    ensures { result ≡ is_pn_chars_u c }
{
    is_base(c) || c == '_'
}

/// What a name may hold but not begin with, beside `-` and digits.
#[tactic(auto, unfolding(crate::specs::Character::is_mark_in_name))]
pub fn is_mark_in_name(c: char) -> bool
    ensures { result ≡ is_mark_in_name c }
{
    c == '\u{B7}' || within(0x300, 0x36F, c) || within(0x203F, 0x2040, c)
}

/// What a name may hold (PN_CHARS of SPARQL 1.1 Query, 19.8).
#[tactic(auto, unfolding(crate::specs::Character::is_pn_chars))]
pub fn is_pn_chars(c: char) -> bool
    ensures { result ≡ is_pn_chars c }
{
    is_pn_chars_u(c) || c == '-' || is_digit(c) || is_mark_in_name(c)
}

/// What an IRI may hold (IRIREF of SPARQL 1.1 Query, 19.8).
#[tactic(auto, unfolding(crate::specs::Character::is_iri_char))]
pub fn is_iri_char(c: char) -> bool
    ensures { result ≡ is_iri_char c }
{
    !(c <= ' '
        || c == '<'
        || c == '>'
        || c == '"'
        || c == '{'
        || c == '}'
        || c == '|'
        || c == '^'
        || c == '`'
        || c == '\\')
}

/// What may stand after the backslash of an ECHAR (SPARQL 1.1 Query, 19.8).
#[tactic(auto, unfolding(crate::specs::Character::is_escaped))]
pub fn is_escaped(c: char) -> bool
    ensures { result ≡ is_escaped c }
{
    matches!(c, 't' | 'b' | 'n' | 'r' | 'f' | '"' | '\'' | '\\')
}

/// Whether a number is the code point of a character.
#[tactic(auto, unfolding(crate::specs::Character::is_scalar))]
pub fn is_scalar(code: u32) -> bool
    ensures { result ≡ is_scalar code }
{
    char::from_u32(code).is_some()
}

/// Whether a number is the code point of a character that may stand in an IRI.
#[tactic(auto, unfolding(crate::specs::Character::is_iri_scalar, crate::specs::Character::is_scalar))]
pub fn is_iri_scalar(code: u32) -> bool
    ensures { result ≡ is_iri_scalar code }
{
    match char::from_u32(code) {
        Some(c) => is_iri_char(c),
        None => false,
    }
}
