//! Escapes, as they stand after their backslash.

ghost use Rattle.std.specs.Prelude.{◌≡◌, ◌<◌, ◌≤◌, ◌+◌, ◌-◌, IfSome, List, ℕ, length, slice_index};
ghost use Rattle.qs_lex_escapes.specs.Escape.{hex_number, uchar, echar_of, string_escape};
ghost use Rattle.qs_lex_escapes.specs.inner.Escape.{escape};

use qs_lex_regular::hex_digits::HexDigits;
use qs_lex_regular::push::{PushResult, push};

/// A character, and how many bytes after the backslash name it.
#[derive(Clone, Copy)]
pub struct Escape {
    pub character: char,
    pub length: usize,
}

/// Which escapes a text may have.
#[derive(Clone, Copy)]
pub enum Escapes {
    /// Codepoint escapes, as in an IRI.
    Codepoints,
    /// These and the escapes of strings.
    Strings,
}

#[tactic(auto, using(crate::proofs::HexNumbers::digit, crate::proofs::HexNumbers::whole, crate::proofs::HexNumbers::other, crate::proofs::HexNumbers::past))]
fn hex_number(digits: HexDigits, bytes: &[u8]) -> Option<u32>
    ensures { result ≡ hex_number (digits.after + 1) digits.value bytes.now }
{
    let mut digits = digits;
    for &byte in bytes {
        match push(digits, char::from(byte)) {
            PushResult::Digit(next) => digits = next,
            PushResult::Whole(value) => return Some(value),
            PushResult::Other => return None,
        }
    }
    None
}

#[tactic(auto, using(crate::proofs::Characters::named, crate::proofs::Characters::unnamed))]
fn escape_of(length: usize, code: Option<u32>) -> Option<Escape>
    ensures { result ≡ Rattle.qs_lex_escapes.specs.Escape.escape_of length code }
{
    let character = char::from_u32(code?)?;
    Some(Escape { character, length })
}

// The codepoint escape that the bytes begin with.
fn uchar(bytes: &[u8]) -> Option<Escape>
    ensures { result ≡ uchar bytes.now }
{
    let (first, rest) = bytes.split_first()?;
    match *first {
        b'u' => escape_of(5, hex_number(HexDigits::new(3), rest)),
        b'U' => escape_of(9, hex_number(HexDigits::new(7), rest)),
        _ => None,
    }
}

fn echar_of(byte: u8) -> Option<char>
    ensures { result ≡ echar_of byte }
{
    match byte {
        b't' => Some('\t'),
        b'b' => Some('\u{8}'),
        b'n' => Some('\n'),
        b'r' => Some('\r'),
        b'f' => Some('\u{c}'),
        b'"' | b'\'' | b'\\' => Some(char::from(byte)),
        _ => None,
    }
}

// The escape of a string that the bytes begin with.
fn string_escape(bytes: &[u8]) -> Option<Escape>
    ensures { result ≡ string_escape bytes.now }
{
    let first = bytes.first()?;
    match echar_of(*first) {
        Some(character) => Some(Escape {
            character,
            length: 1,
        }),
        None => uchar(bytes),
    }
}

/// The escape that the bytes begin with.
pub(crate) fn first_escape(kind: Escapes, bytes: &[u8]) -> Option<Escape>
    ensures { result ≡ escape kind bytes.now }
{
    match kind {
        Escapes::Codepoints => uchar(bytes),
        Escapes::Strings => string_escape(bytes),
    }
}
