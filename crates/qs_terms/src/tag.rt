//! Language tags.

ghost use Rattle.std.specs.Prelude.{◌≡◌};
ghost use Rattle.qs_terms.specs.Tag.{is_tag};

fn is_subtag_char(first: bool, byte: u8) -> bool
    ensures { result ≡ Rattle.qs_terms.specs.Tag.is_subtag_char first byte }
{
    if first {
        byte.is_ascii_alphabetic()
    } else {
        byte.is_ascii_alphanumeric()
    }
}

/// Whether the bytes are a language tag, without its `@` (SPARQL 1.1 Query, 19.8, LANGTAG).
pub fn is_tag(bytes: &[u8]) -> bool
    ensures { result ≡ Rattle.qs_terms.specs.Tag.is_tag bytes.now }
{
    let mut first = true;
    let mut empty = true;
    for &byte in bytes {
        if byte == b'-' {
            if empty {
                return false;
            }
            first = false;
            empty = true;
        } else if is_subtag_char(first, byte) {
            empty = false;
        } else {
            return false;
        }
    }
    !empty
}
