//! Tests of texts.

ghost use Rattle.std.specs.Prelude.{◌≡◌, nat_eq, length};
ghost use Rattle.std.specs.List.{starts_with, ends_with};
ghost use Rattle.std.specs.Str.{chars};
ghost use Rattle.qs_terms.specs.Tag.{lowered};
ghost use Rattle.qs_expr_values.specs.Text as spec;
ghost use Rattle.qs_expr_values.specs.inner.Text as inner_spec;

use memchr::memmem;

// The search of `memchr` takes less time than that of `str`.
fn stands_in(needle: &[u8], text: &[u8]) -> bool
    ensures { result ≡ spec.stands_in needle.now text.now }
{
    memmem::find(text, needle).is_some()
}

/// Whether the needle stands in the text (SPARQL 1.1 Query, 17.4.3.8).
pub fn contains(text: &str, needle: &str) -> bool
    ensures { result ≡ spec.stands_in needle.now text.now }
{
    stands_in(needle.as_bytes(), text.as_bytes())
}

/// Whether the text begins with the front (SPARQL 1.1 Query, 17.4.3.6).
pub fn starts(text: &str, front: &str) -> bool
    ensures { result ≡ starts_with nat_eq text.now front.now }
{
    text.starts_with(front)
}

/// Whether the text ends with the end (SPARQL 1.1 Query, 17.4.3.7).
pub fn ends(text: &str, end: &str) -> bool
    ensures { result ≡ ends_with nat_eq text.now end.now }
{
    text.ends_with(end)
}

/// How many code points the text has (SPARQL 1.1 Query, 17.4.3.2).
pub fn count(text: &str) -> usize
    ensures { result ≡ length (chars text.now) }
{
    text.chars().count()
}

// Whether the tag begins with a range, which has something, and `-`.
#[tactic(auto, using(crate::proofs::Ranges::begins, crate::proofs::Ranges::begins_short, crate::proofs::Ranges::begins_empty))]
fn begins_with_range(range: &[u8], tag: &[u8]) -> bool
    ensures { result ≡ spec.begins_with_range (lowered range.now) (lowered tag.now) }
{
    if range.is_empty() || tag.len() <= range.len() {
        return false;
    }
    tag[range.len()] == b'-' && tag[..range.len()].eq_ignore_ascii_case(range)
}

// Whether the range is `*`, and the tag has something.
fn is_any_range(range: &str, tag: &str) -> bool
    ensures { result ≡ inner_spec.is_any_range range.now tag.now }
{
    !tag.is_empty() && range == "*"
}

/// Whether the language range matches the tag, by basic filtering (SPARQL 1.1 Query, 17.4.3.13; RFC 4647, 3.3.1).
pub fn matches_range(range: &str, tag: &str) -> bool
    ensures { result ≡ spec.matches_range range.now tag.now }
{
    is_any_range(range, tag)
        || tag.eq_ignore_ascii_case(range)
        || begins_with_range(range.as_bytes(), tag.as_bytes())
}
