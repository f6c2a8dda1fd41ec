//! The words that are left out.
//!
//! The words that are left out are in lists by their lengths, so a word is compared with twelve at most.

ghost use Rattle.std.specs.Prelude.{◌≡◌, map, filter, length, nat_eq};
ghost use Rattle.std.specs.List.{list_any};
ghost use Rattle.std.specs.Str.{str_eq_ignore_ascii_case};
ghost use Rattle.qs_syntax_limits.specs.LeftOut as spec;

// By their lengths, so that a word is compared with few.
const OF_TWO: [&str; 1] = ["TZ"];

const OF_THREE: [&str; 10] = [
    "SUM", "MIN", "MAX", "AVG", "ABS", "NOW", "DAY", "MD5", "IRI", "URI",
];

const OF_FOUR: [&str; 8] = [
    "BASE", "FROM", "LOAD", "CEIL", "RAND", "YEAR", "UUID", "SHA1",
];

const OF_FIVE: [&str; 12] = [
    "USING", "GROUP", "COUNT", "REGEX", "UCASE", "LCASE", "ROUND", "FLOOR", "MONTH", "HOURS",
    "BNODE", "STRDT",
];

const OF_SIX: [&str; 7] = [
    "HAVING", "EXISTS", "SAMPLE", "SUBSTR", "SHA256", "SHA384", "SHA512",
];

const OF_SEVEN: [&str; 6] = [
    "SERVICE", "REPLACE", "MINUTES", "SECONDS", "STRUUID", "STRLANG",
];

const OF_EIGHT: [&str; 3] = ["DESCRIBE", "STRAFTER", "TIMEZONE"];

const OF_NINE: [&str; 2] = ["SEPARATOR", "STRBEFORE"];

const OF_TWELVE: [&str; 1] = ["GROUP_CONCAT"];

const OF_FOURTEEN: [&str; 1] = ["ENCODE_FOR_URI"];

fn words_of(count: usize) -> &'static [&'static str]
    ensures { map (λ row. row.now) result.now ≡ filter (λ word. nat_eq (length word) count)
        spec.words }
{
    match count {
        2 => &OF_TWO,
        3 => &OF_THREE,
        4 => &OF_FOUR,
        5 => &OF_FIVE,
        6 => &OF_SIX,
        7 => &OF_SEVEN,
        8 => &OF_EIGHT,
        9 => &OF_NINE,
        12 => &OF_TWELVE,
        14 => &OF_FOURTEEN,
        _ => &[],
    }
}

fn is_like(a: &str, b: &str) -> bool
    ensures { result ≡ str_eq_ignore_ascii_case a.now b.now }
{
    a.eq_ignore_ascii_case(b)
}

fn is_among(word: &str, table: &[&str]) -> bool
    ensures { result ≡ list_any (str_eq_ignore_ascii_case word.now)
        (map (λ row. row.now) table.now) }
{
    let mut left = table;
    while let [row, rest @ ..] = left {
        if is_like(word, row) {
            return true;
        }
        left = rest;
    }
    false
}

/// Whether a word is one of those that are left out, in whatever case it is written.
pub fn is_left_out_word(word: &str) -> bool
    ensures { result ≡ spec.is_left_out_word word.now }
{
    is_among(word, words_of(word.len()))
}
