//! Pieces of a request's bytes.

ghost use Rattle.std.specs.Prelude.{◌≡◌, ◌==◌, ◌^◌, SomeIff, ◌≤◌, ◌<◌, length, take};
ghost use Rattle.qs_http.specs.HeadEnd.{leading};
ghost use Rattle.qs_http.specs.Head.{is_number};
ghost use Rattle.std.specs.List.{position_or_len};
ghost use Rattle.std.specs.Str.{str_eq_ignore_ascii_case};
ghost use Rattle.std.specs.Str.Parse.{digits_value};
ghost use Rattle.std.specs.Char.{digit_value};
ghost use Rattle.httparse.specs.Grammar.{is_ows, trim_ows};

/// How many CR and LF bytes stand at the front.
pub fn leading_len(bytes: &[u8]) -> usize
    ensures count { result ≡ leading bytes.now }
    ensures within { result ≤ length bytes.now }
{
    for (i, byte) in bytes.iter().enumerate() {
        if *byte != b'\r' && *byte != b'\n' {
            return i;
        }
    }
    bytes.len()
}

/// Where the byte first stands, or the length.
pub fn place_of(bytes: &[u8], byte: u8) -> usize
    ensures { result ≡ position_or_len (λ b. b == byte) bytes.now }
{
    for (i, b) in bytes.iter().enumerate() {
        if *b == byte {
            return i;
        }
    }
    bytes.len()
}

/// The first bytes, as many as there is room for.
pub fn front_of(bytes: &[u8], room: usize) -> &[u8]
    ensures { result.now ≡ take room bytes.now }
{
    if bytes.len() < room {
        bytes
    } else {
        &bytes[..room]
    }
}

/// Whether the bytes are digits, and at least one.
pub fn is_number(text: &[u8]) -> bool
    ensures { result ≡ is_number text.now }
{
    for byte in text {
        if !byte.is_ascii_digit() {
            return false;
        }
    }
    !text.is_empty()
}

/// The number that the digits write, where it isn't above the limit.
pub fn number_up_to(digits: &[u8], limit: usize) -> Option<usize>
    requires { limit < 2 ^ 32 }
    ensures { SomeIff result (digits_value 10 digits.now ≤ limit) (digits_value 10 digits.now) }
{
    let mut value: usize = 0;
    for digit in digits {
        value = value * 10 + digit_of(*digit);
        if value > limit {
            return None;
        }
    }
    Some(value)
}

fn digit_of(digit: u8) -> usize
    ensures value { result ≡ digit_value digit }
    ensures small { result < 64 }
{
    match digit {
        b'0'..=b'9' => (digit - b'0') as usize,
        b'a'..=b'z' => (digit - b'a') as usize + 10,
        b'A'..=b'Z' => (digit - b'A') as usize + 10,
        _ => 36,
    }
}

/// Whether two words are the same, ASCII case aside.
pub fn is_same_word(a: &[u8], b: &[u8]) -> bool
    ensures { result ≡ str_eq_ignore_ascii_case a.now b.now }
{
    a.eq_ignore_ascii_case(b)
}

/// The bytes without the spaces and tabs at both ends.
pub fn trim_ows(bytes: &[u8]) -> &[u8]
    ensures { result.now ≡ trim_ows bytes.now }
{
    let mut start = 0;
    let mut end = bytes.len();
    while start < end && is_ows(bytes[start]) {
        start += 1;
    }
    while start < end && is_ows(bytes[end - 1]) {
        end -= 1;
    }
    &bytes[start..end]
}

fn is_ows(byte: u8) -> bool
    ensures { result ≡ is_ows byte }
{
    byte == b' ' || byte == b'\t'
}
