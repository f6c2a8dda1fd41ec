//! The parts of a script's lines.

ghost use Rattle.std.specs.Prelude.{◌≡◌, ◌≢◌, ◌<◌, ◌++◌, ◌∷◌, ℕ, List, length, MatchOption};
ghost use Rattle.std.specs.List.{All};
ghost use Rattle.qs_service_replay.specs.Script.{IsId, IsFirstLine};

/// What stands before the first such byte, and what after it.
pub(crate) fn parted(bytes: &[u8], at: u8) -> Option<(&[u8], &[u8])>
    ensures { MatchOption result (All (λ b. b ≢ at) bytes.now)
        (λ p. All (λ b. b ≢ at) p.0.now × (bytes.now ≡ p.0.now ++ at ∷ p.1.now)) }
{
    let place = bytes.iter().position(|b| *b == at)?;
    Some((&bytes[..place], &bytes[place + 1..]))
}

/// The first line, without its LF, and what stands after it.
pub(crate) fn first_line(text: &[u8]) -> (&[u8], &[u8])
    requires { 0 < length text.now }
    ensures line { IsFirstLine text.now result.0.now result.1.now }
    ensures falls { length result.1.now < length text.now }
{
    match parted(text, b'\n') {
        Some(parts) => parts,
        None => (text, &[]),
    }
}

/// What stands after the word, where the line begins with it.
pub(crate) fn behind<'a>(line: &'a [u8], word: &[u8]) -> Option<&'a [u8]>
    ensures { MatchOption result ((rest : List ℕ) → line.now ≢ word.now ++ rest)
        (λ rest. line.now ≡ word.now ++ rest.now) }
{
    line.strip_prefix(word)
}

/// The id that the digits write.
pub(crate) fn id_of(digits: &[u8]) -> Option<u64>
    ensures { MatchOption result ((id : ℕ) → ¬ IsId digits.now id) (λ id. IsId digits.now id) }
{
    if digits.starts_with(b"+") {
        return None;
    }
    match std::str::from_utf8(digits) {
        Ok(text) => text.parse::<u64>().ok(),
        Err(_) => None,
    }
}
