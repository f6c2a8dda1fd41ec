//! One more character of an escape.

ghost use Rattle.qs_lex_regular.specs.inner.HexDigits.{IsPushed};

use crate::hex_digits::HexDigits;

/// What a character makes of an escape.
#[derive(Clone, Copy)]
pub enum PushResult {
    /// One digit more, and not the last.
    Digit(HexDigits),
    /// The last digit, with the value of them all.
    Whole(u32),
    /// No digit.
    Other,
}

/// What the next character makes of an escape.
#[tactic(auto, unfolding(crate::specs::Character::is_hex, crate::specs::Character::hex_value), using(crate::proofs::HexDigits::pushed, crate::proofs::HexDigits::pushed_fits))]
pub fn push(digits: HexDigits, c: char) -> PushResult
    ensures { IsPushed digits c result }
{
    if !c.is_ascii_hexdigit() {
        return PushResult::Other;
    }
    let Some(digit) = c.to_digit(16) else {
        return PushResult::Other;
    };
    let value = digits.value * 16 + digit;
    if digits.after == 0 {
        PushResult::Whole(value)
    } else {
        PushResult::Digit(HexDigits {
            after: digits.after - 1,
            value,
        })
    }
}
