//! Numbers, a character at a time.

ghost use Rattle.std.specs.Prelude.{◌≡◌, MatchOption, []};
ghost use Rattle.qs_lex_regular.specs.inner.Best.{advance, here};
ghost use Rattle.qs_lex.specs.inner.NumberState.{left_of_number};

use crate::letter::{is_exponent, is_sign};
use crate::token::Class;
use qs_lex_regular::character::is_digit;

/// What has been read of a number.
#[derive(Clone, Copy, PartialEq, Eq, Debug)]
pub enum NumberState {
    /// `+` or `-`
    Sign,
    /// digits
    Whole,
    /// a sign and digits
    SignedWhole,
    /// `.`
    Point,
    /// a sign and `.`
    SignedPoint,
    /// digits and `.`
    WholePoint,
    /// digits after a `.`
    Fraction,
    /// `e`
    Exponent,
    /// `e` and a sign
    ExponentSign,
    /// digits after an `e`
    Power,
}

impl NumberState {
    /// The class of the token, where what has been read is one.
    pub fn class(self) -> Option<Class>
        ensures { result ≡ here (left_of_number self) }
    {
        match self {
            NumberState::Sign | NumberState::Point => Some(Class::Mark),
            NumberState::Whole => Some(Class::Integer),
            NumberState::SignedWhole => Some(Class::Signed),
            NumberState::Fraction => Some(Class::Decimal),
            NumberState::Power => Some(Class::Double),
            NumberState::SignedPoint
            | NumberState::WholePoint
            | NumberState::Exponent
            | NumberState::ExponentSign => None,
        }
    }

    /// What has been read with one more character, or `None` where no number goes on so.
    #[tactic(auto, using(crate::proofs::Apart::digit_dot, crate::proofs::Apart::digit_exponent, crate::proofs::Apart::digit_sign, crate::proofs::Apart::dot_digit, crate::proofs::Apart::dot_exponent, crate::proofs::Apart::dot_sign))]
    pub fn step(self, c: char) -> Option<NumberState>
        ensures { MatchOption result (advance (left_of_number self) c ≡ [])
            (λ next. advance (left_of_number self) c ≡ left_of_number next) }
    {
        match self {
            NumberState::Sign => {
                if is_digit(c) {
                    Some(NumberState::SignedWhole)
                } else if c == '.' {
                    Some(NumberState::SignedPoint)
                } else {
                    None
                }
            }
            NumberState::Whole => {
                if is_digit(c) {
                    Some(NumberState::Whole)
                } else if c == '.' {
                    Some(NumberState::WholePoint)
                } else if is_exponent(c) {
                    Some(NumberState::Exponent)
                } else {
                    None
                }
            }
            NumberState::SignedWhole => {
                if is_digit(c) {
                    Some(NumberState::SignedWhole)
                } else if c == '.' {
                    Some(NumberState::WholePoint)
                } else if is_exponent(c) {
                    Some(NumberState::Exponent)
                } else {
                    None
                }
            }
            NumberState::Point => {
                if is_digit(c) {
                    Some(NumberState::Fraction)
                } else {
                    None
                }
            }
            NumberState::SignedPoint => {
                if is_digit(c) {
                    Some(NumberState::Fraction)
                } else {
                    None
                }
            }
            NumberState::WholePoint => {
                if is_digit(c) {
                    Some(NumberState::Fraction)
                } else if is_exponent(c) {
                    Some(NumberState::Exponent)
                } else {
                    None
                }
            }
            NumberState::Fraction => {
                if is_digit(c) {
                    Some(NumberState::Fraction)
                } else if is_exponent(c) {
                    Some(NumberState::Exponent)
                } else {
                    None
                }
            }
            NumberState::Exponent => {
                if is_digit(c) {
                    Some(NumberState::Power)
                } else if is_sign(c) {
                    Some(NumberState::ExponentSign)
                } else {
                    None
                }
            }
            NumberState::ExponentSign => {
                if is_digit(c) {
                    Some(NumberState::Power)
                } else {
                    None
                }
            }
            NumberState::Power => {
                if is_digit(c) {
                    Some(NumberState::Power)
                } else {
                    None
                }
            }
        }
    }
}
