//! Strings, a character at a time.

ghost use Rattle.std.specs.Prelude.{◌≡◌, MatchOption, []};
ghost use Rattle.qs_lex_regular.specs.inner.Best.{advance, here};
ghost use Rattle.qs_lex.specs.inner.StringState.{left_of_string};

use crate::quote::Quote;
use crate::token::Class;
use qs_lex_regular::character::{is_escaped, is_scalar};
use qs_lex_regular::hex_digits::HexDigits;
use qs_lex_regular::push::{PushResult, push};

/// What has been read of a string.
#[derive(Clone, Copy)]
pub enum StringState {
    /// one quotation mark
    Opened(Quote),
    /// two quotation marks
    Two(Quote),
    /// a short string
    Short(Quote),
    /// a backslash in a short string
    ShortBackslash(Quote),
    /// digits of an escape in a short string
    ShortHex(Quote, HexDigits),
    /// a long string
    Long(Quote),
    /// a quotation mark in a long string
    LongOne(Quote),
    /// two
    LongTwo(Quote),
    /// a backslash in a long string
    LongBackslash(Quote),
    /// digits of an escape in a long string
    LongHex(Quote, HexDigits),
    /// a whole string
    Done,
}

impl StringState {
    /// The class of the token, where what has been read is one.
    pub fn class(self) -> Option<Class>
        ensures { result ≡ here (left_of_string self) }
    {
        match self {
            StringState::Two(_) | StringState::Done => Some(Class::String),
            _ => None,
        }
    }

    /// What has been read with one more character, or `None` where no string goes on so.
    #[tactic(auto, using(crate::proofs::Apart::escaped_u, crate::proofs::Apart::escaped_long_u))]
    pub fn step(self, c: char) -> Option<StringState>
        ensures { MatchOption result (advance (left_of_string self) c ≡ [])
            (λ next. advance (left_of_string self) c ≡ left_of_string next) }
    {
        match self {
            StringState::Opened(quote) => {
                if c == quote.mark {
                    Some(StringState::Two(quote))
                } else if c == '\\' {
                    Some(StringState::ShortBackslash(quote))
                } else if c == '\n' || c == '\r' {
                    None
                } else {
                    Some(StringState::Short(quote))
                }
            }
            StringState::Two(quote) => {
                if c == quote.mark {
                    Some(StringState::Long(quote))
                } else {
                    None
                }
            }
            StringState::Short(quote) => {
                if c == quote.mark {
                    Some(StringState::Done)
                } else if c == '\\' {
                    Some(StringState::ShortBackslash(quote))
                } else if c == '\n' || c == '\r' {
                    None
                } else {
                    Some(StringState::Short(quote))
                }
            }
            StringState::ShortBackslash(quote) => {
                if is_escaped(c) {
                    Some(StringState::Short(quote))
                } else if c == 'u' {
                    Some(StringState::ShortHex(quote, HexDigits::new(3)))
                } else if c == 'U' {
                    Some(StringState::ShortHex(quote, HexDigits::new(7)))
                } else {
                    None
                }
            }
            StringState::ShortHex(quote, escape) => {
                match push(escape, c) {
                    PushResult::Digit(next) => Some(StringState::ShortHex(quote, next)),
                    PushResult::Whole(value) => {
                        if is_scalar(value) {
                            Some(StringState::Short(quote))
                        } else {
                            None
                        }
                    }
                    PushResult::Other => None,
                }
            }
            StringState::Long(quote) => {
                if c == quote.mark {
                    Some(StringState::LongOne(quote))
                } else if c == '\\' {
                    Some(StringState::LongBackslash(quote))
                } else {
                    Some(StringState::Long(quote))
                }
            }
            StringState::LongOne(quote) => {
                if c == quote.mark {
                    Some(StringState::LongTwo(quote))
                } else if c == '\\' {
                    Some(StringState::LongBackslash(quote))
                } else {
                    Some(StringState::Long(quote))
                }
            }
            StringState::LongTwo(quote) => {
                if c == quote.mark {
                    Some(StringState::Done)
                } else if c == '\\' {
                    Some(StringState::LongBackslash(quote))
                } else {
                    Some(StringState::Long(quote))
                }
            }
            StringState::LongBackslash(quote) => {
                if is_escaped(c) {
                    Some(StringState::Long(quote))
                } else if c == 'u' {
                    Some(StringState::LongHex(quote, HexDigits::new(3)))
                } else if c == 'U' {
                    Some(StringState::LongHex(quote, HexDigits::new(7)))
                } else {
                    None
                }
            }
            StringState::LongHex(quote, escape) => {
                match push(escape, c) {
                    PushResult::Digit(next) => Some(StringState::LongHex(quote, next)),
                    PushResult::Whole(value) => {
                        if is_scalar(value) {
                            Some(StringState::Long(quote))
                        } else {
                            None
                        }
                    }
                    PushResult::Other => None,
                }
            }
            StringState::Done => None,
        }
    }
}
