//! Names, words, blank node labels, variables and language tags, a character at a time.

ghost use Rattle.std.specs.Prelude.{◌≡◌, MatchOption, []};
ghost use Rattle.qs_lex_regular.specs.inner.Best.{advance, here};
ghost use Rattle.qs_lex.specs.inner.NameState.{left_of_name};

use crate::letter::{is_escapable, is_pn_chars, is_pn_chars_u, is_word_char};
use crate::token::Class;
use qs_lex_regular::character::{is_digit, is_hex, is_letter, is_letter_or_digit, is_mark_in_name};

/// What has been read of a name.
#[derive(Clone, Copy, PartialEq, Eq, Debug)]
pub enum NameState {
    /// a word, where no prefix goes on to its colon
    Plain,
    /// a word, which may be a prefix
    Word,
    /// a prefix that is no word
    Prefix,
    /// a prefix and dots
    PrefixDot,
    /// a prefix and its colon
    Colon,
    /// `%` at the front of a local name
    FirstPercent,
    /// `%` and a digit at the front of a local name
    FirstHex,
    /// a backslash at the front of a local name
    FirstBackslash,
    /// a local name
    Local,
    /// a local name and dots
    LocalDot,
    /// `%` in a local name
    Percent,
    /// `%` and a digit in a local name
    Hex,
    /// a backslash in a local name
    Backslash,
    /// `_`
    Underscore,
    /// `_:`
    UnderscoreColon,
    /// a blank node label
    Blank,
    /// a blank node label and dots
    BlankDot,
    /// `?`
    Question,
    /// `$`
    Dollar,
    /// a variable
    Variable,
    /// `@`
    At,
    /// the letters of a language tag
    Tag,
    /// a language tag and `-`
    TagDash,
    /// letters and digits after a `-`
    TagPart,
}

impl NameState {
    /// The class of the token, where what has been read is one.
    pub fn class(self) -> Option<Class>
        ensures { result ≡ here (left_of_name self) }
    {
        match self {
            NameState::Plain | NameState::Word => Some(Class::Word),
            NameState::Colon => Some(Class::PnameNs),
            NameState::Local => Some(Class::PnameLn),
            NameState::Blank => Some(Class::BlankLabel),
            NameState::Question => Some(Class::Mark),
            NameState::Variable => Some(Class::Var),
            NameState::Tag | NameState::TagPart => Some(Class::LangTag),
            _ => None,
        }
    }

    /// What has been read with one more character, or `None` where nothing goes on so.
    #[tactic(auto, using(crate::proofs::Apart::chars_colon, crate::proofs::Apart::chars_percent, crate::proofs::Apart::chars_backslash, crate::proofs::Apart::word_colon, crate::proofs::Apart::u_percent, crate::proofs::Apart::u_backslash, crate::proofs::Apart::digit_percent, crate::proofs::Apart::digit_backslash, crate::proofs::Apart::letter_dash, crate::proofs::Apart::letter_or_digit_dash, crate::proofs::Apart::colon_chars, crate::proofs::Apart::colon_u, crate::proofs::Apart::colon_word, crate::proofs::Apart::dot_word, crate::proofs::Apart::word_chars))]
    pub fn step(self, c: char) -> Option<NameState>
        ensures { MatchOption result (advance (left_of_name self) c ≡ [])
            (λ next. advance (left_of_name self) c ≡ left_of_name next) }
    {
        match self {
            NameState::Plain => {
                if is_word_char(c) {
                    Some(NameState::Plain)
                } else {
                    None
                }
            }
            NameState::Word => {
                if is_word_char(c) {
                    Some(NameState::Word)
                } else if is_pn_chars(c) {
                    Some(NameState::Prefix)
                } else if c == '.' {
                    Some(NameState::PrefixDot)
                } else if c == ':' {
                    Some(NameState::Colon)
                } else {
                    None
                }
            }
            NameState::Prefix => {
                if is_pn_chars(c) {
                    Some(NameState::Prefix)
                } else if c == '.' {
                    Some(NameState::PrefixDot)
                } else if c == ':' {
                    Some(NameState::Colon)
                } else {
                    None
                }
            }
            NameState::PrefixDot => {
                if is_pn_chars(c) {
                    Some(NameState::Prefix)
                } else if c == '.' {
                    Some(NameState::PrefixDot)
                } else {
                    None
                }
            }
            NameState::Colon => {
                if is_pn_chars_u(c) || c == ':' || is_digit(c) {
                    Some(NameState::Local)
                } else if c == '%' {
                    Some(NameState::FirstPercent)
                } else if c == '\\' {
                    Some(NameState::FirstBackslash)
                } else {
                    None
                }
            }
            NameState::FirstPercent => {
                if is_hex(c) {
                    Some(NameState::FirstHex)
                } else {
                    None
                }
            }
            NameState::FirstHex => {
                if is_hex(c) {
                    Some(NameState::Local)
                } else {
                    None
                }
            }
            NameState::FirstBackslash => {
                if is_escapable(c) {
                    Some(NameState::Local)
                } else {
                    None
                }
            }
            NameState::Local => {
                if is_pn_chars(c) || c == ':' {
                    Some(NameState::Local)
                } else if c == '.' {
                    Some(NameState::LocalDot)
                } else if c == '%' {
                    Some(NameState::Percent)
                } else if c == '\\' {
                    Some(NameState::Backslash)
                } else {
                    None
                }
            }
            NameState::LocalDot => {
                if is_pn_chars(c) || c == ':' {
                    Some(NameState::Local)
                } else if c == '.' {
                    Some(NameState::LocalDot)
                } else if c == '%' {
                    Some(NameState::Percent)
                } else if c == '\\' {
                    Some(NameState::Backslash)
                } else {
                    None
                }
            }
            NameState::Percent => {
                if is_hex(c) {
                    Some(NameState::Hex)
                } else {
                    None
                }
            }
            NameState::Hex => {
                if is_hex(c) {
                    Some(NameState::Local)
                } else {
                    None
                }
            }
            NameState::Backslash => {
                if is_escapable(c) {
                    Some(NameState::Local)
                } else {
                    None
                }
            }
            NameState::Underscore => {
                if c == ':' {
                    Some(NameState::UnderscoreColon)
                } else {
                    None
                }
            }
            NameState::UnderscoreColon => {
                if is_pn_chars_u(c) || is_digit(c) {
                    Some(NameState::Blank)
                } else {
                    None
                }
            }
            NameState::Blank => {
                if is_pn_chars(c) {
                    Some(NameState::Blank)
                } else if c == '.' {
                    Some(NameState::BlankDot)
                } else {
                    None
                }
            }
            NameState::BlankDot => {
                if is_pn_chars(c) {
                    Some(NameState::Blank)
                } else if c == '.' {
                    Some(NameState::BlankDot)
                } else {
                    None
                }
            }
            NameState::Question => {
                if is_pn_chars_u(c) || is_digit(c) {
                    Some(NameState::Variable)
                } else {
                    None
                }
            }
            NameState::Dollar => {
                if is_pn_chars_u(c) || is_digit(c) {
                    Some(NameState::Variable)
                } else {
                    None
                }
            }
            NameState::Variable => {
                if is_pn_chars_u(c) || is_digit(c) || is_mark_in_name(c) {
                    Some(NameState::Variable)
                } else {
                    None
                }
            }
            NameState::At => {
                if is_letter(c) {
                    Some(NameState::Tag)
                } else {
                    None
                }
            }
            NameState::Tag => {
                if is_letter(c) {
                    Some(NameState::Tag)
                } else if c == '-' {
                    Some(NameState::TagDash)
                } else {
                    None
                }
            }
            NameState::TagDash => {
                if is_letter_or_digit(c) {
                    Some(NameState::TagPart)
                } else {
                    None
                }
            }
            NameState::TagPart => {
                if is_letter_or_digit(c) {
                    Some(NameState::TagPart)
                } else if c == '-' {
                    Some(NameState::TagDash)
                } else {
                    None
                }
            }
        }
    }
}
