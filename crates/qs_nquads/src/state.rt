//! Fronts of a text, a character at a time.

ghost use Rattle.std.specs.Prelude.{◌≡◌, MatchOption, []};
ghost use Rattle.qs_lex_regular.specs.inner.Best.{advance, here};
ghost use Rattle.qs_nquads.specs.Table.{is_string_char, is_label_start, is_label_char};
ghost use Rattle.qs_nquads.specs.inner.State.{begun, left};
ghost use Rattle.qs_nquads.specs.declared.state.State.TheVariants as state;

use crate::class::Class;
use qs_lex_regular::character::{
    is_digit, is_escaped, is_iri_char, is_letter, is_letter_or_digit, is_pn_chars, is_pn_chars_u,
    is_scalar,
};
use qs_lex_regular::hex_digits::HexDigits;
use qs_lex_regular::push::{PushResult, push};

/// What has been read of a front.
#[derive(Clone, Copy)]
pub enum State {
    /// an IRI without its end
    Iri,
    /// the same, and a backslash
    IriBackslash,
    /// the same, and digits of an escape
    IriHex(HexDigits),
    /// an IRI
    IriDone,
    /// a string without its end
    String,
    /// the same, and a backslash
    StringBackslash,
    /// the same, and digits of an escape
    StringHex(HexDigits),
    /// a string
    StringDone,
    /// `@`
    At,
    /// the letters of a language tag
    Tag,
    /// a language tag and `-`
    TagDash,
    /// letters and digits after a `-`
    TagPart,
    /// `_`
    Underscore,
    /// `_:`
    UnderscoreColon,
    /// a label
    Label,
    /// a label and dots
    LabelDot,
    /// `^`
    Caret,
    /// `^^`
    Carets,
    /// `.`
    Dot,
    /// LF or CR
    LineEnd,
}

#[tactic(auto, unfolding(crate::specs::Table::is_string_char))]
fn is_string_char(c: char) -> bool
    ensures { result ≡ is_string_char c }
{
    c != '"' && c != '\\' && c != '\n' && c != '\r'
}

#[tactic(auto, unfolding(crate::specs::Table::is_label_start))]
fn is_label_start(c: char) -> bool
    ensures { result ≡ is_label_start c }
{
    is_pn_chars_u(c) || c == ':' || is_digit(c)
}

#[tactic(auto, unfolding(crate::specs::Table::is_label_char))]
fn is_label_char(c: char) -> bool
    ensures { result ≡ is_label_char c }
{
    is_pn_chars(c) || c == ':'
}

#[tactic(auto, using(crate::proofs::Apart::iri_backslash, crate::proofs::Apart::iri_greater, crate::proofs::Apart::greater_iri, crate::proofs::Apart::backslash_iri))]
fn in_iri(c: char) -> Option<State>
    ensures { MatchOption result (advance (left state.Iri) c ≡ [])
        (λ next. advance (left state.Iri) c ≡ left next) }
{
    if is_iri_char(c) {
        Some(State::Iri)
    } else if c == '\\' {
        Some(State::IriBackslash)
    } else if c == '>' {
        Some(State::IriDone)
    } else {
        None
    }
}

fn behind_iri_backslash(c: char) -> Option<State>
    ensures { MatchOption result (advance (left state.IriBackslash) c ≡ [])
        (λ next. advance (left state.IriBackslash) c ≡ left next) }
{
    if c == 'u' {
        Some(State::IriHex(HexDigits::new(3)))
    } else if c == 'U' {
        Some(State::IriHex(HexDigits::new(7)))
    } else {
        None
    }
}

fn in_iri_escape(digits: HexDigits, c: char) -> Option<State>
    ensures { MatchOption result (advance (left (state.IriHex digits)) c ≡ [])
        (λ next. advance (left (state.IriHex digits)) c ≡ left next) }
{
    match push(digits, c) {
        PushResult::Digit(next) => Some(State::IriHex(next)),
        PushResult::Whole(value) => {
            if is_scalar(value) {
                Some(State::Iri)
            } else {
                None
            }
        }
        PushResult::Other => None,
    }
}

#[tactic(auto, using(crate::proofs::Apart::string_quote, crate::proofs::Apart::string_backslash, crate::proofs::Apart::quote_string, crate::proofs::Apart::backslash_string))]
fn in_string(c: char) -> Option<State>
    ensures { MatchOption result (advance (left state.String) c ≡ [])
        (λ next. advance (left state.String) c ≡ left next) }
{
    if is_string_char(c) {
        Some(State::String)
    } else if c == '\\' {
        Some(State::StringBackslash)
    } else if c == '"' {
        Some(State::StringDone)
    } else {
        None
    }
}

#[tactic(auto, using(crate::proofs::Apart::escaped_u, crate::proofs::Apart::escaped_long_u))]
fn behind_string_backslash(c: char) -> Option<State>
    ensures { MatchOption result (advance (left state.StringBackslash) c ≡ [])
        (λ next. advance (left state.StringBackslash) c ≡ left next) }
{
    if is_escaped(c) {
        Some(State::String)
    } else if c == 'u' {
        Some(State::StringHex(HexDigits::new(3)))
    } else if c == 'U' {
        Some(State::StringHex(HexDigits::new(7)))
    } else {
        None
    }
}

fn in_string_escape(digits: HexDigits, c: char) -> Option<State>
    ensures { MatchOption result (advance (left (state.StringHex digits)) c ≡ [])
        (λ next. advance (left (state.StringHex digits)) c ≡ left next) }
{
    match push(digits, c) {
        PushResult::Digit(next) => Some(State::StringHex(next)),
        PushResult::Whole(value) => {
            if is_scalar(value) {
                Some(State::String)
            } else {
                None
            }
        }
        PushResult::Other => None,
    }
}

#[tactic(auto, using(crate::proofs::Apart::letter_dash))]
fn in_tag(c: char) -> Option<State>
    ensures { MatchOption result (advance (left state.Tag) c ≡ [])
        (λ next. advance (left state.Tag) c ≡ left next) }
{
    if is_letter(c) {
        Some(State::Tag)
    } else if c == '-' {
        Some(State::TagDash)
    } else {
        None
    }
}

#[tactic(auto, using(crate::proofs::Apart::letter_or_digit_dash))]
fn in_tag_part(c: char) -> Option<State>
    ensures { MatchOption result (advance (left state.TagPart) c ≡ [])
        (λ next. advance (left state.TagPart) c ≡ left next) }
{
    if is_letter_or_digit(c) {
        Some(State::TagPart)
    } else if c == '-' {
        Some(State::TagDash)
    } else {
        None
    }
}

#[tactic(auto, using(crate::proofs::Apart::label_dot))]
fn in_label(c: char) -> Option<State>
    ensures { MatchOption result (advance (left state.Label) c ≡ [])
        (λ next. advance (left state.Label) c ≡ left next) }
{
    if is_label_char(c) {
        Some(State::Label)
    } else if c == '.' {
        Some(State::LabelDot)
    } else {
        None
    }
}

#[tactic(auto, using(crate::proofs::Apart::label_dot))]
fn behind_label_dot(c: char) -> Option<State>
    ensures { MatchOption result (advance (left state.LabelDot) c ≡ [])
        (λ next. advance (left state.LabelDot) c ≡ left next) }
{
    if is_label_char(c) {
        Some(State::Label)
    } else if c == '.' {
        Some(State::LabelDot)
    } else {
        None
    }
}

impl State {
    /// The class of the front, where what has been read is one.
    pub fn class(self) -> Option<Class>
        ensures { result ≡ here (left self) }
    {
        match self {
            State::Iri | State::String => Some(Class::Open),
            State::IriBackslash | State::StringBackslash => Some(Class::Broken),
            State::IriDone => Some(Class::Iri),
            State::StringDone => Some(Class::String),
            State::Tag | State::TagPart => Some(Class::Tag),
            State::Label => Some(Class::Label),
            State::Carets => Some(Class::Carets),
            State::Dot => Some(Class::Dot),
            State::LineEnd => Some(Class::LineEnd),
            State::IriHex(_) | State::StringHex(_) => None,
            State::At | State::TagDash => None,
            State::Underscore | State::UnderscoreColon => None,
            State::LabelDot | State::Caret => None,
        }
    }

    /// What has been read with the first character of a front, or `None` where no front begins so.
    #[tactic(auto, using(crate::proofs::Start::starts))]
    pub fn start(c: char) -> Option<State>
        ensures { MatchOption result (begun c ≡ []) (λ next. begun c ≡ left next) }
    {
        match c {
            '<' => Some(State::Iri),
            '"' => Some(State::String),
            '@' => Some(State::At),
            '_' => Some(State::Underscore),
            '^' => Some(State::Caret),
            '.' => Some(State::Dot),
            '\n' => Some(State::LineEnd),
            '\r' => Some(State::LineEnd),
            _ => None,
        }
    }

    /// What has been read with one more character, or `None` where no front goes on so.
    pub fn step(self, c: char) -> Option<State>
        ensures { MatchOption result (advance (left self) c ≡ [])
            (λ next. advance (left self) c ≡ left next) }
    {
        match self {
            State::Iri => in_iri(c),
            State::IriBackslash => behind_iri_backslash(c),
            State::IriHex(escape) => in_iri_escape(escape, c),
            State::String => in_string(c),
            State::StringBackslash => behind_string_backslash(c),
            State::StringHex(escape) => in_string_escape(escape, c),
            State::At => { if is_letter(c) { Some(State::Tag) } else { None } }
            State::Tag => in_tag(c),
            State::TagDash => {
                if is_letter_or_digit(c) {
                    Some(State::TagPart)
                } else {
                    None
                }
            }
            State::TagPart => in_tag_part(c),
            State::Underscore => {
                if c == ':' {
                    Some(State::UnderscoreColon)
                } else {
                    None
                }
            }
            State::UnderscoreColon => {
                if is_label_start(c) {
                    Some(State::Label)
                } else {
                    None
                }
            }
            State::Label => in_label(c),
            State::LabelDot => behind_label_dot(c),
            State::Caret => { if c == '^' { Some(State::Carets) } else { None } }
            State::IriDone | State::StringDone => None,
            State::Carets | State::Dot | State::LineEnd => None,
        }
    }
}
