//! Marks of one or two characters, a character at a time.

ghost use Rattle.std.specs.Prelude.{◌≡◌, MatchOption, []};
ghost use Rattle.qs_lex_regular.specs.inner.Best.{advance, here};
ghost use Rattle.qs_lex.specs.inner.MarkState.{left_of_mark};

use crate::token::Class;

/// What has been read of a mark.
#[derive(Clone, Copy, PartialEq, Eq, Debug)]
pub enum MarkState {
    /// `|`
    Bar,
    /// `^`
    Caret,
    /// `!` or `>`, after which a `=` may stand
    Equal,
    /// `&`
    Ampersand,
    /// a whole mark
    Done,
}

impl MarkState {
    /// The class of the token, where what has been read is one.
    pub fn class(self) -> Option<Class>
        ensures { result ≡ here (left_of_mark self) }
    {
        match self {
            MarkState::Ampersand => None,
            MarkState::Bar | MarkState::Caret | MarkState::Equal | MarkState::Done => Some(
                Class::Mark,
            ),
        }
    }

    /// What has been read with one more character, or `None` where no mark goes on so.
    pub fn step(self, c: char) -> Option<MarkState>
        ensures { MatchOption result (advance (left_of_mark self) c ≡ [])
            (λ next. advance (left_of_mark self) c ≡ left_of_mark next) }
    {
        match self {
            MarkState::Bar => {
                if c == '|' {
                    Some(MarkState::Done)
                } else {
                    None
                }
            }
            MarkState::Caret => {
                if c == '^' {
                    Some(MarkState::Done)
                } else {
                    None
                }
            }
            MarkState::Equal => {
                if c == '=' {
                    Some(MarkState::Done)
                } else {
                    None
                }
            }
            MarkState::Ampersand => {
                if c == '&' {
                    Some(MarkState::Done)
                } else {
                    None
                }
            }
            MarkState::Done => None,
        }
    }
}
