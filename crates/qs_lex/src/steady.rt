//! Characters of which tokens hold many in a row.
//!
//! Letters, digits and `_` in names, digits in integers, what IRIs hold, and what strings hold but their marks, backslashes and line ends
//! are passed over at once. They leave what is left of the token's form as it is.

ghost use Rattle.std.specs.Prelude.{◌≡◌, ◌≤◌, length};
ghost use Rattle.std.specs.Str.{chars};
ghost use Rattle.qs_lex_regular.specs.Character.{is_one_of};
ghost use Rattle.qs_lex.specs.inner.Steady.{is_steady, pass};

use crate::letter::{is_iri_char, is_word_char};
use crate::quote::Quote;
use qs_lex_regular::character::is_digit;

/// Which characters leave a state as it is, by a quick test.
#[derive(Clone, Copy)]
pub enum Steady {
    /// letters, digits and `_`
    Word,
    /// digits
    Digit,
    /// what an IRI may hold
    Iri,
    /// what a string may hold, but quotation marks of its kind, backslashes and line ends
    Quoted(Quote),
}

impl Steady {
    /// Whether the character is steady.
    #[inline(always)]
    pub fn is_steady(self, c: char) -> bool
        ensures { result ≡ is_steady self c }
    {
        match self {
            Steady::Word => is_word_char(c),
            Steady::Digit => is_digit(c),
            Steady::Iri => is_iri_char(c),
            Steady::Quoted(quote) => !(c == quote.mark || c == '\\' || c == '\n' || c == '\r'),
        }
    }

    /// The text after the steady characters at its front; the test is known where this is put in line.
    #[inline(always)]
    fn pass(self, text: &str) -> &str
        ensures chars { chars result.now ≡ pass (is_steady self) (chars text.now) }
        ensures len { length result.now ≤ length text.now }
    {
        let mut left = text;
        let mut rest = text.chars();
        'chars: while let Some(c) = rest.next() {
            if !self.is_steady(c) {
                return left;
            }
            left = rest.as_str();
        }
        left
    }

    /// The text after the steady characters at its front, with a loop for each test.
    pub fn behind(self, text: &str) -> &str
        ensures chars { chars result.now ≡ pass (is_steady self) (chars text.now) }
        ensures len { length result.now ≤ length text.now }
    {
        match self {
            Steady::Word => Steady::Word.pass(text),
            Steady::Digit => Steady::Digit.pass(text),
            Steady::Iri => Steady::Iri.pass(text),
            Steady::Quoted(quote) => Steady::Quoted(quote).pass(text),
        }
    }
}
