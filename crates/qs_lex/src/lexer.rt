//! A text that is read a token at a time.
//!
//! Reads one token after another without memory. The token lists of `qs_lex` and `qs_syntax` are loops over it, so no text has
//! its tokens in memory twice. Out of memory is answered only once there is a token to keep.

ghost use Rattle.std.specs.Prelude.{◌≡◌, ◌<◌, ◌≤◌, ◌+◌, [], List, length, IfOk, IfErr, IfSome, OnSome};
ghost use Rattle.qs_lex.specs.Lexes.{Lexeme, StopsAt};
ghost use Rattle.qs_lex.specs.inner.Unread.{HasRead, HasComeTo};

use crate::gap::after_gap;
use crate::longest::longest;
use crate::run::{Run, has_no_prefix, look};
use crate::token::Token;
use std::marker::Model;

/// A text that is read a token at a time, without memory.
#[derive(Drop)]
pub struct Lexer<'a> {
    text: &'a str,
    rest: &'a str,
    ahead: Run,
}

impl<'a> Model for Lexer<'a> {
    ghost use Rattle.std.specs.Prelude.{◌≡◌, ◌≤◌, true, length};
    ghost use Rattle.std.specs.Str.{chars};
    ghost use Rattle.qs_lex.specs.inner.Unread.{Unread};
    ghost use Rattle.qs_lex.specs.inner.Prefix.{IsBarren};

    ghost Value = { Unread };

    ghost view = { λ l. record { bytes = l.text.now; rest = l.rest.now } };

    ghost invariant = { λ l. (length l.rest.now ≤ length l.text.now) × (l.ahead.barren ≡ true → IsBarren (chars l.rest.now) l.ahead.left) };
}

impl<'a> Lexer<'a> {
    /// A lexer of the text, which has read nothing.
    pub fn new(text: &'a str) -> Lexer<'a>
        ensures bytes { result.bytes ≡ text.now }
        ensures read { HasRead [] result }
    {
        Lexer {
            text,
            rest: text,
            ahead: Run {
                left: text.len(),
                barren: false,
            },
        }
    }

    /// The next token, which is the longest that the table has after white space and comments, or `None` after the last one.
    /// After an error the lexer stands where it stood.
    ///
    /// # Errors
    /// The first byte place, after white space and comments, at which no token begins.
    pub fn next(&mut self) -> Result<Option<Token<'a>>, usize>
        ensures bytes { self.new.bytes ≡ self.old.bytes }
        ensures next { IfOk result (λ next. (ts : List Lexeme) → HasRead ts self.old
            → HasComeTo ts next self.new) }
        ensures shorter { IfOk result
            (λ next. OnSome next (length self.new.rest < length self.old.rest)) }
        ensures within { IfOk result
            (λ next. IfSome next (λ t. t.place + length t.text.now ≤ length self.old.bytes)) }
        ensures fault { IfErr result (λ place. (ts : List Lexeme) → HasRead ts self.old
            → StopsAt self.old.bytes place) }
        ensures kept { IfErr result (λ _. self.new ≡ self.old) }
    {
        let front = after_gap(self.rest);
        if front.is_empty() {
            return Ok(None);
        }
        let place = self.text.len() - front.len();
        let ahead = look(self.ahead, front);
        let Some((class, len)) = longest(front, has_no_prefix(ahead, front)) else {
            return Err(place);
        };
        let (slice, after) = front.split_at(len);
        self.rest = after;
        self.ahead = ahead;
        Ok(Some(Token {
            class,
            place,
            text: slice,
        }))
    }
}
