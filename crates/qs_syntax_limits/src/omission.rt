//! Tokens that the grammar leaves out.

ghost use Rattle.std.specs.Prelude.{◌≡◌};
ghost use Rattle.std.specs.Option.{option_copied};
ghost use Rattle.qs_syntax_limits.specs.LeftOut as spec;
ghost use Rattle.qs_syntax_limits.specs.inner.LeftOut as inner;

use crate::words::is_left_out_word;
use qs_lex_escapes::piece::piece;
use qs_syntax_tree::kind::Kind;
use qs_syntax_tree::token::Token;

fn is_left_out(text: &str, token: &Token) -> bool
    ensures { result ≡ inner.is_left_out text.now token.now }
{
    match token.kind {
        Kind::Decimal | Kind::Double => true,
        Kind::Word => is_left_out_word(piece(text, token.span.start, token.span.end)),
        _ => false,
    }
}

/// The first token that the grammar leaves out, as it is written: a decimal, a double, or a word of SPARQL 1.1 that is neither a
/// keyword nor the name of a function here.
pub fn left_out<'a>(text: &'a str, tokens: &[Token]) -> Option<&'a str>
    ensures { option_copied result ≡ spec.left_out text.now tokens.now }
{
    let mut left = tokens;
    while let [token, rest @ ..] = left {
        if is_left_out(text, token) {
            return Some(piece(text, token.span.start, token.span.end));
        }
        left = rest;
    }
    None
}
