//! Brackets that are open at once.
//!
//! A closing bracket of another sort takes an open one away too; such a text has no tree.

ghost use Rattle.std.specs.Prelude.{◌≡◌, ◌<◌, ◌≤◌};
ghost use Rattle.qs_syntax_limits.specs.Brackets as spec;

use qs_syntax_tree::kind::Kind;
use qs_syntax_tree::token::Token;

/// The most brackets that may be open at once.
pub const LIMIT: usize = 64;

fn open_after(kind: Kind, count: usize) -> usize
    requires { count ≤ LIMIT }
    ensures { result ≡ spec.open_after kind count }
{
    match kind {
        Kind::LeftBrace | Kind::LeftParen | Kind::LeftBracket => count + 1,
        Kind::RightBrace | Kind::RightParen | Kind::RightBracket => count.saturating_sub(1),
        _ => count,
    }
}

/// The place of the first `{`, `(` or `[` with which 65 of these are open, of whatever sort. A closing one takes one away, or
/// nothing where none is open.
pub fn brackets(tokens: &[Token]) -> Option<usize>
    ensures { result ≡ spec.brackets tokens.now }
{
    let mut count = 0;
    let mut left = tokens;
    while let [token, rest @ ..] = left {
        count = open_after(token.kind, count);
        if count > LIMIT {
            return Some(token.span.start);
        }
        left = rest;
    }
    None
}
