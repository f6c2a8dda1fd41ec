//! The tokens of a text, by kind.

ghost use Rattle.std.specs.Prelude.{◌≡◌, ◌≤◌, ◌+◌, length, MatchResult};
ghost use Rattle.qs_lex.specs.inner.Fault.{IsFaultOf};
ghost use Rattle.qs_lex.specs.inner.Lexes.{lexeme};
ghost use Rattle.qs_syntax.specs.Kinds.{kind_of, token_of};
ghost use Rattle.qs_syntax.specs.Text.{AreTokensOf};

use crate::frequent::{mark_kind, word_kind};
use qs_lex::{Class, Lexer};
use qs_syntax_tree::kind::Kind;
use qs_syntax_tree::token::{Span, Token};
use qs_terms::QFault;
use std::alloc::Global;

fn kind_of(class: Class, text: &str) -> Kind
    ensures { result ≡ kind_of class text.now }
{
    match class {
        Class::IriRef => Kind::IriRef,
        Class::PnameNs => Kind::PnameNs,
        Class::PnameLn => Kind::PnameLn,
        Class::BlankLabel => Kind::BlankLabel,
        Class::Var => Kind::Var,
        Class::Integer => Kind::Integer,
        Class::Signed => Kind::Signed,
        Class::Decimal => Kind::Decimal,
        Class::Double => Kind::Double,
        Class::String => Kind::String,
        Class::LangTag => Kind::LangTag,
        Class::Word => word_kind(text),
        Class::Mark => mark_kind(text),
    }
}

fn token_of(text: &str, t: &qs_lex::Token<'_>) -> Token
    requires { t.now.place + length t.now.text.now ≤ length text.now }
    ensures { result ≡ token_of (lexeme t.now) }
{
    let _ends_within = text.len();
    Token {
        kind: kind_of(t.class, t.text),
        span: Span {
            start: t.place,
            end: t.place + t.text.len(),
        },
    }
}

/// The tokens of a text by kind, each with the bytes of the text where it stands.
///
/// # Errors
/// `QFault::Syntax` with the first byte place, after white space and comments, at which no token begins. `QFault::Memory` for
/// running out of memory, which comes only where the text begins with a token.
pub fn tokens(alloc: Global, text: &str) -> Result<Vec<Token>, QFault>
    ensures { MatchResult result (λ v. AreTokensOf text.now v.items)
        (λ fault. IsFaultOf text.now fault) }
{
    let mut tokens = Vec::new(alloc);
    let mut lexer = Lexer::new(text);
    'tokens: loop {
        match lexer.next() {
            Ok(Some(lexeme)) => tokens.push(token_of(text, &lexeme))?,
            Ok(None) => return Ok(tokens),
            Err(place) => return Err(QFault::Syntax { place }),
        }
    }
}
