//! From a text to its tokens.

ghost use Rattle.std.specs.Prelude.{map, All, AllPairs, IfOk, MatchResult};
ghost use Rattle.qs_lex.specs.inner.Fault.{IsFaultOf};
ghost use Rattle.qs_lex.specs.Lexes.{Lexes};
ghost use Rattle.qs_lex.specs.inner.Lexes.{lexeme};
ghost use Rattle.qs_lex.specs.inner.Place.{IsSliceOf, StandsBefore};

use crate::lexer::Lexer;
use crate::token::Token;
use qs_terms::QFault;
use std::alloc::Global;

/// The tokens of a text: at each place, after white space and comments, the longest token that the table has.
///
/// # Errors
/// `QFault::Syntax` with the first byte place, after white space and comments, at which no token begins. `QFault::Memory`
/// where a growth was refused, which is asked for only once a token was read.
pub fn tokens(alloc: Global, text: &str) -> Result<Vec<Token<'_>>, QFault>
    ensures reading { MatchResult result (λ v. Lexes text.now (map lexeme v.items))
        (λ fault. IsFaultOf text.now fault) }
    ensures slices { IfOk result (λ v. All (IsSliceOf text.now) v.items) }
    ensures ascending { IfOk result (λ v. AllPairs StandsBefore v.items) }
{
    let mut tokens = Vec::new(alloc);
    let mut lexer = Lexer::new(text);
    'tokens: loop {
        match lexer.next() {
            Ok(Some(token)) => tokens.push(token)?,
            Ok(None) => return Ok(tokens),
            Err(place) => return Err(QFault::Syntax { place }),
        }
    }
}
