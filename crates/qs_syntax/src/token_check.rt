//! Faults of the tokens by themselves.

ghost use Rattle.qs_terms.specs.inner.Outcome.{OrOutOfMemory};
ghost use Rattle.qs_syntax.specs.Outcome as spec;

use qs_syntax_limits::{brackets, left_out};
use qs_syntax_tree::token::Token;
use qs_terms::{QFault, Text};
use std::alloc::Global;

/// Refuses the first word, decimal or double that is left out, and then the first bracket with which too many are open.
#[tactic(auto, unfolding(crate::specs::Outcome::screened))]
pub(crate) fn check_tokens(alloc: Global, text: &str, tokens: &[Token]) -> Result<(), QFault>
    ensures { OrOutOfMemory (spec.screened text.now tokens.now) result }
{
    if let Some(word) = left_out(text, tokens) {
        let word = Text::new(alloc, word)?;
        return Err(QFault::LeftOut { word });
    }
    match brackets(tokens) {
        Some(place) => Err(QFault::TooLarge { place }),
        None => Ok(()),
    }
}
