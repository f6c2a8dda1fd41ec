//! Queries and updates of texts.
//!
//! A text without tokens is answered before it is parsed: a query is a fault of syntax at its end, an update is lawful and has no
//! operation. So out of memory is answered only of a text that begins with a token.

ghost use Rattle.std.specs.Prelude.{◌≡◌, IfOk, IfErr, length};
ghost use Rattle.qs_syntax_grammar.specs.Grammar.{Spells};
ghost use Rattle.qs_lex.specs.inner.Fault.{HasToken};
ghost use Rattle.qs_syntax_tree.specs.Rules as rules;
ghost use Rattle.qs_syntax_tree.specs.Table.{grammar};
ghost use Rattle.qs_terms.specs.Outcome.{OneOrOutOfMemory};
ghost use Rattle.qs_terms.specs.declared.fault.QFault.TheVariants.{Memory};
ghost use Rattle.qs_syntax.specs.Outcome.{query_outcome, update_outcome, IsQueryOutcome, IsUpdateOutcome};
ghost use Rattle.qs_syntax.specs.inner.Outcome.{IsOutcomeOfTokens};

use crate::resolve_and_check::{resolve_and_check_query, resolve_and_check_update, settle_nothing};
use crate::token::tokens;
use crate::token_check::check_tokens;
use crate::tree::{query_of_tokens, update_of_tokens};
use qs_syntax_ast::query::Query;
use qs_syntax_ast::update::Update;
use qs_syntax_tree::token::Token;
use qs_terms::QFault;
use std::alloc::Global;

fn query_of(alloc: Global, text: &str, tokens: &[Token]) -> Result<Query, QFault>
    ensures { OneOrOutOfMemory (IsOutcomeOfTokens rules.query (query_outcome text.now) text.now
        tokens.now) result }
{
    check_tokens(alloc, text, tokens)?;
    let tree = query_of_tokens(alloc, text.len(), tokens)?;
    resolve_and_check_query(alloc, text, &tree)
}

fn update_of(alloc: Global, text: &str, tokens: &[Token]) -> Result<Update, QFault>
    ensures { OneOrOutOfMemory (IsOutcomeOfTokens rules.update (update_outcome text.now) text.now
        tokens.now) result }
{
    check_tokens(alloc, text, tokens)?;
    let tree = update_of_tokens(alloc, text.len(), tokens)?;
    resolve_and_check_update(alloc, text, tree)
}

/// The query of a text, with its names resolved (SPARQL 1.1 Query, 19.8, [1]).
///
/// # Errors
/// The one that is due, in this order; places are bytes from 0. `QFault::Syntax` where no token begins. `QFault::LeftOut` with the
/// first decimal, double or word that is left out. `QFault::TooLarge` at the first bracket with which 65 are open. `QFault::Syntax`
/// at the first token such that no tokens that spell a query begin with the tokens up to it and with it, or at the text's end.
/// Whichever has the first place of `QFault::Prefix` at a name whose prefix isn't declared, `QFault::RelativeIri` at an IRI without a
/// scheme, and `QFault::TooLarge` at the 257th element of a group or operand of a chain; at one place in this order.
/// `QFault::Scope` where a rule of scope is broken (SPARQL 1.1 Query, the notes in 19.8). `QFault::Memory` where memory runs out, at
/// any time once there is a token.
pub fn parse_query(alloc: Global, text: &str) -> Result<Query, QFault>
    ensures outcome { OneOrOutOfMemory (IsQueryOutcome text.now) result }
    ensures kept { IfErr result (λ fault. fault ≡ Memory → HasToken text.now) }
{
    let tokens = tokens(alloc, text)?;
    if tokens.is_empty() {
        return Err(QFault::Syntax { place: text.len() });
    }
    query_of(alloc, text, &tokens)
}

/// The update of a text, with its names resolved (SPARQL 1.1 Query, 19.8, [3]).
///
/// # Errors
/// As of `parse_query`. A text without tokens is an update without operations.
pub fn parse_update(alloc: Global, text: &str) -> Result<Update, QFault>
    ensures outcome { OneOrOutOfMemory (IsUpdateOutcome text.now) result }
    ensures kept { IfErr result (λ fault. fault ≡ Memory → HasToken text.now) }
{
    let tokens = tokens(alloc, text)?;
    if tokens.is_empty() {
        return Ok(settle_nothing(alloc));
    }
    update_of(alloc, text, &tokens)
}
