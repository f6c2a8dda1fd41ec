//! The trees that tokens spell, or the fault of tokens that spell none.

ghost use Rattle.std.specs.Prelude.{◌≡◌, IfOk, IfErr};
ghost use Rattle.qs_syntax_grammar.specs.Grammar.{Spells};
ghost use Rattle.qs_syntax.specs.Text.{place_of_number};
ghost use Rattle.qs_syntax.specs.inner.Text.{IsTreeFault};
ghost use Rattle.qs_syntax_tree.specs.Rules as rules;
ghost use Rattle.qs_syntax_tree.specs.Table.{grammar};

use qs_syntax_grammar::fault::ParseFault;
use qs_syntax_tree::query::Query;
use qs_syntax_tree::token::Token;
use qs_syntax_tree::update::Update;
use qs_terms::QFault;
use std::alloc::Global;

// the place of the token of that number, or the text's end
fn place_of_number(end: usize, number: usize, tokens: &[Token]) -> usize
    ensures { result ≡ place_of_number end number tokens.now }
{
    match tokens.get(number) {
        Some(token) => token.span.start,
        None => end,
    }
}

/// The tree that the tokens of a query spell (SPARQL 1.1 Query, 19.8, [1]); the text ends at `end`. The stack that this takes grows
/// with the brackets that are open at once, so a caller limits these first.
pub(crate) fn query_of_tokens(alloc: Global, end: usize, tokens: &[Token]) -> Result<Query, QFault>
    ensures found { IfOk result (λ tree. Spells grammar rules.query tokens.now tree) }
    ensures fault { IfErr result (λ e. IsTreeFault rules.query end tokens.now e) }
{
    match qs_syntax_parser::query(alloc, tokens) {
        Ok(tree) => Ok(tree),
        Err(ParseFault::Memory) => Err(QFault::Memory),
        Err(ParseFault::Syntax(number)) => Err(QFault::Syntax {
            place: place_of_number(end, number, tokens),
        }),
    }
}

/// The tree that the tokens of an update spell (SPARQL 1.1 Query, 19.8, [3]); the text ends at `end`. Its stack is as that of
/// `query_of_tokens`.
pub(crate) fn update_of_tokens(
    alloc: Global,
    end: usize,
    tokens: &[Token],
) -> Result<Update, QFault>
    ensures found { IfOk result (λ tree. Spells grammar rules.update tokens.now tree) }
    ensures fault { IfErr result (λ e. IsTreeFault rules.update end tokens.now e) }
{
    match qs_syntax_parser::update(alloc, tokens) {
        Ok(tree) => Ok(tree),
        Err(ParseFault::Memory) => Err(QFault::Memory),
        Err(ParseFault::Syntax(number)) => Err(QFault::Syntax {
            place: place_of_number(end, number, tokens),
        }),
    }
}
