//! Expressions (SPARQL 1.1 Query, 19.8, [110]).

ghost use Rattle.qs_syntax_grammar.specs.inner.Grammar.{read};
ghost use Rattle.qs_syntax_grammar.specs.inner.Reading.{Reads};
ghost use Rattle.qs_syntax_grammar.specs.Rule.{ref};
ghost use Rattle.qs_syntax_tree.specs.Rules as rules;
ghost use Rattle.qs_syntax_tree.specs.inner.Procedures as procedures;
ghost use Rattle.qs_syntax_tree.specs.Sparql as name;
ghost use Rattle.qs_syntax_tree.specs.inner.Table.{guided};

use crate::operators::Operators;
use qs_syntax_grammar::fault::Fault;
use qs_syntax_tokens::parser::Parser;
use qs_syntax_tokens::tokens::Tokens;
use qs_syntax_tree::expression::{Call, Expression};

/// An expression ([110]).
pub fn expression(parser: Parser, tokens: &mut Tokens<'_>) -> Result<Expression, Fault>
    ensures { Reads (read guided parser.depth (ref name.expression) tokens.old) result tokens.new }
{
    if parser.depth == 0 {
        return Err(Fault::Deep);
    }
    let inner = parser.deeper();
    Operators {
        parser: inner,
        expression,
    }
    .disjunction(tokens)
}

/// An expression in parentheses ([120]).
pub fn parenthesized_expression(
    parser: Parser,
    tokens: &mut Tokens<'_>,
) -> Result<Expression, Fault>
    ensures { Reads (read guided parser.depth rules.parenthesized tokens.old) result tokens.new }
{
    Operators { parser, expression }.parenthesized_expression(tokens)
}

/// A call of a function ([121]).
pub fn call(parser: Parser, tokens: &mut Tokens<'_>) -> Result<Call, Fault>
    ensures { Reads (read guided parser.depth procedures.call tokens.old) result tokens.new }
{
    Operators { parser, expression }.call(tokens)
}
