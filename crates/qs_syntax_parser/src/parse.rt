//! The tree of a list of tokens.

ghost use Rattle.std.specs.Prelude.{IfErr, IfOk};
ghost use Rattle.qs_syntax_grammar.specs.inner.Contract.{ReadsAll, IsOnlyTree, IsRightFault};
ghost use Rattle.qs_syntax_grammar.specs.Grammar.{Spells};
ghost use Rattle.qs_syntax_tree.specs.Rules as rules;
ghost use Rattle.qs_syntax_tree.specs.Table.{grammar};
ghost use Rattle.qs_syntax_tree.specs.inner.Procedures as procedures;
ghost use Rattle.qs_syntax_tree.specs.inner.Table.{guided};

use crate::{queries, updates};
use qs_syntax_grammar::fault::{Fault, ParseFault};
use qs_syntax_tokens::parser::Parser;
use qs_syntax_tokens::tokens::Tokens;
use qs_syntax_tree::query::Query;
use qs_syntax_tree::token::Token;
use qs_syntax_tree::update::Update;
use std::alloc::Global;

fn read_query(alloc: Global, tokens: &[Token]) -> Result<Query, Fault>
    ensures { ReadsAll guided procedures.query tokens.now result }
{
    let depth = tokens.len();
    let mut left = Tokens::new(tokens);
    let tree = queries::query(Parser { alloc, depth }, &mut left)?;
    if left.left() > 0 {
        return Err(left.refuse());
    }
    Ok(tree)
}

fn read_update(alloc: Global, tokens: &[Token]) -> Result<Update, Fault>
    ensures { ReadsAll guided procedures.update tokens.now result }
{
    let depth = tokens.len();
    let mut left = Tokens::new(tokens);
    let tree = updates::update(Parser { alloc, depth }, &mut left)?;
    if left.left() != 0 {
        return Err(left.refuse());
    }
    Ok(tree)
}

/// The query that the tokens spell (SPARQL 1.1 Query, 19.8, [1]).
///
/// The stack that this takes grows with the brackets that are open at once, so a caller limits these first.
///
/// # Errors
/// `ParseFault::Syntax` with the number of the first token such that no tokens that spell a query begin with the tokens up to
/// it and with it, or with the number of tokens where there is none. `ParseFault::Memory` where memory runs out.
pub fn query(alloc: Global, tokens: &[Token]) -> Result<Query, ParseFault>
    // what is read is spelt so
    ensures found { IfOk result (λ tree. Spells grammar rules.query tokens.now tree) }
    // what is spelt is read, unless memory runs out
    ensures only { IsOnlyTree grammar rules.query tokens.now result }
    // a fault is told only where nothing is spelt, and at the place that is due
    ensures fault { IfErr result (λ e. IsRightFault grammar rules.query tokens.now e) }
{
    match read_query(alloc, tokens) {
        Ok(tree) => Ok(tree),
        Err(Fault::Syntax(left)) => Err(ParseFault::Syntax(tokens.len() - left)),
        Err(Fault::Memory) => Err(ParseFault::Memory),
        Err(Fault::Deep) => unreachable!(),
    }
}

/// The update that the tokens spell (SPARQL 1.1 Query, 19.8, [3]).
///
/// The stack that this takes grows with the brackets that are open at once, so a caller limits these first.
///
/// # Errors
/// As of `query`.
pub fn update(alloc: Global, tokens: &[Token]) -> Result<Update, ParseFault>
    ensures found { IfOk result (λ tree. Spells grammar rules.update tokens.now tree) }
    ensures only { IsOnlyTree grammar rules.update tokens.now result }
    ensures fault { IfErr result (λ e. IsRightFault grammar rules.update tokens.now e) }
{
    match read_update(alloc, tokens) {
        Ok(steps) => Ok(steps),
        Err(Fault::Syntax(rest)) => Err(ParseFault::Syntax(tokens.len() - rest)),
        Err(Fault::Memory) => Err(ParseFault::Memory),
        Err(Fault::Deep) => unreachable!(),
    }
}
