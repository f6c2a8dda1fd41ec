//! The tables of VALUES (SPARQL 1.1 Query, 19.8, [61] to [65]).

ghost use Rattle.qs_syntax_grammar.specs.inner.Grammar.{read};
ghost use Rattle.qs_syntax_grammar.specs.inner.Reading.{Reads};
ghost use Rattle.qs_syntax_tree.specs.Rules as rules;
ghost use Rattle.qs_syntax_tree.specs.inner.Procedures as procedures;
ghost use Rattle.qs_syntax_tree.specs.inner.Table.{guided};

use qs_base::keep_beside;
use qs_syntax_grammar::fault::Fault;
use qs_syntax_tokens::kinds::VALUES;
use qs_syntax_tokens::parser::Parser;
use qs_syntax_tokens::tokens::Tokens;
use qs_syntax_tokens::trees;
use qs_syntax_tree::kind::Kind;
use qs_syntax_tree::pattern::{DataValue, InlineData};
use qs_syntax_tree::token::Span;
use sqlite_items::Items;

#[tactic(auto, using(qs_syntax_tokens::proofs::FirstKinds::first_iri, qs_syntax_tokens::proofs::FirstKinds::first_literal), unfolding(qs_syntax_tree::specs::Rules::data_value))]
fn data_value(parser: Parser, tokens: &mut Tokens<'_>) -> Result<DataValue, Fault>
    ensures { Reads (read guided parser.depth rules.data_value tokens.old) result tokens.new }
{
    if tokens.peek_is(&[Kind::IriRef, Kind::PnameLn, Kind::PnameNs]) {
        return Ok(DataValue::Iri(parser.iri(tokens)?));
    }
    if tokens.peek_is(&[
        Kind::String,
        Kind::Integer,
        Kind::Signed,
        Kind::True,
        Kind::False,
    ]) {
        return Ok(DataValue::Literal(parser.literal(tokens)?));
    }
    tokens.expect(Kind::Undef)?;
    Ok(DataValue::Undefined)
}

fn variables(parser: Parser, tokens: &mut Tokens<'_>) -> Result<Items<Span>, Fault>
    ensures { Reads (read guided parser.depth procedures.variables tokens.old) result tokens.new }
{
    let mut found = Items::new(parser.alloc);
    for _turn in 0..tokens.turns() {
        if !tokens.peek_is(&[Kind::Var]) {
            return Ok(found);
        }
        let next = parser.var(tokens)?;
        found.push(next)?;
    }
    Err(Fault::Deep)
}

fn data_values(parser: Parser, tokens: &mut Tokens<'_>) -> Result<Items<DataValue>, Fault>
    ensures { Reads (read guided parser.depth procedures.data_values tokens.old) result tokens.new }
{
    let mut found = Items::new(parser.alloc);
    for _turn in 0..tokens.turns() {
        if !tokens.peek_is(&VALUES) {
            return Ok(found);
        }
        let next = data_value(parser, tokens)?;
        found.push(next)?;
    }
    Err(Fault::Deep)
}

#[tactic(auto, unfolding(qs_syntax_tree::specs::inner::Procedures::data_row))]
fn data_row(parser: Parser, tokens: &mut Tokens<'_>) -> Result<Items<DataValue>, Fault>
    ensures { Reads (read guided parser.depth procedures.data_row tokens.old) result tokens.new }
{
    tokens.expect(Kind::LeftParen)?;
    let row = data_values(parser, tokens)?;
    tokens.closing(row, Kind::RightParen)
}

fn data_rows(parser: Parser, tokens: &mut Tokens<'_>) -> Result<Items<Items<DataValue>>, Fault>
    ensures { Reads (read guided parser.depth procedures.data_rows tokens.old) result tokens.new }
{
    let mut found = Items::new(parser.alloc);
    for _turn in 0..tokens.turns() {
        if !tokens.peek_is(&[Kind::LeftParen]) {
            return Ok(found);
        }
        let next = data_row(parser, tokens)?;
        found.push(next)?;
    }
    Err(Fault::Deep)
}

#[tactic(auto, unfolding(qs_syntax_tree::specs::inner::Procedures::variable_list))]
fn variable_list(parser: Parser, tokens: &mut Tokens<'_>) -> Result<Items<Span>, Fault>
    ensures { Reads (read guided parser.depth procedures.variable_list tokens.old) result
        tokens.new }
{
    tokens.expect(Kind::LeftParen)?;
    let variables = variables(parser, tokens)?;
    tokens.closing(variables, Kind::RightParen)
}

#[tactic(auto, unfolding(qs_syntax_tree::specs::inner::Procedures::value_block))]
fn value_block(parser: Parser, tokens: &mut Tokens<'_>) -> Result<Items<DataValue>, Fault>
    ensures { Reads (read guided parser.depth procedures.value_block tokens.old) result tokens.new }
{
    tokens.expect(Kind::LeftBrace)?;
    let values = data_values(parser, tokens)?;
    tokens.closing(values, Kind::RightBrace)
}

#[tactic(auto, unfolding(qs_syntax_tree::specs::inner::Procedures::row_block))]
fn row_block(parser: Parser, tokens: &mut Tokens<'_>) -> Result<Items<Items<DataValue>>, Fault>
    ensures { Reads (read guided parser.depth procedures.row_block tokens.old) result tokens.new }
{
    tokens.expect(Kind::LeftBrace)?;
    let rows = data_rows(parser, tokens)?;
    tokens.closing(rows, Kind::RightBrace)
}

#[tactic(auto, unfolding(qs_syntax_tree::specs::inner::Procedures::column))]
fn column(parser: Parser, tokens: &mut Tokens<'_>) -> Result<InlineData, Fault>
    ensures { Reads (read guided parser.depth procedures.column tokens.old) result tokens.new }
{
    let var = parser.var(tokens)?;
    let values = value_block(parser, tokens)?;
    Ok(trees::column(parser.alloc, var, values)?)
}

#[tactic(auto, unfolding(qs_syntax_tree::specs::inner::Procedures::table))]
fn table(parser: Parser, tokens: &mut Tokens<'_>) -> Result<InlineData, Fault>
    ensures { Reads (read guided parser.depth procedures.table tokens.old) result tokens.new }
{
    let variables = variable_list(parser, tokens)?;
    let (variables, rows) = keep_beside(variables, row_block(parser, tokens))?;
    Ok(InlineData { variables, rows })
}

/// VALUES and its table ([61], [62]).
#[tactic(auto, using(crate::proofs::FirstKinds::first_column), unfolding(qs_syntax_tree::specs::inner::Procedures::values))]
pub fn values(parser: Parser, tokens: &mut Tokens<'_>) -> Result<InlineData, Fault>
    ensures { Reads (read guided parser.depth procedures.values tokens.old) result tokens.new }
{
    tokens.expect(Kind::Values)?;
    if tokens.peek_is(&[Kind::Var]) {
        return column(parser, tokens);
    }
    table(parser, tokens)
}
