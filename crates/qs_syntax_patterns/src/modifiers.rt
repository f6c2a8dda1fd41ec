//! Solution modifiers (SPARQL 1.1 Query, 19.8, [18] to [27]).

ghost use Rattle.qs_syntax_grammar.specs.inner.Grammar.{read};
ghost use Rattle.qs_syntax_grammar.specs.inner.Reading.{Reads};
ghost use Rattle.qs_syntax_tree.specs.Rules as rules;
ghost use Rattle.qs_syntax_tree.specs.inner.Procedures as procedures;
ghost use Rattle.qs_syntax_tree.specs.inner.Table.{guided};

use crate::groups::constraint;
use qs_base::keep_beside;
use qs_syntax_expressions::expressions::parenthesized_expression;
use qs_syntax_grammar::fault::Fault;
use qs_syntax_tokens::kinds::{CONSTRAINTS, ORDERS};
use qs_syntax_tokens::parser::Parser;
use qs_syntax_tokens::tokens::Tokens;
use qs_syntax_tokens::trees::all_of;
use qs_syntax_tree::expression::Expression;
use qs_syntax_tree::kind::Kind;
use qs_syntax_tree::query::{Direction, OrderCondition, SolutionModifiers};
use qs_syntax_tree::token::Span;
use sqlite_items::Items;

#[tactic(auto, using(crate::proofs::FirstKinds::first_constraint), unfolding(qs_syntax_tree::specs::inner::Procedures::order))]
fn order(parser: Parser, tokens: &mut Tokens<'_>) -> Result<OrderCondition, Fault>
    ensures { Reads (read guided parser.depth procedures.order tokens.old) result tokens.new }
{
    if tokens.peek_is(&[Kind::Asc]) {
        tokens.expect(Kind::Asc)?;
        let key = parenthesized_expression(parser, tokens)?;
        return Ok(OrderCondition {
            direction: Direction::Ascending,
            key,
        });
    }
    if tokens.peek_is(&[Kind::Desc]) {
        tokens.expect(Kind::Desc)?;
        let key = parenthesized_expression(parser, tokens)?;
        return Ok(OrderCondition {
            direction: Direction::Descending,
            key,
        });
    }
    if tokens.peek_is(&CONSTRAINTS) {
        let key = constraint(parser, tokens)?;
        return Ok(OrderCondition {
            direction: Direction::Ascending,
            key,
        });
    }
    let key = Expression::Var(parser.var(tokens)?);
    Ok(OrderCondition {
        direction: Direction::Ascending,
        key,
    })
}

fn orders(parser: Parser, tokens: &mut Tokens<'_>) -> Result<Items<OrderCondition>, Fault>
    ensures { Reads (read guided parser.depth procedures.orders tokens.old) result tokens.new }
{
    let mut found = Items::new(parser.alloc);
    for _turn in 0..tokens.turns() {
        if !tokens.peek_is(&ORDERS) {
            return Ok(found);
        }
        let next = order(parser, tokens)?;
        found.push(next)?;
    }
    Err(Fault::Deep)
}

#[tactic(auto, unfolding(qs_syntax_tree::specs::inner::Procedures::order_list))]
fn order_list(parser: Parser, tokens: &mut Tokens<'_>) -> Result<Items<OrderCondition>, Fault>
    ensures { Reads (read guided parser.depth procedures.order_list tokens.old) result tokens.new }
{
    let first = order(parser, tokens)?;
    let (first, others) = keep_beside(first, orders(parser, tokens))?;
    Ok(all_of(parser.alloc, first, others)?)
}

#[tactic(auto, unfolding(qs_syntax_tree::specs::inner::Procedures::order_clause))]
fn order_clause(parser: Parser, tokens: &mut Tokens<'_>) -> Result<Items<OrderCondition>, Fault>
    ensures { Reads (read guided parser.depth procedures.order_clause tokens.old) result
        tokens.new }
{
    if !tokens.peek_is(&[Kind::Order]) {
        return Ok(Items::new(parser.alloc));
    }
    tokens.expect(Kind::Order)?;
    tokens.expect(Kind::By)?;
    order_list(parser, tokens)
}

#[tactic(auto, unfolding(qs_syntax_tree::specs::Rules::limit))]
fn limit(parser: Parser, tokens: &mut Tokens<'_>) -> Result<Span, Fault>
    ensures { Reads (read guided parser.depth rules.limit tokens.old) result tokens.new }
{
    tokens.expect(Kind::Limit)?;
    Ok(tokens.expect(Kind::Integer)?.span)
}

#[tactic(auto, unfolding(qs_syntax_tree::specs::Rules::offset))]
fn offset(parser: Parser, tokens: &mut Tokens<'_>) -> Result<Span, Fault>
    ensures { Reads (read guided parser.depth rules.offset tokens.old) result tokens.new }
{
    tokens.expect(Kind::Offset)?;
    Ok(tokens.expect(Kind::Integer)?.span)
}

#[tactic(auto, using(crate::proofs::FirstKinds::first_limit, crate::proofs::FirstKinds::first_offset, crate::proofs::FirstKinds::nullable_limit, crate::proofs::FirstKinds::nullable_offset), unfolding(qs_syntax_tree::specs::Rules::slice))]
fn slice(parser: Parser, tokens: &mut Tokens<'_>) -> Result<(Option<Span>, Option<Span>), Fault>
    ensures { Reads (read guided parser.depth rules.slice tokens.old) result tokens.new }
{
    if tokens.peek_is(&[Kind::Limit]) {
        let limit = limit(parser, tokens)?;
        if tokens.peek_is(&[Kind::Offset]) {
            return Ok((Some(limit), Some(offset(parser, tokens)?)));
        }
        return Ok((Some(limit), None));
    }
    if tokens.peek_is(&[Kind::Offset]) {
        let offset = offset(parser, tokens)?;
        if tokens.peek_is(&[Kind::Limit]) {
            return Ok((Some(limit(parser, tokens)?), Some(offset)));
        }
        return Ok((None, Some(offset)));
    }
    Ok((None, None))
}

/// The solution modifiers after a pattern, each of which may be absent ([18]).
#[tactic(auto, unfolding(qs_syntax_tree::specs::inner::Procedures::modifiers))]
pub fn modifiers(parser: Parser, tokens: &mut Tokens<'_>) -> Result<SolutionModifiers, Fault>
    ensures { Reads (read guided parser.depth procedures.modifiers tokens.old) result tokens.new }
{
    let order = order_clause(parser, tokens)?;
    let (order, (limit, offset)) = keep_beside(order, slice(parser, tokens))?;
    Ok(SolutionModifiers {
        order,
        limit,
        offset,
    })
}
