//! Group graph patterns (SPARQL 1.1 Query, 19.8, [53] to [69]).

ghost use Rattle.qs_syntax_grammar.specs.inner.Grammar.{read};
ghost use Rattle.qs_syntax_grammar.specs.inner.Reading.{Reads};
ghost use Rattle.qs_syntax_grammar.specs.Rule.{ref};
ghost use Rattle.qs_syntax_tree.specs.Rules as rules;
ghost use Rattle.qs_syntax_tree.specs.inner.Procedures as procedures;
ghost use Rattle.qs_syntax_tree.specs.Sparql as name;
ghost use Rattle.qs_syntax_tree.specs.inner.Table.{guided};

use qs_base::keep_beside;
use qs_syntax_expressions::expressions::{call, expression, parenthesized_expression};
use qs_syntax_grammar::fault::Fault;
use qs_syntax_tokens::kinds::{ELEMENTS, NODES};
use qs_syntax_tokens::parser::Parser;
use qs_syntax_tokens::tokens::Tokens;
use qs_syntax_tokens::trees::all_of;
use qs_syntax_tree::expression::Expression;
use qs_syntax_tree::kind::Kind;
use qs_syntax_tree::pattern::{Element, GraphPattern, Group};
use qs_syntax_tree::token::Span;
use qs_syntax_tree::triples::Form;
use qs_syntax_triples::data::values;
use qs_syntax_triples::triples::triples;
use sqlite_items::Items;

/// A constraint: an expression in parentheses, or a call ([69]).
#[tactic(auto, using(qs_syntax_expressions::proofs::FirstKinds::first_parenthesized), unfolding(qs_syntax_tree::specs::inner::Procedures::constraint))]
pub fn constraint(parser: Parser, tokens: &mut Tokens<'_>) -> Result<Expression, Fault>
    ensures { Reads (read guided parser.depth procedures.constraint tokens.old) result tokens.new }
{
    if tokens.peek_is(&[Kind::LeftParen]) {
        return parenthesized_expression(parser, tokens);
    }
    Ok(Expression::Call(call(parser, tokens)?))
}

#[tactic(auto, unfolding(qs_syntax_tree::specs::inner::Procedures::expression_as_var))]
fn expression_as_var(parser: Parser, tokens: &mut Tokens<'_>) -> Result<(Expression, Span), Fault>
    ensures { Reads (read guided parser.depth procedures.expression_as_var tokens.old) result
        tokens.new }
{
    let expression = expression(parser, tokens)?;
    let expression = tokens.closing(expression, Kind::As)?;
    keep_beside(expression, parser.var(tokens))
}

/// `(e AS ?v)` ([9], [60]).
#[tactic(auto, unfolding(qs_syntax_tree::specs::inner::Procedures::named_expression))]
pub fn named_expression(
    parser: Parser,
    tokens: &mut Tokens<'_>,
) -> Result<(Expression, Span), Fault>
    ensures { Reads (read guided parser.depth procedures.named_expression tokens.old) result
        tokens.new }
{
    tokens.expect(Kind::LeftParen)?;
    let named = expression_as_var(parser, tokens)?;
    tokens.closing(named, Kind::RightParen)
}

#[tactic(auto, unfolding(qs_syntax_tree::specs::Rules::block))]
fn block(parser: Parser, tokens: &mut Tokens<'_>) -> Result<Items<Element>, Fault>
    ensures { Reads (read guided parser.depth rules.block tokens.old) result tokens.new }
{
    let mut found = Items::new(parser.alloc);
    if !tokens.peek_is(&NODES) {
        return Ok(found);
    }
    let place = tokens.place();
    let triples = triples(parser, Form::Pattern, tokens)?;
    found.push(Element {
        place,
        pattern: GraphPattern::Triples(triples),
    })?;
    Ok(found)
}

#[cycle(group)]
fn more_groups(parser: Parser, tokens: &mut Tokens<'_>) -> Result<Items<Group>, Fault>
    ensures { Reads (read guided parser.depth procedures.more_groups tokens.old) result tokens.new }
{
    let mut found = Items::new(parser.alloc);
    for _turn in 0..tokens.turns() {
        if !tokens.peek_is(&[Kind::Union]) {
            return Ok(found);
        }
        tokens.expect(Kind::Union)?;
        let next = group(parser, tokens)?;
        found.push(next)?;
    }
    Err(Fault::Deep)
}

#[cycle(group)]
#[tactic(auto, unfolding(qs_syntax_tree::specs::inner::Procedures::groups))]
fn groups(parser: Parser, tokens: &mut Tokens<'_>) -> Result<Items<Group>, Fault>
    ensures { Reads (read guided parser.depth procedures.groups tokens.old) result tokens.new }
{
    let first = group(parser, tokens)?;
    let (first, others) = keep_beside(first, more_groups(parser, tokens))?;
    Ok(all_of(parser.alloc, first, others)?)
}

#[cycle(group)]
#[tactic(auto, using(crate::proofs::FirstKinds::first_groups), unfolding(qs_syntax_tree::specs::inner::Procedures::element))]
fn element(parser: Parser, tokens: &mut Tokens<'_>) -> Result<GraphPattern, Fault>
    ensures { Reads (read guided parser.depth procedures.element tokens.old) result tokens.new }
{
    if tokens.peek_is(&[Kind::LeftBrace]) {
        return Ok(GraphPattern::Union(groups(parser, tokens)?));
    }
    if tokens.peek_is(&[Kind::Optional]) {
        tokens.expect(Kind::Optional)?;
        return Ok(GraphPattern::Optional(group(parser, tokens)?));
    }
    if tokens.peek_is(&[Kind::Minus]) {
        tokens.expect(Kind::Minus)?;
        return Ok(GraphPattern::Minus(group(parser, tokens)?));
    }
    if tokens.peek_is(&[Kind::Graph]) {
        tokens.expect(Kind::Graph)?;
        let name = parser.var_or_iri(tokens)?;
        return Ok(GraphPattern::Graph(name, group(parser, tokens)?));
    }
    if tokens.peek_is(&[Kind::Filter]) {
        tokens.expect(Kind::Filter)?;
        return Ok(GraphPattern::Filter(constraint(parser, tokens)?));
    }
    if tokens.peek_is(&[Kind::Bind]) {
        tokens.expect(Kind::Bind)?;
        let (expression, var) = named_expression(parser, tokens)?;
        return Ok(GraphPattern::Bind(expression, var));
    }
    Ok(GraphPattern::Values(values(parser, tokens)?))
}

#[cycle(group)]
#[tactic(auto, unfolding(qs_syntax_tree::specs::inner::Procedures::dotted_element))]
fn dotted_element(parser: Parser, tokens: &mut Tokens<'_>) -> Result<Element, Fault>
    ensures { Reads (read guided parser.depth procedures.dotted_element tokens.old) result
        tokens.new }
{
    let place = tokens.place();
    let mut pattern = element(parser, tokens)?;
    if tokens.peek_is(&[Kind::Dot]) {
        pattern = tokens.closing(pattern, Kind::Dot)?;
    }
    Ok(Element { place, pattern })
}

#[cycle(group)]
#[tactic(auto, unfolding(qs_syntax_tree::specs::inner::Procedures::group_step))]
fn group_step(parser: Parser, tokens: &mut Tokens<'_>) -> Result<Items<Element>, Fault>
    ensures { Reads (read guided parser.depth procedures.group_step tokens.old) result tokens.new }
{
    let first = dotted_element(parser, tokens)?;
    let (first, block) = keep_beside(first, block(parser, tokens))?;
    Ok(all_of(parser.alloc, first, block)?)
}

#[cycle(group)]
fn group_steps(parser: Parser, tokens: &mut Tokens<'_>) -> Result<Items<Element>, Fault>
    ensures { Reads (read guided parser.depth procedures.group_steps tokens.old) result tokens.new }
{
    let mut found = Items::new(parser.alloc);
    for _turn in 0..tokens.turns() {
        if !tokens.peek_is(&ELEMENTS) {
            return Ok(found);
        }
        let next = group_step(parser, tokens)?;
        found.append(next)?;
    }
    Err(Fault::Deep)
}

#[cycle(group)]
#[tactic(auto, unfolding(qs_syntax_tree::specs::inner::Procedures::elements))]
fn elements(parser: Parser, tokens: &mut Tokens<'_>) -> Result<Items<Element>, Fault>
    ensures { Reads (read guided parser.depth procedures.elements tokens.old) result tokens.new }
{
    let first = block(parser, tokens)?;
    let (mut found, others) = keep_beside(first, group_steps(parser, tokens))?;
    found.append(others)?;
    Ok(found)
}

#[cycle(group)]
#[tactic(auto, unfolding(qs_syntax_tree::specs::inner::Procedures::group_rule))]
fn braced_group(parser: Parser, tokens: &mut Tokens<'_>) -> Result<Group, Fault>
    ensures { Reads (read guided parser.depth procedures.group_rule tokens.old) result tokens.new }
{
    let place = tokens.place();
    tokens.expect(Kind::LeftBrace)?;
    let elements = elements(parser, tokens)?;
    let elements = tokens.closing(elements, Kind::RightBrace)?;
    Ok(Group { place, elements })
}

/// A group graph pattern ([53]).
#[cycle(group)]
#[tactic(auto, unfolding(qs_syntax_tree::specs::inner::Table::rule))]
pub fn group(parser: Parser, tokens: &mut Tokens<'_>) -> Result<Group, Fault>
    ensures { Reads (read guided parser.depth (ref name.group) tokens.old) result tokens.new }
{
    if parser.depth == 0 {
        return Err(Fault::Deep);
    }
    braced_group(parser.deeper(), tokens)
}
