//! Queries (SPARQL 1.1 Query, 19.8, [1] to [13]).

ghost use Rattle.qs_syntax_grammar.specs.inner.Grammar.{read};
ghost use Rattle.qs_syntax_grammar.specs.inner.Reading.{Reads};
ghost use Rattle.qs_syntax_tree.specs.Rules as rules;
ghost use Rattle.qs_syntax_tree.specs.inner.Procedures as procedures;
ghost use Rattle.qs_syntax_tree.specs.inner.Table.{guided};

use qs_base::keep_beside;
use qs_syntax_grammar::fault::Fault;
use qs_syntax_patterns::groups::{group, named_expression};
use qs_syntax_patterns::modifiers::modifiers;
use qs_syntax_tokens::parser::Parser;
use qs_syntax_tokens::tokens::Tokens;
use qs_syntax_tokens::trees::all_of;
use qs_syntax_tree::kind::Kind;
use qs_syntax_tree::pattern::Group;
use qs_syntax_tree::query::{
    Ask, Construct, Duplicates, PrefixDeclaration, Projection, Query, QueryForm, Select,
    SelectItem, SolutionModifiers,
};
use qs_syntax_triples::data;
use qs_syntax_triples::triples::template_braces;
use sqlite_items::Items;

#[tactic(auto, unfolding(qs_syntax_tree::specs::inner::Procedures::prefix_declaration))]
fn prefix_declaration(parser: Parser, tokens: &mut Tokens<'_>) -> Result<PrefixDeclaration, Fault>
    ensures { Reads (read guided parser.depth procedures.prefix_declaration tokens.old) result
        tokens.new }
{
    tokens.expect(Kind::Prefix)?;
    let prefix = tokens.expect(Kind::PnameNs)?.span;
    let iri = tokens.expect(Kind::IriRef)?.span;
    Ok(PrefixDeclaration { prefix, iri })
}

/// The declarations of prefixes ([4]).
pub fn prologue(parser: Parser, tokens: &mut Tokens<'_>) -> Result<Items<PrefixDeclaration>, Fault>
    ensures { Reads (read guided parser.depth procedures.prologue tokens.old) result tokens.new }
{
    let mut found = Items::new(parser.alloc);
    for _turn in 0..tokens.turns() {
        if !tokens.peek_is(&[Kind::Prefix]) {
            return Ok(found);
        }
        let next = prefix_declaration(parser, tokens)?;
        found.push(next)?;
    }
    Err(Fault::Deep)
}

#[tactic(auto, unfolding(qs_syntax_tree::specs::Rules::where_clause))]
fn where_clause(parser: Parser, tokens: &mut Tokens<'_>) -> Result<Group, Fault>
    ensures { Reads (read guided parser.depth rules.where_clause tokens.old) result tokens.new }
{
    if tokens.peek_is(&[Kind::Where]) {
        tokens.expect(Kind::Where)?;
    }
    group(parser, tokens)
}

#[tactic(auto, unfolding(qs_syntax_tree::specs::inner::Procedures::duplicates))]
fn duplicates(parser: Parser, tokens: &mut Tokens<'_>) -> Result<Duplicates, Fault>
    ensures { Reads (read guided parser.depth procedures.duplicates tokens.old) result tokens.new }
{
    if tokens.peek_is(&[Kind::Distinct]) {
        tokens.expect(Kind::Distinct)?;
        return Ok(Duplicates::Distinct);
    }
    if tokens.peek_is(&[Kind::Reduced]) {
        tokens.expect(Kind::Reduced)?;
        return Ok(Duplicates::Reduced);
    }
    Ok(Duplicates::Kept)
}

#[tactic(auto, unfolding(qs_syntax_tree::specs::inner::Procedures::item))]
fn item(parser: Parser, tokens: &mut Tokens<'_>) -> Result<SelectItem, Fault>
    ensures { Reads (read guided parser.depth procedures.item tokens.old) result tokens.new }
{
    if tokens.peek_is(&[Kind::Var]) {
        return Ok(SelectItem::Var(parser.var(tokens)?));
    }
    let (expression, var) = named_expression(parser, tokens)?;
    Ok(SelectItem::As(expression, var))
}

fn items(parser: Parser, tokens: &mut Tokens<'_>) -> Result<Items<SelectItem>, Fault>
    ensures { Reads (read guided parser.depth procedures.items tokens.old) result tokens.new }
{
    let mut found = Items::new(parser.alloc);
    for _turn in 0..tokens.turns() {
        if !tokens.peek_is(&[Kind::Var, Kind::LeftParen]) {
            return Ok(found);
        }
        let next = item(parser, tokens)?;
        found.push(next)?;
    }
    Err(Fault::Deep)
}

#[tactic(auto, using(crate::proofs::FirstKinds::first_item, crate::proofs::FirstKinds::nullable_item), unfolding(qs_syntax_tree::specs::inner::Procedures::projection))]
fn projection(parser: Parser, tokens: &mut Tokens<'_>) -> Result<Projection, Fault>
    ensures { Reads (read guided parser.depth procedures.projection tokens.old) result tokens.new }
{
    if tokens.peek_is(&[Kind::Var, Kind::LeftParen]) {
        let first = item(parser, tokens)?;
        let (first, others) = keep_beside(first, items(parser, tokens))?;
        return Ok(Projection::Items(all_of(parser.alloc, first, others)?));
    }
    tokens.expect(Kind::Star)?;
    Ok(Projection::All)
}

#[tactic(auto, unfolding(qs_syntax_tree::specs::inner::Procedures::select_clause))]
fn select_clause(parser: Parser, tokens: &mut Tokens<'_>) -> Result<(Duplicates, Projection), Fault>
    ensures { Reads (read guided parser.depth procedures.select_clause tokens.old) result
        tokens.new }
{
    tokens.expect(Kind::Select)?;
    let duplicates = duplicates(parser, tokens)?;
    Ok((duplicates, projection(parser, tokens)?))
}

#[tactic(auto, unfolding(qs_syntax_tree::specs::inner::Procedures::where_modifiers))]
fn where_modifiers(
    parser: Parser,
    tokens: &mut Tokens<'_>,
) -> Result<(Group, SolutionModifiers), Fault>
    ensures { Reads (read guided parser.depth procedures.where_modifiers tokens.old) result
        tokens.new }
{
    let pattern = where_clause(parser, tokens)?;
    keep_beside(pattern, modifiers(parser, tokens))
}

#[tactic(auto, unfolding(qs_syntax_tree::specs::inner::Procedures::select))]
fn select(parser: Parser, tokens: &mut Tokens<'_>) -> Result<Select, Fault>
    ensures { Reads (read guided parser.depth procedures.select tokens.old) result tokens.new }
{
    let clause = select_clause(parser, tokens)?;
    let ((duplicates, projection), (pattern, modifiers)) = keep_beside(
        clause,
        where_modifiers(parser, tokens),
    )?;
    Ok(Select {
        duplicates,
        projection,
        pattern,
        modifiers,
    })
}

#[tactic(auto, unfolding(qs_syntax_tree::specs::inner::Procedures::long_construct))]
fn long_construct(parser: Parser, tokens: &mut Tokens<'_>) -> Result<Construct, Fault>
    ensures { Reads (read guided parser.depth procedures.long_construct tokens.old) result
        tokens.new }
{
    let template = template_braces(parser, tokens)?;
    let (template, (pattern, modifiers)) = keep_beside(template, where_modifiers(parser, tokens))?;
    Ok(Construct {
        template,
        pattern: Some(pattern),
        modifiers,
    })
}

#[tactic(auto, unfolding(qs_syntax_tree::specs::inner::Procedures::short_construct))]
fn short_construct(parser: Parser, tokens: &mut Tokens<'_>) -> Result<Construct, Fault>
    ensures { Reads (read guided parser.depth procedures.short_construct tokens.old) result
        tokens.new }
{
    tokens.expect(Kind::Where)?;
    let template = template_braces(parser, tokens)?;
    let (template, modifiers) = keep_beside(template, modifiers(parser, tokens))?;
    Ok(Construct {
        template,
        pattern: None,
        modifiers,
    })
}

#[tactic(auto, using(crate::proofs::FirstKinds::first_long_construct), unfolding(qs_syntax_tree::specs::inner::Procedures::construct))]
fn construct(parser: Parser, tokens: &mut Tokens<'_>) -> Result<Construct, Fault>
    ensures { Reads (read guided parser.depth procedures.construct tokens.old) result tokens.new }
{
    tokens.expect(Kind::Construct)?;
    if tokens.peek_is(&[Kind::LeftBrace]) {
        return long_construct(parser, tokens);
    }
    short_construct(parser, tokens)
}

#[tactic(auto, unfolding(qs_syntax_tree::specs::inner::Procedures::ask))]
fn ask(parser: Parser, tokens: &mut Tokens<'_>) -> Result<Ask, Fault>
    ensures { Reads (read guided parser.depth procedures.ask tokens.old) result tokens.new }
{
    tokens.expect(Kind::Ask)?;
    let (pattern, modifiers) = where_modifiers(parser, tokens)?;
    Ok(Ask { pattern, modifiers })
}

#[tactic(auto, using(crate::proofs::FirstKinds::first_select, crate::proofs::FirstKinds::first_construct), unfolding(qs_syntax_tree::specs::inner::Procedures::query_form))]
fn query_form(parser: Parser, tokens: &mut Tokens<'_>) -> Result<QueryForm, Fault>
    ensures { Reads (read guided parser.depth procedures.query_form tokens.old) result tokens.new }
{
    if tokens.peek_is(&[Kind::Select]) {
        return Ok(QueryForm::Select(select(parser, tokens)?));
    }
    if tokens.peek_is(&[Kind::Construct]) {
        return Ok(QueryForm::Construct(construct(parser, tokens)?));
    }
    Ok(QueryForm::Ask(ask(parser, tokens)?))
}

/// A query ([2]).
#[tactic(auto, using(crate::proofs::FirstKinds::first_values), unfolding(qs_syntax_tree::specs::inner::Procedures::query))]
pub fn query(parser: Parser, tokens: &mut Tokens<'_>) -> Result<Query, Fault>
    ensures { Reads (read guided parser.depth procedures.query tokens.old) result tokens.new }
{
    let prologue = prologue(parser, tokens)?;
    let head = keep_beside(prologue, query_form(parser, tokens))?;
    let ((prologue, form), values) = if tokens.peek_is(&[Kind::Values]) {
        let (head, values) = keep_beside(head, data::values(parser, tokens))?;
        (head, Some(values))
    } else {
        (head, None)
    };
    Ok(Query {
        prologue,
        form,
        values,
    })
}
