//! Quads of updates (SPARQL 1.1 Query, 19.8, [48] to [52]).

ghost use Rattle.qs_syntax_grammar.specs.inner.Grammar.{read};
ghost use Rattle.qs_syntax_grammar.specs.inner.Reading.{Reads};
ghost use Rattle.qs_syntax_tree.specs.inner.Procedures as procedures;
ghost use Rattle.qs_syntax_tree.specs.inner.Table.{guided};

use crate::triples::{template_braces, triples};
use qs_base::keep_beside;
use qs_syntax_grammar::fault::Fault;
use qs_syntax_tokens::kinds::NODES;
use qs_syntax_tokens::parser::Parser;
use qs_syntax_tokens::tokens::Tokens;
use qs_syntax_tokens::trees::all_of;
use qs_syntax_tree::kind::Kind;
use qs_syntax_tree::triples::Form;
use qs_syntax_tree::update::{QuadElement, QuadPattern, Quads};
use sqlite_items::Items;

#[tactic(auto, unfolding(qs_syntax_tree::specs::inner::Procedures::quads_block))]
fn quads_block(parser: Parser, tokens: &mut Tokens<'_>) -> Result<Items<QuadElement>, Fault>
    ensures { Reads (read guided parser.depth procedures.quads_block tokens.old) result tokens.new }
{
    if !tokens.peek_is(&NODES) {
        return Ok(Items::new(parser.alloc));
    }
    let mut found = Items::from_vec(Vec::with_capacity(parser.alloc, 1)?);
    let place = tokens.place();
    let triples = triples(parser, Form::Template, tokens)?;
    found.push(QuadElement {
        place,
        quads: Quads::Triples(triples),
    })?;
    Ok(found)
}

#[tactic(auto, unfolding(qs_syntax_tree::specs::inner::Procedures::quads_graph))]
fn quads_graph(parser: Parser, tokens: &mut Tokens<'_>) -> Result<QuadElement, Fault>
    ensures { Reads (read guided parser.depth procedures.quads_graph tokens.old) result tokens.new }
{
    let place = tokens.place();
    tokens.expect(Kind::Graph)?;
    let name = parser.var_or_iri(tokens)?;
    let triples = template_braces(parser, tokens)?;
    Ok(QuadElement {
        place,
        quads: Quads::Graph(name, triples),
    })
}

#[tactic(auto, unfolding(qs_syntax_tree::specs::inner::Procedures::dotted_graph))]
fn dotted_graph(parser: Parser, tokens: &mut Tokens<'_>) -> Result<QuadElement, Fault>
    ensures { Reads (read guided parser.depth procedures.dotted_graph tokens.old) result
        tokens.new }
{
    let element = quads_graph(parser, tokens)?;
    if tokens.peek_is(&[Kind::Dot]) {
        return tokens.closing(element, Kind::Dot);
    }
    Ok(element)
}

#[tactic(auto, unfolding(qs_syntax_tree::specs::inner::Procedures::quads_step))]
fn quads_step(parser: Parser, tokens: &mut Tokens<'_>) -> Result<Items<QuadElement>, Fault>
    ensures { Reads (read guided parser.depth procedures.quads_step tokens.old) result tokens.new }
{
    let first = dotted_graph(parser, tokens)?;
    let (first, block) = keep_beside(first, quads_block(parser, tokens))?;
    Ok(all_of(parser.alloc, first, block)?)
}

fn quads_steps(parser: Parser, tokens: &mut Tokens<'_>) -> Result<Items<QuadElement>, Fault>
    ensures { Reads (read guided parser.depth procedures.quads_steps tokens.old) result tokens.new }
{
    let mut found = Items::new(parser.alloc);
    for _turn in 0..tokens.turns() {
        if !tokens.peek_is(&[Kind::Graph]) {
            return Ok(found);
        }
        let next = quads_step(parser, tokens)?;
        found.append(next)?;
    }
    Err(Fault::Deep)
}

#[tactic(auto, unfolding(qs_syntax_tree::specs::inner::Procedures::quads_elements))]
fn quads_elements(parser: Parser, tokens: &mut Tokens<'_>) -> Result<Items<QuadElement>, Fault>
    ensures { Reads (read guided parser.depth procedures.quads_elements tokens.old) result
        tokens.new }
{
    let block = quads_block(parser, tokens)?;
    let (mut found, others) = keep_beside(block, quads_steps(parser, tokens))?;
    found.append(others)?;
    Ok(found)
}

/// Quads in braces ([48] to [50]).
#[tactic(auto, unfolding(qs_syntax_tree::specs::inner::Procedures::quads))]
pub fn quads(parser: Parser, tokens: &mut Tokens<'_>) -> Result<QuadPattern, Fault>
    ensures { Reads (read guided parser.depth procedures.quads tokens.old) result tokens.new }
{
    tokens.expect(Kind::LeftBrace)?;
    let elements = quads_elements(parser, tokens)?;
    let elements = tokens.closing(elements, Kind::RightBrace)?;
    Ok(QuadPattern { elements })
}
