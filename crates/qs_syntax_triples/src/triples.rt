//! Triples of patterns and templates (SPARQL 1.1 Query, 19.8, [75] to [81]).

ghost use Rattle.qs_syntax_grammar.specs.inner.Grammar.{read};
ghost use Rattle.qs_syntax_grammar.specs.inner.Reading.{Reads};
ghost use Rattle.qs_syntax_grammar.specs.Rule.{ref};
ghost use Rattle.qs_syntax_tree.specs.Rules as rules;
ghost use Rattle.qs_syntax_tree.specs.inner.Procedures as procedures;
ghost use Rattle.qs_syntax_tree.specs.Sparql as name;
ghost use Rattle.qs_syntax_tree.specs.inner.Table.{guided};

use crate::paths::{alternatives, predicate};
use qs_base::keep_beside;
use qs_syntax_grammar::fault::Fault;
use qs_syntax_tokens::kinds::{NODES, TERMS, verbs};
use qs_syntax_tokens::parser::Parser;
use qs_syntax_tokens::tokens::Tokens;
use qs_syntax_tokens::trees::{all_of, keep};
use qs_syntax_tree::kind::Kind;
use qs_syntax_tree::path::{Path, Verb};
use qs_syntax_tree::term::Term;
use qs_syntax_tree::triples::{Form, GraphNode, Property, TriplesSameSubject};
use sqlite_items::Items;

#[tactic(auto, unfolding(qs_syntax_tree::specs::inner::Procedures::verb))]
fn pattern_verb(parser: Parser, tokens: &mut Tokens<'_>) -> Result<Verb, Fault>
    ensures { Reads (read guided parser.depth (procedures.verb Form.Pattern) tokens.old) result
        tokens.new }
{
    if tokens.peek_is(&[Kind::Var]) {
        return Ok(Verb::Var(parser.var(tokens)?));
    }
    Ok(Verb::Path(alternatives(parser, tokens)?))
}

#[tactic(auto, unfolding(qs_syntax_tree::specs::inner::Procedures::verb))]
fn template_verb(parser: Parser, tokens: &mut Tokens<'_>) -> Result<Verb, Fault>
    ensures { Reads (read guided parser.depth (procedures.verb Form.Template) tokens.old) result
        tokens.new }
{
    if tokens.peek_is(&[Kind::Var]) {
        return Ok(Verb::Var(parser.var(tokens)?));
    }
    Ok(Verb::Path(Path::Predicate(predicate(parser, tokens)?)))
}

fn verb(parser: Parser, form: Form, tokens: &mut Tokens<'_>) -> Result<Verb, Fault>
    ensures { Reads (read guided parser.depth (procedures.verb form) tokens.old) result tokens.new }
{
    match form {
        Form::Pattern => pattern_verb(parser, tokens),
        Form::Template => template_verb(parser, tokens),
    }
}

#[cycle(properties)]
#[tactic(auto, using(crate::proofs::FirstKinds::first_term), unfolding(qs_syntax_tree::specs::Rules::object))]
fn object(parser: Parser, form: Form, tokens: &mut Tokens<'_>) -> Result<GraphNode, Fault>
    ensures { Reads (read guided parser.depth (rules.object form) tokens.old) result tokens.new }
{
    if tokens.peek_is(&TERMS) {
        return Ok(GraphNode::Term(parser.term(tokens)?));
    }
    tokens.expect(Kind::LeftBracket)?;
    if tokens.peek_is(&[Kind::RightBracket]) {
        tokens.expect(Kind::RightBracket)?;
        return Ok(GraphNode::Term(Term::Anonymous));
    }
    let properties = properties(parser, form, tokens)?;
    let properties = tokens.closing(properties, Kind::RightBracket)?;
    Ok(GraphNode::BlankNodePropertyList(properties))
}

#[cycle(properties)]
fn more_objects(
    parser: Parser,
    form: Form,
    tokens: &mut Tokens<'_>,
) -> Result<Items<GraphNode>, Fault>
    ensures { Reads (read guided parser.depth (procedures.more_objects form) tokens.old) result
        tokens.new }
{
    let mut found = Items::new(parser.alloc);
    for _turn in 0..tokens.turns() {
        if !tokens.peek_is(&[Kind::Comma]) {
            return Ok(found);
        }
        tokens.expect(Kind::Comma)?;
        let next = object(parser, form, tokens)?;
        found.push(next)?;
    }
    Err(Fault::Deep)
}

#[cycle(properties)]
#[tactic(auto, unfolding(qs_syntax_tree::specs::inner::Procedures::objects))]
fn objects(parser: Parser, form: Form, tokens: &mut Tokens<'_>) -> Result<Items<GraphNode>, Fault>
    ensures { Reads (read guided parser.depth (procedures.objects form) tokens.old) result
        tokens.new }
{
    let first = object(parser, form, tokens)?;
    let (first, others) = keep_beside(first, more_objects(parser, form, tokens))?;
    Ok(all_of(parser.alloc, first, others)?)
}

#[cycle(properties)]
#[tactic(auto, unfolding(qs_syntax_tree::specs::inner::Procedures::property))]
fn property(parser: Parser, form: Form, tokens: &mut Tokens<'_>) -> Result<Property, Fault>
    ensures { Reads (read guided parser.depth (procedures.property form) tokens.old) result
        tokens.new }
{
    let verb = verb(parser, form, tokens)?;
    let (verb, objects) = keep_beside(verb, objects(parser, form, tokens))?;
    Ok(Property { verb, objects })
}

#[cycle(properties)]
#[tactic(auto, using(crate::proofs::FirstKinds::first_property), unfolding(qs_syntax_tree::specs::inner::Procedures::next_property))]
fn next_property(
    parser: Parser,
    form: Form,
    tokens: &mut Tokens<'_>,
) -> Result<Option<Property>, Fault>
    ensures { Reads (read guided parser.depth (procedures.next_property form) tokens.old) result
        tokens.new }
{
    tokens.expect(Kind::Semicolon)?;
    if tokens.peek_is(verbs(form)) {
        return Ok(Some(property(parser, form, tokens)?));
    }
    Ok(None)
}

#[cycle(properties)]
fn more_properties(
    parser: Parser,
    form: Form,
    tokens: &mut Tokens<'_>,
) -> Result<Items<Property>, Fault>
    ensures { Reads (read guided parser.depth (procedures.more_properties form) tokens.old) result
        tokens.new }
{
    let mut found = Items::new(parser.alloc);
    for _turn in 0..tokens.turns() {
        if !tokens.peek_is(&[Kind::Semicolon]) {
            return Ok(found);
        }
        let next = next_property(parser, form, tokens)?;
        keep(&mut found, next)?;
    }
    Err(Fault::Deep)
}

#[cycle(properties)]
#[tactic(auto, unfolding(qs_syntax_tree::specs::inner::Procedures::properties_rule))]
fn property_list(
    parser: Parser,
    form: Form,
    tokens: &mut Tokens<'_>,
) -> Result<Items<Property>, Fault>
    ensures { Reads (read guided parser.depth (procedures.properties_rule form) tokens.old) result
        tokens.new }
{
    let first = property(parser, form, tokens)?;
    let (first, others) = keep_beside(first, more_properties(parser, form, tokens))?;
    Ok(all_of(parser.alloc, first, others)?)
}

#[cycle(properties)]
#[tactic(auto, unfolding(qs_syntax_tree::specs::inner::Table::rule))]
fn properties(parser: Parser, form: Form, tokens: &mut Tokens<'_>) -> Result<Items<Property>, Fault>
    ensures { Reads (read guided parser.depth (ref (name.properties form)) tokens.old) result
        tokens.new }
{
    if parser.depth == 0 {
        return Err(Fault::Deep);
    }
    property_list(parser.deeper(), form, tokens)
}

#[tactic(auto, unfolding(qs_syntax_tree::specs::inner::Procedures::anonymous_subject))]
fn anonymous_subject(
    parser: Parser,
    form: Form,
    tokens: &mut Tokens<'_>,
) -> Result<TriplesSameSubject, Fault>
    ensures { Reads (read guided parser.depth (procedures.anonymous_subject form) tokens.old) result
        tokens.new }
{
    tokens.expect(Kind::RightBracket)?;
    let properties = properties(parser, form, tokens)?;
    Ok(TriplesSameSubject {
        subject: GraphNode::Term(Term::Anonymous),
        properties,
    })
}

#[tactic(auto, unfolding(qs_syntax_tree::specs::inner::Procedures::property_subject))]
fn property_subject(
    parser: Parser,
    form: Form,
    tokens: &mut Tokens<'_>,
) -> Result<TriplesSameSubject, Fault>
    ensures { Reads (read guided parser.depth (procedures.property_subject form) tokens.old) result
        tokens.new }
{
    let own = properties(parser, form, tokens)?;
    let own = tokens.closing(own, Kind::RightBracket)?;
    let (own, others) = if tokens.peek_is(verbs(form)) {
        keep_beside(own, properties(parser, form, tokens))?
    } else {
        (own, Items::new(parser.alloc))
    };
    Ok(TriplesSameSubject {
        subject: GraphNode::BlankNodePropertyList(own),
        properties: others,
    })
}

#[tactic(auto, unfolding(qs_syntax_tree::specs::inner::Procedures::bracketed_subject, qs_syntax_tree::specs::inner::Procedures::anonymous_subject))]
fn bracketed_subject(
    parser: Parser,
    form: Form,
    tokens: &mut Tokens<'_>,
) -> Result<TriplesSameSubject, Fault>
    ensures { Reads (read guided parser.depth (procedures.bracketed_subject form) tokens.old) result
        tokens.new }
{
    tokens.expect(Kind::LeftBracket)?;
    if tokens.peek_is(&[Kind::RightBracket]) {
        return anonymous_subject(parser, form, tokens);
    }
    property_subject(parser, form, tokens)
}

#[tactic(auto, using(crate::proofs::FirstKinds::first_term, crate::proofs::FirstKinds::nullable_term), unfolding(qs_syntax_tree::specs::inner::Procedures::same_subject))]
fn same_subject(
    parser: Parser,
    form: Form,
    tokens: &mut Tokens<'_>,
) -> Result<TriplesSameSubject, Fault>
    ensures { Reads (read guided parser.depth (procedures.same_subject form) tokens.old) result
        tokens.new }
{
    if tokens.peek_is(&TERMS) {
        let subject = parser.term(tokens)?;
        let properties = properties(parser, form, tokens)?;
        return Ok(TriplesSameSubject {
            subject: GraphNode::Term(subject),
            properties,
        });
    }
    bracketed_subject(parser, form, tokens)
}

/// The triples of a pattern, whose verbs are paths, or of a template ([52], [55]), separated by dots.
pub fn triples(
    parser: Parser,
    form: Form,
    tokens: &mut Tokens<'_>,
) -> Result<Items<TriplesSameSubject>, Fault>
    ensures { Reads (read guided parser.depth (ref (name.triples form)) tokens.old) result
        tokens.new }
{
    let mut found = Items::from_vec(Vec::with_capacity(parser.alloc, 1)?);
    let mut inner = parser;
    while inner.depth > 0 {
        inner = inner.deeper();
        let next = same_subject(inner, form, tokens)?;
        found.push(next)?;
        if !tokens.peek_is(&[Kind::Dot]) {
            return Ok(found);
        }
        tokens.expect(Kind::Dot)?;
        if !tokens.peek_is(&NODES) {
            return Ok(found);
        }
    }
    Err(Fault::Deep)
}

/// Triples of a template in braces ([73]).
#[tactic(auto, unfolding(qs_syntax_tree::specs::Rules::template_braces))]
pub fn template_braces(
    parser: Parser,
    tokens: &mut Tokens<'_>,
) -> Result<Items<TriplesSameSubject>, Fault>
    ensures { Reads (read guided parser.depth rules.template_braces tokens.old) result tokens.new }
{
    tokens.expect(Kind::LeftBrace)?;
    let mut found = Items::new(parser.alloc);
    if tokens.peek_is(&NODES) {
        found = triples(parser, Form::Template, tokens)?;
    }
    tokens.expect(Kind::RightBrace)?;
    Ok(found)
}
