//! Property paths (SPARQL 1.1 Query, 19.8, [88] to [96]).

ghost use Rattle.qs_syntax_grammar.specs.inner.Grammar.{read};
ghost use Rattle.qs_syntax_grammar.specs.Notation.{opt};
ghost use Rattle.qs_syntax_grammar.specs.inner.Reading.{Reads};
ghost use Rattle.qs_syntax_grammar.specs.Rule.{ref};
ghost use Rattle.qs_syntax_tree.specs.Rules as rules;
ghost use Rattle.qs_syntax_tree.specs.inner.Procedures as procedures;
ghost use Rattle.qs_syntax_tree.specs.Sparql as name;
ghost use Rattle.qs_syntax_tree.specs.inner.Table.{guided};

use qs_base::keep_beside;
use qs_syntax_grammar::fault::Fault;
use qs_syntax_tokens::parser::Parser;
use qs_syntax_tokens::tokens::Tokens;
use qs_syntax_tokens::trees::{all_of, alternative, invert, repeat, sequence};
use qs_syntax_tree::kind::Kind;
use qs_syntax_tree::path::{NegatedPredicate, Path, PathOperand, Predicate, Repetition};
use sqlite_items::Items;

/// An IRI or `a` as a predicate ([94], [96]).
#[tactic(auto, using(qs_syntax_tokens::proofs::FirstKinds::first_iri), unfolding(qs_syntax_tree::specs::Rules::predicate))]
pub fn predicate(parser: Parser, tokens: &mut Tokens<'_>) -> Result<Predicate, Fault>
    ensures { Reads (read guided parser.depth rules.predicate tokens.old) result tokens.new }
{
    if tokens.peek_is(&[Kind::IriRef, Kind::PnameLn, Kind::PnameNs]) {
        return Ok(Predicate::Iri(parser.iri(tokens)?));
    }
    tokens.expect(Kind::A)?;
    Ok(Predicate::RdfType)
}

#[tactic(auto, unfolding(qs_syntax_tree::specs::Rules::negated_one))]
fn negated_one(parser: Parser, tokens: &mut Tokens<'_>) -> Result<NegatedPredicate, Fault>
    ensures { Reads (read guided parser.depth rules.negated_one tokens.old) result tokens.new }
{
    let place = tokens.place();
    let inverse = tokens.peek_is(&[Kind::Caret]);
    if inverse {
        tokens.expect(Kind::Caret)?;
    }
    let predicate = predicate(parser, tokens)?;
    Ok(NegatedPredicate {
        place,
        inverse,
        predicate,
    })
}

fn more_negated(parser: Parser, tokens: &mut Tokens<'_>) -> Result<Items<NegatedPredicate>, Fault>
    ensures { Reads (read guided parser.depth procedures.more_negated tokens.old) result
        tokens.new }
{
    let mut found = Items::new(parser.alloc);
    for _turn in 0..tokens.turns() {
        if !tokens.peek_is(&[Kind::Bar]) {
            return Ok(found);
        }
        tokens.expect(Kind::Bar)?;
        let next = negated_one(parser, tokens)?;
        found.push(next)?;
    }
    Err(Fault::Deep)
}

#[tactic(auto, unfolding(qs_syntax_tree::specs::inner::Procedures::negated_all))]
fn negated_all(parser: Parser, tokens: &mut Tokens<'_>) -> Result<Items<NegatedPredicate>, Fault>
    ensures { Reads (read guided parser.depth procedures.negated_all tokens.old) result tokens.new }
{
    let first = negated_one(parser, tokens)?;
    let others = more_negated(parser, tokens)?;
    Ok(all_of(parser.alloc, first, others)?)
}

#[tactic(auto, using(crate::proofs::FirstKinds::first_negated_one, crate::proofs::FirstKinds::first_negated_all), unfolding(qs_syntax_tree::specs::inner::Procedures::negated))]
fn negated(parser: Parser, tokens: &mut Tokens<'_>) -> Result<Items<NegatedPredicate>, Fault>
    ensures { Reads (read guided parser.depth procedures.negated tokens.old) result tokens.new }
{
    let mut found = Items::new(parser.alloc);
    if tokens.peek_is(&[
        Kind::Caret,
        Kind::IriRef,
        Kind::PnameLn,
        Kind::PnameNs,
        Kind::A,
    ]) {
        let only = negated_one(parser, tokens)?;
        found.push(only)?;
        return Ok(found);
    }
    tokens.expect(Kind::LeftParen)?;
    if tokens.peek_is(&[
        Kind::Caret,
        Kind::IriRef,
        Kind::PnameLn,
        Kind::PnameNs,
        Kind::A,
    ]) {
        found = negated_all(parser, tokens)?;
    }
    tokens.expect(Kind::RightParen)?;
    Ok(found)
}

#[tactic(auto, unfolding(qs_syntax_tree::specs::Rules::repetition))]
fn repetition(parser: Parser, tokens: &mut Tokens<'_>) -> Result<Option<Repetition>, Fault>
    ensures { Reads (read guided parser.depth (opt rules.repetition) tokens.old) result
        tokens.new }
{
    if tokens.peek_is(&[Kind::Question]) {
        tokens.expect(Kind::Question)?;
        return Ok(Some(Repetition::ZeroOrOne));
    }
    if tokens.peek_is(&[Kind::Star]) {
        tokens.expect(Kind::Star)?;
        return Ok(Some(Repetition::ZeroOrMore));
    }
    if tokens.peek_is(&[Kind::Plus]) {
        tokens.expect(Kind::Plus)?;
        return Ok(Some(Repetition::OneOrMore));
    }
    Ok(None)
}

#[cycle(path)]
#[tactic(auto, using(crate::proofs::FirstKinds::first_predicate), unfolding(qs_syntax_tree::specs::inner::Procedures::path_primary))]
fn path_primary(parser: Parser, tokens: &mut Tokens<'_>) -> Result<Path, Fault>
    ensures { Reads (read guided parser.depth procedures.path_primary tokens.old) result
        tokens.new }
{
    if tokens.peek_is(&[Kind::IriRef, Kind::PnameLn, Kind::PnameNs, Kind::A]) {
        return Ok(Path::Predicate(predicate(parser, tokens)?));
    }
    if tokens.peek_is(&[Kind::Bang]) {
        tokens.expect(Kind::Bang)?;
        return Ok(Path::NegatedSet(negated(parser, tokens)?));
    }
    tokens.expect(Kind::LeftParen)?;
    let inner = path(parser, tokens)?;
    tokens.closing(inner, Kind::RightParen)
}

// `^p*` is the inverse of `p*`
#[cycle(path)]
#[tactic(auto, unfolding(qs_syntax_tree::specs::inner::Procedures::path_element))]
fn path_element(parser: Parser, tokens: &mut Tokens<'_>) -> Result<Path, Fault>
    ensures { Reads (read guided parser.depth procedures.path_element tokens.old) result
        tokens.new }
{
    let inverse = tokens.peek_is(&[Kind::Caret]);
    if inverse {
        tokens.expect(Kind::Caret)?;
    }
    let primary = path_primary(parser, tokens)?;
    let (primary, repetition) = keep_beside(primary, repetition(parser, tokens))?;
    let path = repeat(parser.alloc, primary, repetition)?;
    Ok(invert(parser.alloc, inverse, path)?)
}

#[cycle(path)]
fn more_elements(parser: Parser, tokens: &mut Tokens<'_>) -> Result<Items<PathOperand>, Fault>
    ensures { Reads (read guided parser.depth procedures.more_elements tokens.old) result
        tokens.new }
{
    let mut found = Items::new(parser.alloc);
    for _turn in 0..tokens.turns() {
        if !tokens.peek_is(&[Kind::Slash]) {
            return Ok(found);
        }
        tokens.expect(Kind::Slash)?;
        let place = tokens.place();
        let path = path_element(parser, tokens)?;
        found.push(PathOperand { place, path })?;
    }
    Err(Fault::Deep)
}

#[cycle(path)]
#[tactic(auto, unfolding(qs_syntax_tree::specs::inner::Procedures::path_sequence))]
fn path_sequence(parser: Parser, tokens: &mut Tokens<'_>) -> Result<Path, Fault>
    ensures { Reads (read guided parser.depth procedures.path_sequence tokens.old) result
        tokens.new }
{
    let place = tokens.place();
    let path = path_element(parser, tokens)?;
    let (path, others) = keep_beside(path, more_elements(parser, tokens))?;
    Ok(sequence(parser.alloc, PathOperand { place, path }, others)?)
}

#[cycle(path)]
fn more_sequences(parser: Parser, tokens: &mut Tokens<'_>) -> Result<Items<PathOperand>, Fault>
    ensures { Reads (read guided parser.depth procedures.more_sequences tokens.old) result
        tokens.new }
{
    let mut found = Items::new(parser.alloc);
    for _turn in 0..tokens.turns() {
        if !tokens.peek_is(&[Kind::Bar]) {
            return Ok(found);
        }
        tokens.expect(Kind::Bar)?;
        let place = tokens.place();
        let path = path_sequence(parser, tokens)?;
        found.push(PathOperand { place, path })?;
    }
    Err(Fault::Deep)
}

/// A path: sequences with `|` between them ([88], [89]).
#[cycle(path)]
#[tactic(auto, unfolding(qs_syntax_tree::specs::inner::Procedures::path_rule))]
pub fn alternatives(parser: Parser, tokens: &mut Tokens<'_>) -> Result<Path, Fault>
    ensures { Reads (read guided parser.depth procedures.path_rule tokens.old) result tokens.new }
{
    let place = tokens.place();
    let path = path_sequence(parser, tokens)?;
    let (path, others) = keep_beside(path, more_sequences(parser, tokens))?;
    Ok(alternative(parser.alloc, PathOperand { place, path }, others)?)
}

#[cycle(path)]
#[tactic(auto, unfolding(qs_syntax_tree::specs::inner::Table::rule))]
fn path(parser: Parser, tokens: &mut Tokens<'_>) -> Result<Path, Fault>
    ensures { Reads (read guided parser.depth (ref name.path) tokens.old) result tokens.new }
{
    if parser.depth == 0 {
        return Err(Fault::Deep);
    }
    alternatives(parser.deeper(), tokens)
}
