//! Updates (SPARQL 1.1 Query, 19.8, [29] to [47]).

ghost use Rattle.std.specs.Prelude.{Ok, Some};
ghost use Rattle.qs_syntax_grammar.specs.inner.Reading.{and_then};
ghost use Rattle.qs_syntax_tree.specs.Trees.{steps_of};
ghost use Rattle.qs_syntax_grammar.specs.inner.Grammar.{read};
ghost use Rattle.qs_syntax_grammar.specs.inner.Reading.{Reads};
ghost use Rattle.qs_syntax_tree.specs.Rules as rules;
ghost use Rattle.qs_syntax_tree.specs.inner.Procedures as procedures;
ghost use Rattle.qs_syntax_tree.specs.inner.Table.{guided};

use crate::queries;
use qs_base::keep_beside;
use qs_syntax_grammar::fault::Fault;
use qs_syntax_patterns::groups::group;
use qs_syntax_tokens::kinds::OPERATIONS;
use qs_syntax_tokens::parser::Parser;
use qs_syntax_tokens::tokens::Tokens;
use qs_syntax_tree::kind::Kind;
use qs_syntax_tree::pattern::Group;
use qs_syntax_tree::query::PrefixDeclaration;
use qs_syntax_tree::term::Iri;
use qs_syntax_tree::update::{
    GraphOrDefault, GraphTarget, Modify, OnMissing, Operation, QuadPattern, Transfer, Update,
    UpdateStep,
};
use qs_syntax_triples::quads::quads;
use sqlite_items::Items;

#[tactic(auto, unfolding(qs_syntax_tree::specs::inner::Procedures::where_group))]
fn where_group(parser: Parser, tokens: &mut Tokens<'_>) -> Result<Group, Fault>
    ensures { Reads (read guided parser.depth procedures.where_group tokens.old) result tokens.new }
{
    tokens.expect(Kind::Where)?;
    group(parser, tokens)
}

#[tactic(auto, unfolding(qs_syntax_tree::specs::inner::Procedures::insert_clause))]
fn insert_clause(parser: Parser, tokens: &mut Tokens<'_>) -> Result<Option<QuadPattern>, Fault>
    ensures { Reads (read guided parser.depth procedures.insert_clause tokens.old) result
        tokens.new }
{
    if tokens.peek_is(&[Kind::Insert]) {
        tokens.expect(Kind::Insert)?;
        return Ok(Some(quads(parser, tokens)?));
    }
    Ok(None)
}

#[tactic(auto, unfolding(qs_syntax_tree::specs::inner::Procedures::insert))]
fn insert(parser: Parser, tokens: &mut Tokens<'_>) -> Result<Operation, Fault>
    ensures { Reads (read guided parser.depth procedures.insert tokens.old) result tokens.new }
{
    tokens.expect(Kind::Insert)?;
    if tokens.peek_is(&[Kind::Data]) {
        tokens.expect(Kind::Data)?;
        return Ok(Operation::InsertData(quads(parser, tokens)?));
    }
    let insert = quads(parser, tokens)?;
    let (insert, pattern) = keep_beside(insert, where_group(parser, tokens))?;
    Ok(Operation::Modify(Modify {
        with: None,
        delete: None,
        insert: Some(insert),
        pattern,
    }))
}

#[tactic(auto, unfolding(qs_syntax_tree::specs::inner::Procedures::delete))]
fn delete(parser: Parser, tokens: &mut Tokens<'_>) -> Result<Operation, Fault>
    ensures { Reads (read guided parser.depth procedures.delete tokens.old) result tokens.new }
{
    tokens.expect(Kind::Delete)?;
    if tokens.peek_is(&[Kind::Data]) {
        tokens.expect(Kind::Data)?;
        return Ok(Operation::DeleteData(quads(parser, tokens)?));
    }
    if tokens.peek_is(&[Kind::Where]) {
        tokens.expect(Kind::Where)?;
        return Ok(Operation::DeleteWhere(quads(parser, tokens)?));
    }
    let delete = quads(parser, tokens)?;
    let changes = keep_beside(delete, insert_clause(parser, tokens))?;
    let ((delete, insert), pattern) = keep_beside(changes, where_group(parser, tokens))?;
    Ok(Operation::Modify(Modify {
        with: None,
        delete: Some(delete),
        insert,
        pattern,
    }))
}

#[tactic(auto, unfolding(qs_syntax_tree::specs::inner::Procedures::changes))]
fn changes(
    parser: Parser,
    tokens: &mut Tokens<'_>,
) -> Result<(Option<QuadPattern>, Option<QuadPattern>), Fault>
    ensures { Reads (read guided parser.depth procedures.changes tokens.old) result tokens.new }
{
    if tokens.peek_is(&[Kind::Delete]) {
        tokens.expect(Kind::Delete)?;
        let delete = quads(parser, tokens)?;
        let (delete, insert) = keep_beside(delete, insert_clause(parser, tokens))?;
        return Ok((Some(delete), insert));
    }
    tokens.expect(Kind::Insert)?;
    Ok((None, Some(quads(parser, tokens)?)))
}

#[tactic(auto, unfolding(qs_syntax_tree::specs::inner::Procedures::with_clause))]
fn with_clause(parser: Parser, tokens: &mut Tokens<'_>) -> Result<Iri, Fault>
    ensures { Reads (read guided parser.depth procedures.with_clause tokens.old) result tokens.new }
{
    tokens.expect(Kind::With)?;
    parser.iri(tokens)
}

#[tactic(auto, unfolding(qs_syntax_tree::specs::inner::Procedures::with_graph))]
fn with_graph(parser: Parser, tokens: &mut Tokens<'_>) -> Result<Operation, Fault>
    ensures { Reads (read guided parser.depth procedures.with_graph tokens.old) result tokens.new }
{
    let with = with_clause(parser, tokens)?;
    let changes = changes(parser, tokens)?;
    let ((delete, insert), pattern) = keep_beside(changes, where_group(parser, tokens))?;
    Ok(Operation::Modify(Modify {
        with: Some(with),
        delete,
        insert,
        pattern,
    }))
}

#[tactic(auto, unfolding(qs_syntax_tree::specs::Rules::silent))]
fn silent(parser: Parser, tokens: &mut Tokens<'_>) -> Result<OnMissing, Fault>
    ensures { Reads (read guided parser.depth rules.silent tokens.old) result tokens.new }
{
    if tokens.peek_is(&[Kind::Silent]) {
        tokens.expect(Kind::Silent)?;
        return Ok(OnMissing::Silent);
    }
    Ok(OnMissing::Fault)
}

#[tactic(auto, unfolding(qs_syntax_tree::specs::Rules::target))]
fn target(parser: Parser, tokens: &mut Tokens<'_>) -> Result<GraphTarget, Fault>
    ensures { Reads (read guided parser.depth rules.target tokens.old) result tokens.new }
{
    if tokens.peek_is(&[Kind::Graph]) {
        tokens.expect(Kind::Graph)?;
        return Ok(GraphTarget::Graph(parser.iri(tokens)?));
    }
    if tokens.peek_is(&[Kind::Default]) {
        tokens.expect(Kind::Default)?;
        return Ok(GraphTarget::Default);
    }
    if tokens.peek_is(&[Kind::Named]) {
        tokens.expect(Kind::Named)?;
        return Ok(GraphTarget::Named);
    }
    tokens.expect(Kind::All)?;
    Ok(GraphTarget::All)
}

#[tactic(auto, unfolding(qs_syntax_tree::specs::Rules::graph_or_default))]
fn graph_or_default(parser: Parser, tokens: &mut Tokens<'_>) -> Result<GraphOrDefault, Fault>
    ensures { Reads (read guided parser.depth rules.graph_or_default tokens.old) result
        tokens.new }
{
    if tokens.peek_is(&[Kind::Default]) {
        tokens.expect(Kind::Default)?;
        return Ok(GraphOrDefault::Default);
    }
    if tokens.peek_is(&[Kind::Graph]) {
        tokens.expect(Kind::Graph)?;
    }
    Ok(GraphOrDefault::Graph(parser.iri(tokens)?))
}

#[tactic(auto, unfolding(qs_syntax_tree::specs::Rules::transfer))]
fn transfer(parser: Parser, tokens: &mut Tokens<'_>) -> Result<Transfer, Fault>
    ensures { Reads (read guided parser.depth rules.transfer tokens.old) result tokens.new }
{
    let on_missing = silent(parser, tokens)?;
    let from = graph_or_default(parser, tokens)?;
    tokens.expect(Kind::To)?;
    let to = graph_or_default(parser, tokens)?;
    Ok(Transfer {
        on_missing,
        from,
        to,
    })
}

#[tactic(auto, unfolding(qs_syntax_tree::specs::inner::Procedures::clear))]
fn clear(parser: Parser, tokens: &mut Tokens<'_>) -> Result<Operation, Fault>
    ensures { Reads (read guided parser.depth procedures.clear tokens.old) result tokens.new }
{
    tokens.expect(Kind::Clear)?;
    let silent = silent(parser, tokens)?;
    let target = target(parser, tokens)?;
    Ok(Operation::Clear(silent, target))
}

#[tactic(auto, unfolding(qs_syntax_tree::specs::inner::Procedures::drop_graph))]
fn drop_graph(parser: Parser, tokens: &mut Tokens<'_>) -> Result<Operation, Fault>
    ensures { Reads (read guided parser.depth procedures.drop_graph tokens.old) result tokens.new }
{
    tokens.expect(Kind::Drop)?;
    let silent = silent(parser, tokens)?;
    let target = target(parser, tokens)?;
    Ok(Operation::Drop(silent, target))
}

#[tactic(auto, unfolding(qs_syntax_tree::specs::inner::Procedures::create))]
fn create(parser: Parser, tokens: &mut Tokens<'_>) -> Result<Operation, Fault>
    ensures { Reads (read guided parser.depth procedures.create tokens.old) result tokens.new }
{
    tokens.expect(Kind::Create)?;
    let silent = silent(parser, tokens)?;
    tokens.expect(Kind::Graph)?;
    let graph = parser.iri(tokens)?;
    Ok(Operation::Create(silent, graph))
}

#[tactic(auto, unfolding(qs_syntax_tree::specs::inner::Procedures::from_graph_to_graph))]
fn from_graph_to_graph(parser: Parser, tokens: &mut Tokens<'_>) -> Result<Operation, Fault>
    ensures { Reads (read guided parser.depth procedures.from_graph_to_graph tokens.old) result
        tokens.new }
{
    if tokens.peek_is(&[Kind::Add]) {
        tokens.expect(Kind::Add)?;
        let transfer = transfer(parser, tokens)?;
        return Ok(Operation::Add(transfer));
    }
    if tokens.peek_is(&[Kind::Move]) {
        tokens.expect(Kind::Move)?;
        let transfer = transfer(parser, tokens)?;
        return Ok(Operation::Move(transfer));
    }
    tokens.expect(Kind::Copy)?;
    let transfer = transfer(parser, tokens)?;
    Ok(Operation::Copy(transfer))
}

#[tactic(auto, using(crate::proofs::FirstKinds::first_clear, crate::proofs::FirstKinds::first_drop_graph, crate::proofs::FirstKinds::first_create), unfolding(qs_syntax_tree::specs::inner::Procedures::graph_operation))]
fn graph_operation(parser: Parser, tokens: &mut Tokens<'_>) -> Result<Operation, Fault>
    ensures { Reads (read guided parser.depth procedures.graph_operation tokens.old) result
        tokens.new }
{
    if tokens.peek_is(&[Kind::Clear]) {
        return clear(parser, tokens);
    }
    if tokens.peek_is(&[Kind::Drop]) {
        return drop_graph(parser, tokens);
    }
    if tokens.peek_is(&[Kind::Create]) {
        return create(parser, tokens);
    }
    from_graph_to_graph(parser, tokens)
}

#[tactic(auto, using(crate::proofs::FirstKinds::first_insert, crate::proofs::FirstKinds::first_delete, crate::proofs::FirstKinds::first_with_graph), unfolding(qs_syntax_tree::specs::inner::Procedures::operation))]
fn operation(parser: Parser, tokens: &mut Tokens<'_>) -> Result<Operation, Fault>
    ensures { Reads (read guided parser.depth procedures.operation tokens.old) result tokens.new }
{
    if tokens.peek_is(&[Kind::Insert]) {
        return insert(parser, tokens);
    }
    if tokens.peek_is(&[Kind::Delete]) {
        return delete(parser, tokens);
    }
    if tokens.peek_is(&[Kind::With]) {
        return with_graph(parser, tokens);
    }
    graph_operation(parser, tokens)
}

// the steps from this one on, whose prologue was read and whose operation begins here
fn steps_from(
    parser: Parser,
    prologue: Items<PrefixDeclaration>,
    tokens: &mut Tokens<'_>,
) -> Result<Items<UpdateStep>, Fault>
    ensures { Reads (and_then (read guided parser.depth procedures.operations_rule tokens.old)
        (λ x s. Ok (steps_of (prologue, Some x), s))) result tokens.new }
{
    let mut found = Items::new(parser.alloc);
    let mut inner = parser;
    let mut prologue = prologue;
    'steps: loop {
        let operation = Some(operation(inner, tokens)?);
        found.push(UpdateStep {
            prologue,
            operation,
        })?;
        if !tokens.peek_is(&[Kind::Semicolon]) {
            return Ok(found);
        }
        tokens.expect(Kind::Semicolon)?;
        prologue = queries::prologue(inner, tokens)?;
        if !tokens.peek_is(&OPERATIONS) {
            found.push(UpdateStep {
                prologue,
                operation: None,
            })?;
            return Ok(found);
        }
        if inner.depth == 0 {
            return Err(Fault::Deep);
        }
        inner = inner.deeper();
    }
}

/// An update ([29]).
#[tactic(auto, using(crate::proofs::FirstKinds::first_operations_rule), unfolding(qs_syntax_tree::specs::inner::Procedures::update))]
pub fn update(parser: Parser, tokens: &mut Tokens<'_>) -> Result<Update, Fault>
    ensures { Reads (read guided parser.depth procedures.update tokens.old) result tokens.new }
{
    let prologue = queries::prologue(parser, tokens)?;
    let mut steps = Items::new(parser.alloc);
    if !tokens.peek_is(&OPERATIONS) {
        steps.push(UpdateStep {
            prologue,
            operation: None,
        })?;
        return Ok(Update { steps });
    }
    steps = steps_from(parser, prologue, tokens)?;
    Ok(Update { steps })
}
