//! Trees made of the trees of their parts: chains (the operand alone where there is one), calls, comparisons, tables, lists.

ghost use Rattle.std.specs.Prelude.{◌≡◌, [], ◌∷◌, IfOk, OnOk};
ghost use Rattle.qs_syntax_grammar.specs.inner.Repeated.{keep};
ghost use Rattle.qs_syntax_tree.specs.Trees.{path_chain, chain, sum, repeated, inverted, related};
ghost use Rattle.qs_syntax_tree.specs.inner.Trees.{singles};

use qs_base::{box_pair, box_three};
use qs_syntax_tree::expression::{
    Addend, BinaryFunction, Call, Expression, Operand, Relation, UnaryFunction,
};
use qs_syntax_tree::path::{Path, PathOperand, Repetition};
use qs_syntax_tree::pattern::{DataValue, InlineData};
use qs_syntax_tree::token::Span;
use sqlite_items::{Boxed, Items};
use std::alloc::{AllocError, Global};

/// The first and the others, in no more memory than they need: most lists of a tree have one item.
pub fn all_of<T: Drop>(alloc: Global, first: T, others: Items<T>) -> Result<Items<T>, AllocError>
    ensures { IfOk result (λ all. all ≡ first ∷ others) }
{
    let mut all = Items::from_vec(Vec::with_capacity(alloc, others.len().saturating_add(1))?);
    all.push(first)?;
    all.append(others)?;
    Ok(all)
}

/// `e1 / e2 / ..`
pub fn sequence(
    alloc: Global,
    first: PathOperand,
    others: Items<PathOperand>,
) -> Result<Path, AllocError>
    ensures { IfOk result (λ p. p ≡ path_chain Path.Sequence (first, others)) }
{
    if others.is_empty() {
        return Ok(first.path);
    }
    Ok(Path::Sequence(all_of(alloc, first, others)?))
}

/// `e1 | e2 | ..`
pub fn alternative(
    alloc: Global,
    first: PathOperand,
    others: Items<PathOperand>,
) -> Result<Path, AllocError>
    ensures { IfOk result (λ p. p ≡ path_chain Path.Alternative (first, others)) }
{
    if others.is_empty() {
        return Ok(first.path);
    }
    Ok(Path::Alternative(all_of(alloc, first, others)?))
}

/// A path, repeated where a repetition stands after it.
pub fn repeat(alloc: Global, path: Path, repetition: Option<Repetition>) -> Result<Path, AllocError>
    ensures { IfOk result (λ p. p ≡ repeated path repetition) }
{
    match repetition {
        None => Ok(path),
        Some(times) => Ok(Path::Repeated(Boxed::new(alloc, path)?, times)),
    }
}

/// A path, read against its direction where `^` stands before it.
pub fn invert(alloc: Global, inverse: bool, path: Path) -> Result<Path, AllocError>
    ensures { IfOk result (λ p. p ≡ inverted inverse path) }
{
    if inverse {
        return Ok(Path::Inverse(Boxed::new(alloc, path)?));
    }
    Ok(path)
}

/// `e1 || e2 || ..`
pub fn or(alloc: Global, first: Operand, others: Items<Operand>) -> Result<Expression, AllocError>
    ensures { IfOk result (λ e. e ≡ chain Expression.Or (first, others)) }
{
    if others.is_empty() {
        return Ok(first.expression);
    }
    Ok(Expression::Or(all_of(alloc, first, others)?))
}

/// `e1 && e2 && ..`
pub fn and(alloc: Global, first: Operand, others: Items<Operand>) -> Result<Expression, AllocError>
    ensures { IfOk result (λ e. e ≡ chain Expression.And (first, others)) }
{
    if others.is_empty() {
        return Ok(first.expression);
    }
    Ok(Expression::And(all_of(alloc, first, others)?))
}

/// `e1 * e2 * ..`
pub fn product(
    alloc: Global,
    first: Operand,
    others: Items<Operand>,
) -> Result<Expression, AllocError>
    ensures { IfOk result (λ e. e ≡ chain Expression.Product (first, others)) }
{
    if others.is_empty() {
        return Ok(first.expression);
    }
    Ok(Expression::Product(all_of(alloc, first, others)?))
}

/// `e1 + e2 - ..`
pub fn sum(alloc: Global, first: Operand, others: Items<Addend>) -> Result<Expression, AllocError>
    ensures { IfOk result (λ e. e ≡ sum (first, others)) }
{
    if others.is_empty() {
        return Ok(first.expression);
    }
    Ok(Expression::Sum(Boxed::new(alloc, first)?, others))
}

/// Puts an item that is there after the others.
pub fn keep<T: Drop>(found: &mut Items<T>, item: Option<T>) -> Result<(), AllocError>
    ensures { OnOk result (found.new ≡ keep found.old item) }
{
    match item {
        None => Ok(()),
        Some(item) => found.push(item),
    }
}

// rows of one value each
fn singles(alloc: Global, mut values: &[DataValue]) -> Result<Items<Items<DataValue>>, AllocError>
    ensures { IfOk result (λ rows. rows ≡ singles values.entry.now) }
{
    let mut rows = Items::new(alloc);
    while let [value, rest @ ..] = values {
        let mut row = Items::new(alloc);
        row.push(*value)?;
        rows.push(row)?;
        values = rest;
    }
    Ok(rows)
}

/// A table of one variable.
pub fn column(alloc: Global, var: Span, values: Items<DataValue>) -> Result<InlineData, AllocError>
    ensures { IfOk result
        (λ table. table ≡ record { variables = var ∷ []; rows = singles values }) }
{
    let rows = singles(alloc, values.as_slice())?;
    let mut variables = Items::new(alloc);
    variables.push(var)?;
    Ok(InlineData { variables, rows })
}

/// `IF(test, then, otherwise)`
pub fn conditional(
    alloc: Global,
    arguments: ((Expression, Expression), Expression),
) -> Result<Call, AllocError>
    ensures { IfOk result (λ c. c ≡ Call.If arguments.0.0 arguments.0.1 arguments.1) }
{
    let ((test, then), otherwise) = box_three(alloc, arguments)?;
    Ok(Call::If(test, then, otherwise))
}

/// A call of a function of one argument.
pub fn unary_call(
    alloc: Global,
    function: UnaryFunction,
    argument: Expression,
) -> Result<Call, AllocError>
    ensures { IfOk result (λ c. c ≡ Call.Unary function argument) }
{
    Ok(Call::Unary(function, Boxed::new(alloc, argument)?))
}

/// A call of a function of two arguments.
pub fn binary_call(
    alloc: Global,
    function: BinaryFunction,
    arguments: (Expression, Expression),
) -> Result<Call, AllocError>
    ensures { IfOk result (λ c. c ≡ Call.Binary function arguments.0 arguments.1) }
{
    let (first, second) = box_pair(alloc, arguments)?;
    Ok(Call::Binary(function, first, second))
}

/// A comparison, or the operand alone.
pub fn with_relation(
    alloc: Global,
    first: Expression,
    relation: Option<Relation>,
) -> Result<Expression, AllocError>
    ensures { IfOk result (λ e. e ≡ related first relation) }
{
    let Some(relation) = relation else {
        return Ok(first);
    };
    match relation {
        Relation::Compared(comparison, second) => {
            let (first, second) = box_pair(alloc, (first, second))?;
            Ok(Expression::Compare(comparison, first, second))
        }
        Relation::Among(list) => Ok(Expression::In(Boxed::new(alloc, first)?, list)),
        Relation::NotAmong(list) => Ok(Expression::NotIn(Boxed::new(alloc, first)?, list)),
    }
}
