//! Expressions.

use crate::term::{Iri, Literal};
use crate::token::Span;
use sqlite_items::{Boxed, Items};

#[derive(Clone, Copy, PartialEq, Eq)]
pub enum Comparison {
    Equal,
    NotEqual,
    Less,
    Greater,
    LessOrEqual,
    GreaterOrEqual,
}

#[derive(Clone, Copy, PartialEq, Eq)]
pub enum Sign {
    Plus,
    Minus,
}

/// The functions of one argument.
#[derive(Clone, Copy, PartialEq, Eq)]
pub enum UnaryFunction {
    IsIri,
    IsBlank,
    IsLiteral,
    IsNumeric,
    Str,
    Lang,
    Datatype,
    StrLen,
}

/// The functions of two arguments.
#[derive(Clone, Copy, PartialEq, Eq)]
pub enum BinaryFunction {
    SameTerm,
    LangMatches,
    Contains,
    StrStarts,
    StrEnds,
}

#[cycle(expression)]
#[derive(Drop)]
pub enum Expression {
    Var(Span),
    Iri(Iri),
    Literal(Literal),
    Call(Call),
    /// `||`, of two or more
    Or(Items<Operand>),
    /// `&&`, of two or more
    And(Items<Operand>),
    Compare(Comparison, Boxed<Expression>, Boxed<Expression>),
    In(Boxed<Expression>, Items<Expression>),
    NotIn(Boxed<Expression>, Items<Expression>),
    /// `+` and `-`, of two or more
    Sum(Boxed<Operand>, Items<Addend>),
    /// `*`, of two or more
    Product(Items<Operand>),
    /// `!`
    Not(Boxed<Expression>),
    Signed(Sign, Boxed<Expression>),
}

/// An operand of a chain, and where it begins.
#[cycle(expression)]
#[derive(Drop)]
pub struct Operand {
    pub place: usize,
    pub expression: Expression,
}

/// A further operand of a sum.
#[cycle(expression)]
#[derive(Drop)]
pub struct Addend {
    pub sign: Sign,
    pub operand: Operand,
}

#[cycle(expression)]
#[derive(Drop)]
pub enum Call {
    Bound(Span),
    If(Boxed<Expression>, Boxed<Expression>, Boxed<Expression>),
    Coalesce(Items<Expression>),
    Concat(Items<Expression>),
    Unary(UnaryFunction, Boxed<Expression>),
    Binary(BinaryFunction, Boxed<Expression>, Boxed<Expression>),
}

/// What follows the first operand of a comparison or of IN.
#[derive(Drop)]
pub enum Relation {
    Compared(Comparison, Expression),
    Among(Items<Expression>),
    NotAmong(Items<Expression>),
}
