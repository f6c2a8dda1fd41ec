//! Expressions (SPARQL 1.1 Query, 17).

use crate::term::Variable;
use qs_syntax_tree::expression::{BinaryFunction, Comparison, Sign, UnaryFunction};
use qs_terms::{Iri, Lit};
use sqlite_items::{Boxed, Items};

#[cycle(expression)]
#[derive(Drop)]
pub enum Expression {
    Variable(Variable),
    Iri(Iri),
    Literal(Lit),
    /// `||`, of two or more
    Or(Items<Expression>),
    /// `&&`, of two or more
    And(Items<Expression>),
    Compare(Comparison, Boxed<Expression>, Boxed<Expression>),
    In(Boxed<Expression>, Items<Expression>),
    NotIn(Boxed<Expression>, Items<Expression>),
    /// `+` and `-`, of two or more
    Sum(Boxed<Expression>, Items<Addend>),
    /// `*`, of two or more
    Product(Items<Expression>),
    /// `!`
    Not(Boxed<Expression>),
    Signed(Sign, Boxed<Expression>),
    Bound(Variable),
    If(Boxed<Expression>, Boxed<Expression>, Boxed<Expression>),
    Coalesce(Items<Expression>),
    Concat(Items<Expression>),
    Unary(UnaryFunction, Boxed<Expression>),
    Binary(BinaryFunction, Boxed<Expression>, Boxed<Expression>),
}

/// A further operand of a sum.
#[cycle(expression)]
#[derive(Drop)]
pub struct Addend {
    pub sign: Sign,
    pub operand: Expression,
}
