//! Expressions.

use qs_syntax_tree::expression::{BinaryFunction, Comparison, Sign, UnaryFunction};
use qs_terms::Term;
use sqlite_items::{Boxed, Items};

/// An expression of the algebra. A variable is its number in the query.
#[cycle(expr)]
#[derive(Drop)]
pub enum Expr {
    Variable(usize),
    Term(Term),
    /// `||`
    Or(Items<Expr>),
    /// `&&`
    And(Items<Expr>),
    Compare(Comparison, Boxed<Expr>, Boxed<Expr>),
    In(Boxed<Expr>, Items<Expr>),
    NotIn(Boxed<Expr>, Items<Expr>),
    /// `+` and `-`: the first operand, and the others.
    Sum(Boxed<Expr>, Items<Addend>),
    /// `*`: the first operand, and the others.
    Product(Boxed<Expr>, Items<Expr>),
    /// `!`
    Not(Boxed<Expr>),
    Signed(Sign, Boxed<Expr>),
    Bound(usize),
    If(Boxed<Expr>, Boxed<Expr>, Boxed<Expr>),
    Coalesce(Items<Expr>),
    Concat(Items<Expr>),
    Unary(UnaryFunction, Boxed<Expr>),
    Binary(BinaryFunction, Boxed<Expr>, Boxed<Expr>),
}

/// A further operand of a sum.
#[cycle(expr)]
#[derive(Drop)]
pub struct Addend {
    pub sign: Sign,
    pub operand: Expr,
}
