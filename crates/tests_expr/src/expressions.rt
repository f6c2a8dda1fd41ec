//! Expressions of the tests.

use qs_base::{box_pair, drop_value};
use qs_expr_meaning::{Addend, BinaryFunction, Comparison, Expr, Sign};
use qs_terms::{Term, TermFault};
use sqlite_items::{Boxed, Items};
use std::alloc::{AllocError, Global};

const INTEGER: &str = "http://www.w3.org/2001/XMLSchema#integer";

/// An operand: a variable, an IRI, or an xsd:integer by its form.
#[derive(Clone, Copy)]
pub enum Operand {
    Variable(usize),
    Iri(&'static str),
    Integer(&'static str),
}

/// What is asked of two operands.
#[derive(Clone, Copy)]
pub enum Asked {
    Compare(Comparison),
    SameTerm,
}

pub fn term(alloc: Global, operand: Operand) -> Result<Term, TermFault> {
    match operand {
        Operand::Variable(number) => Ok(Term::Blank(number as u64)),
        Operand::Iri(text) => Term::iri(alloc, text),
        Operand::Integer(form) => Term::literal(alloc, form, INTEGER),
    }
}

pub fn expr_of(alloc: Global, operand: Operand) -> Result<Expr, TermFault> {
    match operand {
        Operand::Variable(number) => Ok(Expr::Variable(number)),
        _ => match term(alloc, operand) {
            Ok(term) => Ok(Expr::Term(term)),
            Err(fault) => Err(fault),
        },
    }
}

fn both(
    one: Result<Expr, TermFault>,
    other: Result<Expr, TermFault>,
) -> Result<(Expr, Expr), TermFault> {
    match (one, other) {
        (Ok(one), Ok(other)) => Ok((one, other)),
        (Err(fault), Ok(other)) => {
            drop_value(other);
            Err(fault)
        }
        (Ok(one), Err(fault)) => {
            drop_value(one);
            Err(fault)
        }
        (Err(fault), Err(_)) => Err(fault),
    }
}

fn asked_of(asked: Asked, a: Boxed<Expr>, b: Boxed<Expr>) -> Expr {
    match asked {
        Asked::Compare(comparison) => Expr::Compare(comparison, a, b),
        Asked::SameTerm => Expr::Binary(BinaryFunction::SameTerm, a, b),
    }
}

/// The condition.
pub fn condition(alloc: Global, asked: Asked, a: Operand, b: Operand) -> Result<Expr, TermFault> {
    let two = both(expr_of(alloc, a), expr_of(alloc, b))?;
    let (a, b) = box_pair(alloc, two)?;
    Ok(asked_of(asked, a, b))
}

fn conjuncts(alloc: Global, one: Expr, other: Expr) -> Result<Items<Expr>, AllocError> {
    let mut items = Items::new(alloc);
    items.push(one)?;
    items.push(other)?;
    Ok(items)
}

/// `&&`
pub fn conjunction(
    alloc: Global,
    one: Result<Expr, TermFault>,
    other: Result<Expr, TermFault>,
) -> Result<Expr, TermFault> {
    let (one, other) = both(one, other)?;
    let items = conjuncts(alloc, one, other)?;
    Ok(Expr::And(items))
}

fn addends(alloc: Global, operand: Expr) -> Result<Items<Addend>, AllocError> {
    let mut items = Items::new(alloc);
    items.push(Addend {
        sign: Sign::Plus,
        operand,
    })?;
    Ok(items)
}

/// `+`
pub fn sum(alloc: Global, a: Operand, b: Operand) -> Result<Expr, TermFault> {
    let (first, second) = both(expr_of(alloc, a), expr_of(alloc, b))?;
    let more = addends(alloc, second)?;
    let first = Boxed::new(alloc, first)?;
    Ok(Expr::Sum(first, more))
}
