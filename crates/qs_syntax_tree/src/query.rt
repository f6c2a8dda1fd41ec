//! Queries.

use crate::expression::Expression;
use crate::pattern::{Group, InlineData};
use crate::token::Span;
use crate::triples::TriplesSameSubject;
use sqlite_items::Items;

#[derive(Clone, Copy)]
pub struct PrefixDeclaration {
    /// With its `:`.
    pub prefix: Span,
    pub iri: Span,
}

#[derive(Drop)]
pub struct Query {
    pub prologue: Items<PrefixDeclaration>,
    pub form: QueryForm,
    /// The trailing VALUES.
    pub values: Option<InlineData>,
}

#[derive(Drop)]
pub enum QueryForm {
    Select(Select),
    Construct(Construct),
    Ask(Ask),
}

#[derive(Drop)]
pub struct Select {
    pub duplicates: Duplicates,
    pub projection: Projection,
    pub pattern: Group,
    pub modifiers: SolutionModifiers,
}

/// What becomes of solutions that are alike.
#[derive(Clone, Copy, PartialEq, Eq)]
pub enum Duplicates {
    Kept,
    Distinct,
    Reduced,
}

#[derive(Drop)]
pub enum Projection {
    /// `*`
    All,
    Items(Items<SelectItem>),
}

#[derive(Drop)]
pub enum SelectItem {
    Var(Span),
    /// `( .. AS .. )`
    As(Expression, Span),
}

#[derive(Drop)]
pub struct Construct {
    pub template: Items<TriplesSameSubject>,
    /// None in the short form, where the template is the pattern too.
    pub pattern: Option<Group>,
    pub modifiers: SolutionModifiers,
}

#[derive(Drop)]
pub struct Ask {
    pub pattern: Group,
    pub modifiers: SolutionModifiers,
}

#[derive(Drop)]
pub struct SolutionModifiers {
    pub order: Items<OrderCondition>,
    pub limit: Option<Span>,
    pub offset: Option<Span>,
}

#[derive(Drop)]
pub struct OrderCondition {
    pub direction: Direction,
    pub key: Expression,
}

#[derive(Clone, Copy, PartialEq, Eq)]
pub enum Direction {
    Ascending,
    Descending,
}
